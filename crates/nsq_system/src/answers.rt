//! What the system's answers mean.
ghost use Rattle.std.specs.Prelude.{◌≡◌};
ghost use Rattle.std.specs.IoError.{raw_os_error};
ghost use Rattle.nsq_system.specs.Answers.{no_caller_at, no_caller_of, reading_of, AfterRead, UnlessAbsent};

use std::io;
use std::io::ErrorKind;
use std::time::Duration;

/// Why `accept` gave no caller.
#[derive(Clone, Copy)]
pub enum NoCaller {
    /// Nobody called yet.
    Nobody,
    /// A caller was lost before it was accepted, or the call was interrupted. Another caller may wait.
    Lost,
    /// The system is out of descriptors or memory.
    Shortage,
    /// The listener failed.
    Broken,
}

/// What a read of a part of a file gave.
#[derive(Clone, Copy)]
pub enum PartRead {
    /// So many bytes, at least one.
    Got(usize),
    /// The file ends there.
    End,
    /// The call was interrupted.
    Interrupted,
    /// The system failed.
    Failed(io::Error),
}

// Linux's numbers of errors.
const EPERM: i32 = 1;

const EINTR: i32 = 4;

const EAGAIN: i32 = 11;

const ENOMEM: i32 = 12;

const ENFILE: i32 = 23;

const EMFILE: i32 = 24;

const ENONET: i32 = 64;

const EPROTO: i32 = 71;

const ENOPROTOOPT: i32 = 92;

const EOPNOTSUPP: i32 = 95;

const ENETDOWN: i32 = 100;

const ENETUNREACH: i32 = 101;

const ECONNABORTED: i32 = 103;

const ENOBUFS: i32 = 105;

const EHOSTDOWN: i32 = 112;

const EHOSTUNREACH: i32 = 113;

/// The errors by which a caller was lost: an interrupted call, a connection that was given up or that a firewall forbids, and
/// the errors of its network, which accept(2) passes on.
const LOST: [i32; 11] = [
    EPERM,
    EINTR,
    ENONET,
    EPROTO,
    ENOPROTOOPT,
    EOPNOTSUPP,
    ENETDOWN,
    ENETUNREACH,
    ECONNABORTED,
    EHOSTDOWN,
    EHOSTUNREACH,
];

/// The errors of a system that is out of descriptors or memory.
const SHORTAGES: [i32; 4] = [ENOMEM, ENFILE, EMFILE, ENOBUFS];

/// What an error of `accept` means.
pub fn no_caller(error: &io::Error) -> NoCaller
    ensures { result ≡ no_caller_of (raw_os_error error.now) }
{
    match error.raw_os_error() {
        Some(code) => no_caller_by(code),
        None => NoCaller::Broken,
    }
}

/// What the error of a number means.
fn no_caller_by(code: i32) -> NoCaller
    ensures { result ≡ no_caller_at code }
{
    if code == EAGAIN {
        return NoCaller::Nobody;
    }
    if LOST.contains(&code) {
        return NoCaller::Lost;
    }
    if SHORTAGES.contains(&code) {
        return NoCaller::Shortage;
    }
    NoCaller::Broken
}

/// The reading of a clock whose last one is given, in nanoseconds and at most 2^64 - 1: that of the system, also an earlier
/// one, and the last one where the system gives none.
pub fn reading(last: u64, since_1970: io::Result<Duration>) -> u64
    ensures { result ≡ reading_of last since_1970 }
{
    match since_1970 {
        Ok(time) => time.as_nanos().min(u64::MAX as u128) as u64,
        Err(_) => last,
    }
}

/// What a read of a part of a file gave.
pub fn after_read(outcome: io::Result<usize>) -> PartRead
    ensures { AfterRead outcome result }
{
    match outcome {
        Ok(0) => PartRead::End,
        Ok(count) => PartRead::Got(count),
        Err(error) if error.kind() == ErrorKind::Interrupted => PartRead::Interrupted,
        Err(error) => PartRead::Failed(error),
    }
}

/// A call on an absent file does nothing, and is no error.
pub fn unless_absent(outcome: io::Result<()>) -> io::Result<()>
    ensures { UnlessAbsent outcome result }
{
    match outcome {
        Err(error) if error.kind() == ErrorKind::NotFound => Ok(()),
        other => other,
    }
}
