ghost use Rattle.std.specs.Prelude.{◌≡◌, ◌≢◌, ◌+◌, ◌<◌, ◌≤◌, [], true, IfOk, length};
ghost use Rattle.nsq_outside.specs.Causes.{DidFails, DidCounts, CountsFault};
ghost use Rattle.nsq_outside.specs.Streams.{IsAmountRead};
ghost use Rattle.nsq_system.specs.Outboxes.{is_broken};

mod closing;
mod socket;

use crate::outbox::Outbox;
use crate::polls::new_poll;
use closing::Closing;
use mio::unix::SourceFd;
use mio::{Events, Interest, Poll, Token};
use nsq_outside::{Conn, Did, Faults, Kind, Read, Sink, Source, Write};
use socket::Socket;
use std::alloc::Global;
use std::io;
use std::net::{Net, TcpStream};
use std::os::fd::AsRawFd;
use std::sync::Wait;
use std::time::Duration;

/// How long a read waits for bytes, in milliseconds.
const READ_WAIT: u64 = 20;

/// From so many writes since the last read on, a read doesn't wait: whoever sends a round of so many messages has more to send.
const BUSY_WRITES: u32 = 64;

/// How long a send waits for the peer to take a byte, in seconds.
const SEND_WAIT: u64 = 5;

/// The token of the stream in the connection's poll.
const STREAM: Token = Token(0);

/// A TCP connection. It tells no content.
///
/// A connection of `Kind::Tcp` gathers what is written, up to 16 KiB: it is sent when no more fits, at the next read, at
/// once where the bytes of one `write` are whole frames that end with an error frame, at `flush`, and when the connection
/// is dropped. Each write is judged alone: an error frame that comes in two is gathered as any bytes are. So `write`
/// answers `Took` before the system has the bytes; where they can't be sent later, that call raises the count of write
/// faults, and the next read answers `Failed`. A connection of `Kind::Http` sends what is written at once.
///
/// A read waits up to 20 ms for bytes, and a send up to 5 s for the peer to take a byte. After a read or a send failed,
/// nothing is read or sent any more, so that no byte is missing between two that were sent.
///
/// A connection that is dropped sends no more. Where bytes of the peer are unread, what it sends is dropped first, until it
/// ends, is silent for some 200 ms, or some 2 s or 64 MiB are over. Where none are unread a connection of `Kind::Tcp` is
/// closed at once; one of `Kind::Http`, whose peer may have been answered in the middle of its request, waits until the peer
/// sends or ends, at most 200 ms.
pub struct TcpConn {
    outbox: Outbox<Socket>,
    poll: Poll,
    events: Events,
    kind: Kind,
    // The writes since the last read.
    writes: u32,
    ended: bool,
    read_faults: Faults,
}

impl TcpConn {
    ghost use Rattle.nsq_system.specs.TcpConns.{IsFreshTcpConn, IsNewTcpConn, IsSameConn, kind_of, gathered_of, ended_of, broken_of, read_faults_of, write_faults_of};

    /// A connection over an open stream. The error is the system's, or want of memory; the stream is closed then.
    pub fn new<N: Net>(rt: &N, alloc: Global, stream: TcpStream, kind: Kind) -> io::Result<TcpConn>
        ensures fresh { IfOk result IsFreshTcpConn }
        ensures kind { IfOk result (λ conn. kind_of conn ≡ kind) }
        ensures unused { IfOk result IsNewTcpConn }
    {
        let (poll, events) = watch(rt, alloc, &stream)?;
        Ok(TcpConn {
            outbox: Outbox::new(alloc, Socket::new(stream))?,
            poll,
            events,
            kind,
            writes: 0,
            ended: false,
            read_faults: Faults::none(),
        })
    }

    /// How often a read failed.
    pub fn read_faults(&self) -> u64
        ensures { result ≡ read_faults_of self.now }
    {
        self.read_faults.count
    }

    /// How often a write failed, or bytes that were taken couldn't be sent.
    pub fn write_faults(&self) -> u64
        ensures { result ≡ write_faults_of self.now }
    {
        self.outbox.faults()
    }

    /// Sends what was gathered, if anything was. It may wait. After `Failed` the gathered bytes are lost.
    pub fn flush(&mut self) -> Did
        ensures gathered { gathered_of self.new ≡ [] }
        ensures ended { ended_of self.new ≡ ended_of self.old }
        ensures read_faults { read_faults_of self.new ≡ read_faults_of self.old }
        ensures faults { write_faults_of self.old ≤ write_faults_of self.new }
        ensures cause { DidFails (write_faults_of self.old) (write_faults_of self.new) result }
        ensures same { IsSameConn self.old self.new }
        ensures done { result ≡ Did.Done → broken_of self.new ≡ broken_of self.old }
        ensures settled { result ≡ Did.Done → write_faults_of self.new ≡ write_faults_of self.old }
        ensures broken { result ≡ Did.Failed → broken_of self.new ≡ true }
        ensures breaks { write_faults_of self.old < write_faults_of self.new → broken_of self.new ≡ true }
        ensures counted { DidCounts (write_faults_of self.old) (write_faults_of self.new) result }
        ensures nothing { gathered_of self.old ≡ [] → result ≡ Did.Done }
        ensures failed { broken_of self.old ≡ true → gathered_of self.old ≢ [] → result ≡ Did.Failed }
    {
        self.outbox.flush()
    }
}

/// Sets a stream up, and opens the poll with which it is waited for.
fn watch<N: Net>(rt: &N, alloc: Global, stream: &TcpStream) -> io::Result<(Poll, Events)> {
    set_up(stream)?;
    let (poll, events) = new_poll(rt, alloc, 1)?;
    let descriptor = stream.as_raw_fd();
    poll.registry()
        .register(&mut SourceFd(&descriptor), STREAM, Interest::READABLE)?;
    Ok((poll, events))
}

/// Sees to it that a stream doesn't block, sends at once, and where a send waits it does so for a limited time.
fn set_up(stream: &TcpStream) -> io::Result<()> {
    stream.set_nonblocking(true)?;
    stream.set_nodelay(true)?;
    stream.set_write_timeout(Some(Duration::from_secs(SEND_WAIT)))
}

/// How long a read waits that follows so many writes.
fn patience(writes: u32) -> Duration {
    let most = if writes < BUSY_WRITES { READ_WAIT } else { 0 };
    Duration::from_millis(most)
}

/// Waits for bytes, at most so long. Without an answer of the system it is `None`, and else whether some came.
fn wait(poll: &mut Poll, events: &mut Events, most: Duration) -> Option<bool> {
    match poll.poll(events, Some(most)) {
        Ok(()) => Some(!events.is_empty()),
        Err(_) => None,
    }
}

/// Receives a piece, after a wait where none has come yet. From a broken connection it receives nothing.
fn receive_or_wait(
    outbox: &Outbox<Socket>,
    poll: &mut Poll,
    events: &mut Events,
    most: Duration,
    into: &mut [u8],
) -> Read
    requires { 0 < length into.old }
    ensures amount { IsAmountRead result (length into.old) }
    ensures failed { is_broken outbox.now ≡ true → result ≡ Read.Failed }
{
    if outbox.is_broken() {
        return Read::Failed;
    }
    let first = outbox.writer().receive(into);
    if first != Read::Nothing {
        return first;
    }
    match wait(poll, events, most) {
        Some(true) => outbox.writer().receive(into),
        Some(false) => Read::Nothing,
        None => Read::Failed,
    }
}

impl Source for TcpConn {
    ghost use Rattle.std.specs.Prelude.{false};
    ghost use Rattle.nsq_system.specs.TcpConns.{IsSameConn, SendsFirst, no_pieces, no_bytes, gathered_of, broken_of, ended_of, read_faults_of, write_faults_of};
    ghost use Rattle.nsq_outside.specs.Streams.{IsAmountRead, EndsWith, ReadFails, ReadCounts};

    ghost tells_pieces = { false };

    ghost pieces = { no_pieces };

    ghost left = { no_bytes };

    ghost ended = { ended_of };

    ghost read_faults = { read_faults_of };

    ghost may_read = { λ a b. write_faults_of a ≤ write_faults_of b };

    fn read<R: Wait>(&mut self, _rt: &R, into: &mut [u8]) -> Read
        requires { 0 < length into.old }
        ensures amount { IsAmountRead result (length into.old) }
        ensures end { EndsWith (ended_of self.old) (ended_of self.new) result }
        ensures write_faults { write_faults_of self.old ≤ write_faults_of self.new }
        ensures faults { read_faults_of self.old ≤ read_faults_of self.new }
        ensures cause { ReadFails (read_faults_of self.old) (read_faults_of self.new) result }
        ensures gathered { gathered_of self.new ≡ [] }
        ensures same { IsSameConn self.old self.new }
        ensures failed { broken_of self.old ≡ true → ended_of self.old ≡ false → result ≡ Read.Failed }
        ensures lost { write_faults_of self.old < write_faults_of self.new → ended_of self.old ≡ false → result ≡ Read.Failed }
        ensures broken { result ≡ Read.Failed → broken_of self.new ≡ true }
        ensures counted { ReadCounts (read_faults_of self.old) (read_faults_of self.new) result }
        ensures breaks { write_faults_of self.old < write_faults_of self.new → broken_of self.new ≡ true }
        ensures sends { SendsFirst self.old self.new result }
    {
        // Where it fails the connection is broken.
        let _ = self.flush();
        let most = patience(self.writes);
        self.writes = 0;
        if self.ended {
            return Read::End;
        }
        let answer = receive_or_wait(&self.outbox, &mut self.poll, &mut self.events, most, into);
        match answer {
            Read::End => self.ended = true,
            Read::Failed => {
                self.outbox.stop();
                self.read_faults.add();
            }
            Read::Got(_) | Read::Nothing => {}
        }
        answer
    }

    ghost read_faults_fit = { λ conn. conn.read_faults.fits };
}

impl Sink for TcpConn {
    ghost use Rattle.std.specs.Prelude.{false};
    ghost use Rattle.nsq_system.specs.Sendings.{Gathers, SendsErrors, KeepsOthers};
    ghost use Rattle.nsq_system.specs.TcpConns.{IsSameConn, TookBreaks, BreaksAtErrors, no_bytes, kind_of, gathered_of, broken_of, ended_of, read_faults_of, write_faults_of};
    ghost use Rattle.nsq_outside.specs.Streams.{IsAmountWritten, WriteFails};

    ghost tells_written = { false };

    ghost written = { no_bytes };

    ghost write_faults = { write_faults_of };

    ghost may_write = { λ a b. (ended_of b ≡ ended_of a) × (read_faults_of b ≡ read_faults_of a) };

    fn write<R: Wait>(&mut self, _rt: &R, from: &[u8]) -> Write
        requires { 0 < length from.now }
        ensures amount { IsAmountWritten result (length from.now) }
        ensures ended { ended_of self.new ≡ ended_of self.old }
        ensures read_faults { read_faults_of self.new ≡ read_faults_of self.old }
        ensures faults { write_faults_of self.old ≤ write_faults_of self.new }
        ensures cause { WriteFails (write_faults_of self.old) (write_faults_of self.new) result }
        ensures gathered { kind_of self.old ≡ Kind.Tcp → Gathers (gathered_of self.old) (gathered_of self.new) from.now result }
        ensures at_once { kind_of self.old ≡ Kind.Http → gathered_of self.new ≡ [] }
        ensures same { IsSameConn self.old self.new }
        ensures failed { broken_of self.old ≡ true → result ≡ Write.Failed }
        ensures took { TookBreaks self.old self.new result }
        ensures errors { SendsErrors from.now (gathered_of self.new) result }
        ensures room { kind_of self.old ≡ Kind.Tcp → KeepsOthers (gathered_of self.old) (gathered_of self.new) from.now result }
        ensures taken { kind_of self.old ≡ Kind.Tcp → broken_of self.old ≡ false → length (gathered_of self.old) + length from.now ≤ 16384 → result ≡ Write.Took (length from.now) }
        ensures broken { result ≡ Write.Failed → broken_of self.new ≡ true }
        ensures counted { CountsFault (write_faults_of self.old) (write_faults_of self.new) (broken_of self.new) }
        ensures breaks { BreaksAtErrors from.now self.new result }
    {
        self.writes = self.writes.saturating_add(1);
        match self.kind {
            Kind::Tcp => self.outbox.gather(from),
            Kind::Http => self.outbox.send_through(from),
        }
    }

    ghost write_faults_fit = { λ conn. conn.outbox.faults.fits };
}

impl Conn for TcpConn {
    ghost use Rattle.std.specs.Prelude.{refl};
    ghost use Rattle.std.proofs.Common.{sym};
    ghost use Rattle.std.proofs.Math.Nat.{le_of_eq};

    ghost read_keeps = { λ a b h. (refl, h) };

    ghost write_keeps = { λ a b h. (refl, refl, h.0, le_of_eq (sym h.1)) };
}

impl Drop for TcpConn {
    fn drop(mut self) {
        // Nobody is left to be told that the bytes couldn't be sent.
        let _ = self.flush();
        let TcpConn {
            outbox,
            poll,
            events,
            kind,
            writes: _writes,
            ended,
            read_faults: _read_faults,
        } = self;
        let mut closing = Closing::new(outbox, poll, events, kind == Kind::Http && !ended);
        closing.finish();
    }
}
