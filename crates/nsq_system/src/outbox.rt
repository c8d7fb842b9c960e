//! Bytes on their way to a writer.
ghost use Rattle.std.specs.Prelude.{◌≡◌, ◌≢◌, ◌+◌, ◌<◌, ◌≤◌, ◌⊎◌, ◌++◌, List, ℕ, [], take, true, false, IfOk, IfSome, IfNone, IsTrue, length, vec_capacity};
ghost use Rattle.std.specs.Io.KnownBytes.{Keeps, Appends};
ghost use Rattle.nsq_outside.specs.Causes.{DidFails, DidCounts, CountsFault};
ghost use Rattle.nsq_outside.specs.Streams.{IsAmountWritten, WriteFails};
ghost use Rattle.nsq_system.specs.Sendings.{SendsSome, IsDelivered, taken_by, Gathers, SendsErrors, KeepsOthers};

use crate::error_frames::ends_with_error_frame;
use nsq_outside::{Did, Faults, Write};
use std::alloc::{AllocError, Global};
use std::io;
use std::io::ErrorKind;

/// The most bytes that are gathered before they are sent.
const MOST_GATHERED: usize = 16384;

/// How often an interrupted send is tried again.
const MOST_INTERRUPTS: u32 = 1000;

/// Bytes on their way to a writer: it gathers what it takes, up to 16 KiB, and sends it in order.
///
/// What was taken is what the writer holds, and behind it what waits here. After a send failed it sends nothing any more, so
/// that no byte is missing between two that the writer holds.
#[derive(Drop)]
pub struct Outbox<W> {
    writer: W,
    // It has room for `MOST_GATHERED` bytes from the start, so that to gather never wants memory.
    gathered: Vec<u8>,
    broken: bool,
    faults: Faults,
    ghost bound: { length gathered.items ≤ 16384 },
    ghost room: { 16384 ≤ vec_capacity gathered },
}

impl<W: io::Write + Drop> Outbox<W> {
    ghost use Rattle.nsq_system.specs.Outboxes.{IsNewOutbox, gathered_in, writer_of, is_broken, faults_in, TakesOrBreaks, BreaksAtError, StaysBroken};

    /// Nothing is on its way to this writer yet.
    pub fn new(alloc: Global, writer: W) -> Result<Outbox<W>, AllocError>
        ensures unused { IfOk result IsNewOutbox }
        ensures writer { IfOk result (λ outbox. writer_of outbox ≡ writer) }
    {
        Ok(Outbox {
            writer,
            gathered: Vec::with_capacity(alloc, MOST_GATHERED)?,
            broken: false,
            faults: Faults::none(),
        })
    }

    /// The writer.
    pub fn writer(&self) -> &W
        ensures { result.now ≡ writer_of self.now }
    {
        &self.writer
    }

    /// Whether it sends nothing any more.
    pub fn is_broken(&self) -> bool
        ensures { result ≡ is_broken self.now }
    {
        self.broken
    }

    /// How often bytes couldn't be sent.
    pub fn faults(&self) -> u64
        ensures { result ≡ faults_in self.now }
    {
        self.faults.count
    }

    /// From now on it sends nothing.
    pub fn stop(&mut self)
        ensures broken { is_broken self.new ≡ true }
        ensures rest { self.new ≡ record self.old { broken = true } }
    {
        self.broken = true;
    }

    /// Sends what was gathered, if anything was. After `Failed` the gathered bytes are lost.
    pub fn flush(&mut self) -> Did
        ensures delivered { (taken : List ℕ) → IsDelivered (W.contents self.old.writer) (gathered_in self.old) (is_broken self.old) taken → IsDelivered (W.contents self.new.writer) (gathered_in self.new) (is_broken self.new) taken }
        ensures gathered { gathered_in self.new ≡ [] }
        ensures faults { faults_in self.old ≤ faults_in self.new }
        ensures cause { DidFails (faults_in self.old) (faults_in self.new) result }
        ensures counted { DidCounts (faults_in self.old) (faults_in self.new) result }
        ensures stays { StaysBroken self.old self.new }
        ensures done { result ≡ Did.Done → is_broken self.new ≡ is_broken self.old }
        ensures broken { result ≡ Did.Failed → is_broken self.new ≡ true }
        ensures nothing { gathered_in self.old ≡ [] → result ≡ Did.Done }
        ensures failed { is_broken self.old ≡ true → gathered_in self.old ≢ [] → result ≡ Did.Failed }
    {
        if self.gathered.is_empty() {
            return Did::Done;
        }
        if send_all_unless(self.broken, &mut self.writer, self.gathered.as_slice()) {
            self.gathered.clear();
            return Did::Done;
        }
        self.gathered.clear();
        self.broken = true;
        self.faults.add();
        Did::Failed
    }

    /// Gathers these bytes behind those that wait. Where there is too little room those are sent first, and more than there
    /// can be room for go through. Whole frames of which the last is an error frame are sent at once.
    pub fn gather(&mut self, from: &[u8]) -> Write
        requires { 0 < length from.now }
        ensures delivered { (taken : List ℕ) → IsDelivered (W.contents self.old.writer) (gathered_in self.old) (is_broken self.old) taken → IsDelivered (W.contents self.new.writer) (gathered_in self.new) (is_broken self.new) (taken ++ taken_by from.now result) }
        ensures amount { IsAmountWritten result (length from.now) }
        ensures gathered { Gathers (gathered_in self.old) (gathered_in self.new) from.now result }
        ensures faults { faults_in self.old ≤ faults_in self.new }
        ensures cause { WriteFails (faults_in self.old) (faults_in self.new) result }
        ensures counted { CountsFault (faults_in self.old) (faults_in self.new) (is_broken self.new) }
        ensures stays { StaysBroken self.old self.new }
        ensures failed { is_broken self.old ≡ true → result ≡ Write.Failed }
        ensures broken { result ≡ Write.Failed → is_broken self.new ≡ true }
        ensures breaks { BreaksAtError from.now self.new result }
        ensures errors { SendsErrors from.now (gathered_in self.new) result }
        ensures room { KeepsOthers (gathered_in self.old) (gathered_in self.new) from.now result }
        ensures taken { is_broken self.old ≡ false → length (gathered_in self.old) + length from.now ≤ 16384 → result ≡ Write.Took (length from.now) }
    {
        if MOST_GATHERED < from.len() {
            return self.send_through(from);
        }
        match self.make_room(from.len()) {
            Did::Done => {}
            Did::Failed => return Write::Failed,
        }
        if !gather_unless(self.broken, &mut self.gathered, from) {
            self.faults.add();
            return Write::Failed;
        }
        if !ends_with_error_frame(from) {
            return Write::Took(from.len());
        }
        // A failure shows at the next call: the bytes were taken.
        let _ = self.flush();
        Write::Took(from.len())
    }

    /// Sends what was gathered, and then a part of these bytes from their front.
    pub fn send_through(&mut self, from: &[u8]) -> Write
        requires { 0 < length from.now }
        ensures delivered { (taken : List ℕ) → IsDelivered (W.contents self.old.writer) (gathered_in self.old) (is_broken self.old) taken → IsDelivered (W.contents self.new.writer) (gathered_in self.new) (is_broken self.new) (taken ++ taken_by from.now result) }
        ensures amount { IsAmountWritten result (length from.now) }
        ensures gathered { gathered_in self.new ≡ [] }
        ensures faults { faults_in self.old ≤ faults_in self.new }
        ensures cause { WriteFails (faults_in self.old) (faults_in self.new) result }
        ensures counted { CountsFault (faults_in self.old) (faults_in self.new) (is_broken self.new) }
        ensures stays { StaysBroken self.old self.new }
        ensures failed { is_broken self.old ≡ true → result ≡ Write.Failed }
        ensures breaks { TakesOrBreaks self.new result }
    {
        match self.flush() {
            Did::Done => {}
            Did::Failed => return Write::Failed,
        }
        if let Some(sent) = send_unless(self.broken, &mut self.writer, from) {
            return Write::Took(sent);
        }
        self.broken = true;
        self.faults.add();
        Write::Failed
    }

    /// Makes room for so many bytes more. Where there is too little, what was gathered is sent.
    fn make_room(&mut self, len: usize) -> Did
        requires { len ≤ 16384 }
        ensures delivered { (taken : List ℕ) → IsDelivered (W.contents self.old.writer) (gathered_in self.old) (is_broken self.old) taken → IsDelivered (W.contents self.new.writer) (gathered_in self.new) (is_broken self.new) taken }
        ensures room { result ≡ Did.Done → length (gathered_in self.new) + len ≤ 16384 }
        ensures gathered { (gathered_in self.new ≡ gathered_in self.old) ⊎ (gathered_in self.new ≡ []) }
        ensures fits { length (gathered_in self.old) + len ≤ 16384 → gathered_in self.new ≡ gathered_in self.old }
        ensures there { length (gathered_in self.old) + len ≤ 16384 → result ≡ Did.Done }
        ensures faults { faults_in self.old ≤ faults_in self.new }
        ensures cause { DidFails (faults_in self.old) (faults_in self.new) result }
        ensures counted { DidCounts (faults_in self.old) (faults_in self.new) result }
        ensures stays { StaysBroken self.old self.new }
        ensures done { result ≡ Did.Done → is_broken self.new ≡ is_broken self.old }
        ensures broken { result ≡ Did.Failed → is_broken self.new ≡ true }
    {
        if len <= MOST_GATHERED - self.gathered.len() {
            return Did::Done;
        }
        self.flush()
    }
}

/// Gathers these bytes behind others, for which there is room. A broken outbox gathers none.
fn gather_unless(broken: bool, gathered: &mut Vec<u8>, from: &[u8]) -> bool
    requires { length gathered.old.items + length from.now ≤ vec_capacity gathered.old }
    ensures gathers { IsTrue result → (broken ≡ false) × (gathered.new.items ≡ gathered.old.items ++ from.now) }
    ensures refuses { result ≡ false → (broken ≡ true) × (gathered.new.items ≡ gathered.old.items) }
    ensures capacity { vec_capacity gathered.old ≤ vec_capacity gathered.new }
{
    if broken {
        return false;
    }
    gathered.extend_from_slice(from).is_ok()
}

/// Sends all these bytes, as `send_all`. A broken outbox sends none.
fn send_all_unless<W: io::Write>(broken: bool, writer: &mut W, bytes: &[u8]) -> bool
    ensures all { IsTrue result → (broken ≡ false) × Appends (W.contents writer.old) (W.contents writer.new) bytes.now }
    ensures some { broken ≡ false → SendsSome (W.contents writer.old) (W.contents writer.new) bytes.now }
    ensures kept { broken ≡ true → writer.new ≡ writer.old }
{
    if broken {
        return false;
    }
    send_all(writer, bytes)
}

/// Sends all these bytes, or tells that a part of them can't be sent.
fn send_all<W: io::Write>(writer: &mut W, bytes: &[u8]) -> bool
    ensures all { IsTrue result → Appends (W.contents writer.old) (W.contents writer.new) bytes.now }
    ensures some { SendsSome (W.contents writer.old) (W.contents writer.new) bytes.now }
{
    let mut rest = bytes;
    while !rest.is_empty() {
        let Some(sent) = send(writer, rest) else {
            return false;
        };
        rest = &rest[sent..];
    }
    true
}

/// Sends bytes from the front of these, as `send`. A broken outbox sends none.
fn send_unless<W: io::Write>(broken: bool, writer: &mut W, bytes: &[u8]) -> Option<usize>
    ensures some { IfSome result (λ n. 0 < n) }
    ensures bound { IfSome result (λ n. n ≤ length bytes.now) }
    ensures sent { IfSome result (λ n. Appends (W.contents writer.old) (W.contents writer.new) (take n bytes.now)) }
    ensures whole { IfSome result (λ _. broken ≡ false) }
    ensures none { IfNone result (Keeps (W.contents writer.old) (W.contents writer.new)) }
    ensures kept { broken ≡ true → writer.new ≡ writer.old }
{
    if broken {
        return None;
    }
    send(writer, bytes)
}

/// Sends bytes from the front of these, and returns how many. It is `None` where the writer fails, or takes no byte.
fn send<W: io::Write>(writer: &mut W, bytes: &[u8]) -> Option<usize>
    ensures some { IfSome result (λ n. 0 < n) }
    ensures bound { IfSome result (λ n. n ≤ length bytes.now) }
    ensures sent { IfSome result (λ n. Appends (W.contents writer.old) (W.contents writer.new) (take n bytes.now)) }
    ensures none { IfNone result (Keeps (W.contents writer.old) (W.contents writer.new)) }
{
    for _ in 0..MOST_INTERRUPTS {
        match writer.write(bytes) {
            Ok(0) => return None,
            Ok(sent) => return Some(sent),
            Err(error) if error.kind() == ErrorKind::Interrupted => {}
            Err(_) => return None,
        }
    }
    None
}
