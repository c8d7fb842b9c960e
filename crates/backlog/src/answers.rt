use crate::Backlog;
use v2_frame::Message;

/// The answer of `Backlog::put`.
#[derive(Drop)]
pub enum PutOne {
    /// The message is the ring's last.
    Kept,
    /// The ring is full and there is no disk: the message is dropped.
    Dropped,
    /// The ring is full: the message is the last on disk, without its delay.
    Spilled,
    /// The ring is full, and the folder failed: its count of faults rose in this call. The message, as it came.
    Fault(Message),
}

/// The answer of `Backlog::put_all`.
#[derive(Clone, Copy, PartialEq)]
pub enum PutAll {
    /// None is left with the caller: the ring has the first, as far as it has room; the others are on disk or, where there is no disk,
    /// dropped.
    Done,
    /// The folder failed, and its count of faults rose in this call. None is taken.
    Fault,
}

/// The answer of `Backlog::draw`.
#[derive(Drop)]
pub enum Drawn {
    /// The first message.
    Got(Message),
    /// There is none.
    Empty,
    /// The folder failed, and its count of faults rose in this call.
    Fault,
    /// Where the first message on disk should be no record stands. The file is passed over.
    Damaged,
    /// Want of memory for the first message, which is on disk and stays there.
    Memory,
}

/// The answer of `Backlog::flush`.
#[derive(Clone, Copy, PartialEq)]
pub enum Flushed {
    /// All is on disk, and saved.
    Done,
    /// The folder failed, and its count of faults rose in this call.
    Fault,
}

/// The answer of `Backlog::delete`.
#[derive(Drop)]
pub enum Gone {
    /// Its messages are gone, and an opening finds none. Files may be left where a removal failed.
    Done,
    /// The folder failed, and its count of faults rose in this call. The backlog, with its messages.
    Fault(Backlog),
}

/// How many messages wait, and where. A message that was drawn and isn't settled is counted where it came from.
#[derive(Clone, Copy, PartialEq)]
pub struct Depths {
    /// In the ring.
    pub ring: u64,
    /// On disk.
    pub disk: u128,
}
