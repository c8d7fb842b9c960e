use crate::Channel;
use nsq_base::MsgId;
use v2_frame::Message;

/// The answer of `Channel::offer`.
#[derive(Drop)]
pub enum Offer {
    /// The copy joined the channel, or was dropped for want of room in an ephemeral one.
    Done,
    /// The folder failed, and its count of faults rose in this call. The message, as it came.
    Fault(Message),
    /// Want of memory to defer it. The message, as it came.
    Memory(Message),
}

/// The answer of `Channel::next`.
#[derive(Drop)]
pub enum Next {
    /// The message for the client, with this attempt counted. `sent` or `unsend` comes next.
    Send(Message),
    /// A copy of this id came up while the id is in flight. `settle_held` or `undo_held` comes next.
    Held(MsgId),
    /// The client has as many copies in flight as it asked for.
    NoCredit,
    /// The channel is paused.
    Paused,
    /// No copy is queued.
    NoneQueued,
    /// The folder failed, and its count of faults rose in this call.
    Fault,
    /// Where the first queued copy should be on disk no record stands. The file is passed over.
    Damaged,
    /// Want of memory.
    Memory,
}

/// What `Channel::look` finds of an id.
#[derive(Clone, Copy, PartialEq)]
pub enum Look {
    /// The copy is in flight with the client.
    Yours,
    /// It is in flight with another one.
    NotYours,
    /// It isn't in flight.
    NotInFlight,
}

/// The answer of `Channel::requeue`.
#[derive(Clone, Copy)]
pub enum Requeue {
    /// The copy was given back.
    Done,
    /// The folder failed, and its count of faults rose in this call. The copy is in flight as before.
    Fault,
}

/// The answer of `Channel::move_due`.
#[derive(Clone, Copy)]
pub enum Moved {
    /// A copy of this id was in flight and due, and is put back.
    TimedOut(MsgId),
    /// A deferred copy of this id was due, and is put back.
    CameDue(MsgId),
    /// A copy of this id is due; the folder failed, and its count of faults rose in this call. The copy is where it was.
    Fault(MsgId),
    /// No copy is due.
    Nothing,
}

/// The answer of `Channel::delete`.
#[derive(Drop)]
pub enum DropChannel {
    /// Its copies are gone, and an opening finds none.
    Done,
    /// The folder failed, and its count of faults rose in this call. The channel, with its copies.
    Fault(Channel),
}

/// How many copies a channel has, and what happened to them in this run; the latter counts stay at 2^64 - 1.
#[derive(Clone, Copy)]
pub struct Counts {
    /// How many of the queued copies are on disk.
    pub backend_depth: u128,
    /// How many copies are deferred.
    pub deferred_count: u64,
    /// How many copies are queued.
    pub depth: u128,
    /// How many copies are in flight.
    pub in_flight_count: u64,
    /// How many copies joined it and weren't dropped then.
    pub message_count: u64,
    /// How many copies were given back by clients.
    pub requeue_count: u64,
    /// How many copies timed out in flight.
    pub timeout_count: u64,
}
