use crate::Said;
use nsq_base::Names;
use v2_frame::Frame;

/// What a turn answers.
#[derive(Drop)]
pub enum Turned {
    /// The connection began.
    Begun,
    /// The reply to a command or to a fault, and whether the connection is closed after it.
    Reply(Frame, bool),
    /// The command was carried out, and has no reply; or a tick was made.
    Quiet,
    /// The client's channel was deleted, and the connection is closed.
    Deleted,
    /// The daemon stops, or has stopped.
    Stopping,
    /// A message or a heartbeat is to be sent.
    Send(Frame),
    /// There is nothing to send, or a disk fault kept it from being sent.
    Idle,
    /// The client was silent for too long, and the connection is closed.
    Silent,
    /// The connection is gone.
    Ended,
    /// This is said to what was asked.
    Said(Said),
    /// The names of all topics and channels, and the moment of the turn in nanoseconds.
    Listed(Names, u64),
    /// The client of this number isn't there, or the one that begins is there already. Nothing was noted.
    Strange,
    /// There is no memory. The moves that were made stand, and no act was made.
    Memory,
}
