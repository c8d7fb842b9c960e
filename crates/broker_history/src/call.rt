use crate::Ask;
use v2_frame::{Command, Fault};

/// What is asked of the floor, in one turn.
#[derive(Drop)]
pub enum Call {
    /// The connection begins.
    Begin,
    /// It sent this command.
    Command(Command),
    /// Its bytes have this fault.
    Bad(Fault),
    /// It is ready for what is to be sent to it: a message, a heartbeat, or that there is nothing.
    Next,
    /// It ends.
    Gone,
    /// Something is asked over HTTP.
    Ask(Ask),
    /// The names of all topics and channels are to be listed.
    Names,
    /// The daemon is to look at its clock, to move what is due, and to save queues that weren't saved for the sync timeout.
    Tick,
    /// The daemon is to take no further command.
    Stop,
}
