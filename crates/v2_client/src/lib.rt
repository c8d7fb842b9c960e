//! A client's side of the V2 stream of NSQ (nsq.io, TCP Protocol Spec): the commands that it writes, and the frames that it reads.
//!
//! Contracts speak of whole byte lists, in the words of `v2_frame`. `write_command` appends a command's `canonical` spelling, and
//! `CanWrite` says what it asks of the command. `AreFrames` says which frames stand in a row in a stream, and `HasGiven` that a
//! reader of frames gave out those of all that was fed, whatever the pieces were.
#![tactic(auto)]

pub mod frame_laws;
mod frame_reader;
mod write;

pub use frame_reader::{FrameReader, GotFrame};
pub use write::write_command;
