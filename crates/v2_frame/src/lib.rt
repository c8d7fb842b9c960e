//! The V2 stream of NSQ (nsq.io, TCP Protocol Spec): its commands, frames and messages, as a daemon reads and writes them.
//!
//! Contracts speak of whole byte lists: `Spells` says which bytes spell a command, `IsScript` which commands stand in a row
//! in a stream and whether what follows is a fault or not yet finished. No cut of the stream into pieces changes its script,
//! which is a law of `stream_laws`, as all that follows from these definitions.
//! `judge_front` says what stands at a command's start of whole bytes, and `Reader` gives a stream's script piece by piece.
//! `frame_bytes` and `message_bytes` say what a frame and a message are.
#![tactic(auto)]

mod append;
mod batch;
mod bytes;
mod command;
mod fault;
mod frame;
mod got;
mod heading;
mod judge;
mod line;
mod message;
mod number;
mod reader;
mod start;
mod write;

pub use append::append_all;
pub use bytes::drop_front;
pub use command::Command;
pub use fault::{Fault, FaultKind, Limits, Rest};
pub use frame::{Frame, FrameKind};
pub use got::Got;
pub use judge::{Found, judge_front, told_place};
pub use message::{Message, Taken};
pub use reader::Reader;
pub use write::{size_bytes, write_frame, write_frame_of};
