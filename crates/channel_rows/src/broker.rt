//! The plain program of the whole broker, beside a channel and beside a topic's queue: after each call the answer and the counts are those of a state
//! to which a step leads from one that was possible before.

pub mod beside;
pub mod channels;
mod entries;
mod files;
mod possible;
mod starting;
mod told;
mod topics;
mod topics_beside;
