//! What a drill of the daemon is made of, below the run itself: what is drawn, what the callers send, the host in memory, and what is counted in its history
//! and left in its folder.
//!
//! `laws` has what follows from the definitions of a history for one in which no message is dropped, emptied or deleted: each function's contract there is a law,
//! and its body is empty.
#![tactic(auto)]

mod callers;
mod counting;
mod draws;
mod host;
pub mod laws;
mod left;

pub use callers::{consumer, publisher};
pub use counting::{finished_in, published_in, sent_in};
pub use draws::{Publish, draw};
pub use host::{drill_options, host_of};
pub use left::left_in;
