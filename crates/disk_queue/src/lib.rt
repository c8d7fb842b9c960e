//! A queue of records on disk: an unbounded list that a folder keeps. It writes go-diskqueue's layout (nsqio/go-diskqueue).
//!
//! The files always hold the list, also after a call that failed, and an opening finds it once it is saved (`queue_image` says
//! what an opening finds). No call but `Queue::fresh` and `Queue::open` takes memory.
//!
//! It hands on what it is opened with and why an opening is refused, of `queue_opening`.
#![tactic(auto)]

mod answers;
mod queue;
mod standing;

pub use answers::{Deleted, Emptied, Peek, Put, Stage, Sync, Take};
pub use queue::Queue;
pub use queue_opening::{Open, QueueOptions, replace_file, switch, write_temp};
