//! What waits in a topic or a channel: messages in a ring in memory and, where it is durable, behind them those that found the ring
//! full, in a queue on disk.
//!
//! Contracts see a backlog as the messages of its ring, the ring's capacity, the queue as `disk_queue` sees it, and where the message
//! came from that was drawn last and isn't settled. Its list is the ring and then what is on disk, and the files tell that.
//!
//! It hands on what `disk_queue` says of the queue on disk, which is a part of it.
#![tactic(auto)]

mod answers;
mod backlog;
mod writing;

pub use answers::{Depths, Drawn, Flushed, Gone, PutAll, PutOne};
pub use backlog::Backlog;
pub use disk_queue::{Emptied, Open, QueueOptions, Sync};
