//! A topic's messages: those that wait, and the one that was taken, with the channels that are still owed a copy of it.
//!
//! Contracts see a topic's queue as its name, whether it is paused, its count of messages, its backlog as `backlog` sees it, and its
//! head: the message that was drawn or taken, with the owed channels. What each call moves is said of the topic in a state of
//! `broker_history` that the queue is, in the files of the folder that is handed in.
#![tactic(auto)]

mod answers;
pub mod laws;
mod topic_queue;

pub use answers::{DropTopic, Head};
pub use topic_queue::TopicQueue;
