//! Names, ids, bodies and options of an NSQ daemon: the plain values that every other crate speaks of.
//!
//! Contracts see a topic, a channel, an id and a body as the list of its bytes, and a list of them as a list.
//! A value of a name type always is a name by the grammar. Want of memory is the only error, and leaves a value as it was.
#![tactic(auto)]

mod address;
mod bodies;
mod body;
mod chan;
mod channels;
mod laws;
mod lists;
mod msg_id;
mod name;
mod names;
mod options;
mod pairs;
mod steps;
pub mod time;
mod topic;

pub use address::{is_address, port};
pub use bodies::Bodies;
pub use body::Body;
pub use chan::Chan;
pub use laws::{ids_differ, names_are_in_byte_order, names_are_their_bytes};
pub use msg_id::MsgId;
pub use names::Names;
pub use nsq_core::Memory;
pub use options::Options;
pub use pairs::{Pair, Pairs};
pub use steps::Steps;
pub use topic::Topic;
