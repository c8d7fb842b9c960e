//! Which channels a message is owed to.
//!
//! A topic owes each message that it takes to all of its channels: they are listed here, in room that was made before.
#![tactic(auto)]

mod owing;

pub use owing::owe_to_all;
