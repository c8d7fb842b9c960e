//! What becomes of topics and channels, as clients and the daemon's callers ask for it: a topic and a channel are made, published to, paused, emptied
//! and deleted; and whom that makes leave: clients lose a deleted channel, take a seat in a channel and part from it.
//!
//! Each function says which states of `broker_history` the hall stands for afterwards, and what it leaves of names that are saved and of marks.
#![tactic(auto)]

mod creating;
mod deleted;
mod deleting;
mod emptying;
mod going;
mod items;
mod losing;
mod lost;
mod messages;
mod pausing;
mod published;
mod publishing;
mod seating;
mod seats;

pub use creating::create;
pub use deleted::Deleted;
pub use deleting::{delete_channel, delete_topic, forget_empty};
pub use emptying::{empty_channel, empty_topic};
pub use going::{delete_room, drop_room, forget_room};
pub use losing::lose_stall;
pub use lost::Lost;
pub use pausing::{pause, pause_channel};
pub use published::Published;
pub use publishing::publish;
pub use seating::part;
pub use seats::seat_in;
