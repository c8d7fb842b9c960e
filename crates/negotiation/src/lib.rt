//! What a client says of itself with IDENTIFY, read from the body in JSON, and what it is answered.
#![tactic(auto)]

mod identity;
mod members;
mod reply;
mod times;

pub use identity::{Identity, read_identity};
pub use reply::identify_reply;
