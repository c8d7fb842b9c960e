//! What a daemon is at a moment: its topics, channels, copies and clients as lists, each with its place by name or number and its copies. A
//! plain program that computes the definitions of the history's `State`, for rows: each type's value is the record there (`State`, `Topic`,
//! `Channel`, `Client`, `Copy` ..), and each function says which definition it computes.
//!
//! What a command is answered (`replies` has the definitions of `Reply`), and what a client says of itself (`identities` those of `Identify`).
//! Other crates compute over these what is said over HTTP, the steps and the conversations.
#![tactic(auto)]

mod broker;
mod channel;
mod client;
mod copies;
mod growing;
mod identities;
mod in_order;
mod phase;
mod place;
mod replies;
mod texts;
mod topic;

pub use broker::State;
pub use channel::ChannelState;
pub use client::{Client, Route, copy_route};
pub use copies::{
    MessageCopy, copy_all, deferred, flying, flying_of, flying_with, in_flight, queued,
};
pub use identities::{Identity, default_heartbeat, identity_of};
pub use phase::Phase;
pub use place::Place;
pub use replies::{are_left, ok_frame, reply, same_frame, same_reply};
pub use topic::{TakenMessage, TopicState, Waiting};
