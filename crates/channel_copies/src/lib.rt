//! The clients of a channel, the copies in flight with them, and the deferred copies.
//!
//! Copies in flight and deferred ones stand in heaps by their due moments. A map from id to key reaches each copy in flight, and a map from
//! client to number says how many each client has, so no call looks through a list. Only the calls that say so take memory.
//!
//! Writing a channel's copies that are in flight or deferred behind those that wait in its backlog, as a stop does.
#![tactic(auto)]

mod clients;
mod deferred;
mod flight;
mod flights;
mod putting;
mod tally;
mod writing;

pub use clients::{Client, Clients};
pub use deferred::Deferred;
pub use flight::Flight;
pub use flights::Flights;
pub use putting::{Back, put_back};
pub use writing::{write_deferred, write_flights};
