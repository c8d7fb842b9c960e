//! The rooms of a floor: topics with their channels, and the clients, in one hall.
//!
//! `specs/Sound.antt` says what a hall keeps whatever is told, `specs/Standing.antt` which states of `broker_history` it stands for in a folder's
//! files. All of a floor but its folder, its clock and its journal stands in the hall.
//!
//! A client is what it may do, its channel, its times, what it said of itself and what it did; contracts see it as the client of a state of
//! `broker_history` that it is (`specs/Seen.antt`). Clients are in the order of their numbers: `place_of` finds where one stands.
#![tactic(auto)]

mod client;
mod clients;
mod hall;
pub mod laws;
mod making;
mod marking;
mod places;
mod room;
mod stall;
mod stalls;
mod standing;

pub use client::Client;
pub use clients::place_of;
pub use hall::Hall;
pub use room::Room;
pub use stall::Stall;
pub use standing::Standing;
