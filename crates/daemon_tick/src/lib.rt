//! The turn by which a round of the daemon begins: a tick, for which what is due is moved, and queues are saved that weren't for the sync timeout.
//!
//! It is taken at anything that takes turns. `specs/Ticks.antt` says how it is answered.
#![tactic(auto)]

mod ticking;

pub use ticking::{Ticked, tick};
