//! What an entry makes of a channel, a topic or the state as a whole, wherever it may stand: a plain program over lists that computes the
//! definitions, for rows. Each function names the definition that it computes: `rows` and `channels` those of the history's `Channels`,
//! `topics` those of `Topics`, `state` those of `Changes`. Where a function has no contract it is a second reading of its definition by
//! hand. A relation that leaves a choice is the list of all that it leads to.
#![tactic(auto)]

pub mod channels;
mod rows;
pub mod state;
pub mod topics;
