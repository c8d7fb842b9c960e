//! What the act of an entry makes of a broker's state, wherever it may stand: a plain program over lists that computes the definitions, for
//! rows. `moves` are the daemon's (`DoesMove`), `commands` what clients give and are sent (`DoesDid`, `DoesSend`), and `acts` has all of
//! them (`DoesAct`). A relation that leaves a choice is the list of all states that it leads to. It has no contracts but for a few small
//! ones: it is a second reading of the definitions by hand.
#![tactic(auto)]

mod acts;
mod commands;
mod moves;

pub use acts::{acted, says_done};
pub use moves::moved;
