//! Where an entry may stand in a history of the broker, and to which states it leads: a plain program over lists that computes the
//! definitions, for rows. Its parts go by their names in the history: `allowed` says where an entry may stand (`IsAllowedAct`), `credit` what
//! `Credit` says of a client, `before` what has to stand before an entry (`IsPaid`), and `legal` what a step is (`Step`) and what leads on
//! (`Legal`); what an act makes of a state stands in `broker_acts`. It has no contracts: it is a second reading of the definitions by hand.
//!
//! What may be said to what is asked over HTTP, statistics among it: a plain program over lists that computes the definitions of the
//! history's `Said`, for rows. It has no contracts: it is a second reading of the definitions by hand.
#![tactic(auto)]

mod allowed;
mod before;
mod credit;
mod legal;
mod said;
mod stats;

pub use legal::{led_to, step};
pub use said::may_say;
