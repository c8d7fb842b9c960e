//! What a turn of the broker is made of, over a hall: the moves that are paid before its act, what its call makes of the hall, and what turns lead to; and
//! what a client is sent.
//!
//! `specs/Paying.antt` says what is paid before an act, `specs/Acting.antt` what a call does behind that, `specs/Turns.antt` what one turn does as a whole,
//! `specs/Leads.antt` what turns of a number lead to.
//!
//! `draw` sends a client the first message of its channel that it may get, behind what is held back before that. `specs/Drawing.antt` says what one drawing
//! makes of a hall; what a whole call makes of it is `Acts` of `specs/Acting.antt`.
//!
//! It hands on what a turn is told by: the places and moves of `floor_moves`, and what `floor_files` saves.
#![tactic(auto)]

mod drawing;
mod laws;
mod noting;
mod paying;
mod sending;

pub use drawing::draw;
pub use floor_files::{flush_all, sync_all};
pub use floor_moves::Place;
pub use laws::{leads, once, payments};
pub use paying::{Paid, pay};
