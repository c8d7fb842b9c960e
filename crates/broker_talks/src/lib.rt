//! Whether pieces, entries and bytes are a conversation in rounds: a plain program over lists that computes the definitions of the history's
//! `Talk`, for rows. `rounds` and `standing` follow all ways in which a conversation may go on behind its entries (`Going`), `answers` and
//! `output` say what its client got, `entries` which entries are its own. It has no contracts: it is a second reading of the definitions
//! by hand.
#![tactic(auto)]

mod answers;
mod commands;
mod entries;
mod output;
mod parts;
mod rounds;
mod standing;
mod talk;

pub use talk::{is_talk, is_talk_in};
