//! Histories that are legal, each beside those that aren't: stories of what happened, and what may happen next, as tables over the plain
//! program that says to which states a history leads.

mod beats;
mod channels;
mod faults;
mod flights;
mod story;
mod told;
mod turns;
