//! A rule of copies in flight that needs no channel: the id of a copy that is in flight no more reaches none.
#![tactic(auto)]

mod reached;

pub use reached::forget;
