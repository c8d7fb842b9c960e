//! The text of a daemon's file of durable names, `nsqd.dat`, is read.
//!
//! `path_image`'s `specs/Data.antt` says what a text keeps, and which text is bad.
#![tactic(auto)]

mod items;
mod members;
mod names;
mod sorted;

pub use names::{ListedNames, Unread, read_names};
