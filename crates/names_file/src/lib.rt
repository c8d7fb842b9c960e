//! The file of a daemon's durable names, `nsqd.dat`: its entries, and the text that is written.
//!
//! `path_image`'s `specs/Data.antt` says what a text keeps.
#![tactic(auto)]

mod append;
mod kept;
mod names;

pub use kept::{KeptChannel, KeptTopic};
pub use names::write_names;

/// The file of the durable names.
pub const NAMES: &str = "nsqd.dat";

/// What the file of names is called while it is written.
pub const NAMES_TEMP: &str = "nsqd.dat.tmp";

/// The most bytes that the file of names has.
pub const LONGEST_NAMES: usize = 1 << 24;
