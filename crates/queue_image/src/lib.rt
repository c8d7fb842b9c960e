//! The files of a disk queue as plain data: names, records, metadata, and what an opening finds in them.
//!
//! The layout is go-diskqueue's (nsqio/go-diskqueue): data files of records, numbered from 0, and a metadata text with the
//! positions where the queue reads and writes. Here are the definitions, and what reads names and metadata; what holds of the
//! definitions (`queue_laws`), a plain program over files that are given as a list, and a queue over a folder, are built on them elsewhere.
#![tactic(auto)]

mod decimals;
pub mod file_names;
mod metadata;
mod positions;

pub use metadata::{LAST_FILE, LAST_PLACE, read_meta};
pub use positions::Positions;
