//! The files of one disk queue in a folder: their names, in room that is made once, and the calls that write, read, cut, save and remove
//! them. No call but those that make names takes memory.
//!
//! Beside them stands how any file is replaced, so that it has the old content or the new at every moment (`replace_file`).
#![tactic(auto)]

mod data_name;
mod files;
mod metadata;
mod options;
mod replace;
mod sizes;

pub use data_name::DataName;
pub use files::QueueFiles;
pub use options::QueueOptions;
pub use replace::{replace_file, switch, write_temp};
pub use sizes::size_spelled;
