//! What a data path holds, by a plain program: what an opening finds of a disk queue whose files are given as a list (`finding`), what a file of names
//! keeps (`names`), and what an opening of the whole folder finds (`findings`).
//!
//! It computes the definitions of `queue_image` and `path_image` on small inputs, slowly: rows and other plain programs stand on it, and no code that the
//! daemon runs does. Want of memory is the only error.
#![tactic(auto)]

mod by_name;
mod finding;
mod findings;
mod named_file;
mod names;
mod names_lists;

pub use by_name::{Named, in_order, put};
pub use finding::{Found, Listing, found_queue, look_up};
pub use findings::{Finding, FoundChannel, FoundNames, FoundTopic, found};
pub use named_file::NamedFile;
pub use names::{KeptChannel, KeptNames, KeptTopic, read_names};
