//! The records of some bytes, by a plain program: what a file of a queue on disk holds, where it is a row of records, or the first place where it is
//! damaged. It computes the definitions of `queue_image` on small inputs, for `path_plain`, for rows and for the drill; the queue on disk reads its files
//! in its own way. Want of memory is the only error.
#![tactic(auto)]

mod records;

pub use records::{Row, records_of};
