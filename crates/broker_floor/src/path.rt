//! A run's data path. A folder is opened for a run: what the last run left is read into a floor, and this run's epoch is written. While the run goes on,
//! the file of its durable names, `nsqd.dat`, is saved, and the messages and the names are written as it is shut.

mod adding;
mod filling;
mod laws;
mod opening;
mod reading;
mod saving;
mod shutting;

pub use laws::names_are_kept;
pub use opening::{Refused, open};
pub use saving::{Saved, save};
pub use shutting::shut;
