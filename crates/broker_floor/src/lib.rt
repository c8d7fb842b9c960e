//! One turn for all: the daemon's floor of topics, channels and clients with its folder, its clock and its journal; and a run's data path, from which it is
//! opened and into which it is shut.
//!
//! `floor_turns`' `specs/Turns.antt` says what one turn does, its `specs/Leads.antt` what turns of a number lead to.
//!
//! `path` opens a folder for a run: what the last run left is read into a floor, and this run's epoch is written. While the run goes on, the file of its durable
//! names, `nsqd.dat`, is saved, and the messages and the names are written as it is shut. `specs/Opening.antt` says what an opening makes of the folder's files and
//! why it is refused, `specs/Closings.antt` what a save and a shutting leave; `path_image`'s `specs/Found.antt` says what files show, and `broker_history`'s the
//! state that a run starts from.
//!
//! It hands on what turns lead to, and what its queues are found and left as: who opens, serves and shuts it names this crate.
#![tactic(auto)]

mod adding;
mod ending;
mod floor;
mod making;
mod naming;
mod path;
mod sound;
mod turning;

pub use daemon_endings::{ShutEnd, Why};
pub use floor::Floor;
pub use path::{Refused, Saved, names_are_kept, open, save, shut};
