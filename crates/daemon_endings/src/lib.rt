//! How a run of the daemon ends, and the program with it: what the loop over the callers, the shutting of a floor and the opening of a folder answer, the end of
//! a run that these make, and its status and line. A text is printed.
//!
//! `specs/Endings.antt` says which end a run has, `specs/Statuses.antt` its status and its line, `specs/Prints.antt` what printing leaves.
#![tactic(auto)]

mod ending;
mod ends;
mod printing;
mod serving;

pub use ending::{Ending, line, status};
pub use ends::{LoopEnd, ShutEnd, Why};
pub use printing::print;
pub use serving::{ServeEnd, ending_after, refusal};
