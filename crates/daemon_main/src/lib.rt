//! What the program `nsqd` does, over any host: it reads its words, serves, or prints what they ask for, tells the line of its ending, and returns its status.
//!
//! `nsqd_run`'s contract is the program's promise, `serve`'s that of a run that serves: it opens the data path, serves the callers, one after another, takes its Stop,
//! and shuts the data path. `specs/Runs.antt` has its parts: the history is legal from what was found; each caller was served; faults have their causes; the Stop has
//! its cause; a clean stop leaves in the data path all that was left.
//!
//! `serve_callers` is the loop between the opening of the data path and its shutting: `specs/Going.antt` says what the floor is led to meanwhile,
//! `specs/Rounds.antt` what is true of the callers behind each round.
//!
//! Beside it stands the drill: a run with scripted callers over a host in memory, and what was counted. `specs/Drills.antt` says what a drill did.
#![tactic(auto)]

mod callers;
mod drill_run;
mod program;
mod run;
mod watched;

pub use callers::serve_callers;
pub use daemon_endings::{Ending, LoopEnd, ServeEnd, line, status};
pub use drill_parts::drill_options;
pub use drill_run::{Drilled, drill};
pub use program::{close, nsqd_run};
pub use run::serve;
pub use watched::Watched;
