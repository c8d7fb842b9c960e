//! The queues of a floor on disk: those of a hall that have been unsaved for long are saved, and at a stop all that is in memory is written.
//!
//! `specs/Timely.antt` says which queues are saved in time, `specs/Saving.antt` what saving makes of a hall, `specs/Flushing.antt` what a stop leaves
//! of a state in a folder's files.
//!
//! Topics that a folder lists are opened into a hall, each with its channels: at the start of a run, before any turn.
//!
//! `specs/Opened.antt` says what is opened, and which states of `broker_history` it stands for.
#![tactic(auto)]

mod channels;
mod flushing;
mod marks;
mod opening;
mod saving;

pub use flushing::flush_all;
pub use opening::open_topic;
pub use saving::sync_all;
