//! The files of queues that no topic and no channel has any longer. At the start of a daemon they are set aside: else a topic or channel
//! that is made anew would begin with what one of its name had left.
//!
//! `set_aside_unlisted` does that. `specs/Swept.antt` says which files those are and what becomes of them, and the crate
//! `queue_laws` what it means for the queues.
#![tactic(auto)]

mod form;
mod listed;
mod queue_name;
mod sweeping;
mod unswept;

pub use sweeping::set_aside_unlisted;
pub use unswept::Unswept;
