//! The moves of a floor: what is due in a hall is moved, one move an entry, and what its topics owe their channels is paid: a message is
//! taken, and each channel gets its copy.
//!
//! `specs/Moves.antt` says what a move makes of a hall, of what is noted and of the folder's files, `specs/Taking.antt` what becomes of a topic as a
//! message of it is taken, `specs/Copying.antt` what becomes of it and of a channel as that gets its copy.
#![tactic(auto)]

mod copying;
mod due;
mod giving;
mod held;
mod lending;
mod made;
mod moving;
mod named;
mod noting;
mod owed;
mod paying;
mod pending;
mod taking;

pub use copying::copy_message;
pub use due::{Place, find_due};
pub use held::hold_back;
pub use made::Made;
pub use moving::move_due;
pub use noting::announce;
pub use owed::Owed;
pub use pending::find_pending;
pub use taking::take_message;
