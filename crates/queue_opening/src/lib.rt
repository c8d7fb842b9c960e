//! What an opening of a disk queue makes of the queue's files: it finds the list by the sizes of the records alone and plans what is to
//! be done (`make_plan`), does that (`tidy`), and saves (`write_down`). `disk_queue` makes the queue of what is left.
//!
//! It hands on what `queue_files` says of the files that are opened, which `disk_queue` goes on with.
#![tactic(auto)]

mod names;
mod plan;
mod refusal;
mod tidying;
mod walking;

pub use names::Names;
pub use plan::{Plan, make_plan};
pub use queue_files::{QueueFiles, QueueOptions, replace_file, size_spelled, switch, write_temp};
pub use refusal::Open;
pub use tidying::{tidy, write_down};
