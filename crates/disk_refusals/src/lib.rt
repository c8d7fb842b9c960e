//! What a client is answered where a disk fault kept off what its command does.
//!
//! `broker_history`'s `specs/Reply.antt` says which error that is: the command's word, and that the disk was at fault.
#![tactic(auto)]

mod refusing;

pub use refusing::{disk_fault, publish_refusal};
