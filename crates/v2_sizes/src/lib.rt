//! The sizes of the V2 stream of NSQ (nsq.io, TCP Protocol Spec): four bytes, most significant first, before a body, a count of
//! bodies and a frame.
//!
//! `HasSize` says which size bytes begin with, and `IsField` what stands where a size and so many bytes have to stand: a size of
//! 0 or above the greatest one is bad, and nothing is read behind it.
#![tactic(auto)]

mod size;

pub use size::{Field, field_of, size_of};
