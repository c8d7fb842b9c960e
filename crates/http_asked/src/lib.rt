//! What came of what an HTTP call asked at a desk, and the answer that its caller gets for it (nsq.io, nsqd's HTTP API): by what is said, or
//! that the daemon stops.
#![tactic(auto)]

mod asked;

pub use asked::{Asked, told_answer};
