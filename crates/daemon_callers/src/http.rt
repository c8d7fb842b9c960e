//! One HTTP connection of nsqd (RFC 9112; nsq.io, nsqd's HTTP API), from its first byte to its end: a request is read, what it asks is
//! taken to a desk, and its answer is written.

mod asking;
mod ended;
mod reading;
mod serve;
mod turns;
mod writing;

pub use ended::EndedHttp;
pub use serve::serve_http;
