//! Requests and answers of HTTP/1.1 (RFC 9112), as bytes.
//!
//! `IsRequest` says of whole byte lists what they are: a request, the beginning of one, or one of three refusals. A
//! `RequestReader` gives what all bytes that it was fed are, whatever the pieces were. `answer_bytes` says what an answer is.
#![tactic(auto)]

mod answer;
mod append;
mod fields;
mod found;
mod got;
mod head;
pub mod laws;
mod query;
mod reader;
mod request;
mod search;

pub use answer::write_answer;
pub use got::GotRequest;
pub use reader::RequestReader;
pub use request::Request;
