//! What nsqd's HTTP calls ask and what they are answered (nsq.io, `nsqd`, HTTP API), without any connection.
//!
//! `call_for` says what a request is by itself: refused, answered at once, something that is asked of the daemon, or its stop.
//! `answer_for` says how what is said to it is answered. `call_of` and `answer_to` give just these. Which refusal has which status
//! and code is a table, `status_of` and `code_of`.
//!
//! `stats_text` prints the statistics of a daemon in JSON, the body of the answer to `GET /stats?format=json`: `specs/Stats.antt` says what the text is.
#![tactic(auto)]

mod answer;
mod append;
mod argument;
mod batch;
mod bytes;
mod call;
mod calls;
mod channel;
mod client;
mod delay;
mod info;
mod list;
mod members;
mod publish;
mod refusal;
mod route;
mod text;
mod topic;
mod verbs;

pub use answer::{HttpAnswer, answer_to, publishes, stop_answer};
pub use call::HttpCall;
pub use calls::call_of;
pub use refusal::{Refusal, refusal_of};
pub use text::stats_text;
