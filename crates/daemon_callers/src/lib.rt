//! How the daemon serves one caller of either kind over any turner, and how it takes its Stop.
//!
//! `v2` serves one V2 connection: what a session read, the entries that its desk noted for it and what it wrote are a conversation that ended as it says.
//! `http` serves one HTTP connection: what was read, the entries that the desk noted and what was written are an exchange that ended as `serve_http` says.
//!
//! `specs/Exchange.antt` says what the bytes of both sides of an HTTP connection and its entries in the history have to do with each other (`IsExchangeIn`),
//! what an ending comes of (`HasCause`), and that who is given up for want of memory is told so (`IsWarnedHttp`). `specs/Served.antt` says what is true of a
//! caller that was served and of all that were, `specs/Stops.antt` what a Stop adds.
#![tactic(auto)]

mod caller_desk;
mod exchanging;
mod http;
mod letting;
mod serving;
mod stopping;
mod v2;

pub use broker_history::Ended;
pub use http::{EndedHttp, serve_http};
pub use serving::serve_caller;
pub use stopping::stop;
pub use v2::serve_v2;
