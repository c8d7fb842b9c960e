//! What the bytes of a connection say, by plain programs over the whole list: the judges of the rows. No daemon and no tool stands on them.
//!
//! `script` has the V2 stream's script: it looks at all bytes each time and copies what it finds, so that it is short and plainly what the
//! definitions say. `plain` reads an HTTP request by hand: it shares nothing with the reader in pieces but the types of requests (no crate reads its
//! heads, lines, fields, numbers and queries), and nothing is claimed of it by a contract; rows and random heads hold the reader and this one side by
//! side. `printed` has how a command prints in a row.
#![tactic(auto)]

mod bytes;
mod head;
mod plain;
mod printed;
mod query;
mod script;

pub use plain::{Plain, request_of};
pub use printed::{command_text, commands_text};
pub use script::script_of;
