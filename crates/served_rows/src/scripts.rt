//! What rows of a V2 connection's service stand on: a floor that answers by a script, the order in which calls of several objects
//! come, and the service of a connection by them.

mod scripted;
mod serving;
mod trace;

pub use scripted::ScriptedFloor;
pub use serving::{floor_of, pieces_of, serve_by};
pub use trace::Trace;
