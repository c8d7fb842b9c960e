//! What lies outside the daemon and its tools: connections, a folder, a clock, a journal and a host,
//! as traits that say what each object gave and took, and how often it failed.
//!
//! A type either tells its content or it doesn't, by a ghost constant. A clause on content holds of a type that tells; the
//! counts of faults hold of every type. A count is at most 2^64 - 1.
#![tactic(auto)]

mod clock;
mod conn;
mod did;
mod faults;
mod folder;
mod host;
mod journal;

pub use clock::Clock;
pub use conn::{Conn, Read, Sink, Source, Write, get, put};
pub use did::Did;
pub use faults::Faults;
pub use folder::{Folder, Length, Listing, ReadAt};
pub use host::{Accept, Dialer, Dialled, Host, Kind, Kit, dial};
pub use journal::{End, Journal, Twin};
