//! Fakes of what lies outside: a connection, a folder, a clock, a journal and a host in memory.
//!
//! They tell everything, and fail where they are told to. Tests and rows stand on them;
//! no code of a daemon or a tool does.
#![tactic(auto)]

mod called;
mod calls;
mod clock;
mod conn;
mod dialer;
mod files;
mod folder;
mod folder_calls;
mod host;
mod journal;
mod script;
mod start;

pub use called::Called;
pub use clock::MemClock;
pub use conn::MemConn;
pub use folder::MemFolder;
pub use folder_calls::{Failing, FolderCall};
pub use host::MemHost;
pub use journal::MemJournal;
pub use script::Piece;
pub use start::Start;
