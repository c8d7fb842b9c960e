//! The real machine as a host of the message daemon: TCP connections of both kinds, a folder on disk, the system's clock and the
//! standard streams.
#![tactic(auto)]

mod host;

pub use host::SysHost;
