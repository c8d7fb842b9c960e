//! What the shipped host has, behind the traits of the outside: sockets, listeners, a folder on disk and a clock of the system,
//! and a journal that forgets.
//!
//! These objects tell no content, and count their faults.
#![tactic(auto)]

mod answers;
mod dir_folder;
mod error_frames;
mod forgetful;
mod known_names;
mod listeners;
mod open_files;
mod outbox;
mod polls;
mod sys_clock;
mod talker;
mod tcp_conn;
mod tcp_dialer;

pub use answers::{NoCaller, no_caller};
pub use dir_folder::DirFolder;
pub use forgetful::Forgetful;
pub use listeners::Listeners;
pub use outbox::Outbox;
pub use sys_clock::SysClock;
pub use talker::{Talker, hear_out};
pub use tcp_conn::TcpConn;
pub use tcp_dialer::TcpDialer;
