//! What happened to an NSQ daemon, as plain data: entries with their ends, the state that they lead to, what is answered, and what
//! a connection's bytes, its entries and what it got have to do with each other.
//!
//! The definitions stand in `specs`, in the order of a message's way; channels, topics, the broker, the data path and the sessions
//! are proved against them. The crate `history_laws` has what follows from the definitions alone.
//!
//! Beside them stands what a connection, an HTTP call or the daemon itself asks of the floor, what it is answered, and where it takes its
//! turns. One call of `turn` is one event of the history. `specs/Answers.antt` says which entry a call notes and what it is answered then;
//! sessions and HTTP calls are proved over any `Desk`, and a floor that is a `Turner` gives one to each connection.
#![tactic(auto)]

mod ask;
mod call;
mod desk;
mod ended;
mod entry;
mod items;
mod stats;
mod turned;

pub use ask::{Ask, Said};
pub use call::Call;
pub use desk::{Desk, FloorDesk, Turner};
pub use ended::Ended;
pub use entry::{Act, Entry};
pub use items::Items;
pub use stats::{ChannelStats, ClientStats, Stats, TopicStats};
pub use turned::Turned;
