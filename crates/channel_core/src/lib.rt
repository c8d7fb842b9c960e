//! A channel: the copies that wait in its backlog, those in flight with its clients, and those that are deferred.
//!
//! Contracts see it as `broker_history` defines a channel, of which it keeps the copies that aren't done with; what of them is on disk the
//! folder's files tell. Each call makes what its row there says of one copy, and a call that is refused leaves the channel as it was. No call
//! looks through a list of copies or of clients: copies in flight are reached by their ids, and those that are due by their moments.
//!
//! It hands on what it is seen by: `backlog`'s lists and queues and `channel_copies`' clients.
#![tactic(auto)]

mod about;
mod answers;
mod channel;
mod drawn;

pub use about::About;
pub use answers::{Counts, DropChannel, Look, Moved, Next, Offer, Requeue};
pub use channel::Channel;
pub use drawn::{Drawn, Sending};
