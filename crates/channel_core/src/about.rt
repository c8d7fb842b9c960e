use nsq_base::{Chan, Topic};

/// What a channel is told at its making, and keeps.
#[derive(Clone, Copy)]
pub struct About {
    /// The topic's name.
    pub topic: Topic,
    /// The channel's name.
    pub name: Chan,
    /// How many queued copies are kept in memory.
    pub mem_queue_size: u64,
    /// How long a copy that is held back is deferred, in nanoseconds: at most 2^62.
    pub msg_timeout: u64,
    /// How long after its sending a touched copy is due at the latest, in nanoseconds: at most 2^62.
    pub max_msg_timeout: u64,
}
