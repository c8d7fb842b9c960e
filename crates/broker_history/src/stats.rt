ghost use Rattle.std.specs.Prelude.{◌≡◌, IfOk};

use crate::Items;
use nsq_base::{Body, Chan, Memory, Topic};
use nsq_outside::Twin;
use std::alloc::Global;

/// What is told of a client. The counts begin with the connection, and stay at 2^64 - 1.
#[derive(Drop)]
pub struct ClientStats {
    /// What its `IDENTIFY` said, empty where it said nothing.
    pub client_id: Body,
    /// How many messages it finished.
    pub finish_count: u64,
    /// What its `IDENTIFY` said, empty where it said nothing.
    pub hostname: Body,
    /// How many copies are in flight with it.
    pub in_flight_count: u64,
    /// How often a message was sent to it.
    pub message_count: u64,
    /// How many messages it may have in flight.
    pub ready_count: u64,
    /// How many messages it gave back.
    pub requeue_count: u64,
    /// What its `IDENTIFY` said, empty where it said nothing.
    pub user_agent: Body,
}

/// What is told of a channel. The counts begin with the run, and stay at 2^64 - 1.
#[derive(Drop)]
pub struct ChannelStats {
    /// How many of its queued copies aren't in memory.
    pub backend_depth: u128,
    /// Its name.
    pub channel_name: Chan,
    /// Its clients, by the numbers of their connections.
    pub clients: Items<ClientStats>,
    /// How many copies are deferred.
    pub deferred_count: u64,
    /// How many copies are queued.
    pub depth: u128,
    /// How many copies are in flight.
    pub in_flight_count: u64,
    /// How many copies joined it and weren't dropped then.
    pub message_count: u64,
    /// Whether it is paused.
    pub paused: bool,
    /// How many copies were given back by clients.
    pub requeue_count: u64,
    /// How many copies timed out in flight.
    pub timeout_count: u64,
}

/// What is told of a topic. Its count begins with the run, and stays at 2^64 - 1.
#[derive(Drop)]
pub struct TopicStats {
    /// How many of its waiting messages aren't in memory.
    pub backend_depth: u128,
    /// Its channels, in byte order of their names.
    pub channels: Items<ChannelStats>,
    /// How many messages wait; the taken one is not among them.
    pub depth: u128,
    /// How many messages joined it and weren't dropped then.
    pub message_count: u64,
    /// Whether it is paused.
    pub paused: bool,
    /// Its name.
    pub topic_name: Topic,
}

/// What is told of the daemon: its topics, in byte order of their names.
#[derive(Drop)]
pub struct Stats {
    /// The topics.
    pub topics: Items<TopicStats>,
}

impl Twin for ClientStats {
    fn twin(&self, alloc: Global) -> Result<ClientStats, Memory> {
        Ok(ClientStats {
            client_id: copy_text(alloc, &self.client_id)?,
            finish_count: self.finish_count,
            hostname: copy_text(alloc, &self.hostname)?,
            in_flight_count: self.in_flight_count,
            message_count: self.message_count,
            ready_count: self.ready_count,
            requeue_count: self.requeue_count,
            user_agent: copy_text(alloc, &self.user_agent)?,
        })
    }
}

impl Twin for ChannelStats {
    fn twin(&self, alloc: Global) -> Result<ChannelStats, Memory> {
        Ok(ChannelStats {
            backend_depth: self.backend_depth,
            channel_name: self.channel_name,
            clients: self.clients.twin(alloc)?,
            deferred_count: self.deferred_count,
            depth: self.depth,
            in_flight_count: self.in_flight_count,
            message_count: self.message_count,
            paused: self.paused,
            requeue_count: self.requeue_count,
            timeout_count: self.timeout_count,
        })
    }
}

impl Twin for TopicStats {
    fn twin(&self, alloc: Global) -> Result<TopicStats, Memory> {
        Ok(TopicStats {
            backend_depth: self.backend_depth,
            channels: self.channels.twin(alloc)?,
            depth: self.depth,
            message_count: self.message_count,
            paused: self.paused,
            topic_name: self.topic_name,
        })
    }
}

impl Twin for Stats {
    fn twin(&self, alloc: Global) -> Result<Stats, Memory> {
        Ok(Stats {
            topics: self.topics.twin(alloc)?,
        })
    }
}

// A copy of a text.
fn copy_text(alloc: Global, text: &Body) -> Result<Body, Memory>
    ensures { IfOk result (λ copy. copy ≡ text.now) }
{
    Body::copy(alloc, text.bytes())
}
