//! What a channel and a topic tell of themselves, and whether that is so in a state.

use crate::broker::possible::is_message;
use crate::calls::Who;
use crate::dice::IDS;
use broker_history::{Ask, ChannelStats, ClientStats, Items, Said, Stats, TopicStats};
use broker_state::{Client, MessageCopy, Place, State, TakenMessage, flying_of, flying_with};
use broker_steps::may_say;
use channel_core::{Channel, Look};
use nsq_base::{Body, Chan, MsgId, Topic};
use std::alloc::Global;
use std::process::Abort;
use topic_core::TopicQueue;

/// Whether what the channel tells is so in this state: its statistics, when the next copy is due, and where each copy is.
pub fn is_channel(
    rt: &impl Abort,
    alloc: Global,
    state: &State,
    topic: Topic,
    channel: &Channel,
) -> bool {
    let Some(plain) = state.channel_at(&topic, &channel.name()) else {
        return false;
    };
    is_next_due(&plain.copies, channel.next_due())
        && are_looks(&plain.copies, channel)
        && says(
            state,
            topic,
            channel.name(),
            channel_told(rt, alloc, state, topic, channel),
        )
}

// Whether this may be said to who asks for the statistics of a channel.
fn says(state: &State, topic: Topic, channel: Chan, stats: Stats) -> bool {
    let ask = Ask::Stats(Some(topic), Some(channel));
    may_say(state, &ask, &Said::Stats(stats))
}

// The statistics with what the channel tells; what it doesn't know is the state's.
fn channel_told(
    rt: &impl Abort,
    alloc: Global,
    state: &State,
    topic: Topic,
    channel: &Channel,
) -> Stats {
    let mut channels = Items::new(alloc);
    channels
        .push(channel_stats(rt, alloc, state, channel))
        .expect(rt, "memory");
    topic_told(
        rt,
        alloc,
        TopicStats {
            backend_depth: 0,
            channels,
            depth: 0,
            message_count: 0,
            paused: false,
            topic_name: topic,
        },
    )
}

fn topic_told(rt: &impl Abort, alloc: Global, topic: TopicStats) -> Stats {
    let mut topics = Items::new(alloc);
    topics.push(topic).expect(rt, "memory");
    Stats { topics }
}

fn channel_stats(rt: &impl Abort, alloc: Global, state: &State, channel: &Channel) -> ChannelStats {
    let counts = channel.counts();
    let clients = clients_told(rt, alloc, &state.clients, channel);
    ChannelStats {
        backend_depth: counts.backend_depth,
        channel_name: channel.name(),
        clients,
        deferred_count: counts.deferred_count,
        depth: counts.depth,
        in_flight_count: counts.in_flight_count,
        message_count: counts.message_count,
        paused: channel.is_paused(),
        requeue_count: counts.requeue_count,
        timeout_count: counts.timeout_count,
    }
}

fn clients_told(
    rt: &impl Abort,
    alloc: Global,
    clients: &[Client],
    channel: &Channel,
) -> Items<ClientStats> {
    let mut told = Items::new(alloc);
    for client in clients {
        let client = client_told(alloc, client, channel.in_flight(client.number));
        told.push(client).expect(rt, "memory");
    }
    told
}

// What is told of a client with so many copies in flight.
fn client_told(alloc: Global, client: &Client, in_flight_count: u64) -> ClientStats {
    ClientStats {
        client_id: Body::of(Vec::new(alloc)),
        finish_count: client.finish_count,
        hostname: Body::of(Vec::new(alloc)),
        in_flight_count,
        message_count: client.message_count,
        ready_count: client.ready,
        requeue_count: client.requeue_count,
        user_agent: Body::of(Vec::new(alloc)),
    }
}

// Whether the next of the copies in flight or deferred is due at this moment.
fn is_next_due(copies: &[MessageCopy], told: Option<u64>) -> bool {
    match (soonest(copies, true, true), told) {
        (Some(due), Some(told)) => due == u128::from(told),
        (None, None) => true,
        (Some(_), None) | (None, Some(_)) => false,
    }
}

// When the next of these copies is due: of those in flight, of the deferred ones, or of both.
fn soonest(copies: &[MessageCopy], flying: bool, deferred: bool) -> Option<u128> {
    let mut soonest = None;
    for copy in copies {
        match copy.place {
            Place::InFlight { due, .. } if flying => soonest = sooner(soonest, due),
            Place::Deferred { due } if deferred => soonest = sooner(soonest, due),
            _ => {}
        }
    }
    soonest
}

fn sooner(soonest: Option<u128>, due: u128) -> Option<u128> {
    match soonest {
        Some(soonest) => Some(soonest.min(due)),
        None => Some(due),
    }
}

/// Whether a copy of this id is the next one due: in flight and due soonest there, or deferred, due soonest there and none in flight is due.
pub fn comes_first(copies: &[MessageCopy], id: &MsgId, flies: bool, at: u64) -> bool {
    let flying = soonest(copies, true, false);
    match flying {
        Some(due) if due <= u128::from(at) => flies && is_due_at(copies, id, flying, true),
        _ => !flies && is_due_at(copies, id, soonest(copies, false, true), false),
    }
}

// Whether a copy of this id, in flight or deferred, is due at this moment.
fn is_due_at(copies: &[MessageCopy], id: &MsgId, at: Option<u128>, flies: bool) -> bool {
    for copy in copies {
        if !copy.is_of(id) {
            continue;
        }
        match copy.place {
            Place::InFlight { due, .. } if flies && at == Some(due) => return true,
            Place::Deferred { due } if !flies && at == Some(due) => return true,
            _ => {}
        }
    }
    false
}

// Whether the channel tells of each id and client where its copy is, of these copies.
fn are_looks(copies: &[MessageCopy], channel: &Channel) -> bool {
    for number in 0..IDS {
        let id = MsgId::make(1, number);
        if !is_look(copies, channel, Who::First.client(), &id)
            || !is_look(copies, channel, Who::Second.client(), &id)
        {
            return false;
        }
    }
    true
}

// Whether it tells this client where its copy of this id is.
fn is_look(copies: &[MessageCopy], channel: &Channel, client: u64, id: &MsgId) -> bool {
    channel.look(client, *id) == look(copies, client, id)
}

fn look(copies: &[MessageCopy], client: u64, id: &MsgId) -> Look {
    if flying_with(client, id, copies) > 0 {
        Look::Yours
    } else if flying_of(id, copies) > 0 {
        Look::NotYours
    } else {
        Look::NotInFlight
    }
}

/// Whether what the topic tells is so in this state: its statistics, what it took, and the channels that are owed that. No channel of it has
/// the name that is given.
pub fn is_topic(
    rt: &impl Abort,
    alloc: Global,
    state: &State,
    topic: &TopicQueue,
    none: Chan,
) -> bool {
    let Some(plain) = state.topic_of(&topic.name()) else {
        return false;
    };
    is_taken(&plain.taken, topic) && says(state, topic.name(), none, queue_told(rt, alloc, topic))
}

// The statistics with what the topic's queue tells.
fn queue_told(rt: &impl Abort, alloc: Global, topic: &TopicQueue) -> Stats {
    let depths = topic.depths();
    topic_told(
        rt,
        alloc,
        TopicStats {
            backend_depth: depths.disk,
            channels: Items::new(alloc),
            depth: depths.disk.saturating_add(depths.ring as u128),
            message_count: topic.message_count(),
            paused: topic.is_paused(),
            topic_name: topic.name(),
        },
    )
}

// Whether the topic took this message, which is owed to these channels.
fn is_taken(taken: &Option<TakenMessage>, topic: &TopicQueue) -> bool {
    match (taken, topic.head()) {
        (Some(taken), Some(head)) => {
            is_message(&taken.message, head) && taken.owed.as_slice() == topic.owed()
        }
        (None, None) => topic.owed().is_empty(),
        (Some(_), None) | (None, Some(_)) => false,
    }
}
