//! The states that runs begin with.

use crate::stage::{FIRST_TIME, SECOND_TIME};
use broker_state::{ChannelState, Client, Phase, Route, State, TopicState};
use nsq_base::{Body, Chan, Options, Topic};
use std::alloc::Global;
use std::process::Abort;

// A client of a channel with so much time for a message, which asked for none yet. It has no heartbeat.
fn client(alloc: Global, number: u64, timeout: u64, topic: Topic, channel: Chan) -> Client {
    Client {
        number,
        phase: Phase::Subscribed,
        route: Some(Route { topic, channel }),
        ready: 0,
        heartbeat: None,
        timeout,
        client_id: Body::of(Vec::new(alloc)),
        hostname: Body::of(Vec::new(alloc)),
        user_agent: Body::of(Vec::new(alloc)),
        last_command: 0,
        beat_from: 0,
        finish_count: 0,
        message_count: 0,
        requeue_count: 0,
    }
}

/// The state with both clients of this channel, as they subscribed.
pub fn with_clients(
    rt: &impl Abort,
    alloc: Global,
    state: State,
    topic: Topic,
    channel: Chan,
) -> State {
    let first = client(alloc, 1, FIRST_TIME, topic, channel);
    let state = state.with_client(alloc, first).expect(rt, "memory");
    with_second(rt, alloc, state, topic, channel)
}

/// The state with the second client of this channel, as it subscribed.
pub fn with_second(
    rt: &impl Abort,
    alloc: Global,
    state: State,
    topic: Topic,
    channel: Chan,
) -> State {
    let second = client(alloc, 2, SECOND_TIME, topic, channel);
    state.with_client(alloc, second).expect(rt, "memory")
}

/// A topic with these channels and nothing in them, and no client.
pub fn topic_alone(
    rt: &impl Abort,
    alloc: Global,
    options: &Options,
    topic: Topic,
    channels: &[Chan],
    moment: u64,
) -> State {
    let mut topics = Vec::new(alloc);
    topics
        .push(empty_topic(rt, alloc, topic, channels))
        .expect(rt, "memory");
    State {
        options: options.copy(alloc).expect(rt, "memory"),
        epoch: 1,
        ids_used: 0,
        moment,
        stopped: false,
        began: Vec::new(alloc),
        clients: Vec::new(alloc),
        topics,
    }
}

// A topic with these channels.
fn empty_topic(rt: &impl Abort, alloc: Global, topic: Topic, channels: &[Chan]) -> TopicState {
    let mut empty = TopicState::new(alloc, topic);
    for channel in channels {
        empty = empty
            .with_channel(alloc, ChannelState::new(alloc, *channel))
            .expect(rt, "memory");
    }
    empty
}
