//! What is told: topics with a `%` between them, each with its channels behind a `&`, each of these with its clients behind a `;`.
//!
//! A topic is its name, its depth outside memory and the whole one, how many messages joined it, and whether it is `paused` or `on`. A channel
//! is its name, its two depths, its counts (deferred, in flight, messages, requeued, timed out), and whether it is `paused` or `on`. A client
//! is its counts (finished, in flight, messages, ready, requeued) and its texts: client id, host and agent, with a `^` between them.

use crate::text::{cut, is_first, number_of, rows_of, text_of};
use broker_history::{ChannelStats, ClientStats, Items, Stats, TopicStats};
use nsq_base::{Body, Chan, Topic};
use std::alloc::Global;
use std::process::Abort;

// The first five numbers of a text, and what stands behind them.
fn counts_of(rt: &impl Abort, text: &'static [u8]) -> ([u64; 5], &'static [u8]) {
    let (one, rest) = cut(text, b' ');
    let (two, rest) = cut(rest, b' ');
    let (three, rest) = cut(rest, b' ');
    let (four, rest) = cut(rest, b' ');
    let (five, rest) = cut(rest, b' ');
    let counts = [
        number_of(rt, one),
        number_of(rt, two),
        number_of(rt, three),
        number_of(rt, four),
        number_of(rt, five),
    ];
    (counts, rest)
}

// The depth of these digits.
fn depth_of(rt: &impl Abort, digits: &'static [u8]) -> u128 {
    text_of(rt, digits).parse::<u128>().expect(rt, "a depth")
}

/// The statistics of these topics.
pub fn stats_of(rt: &impl Abort, alloc: Global, topics: &'static [u8]) -> Stats {
    let mut items = Items::new(alloc);
    for topic in &rows_of(rt, alloc, topics, b'%') {
        items.push(topic_of(rt, alloc, topic)).expect(rt, "memory");
    }
    Stats { topics: items }
}

fn topic_of(rt: &impl Abort, alloc: Global, text: &'static [u8]) -> TopicStats {
    let (head, channels) = cut(text, b'&');
    let (name, rest) = cut(head, b' ');
    let (outside, rest) = cut(rest, b' ');
    let (depth, rest) = cut(rest, b' ');
    let (messages, state) = cut(rest, b' ');
    TopicStats {
        backend_depth: depth_of(rt, outside),
        channels: channels_of(rt, alloc, channels),
        depth: depth_of(rt, depth),
        message_count: number_of(rt, messages),
        paused: is_first(rt, state, b"paused", b"on"),
        topic_name: Topic::read(name).expect(rt, "a topic"),
    }
}

fn channels_of(rt: &impl Abort, alloc: Global, channels: &'static [u8]) -> Items<ChannelStats> {
    let mut items = Items::new(alloc);
    for channel in &rows_of(rt, alloc, channels, b'&') {
        items
            .push(channel_of(rt, alloc, channel))
            .expect(rt, "memory");
    }
    items
}

fn channel_of(rt: &impl Abort, alloc: Global, text: &'static [u8]) -> ChannelStats {
    let (head, clients) = cut(text, b';');
    let (name, rest) = cut(head, b' ');
    let (outside, rest) = cut(rest, b' ');
    let (depth, rest) = cut(rest, b' ');
    let ([deferred, flying, messages, requeued, late], state) = counts_of(rt, rest);
    ChannelStats {
        backend_depth: depth_of(rt, outside),
        channel_name: Chan::read(name).expect(rt, "a channel"),
        clients: clients_of(rt, alloc, clients),
        deferred_count: deferred,
        depth: depth_of(rt, depth),
        in_flight_count: flying,
        message_count: messages,
        paused: is_first(rt, state, b"paused", b"on"),
        requeue_count: requeued,
        timeout_count: late,
    }
}

fn clients_of(rt: &impl Abort, alloc: Global, clients: &'static [u8]) -> Items<ClientStats> {
    let mut items = Items::new(alloc);
    for client in &rows_of(rt, alloc, clients, b';') {
        items
            .push(client_of(rt, alloc, client))
            .expect(rt, "memory");
    }
    items
}

fn client_of(rt: &impl Abort, alloc: Global, text: &'static [u8]) -> ClientStats {
    let ([finished, flying, messages, ready, requeued], said) = counts_of(rt, text);
    let (id, rest) = cut(said, b'^');
    let (host, agent) = cut(rest, b'^');
    ClientStats {
        client_id: Body::copy(alloc, id).expect(rt, "memory"),
        finish_count: finished,
        hostname: Body::copy(alloc, host).expect(rt, "memory"),
        in_flight_count: flying,
        message_count: messages,
        ready_count: ready,
        requeue_count: requeued,
        user_agent: Body::copy(alloc, agent).expect(rt, "memory"),
    }
}
