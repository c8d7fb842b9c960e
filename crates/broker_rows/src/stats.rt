//! Statistics in words: topics with a `;` between them, behind each `/` a channel of it, and behind each `+` a client of that; each with its name,
//! those of its counts that aren't 0, and whether it is paused. The client `nobody` said nothing of itself.

use crate::made::{channel, copy, count, cut, halves, topic};
use broker_history::{ChannelStats, ClientStats, Items, Stats, TopicStats};
use std::alloc::Global;
use std::process::Abort;

/// Statistics.
pub fn stats(rt: &impl Abort, alloc: Global, told: &str) -> Stats {
    let mut topics = Items::new(alloc);
    for one in told.split(';') {
        let one = one.trim();
        if !one.is_empty() {
            topics
                .push(topic_stats(rt, alloc, one))
                .expect(rt, "memory");
        }
    }
    Stats { topics }
}

fn topic_stats(rt: &impl Abort, alloc: Global, told: &str) -> TopicStats {
    let (own, channels) = halves(told, "/");
    let (name, own) = cut(own.trim());
    TopicStats {
        backend_depth: u128::from(count(rt, own, "backend ")),
        channels: channels_of(rt, alloc, channels),
        depth: u128::from(count(rt, own, "depth ")),
        message_count: count(rt, own, "count "),
        paused: own.ends_with("paused"),
        topic_name: topic(rt, name),
    }
}

fn channels_of(rt: &impl Abort, alloc: Global, told: &str) -> Items<ChannelStats> {
    let mut channels = Items::new(alloc);
    for one in told.split('/') {
        let one = one.trim();
        if !one.is_empty() {
            channels
                .push(channel_stats(rt, alloc, one))
                .expect(rt, "memory");
        }
    }
    channels
}

fn channel_stats(rt: &impl Abort, alloc: Global, told: &str) -> ChannelStats {
    let (own, clients) = halves(told, "+");
    let (name, own) = cut(own.trim());
    ChannelStats {
        backend_depth: u128::from(count(rt, own, "backend ")),
        channel_name: channel(rt, name),
        clients: clients_of(rt, alloc, clients),
        deferred_count: count(rt, own, "deferred "),
        depth: u128::from(count(rt, own, "depth ")),
        in_flight_count: count(rt, own, "in_flight "),
        message_count: count(rt, own, "count "),
        paused: own.ends_with("paused"),
        requeue_count: count(rt, own, "requeued "),
        timeout_count: count(rt, own, "timed_out "),
    }
}

fn clients_of(rt: &impl Abort, alloc: Global, told: &str) -> Items<ClientStats> {
    let mut clients = Items::new(alloc);
    for one in told.split('+') {
        let one = one.trim();
        if !one.is_empty() {
            clients
                .push(client_stats(rt, alloc, one))
                .expect(rt, "memory");
        }
    }
    clients
}

fn client_stats(rt: &impl Abort, alloc: Global, told: &str) -> ClientStats {
    let (name, own) = cut(told);
    let [client_id, hostname, user_agent] = match name {
        "nobody" => ["", "", ""],
        _ => [name, "h", "u"],
    };
    ClientStats {
        client_id: copy(rt, alloc, client_id.as_bytes()),
        finish_count: count(rt, own, "finished "),
        hostname: copy(rt, alloc, hostname.as_bytes()),
        in_flight_count: count(rt, own, "in_flight "),
        message_count: count(rt, own, "sent "),
        ready_count: count(rt, own, "ready "),
        requeue_count: count(rt, own, "requeued "),
        user_agent: copy(rt, alloc, user_agent.as_bytes()),
    }
}
