//! Statistics as text: what is 0, empty or no isn't said. In brief neither clients nor how often copies came back are said.

use crate::texts::{put, put_count, put_flag, put_word};
use broker_history::{ChannelStats, ClientStats, Stats, TopicStats};
use nsq_base::Body;
use std::process::Abort;

/// Each topic with its counts and its channels, in full or in brief.
pub fn put_stats(rt: &impl Abort, out: &mut Vec<u8>, stats: &Stats, full: bool) {
    put(rt, out, b"stats");
    for topic in stats.topics.as_slice() {
        put_topic(rt, out, topic, full);
    }
}

fn put_topic(rt: &impl Abort, out: &mut Vec<u8>, topic: &TopicStats, full: bool) {
    put_word(rt, out, topic.topic_name.bytes());
    put_count(rt, out, b"depth", topic.depth);
    put_count(rt, out, b"disk", topic.backend_depth);
    put_count(rt, out, b"messages", topic.message_count.into());
    put_flag(rt, out, b"paused", topic.paused);
    put(rt, out, b" [");
    for channel in topic.channels.as_slice() {
        put_channel(rt, out, channel, full);
    }
    put(rt, out, b" ]");
}

fn put_channel(rt: &impl Abort, out: &mut Vec<u8>, channel: &ChannelStats, full: bool) {
    put_word(rt, out, channel.channel_name.bytes());
    put_count(rt, out, b"depth", channel.depth);
    put_count(rt, out, b"disk", channel.backend_depth);
    put_count(rt, out, b"deferred", channel.deferred_count.into());
    put_count(rt, out, b"flying", channel.in_flight_count.into());
    put_count(rt, out, b"messages", channel.message_count.into());
    if full {
        put_count(rt, out, b"requeued", channel.requeue_count.into());
        put_count(rt, out, b"timed-out", channel.timeout_count.into());
    }
    put_flag(rt, out, b"paused", channel.paused);
    if full {
        put_clients(rt, out, channel.clients.as_slice());
    }
}

fn put_clients(rt: &impl Abort, out: &mut Vec<u8>, clients: &[ClientStats]) {
    for client in clients {
        put(rt, out, b" (");
        put_client(rt, out, client);
        put(rt, out, b" )");
    }
}

fn put_client(rt: &impl Abort, out: &mut Vec<u8>, client: &ClientStats) {
    put_text(rt, out, b"id", &client.client_id);
    put_text(rt, out, b"host", &client.hostname);
    put_text(rt, out, b"agent", &client.user_agent);
    put_count(rt, out, b"ready", client.ready_count.into());
    put_count(rt, out, b"flying", client.in_flight_count.into());
    put_count(rt, out, b"sent", client.message_count.into());
    put_count(rt, out, b"finished", client.finish_count.into());
    put_count(rt, out, b"requeued", client.requeue_count.into());
}

fn put_text(rt: &impl Abort, out: &mut Vec<u8>, label: &[u8], text: &Body) {
    if !text.bytes().is_empty() {
        put_word(rt, out, label);
        put_word(rt, out, text.bytes());
    }
}
