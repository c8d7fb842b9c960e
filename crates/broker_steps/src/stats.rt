use broker_history::{ChannelStats, ClientStats, TopicStats};
use broker_state::{ChannelState, Client, State, TopicState, deferred, flying, in_flight, queued};
use nsq_base::{Body, Chan, Topic};

/// Whether these are the statistics of a state: of the topic that is asked for or of all, and in each of the channel that is asked
/// for or of all. A name that isn't there leaves an empty list.
pub fn tells(
    state: &State,
    wanted: &Option<Topic>,
    channel: &Option<Chan>,
    told: &[TopicStats],
) -> bool {
    tells_topics(state, wanted, channel, &state.topics, told)
}

// Whether these are what is told of these topics.
fn tells_topics(
    state: &State,
    wanted: &Option<Topic>,
    channel: &Option<Chan>,
    topics: &[TopicState],
    told: &[TopicStats],
) -> bool {
    let Some((topic, rest)) = topics.split_first() else {
        return told.is_empty();
    };
    if !is_wanted_topic(wanted, topic) {
        return tells_topics(state, wanted, channel, rest, told);
    }
    let Some((first, more)) = told.split_first() else {
        return false;
    };
    if !tells_topic(state, channel, topic, first) {
        return false;
    }
    tells_topics(state, wanted, channel, rest, more)
}

// Whether the topic is the one that is asked for, or none is.
fn is_wanted_topic(wanted: &Option<Topic>, topic: &TopicState) -> bool {
    match wanted {
        Some(wanted) => topic.is_named(wanted),
        None => true,
    }
}

// Whether the channel is the one that is asked for, or none is.
fn is_wanted_channel(wanted: &Option<Chan>, channel: &ChannelState) -> bool {
    match wanted {
        Some(wanted) => channel.is_named(wanted),
        None => true,
    }
}

// Whether this is what is told of a topic.
fn tells_topic(
    state: &State,
    wanted: &Option<Chan>,
    topic: &TopicState,
    told: &TopicStats,
) -> bool {
    let depth = topic.waiting.len() as u128;
    let mem = u128::from(state.options.mem_queue_size);
    if !is_backend_depth(topic.name.ephemeral(), mem, depth, told.backend_depth) {
        return false;
    }
    if told.depth != depth {
        return false;
    }
    if told.message_count != topic.message_count {
        return false;
    }
    if told.paused != topic.paused {
        return false;
    }
    if !topic.is_named(&told.topic_name) {
        return false;
    }
    let channels = told.channels.as_slice();
    tells_channels(state, wanted, &topic.name, &topic.channels, channels)
}

// Whether these are what is told of these channels of a topic.
fn tells_channels(
    state: &State,
    wanted: &Option<Chan>,
    topic: &Topic,
    channels: &[ChannelState],
    told: &[ChannelStats],
) -> bool {
    let Some((channel, rest)) = channels.split_first() else {
        return told.is_empty();
    };
    if !is_wanted_channel(wanted, channel) {
        return tells_channels(state, wanted, topic, rest, told);
    }
    let Some((first, more)) = told.split_first() else {
        return false;
    };
    if !tells_channel(state, topic, channel, first) {
        return false;
    }
    tells_channels(state, wanted, topic, rest, more)
}

// Whether this is what is told of a channel of this topic.
fn tells_channel(
    state: &State,
    topic: &Topic,
    channel: &ChannelState,
    told: &ChannelStats,
) -> bool {
    let depth = queued(&channel.copies) as u128;
    let mem = u128::from(state.options.mem_queue_size);
    let ephemeral = topic.ephemeral() || channel.name.ephemeral();
    if !is_backend_depth(ephemeral, mem, depth, told.backend_depth) {
        return false;
    }
    if told.depth != depth {
        return false;
    }
    if !channel.is_named(&told.channel_name) {
        return false;
    }
    if !tells_counts(channel, told) {
        return false;
    }
    tells_clients(&state.clients, topic, channel, told.clients.as_slice())
}

// Whether these are the counts and the pause of a channel.
fn tells_counts(channel: &ChannelState, told: &ChannelStats) -> bool {
    if told.deferred_count != deferred(&channel.copies) as u64 {
        return false;
    }
    if told.in_flight_count != in_flight(&channel.copies) as u64 {
        return false;
    }
    if told.message_count != channel.message_count {
        return false;
    }
    if told.paused != channel.paused {
        return false;
    }
    if told.requeue_count != channel.requeue_count {
        return false;
    }
    told.timeout_count == channel.timeout_count
}

// Whether these are what is told of a channel's clients, among all clients.
fn tells_clients(
    clients: &[Client],
    topic: &Topic,
    channel: &ChannelState,
    told: &[ClientStats],
) -> bool {
    let Some((client, rest)) = clients.split_first() else {
        return told.is_empty();
    };
    if !client.has_channel(topic, &channel.name) {
        return tells_clients(rest, topic, channel, told);
    }
    let Some((first, more)) = told.split_first() else {
        return false;
    };
    if !tells_client(channel, client, first) {
        return false;
    }
    tells_clients(rest, topic, channel, more)
}

// Whether this is what is told of a client of a channel.
fn tells_client(channel: &ChannelState, client: &Client, told: &ClientStats) -> bool {
    tells_texts(client, told) && tells_numbers(channel, client, told)
}

// Whether these are a client's texts.
fn tells_texts(client: &Client, told: &ClientStats) -> bool {
    same(&told.client_id, &client.client_id)
        && same(&told.hostname, &client.hostname)
        && same(&told.user_agent, &client.user_agent)
}

// Whether two texts are equal.
fn same(one: &Body, other: &Body) -> bool {
    one.bytes() == other.bytes()
}

// Whether these are a client's numbers.
fn tells_numbers(channel: &ChannelState, client: &Client, told: &ClientStats) -> bool {
    if told.finish_count != client.finish_count {
        return false;
    }
    if told.in_flight_count != flying(client.number, &channel.copies) as u64 {
        return false;
    }
    if told.message_count != client.message_count {
        return false;
    }
    if told.ready_count != client.ready {
        return false;
    }
    told.requeue_count == client.requeue_count
}

// Whether so many of a depth may not be in memory: at least what finds no room there, at most all, and none where it is ephemeral.
fn is_backend_depth(ephemeral: bool, mem: u128, depth: u128, backend: u128) -> bool {
    if ephemeral {
        return backend == 0;
    }
    depth.saturating_sub(mem) <= backend && backend <= depth
}
