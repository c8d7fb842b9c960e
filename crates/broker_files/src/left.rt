use crate::growing::{put_last, put_made};
use broker_state::{ChannelState, MessageCopy, State, TakenMessage, TopicState};
use nsq_base::Memory;
use path_plain::{FoundChannel, FoundNames, FoundTopic, KeptChannel, KeptNames, KeptTopic};
use std::alloc::Global;
use v2_frame::Message;

/// Whether all that a run left was found, and nothing else: its epoch, and its durable topics and channels, each with its pause and
/// its messages, in whatever order. Left of a channel are its copies that are queued, in flight or deferred, and of a topic the
/// messages that wait and the one that it took. Delays are forgotten. Want of memory is the only error, and none is wanted. It has no
/// contract: it is a second reading of the definitions by hand.
pub fn is_all_left(_alloc: Global, state: &State, found: &FoundNames) -> Result<bool, Memory> {
    Ok(found.epoch == state.epoch && are_left_topics(&state.topics, &found.topics))
}

// Whether the durable ones of these topics were found, and no other.
fn are_left_topics(topics: &[TopicState], found: &[FoundTopic]) -> bool {
    let Some((topic, rest)) = topics.split_first() else {
        return found.is_empty();
    };
    if topic.name.ephemeral() {
        return are_left_topics(rest, found);
    }
    match found.split_first() {
        Some((first, more)) => is_left_topic(topic, first) && are_left_topics(rest, more),
        None => false,
    }
}

// Whether a topic was found with all that was left of it.
fn is_left_topic(topic: &TopicState, found: &FoundTopic) -> bool {
    topic.is_named(&found.name)
        && topic.paused == found.paused
        && are_left_in_topic(topic, &found.messages)
        && are_left_channels(&topic.channels, &found.channels)
}

// Whether the durable ones of a topic's channels were found, and no other.
fn are_left_channels(channels: &[ChannelState], found: &[FoundChannel]) -> bool {
    let Some((channel, rest)) = channels.split_first() else {
        return found.is_empty();
    };
    if channel.name.ephemeral() {
        return are_left_channels(rest, found);
    }
    match found.split_first() {
        Some((first, more)) => is_left_channel(channel, first) && are_left_channels(rest, more),
        None => false,
    }
}

// Whether a channel was found with all that was left of it.
fn is_left_channel(channel: &ChannelState, found: &FoundChannel) -> bool {
    channel.is_named(&found.name)
        && channel.paused == found.paused
        && are_left_in_channel(&channel.copies, &found.messages)
}

// Whether these are the messages of the copies that are queued, in flight or deferred, each as often, in whatever order.
fn are_left_in_channel(copies: &[MessageCopy], found: &[Message]) -> bool {
    if live(copies) != found.len() {
        return false;
    }
    for message in found {
        if times_live(message, copies) != times(message, found) {
            return false;
        }
    }
    true
}

// How many copies are queued, in flight or deferred.
fn live(copies: &[MessageCopy]) -> usize {
    let mut count: usize = 0;
    for copy in copies {
        if copy.place.is_live() {
            count = count.saturating_add(1);
        }
    }
    count
}

// How many of them have this message.
fn times_live(message: &Message, copies: &[MessageCopy]) -> usize {
    let mut count: usize = 0;
    for copy in copies {
        if copy.place.is_live() && is_same(message, &copy.message) {
            count = count.saturating_add(1);
        }
    }
    count
}

// Whether these are the messages that wait and the one that was taken, each as often, in whatever order.
fn are_left_in_topic(topic: &TopicState, found: &[Message]) -> bool {
    let taken = usize::from(topic.taken.is_some());
    if topic.waiting.len().saturating_add(taken) != found.len() {
        return false;
    }
    for message in found {
        if times_left(message, topic) != times(message, found) {
            return false;
        }
    }
    true
}

// How often a message stands among those that wait and the one that was taken.
fn times_left(message: &Message, topic: &TopicState) -> usize {
    let mut count = usize::from(is_taken(message, &topic.taken));
    for waits in &topic.waiting {
        if is_same(message, &waits.message) {
            count = count.saturating_add(1);
        }
    }
    count
}

// Whether a message is the one that was taken.
fn is_taken(message: &Message, taken: &Option<TakenMessage>) -> bool {
    match taken {
        Some(taken) => is_same(message, &taken.message),
        None => false,
    }
}

// How often a message stands among others.
fn times(message: &Message, others: &[Message]) -> usize {
    let mut count: usize = 0;
    for other in others {
        if is_same(message, other) {
            count = count.saturating_add(1);
        }
    }
    count
}

// Whether two messages are the same: by timestamp, attempts, id and body, and not by the delay.
fn is_same(message: &Message, other: &Message) -> bool {
    message.stamp == other.stamp
        && message.attempts == other.attempts
        && same(message.id.bytes(), other.id.bytes())
        && same(message.body.bytes(), other.body.bytes())
}

// Whether two texts are equal.
fn same(one: &[u8], other: &[u8]) -> bool {
    one == other
}

/// What the file of names keeps of a state: the run's epoch, and the durable topics and channels with their pauses. Want of memory is
/// the only error. It has no contract: it is a second reading of the definitions by hand.
pub fn kept_names(alloc: Global, state: &State) -> Result<KeptNames, Memory> {
    Ok(KeptNames {
        epoch: state.epoch,
        topics: kept_topics(alloc, &state.topics)?,
    })
}

// What it keeps of topics: of the durable ones.
fn kept_topics(alloc: Global, topics: &[TopicState]) -> Result<Vec<KeptTopic>, Memory> {
    let mut kept = Vec::new(alloc);
    for topic in topics {
        if topic.name.ephemeral() {
            continue;
        }
        put_made(&mut kept, kept_topic(alloc, topic))?;
    }
    Ok(kept)
}

// What it keeps of a topic.
fn kept_topic(alloc: Global, topic: &TopicState) -> Result<KeptTopic, Memory> {
    Ok(KeptTopic {
        name: topic.name,
        paused: topic.paused,
        channels: kept_channels(alloc, &topic.channels)?,
    })
}

// What it keeps of channels: of the durable ones.
fn kept_channels(alloc: Global, channels: &[ChannelState]) -> Result<Vec<KeptChannel>, Memory> {
    let mut kept = Vec::new(alloc);
    for channel in channels {
        if channel.name.ephemeral() {
            continue;
        }
        let name = channel.name;
        let paused = channel.paused;
        put_last(&mut kept, KeptChannel { name, paused })?;
    }
    Ok(kept)
}
