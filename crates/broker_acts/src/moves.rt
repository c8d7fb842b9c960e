use broker_changes::channels::{Room, comes_due, holds_back, times_out};
use broker_changes::state::is_ephemeral;
use broker_changes::topics::{copied, took};
use broker_history::Act;
use broker_state::{ChannelState, State, TopicState};
use nsq_base::{Chan, Memory, MsgId, Names, Topic};
use std::alloc::Global;
use v2_frame::Message;

// Adds one that was made behind a list, where memory didn't want.
pub(crate) fn put_made<T: Drop>(list: &mut Vec<T>, made: Result<T, Memory>) -> Result<(), Memory> {
    list.push(made?)?;
    Ok(())
}

// What was changed in place, where memory didn't want.
pub(crate) fn if_done<T: Drop>(changed: T, done: Result<(), Memory>) -> Result<T, Memory> {
    done?;
    Ok(changed)
}

// A list of one that was made, where memory didn't want.
pub(crate) fn one_made<T: Drop>(alloc: Global, made: Result<T, Memory>) -> Result<Vec<T>, Memory> {
    let mut list = Vec::new(alloc);
    let put = put_made(&mut list, made);
    if_done(list, put)
}

// The same state.
pub(crate) fn same(alloc: Global, state: &State) -> Result<Vec<State>, Memory> {
    one_made(alloc, state.copy(alloc))
}

// How much room a channel of a topic has (`room_of`).
pub(crate) fn room_of(state: &State, topic: &Topic, channel: &Chan) -> Room {
    Room {
        ephemeral: is_ephemeral(topic, channel),
        mem: state.options.mem_queue_size,
    }
}

/// The states that a move leads to (`DoesMove`), none where it isn't due, or where the act is no move. Want of memory is the only error. It has
/// no contract: it is a second reading of the definitions by hand.
pub fn moved(alloc: Global, state: &State, at: u64, act: &Act) -> Result<Vec<State>, Memory> {
    moved_or(alloc, state, at, act, false)
}

// The same, but where the act is no move the same state may stay.
pub(crate) fn moved_or(
    alloc: Global,
    state: &State,
    at: u64,
    act: &Act,
    stays: bool,
) -> Result<Vec<State>, Memory> {
    match act {
        Act::Took(topic, message, names) => by_took(alloc, state, topic, message, names),
        Act::Copied(topic, channel, message) => by_copied(
            alloc, state, at, topic, channel, message,
        ),
        Act::TimedOut(topic, channel, id) => by_timed_out(alloc, state, at, topic, channel, id),
        Act::CameDue(topic, channel, id) => by_came_due(alloc, state, at, topic, channel, id),
        Act::HeldBack(topic, channel, id) => by_held_back(alloc, state, at, topic, channel, id),
        _ => same_if(alloc, state, stays),
    }
}

// The same state if it stays, else none.
fn same_if(alloc: Global, state: &State, stays: bool) -> Result<Vec<State>, Memory> {
    if stays {
        same(alloc, state)
    } else {
        Ok(Vec::new(alloc))
    }
}

// The states that Took leads to.
fn by_took(
    alloc: Global,
    state: &State,
    name: &Topic,
    message: &Message,
    names: &Names,
) -> Result<Vec<State>, Memory> {
    let Some(topic) = state.topic_of(name) else {
        return Ok(Vec::new(alloc));
    };
    let topics = took(alloc, topic, message, names)?;
    let mut states = Vec::new(alloc);
    for topic in topics {
        put_made(&mut states, at_topic(alloc, state, topic))?;
    }
    Ok(states)
}

// The state that Copied leads to.
fn by_copied(
    alloc: Global,
    state: &State,
    at: u64,
    name: &Topic,
    channel: &Chan,
    message: &Message,
) -> Result<Vec<State>, Memory> {
    let Some(topic) = state.topic_of(name) else {
        return Ok(Vec::new(alloc));
    };
    let room = room_of(state, name, channel);
    match copied(alloc, topic, channel, room, at, message)? {
        None => Ok(Vec::new(alloc)),
        Some(topic) => one_made(alloc, at_topic(alloc, state, topic)),
    }
}

// The state with another topic.
fn at_topic(alloc: Global, state: &State, topic: TopicState) -> Result<State, Memory> {
    match state.copy(alloc) {
        Ok(state) => state.with_topic(alloc, topic),
        Err(error) => {
            drop(topic);
            Err(error)
        }
    }
}

// The topic and the channel of these names, where both are there.
pub(crate) fn standing<'a>(
    state: &'a State,
    name: &Topic,
    channel: &Chan,
) -> Option<(&'a TopicState, &'a ChannelState)> {
    let Some(topic) = state.topic_of(name) else {
        return None;
    };
    match topic.channel_of(channel) {
        Some(channel) => Some((topic, channel)),
        None => None,
    }
}

// The states that TimedOut leads to.
fn by_timed_out(
    alloc: Global,
    state: &State,
    at: u64,
    name: &Topic,
    channel: &Chan,
    id: &MsgId,
) -> Result<Vec<State>, Memory> {
    let Some((topic, from)) = standing(state, name, channel) else {
        return Ok(Vec::new(alloc));
    };
    let to = times_out(alloc, from, room_of(state, name, channel), id, at);
    at_channel(alloc, state, topic, to)
}

// The states that CameDue leads to.
fn by_came_due(
    alloc: Global,
    state: &State,
    at: u64,
    name: &Topic,
    channel: &Chan,
    id: &MsgId,
) -> Result<Vec<State>, Memory> {
    let Some((topic, from)) = standing(state, name, channel) else {
        return Ok(Vec::new(alloc));
    };
    let to = comes_due(alloc, from, room_of(state, name, channel), id, at);
    at_channel(alloc, state, topic, to)
}

// The states that HeldBack leads to.
fn by_held_back(
    alloc: Global,
    state: &State,
    at: u64,
    name: &Topic,
    channel: &Chan,
    id: &MsgId,
) -> Result<Vec<State>, Memory> {
    let Some((topic, from)) = standing(state, name, channel) else {
        return Ok(Vec::new(alloc));
    };
    let until = u128::from(at) + u128::from(state.options.msg_timeout);
    let to = holds_back(alloc, from, id, until);
    at_channel(alloc, state, topic, to)
}

// The states that are this one with one of the channels in the topic (`AtChannel`).
pub(crate) fn at_channel(
    alloc: Global,
    state: &State,
    topic: &TopicState,
    channels: Result<Vec<ChannelState>, Memory>,
) -> Result<Vec<State>, Memory> {
    let channels = channels?;
    let mut states = Vec::new(alloc);
    for channel in channels {
        put_made(&mut states, with_channel(alloc, state, topic, channel))?;
    }
    Ok(states)
}

// The state with the channel in the topic.
fn with_channel(
    alloc: Global,
    state: &State,
    topic: &TopicState,
    channel: ChannelState,
) -> Result<State, Memory> {
    let topic = topic.copy(alloc)?.with_channel(alloc, channel)?;
    at_topic(alloc, state, topic)
}
