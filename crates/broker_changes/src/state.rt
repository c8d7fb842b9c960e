ghost use Rattle.std.specs.Prelude.{◌≤◌, ◌+◌, ◌^◌, length};

use crate::channels::empty;
use crate::rows::{if_done, remove_at};
use crate::topics::{Publishing, channel_names, owe_no_more, put_bodies};
use broker_state::{ChannelState, Client, Phase, Route, State, TopicState, copy_route};
use nsq_base::{Body, Chan, Memory, Topic};
use std::alloc::Global;

// A copy of the topic of this name, as it is made where there is none.
fn topic_or_new(alloc: Global, state: &State, name: &Topic) -> Result<TopicState, Memory> {
    match state.topic_of(name) {
        Some(topic) => topic.copy(alloc),
        None => Ok(TopicState::new(alloc, *name)),
    }
}

// A copy of the channel of this name in a topic, as it is made where there is none.
fn channel_or_new(
    alloc: Global,
    state: &State,
    topic: &Topic,
    name: &Chan,
) -> Result<ChannelState, Memory> {
    match state.channel_at(topic, name) {
        Some(channel) => channel.copy(alloc),
        None => Ok(ChannelState::new(alloc, *name)),
    }
}

/// The state after messages of these bodies were published (`published`); each uses an id, also one that an ephemeral topic drops. Want of
/// memory is the only error, here and below.
pub fn published(
    alloc: Global,
    mut state: State,
    at: u64,
    delay: u64,
    name: &Topic,
    bodies: &[Body],
) -> Result<State, Memory>
    requires { state.ids_used + length bodies.now ≤ 2 ^ 40 }
{
    let topic = topic_with_bodies(alloc, &state, at, delay, name, bodies);
    state.ids_used += bodies.len() as u64;
    placed(alloc, state, topic)
}

// The state with this topic at its place, where memory didn't want.
fn placed(alloc: Global, state: State, topic: Result<TopicState, Memory>) -> Result<State, Memory> {
    match topic {
        Ok(topic) => state.with_topic(alloc, topic),
        Err(error) => if_done(state, Err(error)),
    }
}

// The topic of this name after messages of these bodies were published.
fn topic_with_bodies(
    alloc: Global,
    state: &State,
    at: u64,
    delay: u64,
    name: &Topic,
    bodies: &[Body],
) -> Result<TopicState, Memory>
    requires { state.now.ids_used + length bodies.now ≤ 2 ^ 40 }
{
    let publishing = Publishing {
        mem: state.options.mem_queue_size,
        epoch: state.epoch,
        used: state.ids_used,
        at,
        delay,
    };
    let mut topic = topic_or_new(alloc, state, name)?;
    let put = put_bodies(alloc, &mut topic, publishing, bodies);
    if_done(topic, put)
}

/// The state with this topic, or with this channel in it (`made`); what isn't there yet is made.
pub fn made(
    alloc: Global,
    state: State,
    name: &Topic,
    channel: &Option<Chan>,
) -> Result<State, Memory> {
    let topic = made_topic(alloc, &state, name, channel);
    placed(alloc, state, topic)
}

// The topic of this name, and with this channel in it where one is named.
fn made_topic(
    alloc: Global,
    state: &State,
    name: &Topic,
    channel: &Option<Chan>,
) -> Result<TopicState, Memory> {
    match channel {
        None => topic_or_new(alloc, state, name),
        Some(channel) => topic_with_new(alloc, state, name, channel),
    }
}

/// The state with this topic, and with this channel in it (`made_channel`).
pub fn made_channel(
    alloc: Global,
    state: State,
    name: &Topic,
    channel: &Chan,
) -> Result<State, Memory> {
    let topic = topic_with_new(alloc, &state, name, channel);
    placed(alloc, state, topic)
}

// The topic of this name with the channel in it, each as it is made where there is none.
fn topic_with_new(
    alloc: Global,
    state: &State,
    name: &Topic,
    channel: &Chan,
) -> Result<TopicState, Memory> {
    let channel = channel_or_new(alloc, state, name, channel)?;
    let topic = topic_or_new(alloc, state, name)?;
    topic.with_channel(alloc, channel)
}

// The topics but the one of this name (`without_topic`), with its messages and what is left of its channels.
fn remove_topic(topics: &mut Vec<TopicState>, name: &Topic) {
    let place = place_of_topic(topics, name);
    remove_at(topics, place);
}

// The place of the topic of this name, behind all where there is none.
fn place_of_topic(topics: &[TopicState], name: &Topic) -> usize {
    for i in 0..topics.len() {
        if topics[i].is_named(name) {
            return i;
        }
    }
    topics.len()
}

// The place of the channel of this name, behind all where there is none.
fn place_of_channel(channels: &[ChannelState], name: &Chan) -> usize {
    for i in 0..channels.len() {
        if channels[i].is_named(name) {
            return i;
        }
    }
    channels.len()
}

// Deletes the channel of the topic (`deleted_channel`): its copies, its clients' part in it and what it was owed are gone.
fn delete_channel(state: &mut State, name: &Topic, channel: &Chan) {
    if state.channel_at(name, channel).is_none() {
        return;
    }
    lose(&mut state.clients, name, channel);
    remove_channels(&mut state.topics, name, channel);
    if is_left_empty(state.topic_of(name)) {
        remove_topic(&mut state.topics, name);
    }
}

// Loses the clients that had this channel, which was deleted (`lost`).
fn lose(clients: &mut Vec<Client>, topic: &Topic, channel: &Chan) {
    for client in clients {
        if client.has_channel(topic, channel) {
            client.phase = Phase::Lost;
        }
    }
}

// Removes the channel of this name from the topic of that.
fn remove_channels(topics: &mut Vec<TopicState>, name: &Topic, channel: &Chan) {
    let place = place_of_topic(topics, name);
    if place < topics.len() {
        remove_channel(&mut topics[place], channel);
    }
}

// Removes the channel of this name from a topic, which owes it nothing any more (`without_channel`).
fn remove_channel(topic: &mut TopicState, name: &Chan) {
    let place = place_of_channel(&topic.channels, name);
    remove_at(&mut topic.channels, place);
    owe_no_more(&mut topic.taken, name);
}

// Whether the topic is ephemeral and has no channel: it goes with its last one (`with_fewer`).
fn is_left_empty(topic: Option<&TopicState>) -> bool {
    match topic {
        Some(topic) => topic.name.ephemeral() && topic.channels.is_empty(),
        None => false,
    }
}

// The names of a topic's channels (`channels_in`), none where it isn't there.
fn channels_in(alloc: Global, state: &State, name: &Topic) -> Result<Vec<Chan>, Memory> {
    match state.topic_of(name) {
        None => Ok(Vec::new(alloc)),
        Some(topic) => channel_names(alloc, &topic.channels),
    }
}

/// The state after so many channels of a topic were deleted (`deleted_first`), in byte order of their names.
pub fn deleted_first(
    alloc: Global,
    mut state: State,
    name: &Topic,
    count: u64,
) -> Result<State, Memory> {
    let channels = channels_in(alloc, &state, name);
    let deleted = delete_channels(&mut state, name, channels, count);
    if_done(state, deleted)
}

// Deletes so many of these channels of a topic, or all, where memory didn't want.
fn delete_channels(
    state: &mut State,
    name: &Topic,
    channels: Result<Vec<Chan>, Memory>,
    count: u64,
) -> Result<(), Memory> {
    let channels = channels?;
    let mut left = count;
    for channel in &channels {
        if left > 0 {
            delete_channel(state, name, channel);
            left -= 1;
        }
    }
    Ok(())
}

/// The state after a topic was deleted, its channels first, or a channel of it (`deleted`).
pub fn deleted(
    alloc: Global,
    mut state: State,
    name: &Topic,
    channel: &Option<Chan>,
) -> Result<State, Memory> {
    match channel {
        None => {
            let mut state = deleted_first(alloc, state, name, u64::MAX)?;
            remove_topic(&mut state.topics, name);
            Ok(state)
        }
        Some(channel) => {
            delete_channel(&mut state, name, channel);
            Ok(state)
        }
    }
}

// What becomes of a topic or a channel.
#[derive(Clone, Copy)]
enum Change {
    // It is emptied: what waits in a topic goes, and what it took stays; or all of a channel's copies that aren't done with are emptied out.
    Emptied,
    // It is paused, or isn't any more.
    Paused(bool),
}

/// The state after a topic or a channel was emptied (`emptied`): what waits in a topic goes, and what it took stays; or all of a channel's
/// copies that aren't done with are emptied out.
pub fn emptied(
    _alloc: Global,
    mut state: State,
    name: &Topic,
    channel: &Option<Chan>,
) -> Result<State, Memory> {
    change_at(&mut state.topics, name, channel, Change::Emptied);
    Ok(state)
}

/// The state after a topic or a channel was paused, or is not any more (`set_paused`).
pub fn set_paused(
    _alloc: Global,
    mut state: State,
    on: bool,
    name: &Topic,
    channel: &Option<Chan>,
) -> Result<State, Memory> {
    change_at(&mut state.topics, name, channel, Change::Paused(on));
    Ok(state)
}

// Changes the topic of this name, or its channel of that, where it is there.
fn change_at(topics: &mut Vec<TopicState>, name: &Topic, channel: &Option<Chan>, change: Change) {
    let place = place_of_topic(topics, name);
    if place < topics.len() {
        change_in(&mut topics[place], channel, change);
    }
}

// Changes the topic, or its channel of this name.
fn change_in(topic: &mut TopicState, channel: &Option<Chan>, change: Change) {
    match channel {
        None => change_topic(topic, change),
        Some(channel) => change_channels(&mut topic.channels, channel, change),
    }
}

// Changes the topic.
fn change_topic(topic: &mut TopicState, change: Change) {
    match change {
        Change::Emptied => topic.waiting.clear(),
        Change::Paused(on) => topic.paused = on,
    }
}

// Changes the one of these channels that has this name.
fn change_channels(channels: &mut Vec<ChannelState>, name: &Chan, change: Change) {
    let place = place_of_channel(channels, name);
    if place < channels.len() {
        change_channel(&mut channels[place], change);
    }
}

// Changes the channel.
fn change_channel(channel: &mut ChannelState, change: Change) {
    match change {
        Change::Emptied => empty(&mut channel.copies),
        Change::Paused(on) => channel.paused = on,
    }
}

// The clients but the one of this number.
fn remove_client(clients: &mut Vec<Client>, number: u64) {
    let place = place_of_client(clients, number);
    remove_at(clients, place);
}

// The place of the client of this number, behind all where there is none.
fn place_of_client(clients: &[Client], number: u64) -> usize {
    for i in 0..clients.len() {
        if clients[i].is_numbered(number) {
            return i;
        }
    }
    clients.len()
}

// Whether a client goes with a channel of its own that it still has.
fn left_route(client: &Client) -> Option<Route> {
    if client.phase == Phase::Lost {
        return None;
    }
    copy_route(&client.route)
}

/// The state after a client went (`gone`), whose copies in flight stay there until they are due: an ephemeral channel goes with its last
/// client.
pub fn gone(_alloc: Global, mut state: State, number: u64) -> Result<State, Memory> {
    let route = route_of(state.client_of(number));
    remove_client(&mut state.clients, number);
    if let Some(route) = route {
        leave_channel(&mut state, &route.topic, &route.channel);
    }
    Ok(state)
}

// The channel of its own that a client still has.
fn route_of(client: Option<&Client>) -> Option<Route> {
    match client {
        Some(client) => left_route(client),
        None => None,
    }
}

// What a client's leaving its channel makes of the state (`left_channel`).
fn leave_channel(state: &mut State, topic: &Topic, channel: &Chan) {
    if is_ephemeral(topic, channel) && !has_clients(state, topic, channel) {
        delete_channel(state, topic, channel);
    }
}

// Whether a client has the channel.
fn has_clients(state: &State, topic: &Topic, channel: &Chan) -> bool {
    for client in &state.clients {
        if client.has_channel(topic, channel) {
            return true;
        }
    }
    false
}

/// Whether a channel is ephemeral (`is_ephemeral_channel`): its name or its topic's name is.
pub fn is_ephemeral(topic: &Topic, channel: &Chan) -> bool {
    topic.ephemeral() || channel.ephemeral()
}
