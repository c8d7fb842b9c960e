ghost use Rattle.std.specs.Prelude.{◌↔◌, ◌+◌, ◌≤◌, ◌^◌, IsTrue};

use crate::moves::{at_channel, one_made, room_of, same, standing};
use broker_changes::channels::{counted, finishes, gives_back, sends, touches};
use broker_changes::state::{made_channel, published};
use broker_state::{
    ChannelState, Client, Identity, Phase, Route, State, TopicState, are_left, copy_route,
    identity_of,
};
use nsq_base::{Body, Chan, Memory, MsgId, Topic};
use std::alloc::Global;
use v2_frame::{Command, Message};

// The states that a command leads to that its client of this number gave (`DoesDid`): one that was refused or met a disk fault changes nothing but
// the moment of the client's last command.
pub(crate) fn did(
    alloc: Global,
    state: &State,
    at: u64,
    number: u64,
    command: &Command,
    kept_off: bool,
) -> Result<Vec<State>, Memory> {
    let Some(client) = state.client_of(number) else {
        return Ok(Vec::new(alloc));
    };
    let spoken = with_one(alloc, state, spoke(alloc, at, client))?;
    let states = done(alloc, &spoken, at, number, command, kept_off);
    drop(spoken);
    states
}

// The states that a command leads to, in which its client of this number just gave it.
fn done(
    alloc: Global,
    state: &State,
    at: u64,
    number: u64,
    command: &Command,
    kept_off: bool,
) -> Result<Vec<State>, Memory> {
    if kept_off {
        return same(alloc, state);
    }
    match state.client_of(number) {
        Some(client) => carried_out(alloc, state, at, client, command),
        None => Ok(Vec::new(alloc)),
    }
}

// The state with this client, where memory didn't want.
pub(crate) fn with_one(
    alloc: Global,
    state: &State,
    client: Result<Client, Memory>,
) -> Result<State, Memory> {
    let client = client?;
    match state.copy(alloc) {
        Ok(state) => state.with_client(alloc, client),
        Err(error) => {
            drop(client);
            Err(error)
        }
    }
}

// One state, with this client.
pub(crate) fn only(
    alloc: Global,
    state: &State,
    client: Result<Client, Memory>,
) -> Result<Vec<State>, Memory> {
    one_made(alloc, with_one(alloc, state, client))
}

// A client that just gave a command.
fn spoke(alloc: Global, at: u64, client: &Client) -> Result<Client, Memory> {
    let mut spoke = client.copy(alloc)?;
    spoke.last_command = at;
    Ok(spoke)
}

// The states that a command leads to that succeeds (`CarriesOut`), in which its client stands as its last command leaves it.
fn carried_out(
    alloc: Global,
    state: &State,
    at: u64,
    client: &Client,
    command: &Command,
) -> Result<Vec<State>, Memory> {
    match command {
        Command::Identify(body) => identified(alloc, state, at, client, body),
        Command::Sub(topic, channel) => subscribed(alloc, state, client, topic, channel),
        Command::Pub(topic, body) => publish_one(alloc, state, at, 0, topic, body),
        Command::Mpub(topic, bodies) => publish(alloc, state, at, 0, topic, bodies.as_slice()),
        Command::Dpub(topic, delay, body) => {
            publish_one(alloc, state, at, span_of(*delay), topic, body)
        }
        Command::Rdy(count) => readied(alloc, state, client, *count),
        Command::Fin(id) => finished(alloc, state, client, id),
        Command::Req(id, delay) => given_back(alloc, state, at, client, id, *delay),
        Command::Touch(id) => touched(alloc, state, at, client, id),
        Command::Cls => closing(alloc, state, client),
        Command::Nop => same(alloc, state),
    }
}

// A delay that a client gives in milliseconds, in nanoseconds, at most 2^64 - 1; one below 0 counts as 0.
fn span_of(delay: i64) -> u64 {
    if delay < 0 {
        return 0;
    }
    delay.unsigned_abs().saturating_mul(1_000_000)
}

// The state after an accepted IDENTIFY, which sets all members anew; the client's next heartbeat counts from here.
fn identified(
    alloc: Global,
    state: &State,
    at: u64,
    client: &Client,
    body: &Body,
) -> Result<Vec<State>, Memory> {
    match identity_of(alloc, &state.options, body.bytes())? {
        None => same(alloc, state),
        Some(identity) => only(alloc, state, Ok(known(client, at, identity))),
    }
}

// A client of whom this is known from a moment on.
fn known(client: &Client, at: u64, identity: Identity) -> Client {
    Client {
        number: client.number,
        phase: client.phase,
        route: copy_route(&client.route),
        ready: client.ready,
        heartbeat: identity.heartbeat,
        timeout: identity.timeout,
        client_id: identity.client_id,
        hostname: identity.hostname,
        user_agent: identity.user_agent,
        last_command: client.last_command,
        beat_from: at,
        finish_count: client.finish_count,
        message_count: client.message_count,
        requeue_count: client.requeue_count,
    }
}

// The state after SUB.
fn subscribed(
    alloc: Global,
    state: &State,
    client: &Client,
    topic: &Topic,
    channel: &Chan,
) -> Result<Vec<State>, Memory> {
    let client = subscriber(alloc, client, topic, channel);
    let state = with_one(alloc, state, client)?;
    one_made(alloc, made_channel(alloc, state, topic, channel))
}

// A client that subscribed to a channel.
fn subscriber(
    alloc: Global,
    client: &Client,
    topic: &Topic,
    channel: &Chan,
) -> Result<Client, Memory> {
    let mut client = client.copy(alloc)?;
    client.phase = Phase::Subscribed;
    client.route = Some(Route {
        topic: *topic,
        channel: *channel,
    });
    Ok(client)
}

// The state after a message was published, none where the ids are spent.
fn publish_one(
    alloc: Global,
    state: &State,
    at: u64,
    delay: u64,
    topic: &Topic,
    body: &Body,
) -> Result<Vec<State>, Memory> {
    let bodies = one_made(alloc, Body::copy(alloc, body.bytes()))?;
    publish(alloc, state, at, delay, topic, &bodies)
}

// The state after messages were published, none where the ids are spent.
pub(crate) fn publish(
    alloc: Global,
    state: &State,
    at: u64,
    delay: u64,
    topic: &Topic,
    bodies: &[Body],
) -> Result<Vec<State>, Memory> {
    if !has_ids(state.ids_used, bodies.len() as u64) {
        return Ok(Vec::new(alloc));
    }
    one_made(
        alloc,
        published(alloc, state.copy(alloc)?, at, delay, topic, bodies),
    )
}

// Whether so many further ids are left.
fn has_ids(used: u64, count: u64) -> bool
    ensures { IsTrue result ↔ used + count ≤ 2 ^ 40 }
{
    are_left(used, count)
}

// The state after RDY.
fn readied(
    alloc: Global,
    state: &State,
    client: &Client,
    count: i64,
) -> Result<Vec<State>, Memory> {
    only(alloc, state, ready(alloc, client, count))
}

// A client that gave RDY, in vain where it is closing.
fn ready(alloc: Global, client: &Client, count: i64) -> Result<Client, Memory> {
    let mut client = client.copy(alloc)?;
    if client.phase == Phase::Subscribed {
        client.ready = count_of(count);
    }
    Ok(client)
}

// How many messages RDY asks for.
fn count_of(count: i64) -> u64 {
    if count < 0 { 0 } else { count.unsigned_abs() }
}

// The state after CLS.
fn closing(alloc: Global, state: &State, client: &Client) -> Result<Vec<State>, Memory> {
    only(alloc, state, closed(alloc, client))
}

// A client that gave CLS.
fn closed(alloc: Global, client: &Client) -> Result<Client, Memory> {
    let mut client = client.copy(alloc)?;
    client.phase = Phase::Closing;
    Ok(client)
}

// What is counted of a client.
#[derive(Clone, Copy)]
enum Counting {
    // A message that it finished.
    Finished,
    // A message that it gave back.
    GivenBack,
    // A message that was sent to it.
    Sent,
    // Nothing.
    Nothing,
}

// Counts this of the client of this number in each of these states.
fn count_in_states(states: &mut Vec<State>, number: u64, what: Counting) {
    for state in states {
        count_in_clients(&mut state.clients, number, what);
    }
}

// Counts this of the client of this number.
fn count_in_clients(clients: &mut Vec<Client>, number: u64, what: Counting) {
    for client in clients {
        if client.is_numbered(number) {
            count(client, what);
        }
    }
}

// Counts this of a client.
fn count(client: &mut Client, what: Counting) {
    match what {
        Counting::Finished => client.finish_count = counted(client.finish_count),
        Counting::GivenBack => client.requeue_count = counted(client.requeue_count),
        Counting::Sent => client.message_count = counted(client.message_count),
        Counting::Nothing => {}
    }
}

// The states after FIN.
fn finished(
    alloc: Global,
    state: &State,
    client: &Client,
    id: &MsgId,
) -> Result<Vec<State>, Memory> {
    let Some((topic, channel)) = own_channel(state, client) else {
        return Ok(Vec::new(alloc));
    };
    let channels = finishes(alloc, channel, client.number, id);
    at_own(
        alloc,
        state,
        topic,
        channels,
        client.number,
        Counting::Finished,
    )
}

// The states after REQ: the delay is brought into the range of 0 to the longest one.
fn given_back(
    alloc: Global,
    state: &State,
    at: u64,
    client: &Client,
    id: &MsgId,
    delay: i64,
) -> Result<Vec<State>, Memory> {
    let Some((topic, channel)) = own_channel(state, client) else {
        return Ok(Vec::new(alloc));
    };
    let room = room_of(state, &topic.name, &channel.name);
    let delay = span_of(delay).min(state.options.max_req_timeout);
    let channels = gives_back(alloc, channel, room, client.number, id, at, delay);
    at_own(
        alloc,
        state,
        topic,
        channels,
        client.number,
        Counting::GivenBack,
    )
}

// The states after TOUCH.
fn touched(
    alloc: Global,
    state: &State,
    at: u64,
    client: &Client,
    id: &MsgId,
) -> Result<Vec<State>, Memory> {
    let Some((topic, channel)) = own_channel(state, client) else {
        return Ok(Vec::new(alloc));
    };
    let most = state.options.max_msg_timeout;
    let channels = touches(alloc, channel, client.number, id, at, client.timeout, most);
    at_own(
        alloc,
        state,
        topic,
        channels,
        client.number,
        Counting::Nothing,
    )
}

// The states that a message's being sent leads to (`DoesSend`).
pub(crate) fn sent(
    alloc: Global,
    state: &State,
    at: u64,
    number: u64,
    message: &Message,
) -> Result<Vec<State>, Memory> {
    match state.client_of(number) {
        Some(client) => sent_to(alloc, state, at, client, message),
        None => Ok(Vec::new(alloc)),
    }
}

// The states that a message's being sent to a client leads to.
fn sent_to(
    alloc: Global,
    state: &State,
    at: u64,
    client: &Client,
    message: &Message,
) -> Result<Vec<State>, Memory> {
    let Some((topic, channel)) = own_channel(state, client) else {
        return Ok(Vec::new(alloc));
    };
    let channels = sends(alloc, channel, client.number, at, client.timeout, message);
    at_own(alloc, state, topic, channels, client.number, Counting::Sent)
}

// The topic and the channel of a client, where they are there.
fn own_channel<'a>(
    state: &'a State,
    client: &Client,
) -> Option<(&'a TopicState, &'a ChannelState)> {
    match &client.route {
        Some(route) => standing(state, &route.topic, &route.channel),
        None => None,
    }
}

// The states that are this one with one of the channels in the topic, in which this is counted of the client (`AtOwn`).
fn at_own(
    alloc: Global,
    state: &State,
    topic: &TopicState,
    channels: Result<Vec<ChannelState>, Memory>,
    number: u64,
    what: Counting,
) -> Result<Vec<State>, Memory> {
    let mut states = at_channel(alloc, state, topic, channels)?;
    count_in_states(&mut states, number, what);
    Ok(states)
}
