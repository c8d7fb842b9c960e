use crate::credit::{is_beat_due, is_idle, is_lost, is_silent, may_be_sent};
use crate::may_say;
use broker_acts::{moved, says_done};
use broker_changes::topics::{is_topic_at, takes};
use broker_history::{Act, Ask, Entry, Said};
use broker_state::{
    ChannelState, Client, State, TopicState, flying_of, flying_with, reply, same_reply,
};
use nsq_base::{Chan, Memory, MsgId, Names, Topic};
use nsq_outside::End;
use std::alloc::Global;
use v2_frame::{Command, Fault, Frame, FrameKind, Message};

// Whether the entry may stand behind this state with this end (`IsAllowedAct`), as far as the state goes, whatever its moment; what it says of a copy
// or a message is in what it does.
pub(crate) fn is_allowed(
    alloc: Global,
    state: &State,
    entry: &Entry,
    end: End,
) -> Result<bool, Memory> {
    is_allowed_act(alloc, state, entry.at, entry.conn, &entry.act, end)
}

// The same of an act at a moment, of the connection of this number: first of those that may end otherwise than done.
fn is_allowed_act(
    alloc: Global,
    state: &State,
    at: u64,
    number: u64,
    act: &Act,
    end: End,
) -> Result<bool, Memory> {
    match act {
        Act::Did(command, given) => may_do(alloc, state, number, command, given, end),
        Act::Asked(ask, said) => Ok(may_ask(state, ask, said, end)),
        Act::Stuck(topic, channel) => Ok(
            end == End::Faulted(0) && may_be_stuck(state, at, number, topic, channel),
        ),
        Act::Took(..)
        | Act::Copied(..)
        | Act::TimedOut(..)
        | Act::CameDue(..)
        | Act::HeldBack(..) => may_move(alloc, state, at, number, act, end),
        _ => Ok(is_done(end) && is_allowed_done(state, at, number, act)),
    }
}

// The same of those that end done.
fn is_allowed_done(state: &State, at: u64, number: u64, act: &Act) -> bool {
    match act {
        Act::Began => number > 0 && !state.has_begun(number),
        Act::Refused(fault, frame) => may_refuse(state, number, fault, frame),
        Act::Sent(message) => may_send(state, at, number, message),
        Act::Beat => may_beat(state, at, number),
        Act::Idle => may_idle(state, at, number),
        Act::Silent => may_be_silent(state, at, number),
        Act::Dropped => may_drop(state, number),
        Act::Gone => state.client_of(number).is_some(),
        Act::Listed(names) => are_names(state, names),
        Act::Ticked => is_daemons(state, number),
        Act::Stop => !state.stopped,
        _ => false,
    }
}

// Whether it was carried out.
fn is_done(end: End) -> bool {
    match end {
        End::Done => true,
        End::Faulted(_) | End::Skip => false,
    }
}

// Whether the daemon does it (`IsDaemons`), before a stop.
fn is_daemons(state: &State, number: u64) -> bool {
    number == 0 && !state.stopped
}

// Whether a move may stand (`MayMove`): it is the daemon's, and where a disk fault kept it off it was due. Where it is done, what it does says
// whether it was.
fn may_move(
    alloc: Global,
    state: &State,
    at: u64,
    number: u64,
    act: &Act,
    end: End,
) -> Result<bool, Memory> {
    if !is_daemons(state, number) {
        return Ok(false);
    }
    match end {
        End::Done => Ok(true),
        End::Faulted(n) => {
            let states = moved(alloc, state, at, act)?;
            Ok(n == 0 && !states.is_empty())
        }
        End::Skip => Ok(false),
    }
}

// The client of this number (`OfClient`), where it is there and the daemon didn't stop.
fn served(state: &State, number: u64) -> Option<&Client> {
    if state.stopped {
        return None;
    }
    state.client_of(number)
}

// Whether a command may stand with its reply (`MayDo`), and with a disk fault where one can keep it off.
fn may_do(
    alloc: Global,
    state: &State,
    number: u64,
    command: &Command,
    given: &Option<Frame>,
    end: End,
) -> Result<bool, Memory> {
    match served(state, number) {
        Some(client) => Ok(
            !is_lost(client)
                && may_end(command, given, end)
                && is_replied(alloc, state, client, command, given)?,
        ),
        None => Ok(false),
    }
}

// Whether a command with this reply may end so: a disk fault can keep some from being carried out.
fn may_end(command: &Command, given: &Option<Frame>, end: End) -> bool {
    match end {
        End::Done => true,
        End::Faulted(n) => n == 0 && can_fault(command, given),
        End::Skip => false,
    }
}

// Whether this is the reply to a command of a client.
fn is_replied(
    alloc: Global,
    state: &State,
    client: &Client,
    command: &Command,
    given: &Option<Frame>,
) -> Result<bool, Memory> {
    let wanted = reply(
        alloc,
        &state.options,
        state.ids_used,
        client.phase,
        flies(state, client, command),
        command,
    )?;
    Ok(same_reply(given, &wanted))
}

// Whether a copy of the message that the command names is in flight with the client.
fn flies(state: &State, client: &Client, command: &Command) -> bool {
    match command {
        Command::Fin(id) => has_in_flight(state, client, id),
        Command::Req(id, _) => has_in_flight(state, client, id),
        Command::Touch(id) => has_in_flight(state, client, id),
        _ => false,
    }
}

// Whether a copy of this id is in flight with the client.
fn has_in_flight(state: &State, client: &Client, id: &MsgId) -> bool {
    match state.client_channel(&client.route) {
        Some(channel) => flying_with(client.number, id, &channel.copies) > 0,
        None => false,
    }
}

// Whether a disk fault can keep this command, with this reply, from being carried out (`CanFault`): a publish or a REQ that succeeds.
fn can_fault(command: &Command, given: &Option<Frame>) -> bool {
    match command {
        Command::Pub(_, _) | Command::Mpub(_, _) | Command::Dpub(_, _, _) => is_ok(given),
        Command::Req(_, _) => given.is_none(),
        _ => false,
    }
}

// Whether a reply says that a command was carried out.
fn is_ok(given: &Option<Frame>) -> bool {
    match given {
        Some(frame) => is_frame(frame, FrameKind::Response, b"OK"),
        None => false,
    }
}

// Whether a frame is of this kind and text.
fn is_frame(frame: &Frame, kind: FrameKind, text: &[u8]) -> bool {
    frame.kind == kind && frame.body.bytes() == text
}

// Whether a fault of a client's bytes may be refused with this frame.
fn may_refuse(state: &State, number: u64, fault: &Fault, frame: &Frame) -> bool {
    served(state, number).is_some() && is_frame(frame, FrameKind::Error, fault.kind.text())
}

// Whether this message may be sent to a client, as far as all but the copy goes: its id isn't in flight in the channel.
fn may_send(state: &State, at: u64, number: u64, message: &Message) -> bool {
    let Some(client) = served(state, number) else {
        return false;
    };
    if !may_be_sent(state, at, client) {
        return false;
    }
    is_free(state.client_channel(&client.route), &message.id)
}

// Whether no copy of this id is in flight in the channel.
fn is_free(channel: Option<&ChannelState>, id: &MsgId) -> bool {
    match channel {
        Some(channel) => flying_of(id, &channel.copies) == 0,
        None => true,
    }
}

// Whether a heartbeat may be sent to a client.
fn may_beat(state: &State, at: u64, number: u64) -> bool {
    let Some(client) = served(state, number) else {
        return false;
    };
    if is_lost(client) {
        return false;
    }
    if is_silent(at, client) {
        return false;
    }
    is_beat_due(at, client)
}

// Whether there may be nothing to send to a client.
fn may_idle(state: &State, at: u64, number: u64) -> bool {
    match served(state, number) {
        Some(client) => is_idle(state, at, client),
        None => false,
    }
}

// Whether a client may be taken for silent.
fn may_be_silent(state: &State, at: u64, number: u64) -> bool {
    let Some(client) = served(state, number) else {
        return false;
    };
    if is_lost(client) {
        return false;
    }
    is_silent(at, client)
}

// Whether a client's connection may be closed as its channel was deleted.
fn may_drop(state: &State, number: u64) -> bool {
    match served(state, number) {
        Some(client) => is_lost(client),
        None => false,
    }
}

// Whether what is asked may stand with what is said (`MayAsk`), and with a disk fault where one can keep it from being done.
fn may_ask(state: &State, ask: &Ask, said: &Said, end: End) -> bool {
    if state.stopped || !may_say(state, ask, said) {
        return false;
    }
    match end {
        End::Done => true,
        End::Faulted(count) => says_done(said) && can_fault_ask(state, ask, count),
        End::Skip => false,
    }
}

// Whether a disk fault can keep what was asked from being done (`CanFaultAsk`), behind so many channels that a topic's deletion had deleted.
fn can_fault_ask(state: &State, ask: &Ask, count: u64) -> bool {
    match ask {
        Ask::Publish(_, _, _) | Ask::Empty(_, _) => count == 0,
        Ask::Delete(_, Some(_)) => count == 0,
        Ask::Delete(topic, None) => may_break_off(state.topic_of(topic), count),
        _ => false,
    }
}

// Whether a disk fault can end a topic's deletion behind so many channels.
fn may_break_off(topic: Option<&TopicState>, count: u64) -> bool {
    match topic {
        Some(topic) => count <= topic.channels.len() as u64,
        None => count == 0,
    }
}

// Whether these are the names of all topics and channels.
fn are_names(state: &State, names: &Names) -> bool {
    if names.count() != state.topics.len() {
        return false;
    }
    for i in 0..names.count() {
        if !is_topic_at(&state.topics[i], names, i) {
            return false;
        }
    }
    true
}

// Whether a Stuck may stand (`MayBeStuck`): the daemon's names a topic alone, for which a Took is due; a client's names its channel.
fn may_be_stuck(
    state: &State,
    at: u64,
    number: u64,
    topic: &Topic,
    channel: &Option<Chan>,
) -> bool {
    match channel {
        None => is_daemons(state, number) && is_topic_stuck(state, topic),
        Some(channel) => is_client_stuck(state, at, number, topic, channel),
    }
}

// Whether a message of the topic was to be taken.
fn is_topic_stuck(state: &State, topic: &Topic) -> bool {
    match state.topic_of(topic) {
        Some(topic) => takes(topic),
        None => false,
    }
}

// Whether a message of this channel was to be sent to the client.
fn is_client_stuck(state: &State, at: u64, number: u64, topic: &Topic, channel: &Chan) -> bool {
    let Some(client) = served(state, number) else {
        return false;
    };
    if !may_be_sent(state, at, client) {
        return false;
    }
    client.has_channel(topic, channel)
}
