//! The plain program beside a channel: whether what a call answered may be, and what is possible afterwards.

use crate::broker::beside::Beside;
use crate::broker::entries::{DAEMON, commanded, entry};
use crate::broker::possible::{Possible, keep_if};
use crate::broker::starting::{topic_alone, with_clients, with_second};
use crate::broker::told::{comes_first, is_channel};
use crate::calls::{Answer, Call, Came, Does, Sight};
use crate::dice::in_milliseconds;
use crate::stage::{Setup, message};
use broker_changes::channels::has_credit;
use broker_changes::topics::any_due;
use broker_history::{Act, Entry};
use broker_state::{ChannelState, State, TakenMessage, TopicState, flying, in_flight, queued};
use channel_core::Channel;
use nsq_base::{Body, Chan, MsgId, Options, Topic};
use nsq_outside::End;
use std::alloc::Global;
use std::process::Abort;
use v2_frame::{Command, Message};

/// Beside a new channel with both clients.
pub fn beside(rt: &impl Abort, setup: &Setup, fails: bool) -> Beside {
    let alloc = setup.alloc;
    let state = first_state(rt, alloc, &setup.options, setup.topic, setup.name, 0);
    Beside {
        alloc,
        options: setup.options.copy(alloc).expect(rt, "memory"),
        topic: setup.topic,
        name: setup.name,
        of: Some(setup.name),
        fails,
        possible: Possible::only(rt, alloc, state),
    }
}

/// Whether two copies of this id are there.
pub fn has_two(beside: &Beside, id: MsgId) -> bool {
    match first(beside) {
        Some(channel) => live(channel, &id) >= 2,
        None => true,
    }
}

/// The id that a call is of: its own, or that of one of the copies in flight, if there is one.
pub fn named(beside: &Beside, call: &Call) -> MsgId {
    if call.place < 4 {
        return call.id;
    }
    match first(beside) {
        Some(channel) => flying_id(channel, call.place, call.id),
        None => call.id,
    }
}

// The id of one of the copies in flight; this one where there is none.
fn flying_id(channel: &ChannelState, place: u64, none: MsgId) -> MsgId {
    let mut left = place % (in_flight(&channel.copies).max(1) as u64);
    for copy in &channel.copies {
        if copy.place.is_in_flight() {
            if left == 0 {
                return copy.message.id;
            }
            left = left.saturating_sub(1);
        }
    }
    none
}

// The channel in the first possible state.
fn first(beside: &Beside) -> Option<&ChannelState> {
    let state = beside.possible.states.first()?;
    state.channel_at(&beside.topic, &beside.name)
}

/// Whether a call may be answered so. What is possible is then what is so behind that call.
pub fn answers(beside: &mut Beside, rt: &impl Abort, call: &Call, answer: &Answer) -> bool {
    match call.does {
        Does::Offer => was_offered(beside, rt, call, answer),
        Does::Give => was_given(beside, rt, call, answer),
        Does::Ready => commands(beside, rt, call, true, End::Done),
        Does::Finish | Does::Touch | Does::Requeue => was_settled(beside, rt, call, answer.came),
        Does::Move => moves(beside, rt, call.at, answer),
        _ => was_done(beside, rt, call, answer.came),
    }
}

// Whether the copy that the topic owed may have been answered so.
fn was_offered(beside: &mut Beside, rt: &impl Abort, call: &Call, answer: &Answer) -> bool {
    match answer.came {
        Came::Done => gets(beside, rt, call, End::Done),
        Came::Fault => {
            beside.fails
                && call.delay == 0
                && is_as_offered(answer.copy, call.id)
                && gets(beside, rt, call, End::Faulted(0))
        }
        Came::Memory | Came::Wanting => panic!(rt; "memory"),
        _ => false,
    }
}

// The channel gets the message that its topic took, or a fault keeps it off. Then the topic has taken none.
fn gets(beside: &mut Beside, rt: &impl Abort, call: &Call, end: End) -> bool {
    let message = message(beside.alloc, call.id, b'm', 0, call.delay).expect(rt, "memory");
    owe(
        rt,
        beside.alloc,
        &mut beside.possible.states,
        beside.name,
        &message,
    );
    let copied = Act::Copied(beside.topic, beside.name, message);
    let goes = beside
        .possible
        .goes(rt, entry(DAEMON, call.at, copied), end);
    owe_none(&mut beside.possible.states);
    goes
}

// Whether this may have been given to the client, and settled or put back.
fn was_given(beside: &mut Beside, rt: &impl Abort, call: &Call, answer: &Answer) -> bool {
    let client = call.who.client();
    match answer.came {
        Came::Sent => was_sent(beside, rt, call, answer.copy),
        Came::Held => {
            is_stuck(beside, rt, client, call.at) && was_held(beside, rt, call, answer.copy.id)
        }
        Came::Fault => beside.fails && is_stuck(beside, rt, client, call.at),
        Came::Memory => panic!(rt; "memory"),
        why => has_none(beside, rt, client, call.at) && is_why(beside, client, why),
    }
}

fn was_sent(beside: &mut Beside, rt: &impl Abort, call: &Call, copy: Sight) -> bool {
    let sent = Act::Sent(message_of(rt, beside.alloc, copy));
    drew(beside, rt, entry(call.who.client(), call.at, sent), call.on) && copy.letter.is_some()
}

fn was_held(beside: &mut Beside, rt: &impl Abort, call: &Call, id: MsgId) -> bool {
    let held = Act::HeldBack(beside.topic, beside.name, id);
    drew(beside, rt, entry(DAEMON, call.at, held), call.on)
}

// What was drawn was settled by this entry, or put back.
fn drew(beside: &mut Beside, rt: &impl Abort, entry: Entry, settles: bool) -> bool {
    if settles {
        beside.possible.goes(rt, entry, End::Done)
    } else {
        beside.possible.may(rt, entry, End::Done)
    }
}

// Whether the client could have been sent a copy, had a fault not kept it off, and some copy is queued.
fn is_stuck(beside: &mut Beside, rt: &impl Abort, client: u64, at: u64) -> bool {
    let stuck = entry(client, at, Act::Stuck(beside.topic, beside.of));
    let may = beside.possible.may(rt, stuck, End::Faulted(0));
    match first(beside) {
        Some(channel) => may && queued(&channel.copies) != 0,
        None => false,
    }
}

// Whether there may be nothing to be sent to the client.
fn has_none(beside: &mut Beside, rt: &impl Abort, client: u64, at: u64) -> bool {
    let idle = entry(client, at, Act::Idle);
    beside.possible.may(rt, idle, End::Done)
}

// Whether this is why the client is given nothing, in the first possible state.
fn is_why(beside: &Beside, client: u64, why: Came) -> bool {
    let Some(state) = beside.possible.states.first() else {
        return false;
    };
    match (first(beside), state.client_of(client)) {
        (Some(channel), Some(client_there)) => {
            is_why_of(channel, client, client_there.ready, why)
        }
        _ => false,
    }
}

fn is_why_of(channel: &ChannelState, client: u64, ready: u64, why: Came) -> bool {
    let has_room = ready > flying(client, &channel.copies) as u64;
    let is_open = has_room && has_credit(ready, client, channel);
    match why {
        Came::NoCredit => !has_room,
        Came::Paused => has_room && !is_open,
        Came::NoneQueued => is_open && queued(&channel.copies) == 0,
        _ => false,
    }
}

// Whether a command of this call was answered so. A fault may keep a copy from being given back at once.
fn was_settled(beside: &mut Beside, rt: &impl Abort, call: &Call, came: Came) -> bool {
    match came {
        Came::Done => commands(beside, rt, call, true, End::Done),
        Came::Fault => {
            let right = beside.fails && call.delay == 0;
            commands(beside, rt, call, true, End::Faulted(0)) && right
        }
        Came::NotYours => commands(beside, rt, call, false, End::Done),
        _ => false,
    }
}

// Whether the client may give the command of a call, the message of which is in flight with it or isn't, with this end.
fn commands(beside: &mut Beside, rt: &impl Abort, call: &Call, flies: bool, end: End) -> bool {
    let entry = commanded(
        rt,
        beside.alloc,
        &beside.options,
        call.who.client(),
        call.at,
        command_of(call),
        flies,
    );
    beside.possible.goes(rt, entry, end)
}

fn command_of(call: &Call) -> Command {
    match call.does {
        Does::Ready => Command::Rdy(i64::from(call.count)),
        Does::Finish => Command::Fin(call.id),
        Does::Touch => Command::Touch(call.id),
        _ => Command::Req(call.id, in_milliseconds(call.delay)),
    }
}

// Whether this may have come due: the copy was put back, or a fault kept it where it was.
fn moves(beside: &mut Beside, rt: &impl Abort, at: u64, answer: &Answer) -> bool {
    let id = answer.copy.id;
    match answer.came {
        Came::TimedOut => moves_first(beside, rt, at, id, true, End::Done),
        Came::CameDue => moves_first(beside, rt, at, id, false, End::Done),
        Came::Stays => {
            let flies = is_first(beside, at, id, true);
            beside.fails && moves_first(beside, rt, at, id, flies, End::Faulted(0))
        }
        Came::Nothing => none_due(beside, at),
        _ => false,
    }
}

// A copy of this id, in flight or deferred, was put back, or a fault kept it where it was; it was the next one due.
fn moves_first(
    beside: &mut Beside,
    rt: &impl Abort,
    at: u64,
    id: MsgId,
    flies: bool,
    end: End,
) -> bool {
    if !is_first(beside, at, id, flies) {
        return false;
    }
    let act = if flies {
        Act::TimedOut(beside.topic, beside.name, id)
    } else {
        Act::CameDue(beside.topic, beside.name, id)
    };
    beside.possible.goes(rt, entry(DAEMON, at, act), end)
}

// Whether a copy of this id, in flight or deferred, is the next one due in some state.
fn is_first(beside: &Beside, at: u64, id: MsgId, flies: bool) -> bool {
    for state in &beside.possible.states {
        if let Some(channel) = state.channel_at(&beside.topic, &beside.name) {
            if comes_first(&channel.copies, &id, flies, at) {
                return true;
            }
        }
    }
    false
}

// Whether no copy is due.
fn none_due(beside: &Beside, at: u64) -> bool {
    for state in &beside.possible.states {
        for topic in &state.topics {
            if any_due(at, &topic.channels) {
                return false;
            }
        }
    }
    true
}

// Whether a call that moves no single copy may be answered so.
fn was_done(beside: &mut Beside, rt: &impl Abort, call: &Call, came: Came) -> bool {
    let done = matches!(came, Came::Done);
    if !done && !matches!(came, Came::Fault) {
        return matches!(came, Came::NotDue);
    }
    match call.does {
        Does::Pause => done && beside.pauses(rt, call.at, call.on),
        Does::ComeAgain => done && comes_again(beside, rt, call.at),
        Does::Empty => beside.empties(rt, call.at, done),
        Does::Delete => deletes(beside, rt, call.at, done),
        _ if done => !beside.name.ephemeral(),
        _ => beside.may_fail(),
    }
}

// Whether the second client may go. One of its number subscribes then.
fn comes_again(beside: &mut Beside, rt: &impl Abort, at: u64) -> bool {
    let gone = entry(2, at, Act::Gone);
    let goes = beside.possible.goes(rt, gone, End::Done);
    for state in beside.possible.take() {
        let served = with_second(rt, beside.alloc, state, beside.topic, beside.name);
        keep_if(rt, &mut beside.possible.states, true, served);
    }
    goes
}

// Whether the channel may be deleted, or a fault may keep that from being done. Where it is done, it and its clients are there anew.
fn deletes(beside: &mut Beside, rt: &impl Abort, at: u64, done: bool) -> bool {
    let may = beside.deletes(rt, at, done);
    if may && done {
        starts(beside, rt, at);
    }
    may
}

/// The channel and its clients are there anew.
pub fn starts(beside: &mut Beside, rt: &impl Abort, at: u64) {
    let state = first_state(
        rt,
        beside.alloc,
        &beside.options,
        beside.topic,
        beside.name,
        at,
    );
    beside.possible.restart(rt, state);
}

/// Keeps the states in which what the channel tells is so. Whether there is one.
pub fn tells(beside: &mut Beside, rt: &impl Abort, channel: &Channel) -> bool {
    for state in beside.possible.take() {
        let told = is_channel(rt, beside.alloc, &state, beside.topic, channel);
        keep_if(rt, &mut beside.possible.states, told, state);
    }
    !beside.possible.states.is_empty()
}

// Whether a message that was offered at once is as it was then.
fn is_as_offered(message: Sight, id: MsgId) -> bool {
    message.stamp == 7
        && message.attempts == 0
        && message.id == id
        && message.delay == 0
        && message.letter == Some(b'm')
}

// The message that was drawn; without a letter where its body isn't one.
fn message_of(rt: &impl Abort, alloc: Global, sight: Sight) -> Message {
    let body = Body::copy(alloc, sight.letter.as_slice()).expect(rt, "memory");
    Message {
        stamp: sight.stamp,
        attempts: sight.attempts,
        id: sight.id,
        body,
        delay: sight.delay,
    }
}

// The state with a new channel and both clients.
fn first_state(
    rt: &impl Abort,
    alloc: Global,
    options: &Options,
    topic: Topic,
    name: Chan,
    at: u64,
) -> State {
    let state = topic_alone(rt, alloc, options, topic, &[name], at);
    with_clients(rt, alloc, state, topic, name)
}

// How many copies of this id aren't done with.
fn live(channel: &ChannelState, id: &MsgId) -> u64 {
    let mut count: u64 = 0;
    for copy in &channel.copies {
        if copy.place.is_live() && copy.is_of(id) {
            count = count.saturating_add(1);
        }
    }
    count
}

// In each state the topic takes this message, and owes it to the channel.
fn owe(rt: &impl Abort, alloc: Global, states: &mut [State], channel: Chan, message: &Message) {
    for state in states {
        for topic in &mut state.topics {
            owe_in(topic, Some(taken(rt, alloc, channel, message)));
        }
    }
}

// The topic has taken this message, or none, from now on.
fn owe_in(topic: &mut TopicState, taken: Option<TakenMessage>) {
    let_taken_go(std::mem::replace(&mut topic.taken, taken));
}

fn let_taken_go(_taken: Option<TakenMessage>) {}

fn taken(rt: &impl Abort, alloc: Global, channel: Chan, message: &Message) -> TakenMessage {
    let mut owed = Vec::new(alloc);
    owed.push(channel).expect(rt, "memory");
    TakenMessage {
        message: message.copy(alloc).expect(rt, "memory"),
        owed,
    }
}

// In each state the topic has taken none.
fn owe_none(states: &mut [State]) {
    for state in states {
        for topic in &mut state.topics {
            owe_in(topic, None);
        }
    }
}
