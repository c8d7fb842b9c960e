//! The plain program beside a topic's queue: whether what a call answered may be, and what is possible afterwards. What the topic's channels
//! got is forgotten at once.

use crate::broker::beside::Beside;
use crate::broker::entries::{DAEMON, entry};
use crate::broker::possible::{Possible, keep_if};
use crate::broker::starting::topic_alone;
use crate::broker::told::is_topic;
use broker_changes::topics::takes;
use broker_history::{Act, Ask};
use broker_state::{MessageCopy, State, TopicState};
use nsq_base::{Bodies, Body, Chan, Names, Options, Topic};
use nsq_outside::End;
use std::alloc::Global;
use std::process::Abort;
use topic_core::{Head, TopicQueue};
use v2_frame::Message;

/// Beside a new topic with two channels.
pub fn beside(
    rt: &impl Abort,
    alloc: Global,
    options: &Options,
    topic: Topic,
    fails: bool,
) -> Beside {
    let channels = [lettered(rt, b'a'), lettered(rt, b'b')];
    let state = topic_alone(rt, alloc, options, topic, &channels, 0);
    Beside {
        alloc,
        options: options.copy(alloc).expect(rt, "memory"),
        topic,
        name: Chan::read(b"none").expect(rt, "a channel"),
        of: None,
        fails,
        possible: Possible::only(rt, alloc, state),
    }
}

// The topic in the first possible state.
fn first(beside: &Beside) -> Option<&TopicState> {
    beside.possible.states.first()?.topic_of(&beside.topic)
}

/// The run's epoch, and how many ids were used.
pub fn ids(beside: &Beside) -> (u32, u64) {
    match beside.possible.states.first() {
        Some(state) => (state.epoch, state.ids_used),
        None => (1, 0),
    }
}

/// The channels for which a message may be taken, if one waits.
pub fn channels(beside: &Beside, rt: &impl Abort) -> Option<Vec<Chan>> {
    match first(beside) {
        Some(topic) if !topic.paused && topic.taken.is_none() => {
            Some(names_of(rt, beside.alloc, topic))
        }
        _ => None,
    }
}

// The topic with its channels, as they are listed.
fn names(beside: &Beside, rt: &impl Abort) -> Names {
    match first(beside) {
        Some(topic) => listed(rt, beside.alloc, topic),
        None => Names::new(beside.alloc),
    }
}

// Whether there is nothing to be taken.
fn has_none(beside: &Beside) -> bool {
    match first(beside) {
        Some(topic) => !takes(topic),
        None => false,
    }
}

/// Whether the topic has this channel, and isn't an ephemeral one that would go with it.
pub fn may_lose(beside: &Beside, channel: Chan) -> bool {
    match first(beside) {
        Some(topic) => {
            topic.channel_of(&channel).is_some()
                && (!topic.name.ephemeral() || topic.channels.len() > 1)
        }
        None => false,
    }
}

/// Whether the bodies of so many messages may be published, or a fault may keep them off.
pub fn publishes(
    beside: &mut Beside,
    rt: &impl Abort,
    at: u64,
    delay: u64,
    count: u64,
    done: bool,
) -> bool {
    let (_, used) = ids(beside);
    let bodies = bodies_of(rt, beside.alloc, used, count);
    beside.asks(rt, at, Ask::Publish(beside.topic, delay, bodies), done)
}

/// Whether this may have been answered where a message was to be taken; it was taken, or drawn and put back.
pub fn took(
    beside: &mut Beside,
    rt: &impl Abort,
    at: u64,
    answer: Head,
    told: Option<Message>,
    settles: bool,
) -> bool {
    match told {
        Some(message) => {
            has_taken(beside, rt, at, message, settles) && matches!(answer, Head::Ready)
        }
        None => took_none(beside, rt, at, answer),
    }
}

// The same where no message was drawn.
fn took_none(beside: &mut Beside, rt: &impl Abort, at: u64, answer: Head) -> bool {
    match answer {
        Head::Empty => has_none(beside),
        Head::Fault => beside.may_fail() && is_stuck(beside, rt, at),
        Head::Memory => panic!(rt; "memory"),
        Head::Ready | Head::Damaged => false,
    }
}

// Whether a message could have been taken, had a fault not kept it off.
fn is_stuck(beside: &mut Beside, rt: &impl Abort, at: u64) -> bool {
    let stuck = entry(DAEMON, at, Act::Stuck(beside.topic, None));
    beside.possible.may(rt, stuck, End::Faulted(0))
}

// The message was taken, or drawn and put back.
fn has_taken(
    beside: &mut Beside,
    rt: &impl Abort,
    at: u64,
    message: Message,
    settles: bool,
) -> bool {
    let took = entry(
        DAEMON,
        at,
        Act::Took(beside.topic, message, names(beside, rt)),
    );
    if settles {
        beside.possible.goes(rt, took, End::Done)
    } else {
        beside.possible.may(rt, took, End::Done)
    }
}

/// Whether the channel may get its copy of this message.
pub fn pays(
    beside: &mut Beside,
    rt: &impl Abort,
    at: u64,
    channel: Chan,
    message: Message,
) -> bool {
    let copied = entry(DAEMON, at, Act::Copied(beside.topic, channel, message));
    let goes = beside.possible.goes(rt, copied, End::Done);
    forget_copies(beside.alloc, &mut beside.possible.states);
    goes
}

/// Whether the channel may be deleted, or made where it isn't one that may be lost.
pub fn changes(beside: &mut Beside, rt: &impl Abort, at: u64, channel: Chan, loses: bool) -> bool {
    let ask = if loses {
        Ask::Delete(beside.topic, Some(channel))
    } else {
        Ask::Create(beside.topic, Some(channel))
    };
    beside.asks(rt, at, ask, true)
}

/// Whether the topic may be deleted, or a fault may keep that from being done. Where it is done, it is there anew, with two channels.
pub fn deletes(beside: &mut Beside, rt: &impl Abort, at: u64, done: bool) -> bool {
    let goes = beside.deletes(rt, at, done);
    goes && (!done || (makes(beside, rt, at, b'a') && makes(beside, rt, at, b'b')))
}

// Whether the topic may be made, and the channel of this letter.
fn makes(beside: &mut Beside, rt: &impl Abort, at: u64, letter: u8) -> bool {
    let made = beside.asks(rt, at, Ask::Create(beside.topic, None), true);
    made && changes(beside, rt, at, lettered(rt, letter), false)
}

/// Keeps the state, where what the topic tells is so.
pub fn tells(beside: &mut Beside, rt: &impl Abort, topic: &TopicQueue) -> bool {
    for state in beside.possible.take() {
        let told = is_topic(rt, beside.alloc, &state, topic, beside.name);
        keep_if(rt, &mut beside.possible.states, told, state);
    }
    !beside.possible.states.is_empty()
}

/// The channel of this letter.
pub fn lettered(rt: &impl Abort, letter: u8) -> Chan {
    Chan::read(&[letter]).expect(rt, "a channel")
}

// The bodies of so many messages behind this number: each is its number.
fn bodies_of(rt: &impl Abort, alloc: Global, used: u64, count: u64) -> Bodies {
    let mut bodies = Bodies::new(alloc);
    for i in 0..count {
        let number = used.wrapping_add(i);
        let body = Body::copy(alloc, &number.to_be_bytes()).expect(rt, "memory");
        bodies.push(body).expect(rt, "memory");
    }
    bodies
}

// The names of the topic's channels.
fn names_of(rt: &impl Abort, alloc: Global, topic: &TopicState) -> Vec<Chan> {
    let mut names = Vec::new(alloc);
    for channel in &topic.channels {
        names.push(channel.name).expect(rt, "memory");
    }
    names
}

// The topic with its channels, as they are listed.
fn listed(rt: &impl Abort, alloc: Global, topic: &TopicState) -> Names {
    let mut names = Names::new(alloc);
    names.add(topic.name).expect(rt, "memory");
    for channel in &topic.channels {
        names
            .add_channel(topic.name, channel.name)
            .expect(rt, "memory");
    }
    names
}

fn let_copies_go(_copies: Vec<MessageCopy>) {}

// What the channels got is forgotten.
fn forget_copies(alloc: Global, states: &mut [State]) {
    for state in states {
        for topic in &mut state.topics {
            for channel in &mut topic.channels {
                let_copies_go(std::mem::replace(&mut channel.copies, Vec::new(alloc)));
            }
        }
    }
}
