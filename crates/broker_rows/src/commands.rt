//! What clients send and what is asked over HTTP, as words.
//!
//! A message is named by its number among those of its run: those of a second run begin with 1000. Its body is a letter of that number. Delays of
//! commands are in milliseconds.

use crate::made::{channel, copy, is, moment, number, put, topic, unknown, words};
use broker_history::{Ask, Said};
use broker_state::Phase;
use nsq_base::{Bodies, Body, Chan, MsgId};
use std::alloc::Global;
use std::process::Abort;
use v2_frame::{Command, FrameKind};

/// A command: its word, and what stands behind that.
pub fn command_of(rt: &impl Abort, alloc: Global, word: &str, rest: &str) -> Command {
    let [name, of, n, _] = words(rest);
    match word {
        "identify" => Command::Identify(copy(rt, alloc, identity(rest))),
        "sub" => Command::Sub(topic(rt, name), channel(rt, of)),
        "pub" => Command::Pub(topic(rt, name), body(rt, alloc, nth(rt, of))),
        "mpub" => Command::Mpub(
            topic(rt, name),
            bodies(rt, alloc, nth(rt, of), number(rt, n)),
        ),
        "dpub" => Command::Dpub(topic(rt, name), signed(rt, of), body(rt, alloc, nth(rt, n))),
        _ => short_command_of(rt, word, name, of),
    }
}

// The same of one that has no body and names no topic.
fn short_command_of(rt: &impl Abort, word: &str, name: &str, of: &str) -> Command {
    match word {
        "rdy" => Command::Rdy(signed(rt, name)),
        "fin" => Command::Fin(id(nth(rt, name))),
        "req" => Command::Req(id(nth(rt, name)), signed(rt, of)),
        "touch" => Command::Touch(id(nth(rt, name))),
        "cls" => Command::Cls,
        "nop" => Command::Nop,
        _ => unknown(rt, word),
    }
}

// What an IDENTIFY says.
fn identity(text: &str) -> &[u8] {
    if is(text, "NOT_UTF8") {
        b"{\"client_id\":\"\xff\"}"
    } else {
        text.as_bytes()
    }
}

// The number that a word says, which may be below 0.
fn signed(rt: &impl Abort, word: &str) -> i64 {
    word.parse::<i64>().expect(rt, "a number")
}

/// What is asked: its word, and the topic with the channel behind that; or of a publish the topic, the moment, the first message, and how many these
/// are, where they are more than one.
pub fn ask_of(rt: &impl Abort, alloc: Global, word: &str, words: [&str; 4]) -> Ask {
    let [name, of, first, count] = words;
    let channel = Chan::read(of.as_bytes());
    let topic = topic(rt, name);
    match word {
        "publish" => Ask::Publish(topic, moment(rt, of), published(rt, alloc, first, count)),
        "create" => Ask::Create(topic, channel),
        "delete" => Ask::Delete(topic, channel),
        "empty" => Ask::Empty(topic, channel),
        "pause" => Ask::Pause(topic, channel),
        "unpause" => Ask::Unpause(topic, channel),
        _ => unknown(rt, word),
    }
}

fn published(rt: &impl Abort, alloc: Global, first: &str, count: &str) -> Bodies {
    let count = if count.is_empty() {
        1
    } else {
        number(rt, count)
    };
    bodies(rt, alloc, nth(rt, first), count)
}

/// What is said to it.
pub fn said_of(rt: &impl Abort, answer: &str) -> Said {
    match answer {
        "done" => Said::Done,
        "no topic" => Said::NoTopic,
        "no channel" => Said::NoChannel,
        "ids" => Said::Ids,
        "disk" => Said::Disk,
        _ => unknown(rt, answer),
    }
}

/// A client's phase.
pub fn phase_of(rt: &impl Abort, word: &str) -> Phase {
    match word {
        "Fresh" => Phase::Fresh,
        "Subscribed" => Phase::Subscribed,
        "Closing" => Phase::Closing,
        "Lost" => Phase::Lost,
        _ => unknown(rt, word),
    }
}

/// An error where an answer begins so.
pub fn kind_of(answer: &str) -> FrameKind {
    if answer.starts_with("E_") {
        FrameKind::Error
    } else {
        FrameKind::Response
    }
}

/// A message's number. Those of 2000 and of 3000 on are the first one of the first and of the second run, with another letter.
pub fn nth(rt: &impl Abort, word: &str) -> u64 {
    match word {
        "x" => 2_025,
        "late" => 2_005,
        "new" => 3_019,
        _ => number(rt, word),
    }
}

/// The n-th message's id.
pub fn id(n: u64) -> MsgId {
    let place = n % 1_000;
    match n / 1_000 {
        0 => MsgId::make(1, place),
        1 => MsgId::make(2, place),
        2 => MsgId::make(1, 0),
        _ => MsgId::make(2, 0),
    }
}

/// The n-th message's body.
pub fn body(rt: &impl Abort, alloc: Global, n: u64) -> Body {
    let letter = b'a' + (n % 26) as u8;
    copy(rt, alloc, &[letter])
}

fn bodies(rt: &impl Abort, alloc: Global, first: u64, count: u64) -> Bodies {
    let mut bodies = Vec::new(alloc);
    for i in 0..count {
        put(rt, &mut bodies, body(rt, alloc, first.saturating_add(i)));
    }
    Bodies::of(bodies)
}
