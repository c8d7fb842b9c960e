//! The lines in which stories are told, and the entries that they make.
//!
//! A story is a text of items with a `;` between them: a moment, the number of a connection, what happens, and where that is answered the
//! answer behind `=>`. A moment is in nanoseconds, `5s` in seconds, and `5s-1` one nanosecond before. All messages are published at the moment 0.
//! Delays of commands are in milliseconds, others are moments.

use crate::commands::{ask_of, body, command_of, id, kind_of, nth, said_of};
use crate::made::{channel, copy, cut, halves, is, moment, number, put, topic, unknown, words};
use crate::stats::stats;
use broker_history::{Act, Ask, Entry, Said};
use nsq_base::{Chan, Names, Topic};
use nsq_outside::End;
use std::alloc::Global;
use std::process::Abort;
use v2_frame::{Fault, FaultKind, Frame, Message};

/// The words of what is asked over HTTP.
static ASKED: [&'static str; 6] = ["publish", "create", "delete", "empty", "pause", "unpause"];

/// The features, as a client that negotiates is told them.
const FEATURES: &str =
    r#"{"auth_required":false,"deflate":false,"deflate_level":0,"max_deflate_level":0,"max_msg_timeout":900000,"max_rdy_count":2500,"msg_timeout":60000,"sample_rate":0,"snappy":false,"tls_v1":false,"version":"1.0.0"}"#;

// The same of how often a message was sent.
fn attempts(rt: &impl Abort, word: &str) -> u16 {
    word.parse::<u16>().expect(rt, "a number")
}

/// Adds the entries that the items of a story make.
pub fn tell(rt: &impl Abort, alloc: Global, entries: &mut Vec<(Entry, End)>, story: &str) {
    for item in story.split(';') {
        let item = item.trim();
        if !item.is_empty() {
            tell_item(rt, alloc, entries, item);
        }
    }
}

fn tell_item(rt: &impl Abort, alloc: Global, entries: &mut Vec<(Entry, End)>, item: &str) {
    let (at, rest) = cut(item);
    let at = moment(rt, at);
    let (conn, what) = cut(rest);
    let conn = number(rt, conn);
    let (word, rest) = cut(what);
    match word {
        "moved" => tell_moves(rt, alloc, entries, at, words(rest)),
        "beats" => {
            for _ in 0..number(rt, rest) {
                let act = Act::Beat;
                put(rt, entries, (Entry { conn, at, act }, End::Done));
            }
        }
        "faulted" => {
            let (count, what) = cut(rest);
            let end = End::Faulted(number(rt, count));
            let act = act_of(rt, alloc, what);
            put(rt, entries, (Entry { conn, at, act }, end));
        }
        _ => {
            let act = act_of(rt, alloc, what);
            put(rt, entries, (Entry { conn, at, act }, End::Done));
        }
    }
}

// So many messages from the n-th on are taken by a topic with one channel and copied to that, one after another.
fn tell_moves(
    rt: &impl Abort,
    alloc: Global,
    entries: &mut Vec<(Entry, End)>,
    at: u64,
    words: [&str; 4],
) {
    let [name, to, first, count] = words;
    let first = nth(rt, first);
    for i in 0..number(rt, count) {
        let n = first.saturating_add(i);
        let act = took(rt, alloc, name, n, 0, to);
        put(rt, entries, (Entry { conn: 0, at, act }, End::Done));
        let act = copied(rt, alloc, name, to, n, 0);
        put(rt, entries, (Entry { conn: 0, at, act }, End::Done));
    }
}

fn act_of(rt: &impl Abort, alloc: Global, what: &str) -> Act {
    match what {
        "began" => Act::Began,
        "beat" => Act::Beat,
        "idle" => Act::Idle,
        "silent" => Act::Silent,
        "dropped" => Act::Dropped,
        "gone" => Act::Gone,
        "ticked" => Act::Ticked,
        "stop" => Act::Stop,
        _ => other_act(rt, alloc, what),
    }
}

// The same of what names messages or topics.
fn other_act(rt: &impl Abort, alloc: Global, what: &str) -> Act {
    let (word, rest) = cut(what);
    let [name, of, n, delay] = words(rest);
    match word {
        "sent" => Act::Sent(message(rt, alloc, nth(rt, name), attempts(rt, of), 0)),
        "told" => Act::Asked(Ask::Stats(None, None), Said::Stats(stats(rt, alloc, rest))),
        "listed" => Act::Listed(names_of(rt, alloc, name, behind(rest, 1))),
        "took" => {
            let delay = moment(rt, n);
            took(rt, alloc, name, nth(rt, of), delay, behind(rest, 3))
        }
        "copied" => copied(rt, alloc, name, of, nth(rt, n), moment(rt, delay)),
        _ => copy_act(rt, alloc, what),
    }
}

// The same of a copy of a channel, and of what a fault kept off.
fn copy_act(rt: &impl Abort, alloc: Global, what: &str) -> Act {
    let (word, rest) = cut(what);
    let [name, of, n, _] = words(rest);
    match word {
        "timed-out" => Act::TimedOut(topic(rt, name), channel(rt, of), id(nth(rt, n))),
        "came-due" => Act::CameDue(topic(rt, name), channel(rt, of), id(nth(rt, n))),
        "held-back" => Act::HeldBack(topic(rt, name), channel(rt, of), id(nth(rt, n))),
        "stuck" => Act::Stuck(topic(rt, name), Chan::read(of.as_bytes())),
        _ => answered(rt, alloc, what),
    }
}

// What stands behind so many words.
fn behind(text: &str, count: usize) -> &str {
    let mut rest = text;
    for _ in 0..count {
        rest = cut(rest).1;
    }
    rest
}

// A command, or what is asked over HTTP, with its answer.
fn answered(rt: &impl Abort, alloc: Global, what: &str) -> Act {
    let (what, answer) = halves(what, " => ");
    let (word, rest) = cut(what);
    if is_asked(word) {
        return Act::Asked(ask_of(rt, alloc, word, words(rest)), said_of(rt, answer));
    }
    match word {
        "refused" => {
            let (kind, at) = cut(rest);
            Act::Refused(fault_of(rt, kind, at), frame(rt, alloc, answer))
        }
        _ => {
            let reply = reply_of(rt, alloc, answer);
            Act::Did(command_of(rt, alloc, word, rest), reply)
        }
    }
}

// Whether this is the word of what is asked over HTTP.
fn is_asked(word: &str) -> bool {
    for asked in &ASKED {
        if is(word, asked) {
            return true;
        }
    }
    false
}

// A fault of a client's bytes of this kind, at this place.
fn fault_of(rt: &impl Abort, kind: &str, at: &str) -> Fault {
    let kind = match kind {
        "BadMagic" => FaultKind::BadMagic,
        "BadWord" => FaultKind::BadWord,
        _ => unknown(rt, kind),
    };
    Fault {
        kind,
        at: number(rt, at),
    }
}

// What a command is answered: nothing where the text is empty.
fn reply_of(rt: &impl Abort, alloc: Global, answer: &str) -> Option<Frame> {
    if answer.is_empty() {
        None
    } else {
        Some(frame(rt, alloc, answer))
    }
}

// A frame of this text, which is an error's where it begins so.
fn frame(rt: &impl Abort, alloc: Global, answer: &str) -> Frame {
    let text = if is(answer, "FEATURES") {
        FEATURES
    } else {
        answer
    };
    Frame {
        kind: kind_of(answer),
        body: copy(rt, alloc, text.as_bytes()),
    }
}

fn took(rt: &impl Abort, alloc: Global, name: &str, n: u64, delay: u64, channels: &str) -> Act {
    let names = names_of(rt, alloc, name, channels);
    Act::Took(topic(rt, name), message(rt, alloc, n, 0, delay), names)
}

fn copied(rt: &impl Abort, alloc: Global, name: &str, to: &str, n: u64, delay: u64) -> Act {
    let message = message(rt, alloc, n, 0, delay);
    Act::Copied(topic(rt, name), channel(rt, to), message)
}

// A topic with these channels; nothing where its name is empty.
fn names_of(rt: &impl Abort, alloc: Global, name: &str, channels: &str) -> Names {
    let mut names = Names::new(alloc);
    if !name.is_empty() {
        add_names(rt, &mut names, topic(rt, name), channels);
    }
    names
}

fn add_names(rt: &impl Abort, names: &mut Names, name: Topic, channels: &str) {
    names.add(name).expect(rt, "memory");
    for of in channels.split(' ') {
        if !of.is_empty() {
            names
                .add_channel(name, channel(rt, of))
                .expect(rt, "memory");
        }
    }
}

/// The n-th message.
pub fn message(rt: &impl Abort, alloc: Global, n: u64, attempts: u16, delay: u64) -> Message {
    Message {
        stamp: 0,
        attempts,
        id: id(n),
        body: body(rt, alloc, n),
        delay,
    }
}
