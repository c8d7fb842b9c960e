//! Entries as text, and whether they are those of a turn.

use crate::texts::{put, put_channels, put_id, put_message, put_number, put_sent, put_word, same};
use broker_history::{Act, Ask, Call, Entry};
use nsq_base::{Bodies, Body, Chan, Names, Topic};
use nsq_outside::End;
use std::process::Abort;
use v2_frame::{Command, Message};

// Which of an act's words is that of its entry, which is what the turn that notes it answers, as far as that is always the same, and which are the calls
// that it may be for.
const ENTRY: usize = 0;

const TOLD: usize = 1;

const CALLS: usize = 2;

// One of an act's words.
fn word_of(act: &Act, place: usize) -> &'static str {
    words_of(act).split('|').nth(place).unwrap_or("")
}

/// What the turn that notes an act answers, as far as that is always the same.
pub fn told_by(act: &Act) -> &'static str {
    word_of(act, TOLD)
}

fn words_of(act: &Act) -> &'static str {
    match act {
        Act::Began => "began|begun|begin",
        Act::Beat => "beat|sends _heartbeat_|next",
        Act::Idle => "idle|idle|next",
        Act::Silent => "silent|silent|next",
        Act::Dropped => "dropped|deleted|next command",
        Act::Gone => "gone|ended|gone",
        Act::Ticked => "ticked|quiet|tick",
        Act::Stop => "stop|stopping|stop",
        _ => other_words(act),
    }
}

fn other_words(act: &Act) -> &'static str {
    match act {
        Act::Did(_, _) => "did||command",
        Act::Refused(_, _) => "refused||bad",
        Act::Sent(_) => "sent|sends |next",
        Act::Asked(_, _) => "asked||ask",
        Act::Listed(_) => "listed||names",
        Act::Stuck(_, Some(_)) => "stuck|idle|next",
        _ => words_of_move(act),
    }
}

// The words of a move, or of the daemon's Stuck.
fn words_of_move(act: &Act) -> &'static str {
    match act {
        Act::Took(_, _, _) => "took||",
        Act::Copied(_, _, _) => "copied||",
        Act::TimedOut(_, _, _) => "timed-out||",
        Act::CameDue(_, _, _) => "came-due||",
        Act::HeldBack(_, _, _) => "held-back||",
        _ => "stuck||",
    }
}

/// Whether an act is a move, or the daemon's Stuck.
pub fn is_move(act: &Act) -> bool {
    word_of(act, CALLS).is_empty()
}

/// An act and how it ended. Of a command, of what is asked and of a fault neither what it says nor what is answered stands here.
pub fn put_entry(rt: &impl Abort, out: &mut Vec<u8>, act: &Act, end: End) {
    put(rt, out, word_of(act, ENTRY).as_bytes());
    put_parts(rt, out, act);
    match end {
        End::Done => {}
        End::Faulted(count) => {
            put(rt, out, b", faulted ");
            put_number(rt, out, u128::from(count));
        }
        End::Skip => put(rt, out, b", skipped"),
    }
}

fn put_parts(rt: &impl Abort, out: &mut Vec<u8>, act: &Act) {
    match act {
        Act::Sent(message) => {
            put(rt, out, b" ");
            put_sent(rt, out, message);
        }
        Act::Took(topic, message, names) => put_took(rt, out, topic, message, names),
        Act::Copied(topic, channel, message) => {
            put_place(rt, out, topic, channel);
            put_message(rt, out, message);
        }
        Act::TimedOut(topic, channel, id)
        | Act::CameDue(topic, channel, id)
        | Act::HeldBack(topic, channel, id) => {
            put_place(rt, out, topic, channel);
            put_id(rt, out, id);
        }
        Act::Stuck(topic, channel) => {
            put_word(rt, out, topic.bytes());
            put_channels(rt, out, channel.as_slice());
        }
        _ => {}
    }
}

fn put_took(rt: &impl Abort, out: &mut Vec<u8>, topic: &Topic, message: &Message, names: &Names) {
    put_word(rt, out, topic.bytes());
    put(rt, out, b" ");
    put_message(rt, out, message);
    put(rt, out, b" for");
    if names.count() != 1 || !same(names.topic(0).bytes(), topic.bytes()) {
        return put(rt, out, b" others");
    }
    put_channels(rt, out, names.channels(0));
}

// A topic and a channel of it.
fn put_place(rt: &impl Abort, out: &mut Vec<u8>, topic: &Topic, channel: &Chan) {
    put_word(rt, out, topic.bytes());
    put_word(rt, out, channel.bytes());
    put(rt, out, b" ");
}

/// Whether an entry may be one of a turn of this number and call: a move or a tick is the daemon's.
pub fn is_of(entry: &Entry, number: u64, call: &Call) -> bool {
    match entry.act {
        Act::Ticked => entry.conn == 0 && is_for(&entry.act, call),
        _ if is_move(&entry.act) => entry.conn == 0,
        _ => entry.conn == number && is_for(&entry.act, call),
    }
}

// Whether an act is for a call.
fn is_for(act: &Act, call: &Call) -> bool {
    match (act, call) {
        (Act::Did(did, _), Call::Command(command)) => is_command(did, command),
        (Act::Refused(fault, _), Call::Bad(bad)) => fault == bad,
        (Act::Asked(asked, _), Call::Ask(ask)) => is_ask(asked, ask),
        _ => word_of(act, CALLS).contains(call_word(call)),
    }
}

fn call_word(call: &Call) -> &'static str {
    match call {
        Call::Begin => "begin",
        Call::Command(_) => "command",
        Call::Bad(_) => "bad",
        Call::Next => "next",
        Call::Gone => "gone",
        Call::Ask(_) => "ask",
        Call::Names => "names",
        Call::Tick => "tick",
        Call::Stop => "stop",
    }
}

fn is_command(a: &Command, b: &Command) -> bool {
    match (a, b) {
        (Command::Identify(a), Command::Identify(b)) => is_body(a, b),
        (Command::Sub(a, c), Command::Sub(b, d)) => a == b && c == d,
        (Command::Pub(a, c), Command::Pub(b, d)) => a == b && is_body(c, d),
        (Command::Mpub(a, c), Command::Mpub(b, d)) => a == b && are_bodies(c, d),
        (Command::Dpub(a, c, e), Command::Dpub(b, d, f)) => a == b && c == d && is_body(e, f),
        _ => is_short_command(a, b),
    }
}

fn is_short_command(a: &Command, b: &Command) -> bool {
    match (a, b) {
        (Command::Rdy(a), Command::Rdy(b)) => a == b,
        (Command::Fin(a), Command::Fin(b)) | (Command::Touch(a), Command::Touch(b)) => a == b,
        (Command::Req(a, c), Command::Req(b, d)) => a == b && c == d,
        (Command::Cls, Command::Cls) | (Command::Nop, Command::Nop) => true,
        _ => false,
    }
}

fn is_body(a: &Body, b: &Body) -> bool {
    same(a.bytes(), b.bytes())
}

fn are_bodies(a: &Bodies, b: &Bodies) -> bool {
    let mut all = a.count() == b.count();
    for (a, b) in a.as_slice().iter().zip(b.as_slice()) {
        all &= is_body(a, b);
    }
    all
}

fn is_ask(a: &Ask, b: &Ask) -> bool {
    match (a, b) {
        (Ask::Publish(a, c, e), Ask::Publish(b, d, f)) => a == b && c == d && are_bodies(e, f),
        (Ask::Stats(a, c), Ask::Stats(b, d)) => a == b && c == d,
        (Ask::Create(a, c), Ask::Create(b, d))
        | (Ask::Delete(a, c), Ask::Delete(b, d))
        | (Ask::Empty(a, c), Ask::Empty(b, d))
        | (Ask::Pause(a, c), Ask::Pause(b, d))
        | (Ask::Unpause(a, c), Ask::Unpause(b, d)) => a == b && c == d,
        _ => false,
    }
}
