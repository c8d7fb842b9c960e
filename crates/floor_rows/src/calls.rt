//! Calls as text. What a client sends is its command's line with its bodies behind it, all parted by spaces; an id may be an i and the last digit
//! of one of the first sixteen of the first run.

ghost use Rattle.std.specs.Prelude.{◌≡◌, ◌∷◌, [], IfSome};
ghost use Rattle.broker_history.specs.Calls.{CanAsk, CanCall};

use crate::texts::{FIRST_IDS, count_of, parted, put, put_word};
use broker_history::{Ask, Call};
use nsq_base::{Bodies, Body, Chan, Topic};
use std::alloc::Global;
use std::process::Abort;
use v2_frame::{Fault, FaultKind, Got, Limits, Reader};

const LIMITS: Limits = Limits {
    msg: 1_048_576,
    body: 5_242_880,
};

// The longest delay that any options allow.
const LONGEST: u64 = 31_536_000_000_000_000;

/// The call of this text; none where it is no call.
pub fn call_of(rt: &impl Abort, alloc: Global, text: &str) -> Option<Call>
    ensures { IfSome result CanCall }
{
    let (word, rest) = parted(text);
    match word {
        "begin" => Some(Call::Begin),
        "next" => Some(Call::Next),
        "gone" => Some(Call::Gone),
        "names" => Some(Call::Names),
        "tick" => Some(Call::Tick),
        "stop" => Some(Call::Stop),
        "bad" => bad(rest),
        "publish" => published(rt, alloc, rest),
        _ => asked_or_sent(rt, alloc, text),
    }
}

// A fault of the first byte.
fn bad(what: &str) -> Option<Call>
    ensures { IfSome result CanCall }
{
    let kind = match what {
        "magic" => FaultKind::BadMagic,
        "length" => FaultKind::LineTooLong,
        "word" => FaultKind::BadWord,
        "topic" => FaultKind::BadTopic,
        "channel" => FaultKind::BadChannel,
        "size" => FaultKind::BadSize,
        "body" => FaultKind::BadBody,
        _ => return None,
    };
    Some(Call::Bad(Fault { kind, at: 0 }))
}

// What is asked of a topic or a channel, or what a client sends.
fn asked_or_sent(rt: &impl Abort, alloc: Global, text: &str) -> Option<Call>
    ensures { IfSome result CanCall }
{
    let (word, rest) = parted(text);
    let (topic, channel) = parted(rest);
    let channel = Chan::read(channel.as_bytes());
    match (word, Topic::read(topic.as_bytes())) {
        ("stats", topic) => Some(Call::Ask(Ask::Stats(topic, channel))),
        ("create", Some(topic)) => Some(Call::Ask(Ask::Create(topic, channel))),
        ("delete", Some(topic)) => Some(Call::Ask(Ask::Delete(topic, channel))),
        ("empty", Some(topic)) => Some(Call::Ask(Ask::Empty(topic, channel))),
        ("pause", Some(topic)) => Some(Call::Ask(Ask::Pause(topic, channel))),
        ("unpause", Some(topic)) => Some(Call::Ask(Ask::Unpause(topic, channel))),
        _ => sent(rt, alloc, text),
    }
}

// A publish of one message: its topic, its delay in nanoseconds and its body.
fn published(rt: &impl Abort, alloc: Global, text: &str) -> Option<Call>
    ensures { IfSome result CanCall }
{
    let (topic, rest) = parted(text);
    let (delay, body) = parted(rest);
    let (Some(topic), Ok(delay)) = (Topic::read(topic.as_bytes()), delay.parse::<u64>()) else {
        return None;
    };
    if delay > LONGEST || body.len() > 100 {
        return None;
    }
    let bodies = one_body(rt, alloc, body);
    Some(Call::Ask(Ask::Publish(topic, delay, bodies)))
}

fn one_body(rt: &impl Abort, alloc: Global, body: &str) -> Bodies
    ensures { result ≡ body.now ∷ [] }
{
    let mut bodies = Bodies::new(alloc);
    let body = Body::copy(alloc, body.as_bytes()).expect(rt, "memory");
    bodies.push(body).expect(rt, "memory");
    bodies
}

// What a client sends.
fn sent(rt: &impl Abort, alloc: Global, text: &str) -> Option<Call>
    ensures { IfSome result CanCall }
{
    let mut bytes = Vec::new(alloc);
    put(rt, &mut bytes, b"  V2");
    put_command(rt, &mut bytes, text);
    read(rt, alloc, &bytes)
}

// Takes a reader apart.
fn let_reader_go(_reader: Reader) {}

/// Takes a call apart.
pub fn let_call_go(_call: Call) {}

// The call of a client's bytes from its first one on.
fn read(rt: &impl Abort, alloc: Global, bytes: &[u8]) -> Option<Call>
    ensures { IfSome result CanCall }
{
    let mut reader = Reader::new(alloc, LIMITS).expect(rt, "memory");
    reader.feed(bytes).expect(rt, "memory");
    let got = reader.next();
    let_reader_go(reader);
    match got {
        Got::Whole(command) => Some(Call::Command(command)),
        Got::Fault(fault) => Some(Call::Bad(fault)),
        Got::More => None,
        Got::Memory => panic!(rt; "memory"),
    }
}

fn put_command(rt: &impl Abort, bytes: &mut Vec<u8>, text: &str) {
    let (word, _) = parted(text);
    match word {
        "IDENTIFY" => put_with_body(rt, bytes, text, 1),
        "PUB" => put_with_body(rt, bytes, text, 2),
        "DPUB" => put_with_body(rt, bytes, text, 3),
        "MPUB" => put_list(rt, bytes, text),
        "FIN" | "REQ" | "TOUCH" => put_of_id(rt, bytes, text),
        _ => {
            put(rt, bytes, text.as_bytes());
            put(rt, bytes, b"\n");
        }
    }
}

// A line of so many words, and what stands behind them as a body with its size.
fn put_with_body(rt: &impl Abort, bytes: &mut Vec<u8>, text: &str, words: usize) {
    let body = put_words(rt, bytes, text, words);
    put_sized(rt, bytes, body);
}

// A line of so many words. What stands behind them in the text.
fn put_words<'a>(rt: &impl Abort, bytes: &mut Vec<u8>, text: &'a str, words: usize) -> &'a str {
    let (word, mut rest) = parted(text);
    put(rt, bytes, word.as_bytes());
    for _ in 1..words {
        let (word, behind) = parted(rest);
        put_word(rt, bytes, word.as_bytes());
        rest = behind;
    }
    put(rt, bytes, b"\n");
    rest
}

// A size, and a body of so many bytes.
fn put_sized(rt: &impl Abort, bytes: &mut Vec<u8>, body: &str) {
    put_size(rt, bytes, body.len());
    put(rt, bytes, body.as_bytes());
}

fn put_size(rt: &impl Abort, bytes: &mut Vec<u8>, size: usize) {
    let size = u32::try_from(size).unwrap_or(0);
    put(rt, bytes, &size.to_be_bytes());
}

// A line that names a message.
fn put_of_id(rt: &impl Abort, bytes: &mut Vec<u8>, text: &str) {
    match text.split_once(" i") {
        Some((word, digit)) => {
            put(rt, bytes, word.as_bytes());
            put_word(rt, bytes, FIRST_IDS);
            put(rt, bytes, digit.as_bytes());
        }
        None => put(rt, bytes, text.as_bytes()),
    }
    put(rt, bytes, b"\n");
}

// The size of a list of messages, their count, and each with its size.
fn put_list(rt: &impl Abort, bytes: &mut Vec<u8>, text: &str) {
    let list = put_words(rt, bytes, text, 2);
    let count = count_of(list, " ");
    // The count has four bytes, and so has each size; a space stands between two bodies of the text alone.
    let spaces = count.saturating_sub(1);
    let sizes = count.saturating_mul(4);
    let size = list.len().saturating_sub(spaces).saturating_add(sizes);
    put_size(rt, bytes, size.saturating_add(4));
    put_size(rt, bytes, count);
    for body in list.split(" ") {
        put_sized(rt, bytes, body);
    }
}
