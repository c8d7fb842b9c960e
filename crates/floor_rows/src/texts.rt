//! Texts of small things, as transcripts have them.

use itoa::Buffer;
use nsq_base::{Chan, MsgId, Names};
use std::alloc::Global;
use std::process::Abort;
use v2_frame::Message;

const SECOND: u64 = 1_000_000_000;

/// The ids of the first sixteen messages of the first run begin so.
pub const FIRST_IDS: &[u8] = b"000001000000000";

pub fn put(rt: &impl Abort, out: &mut Vec<u8>, text: &[u8]) {
    out.extend_from_slice(text).expect(rt, "memory");
}

pub fn same(one: &[u8], other: &[u8]) -> bool {
    one == other
}

/// Ends the run where something differs in the row of this name.
pub fn check(rt: &impl Abort, alloc: Global, name: &str, differs: &[u8]) {
    let text = String::from_utf8_lossy(alloc, differs).expect(rt, "memory");
    assert!(rt; differs.is_empty(), "{name}\n  {text}");
}

/// The parts of a text before and behind a mark; nothing behind it where it doesn't stand there.
pub fn halves<'a>(text: &'a str, mark: &str) -> (&'a str, &'a str) {
    match text.split_once(mark) {
        Some(parts) => parts,
        None => (text, ""),
    }
}

/// The first word of a text, and what stands behind it.
pub fn parted(text: &str) -> (&str, &str) {
    halves(text, " ")
}

/// How many parts a text has between such marks.
pub fn count_of(text: &str, mark: &str) -> usize {
    let mut count: usize = 0;
    for _ in text.split(mark) {
        count = count.saturating_add(1);
    }
    count
}

/// The number that a word says.
pub fn number(rt: &impl Abort, word: &str) -> u64 {
    word.parse::<u64>().expect(rt, "a number")
}

/// The moment that a word says: nanoseconds or, with an s behind them, seconds.
pub fn moment(rt: &impl Abort, word: &str) -> u64 {
    match word.strip_suffix("s") {
        Some(seconds) => number(rt, seconds).saturating_mul(SECOND),
        None => number(rt, word),
    }
}

/// The bytes that a text stands for: behind a backslash stand an n for the end of a line, a 0 for the byte 0, or another byte's number and a point.
pub fn put_bytes(rt: &impl Abort, out: &mut Vec<u8>, text: &str) {
    let mut is_escape = false;
    for part in text.split("\\") {
        if is_escape {
            put_escape(rt, out, part);
        } else {
            put(rt, out, part.as_bytes());
        }
        is_escape = true;
    }
}

// The byte that stands behind a backslash, and what follows it.
fn put_escape(rt: &impl Abort, out: &mut Vec<u8>, text: &str) {
    let (byte, rest) = escaped(rt, text);
    put(rt, out, &[byte]);
    put(rt, out, rest.as_bytes());
}

fn escaped<'a>(rt: &impl Abort, text: &'a str) -> (u8, &'a str) {
    if let Some(rest) = text.strip_prefix("n") {
        return (b'\n', rest);
    }
    if let Some(rest) = text.strip_prefix("0") {
        return (0, rest);
    }
    let (byte, rest) = halves(text, ".");
    (byte.parse::<u8>().expect(rt, "a byte"), rest)
}

pub fn put_number(rt: &impl Abort, out: &mut Vec<u8>, n: u128) {
    let mut buffer = Buffer::new();
    put(rt, out, buffer.format(n).as_bytes());
}

/// A label and a number behind a space each, unless the number is 0.
pub fn put_count(rt: &impl Abort, out: &mut Vec<u8>, label: &[u8], n: u128) {
    if n == 0 {
        return;
    }
    put_word(rt, out, label);
    put(rt, out, b" ");
    put_number(rt, out, n);
}

/// Behind a space a word.
pub fn put_word(rt: &impl Abort, out: &mut Vec<u8>, word: &[u8]) {
    put(rt, out, b" ");
    put(rt, out, word);
}

/// Behind a space a word, where it is said.
pub fn put_flag(rt: &impl Abort, out: &mut Vec<u8>, word: &[u8], said: bool) {
    if said {
        put_word(rt, out, word);
    }
}

/// An id: one of the first sixteen of the first run is an i and its last digit.
pub fn put_id(rt: &impl Abort, out: &mut Vec<u8>, id: &MsgId) {
    match id.bytes().strip_prefix(FIRST_IDS) {
        Some(digit) => {
            put(rt, out, b"i");
            put(rt, out, digit);
        }
        None => put(rt, out, id.bytes()),
    }
}

/// A message as it is sent: its id, its attempts where it has some, and its body.
pub fn put_sent(rt: &impl Abort, out: &mut Vec<u8>, message: &Message) {
    put_id(rt, out, &message.id);
    if message.attempts != 0 {
        put(rt, out, b"*");
        put_number(rt, out, u128::from(message.attempts));
    }
    put_word(rt, out, message.body.bytes());
}

/// The same, and its delay where it has one.
pub fn put_message(rt: &impl Abort, out: &mut Vec<u8>, message: &Message) {
    put_sent(rt, out, message);
    put_count(rt, out, b"in", u128::from(message.delay));
}

/// Names of channels, a space before each.
pub fn put_channels(rt: &impl Abort, out: &mut Vec<u8>, channels: &[Chan]) {
    for channel in channels {
        put_word(rt, out, channel.bytes());
    }
}

/// Topics with their channels in brackets.
pub fn put_names(rt: &impl Abort, out: &mut Vec<u8>, names: &Names) {
    for i in 0..names.count() {
        put_word(rt, out, names.topic(i).bytes());
        put(rt, out, b" [");
        put_channels(rt, out, names.channels(i));
        put(rt, out, b" ]");
    }
}

/// A line, and what is said of it.
pub fn put_line(rt: &impl Abort, out: &mut Vec<u8>, line: &str, what: &[u8]) {
    put(rt, out, line.as_bytes());
    put(rt, out, b": ");
    put(rt, out, what);
}
