//! What the rows' texts have in common: parts, numbers, moments, bytes, and what becomes of a connection.
//!
//! In a text that stands for bytes `\n`, `\r` and `\0` stand for the same bytes as in Rust, and `\x` with two digits for that byte. A moment is in seconds,
//! `5s`, or one nanosecond before them, `5s-1`.

use crate::lists::put;
use daemon_callers::Ended;
use std::alloc::Global;
use std::process::Abort;

const SECOND: u64 = 1_000_000_000;

/// The first word of a text, and what stands behind it.
pub fn cut(text: &str) -> (&str, &str) {
    match text.split_once(' ') {
        Some(parts) => parts,
        None => (text, ""),
    }
}

/// The parts of a text before and behind a mark.
pub fn part<'a>(rt: &impl Abort, text: &'a str, mark: &str) -> (&'a str, &'a str) {
    text.split_once(mark).expect(rt, "a mark in a row")
}

/// The column of this number, the first one being 0.
pub fn column(line: &str, number: usize) -> &str {
    line.split('|').nth(number).unwrap_or("")
}

/// Ends the run: no row says this.
pub fn unknown<T>(rt: &impl Abort, words: &str) -> T {
    panic!(rt; "{words} is nothing that a row says")
}

/// The number that a word says.
pub fn number(rt: &impl Abort, word: &str) -> u64 {
    word.parse::<u64>().expect(rt, "a number")
}

/// The moment that a word says, in nanoseconds.
pub fn moment(rt: &impl Abort, word: &str) -> u64 {
    let (seconds, rest) = part(rt, word, "s");
    let moment = number(rt, seconds).saturating_mul(SECOND);
    match rest {
        "" => moment,
        "-1" => moment.saturating_sub(1),
        _ => unknown(rt, word),
    }
}

/// Adds the bytes that a text stands for.
pub fn put_text(rt: &impl Abort, out: &mut Vec<u8>, text: &str) {
    let mut is_escape = false;
    for part in text.split('\\') {
        if is_escape {
            put_escape(rt, out, part);
        } else {
            put(rt, out, part.as_bytes());
        }
        is_escape = true;
    }
}

// Adds the byte that stands behind a backslash, and what follows it.
fn put_escape(rt: &impl Abort, out: &mut Vec<u8>, text: &str) {
    let (byte, rest) = escaped(rt, text);
    put(rt, out, &[byte]);
    put(rt, out, rest.as_bytes());
}

// The byte that stands behind a backslash, and what follows it.
fn escaped<'a>(rt: &impl Abort, text: &'a str) -> (u8, &'a str) {
    let (letter, rest) = text.split_at_checked(1).expect(rt, "a backslash's byte");
    match letter {
        "n" => (b'\n', rest),
        "r" => (b'\r', rest),
        "0" => (b'\0', rest),
        "x" => hexadecimal(rt, rest),
        _ => panic!(rt; "a backslash without its byte"),
    }
}

// The byte that two hexadecimal digits say, and what follows them.
fn hexadecimal<'a>(rt: &impl Abort, text: &'a str) -> (u8, &'a str) {
    let (digits, rest) = text.split_at_checked(2).expect(rt, "two digits");
    let byte = u8::from_str_radix(digits, 16).expect(rt, "hexadecimal digits");
    (byte, rest)
}

/// The bytes that a text stands for.
pub fn bytes_of(rt: &impl Abort, alloc: Global, text: &str) -> Vec<u8> {
    let mut bytes = Vec::new(alloc);
    put_text(rt, &mut bytes, text);
    bytes
}

/// The bytes of a text in runs, with `+` between them; one behind which `*` and a number stand comes so many times.
pub fn spread(rt: &impl Abort, alloc: Global, text: &str) -> Vec<u8> {
    let mut bytes = Vec::new(alloc);
    for run in text.split('+') {
        let (part, times) = times_of(rt, run);
        for _ in 0..times {
            put_text(rt, &mut bytes, part);
        }
    }
    bytes
}

// A run without its number, and how many times it comes.
fn times_of<'a>(rt: &impl Abort, run: &'a str) -> (&'a str, u64) {
    match run.split_once('*') {
        Some((part, times)) => (part, number(rt, times)),
        None => (run, 1),
    }
}

/// The word for how a V2 connection ended.
pub fn word_of(ended: Ended) -> &'static str {
    match ended {
        Ended::EndOfInput => "end",
        Ended::Closed => "closed",
        Ended::ReadFault => "read fault",
        Ended::WriteFault => "write fault",
        Ended::Memory => "memory",
    }
}
