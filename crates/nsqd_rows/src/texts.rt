//! What the rows' texts have in common: parts, numbers, bytes, and what a caller gets.
//!
//! In a text that stands for bytes `\n`, `\r` and `\0` stand for the same bytes as in Rust, and `\x` with two digits for that byte.

use itoa::Buffer;
use std::alloc::Global;
use std::process::Abort;

/// Whether the bytes are the same.
pub fn same(one: &[u8], other: &[u8]) -> bool {
    one == other
}

/// Ends the run where the row of this name doesn't hold.
pub fn check(rt: &impl Abort, holds: bool, name: &str) {
    assert!(rt; holds, "{name}");
}

/// Ends the run where something differs in the row of this name.
pub fn check_none(rt: &impl Abort, name: &str, differs: Option<&str>) {
    if let Some(differs) = differs {
        panic!(rt; "{name}: {differs}");
    }
}

/// Ends the run: no row says this.
pub fn unknown<T>(rt: &impl Abort, words: &str) -> T {
    panic!(rt; "{words} is nothing that a row says")
}

/// Adds bytes.
pub fn put(rt: &impl Abort, out: &mut Vec<u8>, bytes: &[u8]) {
    out.extend_from_slice(bytes).expect(rt, "memory");
}

/// The first word of a text, and what stands behind it.
pub fn cut(text: &str) -> (&str, &str) {
    match text.split_once(' ') {
        Some(parts) => parts,
        None => (text, ""),
    }
}

/// The parts of a text before and behind a mark.
pub fn part<'a>(rt: &impl Abort, text: &'a str, mark: &str) -> (&'a str, &'a str) {
    text.split_once(mark).expect(rt, "a mark in a row")
}

/// The number that a word says.
pub fn number(rt: &impl Abort, word: &str) -> u64 {
    word.parse::<u64>().expect(rt, "a number")
}

/// The bytes that a text stands for.
pub fn bytes_of(rt: &impl Abort, alloc: Global, text: &str) -> Vec<u8> {
    let mut bytes = Vec::new(alloc);
    put_text(rt, &mut bytes, text);
    bytes
}

/// Adds the bytes that a text stands for.
pub fn put_text(rt: &impl Abort, out: &mut Vec<u8>, text: &str) {
    let mut is_escape = false;
    for part in text.split('\\') {
        if is_escape {
            put_escape(rt, out, part);
        } else {
            put(rt, out, part.as_bytes());
        }
        is_escape = true;
    }
}

// Adds the byte that stands behind a backslash, and what follows it.
fn put_escape(rt: &impl Abort, out: &mut Vec<u8>, text: &str) {
    let (byte, rest) = escaped(rt, text);
    put(rt, out, &[byte]);
    put(rt, out, rest.as_bytes());
}

// The byte that stands behind a backslash, and what follows it.
fn escaped<'a>(rt: &impl Abort, text: &'a str) -> (u8, &'a str) {
    let (letter, rest) = text.split_at_checked(1).expect(rt, "a backslash's byte");
    match letter {
        "n" => (b'\n', rest),
        "r" => (b'\r', rest),
        "0" => (b'\0', rest),
        "x" => hexadecimal(rt, rest),
        _ => panic!(rt; "a backslash without its byte"),
    }
}

// The byte that two hexadecimal digits say, and what follows them.
fn hexadecimal<'a>(rt: &impl Abort, text: &'a str) -> (u8, &'a str) {
    let (digits, rest) = text.split_at_checked(2).expect(rt, "two digits");
    let byte = u8::from_str_radix(digits, 16).expect(rt, "hexadecimal digits");
    (byte, rest)
}

// The words for what a client of TCP gets, and the bytes at its front, behind which stand those that follow the words.
static FRONTS: &'static str = r#"OK=\0\0\0\x06\0\0\0\0OK
close wait=\0\0\0\x0e\0\0\0\0CLOSE_WAIT
not in flight=\0\0\0\x26\0\0\0\x01E_FIN_FAILED message not in flight
first =\0\0\0\x1f\0\0\0\x02\0\0\0\0\0\0\0\0\0\x01
second =\0\0\0\x1f\0\0\0\x02\0\0\0\0\0\0\0\0\0\x02
bytes ="#;

/// Adds what a client of TCP gets: `OK`, `close wait` and `not in flight`, the answers to a command that is carried out, to a first CLS, and to a FIN of a
/// message that isn't in flight; `first` or `second` before a message's id and its body of one byte, where it was published at moment 0 and is sent for that
/// time; or `bytes`.
pub fn put_got(rt: &impl Abort, out: &mut Vec<u8>, gets: &str) {
    for line in FRONTS.split('\n') {
        let (words, front) = part(rt, line, "=");
        if let Some(rest) = gets.strip_prefix(words) {
            put_text(rt, out, front);
            return put_text(rt, out, rest);
        }
    }
    unknown(rt, gets)
}

/// Adds the answer that a caller of HTTP gets: its status with its phrase, the type of its body and the body, with `|` between.
pub fn put_answer(rt: &impl Abort, out: &mut Vec<u8>, gets: &str) {
    let (status, rest) = part(rt, gets, "|");
    let (kind, body) = part(rt, rest, "|");
    let mut digits = Buffer::new();
    put(rt, out, b"HTTP/1.1 ");
    put(rt, out, status.as_bytes());
    put(rt, out, b"\r\nContent-Type: ");
    put(rt, out, kind.as_bytes());
    put(rt, out, b"; charset=utf-8\r\nContent-Length: ");
    put(rt, out, digits.format(body.len()).as_bytes());
    put(rt, out, b"\r\nConnection: close\r\n\r\n");
    put(rt, out, body.as_bytes());
}
