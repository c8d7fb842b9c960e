//! The words of a row: what goes in is made of them, and what comes out is judged by them. A word that isn't known is no answer, or stops
//! the run.

use crate::same;
use nsq_outside::{Did, Kind, Read, Write};
use std::alloc::Global;
use std::process::Abort;

/// The parts of a text before and behind a mark; nothing behind it where it doesn't stand there.
pub fn halves<'a>(text: &'a str, mark: &str) -> (&'a str, &'a str) {
    match text.split_once(mark) {
        Some(parts) => parts,
        None => (text, ""),
    }
}

/// The parts of a text before and behind a mark, which stands there.
pub fn part<'a>(rt: &impl Abort, text: &'a str, mark: &str) -> (&'a str, &'a str) {
    text.split_once(mark).expect(rt, "a mark in a row")
}

/// The first word of a text, and what stands behind it.
pub fn cut(text: &str) -> (&str, &str) {
    halves(text, " ")
}

/// Whether these are the same texts.
pub fn is(one: &str, other: &str) -> bool {
    same(one.as_bytes(), other.as_bytes())
}

/// Whether a word is the first of two; it is one of them.
pub fn is_first(rt: &impl Abort, word: &str, first: &str, second: &str) -> bool {
    if is(word, first) {
        true
    } else if is(word, second) {
        false
    } else {
        unknown(rt, word)
    }
}

/// Stops the run: nobody knows this word.
pub fn unknown<T>(rt: &impl Abort, word: &str) -> T {
    panic!(rt; "{} is no word of a row", word)
}

/// The number that a word says.
pub fn number(rt: &impl Abort, word: &str) -> u64 {
    word.parse::<u64>().expect(rt, "a number")
}

/// Numbers, with blanks between them.
pub fn numbers(rt: &impl Abort, alloc: Global, text: &str) -> Vec<u64> {
    let mut numbers = Vec::new(alloc);
    for word in text.split(' ') {
        if !word.is_empty() {
            numbers.push(number(rt, word)).expect(rt, "memory");
        }
    }
    numbers
}

/// The bytes that a text says: `7*32768` are so many bytes of the value 7, any other text is its own bytes.
pub fn bytes_of(rt: &impl Abort, alloc: Global, text: &str) -> Vec<u8> {
    match text.split_once("*") {
        Some((byte, count)) => {
            let byte = byte.parse::<u8>().expect(rt, "a byte");
            let count = count.parse::<usize>().expect(rt, "a number");
            vec![in alloc; byte; count].expect(rt, "memory")
        }
        None => text.as_bytes().to_vec(alloc).expect(rt, "memory"),
    }
}

/// The kind that a word says.
pub fn kind_of(rt: &impl Abort, word: &str) -> Kind {
    if is_first(rt, word, "tcp", "http") {
        Kind::Tcp
    } else {
        Kind::Http
    }
}

/// Whether a word says this kind.
pub fn is_kind(kind: Kind, word: &str) -> bool {
    match kind {
        Kind::Tcp => is(word, "tcp"),
        Kind::Http => is(word, "http"),
    }
}

/// Whether a word says this number.
pub fn is_number(number: u64, word: &str) -> bool {
    match word.parse::<u64>() {
        Ok(said) => said == number,
        Err(_) => false,
    }
}

/// Whether a word says this: `done` or `failed`.
pub fn is_did(did: Did, word: &str) -> bool {
    match did {
        Did::Done => is(word, "done"),
        Did::Failed => is(word, "failed"),
    }
}

/// Whether a word says what a write answered: how many bytes it took, `failed`, or `any` of these.
pub fn is_write(answer: Write, word: &str) -> bool {
    match answer {
        _ if is(word, "any") => true,
        Write::Took(count) => is_number(count as u64, word),
        Write::Failed => is(word, "failed"),
    }
}

/// Whether a word says what a read answered: how many bytes came, `nothing`, `end` or `failed`.
pub fn is_read(answer: Read, word: &str) -> bool {
    match answer {
        Read::Got(count) => is_number(count as u64, word),
        Read::Nothing => is(word, "nothing"),
        Read::End => is(word, "end"),
        Read::Failed => is(word, "failed"),
    }
}
