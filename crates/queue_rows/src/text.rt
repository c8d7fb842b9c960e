//! The words of rows that are texts.
//!
//! Bytes are told in pieces with a `+` between them: `40*a` is that letter 40 times, `size 40` that number in four bytes, highest first,
//! `zeros 3` so many bytes 0, `blanks 3` so many blanks, and `byte 255` that one. Each other piece stands for itself, but for `/`, which is
//! the end of a line.

use crate::{is, same};
use backlog::{Depths, PutAll};
use disk_queue::Sync;
use nsq_fakes::{Failing, FolderCall};
use std::alloc::Global;
use std::process::Abort;

/// What stands before a mark, and what stands behind it; the whole text and nothing where it isn't there.
pub fn cut_at<'a>(text: &'a str, mark: &str) -> (&'a str, &'a str) {
    match text.split_once(mark) {
        Some(parts) => parts,
        None => (text, ""),
    }
}

/// The first word of a text, and what stands behind it.
pub fn cut(text: &str) -> (&str, &str) {
    cut_at(text, " ")
}

/// The parts of a text before and behind a mark, which is there.
pub fn part<'a>(rt: &impl Abort, text: &'a str, mark: &str) -> (&'a str, &'a str) {
    text.split_once(mark).expect(rt, "a mark in a row")
}

/// Stops the test: nobody knows this word.
pub fn unknown<T>(rt: &impl Abort, word: &str) -> T {
    panic!(rt; "{} is no word of a row", word)
}

/// The number that a word says.
pub fn number(rt: &impl Abort, word: &str) -> u64 {
    word.parse::<u64>().expect(rt, "a number in a row")
}

/// The same of a size.
pub fn size(rt: &impl Abort, word: &str) -> u32 {
    word.parse::<u32>().expect(rt, "a size in a row")
}

/// The letter that a word is.
pub fn letter(rt: &impl Abort, word: &str) -> u8 {
    match word.as_bytes() {
        [letter] => *letter,
        _ => unknown(rt, word),
    }
}

/// Whether an answer says that a call was carried out.
pub fn is_done(rt: &impl Abort, answer: &str) -> bool {
    if is(answer, "done") {
        true
    } else if is(answer, "failed") || is(answer, "fault") {
        false
    } else {
        unknown(rt, answer)
    }
}

/// Whether what is drawn has the letter and the delay that are told, or is none where `none` is.
pub fn is_drawn(rt: &impl Abort, drawn: Option<(u64, u64)>, told: &str) -> bool {
    let (word, rest) = cut(told);
    match drawn {
        Some((letter, delay)) => match word.as_bytes() {
            [told] => u64::from(*told) == letter && number(rt, rest) == delay,
            _ => false,
        },
        None => same(told.as_bytes(), b"none"),
    }
}

/// The answer of a save.
pub fn sync_of(rt: &impl Abort, answer: &str) -> Sync {
    if is(answer, "not due") {
        Sync::NotDue
    } else if is(answer, "done") {
        Sync::Done
    } else if is(answer, "failed") {
        Sync::Failed
    } else {
        unknown(rt, answer)
    }
}

/// So many messages in memory, and so many on disk.
pub fn depths_of(rt: &impl Abort, numbers: &str) -> Depths {
    let (ring, disk) = cut(numbers);
    Depths {
        ring: number(rt, ring),
        disk: u128::from(number(rt, disk)),
    }
}

/// What is answered where messages are put together, and how many are left.
pub fn all_put_of(rt: &impl Abort, answer: &str) -> (PutAll, usize) {
    let (answer, left) = part(rt, answer, ", ");
    let (left, _) = part(rt, left, " left");
    let put = if is_done(rt, answer) {
        PutAll::Done
    } else {
        PutAll::Fault
    };
    (put, number(rt, left) as usize)
}

/// What stands in a row of steps: what it is about, how many messages find room in memory, the calls of the folder that fail, and the
/// steps.
pub fn script_of<'a>(rt: &impl Abort, row: &'a str) -> [&'a str; 4] {
    let (_, rest) = part(rt, row, "\n");
    let (_, rest) = part(rt, rest, ": ");
    let (about, rest) = part(rt, rest, "memory:");
    let (memory, rest) = part(rt, rest, "fails:");
    let (fails, steps) = part(rt, rest, "steps:");
    [about.trim(), memory.trim(), fails, steps]
}

/// The bytes that a text tells.
pub fn bytes_of(rt: &impl Abort, alloc: Global, text: &str) -> Vec<u8> {
    let mut bytes = Vec::new(alloc);
    for piece in text.split('+') {
        add_piece(rt, &mut bytes, piece);
    }
    bytes
}

fn add_piece(rt: &impl Abort, bytes: &mut Vec<u8>, piece: &str) {
    let (word, count) = cut(piece);
    if is(word, "size") {
        let number = size(rt, count).to_be_bytes();
        bytes.extend_from_slice(&number).expect(rt, "memory");
    } else if is(word, "zeros") {
        add_run(rt, bytes, number(rt, count), 0);
    } else if is(word, "blanks") {
        add_run(rt, bytes, number(rt, count), b' ');
    } else if is(word, "byte") {
        let byte = count.parse::<u8>().expect(rt, "a byte in a row");
        add_run(rt, bytes, 1, byte);
    } else {
        add_text(rt, bytes, piece);
    }
}

// Adds a piece that is no number.
fn add_text(rt: &impl Abort, bytes: &mut Vec<u8>, piece: &str) {
    match piece.split_once("*") {
        Some((times, word)) => add_run(rt, bytes, number(rt, times), letter(rt, word)),
        None => {
            for byte in piece.as_bytes() {
                let byte = if *byte == b'/' { b'\n' } else { *byte };
                bytes.push(byte).expect(rt, "memory");
            }
        }
    }
}

fn add_run(rt: &impl Abort, bytes: &mut Vec<u8>, times: u64, byte: u8) {
    let end = bytes.len().saturating_add(times as usize);
    bytes.resize(end, byte).expect(rt, "memory");
}

/// The method of the folder that a word names.
pub fn call_of(rt: &impl Abort, word: &str) -> FolderCall {
    if is(word, "List") {
        FolderCall::List
    } else if is(word, "Len") {
        FolderCall::Len
    } else if is(word, "ReadAt") {
        FolderCall::ReadAt
    } else if is(word, "WriteAt") {
        FolderCall::WriteAt
    } else {
        change_of(rt, word)
    }
}

// The same of one that changes names, or makes something durable.
fn change_of(rt: &impl Abort, word: &str) -> FolderCall {
    if is(word, "Cut") {
        FolderCall::Cut
    } else if is(word, "Sync") {
        FolderCall::Sync
    } else if is(word, "SyncNames") {
        FolderCall::SyncNames
    } else if is(word, "Rename") {
        FolderCall::Rename
    } else if is(word, "Remove") {
        FolderCall::Remove
    } else {
        unknown(rt, word)
    }
}

/// The calls of the folder that fail: a method, and from which number on and below which.
pub fn fails_of(rt: &impl Abort, alloc: Global, text: &str) -> Vec<Failing> {
    let mut fails = Vec::new(alloc);
    for call in text.trim().split_terminator(';') {
        let failing = failing_of(rt, call.trim());
        fails.push(failing).expect(rt, "memory");
    }
    fails
}

fn failing_of(rt: &impl Abort, call: &str) -> Failing {
    let (method, numbers) = cut(call);
    let (from, to) = cut(numbers);
    Failing {
        call: call_of(rt, method),
        from: number(rt, from),
        to: number(rt, to),
    }
}
