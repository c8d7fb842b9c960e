//! Tables as one text: each row ends with `~`, and its fields stand between `|`. A word that isn't known stops the run, or is no answer.

use crate::{check, same};
use std::alloc::Global;
use std::process::Abort;

/// What stands before the first such byte, and what stands behind it.
pub(crate) fn cut(text: &'static [u8], end: u8) -> (&'static [u8], &'static [u8]) {
    for (place, byte) in text.iter().enumerate() {
        if *byte == end {
            let (front, _) = text.split_at(place.min(text.len()));
            let (_, behind) = text.split_at(place.saturating_add(1).min(text.len()));
            return (front, behind);
        }
    }
    (text, b"")
}

/// The pieces between such bytes that aren't empty.
pub(crate) fn rows_of(
    rt: &impl Abort,
    alloc: Global,
    text: &'static [u8],
    end: u8,
) -> Vec<&'static [u8]> {
    let mut rows = Vec::new(alloc);
    let mut left = text;
    // Each piece that isn't empty takes a byte of the text.
    for _ in 0..text.len() {
        let (row, behind) = cut(left, end);
        if !row.is_empty() {
            rows.push(row).expect(rt, "memory");
        }
        left = behind;
    }
    rows
}

/// Bytes in UTF-8 as a text.
pub(crate) fn text_of(rt: &impl Abort, bytes: &'static [u8]) -> &'static str {
    str::from_utf8(bytes).expect(rt, "a text")
}

/// The number of these digits.
pub(crate) fn number_of(rt: &impl Abort, digits: &'static [u8]) -> u64 {
    text_of(rt, digits).parse::<u64>().expect(rt, "a number")
}

/// Bytes in UTF-8 as a word; no word where they aren't.
pub(crate) fn word_in(bytes: &'static [u8]) -> &'static str {
    match str::from_utf8(bytes) {
        Ok(word) => word,
        Err(_) => "",
    }
}

/// The number of these digits, where they are some.
pub(crate) fn number_in(digits: &'static [u8]) -> Option<u64> {
    match word_in(digits).parse::<u64>() {
        Ok(number) => Some(number),
        Err(_) => None,
    }
}

/// Whether these digits say the number.
pub(crate) fn is_number(number: u64, digits: &'static [u8]) -> bool {
    match number_in(digits) {
        Some(said) => said == number,
        None => false,
    }
}

/// Whether a word says what is: the first of two where it is so, else the second.
pub(crate) fn says(word: &[u8], so: bool, first: &[u8], second: &[u8]) -> bool {
    if so {
        same(word, first)
    } else {
        same(word, second)
    }
}

/// Whether a word is the first of two; it is one of them.
pub(crate) fn is_first(rt: &impl Abort, word: &[u8], first: &[u8], second: &[u8]) -> bool {
    let is_first = same(word, first);
    check(rt, is_first || same(word, second), "a word of a row");
    is_first
}

/// Ends the run where a row doesn't hold, and names it.
pub(crate) fn check_row(rt: &impl Abort, holds: bool, name: &'static [u8]) {
    check(rt, holds, text_of(rt, name));
}
