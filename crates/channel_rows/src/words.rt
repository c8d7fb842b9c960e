//! What the rows' texts have in common: parts, words, numbers and moments.

use nsq_base::MsgId;
use std::process::Abort;

/// The latest moment, and the longest delay.
pub const MOST: u64 = 1 << 62;

const SECOND: u64 = 1_000_000_000;

/// The parts of a text before and behind a mark; nothing behind it where it doesn't stand there.
pub fn halves<'a>(text: &'a str, mark: &str) -> (&'a str, &'a str) {
    match text.split_once(mark) {
        Some(parts) => parts,
        None => (text, ""),
    }
}

/// The parts of a text before and behind a mark.
pub fn part<'a>(rt: &impl Abort, text: &'a str, mark: &str) -> (&'a str, &'a str) {
    text.split_once(mark).expect(rt, "a mark in a row")
}

/// The first word of a text, and what stands behind it.
pub fn cut(text: &str) -> (&str, &str) {
    halves(text, " ")
}

/// The first words of a text; empty where it has fewer.
pub fn words(text: &str) -> [&str; 5] {
    let (one, rest) = cut(text);
    let (two, rest) = cut(rest);
    let (three, rest) = cut(rest);
    let (four, rest) = cut(rest);
    let (five, _) = cut(rest);
    [one, two, three, four, five]
}

/// The number that a word says.
pub fn number(rt: &impl Abort, word: &str) -> u64 {
    word.parse::<u64>().expect(rt, "a number")
}

/// The moment that a word says, in nanoseconds: `60s` in seconds, `most` the latest one, `60s+5` and `60s-1` later and earlier; no word is 0.
pub fn moment(rt: &impl Abort, word: &str) -> u64 {
    let (sum, less) = halves(word, "-");
    let mut moment: u64 = 0;
    for term in sum.split('+') {
        moment = moment.saturating_add(time(rt, term));
    }
    moment.saturating_sub(time(rt, less))
}

fn time(rt: &impl Abort, word: &str) -> u64 {
    if word.is_empty() {
        return 0;
    }
    match word.strip_suffix("s") {
        Some(seconds) => number(rt, seconds).saturating_mul(SECOND),
        None if word.starts_with("most") => MOST,
        None => number(rt, word),
    }
}

/// The only byte of a word.
pub fn letter(rt: &impl Abort, word: &str) -> u8 {
    match word.as_bytes() {
        [letter] => *letter,
        _ => unknown(rt, word),
    }
}

/// Stops the run: nobody knows this word.
pub fn unknown<T>(rt: &impl Abort, word: &str) -> T {
    panic!(rt; "{} is no word of a row", word)
}

/// Stops the run where a row doesn't hold, and names it.
pub fn check(rt: &impl Abort, holds: bool, name: &str) {
    assert!(rt; holds, "{}", name);
}

/// The id of the number that a word says.
pub fn id(rt: &impl Abort, word: &str) -> MsgId {
    id_of(word.parse::<u8>().expect(rt, "a number"))
}

/// The id of this number.
pub fn id_of(number: u8) -> MsgId {
    MsgId::make(1, u64::from(number))
}

/// Whether these are the same texts.
pub fn same(one: &str, other: &str) -> bool {
    one == other
}
