//! What rows of several subjects read and make.

use broker_files::FoundNames;
use broker_history::Entry;
use broker_state::State;
use nsq_base::{Body, Chan, Topic};
use nsq_outside::End;
use path_plain::NamedFile;
use std::alloc::Global;
use std::process::Abort;

/// A second in nanoseconds.
pub const SECOND: u64 = 1_000_000_000;

/// How many ids a run has.
const ALL_IDS: u64 = 1 << 40;

/// The parts of a text before and behind a mark; nothing behind it where it doesn't stand there.
pub fn halves<'a>(text: &'a str, mark: &str) -> (&'a str, &'a str) {
    match text.split_once(mark) {
        Some(parts) => parts,
        None => (text, ""),
    }
}

/// The first word of a text, and what stands behind it.
pub fn cut(text: &str) -> (&str, &str) {
    halves(text, " ")
}

/// The first words of a text; empty where it has fewer.
pub fn words(text: &str) -> [&str; 4] {
    let (one, rest) = cut(text);
    let (two, rest) = cut(rest);
    let (three, rest) = cut(rest);
    let (four, _) = cut(rest);
    [one, two, three, four]
}

/// The parts of a text before and behind a mark.
pub fn part<'a>(rt: &impl Abort, text: &'a str, mark: &str) -> (&'a str, &'a str) {
    text.split_once(mark).expect(rt, "a mark in a row")
}

/// The bytes of a word: a table of these has a `~` behind each word and its bytes.
pub fn bytes_of(rt: &impl Abort, table: &'static str, word: &str) -> &'static [u8] {
    for entry in table.split('~') {
        let (name, bytes) = cut(entry);
        if is(name, word) {
            return bytes.as_bytes();
        }
    }
    unknown(rt, word)
}

/// The number that a word says.
pub fn number(rt: &impl Abort, word: &str) -> u64 {
    word.parse::<u64>().expect(rt, "a number")
}

/// The number behind this word; 0 where it doesn't stand there.
pub fn count(rt: &impl Abort, text: &str, word: &str) -> u64 {
    match text.split_once(word) {
        Some((_, rest)) => number(rt, cut(rest).0),
        None => 0,
    }
}

/// The moment that a word says.
pub fn moment(rt: &impl Abort, word: &str) -> u64 {
    match word.split_once("s") {
        Some((seconds, "-1")) => number(rt, seconds).saturating_mul(SECOND).saturating_sub(1),
        Some((seconds, _)) => number(rt, seconds).saturating_mul(SECOND),
        None => number(rt, word),
    }
}

/// How many ids were used, as `no ids` or `all ids but` so many say.
pub fn used_of(rt: &impl Abort, text: &str) -> u64 {
    match text.trim().strip_prefix("all ids but ") {
        Some(left) => ALL_IDS.saturating_sub(number(rt, left)),
        None => {
            if !is(text.trim(), "no ids") {
                return unknown(rt, text);
            }
            0
        }
    }
}

/// The topic of this name.
pub fn topic(rt: &impl Abort, name: &str) -> Topic {
    Topic::read(name.as_bytes()).expect(rt, "a topic's name")
}

/// The channel of this name.
pub fn channel(rt: &impl Abort, name: &str) -> Chan {
    Chan::read(name.as_bytes()).expect(rt, "a channel's name")
}

/// Puts an item at the end of a list.
pub fn put<T: Drop>(rt: &impl Abort, items: &mut Vec<T>, item: T) {
    items.reserve(1).expect(rt, "memory");
    items.push_reserved(item);
}

/// A body of these bytes.
pub fn copy(rt: &impl Abort, alloc: Global, bytes: &[u8]) -> Body {
    Body::copy(alloc, bytes).expect(rt, "memory")
}

/// Whether these are the same bytes.
pub fn same(one: &[u8], other: &[u8]) -> bool {
    one == other
}

/// Whether these are the same texts.
pub fn is(one: &str, other: &str) -> bool {
    same(one.as_bytes(), other.as_bytes())
}

/// Stops the run: nobody knows this word.
pub fn unknown<T>(rt: &impl Abort, word: &str) -> T {
    panic!(rt; "{} is no word of a row", word)
}

/// Stops the run where a row doesn't hold, and names it.
pub fn check(rt: &impl Abort, holds: bool, name: &str) {
    assert!(rt; holds, "{}", name);
}

/// Takes entries apart, once for all that held some.
pub fn let_entries_go(_entries: Vec<(Entry, End)>) {}

/// The same of a state.
pub fn let_state_go(_state: State) {}

/// The same of states.
pub fn let_states_go(_states: Vec<State>) {}

/// The same of names that an opening found.
pub fn let_names_go(_names: FoundNames) {}

/// The same of files.
pub fn let_files_go(_files: Vec<NamedFile>) {}
