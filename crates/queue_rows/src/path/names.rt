//! Texts of a file of names, and what each keeps.
//!
//! A row is a line: its name, a text, and behind `=>` what it keeps: its epoch, and with a `;` before each the topics and behind each its
//! channels, which may be `paused`; or that it is `bad`.

use crate::text::{bytes_of, part};
use crate::{check, same};
use itoa::Buffer;
use path_plain::{KeptNames, KeptTopic, read_names};
use std::alloc::Global;
use std::process::Abort;

static ROWS: &'static str = r#"
a topic, as it is written: {"id_epoch":1,"topics":[{"channels":[],"name":"t","paused":false}],"version":"1.0.0"} => epoch 1; topic t
no topic, as it is written: {"id_epoch":1,"topics":[],"version":"1.0.0"} => epoch 1
no member: {} => epoch 0
members that are null: {"id_epoch":null,"topics":null} => epoch 0
the greatest epoch: {"id_epoch":16777215} => epoch 16777215
an epoch above the greatest: {"id_epoch":16777216} => bad
an epoch below 0: {"id_epoch":-1} => bad
an epoch that isn't whole: {"id_epoch":1.5} => bad
an epoch that is a text: {"id_epoch":"1"} => bad
an array: [] => bad
a text that breaks off: { => bad
bytes that aren't UTF-8: {"a":"+byte 255+"} => bad
topics that are no list: {"topics":1} => bad
a topic that is no object: {"topics":["t"]} => bad
a topic without a name: {"topics":[{"paused":true}]} => bad
a name against the grammar: {"topics":[{"name":"a b"}]} => bad
a pause that is a number: {"topics":[{"name":"t","paused":1}]} => bad
a topic twice: {"topics":[{"name":"t"},{"name":"t"}]} => bad
a channel twice: {"topics":[{"name":"t","channels":[{"name":"c"},{"name":"c"}]}]} => bad
topics and channels out of order, an ephemeral topic, an unknown member: {"topics":[{"name":"u","x":[1]},{"name":"e#ephemeral"},{"name":"t","paused":true,"channels":[{"name":"d","paused":null},{"name":"c","paused":true}]}]} => epoch 0; topic t paused; channel c paused; channel d; topic u
"#;

/// Puts a word behind what is told.
pub fn add(rt: &impl Abort, told: &mut Vec<u8>, word: &str) {
    told.extend_from_slice(word.as_bytes()).expect(rt, "memory");
}

/// Puts an epoch behind what is told.
pub fn add_epoch(rt: &impl Abort, told: &mut Vec<u8>, epoch: u32) {
    let mut digits = Buffer::new();
    add(rt, told, "epoch ");
    add(rt, told, digits.format(epoch));
}

/// Puts a topic or a channel behind what is told.
pub fn add_name(rt: &impl Abort, told: &mut Vec<u8>, word: &str, name: &[u8], paused: bool) {
    add(rt, told, word);
    told.extend_from_slice(name).expect(rt, "memory");
    if paused {
        add(rt, told, " paused");
    }
}

fn add_topic(rt: &impl Abort, told: &mut Vec<u8>, topic: &KeptTopic) {
    add_name(rt, told, "; topic ", topic.name.bytes(), topic.paused);
    for channel in &topic.channels {
        add_name(rt, told, "; channel ", channel.name.bytes(), channel.paused);
    }
}

// Whether these names are what is told.
fn are_told(rt: &impl Abort, alloc: Global, names: &KeptNames, wanted: &str) -> bool {
    let mut told = Vec::new(alloc);
    add_epoch(rt, &mut told, names.epoch);
    for topic in &names.topics {
        add_topic(rt, &mut told, topic);
    }
    same(&told, wanted.as_bytes())
}

// Whether the text keeps what the row says.
fn holds(rt: &impl Abort, alloc: Global, row: &str) -> bool {
    let (_, rest) = part(rt, row, ": ");
    let (text, wanted) = part(rt, rest, " => ");
    match read_names(alloc, &bytes_of(rt, alloc, text)).expect(rt, "memory") {
        Some(read) => are_told(rt, alloc, &read, wanted),
        None => same(wanted.as_bytes(), b"bad"),
    }
}

#[test]
fn rows(rt: HostRuntime) {
    for row in ROWS.trim().split('\n') {
        check(&rt, holds(&rt, rt.alloc(), row), row);
    }
}
