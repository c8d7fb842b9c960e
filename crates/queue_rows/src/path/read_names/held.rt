//! Whether a row holds.

use crate::same;
use names_file::{KeptChannel, KeptTopic, write_names};
use names_reading::{ListedNames, Unread, read_names};
use std::alloc::Global;
use std::process::Abort;

/// Whether a text is bad.
pub fn is_bad(rt: &impl Abort, alloc: Global, text: &[u8]) -> bool {
    read(rt, alloc, text).is_none()
}

/// Whether what a text keeps is written as this, and this keeps the same and is written as it stands.
pub fn is_read(rt: &impl Abort, alloc: Global, text: &[u8], written: &[u8]) -> bool {
    match read(rt, alloc, text) {
        Some(names) => is_kept(rt, alloc, &names, written),
        None => false,
    }
}

// Whether these names are written as this, and this keeps the same and is written as it stands.
fn is_kept(rt: &impl Abort, alloc: Global, names: &ListedNames, written: &[u8]) -> bool {
    match read(rt, alloc, written) {
        Some(again) => {
            is_same(names, &again)
                && is_written(rt, alloc, names, written)
                && is_written(rt, alloc, &again, written)
        }
        None => false,
    }
}

// What a text keeps; None where it is bad.
fn read(rt: &impl Abort, alloc: Global, text: &[u8]) -> Option<ListedNames> {
    match read_names(alloc, text) {
        Ok(names) => Some(names),
        Err(Unread::Bad) => None,
        Err(Unread::Memory) => panic!(rt; "memory"),
    }
}

fn is_written(rt: &impl Abort, alloc: Global, names: &ListedNames, written: &[u8]) -> bool {
    let mut text = Vec::new(alloc);
    write_names(alloc, names.epoch, &names.topics, &mut text).expect(rt, "memory");
    same(&text, written)
}

fn is_same(one: &ListedNames, other: &ListedNames) -> bool {
    one.epoch == other.epoch && are_same_topics(&one.topics, &other.topics)
}

fn are_same_topics(some: &[KeptTopic], others: &[KeptTopic]) -> bool {
    if some.len() != others.len() {
        return false;
    }
    let mut all = true;
    for i in 0..others.len() {
        all = all && is_same_topic(&some[i], &others[i]);
    }
    all
}

fn is_same_topic(one: &KeptTopic, other: &KeptTopic) -> bool {
    one.topic == other.topic
        && one.paused == other.paused
        && are_same_channels(&one.channels, &other.channels)
}

fn is_same_channel(one: &KeptChannel, other: &KeptChannel) -> bool {
    one.channel == other.channel && one.paused == other.paused
}

fn are_same_channels(some: &[KeptChannel], others: &[KeptChannel]) -> bool {
    if some.len() != others.len() {
        return false;
    }
    let mut all = true;
    for i in 0..others.len() {
        all = all && is_same_channel(&some[i], &others[i]);
    }
    all
}
