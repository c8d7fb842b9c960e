//! Rows of names: a name, what is put in, in this order, and the topics with their channels that are there then, each with a `;` between them. A
//! topic stands by itself, or before channels.

use crate::same;
use crate::text::{check_row, cut, rows_of};
use nsq_base::{Chan, Names, Topic};
use std::alloc::Global;
use std::process::Abort;

static ROWS: &[u8] = b"\
nothing||~\
topics and channels out of order and twice|b y;a z;b x;b y;c;b|a z;b x y;c~\
a name before each that it begins|tt;t;t-|t;t-;tt~\
";

// How many channels a topic has, where it is there.
fn channels_of(names: &Names, topic: Topic) -> Option<usize> {
    for i in 0..names.count() {
        if names.topic(i) == topic {
            return Some(names.channels(i).len());
        }
    }
    None
}

// Puts it in, where there is memory. False where it has no names, or where after Memory the names weren't as before.
fn puts(names: &mut Names, given: &'static [u8]) -> Option<bool> {
    let (topic, channel) = cut(given, b' ');
    let Some(topic) = Topic::read(topic) else {
        return Some(false);
    };
    let before = names.count();
    let channels = channels_of(names, topic);
    let done = match Chan::read(channel) {
        None => names.add(topic),
        Some(channel) => names.add_channel(topic, channel),
    };
    if done.is_ok() {
        return Some(true);
    }
    if names.count() == before && channels_of(names, topic) == channels {
        None
    } else {
        Some(false)
    }
}

// Puts all of it in, in this order.
fn puts_all(rt: &impl Abort, alloc: Global, names: &mut Names, given: &'static [u8]) -> bool {
    let mut all = true;
    for it in &rows_of(rt, alloc, given, b';') {
        all = all && puts(names, it).expect(rt, "memory");
    }
    all
}

// Whether the channels are these.
fn are_channels(channels: &[Chan], want: &'static [u8]) -> bool {
    let mut rest = want;
    let mut all = true;
    for channel in channels {
        let (name, behind) = cut(rest, b' ');
        all &= same(channel.bytes(), name);
        rest = behind;
    }
    all && rest.is_empty()
}

// Whether the topics are these, with their channels.
fn are_topics(names: &Names, want: &'static [u8]) -> bool {
    let mut rest = want;
    let mut all = true;
    for i in 0..names.count() {
        let (it, behind) = cut(rest, b';');
        let (topic, channels) = cut(it, b' ');
        all &= same(names.topic(i).bytes(), topic) & are_channels(names.channels(i), channels);
        rest = behind;
    }
    all && rest.is_empty()
}

// Whether the topics of the names and of their copy are these.
fn are_both(names: &Names, copy: &Names, want: &'static [u8]) -> bool {
    are_topics(names, want) && are_topics(copy, want)
}

fn holds(rt: &impl Abort, alloc: Global, row: &'static [u8]) -> bool {
    let (_, rest) = cut(row, b'|');
    let (given, topics) = cut(rest, b'|');
    let mut names = Names::new(alloc);
    let all = puts_all(rt, alloc, &mut names, given);
    let copy = names.copy(alloc).expect(rt, "memory");
    all & are_both(&names, &copy, topics)
}

#[test]
fn rows(rt: HostRuntime) {
    for row in &rows_of(&rt, rt.alloc(), ROWS, b'~') {
        let (name, _) = cut(row, b'|');
        check_row(&rt, holds(&rt, rt.alloc(), row), name);
    }
}
