//! Whether a row of a table of histories holds.
//!
//! A row is a text: its name, behind `given` what a run starts from and a story, which is legal, behind `then` what happens then, and where it
//! leads: `on`, where all of it is legal; `nowhere`, where that is refused; `to` a topic with channels, where it is legal and leaves so many copies
//! of each of these queued, in flight and deferred; or `without` a topic, where it is legal and leaves none of this name.

use crate::lines::{message, tell};
use crate::made::{
    SECOND, channel, check, cut, is, let_entries_go, let_state_go, let_states_go, number, part,
    put, topic, unknown,
};
use crate::steps::{beats, channels, faults, flights, told, turns};
use broker_history::Entry;
use broker_state::{
    ChannelState, MessageCopy, Place, State, TopicState, deferred, in_flight, queued,
};
use broker_steps::led_to;
use nsq_base::Options;
use nsq_outside::End;
use std::alloc::Global;
use std::process::Abort;

/// What a run starts from: the size of memory, the time for a message, how many ids were used, and the messages with their attempts that an
/// opening found in the channel `c` of the topic `t`, where these aren't none.
#[derive(Clone, Copy)]
struct Start {
    mem: u64,
    msg_timeout: u64,
    epoch: u32,
    ids_used: u64,
    found: &'static [(u64, u16)],
}

const EMPTY: Start = Start {
    mem: 10_000,
    msg_timeout: 60 * SECOND,
    epoch: 1,
    ids_used: 0,
    found: &[],
};

// What a run of these words starts from.
fn start_named(rt: &impl Abort, words: &str) -> Start {
    let mut start = EMPTY;
    match words {
        "given" => {}
        "given no memory" => start.mem = 0,
        "given memory for one" => start.mem = 1,
        "given a second for a message" => start.msg_timeout = SECOND,
        "given no ids" => start.ids_used = 1 << 40,
        "given a message twice" => {
            start.found = &[(0, 0), (0, 0)];
            start.ids_used = 1;
        }
        "given three messages in a second run" => {
            start.epoch = 2;
            start.found = &[(2, 0), (1, 1), (0, 1)];
        }
        _ => return unknown(rt, words),
    }
    start
}

// Whether the row's story is legal, and leads on as it says.
fn holds(rt: &impl Abort, alloc: Global, row: &str) -> bool {
    let (_, rest) = part(rt, row, "\n");
    let (start, rest) = part(rt, rest, ":");
    let (story, rest) = part(rt, rest, "then:");
    let start = start_of(rt, alloc, start_named(rt, start.trim()));
    let mut entries = Vec::new(alloc);
    tell(rt, alloc, &mut entries, story);
    let holds = is_legal(rt, alloc, &start, &entries)
        && leads_on(rt, alloc, &start, &mut entries, rest);
    let_entries_go(entries);
    let_state_go(start);
    holds
}

fn is_legal(rt: &impl Abort, alloc: Global, start: &State, entries: &[(Entry, End)]) -> bool {
    let states = led_to(alloc, start, entries).expect(rt, "memory");
    let is_legal = !states.is_empty();
    let_states_go(states);
    is_legal
}

// Whether what happens then leads where the row says.
fn leads_on(
    rt: &impl Abort,
    alloc: Global,
    start: &State,
    entries: &mut Vec<(Entry, End)>,
    rest: &str,
) -> bool {
    let (then, leads) = part(rt, rest, "leads ");
    tell(rt, alloc, entries, then);
    let states = led_to(alloc, start, entries).expect(rt, "memory");
    let leads_so = leads_so(rt, &states, leads);
    let_states_go(states);
    leads_so
}

fn leads_so(rt: &impl Abort, states: &[State], leads: &str) -> bool {
    let Some(state) = states.first() else {
        return is(leads, "nowhere");
    };
    let (word, rest) = cut(leads);
    match word {
        "on" => true,
        "nowhere" => false,
        "to" => have_counts(rt, state, rest),
        "without" => state.topic_of(&topic(rt, rest)).is_none(),
        _ => unknown(rt, word),
    }
}

fn have_counts(rt: &impl Abort, state: &State, leads: &str) -> bool {
    let (name, each) = cut(leads);
    for counts in each.split(',') {
        if !has_counts(rt, state, name, counts.trim()) {
            return false;
        }
    }
    true
}

fn has_counts(rt: &impl Abort, state: &State, name: &str, counts: &str) -> bool {
    let (of, counts) = cut(counts);
    let Some(channel) = state.channel_at(&topic(rt, name), &channel(rt, of)) else {
        return false;
    };
    let (waiting, rest) = cut(counts);
    let (flying, held) = cut(rest);
    queued(&channel.copies) as u64 == number(rt, waiting)
        && in_flight(&channel.copies) as u64 == number(rt, flying)
        && deferred(&channel.copies) as u64 == number(rt, held)
}

fn start_of(rt: &impl Abort, alloc: Global, start: Start) -> State {
    let mut options = Options::defaults(alloc).expect(rt, "memory");
    options.mem_queue_size = start.mem;
    options.msg_timeout = start.msg_timeout;
    State {
        options,
        epoch: start.epoch % 1_000,
        ids_used: start.ids_used,
        moment: 0,
        stopped: false,
        began: Vec::new(alloc),
        clients: Vec::new(alloc),
        topics: found_topics(rt, alloc, start.found),
    }
}

fn found_topics(rt: &impl Abort, alloc: Global, found: &[(u64, u16)]) -> Vec<TopicState> {
    let mut topics = Vec::new(alloc);
    if !found.is_empty() {
        put(rt, &mut topics, found_topic(rt, alloc, found));
    }
    topics
}

fn found_topic(rt: &impl Abort, alloc: Global, found_there: &[(u64, u16)]) -> TopicState {
    let mut found = ChannelState::new(alloc, channel(rt, "c"));
    for (n, attempts) in found_there {
        let message = message(rt, alloc, *n, *attempts, 0);
        let place = Place::Queued;
        put(rt, &mut found.copies, MessageCopy { message, place });
    }
    TopicState::new(alloc, topic(rt, "t"))
        .with_channel(alloc, found)
        .expect(rt, "memory")
}

// Stops at the first row of a table that doesn't hold.
fn all_hold(rt: &impl Abort, alloc: Global, table: &'static str) {
    for row in table.trim().split("\n\n") {
        check(rt, holds(rt, alloc, row), row);
    }
}

/// Clients and the daemon.
#[test]
fn of_clients(rt: HostRuntime) {
    all_hold(&rt, rt.alloc(), beats::BEATS);
    all_hold(&rt, rt.alloc(), faults::FAULTS);
    all_hold(&rt, rt.alloc(), told::STATISTICS);
    all_hold(&rt, rt.alloc(), turns::TURNS);
}

/// Channels and their copies.
#[test]
fn of_channels(rt: HostRuntime) {
    all_hold(&rt, rt.alloc(), channels::OWED);
    all_hold(&rt, rt.alloc(), channels::DEFERRED);
    all_hold(&rt, rt.alloc(), channels::GOING);
    all_hold(&rt, rt.alloc(), flights::SENDINGS);
    all_hold(&rt, rt.alloc(), flights::RETURNS);
}
