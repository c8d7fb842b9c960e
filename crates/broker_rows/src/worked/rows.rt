//! Whether a row holds, and the test over all tables.
//!
//! A row is a text: its name, behind `given` what a run starts from and a story, which is legal, behind `then` what happens then, and what all
//! that makes: `both`, a legal history in which its talks are conversations; `no history`, though its talks are conversations; or `no talk`, as the
//! last of its talks is no conversation in it, though it is a legal history.

use crate::folders::{files_of, listed, names_in, started};
use crate::lines::tell;
use crate::made::{
    SECOND, check, is, let_entries_go, let_files_go, let_names_go, let_state_go, let_states_go,
    part, unknown,
};
use crate::talks::conversation::is_talk;
use crate::worked::{channels, credit, moments, turns};
use broker_files::{FoundNames, is_all_left};
use broker_history::Entry;
use broker_state::State;
use broker_steps::led_to;
use nsq_base::Options;
use nsq_outside::End;
use std::alloc::Global;
use std::process::Abort;

/// What a run starts from: the size of memory, the time for a message, and the queues that a run left in the folder.
#[derive(Clone, Copy)]
struct Start {
    mem: u64,
    msg_timeout: u64,
    left: &'static str,
}

/// An empty folder, at the moment 0, with default options.
const EMPTY: Start = Start {
    mem: 10_000,
    msg_timeout: 60 * SECOND,
    left: "",
};

/// What the first run leaves: the third message with no attempt, the second and the first with one.
const LEFT: &str = "t:c c0 b1 a1";

/// The same, but for the attempts of the first.
const LEFT_OTHERWISE: &str = "t:c c0 b1 a0";

// What a run of these words starts from.
fn start_named(rt: &impl Abort, words: &str) -> Start {
    match words {
        "given" => EMPTY,
        "given no memory" => Start { mem: 0, ..EMPTY },
        "given a second for a message" => Start {
            msg_timeout: SECOND,
            ..EMPTY
        },
        "given what a run left" => Start {
            left: LEFT,
            ..EMPTY
        },
        _ => unknown(rt, words),
    }
}

// Whether the row's story is legal, and what happens then is what it says.
fn holds(rt: &impl Abort, alloc: Global, row: &str) -> bool {
    let (_, rest) = part(rt, row, "\n");
    let (start, rest) = part(rt, rest, ":");
    let (story, rest) = part(rt, rest, "then:");
    let start = start_named(rt, start.trim());
    let mut entries = Vec::new(alloc);
    tell(rt, alloc, &mut entries, story);
    let holds = is_legal(rt, alloc, &start, &entries, "")
        && goes_on(rt, alloc, &start, &mut entries, rest);
    let_entries_go(entries);
    holds
}

// Whether these entries and what happens then are what the row says.
fn goes_on(
    rt: &impl Abort,
    alloc: Global,
    start: &Start,
    entries: &mut Vec<(Entry, End)>,
    rest: &str,
) -> bool {
    let (then, rest) = part(rt, rest, "makes ");
    let (makes, talks) = part(rt, rest, ":");
    tell(rt, alloc, entries, then);
    if is(makes, "no talk") {
        is_legal(rt, alloc, start, entries, "") && is_last_wrong(rt, alloc, talks, entries)
    } else {
        is_history(rt, alloc, start, entries, makes) && are_talks(rt, alloc, talks, entries)
    }
}

// Whether the entries are such a history, or none.
fn is_history(
    rt: &impl Abort,
    alloc: Global,
    start: &Start,
    entries: &[(Entry, End)],
    makes: &str,
) -> bool {
    match makes {
        "both" => is_legal(rt, alloc, start, entries, ""),
        "both and leaves it all" => is_legal(rt, alloc, start, entries, LEFT),
        "no history" => !is_legal(rt, alloc, start, entries, ""),
        "a history that leaves its attempts" => {
            is_legal(rt, alloc, start, entries, "")
                && !is_legal(rt, alloc, start, entries, LEFT_OTHERWISE)
        }
        _ => unknown(rt, makes),
    }
}

// Whether the entries are legal from this start, and leave these queues.
fn is_legal(
    rt: &impl Abort,
    alloc: Global,
    from: &Start,
    entries: &[(Entry, End)],
    leaves: &str,
) -> bool {
    let start = start_of(rt, alloc, from);
    let states = led_to(alloc, &start, entries).expect(rt, "memory");
    let_state_go(start);
    let does_leave = match states.first() {
        Some(state) => does_leave(rt, alloc, state, leaves),
        None => false,
    };
    let_states_go(states);
    does_leave
}

// Whether an opening finds in these queues all that the state left, and nothing else; whatever it left where these are none.
fn does_leave(rt: &impl Abort, alloc: Global, state: &State, leaves: &str) -> bool {
    if leaves.is_empty() {
        return true;
    }
    let names = names_left(rt, alloc, leaves);
    let is_all = is_all_left(alloc, state, &names).expect(rt, "memory");
    let_names_go(names);
    is_all
}

// The state that a run starts from.
fn start_of(rt: &impl Abort, alloc: Global, from: &Start) -> State {
    let mut options = Options::defaults(alloc).expect(rt, "memory");
    options.mem_queue_size = from.mem;
    options.msg_timeout = from.msg_timeout;
    let names = names_left(rt, alloc, from.left);
    let state = started(rt, alloc, &names, &options, 0);
    let_names_go(names);
    state
}

// What an opening finds in a folder with these queues, which is empty where there are none.
fn names_left(rt: &impl Abort, alloc: Global, left: &str) -> FoundNames {
    let files = if left.is_empty() {
        Vec::new(alloc)
    } else {
        files_of(rt, alloc, listed(rt, "LISTED"), left)
    };
    let names = names_in(rt, alloc, &files);
    let_files_go(files);
    names
}

fn are_talks(rt: &impl Abort, alloc: Global, talks: &str, entries: &[(Entry, End)]) -> bool {
    for talk in talks.split(';') {
        if !is_talk(rt, alloc, talk.trim(), entries) {
            return false;
        }
    }
    true
}

// Whether the last of these is no conversation, and all before it are.
fn is_last_wrong(rt: &impl Abort, alloc: Global, talks: &str, entries: &[(Entry, End)]) -> bool {
    match talks.rsplit_once(";") {
        Some((before, last)) => {
            are_talks(rt, alloc, before, entries) && !is_talk(rt, alloc, last.trim(), entries)
        }
        None => !is_talk(rt, alloc, talks.trim(), entries),
    }
}

// Stops at the first row of a table that doesn't hold.
fn all_hold(rt: &impl Abort, alloc: Global, table: &'static str) {
    for row in table.trim().split("\n\n") {
        check(rt, holds(rt, alloc, row), row);
    }
}

#[test]
fn worked(rt: HostRuntime) {
    all_hold(&rt, rt.alloc(), credit::ROWS);
    all_hold(&rt, rt.alloc(), moments::ROWS);
    all_hold(&rt, rt.alloc(), channels::ROWS);
    all_hold(&rt, rt.alloc(), turns::ROWS);
}
