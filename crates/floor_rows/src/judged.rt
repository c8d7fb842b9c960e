//! The plain programs' judgement: what an opening finds in files, whether a run's entries are legal behind that, and whether all was kept.

use crate::texts::same;
use broker_files::{Finding, FoundNames, found, is_all_left, start};
use broker_history::Entry;
use broker_state::State;
use broker_steps::led_to;
use nsq_base::Options;
use nsq_outside::End;
use path_plain::NamedFile;
use std::alloc::Global;
use std::process::Abort;

// The last epoch.
const LAST_EPOCH: u32 = 16_777_215;

/// A run: the files that it began with, its first moment, what it noted, and whether it opened the files, or was the first one of all, whatever epoch
/// stands in them.
#[derive(Clone, Copy)]
pub struct Run<'a> {
    pub files: &'a [NamedFile],
    pub began: u64,
    pub entries: &'a [(Entry, End)],
    pub opened: bool,
}

/// What an opening of these files finds.
pub fn finding_of(rt: &impl Abort, alloc: Global, files: &[NamedFile]) -> Finding {
    found(alloc, files).expect(rt, "memory")
}

/// Takes what was found apart.
pub fn let_go(_finding: Finding) {}

/// Whether an opening of these files may be refused for this.
pub fn may_refuse(rt: &impl Abort, alloc: Global, files: &[NamedFile], why: &str) -> bool {
    let finding = finding_of(rt, alloc, files);
    let may = refuses(&finding, why.as_bytes());
    let_go(finding);
    may
}

// Whether what was found may be refused for this.
fn refuses(finding: &Finding, why: &[u8]) -> bool {
    match finding {
        Finding::BadData => !same(why, b"epoch-spent"),
        Finding::EpochSpent => !same(why, b"bad-data"),
        Finding::Names(_) => same(why, b"fault") || same(why, b"memory"),
    }
}

/// What is wrong with a run and, where these are given, with the files that it left to be found; nothing where all is right.
pub fn wrong_in(
    rt: &impl Abort,
    alloc: Global,
    options: &Options,
    run: Run<'_>,
    left: Option<&[NamedFile]>,
) -> &'static [u8] {
    let states = states_of(rt, alloc, options, run);
    let wrong: &'static [u8] = match left {
        _ if states.is_empty() => b"isn't legal",
        Some(left) if !is_kept(rt, alloc, &states, left) => b"keeps something else",
        _ => b"",
    };
    drop(states);
    wrong
}

// The states to which a run's entries lead from the start that its files give; none where they aren't legal.
fn states_of(rt: &impl Abort, alloc: Global, options: &Options, run: Run<'_>) -> Vec<State> {
    match begun(rt, alloc, options, run) {
        Some(state) => {
            let states = led_to(alloc, &state, run.entries).expect(rt, "memory");
            drop(state);
            states
        }
        None => Vec::new(alloc),
    }
}

// The start that a run's files give.
fn begun(rt: &impl Abort, alloc: Global, options: &Options, run: Run<'_>) -> Option<State> {
    let finding = finding_of(rt, alloc, run.files);
    let state = begun_by(rt, alloc, options, &finding, run);
    let_go(finding);
    state
}

fn begun_by(
    rt: &impl Abort,
    alloc: Global,
    options: &Options,
    finding: &Finding,
    run: Run<'_>,
) -> Option<State> {
    match finding {
        Finding::Names(names) if names.epoch < LAST_EPOCH => {
            let mut state = start(alloc, names, options, run.began).expect(rt, "memory");
            if !run.opened {
                state.epoch = 1;
            }
            Some(state)
        }
        _ => None,
    }
}

// Whether an opening of these files finds all that one of the states leaves, and nothing else. Behind the last epoch it finds that none is left.
fn is_kept(rt: &impl Abort, alloc: Global, states: &[State], files: &[NamedFile]) -> bool {
    let finding = finding_of(rt, alloc, files);
    let kept = keeps(rt, alloc, states, &finding);
    let_go(finding);
    kept
}

// Whether this finds all that one of the states leaves, and nothing else.
fn keeps(rt: &impl Abort, alloc: Global, states: &[State], finding: &Finding) -> bool {
    match finding {
        Finding::Names(names) => one_leaves(rt, alloc, states, names),
        Finding::EpochSpent => are_last(states),
        Finding::BadData => false,
    }
}

// Whether each state is of the last epoch.
fn are_last(states: &[State]) -> bool {
    for state in states {
        if state.epoch != LAST_EPOCH {
            return false;
        }
    }
    true
}

fn one_leaves(rt: &impl Abort, alloc: Global, states: &[State], names: &FoundNames) -> bool {
    for state in states {
        if is_all_left(alloc, state, names).expect(rt, "memory") {
            return true;
        }
    }
    false
}
