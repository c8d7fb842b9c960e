//! From a stop to the next start: whether a folder's files are what a run left, and what the next run starts from.
//!
//! A row is a text: its name, whether this is what the run left, what it ended in, the file of names, and each queue's messages as a stop wrote
//! them, each its letter and its attempts. A run that follows it starts from that.

use crate::folders::{files_of, listed, names_in, started};
use crate::made::{cut, let_files_go, let_names_go, let_state_go, part, unknown};
use crate::state::given::state;
use broker_files::{FoundNames, is_all_left};
use nsq_base::Options;
use std::alloc::Global;
use std::process::Abort;

mod bytes;
mod rows;

/// Whether the run that starts with these names has the epoch behind this one, and all of them.
fn follows(rt: &impl Abort, alloc: Global, epoch: u32, names: &FoundNames) -> bool {
    let options = Options::defaults(alloc).expect(rt, "memory");
    let next = started(rt, alloc, names, &options, 5);
    let follows = next.epoch == epoch.saturating_add(1)
        && next.ids_used == 0
        && next.moment == 5
        && next.topics.len() == names.topics.len();
    let_state_go(next);
    follows
}

/// Whether the run left these names, and the next run, which has the next epoch, starts with all of them.
fn goes_on(rt: &impl Abort, alloc: Global, given: &str, names: &FoundNames) -> bool {
    let before = state(rt, alloc, given);
    let is_all = is_all_left(alloc, &before, names).expect(rt, "memory");
    let epoch = before.epoch;
    let_state_go(before);
    is_all && follows(rt, alloc, epoch, names)
}

fn holds(rt: &impl Abort, alloc: Global, row: &str) -> bool {
    let (_, rest) = part(rt, row, "\n");
    let (label, rest) = part(rt, rest, ": ");
    let (ended, rest) = part(rt, rest, " / ");
    let (text, queues) = cut(rest);
    let files = files_of(rt, alloc, listed(rt, text), queues);
    let names = names_in(rt, alloc, &files);
    let left = goes_on(rt, alloc, rows::given_of(rt, ended), &names);
    let_files_go(files);
    let_names_go(names);
    match label.trim() {
        "left" => left,
        "not left" => !left,
        _ => unknown(rt, label),
    }
}
