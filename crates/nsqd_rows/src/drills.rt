//! What drills noted and left, as the plain programs judge it.
//!
//! A row is a drill; one function says what differs in it, and one test names the row that doesn't hold.

use crate::files::add_file;
use crate::judged::{is_kept, is_talk, states_of};
use crate::texts::{check_none, cut, number};
use broker_history::{Ended, Entry};
use daemon_main::{Drilled, drill, drill_options};
use nsq_fakes::{MemConn, MemFolder};
use nsq_outside::End;
use path_plain::NamedFile;
use std::alloc::Global;
use std::process::Abort;
use std::sync::Wait;

// The names of all files that a drill may leave.
static NAMES: &'static str = r#"nsqd.dat
t0.diskqueue.meta.dat
t0.diskqueue.000000.dat
t0:c.diskqueue.meta.dat
t0:c.diskqueue.000000.dat
t1.diskqueue.meta.dat
t1.diskqueue.000000.dat
t1:c.diskqueue.meta.dat
t1:c.diskqueue.000000.dat
t2.diskqueue.meta.dat
t2.diskqueue.000000.dat
t2:c.diskqueue.meta.dat
t2:c.diskqueue.000000.dat
t3.diskqueue.meta.dat
t3.diskqueue.000000.dat
t3:c.diskqueue.meta.dat
t3:c.diskqueue.000000.dat"#;

// Drills: the seed and the count, and how many messages are sent and left then.
static ROWS: &'static str = "7 0 0 0\n7 10 10 0\n3 24 24 0";

fn files_of(rt: &impl Abort, alloc: Global, folder: &MemFolder) -> Vec<NamedFile> {
    let mut files = Vec::new(alloc);
    for name in NAMES.split('\n') {
        if let Some(bytes) = folder.file(name) {
            add_file(rt, alloc, &mut files, name, bytes);
        }
    }
    files
}

// Whether these are five connections, of which each had a conversation that came to the end of its input.
fn are_talks(
    rt: &impl Abort,
    alloc: Global,
    entries: &[(Entry, End)],
    back: &[(u64, MemConn)],
) -> bool {
    for (number, conn) in back {
        if !is_talk(rt, alloc, entries, *number, conn, &[Ended::EndOfInput]) {
            return false;
        }
    }
    back.len() == 5
}

// What is wrong with what a drill noted and left, if something is.
fn judged(rt: &impl Abort, alloc: Global, drilled: &Drilled) -> Option<&'static str> {
    let Some(kit) = drilled.host.kit() else {
        return Some("the kit");
    };
    let entries = kit.journal.entries();
    if !are_talks(rt, alloc, entries, drilled.host.back()) {
        return Some("a conversation");
    }
    let files = files_of(rt, alloc, &kit.folder);
    history_wrong(rt, alloc, entries, &files)
}

// What is wrong with entries that left these files, from an empty folder.
fn history_wrong(
    rt: &impl Abort,
    alloc: Global,
    entries: &[(Entry, End)],
    files: &[NamedFile],
) -> Option<&'static str> {
    let options = drill_options(alloc).expect(rt, "memory");
    let states = states_of(rt, alloc, &options, &[], 0, entries);
    drop(options);
    let wrong = if states.is_empty() {
        Some("the history isn't legal")
    } else if !is_kept(rt, alloc, &states, files) {
        Some("something else is kept")
    } else {
        None
    };
    drop(states);
    wrong
}

// What differs in a row, if something does.
fn row_wrong<R: Abort + Wait>(rt: &R, alloc: Global, row: &str) -> Option<&'static str> {
    let (seed, numbers) = cut(row);
    let (count, numbers) = cut(numbers);
    let (seed, count) = (number(rt, seed), number(rt, count));
    if seed > 1 << 59 || count > 100_000 {
        return Some("no drill");
    }
    let drilled = drill(rt, alloc, seed, count).expect(rt, "memory");
    let wrong = drilled_wrong(rt, alloc, count, numbers, &drilled);
    drop(drilled);
    wrong
}

// What differs in what a drill of so many messages came to.
fn drilled_wrong(
    rt: &impl Abort,
    alloc: Global,
    count: u64,
    numbers: &str,
    drilled: &Drilled,
) -> Option<&'static str> {
    let (sent, left) = cut(numbers);
    if drilled.published != count
        || drilled.sent != number(rt, sent)
        || drilled.left != number(rt, left)
    {
        return Some("the numbers");
    }
    if drilled.published.checked_sub(drilled.finished) != Some(drilled.left) {
        return Some("what is left");
    }
    judged(rt, alloc, drilled)
}

#[test]
fn judged_drills(rt: HostRuntime) {
    for row in ROWS.split('\n') {
        check_none(&rt, row, row_wrong(&rt, rt.alloc(), row));
    }
}
