//! Rows of the crate `queue_sweep`: what a sweep of a folder leaves, what one leaves in which a call fails, and which names have the form of a
//! queue's file.
//!
//! A row is a text: its name; the files that are there before; the calls of the folder that fail, each from a number on and below another; the
//! calls that are made, in order; and what the files are then. The sweep answers a fault where calls fail, and else no error. Where files stand
//! behind `again`, another sweep answers no error and leaves these.
//!
//! The topic `t` with the channels `a` and `c` is listed, and `v` without one.

use crate::check;
use crate::folders::{all_told, folder_told, let_folder_go};
use crate::text::{call_of, cut_at, part, unknown};
use names_reading::read_names;
use nsq_fakes::{Called, FolderCall, MemFolder};
use queue_sweep::{Unswept, set_aside_unlisted};
use std::alloc::Global;
use std::process::Abort;

const LISTED: &[u8] =
    br#"{"topics":[{"name":"t","channels":[{"name":"a"},{"name":"c"}]},{"name":"v"}]}"#;

static ROWS: &'static str = "
an empty folder
    files: fails: calls: List left:

a name that is there already is replaced
    files: a.diskqueue.000000.dat is new; a.diskqueue.000000.dat.bad is old
    fails:
    calls: List Rename SyncNames
    left: a.diskqueue.000000.dat absent; a.diskqueue.000000.dat.bad is new

an unlisted channel of a listed topic
    files: nsqd.dat is names; t.diskqueue.000000.dat is topic; t:a.diskqueue.000000.dat is channel; t:b.diskqueue.000000.dat is gone;
        t:b.diskqueue.000001.dat.bad is bad; t:b.diskqueue.meta.dat.tmp is temp
    fails:
    calls: List Rename SyncNames
    left: nsqd.dat is names; t.diskqueue.000000.dat is topic; t:a.diskqueue.000000.dat is channel; t:b.diskqueue.000000.dat absent;
        t:b.diskqueue.000000.dat.bad is gone; t:b.diskqueue.000001.dat.bad is bad; t:b.diskqueue.meta.dat.tmp is temp

the files of two queues, and one sync
    files: a.diskqueue.000000.dat is 0; a.diskqueue.000001.dat is 1; a:b.diskqueue.meta.dat is meta
    fails:
    calls: List Rename Rename Rename SyncNames
    left: a.diskqueue.000000.dat absent; a.diskqueue.000001.dat absent; a:b.diskqueue.meta.dat absent;
        a.diskqueue.000000.dat.bad is 0; a.diskqueue.000001.dat.bad is 1; a:b.diskqueue.meta.dat.bad is meta

the listing
    files: a.diskqueue.000000.dat is first; a.diskqueue.meta.dat is second; t.diskqueue.meta.dat is listed
    fails: List 0 1
    calls: List
    left: a.diskqueue.000000.dat is first; a.diskqueue.meta.dat is second; a.diskqueue.000000.dat.bad absent
    again: a.diskqueue.000000.dat absent; a.diskqueue.000000.dat.bad is first; a.diskqueue.meta.dat absent;
        a.diskqueue.meta.dat.bad is second; t.diskqueue.meta.dat is listed

the first rename
    files: a.diskqueue.000000.dat is first; a.diskqueue.meta.dat is second; t.diskqueue.meta.dat is listed
    fails: Rename 0 1
    calls: List Rename
    left: a.diskqueue.000000.dat is first; a.diskqueue.meta.dat is second; a.diskqueue.000000.dat.bad absent
    again: a.diskqueue.000000.dat absent; a.diskqueue.000000.dat.bad is first; a.diskqueue.meta.dat absent;
        a.diskqueue.meta.dat.bad is second; t.diskqueue.meta.dat is listed

the second rename
    files: a.diskqueue.000000.dat is first; a.diskqueue.meta.dat is second; t.diskqueue.meta.dat is listed
    fails: Rename 1 2
    calls: List Rename Rename
    left: a.diskqueue.000000.dat absent; a.diskqueue.000000.dat.bad is first; a.diskqueue.meta.dat is second;
        a.diskqueue.meta.dat.bad absent
    again: a.diskqueue.000000.dat absent; a.diskqueue.000000.dat.bad is first; a.diskqueue.meta.dat absent;
        a.diskqueue.meta.dat.bad is second; t.diskqueue.meta.dat is listed

the sync of the names
    files: a.diskqueue.000000.dat is first; a.diskqueue.meta.dat is second; t.diskqueue.meta.dat is listed
    fails: SyncNames 0 1
    calls: List Rename Rename SyncNames
    left: a.diskqueue.000000.dat absent; a.diskqueue.000000.dat.bad is first; a.diskqueue.meta.dat absent;
        a.diskqueue.meta.dat.bad is second; t.diskqueue.meta.dat is listed
    again: a.diskqueue.000000.dat absent; a.diskqueue.000000.dat.bad is first; a.diskqueue.meta.dat absent;
        a.diskqueue.meta.dat.bad is second; t.diskqueue.meta.dat is listed
";

// These files are set aside, each in a folder of its own.
static MOVED: &str = "
    a.diskqueue.000000.dat
    a.diskqueue.meta.dat
    a.diskqueue.000012.dat
    a.diskqueue.1000000.dat
    a.diskqueue.18446744073709551615.dat
    a:c.diskqueue.000000.dat
    t:b.diskqueue.000000.dat
    t:b.diskqueue.meta.dat
    v:a.diskqueue.000000.dat
    t.diskqueue.diskqueue.000000.dat
    t.diskqueue.000000.dat.diskqueue.meta.dat
    b#ephemeral.diskqueue.000000.dat
";

// These files stay: listed queues', and those that have not the form of a queue's data file or metadata.
static STAYING: &str = "
    t.diskqueue.000000.dat
    t.diskqueue.1000000.dat
    t.diskqueue.meta.dat
    t:a.diskqueue.000001.dat
    t:a.diskqueue.meta.dat
    t:c.diskqueue.000000.dat
    v.diskqueue.000000.dat
    v.diskqueue.meta.dat
    nsqd.dat
    a.diskqueue.00000.dat
    a.diskqueue.0000000.dat
    a.diskqueue.0000001.dat
    a.diskqueue.18446744073709551616.dat
    a.diskqueue.+00001.dat
    a.diskqueue.00000x.dat
    a.diskqueue..dat
    a.diskqueue.meta.dat.tmp
    a.diskqueue.meta.dat.bad
    a.diskqueue.000000.dat.bad
    a.diskqueue.000000.DAT
    a.diskqueue000000.dat
    a%3A.diskqueue.000000.dat
    a b.diskqueue.000000.dat
    a:b:c.diskqueue.000000.dat
    :c.diskqueue.000000.dat
    a:.diskqueue.meta.dat
    .diskqueue.meta.dat
    a2345678901234567890123456789012345678901234567890123456789012345.diskqueue.meta.dat
";

// Whether a sweep by what is listed answers that error, or none.
fn sweeps(rt: &impl Abort, alloc: Global, folder: &mut MemFolder, error: Option<Unswept>) -> bool {
    match read_names(alloc, LISTED) {
        Ok(names) => match set_aside_unlisted(alloc, folder, &names.topics) {
            Ok(()) => error.is_none(),
            Err(Unswept::Fault) => matches!(error, Some(Unswept::Fault)),
            Err(Unswept::Memory) => matches!(error, Some(Unswept::Memory)),
        },
        Err(_) => unknown(rt, "what is listed"),
    }
}

// Whether these calls were made, in this order, and no other.
fn calls_are(rt: &impl Abort, folder: &MemFolder, calls: &str) -> bool {
    let called = folder.called();
    let mut place = 0usize;
    let mut all = true;
    for call in calls.split(' ') {
        all = all && is_call(called, place, call_of(rt, call));
        place = place.saturating_add(1);
    }
    all && place == called.len()
}

fn is_call(called: &[Called], place: usize, call: FolderCall) -> bool {
    match called.get(place) {
        Some(made) => made.call == call,
        None => false,
    }
}

// Whether a sweep of these files, in which these calls fail, makes these and leaves that, and another one that.
fn is_right(
    rt: &impl Abort,
    alloc: Global,
    files: &str,
    fails: &str,
    calls: &str,
    left: &str,
    again: &str,
) -> bool {
    let mut folder = folder_told(rt, alloc, files, fails);
    let error = if fails.is_empty() {
        None
    } else {
        Some(Unswept::Fault)
    };
    let right = sweeps(rt, alloc, &mut folder, error)
        && calls_are(rt, &folder, calls)
        && all_told(rt, alloc, &folder, left)
        && leaves(rt, alloc, &mut folder, again);
    let_folder_go(folder);
    right
}

// Whether another sweep leaves that, where something is told.
fn leaves(rt: &impl Abort, alloc: Global, folder: &mut MemFolder, again: &str) -> bool {
    again.is_empty() || sweeps(rt, alloc, folder, None) && all_told(rt, alloc, folder, again)
}

fn holds(rt: &impl Abort, alloc: Global, row: &str) -> bool {
    let (_, rest) = part(rt, row, "files:");
    let (files, rest) = part(rt, rest, "fails:");
    let (fails, rest) = part(rt, rest, "calls:");
    let (calls, rest) = part(rt, rest, "left:");
    let (left, again) = cut_at(rest, "again:");
    is_right(rt, alloc, files, fails.trim(), calls.trim(), left, again)
}

// Whether a file of that name, alone in a folder, is set aside.
fn is_set_aside(rt: &impl Abort, alloc: Global, name: &str) -> bool {
    let files = format!(in alloc; "{name} is x").expect(rt, "memory");
    let left = format!(in alloc; "{name} absent; {name}.bad is x").expect(rt, "memory");
    let calls = "List Rename SyncNames";
    is_right(rt, alloc, files.as_str(), "", calls, left.as_str(), "")
}

// The same, where the file stays.
fn stays(rt: &impl Abort, alloc: Global, name: &str) -> bool {
    let files = format!(in alloc; "{name} is x").expect(rt, "memory");
    is_right(rt, alloc, files.as_str(), "", "List", files.as_str(), "")
}

#[test]
fn rows(rt: HostRuntime) {
    for row in ROWS.trim().split("\n\n") {
        check(&rt, holds(&rt, rt.alloc(), row), row);
    }
}

#[test]
fn forms(rt: HostRuntime) {
    for name in MOVED.trim().split('\n') {
        let name = name.trim();
        check(&rt, is_set_aside(&rt, rt.alloc(), name), name);
    }
    for name in STAYING.trim().split('\n') {
        let name = name.trim();
        check(&rt, stays(&rt, rt.alloc(), name), name);
    }
}
