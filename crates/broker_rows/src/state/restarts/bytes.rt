//! One restart to the byte: what a stop wrote of a channel, and what the next run starts from and writes first.

use crate::folders::{files_of, listed, names_in, started};
use crate::made::{check, let_files_go, let_names_go, let_state_go, same};
use crate::state::names::keeps;
use broker_files::FoundNames;
use broker_state::{State, queued};
use nsq_base::Options;
use path_plain::NamedFile;
use std::alloc::Global;
use std::process::Abort;

/// The channel's data file: a queued message that was never sent, and then one in flight and one deferred, each sent once.
const DATA: &[u8] =
    b"\0\0\0\x1b\0\0\0\0\0\0\0\0\0\00000010000000002c\0\0\0\x1b\0\0\0\0\0\0\0\0\0\x010000010000000001b\0\0\0\x1b\0\0\0\0\0\0\0\0\0\x010000010000000000a";

/// Its metadata.
const POSITIONS: &[u8] = b"3\n0,0\n0,93\n";

/// Whether a file of the folder has these bytes.
fn has(files: &[NamedFile], name: &[u8], bytes: &[u8]) -> bool {
    for file in files {
        if same(file.name.bytes(), name) {
            return same(file.bytes.bytes(), bytes);
        }
    }
    false
}

/// How many copies are queued in the first channel of the first topic.
fn queued_first(state: &State) -> usize {
    match state.topics.first() {
        Some(topic) => match topic.channels.first() {
            Some(channel) => queued(&channel.copies),
            None => 0,
        },
        None => 0,
    }
}

/// Whether the run that starts from these names has three queued copies, no used id, and the next epoch in its file of names.
fn starts(rt: &impl Abort, alloc: Global, names: &FoundNames) -> bool {
    let options = Options::defaults(alloc).expect(rt, "memory");
    let state = started(rt, alloc, names, &options, 0);
    let starts = queued_first(&state) == 3
        && state.ids_used == 0
        && keeps(rt, alloc, &state, listed(rt, "NEXT_EPOCH"));
    let_state_go(state);
    starts
}

fn restarts(rt: &impl Abort, alloc: Global) -> bool {
    let files = files_of(rt, alloc, listed(rt, "LISTED"), "t:c c0 b1 a1");
    let names = names_in(rt, alloc, &files);
    let restarts = has(&files, b"t:c.diskqueue.000000.dat", DATA)
        && has(&files, b"t:c.diskqueue.meta.dat", POSITIONS)
        && starts(rt, alloc, &names);
    let_files_go(files);
    let_names_go(names);
    restarts
}

#[test]
fn a_restart(rt: HostRuntime) {
    check(&rt, restarts(&rt, rt.alloc()), "a restart");
}
