//! The plain programs' judgement: what an opening finds in files, whether a run's entries are legal behind that, whether each caller had a conversation or
//! an exchange, and whether all was kept.

ghost use Rattle.nsq_base.specs.Options.{IsInRange};

use crate::exchanges::is_exchange;
use crate::hosts::Outcome;
use crate::texts::same;
use broker_files::{Finding, FoundNames, found, is_all_left, start};
use broker_history::{Ended, Entry};
use broker_state::State;
use broker_steps::led_to;
use broker_talks::is_talk_in;
use nsq_base::{Body, Options};
use nsq_fakes::MemConn;
use nsq_outside::{End, Kind};
use path_plain::NamedFile;
use std::alloc::Global;
use std::process::Abort;
use v2_frame::Limits;

/// The limits of each connection, those of the default options.
const LIMITS: Limits = Limits {
    msg: 1_048_576,
    body: 5_242_880,
};

// The line of an opening at which the folder failed.
const DISK_FAULT: &[u8] = b"nsqd: data path: disk fault";

// The last epoch.
const LAST_EPOCH: u32 = 16_777_215;

/// What is wrong with what a run over these files noted, with these options and the clock's first reading, or with the files that it left: where it opened the
/// files and ended with status 0 they keep all that they must. Then these files are those that it left.
pub fn noted_wrong(
    rt: &impl Abort,
    alloc: Global,
    options: &Options,
    began: u64,
    files: &mut Vec<NamedFile>,
    outcome: &mut Outcome,
) -> Option<&'static str> {
    let rightly_shut = is_rightly_shut(rt, alloc, files, outcome);
    let states = states_of(rt, alloc, options, files, began, outcome.entries());
    outcome.leave(rt, alloc, files);
    let wrong = states_wrong(rt, alloc, &states, files, outcome);
    drop(states);
    if rightly_shut {
        wrong
    } else {
        Some("the refusal")
    }
}

// What is wrong with the states to which the entries of a run lead, or with the files that it left.
fn states_wrong(
    rt: &impl Abort,
    alloc: Global,
    states: &[State],
    files: &[NamedFile],
    outcome: &Outcome,
) -> Option<&'static str> {
    if !outcome.has_opened() {
        None
    } else if states.is_empty() {
        Some("the history isn't legal")
    } else if outcome.status == 0 && !is_kept(rt, alloc, states, files) {
        Some("something else is kept")
    } else {
        None
    }
}

// Whether a run over these files that didn't open them noted nothing, and was refused with a line that fits what is found there, if it was.
fn is_rightly_shut(rt: &impl Abort, alloc: Global, files: &[NamedFile], outcome: &Outcome) -> bool {
    outcome.has_opened()
        || outcome.entries().is_empty()
            && (outcome.status != 2 || may_refuse(rt, alloc, files, outcome.line()))
}

// Whether an opening of these files may be refused with this line.
fn may_refuse(rt: &impl Abort, alloc: Global, files: &[NamedFile], line: &[u8]) -> bool {
    let finding = found(alloc, files).expect(rt, "memory");
    let may = same(line, DISK_FAULT) || same(line, refusal(&finding));
    let_go(finding);
    may
}

// Takes what was found apart.
fn let_go(_finding: Finding) {}

// The line with which what was found is refused: that of a folder that failed, where nothing else is wrong with it.
fn refusal(finding: &Finding) -> &'static [u8] {
    match finding {
        Finding::BadData => b"nsqd: data path: bad data",
        Finding::EpochSpent => b"nsqd: data path: ids spent",
        Finding::Names(_) => DISK_FAULT,
    }
}

/// The states to which entries lead from the start that an opening of these files gives at a moment; none where they aren't legal.
pub fn states_of(
    rt: &impl Abort,
    alloc: Global,
    options: &Options,
    files: &[NamedFile],
    began: u64,
    entries: &[(Entry, End)],
) -> Vec<State> {
    match begun(rt, alloc, options, files, began) {
        Some(state) => {
            let states = led_to(alloc, &state, entries).expect(rt, "memory");
            drop(state);
            states
        }
        None => Vec::new(alloc),
    }
}

fn begun(
    rt: &impl Abort,
    alloc: Global,
    options: &Options,
    files: &[NamedFile],
    began: u64,
) -> Option<State> {
    let finding = found(alloc, files).expect(rt, "memory");
    let state = begun_by(rt, alloc, options, &finding, began);
    let_go(finding);
    state
}

fn begun_by(
    rt: &impl Abort,
    alloc: Global,
    options: &Options,
    finding: &Finding,
    began: u64,
) -> Option<State> {
    match finding {
        Finding::Names(names) if names.epoch < LAST_EPOCH => {
            Some(start(alloc, names, options, began).expect(rt, "memory"))
        }
        _ => None,
    }
}

/// Whether an opening of these files finds all that one of the states leaves, and nothing else. Behind the last epoch it finds that none is left.
pub fn is_kept(rt: &impl Abort, alloc: Global, states: &[State], files: &[NamedFile]) -> bool {
    let finding = found(alloc, files).expect(rt, "memory");
    let kept = keeps(rt, alloc, states, &finding);
    let_go(finding);
    kept
}

// Whether this finds all that one of the states leaves, and nothing else.
fn keeps(rt: &impl Abort, alloc: Global, states: &[State], finding: &Finding) -> bool {
    match finding {
        Finding::Names(names) => one_leaves(rt, alloc, states, names),
        Finding::EpochSpent => are_last(states),
        Finding::BadData => false,
    }
}

// Whether each state is of the last epoch.
fn are_last(states: &[State]) -> bool {
    for state in states {
        if state.epoch != LAST_EPOCH {
            return false;
        }
    }
    true
}

fn one_leaves(rt: &impl Abort, alloc: Global, states: &[State], names: &FoundNames) -> bool {
    for state in states {
        if is_all_left(alloc, state, names).expect(rt, "memory") {
            return true;
        }
    }
    false
}

/// Whether the caller at this place was handed back under its number: one of TCP had a conversation that ended in one of these ways, one of HTTP an
/// exchange.
pub fn is_served(
    rt: &impl Abort,
    alloc: Global,
    options: &Options,
    began: u64,
    outcome: &Outcome,
    place: usize,
    endings: &[Ended],
) -> bool
    requires { IsInRange options.now }
{
    let Some((number, kind, conn)) = outcome.caller(place) else {
        return false;
    };
    if number.checked_sub(1) != Some(place as u64) {
        return false;
    }
    match kind {
        Kind::Tcp => is_talk(rt, alloc, outcome.entries(), number, conn, endings),
        Kind::Http => is_exchange(rt, alloc, options, began, outcome, number, conn),
    }
}

/// Whether what a connection sent, its entries and what it got are a conversation that ended in one of these ways.
pub fn is_talk(
    rt: &impl Abort,
    alloc: Global,
    entries: &[(Entry, End)],
    number: u64,
    conn: &MemConn,
    endings: &[Ended],
) -> bool {
    let pieces = pieces_of(rt, alloc, conn);
    has_ended(
        rt,
        alloc,
        entries,
        number,
        &pieces,
        conn.bytes_written(),
        endings,
    )
}

// The same, where these pieces were read and this was written.
fn has_ended(
    rt: &impl Abort,
    alloc: Global,
    entries: &[(Entry, End)],
    number: u64,
    pieces: &[Body],
    out: &[u8],
    endings: &[Ended],
) -> bool {
    for ended in endings {
        if is_talk_in(alloc, LIMITS, number, entries, 0, pieces, out, *ended).expect(rt, "memory") {
            return true;
        }
    }
    false
}

fn pieces_of(rt: &impl Abort, alloc: Global, conn: &MemConn) -> Vec<Body> {
    let mut pieces = Vec::new(alloc);
    for piece in conn.pieces_read() {
        let piece = Body::copy(alloc, piece).expect(rt, "memory");
        pieces.push(piece).expect(rt, "memory");
    }
    pieces
}
