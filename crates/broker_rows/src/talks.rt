//! Conversations in rounds: the pieces that a client sent, the entries of its connection and the bytes that it got, and how they can
//! have ended. The limits are the daemon's own.
//!
//! A row is a text: its name, behind `told` whether a Stop stands before its Gone or some of its turns wanted memory, and the entries of the
//! connection 1; behind `sent` the pieces, with a `/` between them; behind `got` the bytes; behind `ended` an ending with which all that is a
//! conversation, if there is one, and one with which it isn't.

use crate::lines::tell;
use crate::made::{check, let_entries_go, part, same, unknown};
use crate::talks::conversation::{LIMITS, ended_so, out_of, pieces_of};
use broker_history::Entry;
use broker_talks::is_talk;
use nsq_base::Body;
use nsq_outside::End;
use std::alloc::Global;
use std::process::Abort;

mod among;
mod broken;
pub mod conversation;
mod ended;
mod served;
mod within;
mod words;

// Whether these are a conversation that ended so.
fn ends(
    rt: &impl Abort,
    alloc: Global,
    label: &str,
    pieces: &[Body],
    entries: &[(Entry, End)],
    out: &[u8],
    ended: &str,
) -> bool {
    let (stopped, wanted) = match label {
        "told" => (false, 0),
        "told with a stop" => (true, 0),
        "told with one turn in want" => (false, 1),
        "told with two turns in want" => (false, 2),
        _ => unknown(rt, label),
    };
    let ended = ended_so(rt, ended);
    is_talk(alloc, LIMITS, stopped, wanted, pieces, entries, out, ended).expect(rt, "memory")
}

// Whether these are a conversation that ended as the row says, and none that ended as it denies.
fn ends_so(
    rt: &impl Abort,
    alloc: Global,
    label: &str,
    pieces: &[Body],
    entries: &[(Entry, End)],
    out: &[u8],
    ended: &str,
) -> bool {
    let (is, is_not) = part(rt, ended, ", not ");
    (same(is.as_bytes(), b"never") || ends(rt, alloc, label, pieces, entries, out, is))
        && !ends(rt, alloc, label, pieces, entries, out, is_not)
}

fn holds(rt: &impl Abort, alloc: Global, row: &str) -> bool {
    let (_, rest) = part(rt, row, "\n");
    let (label, rest) = part(rt, rest, ":");
    let (told, rest) = part(rt, rest, "sent:");
    let (sent, rest) = part(rt, rest, "got:");
    let (got, ended) = part(rt, rest, "ended ");
    let pieces = pieces_of(rt, alloc, sent);
    let out = out_of(rt, alloc, got);
    let mut entries = Vec::new(alloc);
    tell(rt, alloc, &mut entries, told);
    let holds = ends_so(rt, alloc, label.trim(), &pieces, &entries, &out, ended);
    let_entries_go(entries);
    holds
}

// Stops at the first row of a table that doesn't hold.
fn all_hold(rt: &impl Abort, alloc: Global, table: &'static str) {
    for row in table.trim().split("\n\n") {
        check(rt, holds(rt, alloc, row), row);
    }
}

#[test]
fn rows(rt: HostRuntime) {
    all_hold(&rt, rt.alloc(), broken::ROWS);
    all_hold(&rt, rt.alloc(), ended::ROWS);
    all_hold(&rt, rt.alloc(), served::ROWS);
    all_hold(&rt, rt.alloc(), within::ROWS);
}
