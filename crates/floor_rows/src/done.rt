//! Calls that were made: what each answered, the entries of a turn, and whether these are in order.

use crate::answers::put_told;
use crate::calls::{call_of, let_call_go};
use crate::entries::{is_move, is_of, put_entry};
use crate::texts::{halves, parted, put, put_count, same};
use broker_history::{Call, Entry};
use nsq_outside::End;
use std::alloc::Global;
use std::process::Abort;

// So many entries of a turn are written out; of more its moves are counted.
const FEW: usize = 10;

/// A call that was made.
#[derive(Drop)]
pub struct Done {
    /// Its line.
    pub line: String,
    /// Its moment.
    pub at: u64,
    /// Its answer, as text.
    pub answer: Vec<u8>,
    /// How many entries were noted before it, behind its moves where it was made once more, and behind it.
    pub before: usize,
    pub between: usize,
    pub after: usize,
}

/// Whether the entries of a turn are in order: those of its first try are moves; all are its own or the daemon's, of its moment, and the last one
/// tells the answer.
pub fn is_in_order(rt: &impl Abort, alloc: Global, done: &Done, entries: &[(Entry, End)]) -> bool {
    let (line, _) = halves(&done.line, " => ");
    let (number, text) = parted(line);
    let Ok(number) = number.parse::<u64>() else {
        return true;
    };
    let first = entries.get(done.before..done.between).unwrap_or(&[]);
    let all = entries.get(done.before..done.after).unwrap_or(&[]);
    (are_moves(first) || done.between == done.after)
        && are_of_call(rt, alloc, all, done.at, number, text)
        && is_told(rt, alloc, all, &done.answer)
}

fn are_of_call(
    rt: &impl Abort,
    alloc: Global,
    entries: &[(Entry, End)],
    at: u64,
    number: u64,
    text: &str,
) -> bool {
    let Some(call) = call_of(rt, alloc, text) else {
        return false;
    };
    let are_of_call = are_of(entries, at, number, &call);
    let_call_go(call);
    are_of_call
}

fn are_moves(entries: &[(Entry, End)]) -> bool {
    for (entry, _) in entries {
        if !is_move(&entry.act) {
            return false;
        }
    }
    true
}

// Whether moves of the turn's moment and then one act of its call stand here, or moves alone.
fn are_of(entries: &[(Entry, End)], at: u64, number: u64, call: &Call) -> bool {
    let Some((last, moves)) = entries.split_last() else {
        return true;
    };
    are_moves(moves) && are_at(entries, at) && is_of(&last.0, number, call)
}

fn are_at(entries: &[(Entry, End)], at: u64) -> bool {
    for (entry, _) in entries {
        if entry.at != at {
            return false;
        }
    }
    true
}

// Whether the last entry tells the answer. Where there is none, the turn was answered that it is strange, or that the daemon stops.
fn is_told(rt: &impl Abort, alloc: Global, entries: &[(Entry, End)], answer: &[u8]) -> bool {
    let Some((entry, end)) = entries.last() else {
        return same(answer, b"strange") || same(answer, b"stopping");
    };
    let mut told = Vec::new(alloc);
    put_told(rt, &mut told, &entry.act, entry.at, *end);
    same(&told, answer)
}

/// The answer of a call and its entries, as they stand behind a line's arrow. Of many moves their number stands there.
pub fn put_done(rt: &impl Abort, out: &mut Vec<u8>, done: &Done, entries: &[(Entry, End)]) {
    put(rt, out, done.answer.as_slice());
    let entries = entries.get(done.before..done.after).unwrap_or(&[]);
    let many = if entries.len() > FEW {
        done_moves(entries)
    } else {
        0
    };
    let mut before: &[u8] = b" | ";
    if many > 0 {
        put_count(rt, out, b"|", many as u128);
        put(rt, out, b" moves");
        before = b"; ";
    }
    for (entry, end) in entries.get(many..).unwrap_or(&[]) {
        put(rt, out, before);
        put_entry(rt, out, &entry.act, *end);
        before = b"; ";
    }
}

// How many moves stand in front that were made.
fn done_moves(entries: &[(Entry, End)]) -> usize {
    let mut count: usize = 0;
    for (entry, end) in entries {
        if !is_move(&entry.act) || *end != End::Done {
            return count;
        }
        count = count.saturating_add(1);
    }
    count
}
