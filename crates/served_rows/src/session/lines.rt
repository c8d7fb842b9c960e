//! Conversations as lines in columns between `|`, of which the last ones may be missing: what a conversation is, and those that are named below. Texts are in
//! runs, with `+` between them; one behind which `*` and a number stand comes so many times.

use crate::lists::push;
use crate::text::spread;
use std::alloc::Global;
use std::process::Abort;

/// What the client sends, in pieces, each with `/` behind it; an empty one is a read that gives nothing.
pub const SENT: usize = 1;

/// The letters of all answers.
pub const ANSWERS: usize = 2;

/// The letters of all turns, reads and writes.
pub const CALLS: usize = 3;

/// How it ends.
pub const ENDED: usize = 4;

/// The letters of the frames that are written.
pub const WRITTEN: usize = 5;

/// The read or the write that fails, by its number.
pub const FAILS: usize = 6;

/// Whether memory is wanting `once`, for the Gone.
pub const WANTED: usize = 7;

/// The pieces of a column.
pub fn pieces_in(rt: &impl Abort, alloc: Global, sent: &str) -> Vec<Vec<u8>> {
    let mut pieces = Vec::new(alloc);
    for piece in sent.split_terminator('/') {
        push(rt, &mut pieces, spread(rt, alloc, piece));
    }
    pieces
}
