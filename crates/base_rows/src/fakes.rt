//! Rows of the fakes in memory.

mod clock;
mod conn;
mod folder;
mod host;
mod journal;
mod threads;

use crate::same;
use crate::words::{halves, is, numbers};
use nsq_base::Body;
use nsq_fakes::{MemConn, Piece};
use std::alloc::Global;
use std::process::Abort;

/// A connection that gives these pieces, with a `|` between them, and fails at the reads and the writes of these numbers. `nothing` is a mark
/// that nothing has come yet; of an empty text there is no piece.
fn made_conn(
    rt: &impl Abort,
    alloc: Global,
    pieces: &str,
    read_fails: &str,
    write_fails: &str,
) -> MemConn {
    let mut list = Vec::new(alloc);
    if !pieces.is_empty() {
        push_pieces(rt, alloc, pieces, &mut list);
    }
    let read_fails = numbers(rt, alloc, read_fails);
    let write_fails = numbers(rt, alloc, write_fails);
    MemConn::new(alloc, list, read_fails, write_fails).expect(rt, "memory")
}

fn push_pieces(rt: &impl Abort, alloc: Global, pieces: &str, list: &mut Vec<Piece>) {
    for piece in pieces.split('|') {
        list.push(if is(piece, "nothing") {
            Piece::Nothing
        } else {
            Piece::Bytes(Body::copy(alloc, piece.as_bytes()).expect(rt, "memory"))
        })
        .expect(rt, "memory");
    }
}

/// Whether these are the bytes of a list, one by one, with a `|` between them. None is empty.
fn are(list: &[Vec<u8>], want: &str) -> bool {
    let mut all = true;
    let mut left = want;
    for bytes in list {
        let (item, behind) = halves(left, "|");
        all = all && !item.is_empty() && same(bytes, item.as_bytes());
        left = behind;
    }
    all && left.is_empty()
}
