//! Those who are served at a bench, and whether each gets what it must.

use super::answers::put_got;
use super::bench::Bench;
use crate::conn::{Fails, Moment, Reads, Watch, WatchedConn, conn_of, let_go};
use crate::lists::{copied, push, put, same};
use crate::text::{bytes_of, column, moment, number, part, spread};
use std::alloc::Global;
use std::process::Abort;
use std::sync::Wait;

/// More than the bytes of any piece.
pub const WHOLE: usize = 1 << 24;

/// Someone who is served: what comes, and what must be seen of it.
#[derive(Drop)]
pub struct Caller<'a> {
    pub pieces: Vec<Vec<u8>>,
    /// The reads of a client of V2. A caller of HTTP has none.
    pub moments: Vec<Moment>,
    pub fails: Fails,
    /// How many bytes a write takes at most.
    pub most: usize,
    /// What must be written.
    pub written: Vec<u8>,
    /// How the connection must end.
    pub ended: &'a str,
}

/// Whether someone gets what it must, and ends so. All that it got stands in a list.
pub fn is_served<R: Abort + Wait>(
    rt: &R,
    bench: &mut Bench<'_>,
    caller: Caller<'_>,
    got: &mut Vec<u8>,
) -> bool {
    let is_served = gets(rt, bench, &caller, got);
    drop(caller);
    is_served
}

// The same of one that is lent.
fn gets<R: Abort + Wait>(
    rt: &R,
    bench: &mut Bench<'_>,
    caller: &Caller<'_>,
    got: &mut Vec<u8>,
) -> bool {
    let clock = bench.clock;
    let mut conn = WatchedConn {
        inner: conn_of(rt, bench.alloc, &caller.pieces, caller.fails),
        most: caller.most,
        watch: Watch::Reads(Reads {
            clock,
            moments: &caller.moments,
            count: 0,
            wrong: false,
        }),
    };
    let is_client = !caller.moments.is_empty();
    let ended = if is_client {
        bench.serve_client(rt, &mut conn)
    } else {
        bench.serve_caller(rt, &mut conn)
    };
    got.clear();
    put(rt, got, conn.written());
    let went = conn.went() || !is_client;
    let_go(conn);
    went && same(ended.as_bytes(), caller.ended.as_bytes()) && same(got, &caller.written)
}

/// Adds the pieces in which bytes come, so many at a time.
pub fn add_pieces(
    rt: &impl Abort,
    alloc: Global,
    pieces: &mut Vec<Vec<u8>>,
    bytes: &[u8],
    size: usize,
) {
    if bytes.is_empty() {
        push(rt, pieces, Vec::new(alloc));
    }
    let mut rest = bytes;
    for _ in 0..bytes.len() {
        if rest.is_empty() {
            break;
        }
        let (piece, after) = rest.split_at(size.max(1).min(rest.len()));
        push(rt, pieces, copied(rt, alloc, piece));
        rest = after;
    }
}

/// The pieces of a caller of HTTP, so many bytes at a time.
pub fn sent_by(rt: &impl Abort, alloc: Global, sends: &str, size: usize) -> Vec<Vec<u8>> {
    let mut pieces = Vec::new(alloc);
    for text in sends.split_terminator('|') {
        add_pieces(rt, alloc, &mut pieces, &spread(rt, alloc, text), size);
    }
    pieces
}

/// The client of V2 that these words say: how it ends, `:`, and what comes with each read of its connection, with ` / ` between, in columns between `|`: what
/// the clock shows from the read on; the bytes that come, none where nothing comes; what is written before the next read, with `, ` between; and what is written
/// instead where the bytes come in two pieces that are cut before the byte of a number or later, behind this number and `: `. One that ends by itself is read
/// once more. Its piece is cut before the byte of this number.
pub fn client_of<'a>(rt: &impl Abort, alloc: Global, words: &'a str, place: usize) -> Caller<'a> {
    let (ended, reads) = part(rt, words, ": ");
    let mut client = Caller {
        pieces: Vec::new(alloc),
        moments: Vec::new(alloc),
        fails: Fails::Nothing,
        most: WHOLE,
        written: Vec::new(alloc),
        ended,
    };
    let mut at = 0;
    for line in reads.split(" / ") {
        at = moment(rt, column(line, 0));
        add(rt, alloc, &mut client, line, at, place);
    }
    if same(ended.as_bytes(), b"end") {
        mark(rt, &mut client, at);
    }
    client
}

// A read comes at this moment, before which all must be written.
fn mark(rt: &impl Abort, client: &mut Caller<'_>, at: u64) {
    let written = Some(client.written.len());
    push(rt, &mut client.moments, Moment { at, written });
}

// One more line. Where its bytes are cut, their first part comes with a read of its own.
fn add(rt: &impl Abort, alloc: Global, client: &mut Caller<'_>, line: &str, at: u64, place: usize) {
    let sends = bytes_of(rt, alloc, column(line, 1));
    let place = place.min(sends.len());
    let (front, rest) = sends.split_at(place);
    mark(rt, client, at);
    if place != 0 {
        push(rt, &mut client.pieces, copied(rt, alloc, front));
        push(rt, &mut client.moments, Moment { at, written: None });
    }
    push(rt, &mut client.pieces, copied(rt, alloc, rest));
    for gets in written_by(rt, line, place).split_terminator(", ") {
        put_got(rt, &mut client.written, gets);
    }
}

// What a line writes where its bytes are cut before the byte of this number.
fn written_by<'a>(rt: &impl Abort, line: &'a str, place: usize) -> &'a str {
    match column(line, 3).split_once(": ") {
        Some((from, instead)) if number(rt, from) <= place as u64 => instead,
        _ => column(line, 2),
    }
}
