//! Whether a request is read as its row says: its name, a limit for bodies, the bytes of a connection, and what they are, which is
//! `unfinished`, `bad head`, `no length`, `too big`, or the method, the path, the pairs of the query and the body. `{5*x}` stands
//! for five times `x`.

use crate::http::pieces::is_read;
use crate::same;
use crate::text::{check_row, cut, number_of, rows_of};
use http_wire::Request;
use nsq_base::Pair;
use std::alloc::Global;
use std::process::Abort;
use streams_plain::{Plain, request_of};

/// Appends such bytes, so many times.
fn append(rt: &impl Abort, bytes: &mut Vec<u8>, run: &'static [u8]) {
    let (count, text) = cut(run, b'*');
    for _ in 0..number_of(rt, count) {
        bytes.extend_from_slice(text).expect(rt, "memory");
    }
}

/// The bytes that a text stands for.
fn bytes_of(rt: &impl Abort, alloc: Global, text: &'static [u8]) -> Vec<u8> {
    let mut bytes = Vec::new(alloc);
    for piece in &rows_of(rt, alloc, text, b'}') {
        let (front, run) = cut(piece, b'{');
        bytes.extend_from_slice(front).expect(rt, "memory");
        if !run.is_empty() {
            append(rt, &mut bytes, run);
        }
    }
    bytes
}

/// Whether it is this pair.
fn is_pair(pair: &Pair, wanted: &'static [u8]) -> bool {
    let (name, value) = cut(wanted, b'>');
    same(pair.name.bytes(), name) && same(pair.value.bytes(), value)
}

/// Whether these are the pairs.
fn are_pairs(pairs: &[Pair], wanted: &[&'static [u8]]) -> bool {
    if pairs.len() != wanted.len() {
        return false;
    }
    let mut all = true;
    for i in 0..wanted.len() {
        all = all && is_pair(&pairs[i], wanted[i]);
    }
    all
}

/// Whether this is the request.
fn is_request(rt: &impl Abort, alloc: Global, request: &Request, wanted: &'static [u8]) -> bool {
    let (method, rest) = cut(wanted, b'|');
    let (path, rest) = cut(rest, b'|');
    let (query, body) = cut(rest, b'|');
    let pairs = rows_of(rt, alloc, query, b'^');
    let body = bytes_of(rt, alloc, body);
    same(request.method.bytes(), method)
        && same(request.path.bytes(), path)
        && are_pairs(request.query.as_slice(), &pairs)
        && same(request.body.bytes(), &body)
}

/// Whether this is what is wanted.
fn is_wanted(rt: &impl Abort, alloc: Global, plain: &Plain, wanted: &'static [u8]) -> bool {
    match plain {
        Plain::Whole(request) => is_request(rt, alloc, request, wanted),
        Plain::Unfinished => same(wanted, b"unfinished"),
        Plain::BadHead => same(wanted, b"bad head"),
        Plain::NoLength => same(wanted, b"no length"),
        Plain::TooBig => same(wanted, b"too big"),
    }
}

/// Whether the plain program and the reader give what is wanted: the reader for all bytes, at each cut into two pieces, and
/// byte by byte, where it gives what the plain program does for the bytes so far. Long rows are cut at some places alone.
fn holds(
    rt: &impl Abort,
    alloc: Global,
    limit: u32,
    bytes: &'static [u8],
    wanted: &'static [u8],
) -> bool {
    let bytes = bytes_of(rt, alloc, bytes);
    let plain = request_of(alloc, limit, &bytes).expect(rt, "memory");
    is_wanted(rt, alloc, &plain, wanted) && is_read(alloc, limit, &bytes, &plain)
}

/// Checks a row.
pub(crate) fn check_request(rt: &impl Abort, alloc: Global, row: &'static [u8]) {
    let (name, rest) = cut(row, b'|');
    let (limit, rest) = cut(rest, b'|');
    let (bytes, wanted) = cut(rest, b'|');
    let limit = u32::try_from(number_of(rt, limit)).expect(rt, "a limit");
    check_row(rt, holds(rt, alloc, limit, bytes, wanted), name);
}
