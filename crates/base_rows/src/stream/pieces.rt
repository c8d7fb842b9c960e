//! Readers that are fed in pieces: a name, the most bytes of a message, and steps with a `;` between them.
//!
//! - `feed:BYTES` feeds a piece, and `feed-many:COUNT` so many bytes `x` as one.
//! - `feed-pieces:PIECES COUNT` feeds so many pieces, each of so many bytes `x`, and before each the reader gives nothing.
//! - `gives:COUNT REST`: the reader has given so many commands by then, and this is behind them.

use crate::stream::reads::{Reading, printed};
use crate::stream::streams::rest_of;
use crate::text::{check_row, cut, number_of, rows_of, text_of};
use std::alloc::Global;
use std::process::Abort;
use streams_plain::script_of;
use v2_frame::{Limits, Rest};

static ROWS: &[u8] = b"\
a body of forty pieces of a hundred bytes, and the fault behind it, which stays^4000^feed:  V2PUB t\n\0\0\x0f\xa0;feed-pieces:40 100;\
feed:NOP\nNOP \n;gives:2 4018|E_INVALID bad command;feed:NOP\n;gives:2 4018|E_INVALID bad command;feed:NOP\n;\
gives:2 4018|E_INVALID bad command~\
16,385 bytes without an end^5^feed:  V2NOP\n;feed-many:16385;gives:1 unfinished~\
16,386 bytes without an end^5^feed:  V2NOP\n;feed-many:16386;gives:1 8|E_INVALID line too long;gives:1 8|E_INVALID line too long~\
a line of 16,385 bytes, and its end later^5^feed:  V2NOP\n;feed-many:16385;gives:1 unfinished;feed:\n;gives:1 8|E_INVALID line too long~\
";

// Feeds a piece, and keeps it.
fn feed(rt: &impl Abort, reading: &mut Reading, bytes: &mut Vec<u8>, piece: &[u8]) {
    reading.feed(rt, piece);
    bytes.extend_from_slice(piece).expect(rt, "memory");
}

// So many pieces, each of so many bytes: before each the reader gives nothing.
fn feeds(
    rt: &impl Abort,
    reading: &mut Reading,
    bytes: &mut Vec<u8>,
    pieces: u64,
    piece: &[u8],
) -> bool {
    for _ in 0..pieces {
        let before = reading.count();
        if reading.take(rt) != Rest::Unfinished || reading.count() != before {
            return false;
        }
        feed(rt, reading, bytes, piece);
    }
    true
}

// So many bytes.
fn many(rt: &impl Abort, alloc: Global, count: &'static [u8]) -> Vec<u8> {
    let mut bytes = Vec::new(alloc);
    for _ in 0..number_of(rt, count) {
        bytes.push(b'x').expect(rt, "memory");
    }
    bytes
}

// Takes the step, and says whether the reader answers as it must. What was fed is kept.
fn answers(
    rt: &impl Abort,
    alloc: Global,
    reading: &mut Reading,
    bytes: &mut Vec<u8>,
    step: &'static [u8],
) -> bool {
    let (what, rest) = cut(step, b':');
    let (count, behind) = cut(rest, b' ');
    match text_of(rt, what) {
        "feed" => feed(rt, reading, bytes, rest),
        "feed-many" => feed(rt, reading, bytes, &many(rt, alloc, count)),
        "feed-pieces" => {
            let piece = many(rt, alloc, behind);
            return feeds(rt, reading, bytes, number_of(rt, count), &piece);
        }
        "gives" => {
            return reading.take(rt) == rest_of(rt, behind)
                && reading.count() as u64 == number_of(rt, count);
        }
        _ => return false,
    }
    true
}

// Whether the reader gave what the plain program finds in these bytes.
fn is_script(
    rt: &impl Abort,
    alloc: Global,
    limits: Limits,
    reading: &mut Reading,
    bytes: &[u8],
) -> bool {
    let (commands, rest) = script_of(alloc, limits, bytes).expect(rt, "memory");
    let text = printed(rt, alloc, &commands);
    reading.finds(rt, alloc, text.as_str(), rest)
}

// Whether each step is answered as it must be, and the reader gave what the plain program finds in all that was fed.
fn holds(rt: &impl Abort, alloc: Global, row: &'static [u8]) -> bool {
    let (_, rest) = cut(row, b'^');
    let (most, steps) = cut(rest, b'^');
    let limits = Limits {
        msg: text_of(rt, most).parse::<u32>().expect(rt, "a number"),
        body: 100,
    };
    let mut reading = Reading::new(rt, alloc, limits);
    let mut bytes = Vec::new(alloc);
    let mut all = true;
    for step in &rows_of(rt, alloc, steps, b';') {
        all = all && answers(rt, alloc, &mut reading, &mut bytes, step);
    }
    all && is_script(rt, alloc, limits, &mut reading, &bytes)
}

#[test]
fn rows(rt: HostRuntime) {
    for row in &rows_of(&rt, rt.alloc(), ROWS, b'~') {
        let (name, _) = cut(row, b'^');
        check_row(&rt, holds(&rt, rt.alloc(), row), name);
    }
}
