use crate::same;
use crate::text::{check_row, cut, number_of, rows_of, text_of};
use std::alloc::Global;
use std::process::Abort;
use v2_client::{FrameReader, GotFrame};
use v2_frame::{Frame, FrameKind};

/// The greatest size of a frame that the reader takes.
const LIMIT: u32 = 100;

// A name, a stream, its frames, each its kind and its text, with a `^` between them, and the place of the bad field behind them, or `none`.
static ROWS: &[u8] = b"\
nothing|||none~\
two frames|\0\0\0\x06\0\0\0\0OK\0\0\0\x05\0\0\0\x01E|response OK^error E|none~\
a size below that of the type|\0\0\0\x03||0~\
a size above the limit|\0\0\0\x65||0~\
a type above 2|\0\0\0\x04\0\0\0\x03||4~\
a type above 2 behind a frame|\0\0\0\x06\0\0\0\0OK\0\0\0\x64\0\0\0\x03|response OK|14~\
";

/// The kind of frame that a word says.
pub fn kind_of(rt: &impl Abort, word: &'static [u8]) -> FrameKind {
    match text_of(rt, word) {
        "response" => FrameKind::Response,
        "error" => FrameKind::Error,
        "message" => FrameKind::Message,
        _ => panic!(rt; "no kind of frame"),
    }
}

// What a reader gave: how many frames, whether each was the row's, and the place of a bad field.
#[derive(Clone, Copy)]
struct Given {
    count: usize,
    right: bool,
    bad: Option<u64>,
}

// Whether this is the frame of this number.
fn is_frame(rt: &impl Abort, frames: &[&'static [u8]], number: usize, frame: &Frame) -> bool {
    match frames.get(number) {
        Some(wanted) => {
            let (kind, text) = cut(wanted, b' ');
            frame.kind == kind_of(rt, kind) && same(frame.body.bytes(), text)
        }
        None => false,
    }
}

// Feeds the reader a piece, and asks it a few times.
fn take(
    rt: &impl Abort,
    reader: &mut FrameReader,
    frames: &[&'static [u8]],
    given: &mut Given,
    piece: &[u8],
) {
    reader.feed(piece).expect(rt, "memory");
    for _ in 0..3 {
        match reader.next() {
            GotFrame::Whole(frame) => {
                given.right = given.right && is_frame(rt, frames, given.count, &frame);
                given.count = given.count.saturating_add(1);
            }
            GotFrame::More => return,
            GotFrame::Bad(at) => given.bad = Some(at),
            GotFrame::Memory => panic!(rt; "memory"),
        }
    }
}

// What a reader gives where these two pieces are fed, and then the others byte by byte.
fn given_by(
    rt: &impl Abort,
    alloc: Global,
    frames: &[&'static [u8]],
    pieces: (&[u8], &[u8]),
    bytes: &[u8],
) -> Given {
    let mut reader = FrameReader::new(alloc, LIMIT).expect(rt, "memory");
    let mut given = Given {
        count: 0,
        right: true,
        bad: None,
    };
    take(rt, &mut reader, frames, &mut given, pieces.0);
    take(rt, &mut reader, frames, &mut given, pieces.1);
    for byte in bytes {
        take(rt, &mut reader, frames, &mut given, &[*byte]);
    }
    given
}

// Whether all frames were given, and the bad field that is wanted.
fn is_right(rt: &impl Abort, given: Given, count: usize, bad: &'static [u8]) -> bool {
    let is_bad = match given.bad {
        Some(at) => !same(bad, b"none") && at == number_of(rt, bad),
        None => same(bad, b"none"),
    };
    given.right && given.count == count && is_bad
}

// Whether it does for each cut into two pieces, and for pieces of one byte.
fn holds(rt: &impl Abort, alloc: Global, row: &'static [u8]) -> bool {
    let (_, rest) = cut(row, b'|');
    let (bytes, rest) = cut(rest, b'|');
    let (frames, bad) = cut(rest, b'|');
    let frames = rows_of(rt, alloc, frames, b'^');
    for place in 0..bytes.len().saturating_add(1) {
        let pieces = bytes.split_at(place.min(bytes.len()));
        let given = given_by(rt, alloc, &frames, pieces, b"");
        if !is_right(rt, given, frames.len(), bad) {
            return false;
        }
    }
    let given = given_by(rt, alloc, &frames, (b"", b""), bytes);
    is_right(rt, given, frames.len(), bad)
}

#[test]
fn rows(rt: HostRuntime) {
    for row in &rows_of(&rt, rt.alloc(), ROWS, b'~') {
        let (name, _) = cut(row, b'|');
        check_row(&rt, holds(&rt, rt.alloc(), row), name);
    }
}
