use crate::same;
use crate::stream::frames_read::kind_of;
use crate::text::{check_row, cut, rows_of};
use nsq_base::Body;
use std::alloc::Global;
use std::process::Abort;
use v2_frame::{Frame, FrameKind, write_frame, write_frame_of};

// A name, a frame's kind and its text, and the bytes that it is written as.
static ROWS: &[u8] = b"\
OK|response|OK|\0\0\0\x06\0\0\0\0OK~\
an error|error|E_FIN_FAILED message not in flight|\0\0\0\x26\0\0\0\x01E_FIN_FAILED message not in flight~\
a message|message|\0\0\0\0\0\0\0\0\0\x010000010000000000a|\0\0\0\x1f\0\0\0\x02\0\0\0\0\0\0\0\0\0\x010000010000000000a~\
no text|response||\0\0\0\x04\0\0\0\0~\
";

// Whether the frame is written as these bytes.
fn writes(rt: &impl Abort, alloc: Global, frame: &Frame, bytes: &[u8]) -> bool {
    if frame.body.bytes().len() >= 1 << 31 {
        return false;
    }
    let mut out = Vec::new(alloc);
    write_frame(alloc, frame, &mut out).expect(rt, "memory");
    same(&out, bytes)
}

// Whether the text alone is written as these bytes.
fn writes_text(rt: &impl Abort, alloc: Global, kind: FrameKind, text: &[u8], bytes: &[u8]) -> bool {
    if text.len() >= 1 << 31 {
        return false;
    }
    let mut out = Vec::new(alloc);
    write_frame_of(kind, text, &mut out).expect(rt, "memory");
    same(&out, bytes)
}

// Whether a frame and its text alone are written as the row says, and a copy of the frame is the row's.
fn holds(rt: &impl Abort, alloc: Global, row: &'static [u8]) -> bool {
    let (_, rest) = cut(row, b'|');
    let (kind, rest) = cut(rest, b'|');
    let (text, bytes) = cut(rest, b'|');
    let kind = kind_of(rt, kind);
    let body = Body::copy(alloc, text).expect(rt, "memory");
    let frame = Frame { kind, body };
    let copy = frame.copy(alloc).expect(rt, "memory");
    writes_text(rt, alloc, kind, text, bytes)
        && writes(rt, alloc, &frame, bytes)
        && copy.kind == kind
        && same(copy.body.bytes(), text)
}

#[test]
fn rows(rt: HostRuntime) {
    for row in &rows_of(&rt, rt.alloc(), ROWS, b'~') {
        let (name, _) = cut(row, b'|');
        check_row(&rt, holds(&rt, rt.alloc(), row), name);
    }
}
