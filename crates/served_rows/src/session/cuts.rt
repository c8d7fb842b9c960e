//! Every command, cut into pieces at every place, with pushes between the pieces.

use super::letters::put_calls;
use super::served::{Case, case_of, goes, write_all};
use crate::lists::{copied, push, put};
use crate::text::{bytes_of, column};
use std::alloc::Global;
use std::process::Abort;
use std::sync::Wait;

// Two commands in columns between `|`: the name of the first one, both, the letters of their answers, and how the first one comes to the floor.
static ROWS: &'static str = r#"
IDENTIFY|IDENTIFY\n\0\0\0\x02{}|NOP\n|oq|Identify(Body { bytes: [123, 125] })
SUB|SUB t c\n|RDY 1\n|oq|Sub(Topic { name: "t" }, Chan { name: "c" })
PUB|PUB t\n\0\0\0\x02hi|PUB t\n\0\0\0\x01a|oo|Pub(Topic { name: "t" }, Body { bytes: [104, 105] })
MPUB|MPUB t\n\0\0\0\x0f\0\0\0\x02\0\0\0\x01a\0\0\0\x02bc|PUB t\n\0\0\0\x01a|oo|Mpub(Topic { name: "t" }, Bodies { items: [Body { bytes: [97] }, Body { bytes: [98, 99] }] })
DPUB|DPUB t 1000\n\0\0\0\x01d|NOP\n|oq|Dpub(Topic { name: "t" }, 1000, Body { bytes: [100] })
RDY|RDY 2\n|RDY 1\n|qq|Rdy(2)
FIN|FIN 0000010000000000\n|FIN 0000010000000000\n|qf|Fin(MsgId { bytes: [48, 48, 48, 48, 48, 49, 48, 48, 48, 48, 48, 48, 48, 48, 48, 48] })
REQ|REQ 0000010000000000 100\n|REQ 0000010000000000 100\n|qf|Req(MsgId { bytes: [48, 48, 48, 48, 48, 49, 48, 48, 48, 48, 48, 48, 48, 48, 48, 48] }, 100)
TOUCH|TOUCH 0000010000000000\n|NOP\n|fq|Touch(MsgId { bytes: [48, 48, 48, 48, 48, 49, 48, 48, 48, 48, 48, 48, 48, 48, 48, 48] })
CLS|CLS\n|NOP\n|kq|Cls
NOP|NOP\n|CLS\n|qk|Nop
"#;

// A row's commands behind the magic, and how many bytes come up to the end of the first one.
fn stream_of(rt: &impl Abort, alloc: Global, row: &str) -> (Vec<u8>, usize) {
    let mut stream = bytes_of(rt, alloc, "  V2");
    put(rt, &mut stream, &bytes_of(rt, alloc, column(row, 1)));
    let first = stream.len();
    put(rt, &mut stream, &bytes_of(rt, alloc, column(row, 2)));
    (stream, first)
}

// Adds the pieces and their answers, where the stream is cut in two behind so many bytes, or behind each one where these are none. A message is pushed before
// each piece, and behind it the answer to each command that it ends.
fn put_pieces(rt: &impl Abort, alloc: Global, case: &mut Case, row: &str, cut: usize) {
    let (stream, first) = stream_of(rt, alloc, row);
    let answers = column(row, 3).as_bytes();
    let (one, other) = answers.split_at(answers.len().min(1));
    let mut piece = Vec::new(alloc);
    let mut waits = true;
    for (at, byte) in stream.iter().enumerate() {
        let end = at.saturating_add(1);
        push(rt, &mut piece, *byte);
        if cut == 0 || cut == end || end == stream.len() {
            push(rt, &mut case.pieces, copied(rt, alloc, &piece));
            piece.clear();
            put(rt, &mut case.script, b"mi");
            if waits && first <= end {
                put(rt, &mut case.script, one);
                waits = false;
            }
        }
    }
    put(rt, &mut case.script, other);
    put(rt, &mut case.script, b"ig");
    put_calls(rt, &mut case.trace, &case.script);
    write_all(rt, case);
}

// A row's commands and their answers, where they are cut so.
fn cut_at(rt: &impl Abort, alloc: Global, row: &'static str, cut: usize) -> Case {
    let mut case = case_of(rt, alloc, "||b||end");
    put_pieces(rt, alloc, &mut case, row, cut);
    case.command = column(row, 4);
    case
}

// Ends the run where a row goes otherwise, with the number of bytes behind which it is cut; 0 for a cut behind each byte.
fn check<R: Abort + Wait>(rt: &R, alloc: Global, row: &'static str) {
    let (stream, _) = stream_of(rt, alloc, row);
    let length = stream.len();
    drop(stream);
    for cut in 0..length.saturating_add(1) {
        let case = cut_at(rt, alloc, row, cut);
        let goes = goes(rt, alloc, &case);
        drop(case);
        assert!(rt; goes, "{row}, cut behind {cut}");
    }
}

#[test]
fn rows(rt: HostRuntime) {
    for row in ROWS.trim().split('\n') {
        check(&rt, rt.alloc(), row);
    }
}
