use crate::same;
use crate::text::{check_row, cut, number_of, rows_of, text_of};
use nsq_base::{Body, MsgId};
use std::alloc::Global;
use std::process::Abort;
use v2_frame::{Message, Taken};

/// How many bytes a message is put into.
const ROOM: usize = 64;

// A name, bytes, and the stamp, the attempts, the id and the body of the message that they are, or `short`.
static ROWS: &[u8] = b"\
a message of one byte|\0\0\0\0\0\0\0\0\0\x010000010000000000a|0 1 0000010000000000 a~\
the most significant bytes first|\x01\x02\x03\x04\x05\x06\x07\x08\x09\x0a0000010000000001body|72623859790382856 2314 0000010000000001 body~\
no body|\0\0\0\0\0\0\0\0\0\x010000010000000000|0 1 0000010000000000 ~\
25 bytes|\0\0\0\0\0\0\0\0\0\x01000001000000000|short~\
nothing||short~\
";

// Whether each of the bytes is 9.
fn are_nines(bytes: &[u8]) -> bool {
    for byte in bytes {
        if *byte != 9 {
            return false;
        }
    }
    true
}

// Whether the message is put as these bytes, and what stands behind them stays.
fn puts(message: &Message, bytes: &[u8]) -> bool {
    let mut into = [9; ROOM];
    let body = message.body.bytes().len();
    if body > ROOM - 26 {
        return false;
    }
    let size = message.put(&mut into);
    let (put, behind) = into.split_at(size.min(ROOM));
    same(put, bytes) && are_nines(behind)
}

// Whether the message is the other one but for its delay, which is 0.
fn is_of(message: &Message, other: &Message) -> bool {
    message.stamp == other.stamp
        && message.attempts == other.attempts
        && message.id == other.id
        && same(message.body.bytes(), other.body.bytes())
        && message.delay == 0
}

// The message of these words, with a delay.
fn made(rt: &impl Abort, alloc: Global, words: &'static [u8]) -> Message {
    let (stamp, rest) = cut(words, b' ');
    let (attempts, rest) = cut(rest, b' ');
    let (id, body) = cut(rest, b' ');
    let attempts = text_of(rt, attempts).parse::<u16>();
    Message {
        stamp: number_of(rt, stamp),
        attempts: attempts.expect(rt, "a number"),
        id: MsgId::read(id).expect(rt, "an id"),
        body: Body::copy(alloc, body).expect(rt, "memory"),
        delay: 5,
    }
}

// Whether the message, and a copy of it, are the wanted one, with no delay, and are put as its bytes, whatever the delay is.
fn is_message(
    rt: &impl Abort,
    alloc: Global,
    bytes: &[u8],
    taken: &Message,
    wanted: &'static [u8],
) -> bool {
    if same(wanted, b"short") {
        return false;
    }
    let made = made(rt, alloc, wanted);
    let copy = taken.copy(alloc).expect(rt, "memory");
    is_of(&copy, &made) && puts(taken, bytes) && puts(&made, bytes)
}

fn holds(rt: &impl Abort, alloc: Global, row: &'static [u8]) -> bool {
    let (_, rest) = cut(row, b'|');
    let (bytes, wanted) = cut(rest, b'|');
    match Message::take(alloc, bytes) {
        Taken::Whole(taken) => is_message(rt, alloc, bytes, &taken, wanted),
        Taken::Short => same(wanted, b"short"),
        Taken::Memory => panic!(rt; "memory"),
    }
}

#[test]
fn rows(rt: HostRuntime) {
    for row in &rows_of(&rt, rt.alloc(), ROWS, b'~') {
        let (name, _) = cut(row, b'|');
        check_row(&rt, holds(&rt, rt.alloc(), row), name);
    }
}
