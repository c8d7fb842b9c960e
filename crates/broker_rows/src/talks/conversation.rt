//! Whether a connection is a conversation in a history. A talk is a text: the number of a connection, how it ended, the pieces that the client sent,
//! with a `/` between them, and behind `=>` what it got.

use crate::made::{cut, number, part, put, unknown};
use crate::talks::words::{got_bytes, sent_bytes};
use broker_history::{Ended, Entry};
use broker_talks::is_talk_in;
use nsq_base::Body;
use nsq_outside::End;
use std::alloc::Global;
use std::process::Abort;
use v2_frame::Limits;

/// The daemon's limits.
pub const LIMITS: Limits = Limits {
    msg: 1_048_576,
    body: 5_242_880,
};

/// Whether a connection is a conversation in a history.
pub fn is_talk(rt: &impl Abort, alloc: Global, talk: &str, entries: &[(Entry, End)]) -> bool {
    let (head, rest) = part(rt, talk, ":");
    let (conn, ended) = cut(head);
    let (sent, got) = part(rt, rest, "=>");
    let pieces = pieces_of(rt, alloc, sent);
    let out = out_of(rt, alloc, got);
    is_talk_in(
        alloc,
        LIMITS,
        number(rt, conn),
        entries,
        0,
        &pieces,
        &out,
        ended_so(rt, ended),
    )
    .expect(rt, "memory")
}

/// How a conversation ended.
pub fn ended_so(rt: &impl Abort, word: &str) -> Ended {
    match word {
        "EndOfInput" => Ended::EndOfInput,
        "Closed" => Ended::Closed,
        "ReadFault" => Ended::ReadFault,
        "WriteFault" => Ended::WriteFault,
        "Memory" => Ended::Memory,
        _ => unknown(rt, word),
    }
}

/// The pieces that were sent.
pub fn pieces_of(rt: &impl Abort, alloc: Global, sent: &str) -> Vec<Body> {
    let mut pieces = Vec::new(alloc);
    if sent.trim().is_empty() {
        return pieces;
    }
    for words in sent.split('/') {
        put(rt, &mut pieces, piece_of(rt, alloc, words));
    }
    pieces
}

fn piece_of(rt: &impl Abort, alloc: Global, words: &str) -> Body {
    let mut bytes = Vec::new(alloc);
    for word in words.split(' ') {
        let word = word.trim();
        if !word.is_empty() {
            bytes
                .extend_from_slice(sent_bytes(rt, word))
                .expect(rt, "memory");
        }
    }
    Body::of(bytes)
}

/// All bytes that the client got. A word with a number behind a `*` stands so often.
pub fn out_of(rt: &impl Abort, alloc: Global, got: &str) -> Vec<u8> {
    let mut out = Vec::new(alloc);
    for word in got.split(' ') {
        let word = word.trim();
        if !word.is_empty() {
            add_got(rt, &mut out, word);
        }
    }
    out
}

fn add_got(rt: &impl Abort, out: &mut Vec<u8>, word: &str) {
    let (word, times) = match word.split_once("*") {
        Some((word, times)) => (word, number(rt, times)),
        None => (word, 1),
    };
    for _ in 0..times {
        out.extend_from_slice(got_bytes(rt, word))
            .expect(rt, "memory");
    }
}
