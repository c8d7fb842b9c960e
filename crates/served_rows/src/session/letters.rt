//! Letters of answers, and what a client gets of them.

use crate::lists::{push, put};
use std::process::Abort;

const OK: &[u8] = b"\0\0\0\x06\0\0\0\0OK";

const CLOSE_WAIT: &[u8] = b"\0\0\0\x0e\0\0\0\0CLOSE_WAIT";

const NO: &[u8] = b"\0\0\0\x10\0\0\0\x01E_INVALID no";

const NOT_IN_FLIGHT: &[u8] = b"\0\0\0\x13\0\0\0\x01E_FIN_FAILED no";

const NO_MEMORY: &[u8] = b"\0\0\0\x1a\0\0\0\x01E_MEMORY out of memory";

const HEARTBEAT: &[u8] = b"\0\0\0\x0f\0\0\0\0_heartbeat_";

/// A message but for its body, one byte.
const MESSAGE: &[u8] = b"\0\0\0\x1f\0\0\0\x0212345678aaiiiiiiiiiiiiiiii";

// The frame of the answer with this letter: a reply, a message but for its body or a heartbeat, or with `-` that for want of memory; nothing of other letters.
fn text_of(letter: u8) -> &'static [u8] {
    match letter {
        b'o' => OK,
        b'k' => CLOSE_WAIT,
        b'e' => NO,
        b'f' => NOT_IN_FLIGHT,
        b'h' => HEARTBEAT,
        b'm' => MESSAGE,
        b'-' => NO_MEMORY,
        _ => b"",
    }
}

/// How many bytes a client gets of the answer with this letter.
pub fn length_of(letter: u8) -> usize {
    text_of(letter)
        .len()
        .saturating_add(usize::from(letter == b'm'))
}

/// Adds the frames of these letters in order, their messages numbered from 0 on.
pub fn put_frames(rt: &impl Abort, bytes: &mut Vec<u8>, letters: &[u8]) {
    let mut number = 0u8;
    for letter in letters {
        put(rt, bytes, text_of(*letter));
        if *letter == b'm' {
            push(rt, bytes, number);
            number = number.wrapping_add(1);
        }
    }
}

/// Adds the letters of the calls that are answered so, with a read behind each Idle, and of the writes of their frames.
pub fn put_calls(rt: &impl Abort, calls: &mut Vec<u8>, answers: &[u8]) {
    for letter in answers {
        let call: &[u8] = match *letter {
            b'b' => b"b",
            b'm' => b"nw",
            b'i' => b"nr",
            b'q' => b"c",
            b'g' => b"g",
            _ => b"cw",
        };
        put(rt, calls, call);
    }
}
