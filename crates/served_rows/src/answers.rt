//! The bytes that a client or a caller gets, by words.

use crate::lists::{copied, put};
use crate::text::{bytes_of, part, put_text, unknown};
use itoa::Buffer;
use std::alloc::Global;
use std::process::Abort;

const JSON: &[u8] = b"application/json";

// The statuses that refuse a call.
static REFUSALS: &'static str =
    "400 Bad Request~404 Not Found~405 Method Not Allowed~411 Length Required~413 Payload Too Large~500 Internal Server Error~503 Service Unavailable";

/// What a caller of HTTP gets, by a word and by what stands behind it:
///
/// - `nothing`; `bytes` and these;
/// - `OK`: 200 with OK in plain text;
/// - `done`: 200 without a body, the answer of what is done and no publish;
/// - `json` and a body: 200 with that;
/// - `topics` and these: 200 with the statistics of a daemon that was opened at moment 0 and has them;
/// - the number of another status, and a code: that status with its phrase, and the code in JSON.
///
/// JSON stands as it is written, other bytes with escapes.
pub fn answer_of(rt: &impl Abort, alloc: Global, gets: (&str, &str)) -> Vec<u8> {
    match gets {
        ("nothing", "") => Vec::new(alloc),
        ("bytes", text) => bytes_of(rt, alloc, text),
        ("OK", "") => answer(rt, alloc, b"200 OK", b"text/plain", (b"", b"OK", b"")),
        ("done", "") => answer(rt, alloc, b"200 OK", b"text/plain", (b"", b"", b"")),
        _ => json_of(rt, alloc, gets),
    }
}

// The same of an answer in JSON.
fn json_of(rt: &impl Abort, alloc: Global, gets: (&str, &str)) -> Vec<u8> {
    let (status, before, behind): (&[u8], &[u8], &[u8]) = match gets {
        ("json", _) => (b"200 OK", b"", b""),
        ("topics", _) => (
            b"200 OK",
            br#"{"health":"OK","start_time":0,"topics":["#,
            br#"],"version":"1.0.0"}"#,
        ),
        (number, _) => (refusal(rt, number), br#"{"message":""#, br#""}"#),
    };
    answer(rt, alloc, status, JSON, (before, gets.1.as_bytes(), behind))
}

// The status of this number with its phrase.
fn refusal(rt: &impl Abort, number: &str) -> &'static [u8] {
    for status in REFUSALS.split('~') {
        if status.starts_with(number) && number.len() == 3 {
            return status.as_bytes();
        }
    }
    panic!(rt; "no caller gets {number}")
}

// An answer of this status with its phrase, and with a body of this type, in three parts.
fn answer(
    rt: &impl Abort,
    alloc: Global,
    status: &[u8],
    kind: &[u8],
    (before, body, behind): (&[u8], &[u8], &[u8]),
) -> Vec<u8> {
    let rest = body.len().saturating_add(behind.len());
    let mut digits = Buffer::new();
    let mut out = copied(rt, alloc, b"HTTP/1.1 ");
    put(rt, &mut out, status);
    put(rt, &mut out, b"\r\nContent-Type: ");
    put(rt, &mut out, kind);
    put(rt, &mut out, b"; charset=utf-8\r\nContent-Length: ");
    put(
        rt,
        &mut out,
        digits.format(before.len().saturating_add(rest)).as_bytes(),
    );
    put(rt, &mut out, b"\r\nConnection: close\r\n\r\n");
    put(rt, &mut out, before);
    put(rt, &mut out, body);
    put(rt, &mut out, behind);
    out
}

// The words for what a client of V2 gets, and the bytes at its front, behind which stand those that follow the words.
static FRONTS: &'static str = r#"OK=\0\0\0\x06\0\0\0\0OK
close wait=\0\0\0\x0e\0\0\0\0CLOSE_WAIT
not in flight=\0\0\0\x26\0\0\0\x01E_FIN_FAILED message not in flight
first =\0\0\0\x1f\0\0\0\x02\0\0\0\0\0\0\0\0\0\x01
second =\0\0\0\x1f\0\0\0\x02\0\0\0\0\0\0\0\0\0\x02
bytes ="#;

/// Adds what a client of V2 gets: `OK`, `close wait` and `not in flight`, the answers to a command that is carried out, to a first CLS, and to a FIN of a
/// message that isn't in flight; `first` or `second` before a message's id and its body of one byte, where it was published at moment 0 and is sent for that
/// time; or `bytes`.
pub fn put_got(rt: &impl Abort, out: &mut Vec<u8>, gets: &str) {
    for line in FRONTS.split('\n') {
        let (words, front) = part(rt, line, "=");
        if let Some(rest) = gets.strip_prefix(words) {
            put_text(rt, out, front);
            return put_text(rt, out, rest);
        }
    }
    unknown(rt, gets)
}
