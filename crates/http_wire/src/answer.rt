ghost use Rattle.std.specs.Prelude.{◌≡◌, ◌++◌, OnOk, OnErr};
ghost use Rattle.http_wire.specs.Answer.{IsStatus, phrase_of, type_of, answer_of, answer_bytes};

use crate::append::append_all;
use itoa::Buffer;
use nsq_base::Memory;
use std::alloc::Global;

/// Appends an answer: its status line, the fields `Content-Type` (JSON or plain text), `Content-Length` and
/// `Connection: close`, an empty line, and the body. Want of memory is the only error: then `out` is as before. Nothing is
/// allocated but the growth of `out`.
pub fn write_answer(
    _alloc: Global,
    status: u16,
    json: bool,
    body: &[u8],
    out: &mut Vec<u8>,
) -> Result<(), Memory>
    requires { IsStatus status }
    ensures ok { OnOk result (out.new.items ≡ out.old.items ++ answer_bytes status json body.now) }
    ensures err { OnErr result (out.new.items ≡ out.old.items) }
{
    let mut digits = Buffer::new();
    let mut length = Buffer::new();
    append_answer(
        digits.format(status).as_bytes(),
        phrase_of(status),
        type_of(json),
        length.format(body.len()).as_bytes(),
        body,
        out,
    )
}

/// Appends an answer of these parts. After Memory `out` is as before.
fn append_answer<'a>(
    status: &'a [u8],
    phrase: &'a [u8],
    kind: &'a [u8],
    length: &'a [u8],
    body: &'a [u8],
    out: &mut Vec<u8>,
) -> Result<(), Memory>
    ensures ok { OnOk result (out.new.items ≡ out.old.items ++ answer_of status.now phrase.now kind.now length.now body.now) }
    ensures err { OnErr result (out.new.items ≡ out.old.items) }
{
    append_all(
        out,
        &[
            b"HTTP/1.1 ",
            status,
            b" ",
            phrase,
            b"\r\nContent-Type: ",
            kind,
            b"\r\nContent-Length: ",
            length,
            b"\r\nConnection: close\r\n\r\n",
            body,
        ],
    )
}

/// The phrase of a status (RFC 9110).
fn phrase_of(status: u16) -> &'static [u8]
    requires { IsStatus status }
    ensures { result.now ≡ phrase_of status }
{
    match status {
        200 => b"OK",
        400 => b"Bad Request",
        404 => b"Not Found",
        405 => b"Method Not Allowed",
        411 => b"Length Required",
        413 => b"Payload Too Large",
        500 => b"Internal Server Error",
        503 => b"Service Unavailable",
        _ => b"",
    }
}

/// The type of a body.
fn type_of(json: bool) -> &'static [u8]
    ensures { result.now ≡ type_of json }
{
    if json {
        b"application/json; charset=utf-8"
    } else {
        b"text/plain; charset=utf-8"
    }
}
