//! Rows of answers: a name, the status, whether the body is `json` or `text`, the body, and the bytes of the answer.

ghost use Rattle.http_wire.specs.Answer.{IsStatus};

use crate::same;
use crate::text::{check_row, cut, is_first, number_of, rows_of};
use http_wire::write_answer;
use std::alloc::Global;
use std::process::Abort;

static ROWS: &[u8] = b"\
a text|200|text|OK|HTTP/1.1 200 OK\r\nContent-Type: text/plain; charset=utf-8\r\nContent-Length: 2\r\nConnection: close\r\n\r\nOK~\
an empty text|200|text||HTTP/1.1 200 OK\r\nContent-Type: text/plain; charset=utf-8\r\nContent-Length: 0\r\nConnection: close\r\n\r\n~\
JSON|200|json|{\"topics\":[]}|HTTP/1.1 200 OK\r\nContent-Type: application/json; charset=utf-8\r\nContent-Length: 13\r\nConnection: close\r\n\r\n{\"topics\":[]}~\
400|400|json|{\"message\":\"MISSING_ARG_TOPIC\"}|HTTP/1.1 400 Bad Request\r\nContent-Type: application/json; charset=utf-8\r\nContent-Length: 31\r\nConnection: close\r\n\r\n{\"message\":\"MISSING_ARG_TOPIC\"}~\
404|404|json|{\"message\":\"NOT_FOUND\"}|HTTP/1.1 404 Not Found\r\nContent-Type: application/json; charset=utf-8\r\nContent-Length: 23\r\nConnection: close\r\n\r\n{\"message\":\"NOT_FOUND\"}~\
405|405|json|{\"message\":\"METHOD_NOT_ALLOWED\"}|HTTP/1.1 405 Method Not Allowed\r\nContent-Type: application/json; charset=utf-8\r\nContent-Length: 32\r\nConnection: close\r\n\r\n{\"message\":\"METHOD_NOT_ALLOWED\"}~\
411|411|json|{\"message\":\"LENGTH_REQUIRED\"}|HTTP/1.1 411 Length Required\r\nContent-Type: application/json; charset=utf-8\r\nContent-Length: 29\r\nConnection: close\r\n\r\n{\"message\":\"LENGTH_REQUIRED\"}~\
413|413|json|{\"message\":\"BODY_TOO_BIG\"}|HTTP/1.1 413 Payload Too Large\r\nContent-Type: application/json; charset=utf-8\r\nContent-Length: 26\r\nConnection: close\r\n\r\n{\"message\":\"BODY_TOO_BIG\"}~\
500|500|json|{\"message\":\"DISK_FAULT\"}|HTTP/1.1 500 Internal Server Error\r\nContent-Type: application/json; charset=utf-8\r\nContent-Length: 24\r\nConnection: close\r\n\r\n{\"message\":\"DISK_FAULT\"}~\
503|503|json|{\"message\":\"STOPPING\"}|HTTP/1.1 503 Service Unavailable\r\nContent-Type: application/json; charset=utf-8\r\nContent-Length: 22\r\nConnection: close\r\n\r\n{\"message\":\"STOPPING\"}~\
";

/// The status of these digits.
fn status_of(rt: &impl Abort, digits: &'static [u8]) -> u16
    ensures { IsStatus result }
{
    match number_of(rt, digits) {
        200 => 200,
        400 => 400,
        404 => 404,
        405 => 405,
        411 => 411,
        413 => 413,
        500 => 500,
        503 => 503,
        _ => panic!(rt; "no status"),
    }
}

/// Whether the answer is the row's bytes behind what was there before.
fn is_behind(rt: &impl Abort, alloc: Global, answer: &'static [u8], before: &[u8]) -> bool {
    let (status, rest) = cut(answer, b'|');
    let (form, rest) = cut(rest, b'|');
    let (body, wanted) = cut(rest, b'|');
    let json = is_first(rt, form, b"json", b"text");
    let mut out = before.to_vec(alloc).expect(rt, "memory");
    write_answer(alloc, status_of(rt, status), json, body, &mut out).expect(rt, "memory");
    match out.strip_prefix(before) {
        Some(bytes) => same(bytes, wanted),
        None => false,
    }
}

#[test]
fn rows(rt: HostRuntime) {
    for row in &rows_of(&rt, rt.alloc(), ROWS, b'~') {
        let (name, answer) = cut(row, b'|');
        let alone = is_behind(&rt, rt.alloc(), answer, b"");
        check_row(
            &rt,
            alone && is_behind(&rt, rt.alloc(), answer, b"before"),
            name,
        );
    }
}
