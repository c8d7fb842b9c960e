//! Rows of the arguments of a request: a name, the request's bytes, an argument's name, and the value that counts for it behind an `=`, or
//! `none`.

use crate::same;
use crate::text::{check_row, cut, rows_of};
use http_wire::{GotRequest, RequestReader};
use std::alloc::Global;
use std::process::Abort;

static ROWS: &[u8] = b"\
one pair|GET /stats?format=json HTTP/1.1\r\n\r\n|format|=json~\
of several the first|GET /p?a=1&topic=first&topic=second&topic=third HTTP/1.1\r\n\r\n|topic|=first~\
the first is empty|GET /p?topic=&topic=second HTTP/1.1\r\n\r\n|topic|=~\
without an equals sign|GET /p?x&topic HTTP/1.1\r\n\r\n|topic|=~\
a name that is encoded|GET /p?t%6fpic=%2D+x HTTP/1.1\r\n\r\n|topic|=- x~\
another case is another name|GET /p?Topic=t HTTP/1.1\r\n\r\n|topic|none~\
no query|GET /p HTTP/1.1\r\n\r\n|topic|none~\
";

/// Whether this is the value, or there is none.
fn is_value(found: Option<&[u8]>, wanted: &'static [u8]) -> bool {
    match found {
        Some(found) => match wanted.strip_prefix(b"=") {
            Some(value) => same(found, value),
            None => false,
        },
        None => same(wanted, b"none"),
    }
}

/// Whether the request has the row's value for the row's name.
fn holds(rt: &impl Abort, alloc: Global, row: &'static [u8]) -> bool {
    let (_, rest) = cut(row, b'|');
    let (bytes, rest) = cut(rest, b'|');
    let (argument, value) = cut(rest, b'|');
    let mut reader = RequestReader::new(alloc, 100).expect(rt, "memory");
    reader.feed(bytes).expect(rt, "memory");
    match reader.next() {
        GotRequest::Whole(request) => is_value(request.argument(argument), value),
        _ => false,
    }
}

#[test]
fn rows(rt: HostRuntime) {
    for row in &rows_of(&rt, rt.alloc(), ROWS, b'~') {
        let (name, _) = cut(row, b'|');
        check_row(&rt, holds(&rt, rt.alloc(), row), name);
    }
}
