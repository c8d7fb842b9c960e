//! Whether a body is read as its row says: the body, and what it is read as with the default options, which is `refused`, `nothing` where the
//! client says nothing, or the client, the host and the agent, with a `^` between them, the time between heartbeats in nanoseconds or `off`,
//! the time for a message in nanoseconds, whether it negotiates (`json`) or not (`plain`), and its answer.

use crate::identify::{read, refused, shapes};
use crate::same;
use crate::text::{check_row, cut, is_number, number_in, rows_of, says};
use broker_state::{Phase, reply};
use negotiation::{Identity, identify_reply, read_identity};
use nsq_base::{Body, Options};
use std::alloc::Global;
use v2_frame::{Command, Frame, FrameKind};

/// What a client gets that says nothing.
const NOTHING: &[u8] = b"^^ 30000000000 60000000000 plain OK";

// Whether a body is read so with these options, and is answered so, by the plain program too.
fn is_got(alloc: Global, options: &Options, body: &[u8], wanted: &'static [u8]) -> bool {
    match read_identity(alloc, options, body) {
        Ok(found) => is_answered(alloc, options, body, &found, wanted),
        Err(_) => false,
    }
}

// Whether what a body is read as is this, and is answered so.
fn is_answered(
    alloc: Global,
    options: &Options,
    body: &[u8],
    found: &Option<Identity>,
    wanted: &'static [u8],
) -> bool {
    match identify_reply(alloc, options, found.as_ref()) {
        Ok(frame) => is_read(found, &frame, wanted) && is_plain(alloc, options, body, &frame),
        Err(_) => false,
    }
}

// Whether the plain program answers so.
fn is_plain(alloc: Global, options: &Options, body: &[u8], frame: &Frame) -> bool {
    match Body::copy(alloc, body) {
        Ok(body) => is_reply(alloc, options, &Command::Identify(body), frame),
        Err(_) => false,
    }
}

// Whether the plain program answers the command so.
fn is_reply(alloc: Global, options: &Options, command: &Command, frame: &Frame) -> bool {
    match reply(alloc, options, 0, Phase::Fresh, false, command) {
        Ok(Some(plain)) => is_frame(&plain, frame.kind, frame.body.bytes()),
        _ => false,
    }
}

// Whether what was found is this, and is answered so.
fn is_read(found: &Option<Identity>, frame: &Frame, wanted: &'static [u8]) -> bool {
    match found {
        None => same(wanted, b"refused")
            && is_frame(frame, FrameKind::Error, b"E_BAD_BODY bad JSON"),
        Some(_) if same(wanted, b"refused") => false,
        Some(identity) if same(wanted, b"nothing") => is_said(identity, frame, NOTHING),
        Some(identity) => is_said(identity, frame, wanted),
    }
}

// Whether an identity says this, and is answered so.
fn is_said(identity: &Identity, frame: &Frame, wanted: &'static [u8]) -> bool {
    let (client, rest) = cut(wanted, b'^');
    let (host, rest) = cut(rest, b'^');
    let (agent, rest) = cut(rest, b' ');
    let (heartbeat, rest) = cut(rest, b' ');
    let (timeout, rest) = cut(rest, b' ');
    let (how, answer) = cut(rest, b' ');
    same(identity.client_id.bytes(), client)
        & same(identity.hostname.bytes(), host)
        & same(identity.user_agent.bytes(), agent)
        & is_beat(identity.heartbeat, heartbeat)
        & is_number(identity.timeout, timeout)
        & says(how, identity.negotiates, b"json", b"plain")
        & is_frame(frame, FrameKind::Response, answer)
}

fn is_beat(heartbeat: Option<u64>, wanted: &'static [u8]) -> bool {
    match heartbeat {
        None => same(wanted, b"off"),
        Some(time) => is_number(time, wanted),
    }
}

fn is_frame(frame: &Frame, kind: FrameKind, text: &[u8]) -> bool {
    frame.kind == kind && same(frame.body.bytes(), text)
}

// Whether a body is read so with the default options.
fn holds(alloc: Global, body: &[u8], wanted: &'static [u8]) -> bool {
    match Options::defaults(alloc) {
        Ok(options) => is_got(alloc, &options, body, wanted),
        Err(_) => false,
    }
}

// Appends a byte, so many times. False where memory is wanting.
fn append(bytes: &mut Vec<u8>, byte: u8, count: u64) -> bool {
    for _ in 0..count {
        if bytes.push(byte).is_err() {
            return false;
        }
    }
    true
}

// Whether a body of an unknown member with so many lists, one inside the other, is read so: with the object itself it nests one
// deeper.
fn holds_nested(alloc: Global, lists: &'static [u8], wanted: &'static [u8]) -> bool {
    let Some(lists) = number_in(lists) else {
        return false;
    };
    match br#"{"unknown":"#.to_vec(alloc) {
        Ok(mut body) => {
            append(&mut body, b'[', lists)
                && append(&mut body, b']', lists)
                && append(&mut body, b'}', 1)
                && holds(alloc, &body, wanted)
        }
        Err(_) => false,
    }
}

// Puts the number of these digits in a place. False where they are none.
fn put(place: &mut u64, digits: &'static [u8]) -> bool {
    match number_in(digits) {
        Some(number) => {
            *place = number;
            true
        }
        None => false,
    }
}

// Puts the numbers in front of a row into the options, and says whether a body is read so with them: the longest heartbeat interval
// and time for a message, and the time for a message where none is said, in nanoseconds.
fn holds_with(alloc: Global, options: &mut Options, row: &'static [u8]) -> bool {
    let (longest_beat, rest) = cut(row, b'|');
    let (longest_wait, rest) = cut(rest, b'|');
    let (wait, rest) = cut(rest, b'|');
    let (body, wanted) = cut(rest, b'|');
    put(&mut options.max_heartbeat_interval, longest_beat)
        && put(&mut options.max_msg_timeout, longest_wait)
        && put(&mut options.msg_timeout, wait)
        && is_got(alloc, options, body, wanted)
}

// Whether a row holds that has other options than the default ones.
fn holds_other(alloc: Global, row: &'static [u8]) -> bool {
    match Options::defaults(alloc) {
        Ok(mut options) => holds_with(alloc, &mut options, row),
        Err(_) => false,
    }
}

#[test]
fn rows(rt: HostRuntime) {
    let alloc = rt.alloc();
    let tables = [
        read::SAID,
        shapes::SHAPES,
        refused::KINDS,
        refused::TIMES,
        refused::NUMBERS,
    ];
    for table in tables {
        for row in &rows_of(&rt, alloc, table, b'\n') {
            let (body, wanted) = cut(row, b'|');
            check_row(&rt, holds(alloc, body, wanted), row);
        }
    }
}

#[test]
fn other_rows(rt: HostRuntime) {
    for row in &rows_of(&rt, rt.alloc(), read::OTHERS, b'\n') {
        check_row(&rt, holds_other(rt.alloc(), row), row);
    }
}

#[test]
fn named_rows(rt: HostRuntime) {
    for row in &rows_of(&rt, rt.alloc(), shapes::NAMED, b'~') {
        let (name, rest) = cut(row, b'|');
        let (body, wanted) = cut(rest, b'|');
        check_row(&rt, holds(rt.alloc(), body, wanted), name);
    }
}

#[test]
fn nested_rows(rt: HostRuntime) {
    for row in &rows_of(&rt, rt.alloc(), shapes::NESTED, b'~') {
        let (name, wanted) = cut(row, b'|');
        let (lists, _) = cut(name, b' ');
        check_row(&rt, holds_nested(rt.alloc(), lists, wanted), row);
    }
}
