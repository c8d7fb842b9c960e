//! The plain judgement of an exchange over HTTP: whether what its caller sent, the entries of its connection and what it got fit each other.

ghost use Rattle.nsq_base.specs.Options.{IsInRange};
ghost use Rattle.http_wire.specs.Answer.{IsStatus};
ghost use Rattle.http_calls.specs.Calls.{HasStatus};

use crate::hosts::Outcome;
use crate::texts::same;
use broker_history::{Act, Ask, Entry, Said};
use http_calls::{HttpAnswer, HttpCall, Refusal, answer_to, call_of, publishes, stop_answer};
use http_wire::write_answer;
use nsq_base::{Bodies, Chan, Options, Topic};
use nsq_fakes::MemConn;
use nsq_outside::End;
use std::alloc::Global;
use std::process::Abort;
use streams_plain::{Plain, request_of};

/// Whether a connection of this number, at a daemon with these options that was opened at this moment, was an exchange.
///
/// Bytes that are no whole request have no entry and no answer, unless they are refused. Of an answer a part from its front may have gone out.
pub fn is_exchange(
    rt: &impl Abort,
    alloc: Global,
    options: &Options,
    began: u64,
    outcome: &Outcome,
    number: u64,
    conn: &MemConn,
) -> bool
    requires { IsInRange options.now }
{
    let own = own_of(rt, alloc, outcome.entries(), number);
    let read = read_by(rt, alloc, options.max_body_size, conn);
    is_handled(rt, alloc, options, began, read, &own, conn.bytes_written())
}

// What a connection read, where a body may be so long.
fn read_by(rt: &impl Abort, alloc: Global, limit: u32, conn: &MemConn) -> Plain {
    let mut bytes = Vec::new(alloc);
    for piece in conn.pieces_read() {
        bytes.extend_from_slice(piece).expect(rt, "memory");
    }
    request_of(alloc, limit, &bytes).expect(rt, "memory")
}

// Whether what was read has these entries, and is answered so.
fn is_handled(
    rt: &impl Abort,
    alloc: Global,
    options: &Options,
    began: u64,
    read: Plain,
    own: &Own<'_>,
    out: &[u8],
) -> bool
    requires { IsInRange options.now }
{
    match read {
        Plain::Unfinished => own.is_none() && out.is_empty(),
        Plain::BadHead => own.is_none() && is_refusal(rt, alloc, Refusal::BadRequest, out),
        Plain::NoLength => own.is_none() && is_refusal(rt, alloc, Refusal::LengthRequired, out),
        Plain::TooBig => own.is_none() && is_refusal(rt, alloc, Refusal::BodyTooBig, out),
        Plain::Whole(request) => {
            let call = call_of(alloc, options, began, request).expect(rt, "memory");
            is_call(rt, alloc, began, call, own, out)
        }
    }
}

// The entries of a connection.
#[derive(Drop)]
struct Own<'a> {
    // A letter for each of them: `a` what was asked, `s` a Stop, `l` names that are listed behind a Stop, `?` any other.
    letters: Vec<u8>,
    // The last one.
    last: Option<&'a (Entry, End)>,
}

impl Own<'_> {
    fn is_none(&self) -> bool {
        self.letters.is_empty()
    }

    fn are(&self, letters: &[u8]) -> bool {
        same(&self.letters, letters)
    }
}

fn own_of<'a>(rt: &impl Abort, alloc: Global, entries: &'a [(Entry, End)], number: u64) -> Own<'a> {
    let mut letters = Vec::new(alloc);
    let mut last = None;
    let mut stopped = false;
    for entry in entries {
        stopped = stopped || is_stop(&entry.0.act);
        if entry.0.conn == number {
            letters
                .push(letter_of(&entry.0.act, stopped))
                .expect(rt, "memory");
            last = Some(entry);
        }
    }
    Own { letters, last }
}

fn is_stop(act: &Act) -> bool {
    matches!(act, Act::Stop)
}

fn letter_of(act: &Act, stopped: bool) -> u8 {
    match act {
        Act::Asked(_, _) => b'a',
        Act::Stop => b's',
        Act::Listed(_) if stopped => b'l',
        _ => b'?',
    }
}

// Whether the answer is that of a refusal.
fn is_refusal(rt: &impl Abort, alloc: Global, refusal: Refusal, out: &[u8]) -> bool {
    let answer = refusal.answer(alloc).expect(rt, "memory");
    is_answer(rt, alloc, &answer, out)
}

// Whether a call has these entries, and is answered so.
fn is_call(
    rt: &impl Abort,
    alloc: Global,
    began: u64,
    call: HttpCall,
    own: &Own<'_>,
    out: &[u8],
) -> bool
    requires { HasStatus call }
{
    match call {
        HttpCall::Refused(refusal) => own.is_none() && is_refusal(rt, alloc, refusal, out),
        HttpCall::Answered(answer) => own.is_none() && is_answer(rt, alloc, &answer, out),
        HttpCall::Asks(ask) => is_asking(rt, alloc, began, &ask, own, out),
        HttpCall::Stops => is_stopped(rt, alloc, own, out),
    }
}

// Whether the daemon stopped, and said so.
fn is_stopped(rt: &impl Abort, alloc: Global, own: &Own<'_>, out: &[u8]) -> bool {
    let answer = stop_answer(alloc).expect(rt, "memory");
    (own.are(b"sl") || own.are(b"l")) && is_answer(rt, alloc, &answer, out)
}

// Whether this was asked and is answered by what was said, or the daemon stops.
fn is_asking(
    rt: &impl Abort,
    alloc: Global,
    began: u64,
    ask: &Ask,
    own: &Own<'_>,
    out: &[u8],
) -> bool {
    if own.are(b"l") {
        return is_refusal(rt, alloc, Refusal::Stopping, out);
    }
    match own.last {
        Some(entry) if own.are(b"a") => is_told(rt, alloc, began, ask, entry, out),
        _ => false,
    }
}

// Whether an entry asks this, and the answer is what it says.
fn is_told(
    rt: &impl Abort,
    alloc: Global,
    began: u64,
    ask: &Ask,
    entry: &(Entry, End),
    out: &[u8],
) -> bool {
    let Act::Asked(asked, said) = &entry.0.act else {
        return false;
    };
    let answer = answered(rt, alloc, began, ask, said, entry.1);
    is_same(asked, ask) && is_answer(rt, alloc, &answer, out)
}

// The answer to what is asked where this is said, and its entry ended so.
fn answered(
    rt: &impl Abort,
    alloc: Global,
    began: u64,
    ask: &Ask,
    said: &Said,
    end: End,
) -> HttpAnswer
    ensures { IsStatus result.status }
{
    match end {
        End::Done => answer_to(alloc, publishes(ask), began, said),
        End::Faulted(_) | End::Skip => answer_to(alloc, publishes(ask), began, &Said::Disk),
    }
    .expect(rt, "memory")
}

fn is_same(a: &Ask, b: &Ask) -> bool {
    match (a, b) {
        (Ask::Publish(a, c, e), Ask::Publish(b, d, f)) => a == b && c == d && are_bodies(e, f),
        (Ask::Stats(a, c), Ask::Stats(b, d)) => a == b && c == d,
        (Ask::Create(a, c), Ask::Create(b, d)) => is_place(a, c, b, d),
        (Ask::Delete(a, c), Ask::Delete(b, d)) => is_place(a, c, b, d),
        (Ask::Empty(a, c), Ask::Empty(b, d)) => is_place(a, c, b, d),
        (Ask::Pause(a, c), Ask::Pause(b, d)) => is_place(a, c, b, d),
        (Ask::Unpause(a, c), Ask::Unpause(b, d)) => is_place(a, c, b, d),
        _ => false,
    }
}

fn are_bodies(a: &Bodies, b: &Bodies) -> bool {
    let mut all = a.count() == b.count();
    for (a, b) in a.as_slice().iter().zip(b.as_slice()) {
        all &= same(a.bytes(), b.bytes());
    }
    all
}

// Whether a topic and a channel of it, or none, are those.
fn is_place(a: &Topic, c: &Option<Chan>, b: &Topic, d: &Option<Chan>) -> bool {
    a == b && c == d
}

// Whether these bytes are an answer's, or a part of them from the front.
fn is_answer(rt: &impl Abort, alloc: Global, answer: &HttpAnswer, out: &[u8]) -> bool
    requires { IsStatus answer.now.status }
{
    let mut bytes = Vec::new(alloc);
    write_answer(
        alloc,
        answer.status,
        answer.json,
        answer.body.bytes(),
        &mut bytes,
    )
    .expect(rt, "memory");
    bytes.starts_with(out)
}
