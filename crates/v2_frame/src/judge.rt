ghost use Rattle.std.specs.Prelude.{◌≡◌, ◌+◌, ◌<◌, ◌≤◌, length, drop, min, IfOk, OnErr, MatchResult};
ghost use Rattle.v2_frame.specs.Judging.{Behind, Judged};
ghost use Rattle.v2_frame.specs.Script.{told_place};
ghost use Rattle.v2_frame.specs.Line.{HasNo};
ghost use Rattle.v2_frame.specs.Lined.{LineStarts, IsBadLine, BehindLine};
ghost use Rattle.v2_frame.specs.declared.fault.Limits.{Limits};
ghost use Rattle.v2_frame.specs.Parts.{verdict_of, sized_heading, EndsLine, HasSizedText, HasText, StaysWithin, TakesSome};

use crate::batch::{Content, content_of};
use crate::heading::heading_of;
use crate::line::{place_of, text_of, words_of};
use crate::start::{Sized, Start, start_of};
use crate::{Command, FaultKind, Limits};
use nsq_base::{Body, Memory};
use std::alloc::Global;
use v2_sizes::{Field, field_of};

/// The most bytes of a line before its line end.
const LONGEST_LINE: usize = 16384;

/// How many bytes without a line feed make a line too long.
pub(crate) const TOO_LONG_LINE: usize = 16386;

/// The place from which on faults are told as at this place.
const LAST_PLACE: u64 = 1 << 63;

/// The four bytes that a stream begins with.
pub(crate) const MAGIC: &[u8] = b"  V2";

/// What is found at a command's start.
#[derive(Drop)]
pub enum Found {
    /// A command, and how many bytes spell it.
    Whole(Command, usize),
    /// A fault, and its place from the command's first byte.
    Faulty(FaultKind, usize),
    /// Neither yet.
    Unfinished,
}

/// The place in a stream as it is told: one above 2^63 is told as 2^63.
pub fn told_place(at: u64) -> u64
    ensures { result ≡ told_place at }
{
    at.min(LAST_PLACE)
}

/// What stands at the front of bytes that begin at a command's start. It looks at whole lists and copies each body; `Reader`
/// judges the lines of its pieces in the same way. Want of memory is the only error, and comes only where a good line, a good
/// size and so many bytes behind it are there.
pub fn judge_front(alloc: Global, limits: Limits, bytes: &[u8]) -> Result<Found, Memory>
    ensures verdict { IfOk result (λ found. Judged limits bytes.now (verdict_of bytes.now found)) }
    ensures taken { IfOk result (λ found. TakesSome bytes.now found) }
    ensures memory { OnErr result (HasSizedText limits bytes.now) }
{
    match place_of(bytes, b'\n') {
        Some(end) => lined(alloc, limits, bytes, end),
        None => Ok(open_line(bytes)),
    }
}

/// What stands at the front of bytes that begin at a command's start and whose first line ends at this place. Only a
/// command with something behind its line takes memory.
pub(crate) fn lined(
    alloc: Global,
    limits: Limits,
    bytes: &[u8],
    end: usize,
) -> Result<Found, Memory>
    requires { EndsLine bytes.now end }
    ensures verdict { IfOk result (λ found. Judged limits bytes.now (verdict_of bytes.now found)) }
    ensures taken { IfOk result (λ found. TakesSome bytes.now found) }
    ensures memory { OnErr result (HasSizedText limits bytes.now) }
{
    match line_start(&bytes[..end]) {
        Err(kind) => Ok(Found::Faulty(kind, 0)),
        Ok(Start::Alone(command)) => Ok(Found::Whole(command, end + 1)),
        Ok(Start::Sized(start)) => behind_line(alloc, limits, start, bytes, end),
    }
}

/// What the line starts, or what is wrong with it.
fn line_start(line: &[u8]) -> Result<Start, FaultKind>
    ensures { MatchResult result (λ start. LineStarts line.now start) (λ kind. IsBadLine line.now kind) }
{
    let text = text_of(line);
    if text.len() > LONGEST_LINE {
        return Err(FaultKind::LineTooLong);
    }
    let Some(heading) = heading_of(words_of(text)) else {
        return Err(FaultKind::BadWord);
    };
    start_of(heading)
}

/// What stands behind the line that ends at this place, of a command that has a size there. Places count from the
/// command's first byte.
fn behind_line(
    alloc: Global,
    limits: Limits,
    start: Sized,
    bytes: &[u8],
    end: usize,
) -> Result<Found, Memory>
    requires { end < length bytes.now }
    ensures verdict { IfOk result (λ found. BehindLine limits (sized_heading start) (drop (end + 1) bytes.now) (end + 1) (verdict_of bytes.now found)) }
    ensures taken { IfOk result (λ found. TakesSome bytes.now found) }
    ensures memory { OnErr result (HasText limits (sized_heading start) (drop (end + 1) bytes.now)) }
{
    let line = end + 1;
    match behind(alloc, limits, start, &bytes[line..]) {
        Err(_) => Err(Memory),
        Ok(Found::Whole(command, taken)) => Ok(Found::Whole(command, line + taken)),
        Ok(Found::Faulty(kind, at)) => Ok(Found::Faulty(kind, line + at)),
        Ok(Found::Unfinished) => Ok(Found::Unfinished),
    }
}

/// What bytes without a line feed are.
pub(crate) fn open_line(bytes: &[u8]) -> Found
    requires { HasNo 10 bytes.now }
    ensures verdict { (limits : Limits) → Judged limits bytes.now (verdict_of bytes.now result) }
    ensures taken { TakesSome bytes.now result }
{
    if bytes.len() < TOO_LONG_LINE {
        Found::Unfinished
    } else {
        Found::Faulty(FaultKind::LineTooLong, 0)
    }
}

/// What stands behind the line of a command that has a size there.
fn behind(alloc: Global, limits: Limits, start: Sized, bytes: &[u8]) -> Result<Found, Memory>
    ensures verdict { IfOk result (λ found. Behind limits (sized_heading start) bytes.now (verdict_of bytes.now found)) }
    ensures taken { IfOk result (λ found. StaysWithin bytes.now found) }
    ensures memory { OnErr result (HasText limits (sized_heading start) bytes.now) }
{
    let (most, wrong) = start.sizing(limits);
    let size = match field_of(bytes, most) {
        Field::Open => return Ok(Found::Unfinished),
        Field::Bad => return Ok(Found::Faulty(wrong, 0)),
        Field::Whole(size) => size,
    };
    let end = 4 + size;
    let text = &bytes[4..end];
    let command = match start {
        Sized::Identify => Command::Identify(Body::copy(alloc, text)?),
        Sized::Pub(topic) => Command::Pub(topic, Body::copy(alloc, text)?),
        Sized::Dpub(topic, delay) => Command::Dpub(topic, delay, Body::copy(alloc, text)?),
        Sized::Mpub(topic) => match content_of(alloc, limits.msg, text)? {
            Content::Good(bodies) => Command::Mpub(topic, bodies),
            Content::Bad(kind, at) => return Ok(Found::Faulty(kind, at)),
        },
    };
    Ok(Found::Whole(command, end))
}
