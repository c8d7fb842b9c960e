ghost use Rattle.std.specs.Prelude.{◌≡◌, ◌↔◌, ◌++◌, if◌then◌else◌, codes, Some, IfOk, IsTrue};
ghost use Rattle.broker_history.specs.Identify.{identity_of};
ghost use Rattle.broker_history.specs.Reply.{are_left, delayed_reply, error, flight_reply, identified, ok_frame, publish_reply, ready_reply, reply_by, response, wrong_state};
ghost use Rattle.broker_history.specs.State.{is_fresh, is_subscribed};
ghost use Rattle.broker_state.specs.Phases.{phase_of, is_span_to, is_count_to};

use crate::identities::identified;
use crate::phase::Phase;
use nsq_base::{Body, Memory, Options};
use std::alloc::Global;
use v2_frame::{Command, Frame, FrameKind};

/// The reply to a command, or none: with these options, where so many ids were used, the client is in this phase, and the message that the
/// command names is in flight with it or isn't. Want of memory is the only error.
pub fn reply(
    alloc: Global,
    options: &Options,
    used: u64,
    phase: Phase,
    flies: bool,
    command: &Command,
) -> Result<Option<Frame>, Memory>
    ensures { IfOk result (λ reply. reply ≡ reply_by options.now used (phase_of phase) (λ id. flies) command.now) }
{
    match command {
        Command::Identify(body) => identify_reply(alloc, options, phase, body.bytes()),
        Command::Sub(_, _) => subscribe_reply(alloc, phase),
        Command::Pub(_, _) => publish_reply(alloc, used, b"E_PUB_FAILED", 1),
        Command::Mpub(_, bodies) => {
            publish_reply(alloc, used, b"E_MPUB_FAILED", bodies.count() as u64)
        }
        Command::Dpub(_, delay, _) => delayed_reply(alloc, options, used, *delay),
        Command::Rdy(count) => ready_reply(alloc, options, phase, *count),
        Command::Fin(_) => flight_reply(alloc, phase, b"E_FIN_FAILED", flies),
        Command::Req(_, _) => flight_reply(alloc, phase, b"E_REQ_FAILED", flies),
        Command::Touch(_) => flight_reply(alloc, phase, b"E_TOUCH_FAILED", flies),
        Command::Cls => close_reply(alloc, phase),
        Command::Nop => Ok(None),
    }
}

// The reply to IDENTIFY.
fn identify_reply(
    alloc: Global,
    options: &Options,
    phase: Phase,
    body: &[u8],
) -> Result<Option<Frame>, Memory>
    ensures { IfOk result (λ reply. reply ≡ Some (if is_fresh (phase_of phase) then identified options.now (identity_of options.now body.now) else wrong_state)) }
{
    if is_fresh(phase) {
        Ok(Some(identified(alloc, options, body)?))
    } else {
        misplaced(alloc)
    }
}

// The reply to SUB.
fn subscribe_reply(alloc: Global, phase: Phase) -> Result<Option<Frame>, Memory>
    ensures { IfOk result (λ reply. reply ≡ Some (if is_fresh (phase_of phase) then ok_frame else wrong_state)) }
{
    if is_fresh(phase) {
        done(alloc)
    } else {
        misplaced(alloc)
    }
}

// The reply to CLS.
fn close_reply(alloc: Global, phase: Phase) -> Result<Option<Frame>, Memory>
    ensures { IfOk result (λ reply. reply ≡ Some (if is_subscribed (phase_of phase) then response (codes "CLOSE_WAIT") else wrong_state)) }
{
    match phase {
        Phase::Subscribed => said(alloc, FrameKind::Response, b"CLOSE_WAIT"),
        Phase::Fresh => misplaced(alloc),
        Phase::Closing => misplaced(alloc),
        Phase::Lost => misplaced(alloc),
    }
}

// The reply to a publish of so many messages.
fn publish_reply(alloc: Global, used: u64, word: &[u8], count: u64) -> Result<Option<Frame>, Memory>
    ensures { IfOk result (λ reply. reply ≡ Some (publish_reply used word.now count)) }
{
    if are_left(used, count) {
        done(alloc)
    } else {
        error(alloc, word, b" ids spent")
    }
}

// The reply to DPUB.
fn delayed_reply(
    alloc: Global,
    options: &Options,
    used: u64,
    delay: i64,
) -> Result<Option<Frame>, Memory>
    ensures { IfOk result (λ reply. reply ≡ Some (delayed_reply options.now used delay)) }
{
    if is_delay(options.max_req_timeout, delay) {
        publish_reply(alloc, used, b"E_DPUB_FAILED", 1)
    } else {
        error(alloc, b"E_INVALID", b" bad delay")
    }
}

// The reply to RDY.
fn ready_reply(
    alloc: Global,
    options: &Options,
    phase: Phase,
    count: i64,
) -> Result<Option<Frame>, Memory>
    ensures { IfOk result (λ reply. reply ≡ ready_reply options.now (phase_of phase) count) }
{
    match phase {
        Phase::Fresh => misplaced(alloc),
        Phase::Subscribed => {
            if is_ready_count(options.max_rdy_count, count) {
                Ok(None)
            } else {
                error(alloc, b"E_INVALID", b" bad count")
            }
        }
        Phase::Closing => Ok(None),
        Phase::Lost => Ok(None),
    }
}

// The reply to a command on a message.
fn flight_reply(
    alloc: Global,
    phase: Phase,
    word: &[u8],
    flies: bool,
) -> Result<Option<Frame>, Memory>
    ensures { IfOk result (λ reply. reply ≡ flight_reply (phase_of phase) word.now flies) }
{
    if is_fresh(phase) {
        return misplaced(alloc);
    }
    if flies {
        return Ok(None);
    }
    error(alloc, word, b" message not in flight")
}

// Whether the client has no channel yet.
fn is_fresh(phase: Phase) -> bool
    ensures { result ≡ is_fresh (phase_of phase) }
{
    match phase {
        Phase::Fresh => true,
        Phase::Subscribed => false,
        Phase::Closing => false,
        Phase::Lost => false,
    }
}

/// Whether so many ids are left, where so many were used.
pub fn are_left(used: u64, count: u64) -> bool
    ensures { result ≡ are_left used count }
{
    match used.checked_add(count) {
        Some(sum) => sum <= 1 << 40,
        None => false,
    }
}

// Whether a message may be published with so many milliseconds of delay.
fn is_delay(most: u64, delay: i64) -> bool
    ensures { result ≡ is_span_to most delay }
{
    delay >= 0 && u128::from(delay as u64) * 1_000_000 <= u128::from(most)
}

// Whether a client may ask for so many messages.
fn is_ready_count(most: u32, count: i64) -> bool
    ensures { result ≡ is_count_to most count }
{
    count >= 0 && count <= i64::from(most)
}

/// The frame that says that a command was carried out. Want of memory is the only error.
pub fn ok_frame(alloc: Global) -> Result<Frame, Memory>
    ensures { IfOk result (λ frame. frame ≡ ok_frame) }
{
    frame(alloc, FrameKind::Response, b"OK")
}

// The reply that says so.
fn done(alloc: Global) -> Result<Option<Frame>, Memory>
    ensures { IfOk result (λ reply. reply ≡ Some ok_frame) }
{
    said(alloc, FrameKind::Response, b"OK")
}

// The error that a command doesn't fit the client's phase.
fn misplaced(alloc: Global) -> Result<Option<Frame>, Memory>
    ensures { IfOk result (λ reply. reply ≡ Some wrong_state) }
{
    said(alloc, FrameKind::Error, b"E_INVALID not in this state")
}

// An error of two texts, one behind the other.
fn error(alloc: Global, word: &[u8], text: &[u8]) -> Result<Option<Frame>, Memory>
    ensures { IfOk result (λ reply. reply ≡ Some (error (word.now ++ text.now))) }
{
    let mut bytes = Vec::from_slice(alloc, word)?;
    bytes.extend_from_slice(text)?;
    Ok(Some(Frame {
        kind: FrameKind::Error,
        body: Body::of(bytes),
    }))
}

// A reply of a kind and a text.
fn said(alloc: Global, kind: FrameKind, text: &[u8]) -> Result<Option<Frame>, Memory>
    ensures { IfOk result (λ reply. reply ≡ Some (record { kind = kind; body = text.now })) }
{
    Ok(Some(frame(alloc, kind, text)?))
}

// A frame of a kind and a text.
pub(crate) fn frame(alloc: Global, kind: FrameKind, text: &[u8]) -> Result<Frame, Memory>
    ensures { IfOk result (λ frame. frame ≡ record { kind = kind; body = text.now }) }
{
    let body = Body::copy(alloc, text)?;
    Ok(Frame { kind, body })
}

/// Whether two frames are equal.
pub fn same_frame(a: &Frame, b: &Frame) -> bool
    ensures { IsTrue result ↔ (a.now ≡ b.now) }
{
    a.kind == b.kind && a.body.bytes() == b.body.bytes()
}

/// Whether two replies are equal.
pub fn same_reply(a: &Option<Frame>, b: &Option<Frame>) -> bool
    ensures { IsTrue result ↔ (a.now ≡ b.now) }
{
    match a {
        Some(a) => match b {
            Some(b) => same_frame(a, b),
            None => false,
        },
        None => b.is_none(),
    }
}
