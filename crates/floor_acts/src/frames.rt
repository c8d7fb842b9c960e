ghost use Rattle.std.specs.Prelude.{◌≡◌, ◌<◌, ◌≤◌, ◌+◌, ◌++◌, ◌^◌, length, IfOk};
ghost use Rattle.broker_history.specs.Reply.{beat_frame, closes, error, leaves_open, message_frame, ok_frame, refusal, wrong_state};
ghost use Rattle.floor_acts.specs.Replies.{IsShortFrame};

use nsq_base::{Body, Memory};
use std::alloc::Global;
use v2_frame::{Fault, Frame, FrameKind, Message};

/// The frame of a heartbeat. Want of memory is the only error.
pub fn beat_frame(alloc: Global) -> Result<Frame, Memory>
    ensures value { IfOk result (λ frame. frame ≡ beat_frame) }
    ensures short { IfOk result IsShortFrame }
{
    frame(alloc, FrameKind::Response, b"_heartbeat_")
}

/// The frame of a message. Want of memory is the only error. Requires a body of at most 16,777,216 bytes.
pub fn message_frame(alloc: Global, message: &Message) -> Result<Frame, Memory>
    requires { length message.now.body ≤ 16777216 }
    ensures value { IfOk result (λ frame. frame ≡ message_frame message.now) }
    ensures short { IfOk result IsShortFrame }
{
    let size = 26 + message.body.bytes().len();
    let mut bytes = vec![in alloc; 0u8; size]?;
    message.put(&mut bytes);
    Ok(Frame {
        kind: FrameKind::Message,
        body: Body::of(bytes),
    })
}

/// The answer to a fault in a client's bytes. Want of memory is the only error.
pub fn refusal(alloc: Global, fault: Fault) -> Result<Frame, Memory>
    ensures value { IfOk result (λ frame. frame ≡ refusal fault) }
    ensures short { IfOk result IsShortFrame }
{
    let text = fault.kind.text();
    frame(alloc, FrameKind::Error, text)
}

/// Whether the connection is closed after this frame.
pub fn closes(frame: &Frame) -> bool
    ensures { result ≡ closes frame.now }
{
    match frame.kind {
        FrameKind::Response | FrameKind::Message => false,
        FrameKind::Error => !leaves_open(frame.body.bytes()),
    }
}

// Whether an error of this text leaves the connection open.
fn leaves_open(text: &[u8]) -> bool
    ensures { result ≡ leaves_open text.now }
{
    text.starts_with(b"E_FIN_FAILED")
        || text.starts_with(b"E_REQ_FAILED")
        || text.starts_with(b"E_TOUCH_FAILED")
}

// The frame that says that a command was carried out.
pub(crate) fn ok_frame(alloc: Global) -> Result<Frame, Memory>
    ensures value { IfOk result (λ frame. frame ≡ ok_frame) }
    ensures short { IfOk result IsShortFrame }
{
    frame(alloc, FrameKind::Response, b"OK")
}

// The error that a command doesn't fit the client's phase.
pub(crate) fn wrong_state(alloc: Global) -> Result<Frame, Memory>
    ensures value { IfOk result (λ frame. frame ≡ wrong_state) }
    ensures short { IfOk result IsShortFrame }
{
    frame(alloc, FrameKind::Error, b"E_INVALID not in this state")
}

// An error of two texts, one behind the other.
pub(crate) fn error(alloc: Global, word: &[u8], text: &[u8]) -> Result<Frame, Memory>
    requires { length word.now + length text.now < 2 ^ 31 }
    ensures value { IfOk result (λ frame. frame ≡ error (word.now ++ text.now)) }
    ensures short { IfOk result IsShortFrame }
{
    let mut bytes = Vec::from_slice(alloc, word)?;
    bytes.extend_from_slice(text)?;
    Ok(Frame {
        kind: FrameKind::Error,
        body: Body::of(bytes),
    })
}

// A frame of a kind and a text.
pub(crate) fn frame(alloc: Global, kind: FrameKind, text: &[u8]) -> Result<Frame, Memory>
    requires { length text.now < 2 ^ 31 }
    ensures value { IfOk result (λ frame. frame ≡ record { kind = kind; body = text.now }) }
    ensures short { IfOk result IsShortFrame }
{
    let body = Body::copy(alloc, text)?;
    Ok(Frame { kind, body })
}
