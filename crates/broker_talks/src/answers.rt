use crate::parts::Part;
use nsq_outside::End;
use v2_frame::{Command, Frame, FrameKind};

/// The error for want of memory.
pub const MEMORY: &[u8] = b"E_MEMORY out of memory";

/// The type and the text of the frame that the client got by an entry that is this part of its conversation, with this end; None where
/// it got none, or a message.
pub fn answered<'a>(part: Part<'a>, end: End) -> Option<(FrameKind, &'a [u8])> {
    match part {
        Part::Took(command, reply) => did_answered(command, reply, end),
        Part::Refused(_, frame) => text_in(frame),
        Part::Beat => text(FrameKind::Response, b"_heartbeat_"),
        _ => None,
    }
}

// What the client of a command was answered, by the entry's end.
fn did_answered<'a>(
    command: &'a Command,
    reply: &'a Option<Frame>,
    end: End,
) -> Option<(FrameKind, &'a [u8])> {
    match end {
        End::Done => replied(reply),
        End::Faulted(_) => disk_reply(command),
        End::Skip => None,
    }
}

// What a reply says, if there is one.
fn replied(reply: &Option<Frame>) -> Option<(FrameKind, &[u8])> {
    match reply {
        Some(frame) => text_in(frame),
        None => None,
    }
}

// What a frame says.
fn text_in(frame: &Frame) -> Option<(FrameKind, &[u8])> {
    Some((frame.kind, frame.body.bytes()))
}

// A type and a text.
fn text(kind: FrameKind, text: &[u8]) -> Option<(FrameKind, &[u8])> {
    Some((kind, text))
}

// The reply to a command that a disk fault kept from being carried out, if there is one.
fn disk_reply(command: &Command) -> Option<(FrameKind, &[u8])> {
    match command {
        Command::Pub(_, _) => text(FrameKind::Error, b"E_PUB_FAILED disk fault"),
        Command::Mpub(_, _) => text(FrameKind::Error, b"E_MPUB_FAILED disk fault"),
        Command::Dpub(_, _, _) => text(FrameKind::Error, b"E_DPUB_FAILED disk fault"),
        Command::Req(_, _) => text(FrameKind::Error, b"E_REQ_FAILED disk fault"),
        _ => None,
    }
}

/// Whether the connection is closed after what the client got by this.
pub fn closes(part: Part<'_>, end: End) -> bool {
    match answered(part, end) {
        Some((kind, text)) => closes_text(kind, text),
        None => false,
    }
}

// Whether the connection is closed after a frame of this type and this text.
fn closes_text(kind: FrameKind, text: &[u8]) -> bool {
    match kind {
        FrameKind::Error => !leaves_open(text),
        FrameKind::Response => false,
        FrameKind::Message => false,
    }
}

// Whether an error of this text leaves the connection open.
fn leaves_open(text: &[u8]) -> bool {
    text.starts_with(b"E_FIN_FAILED")
        || text.starts_with(b"E_REQ_FAILED")
        || text.starts_with(b"E_TOUCH_FAILED")
}
