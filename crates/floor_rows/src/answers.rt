//! Answers as text, as a turn gives them, and as the act that it noted tells them.

use crate::entries::told_by;
use crate::stats::put_stats;
use crate::texts::{put, put_names, put_number, put_sent};
use broker_history::{Act, Said, Turned};
use nsq_base::Names;
use nsq_outside::End;
use std::alloc::Global;
use std::process::Abort;
use v2_frame::{Command, Frame, FrameKind, Message, Taken};

/// What a turn answered, in full or in brief: what is in brief says neither what closes nor the moment of names, and leaves clients away.
pub fn put_answer(rt: &impl Abort, alloc: Global, out: &mut Vec<u8>, answer: &Turned, full: bool) {
    match answer {
        Turned::Reply(frame, closes) => put_reply(rt, out, frame, *closes, full),
        Turned::Send(frame) => put_push(rt, alloc, out, frame),
        Turned::Said(said) => put_said(rt, out, said, full),
        Turned::Listed(names, at) => put_listed(rt, out, names, *at, full),
        _ => put(rt, out, word_of(answer)),
    }
}

// The answer of one word.
fn word_of(answer: &Turned) -> &'static [u8] {
    match answer {
        Turned::Begun => b"begun",
        Turned::Quiet => b"quiet",
        Turned::Deleted => b"deleted",
        Turned::Stopping => b"stopping",
        Turned::Idle => b"idle",
        Turned::Silent => b"silent",
        Turned::Ended => b"ended",
        Turned::Strange => b"strange",
        _ => b"memory",
    }
}

fn put_listed(rt: &impl Abort, out: &mut Vec<u8>, names: &Names, at: u64, full: bool) {
    put(rt, out, b"names");
    if full {
        put(rt, out, b" at ");
        put_number(rt, out, u128::from(at));
    }
    put_names(rt, out, names);
}

// A reply, which says in full where its text isn't of its kind, and whether it closes.
fn put_reply(rt: &impl Abort, out: &mut Vec<u8>, frame: &Frame, closes: bool, full: bool) {
    let text = frame.body.bytes();
    put(rt, out, text);
    if !full {
        return;
    }
    if (frame.kind == FrameKind::Error) != text.starts_with(b"E_") {
        put(rt, out, b" of another kind");
    }
    if closes {
        put(rt, out, b", closes");
    }
}

fn put_push(rt: &impl Abort, alloc: Global, out: &mut Vec<u8>, frame: &Frame) {
    put(rt, out, b"sends ");
    match frame.kind {
        FrameKind::Message => put_taken(rt, out, &Message::take(alloc, frame.body.bytes())),
        FrameKind::Response => put(rt, out, frame.body.bytes()),
        FrameKind::Error => put(rt, out, b"an error"),
    }
}

fn put_taken(rt: &impl Abort, out: &mut Vec<u8>, taken: &Taken) {
    match taken {
        Taken::Whole(message) => put_sent(rt, out, message),
        Taken::Short => put(rt, out, b"too little"),
        Taken::Memory => panic!(rt; "memory"),
    }
}

fn put_said(rt: &impl Abort, out: &mut Vec<u8>, said: &Said, full: bool) {
    match said {
        Said::Done => put(rt, out, b"done"),
        Said::NoTopic => put(rt, out, b"no topic"),
        Said::NoChannel => put(rt, out, b"no channel"),
        Said::Ids => put(rt, out, b"ids spent"),
        Said::Disk => put(rt, out, b"disk fault"),
        Said::Stats(stats) => put_stats(rt, out, stats, full),
    }
}

/// What the client is answered, or is told over HTTP, of an act with this end at a moment; nothing of a move.
pub fn put_told(rt: &impl Abort, out: &mut Vec<u8>, act: &Act, at: u64, end: End) {
    put(rt, out, told_by(act).as_bytes());
    match act {
        Act::Did(command, reply) => put_done(rt, out, command, reply, end),
        Act::Refused(_, frame) => put_frame(rt, out, frame),
        Act::Sent(message) => put_sent(rt, out, message),
        Act::Asked(_, said) if end == End::Done => put_said(rt, out, said, true),
        Act::Asked(_, _) => put(rt, out, b"disk fault"),
        Act::Listed(names) => put_listed(rt, out, names, at, true),
        _ => {}
    }
}

// What the client of a command is answered.
fn put_done(
    rt: &impl Abort,
    out: &mut Vec<u8>,
    command: &Command,
    reply: &Option<Frame>,
    end: End,
) {
    if end != End::Done {
        return put_disk_fault(rt, out, command);
    }
    match reply {
        Some(frame) => put_frame(rt, out, frame),
        None => put(rt, out, b"quiet"),
    }
}

fn put_disk_fault(rt: &impl Abort, out: &mut Vec<u8>, command: &Command) {
    match command {
        Command::Pub(_, _) => put(rt, out, b"E_PUB_FAILED disk fault, closes"),
        Command::Mpub(_, _) => put(rt, out, b"E_MPUB_FAILED disk fault, closes"),
        Command::Dpub(_, _, _) => put(rt, out, b"E_DPUB_FAILED disk fault, closes"),
        Command::Req(_, _) => put(rt, out, b"E_REQ_FAILED disk fault"),
        _ => put(rt, out, b"a disk fault that cannot be"),
    }
}

// A reply: an error closes the connection, unless a message isn't in flight or can't be given back.
fn put_frame(rt: &impl Abort, out: &mut Vec<u8>, frame: &Frame) {
    let text = frame.body.bytes();
    let stays = text.starts_with(b"E_FIN_FAILED")
        || text.starts_with(b"E_REQ_FAILED")
        || text.starts_with(b"E_TOUCH_FAILED");
    let closes = frame.kind == FrameKind::Error && !stays;
    put_reply(rt, out, frame, closes, true);
}
