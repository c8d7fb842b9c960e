use crate::answers::{MEMORY, answered};
use crate::parts::Part;
use nsq_base::Memory;
use nsq_outside::End;
use std::alloc::Global;
use v2_frame::{FrameKind, Message};

/// Whether two texts are equal.
pub fn same(one: &[u8], other: &[u8]) -> bool {
    one == other
}

// Adds these texts, in order.
fn put_each(bytes: &mut Vec<u8>, texts: &[&[u8]]) -> Result<(), Memory> {
    for text in texts {
        bytes.extend_from_slice(text)?;
    }
    Ok(())
}

/// The bytes that entries of these parts write to their client, in order.
pub fn frames(alloc: Global, parts: &[(Part<'_>, End)]) -> Result<Vec<u8>, Memory> {
    let mut bytes = Vec::new(alloc);
    put_answers(&mut bytes, parts)?;
    Ok(bytes)
}

// Adds the bytes that entries of these parts write to their client, in order.
fn put_answers(bytes: &mut Vec<u8>, parts: &[(Part<'_>, End)]) -> Result<(), Memory> {
    for (part, end) in parts {
        put_answer(bytes, *part, *end)?;
    }
    Ok(())
}

// Adds the bytes that an entry writes to its client.
fn put_answer(bytes: &mut Vec<u8>, part: Part<'_>, end: End) -> Result<(), Memory> {
    if let Part::Sent(message) = part {
        return put_message(bytes, message);
    }
    match answered(part, end) {
        Some((kind, text)) => put_frame(bytes, kind, text),
        None => Ok(()),
    }
}

// Adds the bytes of a frame of this type and this text.
fn put_frame(bytes: &mut Vec<u8>, kind: FrameKind, text: &[u8]) -> Result<(), Memory> {
    let size = size4(4 + text.len() as u64);
    let kind = size4(type_of(kind));
    put_each(bytes, &[&size, &kind, text])
}

// Adds the bytes of the frame of a message: 26 bytes of it stand before its body.
fn put_message(bytes: &mut Vec<u8>, message: &Message) -> Result<(), Memory> {
    let body = message.body.bytes();
    let size = size4(30 + body.len() as u64);
    let kind = size4(type_of(FrameKind::Message));
    let stamp = message.stamp.to_be_bytes();
    let attempts = message.attempts.to_be_bytes();
    put_each(
        bytes,
        &[&size, &kind, &stamp, &attempts, message.id.bytes(), body],
    )
}

// The number of a frame's type.
fn type_of(kind: FrameKind) -> u64 {
    match kind {
        FrameKind::Response => 0,
        FrameKind::Error => 1,
        FrameKind::Message => 2,
    }
}

// The lowest four bytes of a number, most significant first.
fn size4(size: u64) -> [u8; 4] {
    let [_, _, _, _, a, b, c, d] = size.to_be_bytes();
    [a, b, c, d]
}

/// Whether all answers but the last entry's were written, and of that one the first bytes.
pub fn is_cut_short(alloc: Global, parts: &[(Part<'_>, End)], out: &[u8]) -> Result<bool, Memory> {
    match parts.split_last() {
        Some(((last, end), before)) => {
            let mut text = Vec::new(alloc);
            put_answer(&mut text, *last, *end)?;
            is_cut_behind(alloc, before, out, &text)
        }
        None => Ok(false),
    }
}

// Whether all answers of these entries were written, and then the first bytes of a text that isn't empty.
fn is_cut_behind(
    alloc: Global,
    parts: &[(Part<'_>, End)],
    out: &[u8],
    text: &[u8],
) -> Result<bool, Memory> {
    if text.is_empty() {
        return Ok(false);
    }
    is_behind(alloc, parts, out, text)
}

/// Whether all answers were written, or all but the last entry's, and then the first bytes of the frame for want of memory.
pub fn is_given_up(alloc: Global, parts: &[(Part<'_>, End)], out: &[u8]) -> Result<bool, Memory> {
    let mut text = Vec::new(alloc);
    put_frame(&mut text, FrameKind::Error, MEMORY)?;
    is_ended_by(alloc, parts, out, &text)
}

// Whether all answers were written, or all but the last entry's, and then the first bytes of the text.
fn is_ended_by(
    alloc: Global,
    parts: &[(Part<'_>, End)],
    out: &[u8],
    text: &[u8],
) -> Result<bool, Memory> {
    if is_behind(alloc, parts, out, text)? {
        return Ok(true);
    }
    match parts.split_last() {
        Some((_, before)) => is_behind(alloc, before, out, text),
        None => Ok(false),
    }
}

// Whether the bytes are all answers of these entries, and then some first bytes of the text.
fn is_behind(
    alloc: Global,
    parts: &[(Part<'_>, End)],
    bytes: &[u8],
    text: &[u8],
) -> Result<bool, Memory> {
    Ok(is_cut(bytes, &frames(alloc, parts)?, text))
}

// Whether the bytes are the front and then some first bytes of the text.
fn is_cut(bytes: &[u8], front: &[u8], text: &[u8]) -> bool {
    match bytes.strip_prefix(front) {
        Some(rest) => text.starts_with(rest),
        None => false,
    }
}
