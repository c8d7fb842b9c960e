use broker_history::{Act, Entry};
use nsq_base::Memory;
use nsq_outside::End;
use std::alloc::Global;
use v2_frame::{Command, Fault, Frame, Message};

/// What an act is in the conversation of its connection.
#[derive(Clone, Copy)]
pub enum Part<'a> {
    /// The connection began.
    Began,
    /// This command was taken, with its reply if it has one.
    Took(&'a Command, &'a Option<Frame>),
    /// The bytes had this fault, which was answered with this frame.
    Refused(Fault, &'a Frame),
    /// This message was sent.
    Sent(&'a Message),
    /// A heartbeat was sent.
    Beat,
    /// Nothing was to be sent, or a disk fault kept it off.
    Rested,
    /// The client was silent for too long.
    Silent,
    /// The client's channel was deleted.
    Dropped,
    /// The connection ended.
    Gone,
    /// The daemon stopped: no part of a conversation.
    Stop,
    /// Nor is what names the daemon and stands in turns of any connection: a move, the daemon's Stuck, or a Ticked (`is_common`).
    Common,
    /// Nor any other.
    Other,
}

/// What the act is in the conversation of its connection.
pub fn part_of(act: &Act) -> Part<'_> {
    match act {
        Act::Did(command, reply) => Part::Took(command, reply),
        Act::Refused(fault, frame) => Part::Refused(*fault, frame),
        Act::Sent(message) => Part::Sent(message),
        Act::Stuck(_, Some(_)) => Part::Rested,
        Act::Asked(_, _) | Act::Listed(_) => Part::Other,
        _ => plain_part(act),
    }
}

// The same of an act that says nothing more.
fn plain_part(act: &Act) -> Part<'_> {
    match act {
        Act::Began => Part::Began,
        Act::Beat => Part::Beat,
        Act::Idle => Part::Rested,
        Act::Silent => Part::Silent,
        Act::Dropped => Part::Dropped,
        Act::Gone => Part::Gone,
        Act::Stop => Part::Stop,
        _ => Part::Common,
    }
}

/// What these entries are in the conversation of their connection, each with its end.
pub fn parts_of(alloc: Global, entries: &[(Entry, End)]) -> Result<Vec<(Part<'_>, End)>, Memory> {
    let mut parts = Vec::new(alloc);
    put_parts(&mut parts, entries)?;
    Ok(parts)
}

// Adds what these entries are.
fn put_parts<'a>(
    parts: &mut Vec<(Part<'a>, End)>,
    entries: &'a [(Entry, End)],
) -> Result<(), Memory> {
    for (entry, end) in entries {
        put_part(parts, part_of(&entry.act), *end)?;
    }
    Ok(())
}

/// Adds what an entry with this end is.
pub fn put_part<'a>(
    parts: &mut Vec<(Part<'a>, End)>,
    part: Part<'a>,
    end: End,
) -> Result<(), Memory> {
    parts.reserve(1)?;
    parts.push_reserved((part, end));
    Ok(())
}
