use crate::answers::closes;
use crate::parts::Part;
use crate::standing::{Front, MAGIC, MOST_SENT, Round, Standing, Stream, judged, settle};
use nsq_base::Memory;
use nsq_outside::End;
use std::alloc::Global;
use v2_frame::{Fault, FaultKind};

/// The place from which on faults are told as at this place.
const LAST_PLACE: u64 = 1 << 63;

/// Whether the conversation goes on behind these parts, with all pieces read.
pub fn is_open(
    alloc: Global,
    stream: Stream<'_>,
    parts: &[(Part<'_>, End)],
) -> Result<bool, Memory> {
    let standings = standings(alloc, stream, parts)?;
    Ok(has_read(&standings, stream.pieces.len()))
}

// Whether one of them read so many pieces.
fn has_read(standings: &[Standing], count: usize) -> bool {
    for standing in standings {
        if standing.read == count {
            return true;
        }
    }
    false
}

/// Whether the conversation is to read behind these parts, with all pieces read.
pub fn is_waiting(
    alloc: Global,
    stream: Stream<'_>,
    parts: &[(Part<'_>, End)],
) -> Result<bool, Memory> {
    let standings = standings(alloc, stream, parts)?;
    Ok(is_one_waiting(&standings, stream.pieces.len()))
}

// Whether one of them is to read, and read so many pieces.
fn is_one_waiting(standings: &[Standing], count: usize) -> bool {
    for standing in standings {
        if standing.read == count && standing.is_reading() {
            return true;
        }
    }
    false
}

/// Whether the last of these entries ended the conversation, with all pieces read.
pub fn is_closed(
    alloc: Global,
    stream: Stream<'_>,
    parts: &[(Part<'_>, End)],
) -> Result<bool, Memory> {
    let Some(((last, end), before)) = parts.split_last() else {
        return Ok(false);
    };
    let standings = standings(alloc, stream, before)?;
    is_one_closed(alloc, stream, &standings, *last, *end)
}

// Whether the part ends the conversation that stands in one of these ways, with all pieces read.
fn is_one_closed(
    alloc: Global,
    stream: Stream<'_>,
    standings: &[Standing],
    part: Part<'_>,
    end: End,
) -> Result<bool, Memory> {
    for standing in standings {
        if standing.read == stream.pieces.len()
            && is_closed_by(alloc, stream, *standing, part, end)?
        {
            return Ok(true);
        }
    }
    Ok(false)
}

// Where the conversation may stand behind these parts, by how the pieces may have been read between them.
fn standings(
    alloc: Global,
    stream: Stream<'_>,
    parts: &[(Part<'_>, End)],
) -> Result<Vec<Standing>, Memory> {
    let mut standings = Vec::new(alloc);
    let Some(((first, _), rest)) = parts.split_first() else {
        return Ok(standings);
    };
    if let Part::Began = first {
        settle(alloc, stream, &mut standings, Standing::first())?;
    }
    for (part, end) in rest {
        standings = behind(alloc, stream, &standings, *part, *end)?;
    }
    Ok(standings)
}

// Where the conversation may stand behind one more entry.
fn behind(
    alloc: Global,
    stream: Stream<'_>,
    standings: &[Standing],
    part: Part<'_>,
    end: End,
) -> Result<Vec<Standing>, Memory> {
    let mut next = Vec::new(alloc);
    for standing in standings {
        if let Some(led) = led_to(alloc, stream, *standing, part, end)? {
            settle(alloc, stream, &mut next, led)?;
        }
    }
    Ok(next)
}

// Where an entry leads a conversation that stands so, None where it can't be its next one, or ends it.
fn led_to(
    alloc: Global,
    stream: Stream<'_>,
    standing: Standing,
    part: Part<'_>,
    end: End,
) -> Result<Option<Standing>, Memory> {
    match standing.round {
        Round::Sending(sent) => Ok(led_sending(standing, sent, part)),
        Round::Reading => Ok(None),
        Round::Doing => {
            if closes(part, end) {
                return Ok(None);
            }
            led_doing(alloc, stream, standing, part)
        }
    }
}

// The same where so many were sent in its round.
fn led_sending(standing: Standing, sent: u64, part: Part<'_>) -> Option<Standing> {
    if sent >= MOST_SENT {
        return None;
    }
    match part {
        Part::Sent(_) | Part::Beat => Some(standing.at(Round::Sending(sent + 1))),
        Part::Rested => Some(standing.at(Round::Reading)),
        _ => None,
    }
}

// The same where its round does what was read, and the entry took a command.
fn led_doing(
    alloc: Global,
    stream: Stream<'_>,
    standing: Standing,
    part: Part<'_>,
) -> Result<Option<Standing>, Memory> {
    let Part::Took(command, _) = part else {
        return Ok(None);
    };
    match judged(alloc, stream, standing, Some(command))? {
        Front::Whole(taken) => {
            let done = standing.done.saturating_add(taken);
            Ok(Some(Standing { done, ..standing }))
        }
        _ => Ok(None),
    }
}

// Whether the entry ends a conversation that stands so.
fn is_closed_by(
    alloc: Global,
    stream: Stream<'_>,
    standing: Standing,
    part: Part<'_>,
    end: End,
) -> Result<bool, Memory> {
    match standing.round {
        Round::Sending(sent) => Ok(closes_sending(sent, part)),
        Round::Reading => Ok(false),
        Round::Doing => closes_doing(alloc, stream, standing, part, end),
    }
}

// Whether the act ends a conversation in whose round so many were sent.
fn closes_sending(sent: u64, part: Part<'_>) -> bool {
    match part {
        Part::Silent => sent < MOST_SENT,
        Part::Dropped => sent < MOST_SENT,
        _ => false,
    }
}

// Whether the entry ends a conversation whose round does what was read.
fn closes_doing(
    alloc: Global,
    stream: Stream<'_>,
    standing: Standing,
    part: Part<'_>,
    end: End,
) -> Result<bool, Memory> {
    match part {
        Part::Took(_, _) => {
            if !closes(part, end) {
                return Ok(false);
            }
            Ok(led_doing(alloc, stream, standing, part)?.is_some())
        }
        Part::Refused(fault, _) => has_fault(alloc, stream, standing, fault),
        Part::Dropped => has_command(alloc, stream, standing),
        _ => Ok(false),
    }
}

// Whether a whole command stands at the front of the bytes that aren't done.
fn has_command(alloc: Global, stream: Stream<'_>, standing: Standing) -> Result<bool, Memory> {
    match judged(alloc, stream, standing, None)? {
        Front::Whole(_) => Ok(true),
        _ => Ok(false),
    }
}

// Whether the bytes that aren't done have this fault.
fn has_fault(
    alloc: Global,
    stream: Stream<'_>,
    standing: Standing,
    fault: Fault,
) -> Result<bool, Memory> {
    if !standing.greeted {
        let kind = FaultKind::BadMagic;
        return Ok(fault == Fault { kind, at: 0 } && is_bad_magic(standing.pending(stream)));
    }
    match judged(alloc, stream, standing, None)? {
        Front::Faulty(kind, at) => {
            let at = (standing.done.saturating_add(at) as u64).min(LAST_PLACE);
            Ok(fault == Fault { kind, at })
        }
        _ => Ok(false),
    }
}

// Whether a stream of these first bytes doesn't begin with the magic.
fn is_bad_magic(bytes: &[u8]) -> bool {
    bytes.len() >= MAGIC.len() && !bytes.starts_with(MAGIC)
}
