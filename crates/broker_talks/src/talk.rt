use crate::entries::{own, stops_before_gone};
use crate::output::{frames, is_cut_short, is_given_up, same};
use crate::parts::{Part, parts_of};
use crate::rounds::{is_closed, is_open, is_waiting};
use crate::standing::{Stream, joined};
use broker_history::{Ended, Entry};
use nsq_base::{Body, Memory};
use nsq_outside::End;
use std::alloc::Global;
use v2_frame::Limits;

/// Whether the pieces that a client sent, the entries of its connection and the bytes that it got are a conversation that ended so.
/// `stopped` says whether a Stop stands before the connection's Gone, `wanted` how many of its turns wanted memory. Want of memory is
/// the only error. It follows all ways in which the pieces may have been read between the entries, and judges the bytes from their
/// front each time. It has no contract: it is a second reading of the definitions by hand.
pub fn is_talk(
    alloc: Global,
    limits: Limits,
    stopped: bool,
    wanted: u64,
    pieces: &[Body],
    own: &[(Entry, End)],
    out: &[u8],
    ended: Ended,
) -> Result<bool, Memory> {
    let parts = parts_of(alloc, own)?;
    is_talk_of(alloc, limits, stopped, wanted, pieces, &parts, out, ended)
}

/// The same of the connection of a number in a history: its entries and its Stop are those of the history. It has no contract
/// either.
pub fn is_talk_in(
    alloc: Global,
    limits: Limits,
    number: u64,
    history: &[(Entry, End)],
    wanted: u64,
    pieces: &[Body],
    out: &[u8],
    ended: Ended,
) -> Result<bool, Memory> {
    let stopped = stops_before_gone(number, history);
    let parts = own(alloc, number, history)?;
    is_talk_of(alloc, limits, stopped, wanted, pieces, &parts, out, ended)
}

// The same of what the connection's entries are in its conversation.
fn is_talk_of(
    alloc: Global,
    limits: Limits,
    stopped: bool,
    wanted: u64,
    pieces: &[Body],
    own: &[(Part<'_>, End)],
    out: &[u8],
    ended: Ended,
) -> Result<bool, Memory> {
    let bytes = joined(alloc, pieces)?;
    let stream = Stream {
        limits,
        pieces,
        bytes: &bytes,
    };
    is_talk_over(alloc, stream, stopped, wanted, own, out, ended)
}

// The same of what the client sent.
fn is_talk_over(
    alloc: Global,
    stream: Stream<'_>,
    stopped: bool,
    wanted: u64,
    own: &[(Part<'_>, End)],
    out: &[u8],
    ended: Ended,
) -> Result<bool, Memory> {
    if let Some(parts) = without_gone(own) {
        if finishes(alloc, stream, stopped, parts, out, ended)? {
            return Ok(true);
        }
    }
    if wanted > 0 && may_lack_gone(ended) && finishes(alloc, stream, stopped, own, out, ended)? {
        return Ok(true);
    }
    never_begins(alloc, stream.pieces, own, out, ended)
}

// Whether the conversation came to its end behind these parts, and this was written.
fn finishes(
    alloc: Global,
    stream: Stream<'_>,
    stopped: bool,
    parts: &[(Part<'_>, End)],
    out: &[u8],
    ended: Ended,
) -> Result<bool, Memory> {
    if !writes(alloc, parts, out, ended)? {
        return Ok(false);
    }
    reaches(alloc, stream, stopped, parts, ended)
}

// Whether a conversation that ended so may have stood behind these entries.
fn reaches(
    alloc: Global,
    stream: Stream<'_>,
    stopped: bool,
    parts: &[(Part<'_>, End)],
    ended: Ended,
) -> Result<bool, Memory> {
    match ended {
        Ended::EndOfInput | Ended::ReadFault => is_waiting(alloc, stream, parts),
        Ended::Closed => is_reached(alloc, stream, stopped, parts),
        Ended::WriteFault | Ended::Memory => is_reached(alloc, stream, true, parts),
    }
}

// Whether the conversation came to these entries: the last ended it, or it goes on behind them, where it may.
fn is_reached(
    alloc: Global,
    stream: Stream<'_>,
    may_go_on: bool,
    parts: &[(Part<'_>, End)],
) -> Result<bool, Memory> {
    Ok(is_closed(alloc, stream, parts)? || may_go_on && is_open(alloc, stream, parts)?)
}

// Whether these bytes are what a conversation that ended so wrote for its entries.
fn writes(
    alloc: Global,
    parts: &[(Part<'_>, End)],
    out: &[u8],
    ended: Ended,
) -> Result<bool, Memory> {
    match ended {
        Ended::EndOfInput | Ended::Closed | Ended::ReadFault => is_all(alloc, parts, out),
        Ended::WriteFault => is_cut_short(alloc, parts, out),
        Ended::Memory => is_given_up(alloc, parts, out),
    }
}

// Whether all answers were written.
fn is_all(alloc: Global, parts: &[(Part<'_>, End)], out: &[u8]) -> Result<bool, Memory> {
    Ok(same(out, &frames(alloc, parts)?))
}

// Whether a conversation that ended so may lack its Gone, where the desk wanted memory.
fn may_lack_gone(ended: Ended) -> bool {
    match ended {
        Ended::Closed => false,
        Ended::EndOfInput | Ended::ReadFault | Ended::WriteFault | Ended::Memory => true,
    }
}

// The entries before the Gone, where a Gone is the last.
fn without_gone<'a>(own: &'a [(Part<'a>, End)]) -> Option<&'a [(Part<'a>, End)]> {
    match own.split_last() {
        Some(((Part::Gone, _), before)) => Some(before),
        _ => None,
    }
}

// Whether memory was wanting before the conversation began.
fn never_begins(
    alloc: Global,
    pieces: &[Body],
    own: &[(Part<'_>, End)],
    out: &[u8],
    ended: Ended,
) -> Result<bool, Memory> {
    Ok(
        matches!(ended, Ended::Memory)
            && pieces.is_empty()
            && own.is_empty()
            && is_given_up(alloc, own, out)?,
    )
}
