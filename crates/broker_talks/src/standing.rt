use crate::commands::same_command;
use nsq_base::{Body, Memory};
use std::alloc::Global;
use v2_frame::{Command, FaultKind, Found, Limits, judge_front};

/// The four bytes that a stream begins with.
pub const MAGIC: &[u8] = b"  V2";

/// The most bytes that one read gives.
const LONGEST_PIECE: usize = 16384;

/// The most that is sent in a round.
pub const MOST_SENT: u64 = 64;

/// Where a round stands.
#[derive(Clone, Copy, PartialEq)]
pub enum Round {
    /// So many were sent in it.
    Sending(u64),
    /// It is to read.
    Reading,
    /// It does what was read.
    Doing,
}

/// What a client sent.
#[derive(Clone, Copy)]
pub struct Stream<'a> {
    /// The greatest sizes that are taken in it.
    pub limits: Limits,
    /// Its pieces.
    pub pieces: &'a [Body],
    /// The bytes of its pieces.
    pub bytes: &'a [u8],
}

/// Where a conversation may stand behind its entries.
#[derive(Clone, Copy, PartialEq)]
pub struct Standing {
    /// How many pieces were read.
    pub read: usize,
    /// How many bytes these pieces have.
    pub got: usize,
    /// Whether the magic was read.
    pub greeted: bool,
    /// How many bytes of the stream are done, the magic among them.
    pub done: usize,
    /// Where its round stands.
    pub round: Round,
}

impl Standing {
    /// Where a conversation stands that began.
    pub fn first() -> Standing {
        Standing {
            read: 0,
            got: 0,
            greeted: false,
            done: 0,
            round: Round::Sending(0),
        }
    }

    /// The same, but for its round.
    pub fn at(self, round: Round) -> Standing {
        Standing { round, ..self }
    }

    /// Whether its round is to read.
    pub fn is_reading(self) -> bool {
        match self.round {
            Round::Reading => true,
            Round::Sending(_) | Round::Doing => false,
        }
    }

    /// Those of the bytes read that aren't done.
    pub fn pending<'a>(&self, stream: Stream<'a>) -> &'a [u8] {
        match stream.bytes.get(self.done..self.got) {
            Some(pending) => pending,
            None => b"",
        }
    }
}

/// The bytes of pieces, one behind another.
pub fn joined(alloc: Global, pieces: &[Body]) -> Result<Vec<u8>, Memory> {
    let mut bytes = Vec::new(alloc);
    for piece in pieces {
        bytes.extend_from_slice(piece.bytes())?;
    }
    Ok(bytes)
}

/// What stands at the front of the bytes that aren't done, behind the magic.
#[derive(Clone, Copy)]
pub enum Front {
    /// The wanted command, or any where none is, of so many bytes.
    Whole(usize),
    /// This fault, at this place.
    Faulty(FaultKind, usize),
    /// Another command than the wanted one, or the magic isn't done.
    Other,
    /// None of these yet.
    Unfinished,
}

/// What stands at the front of the bytes of a conversation that stands so.
pub fn judged(
    alloc: Global,
    stream: Stream<'_>,
    standing: Standing,
    wanted: Option<&Command>,
) -> Result<Front, Memory> {
    if !standing.greeted {
        return Ok(Front::Other);
    }
    let found = judge_front(alloc, stream.limits, standing.pending(stream))?;
    Ok(front_of(&found, wanted))
}

// The same of what was found there.
fn front_of(found: &Found, wanted: Option<&Command>) -> Front {
    match found {
        Found::Whole(command, taken) => if is_wanted(command, wanted) {
            Front::Whole(*taken)
        } else {
            Front::Other
        },
        Found::Faulty(kind, at) => Front::Faulty(*kind, *at),
        Found::Unfinished => Front::Unfinished,
    }
}

// Whether the command is the wanted one, or none is wanted.
fn is_wanted(command: &Command, wanted: Option<&Command>) -> bool {
    match wanted {
        Some(wanted) => same_command(command, wanted),
        None => true,
    }
}

/// Adds to the standings one that isn't among them, and those to which it leads without an entry: 64 sent are followed by a read; a
/// read gives nothing or the next piece; the magic is done; and where nothing more can be done, a new round begins.
pub fn settle(
    alloc: Global,
    stream: Stream<'_>,
    standings: &mut Vec<Standing>,
    standing: Standing,
) -> Result<(), Memory> {
    match standing.round {
        Round::Sending(sent) => {
            add(standings, standing)?;
            if sent == MOST_SENT {
                settle_reading(alloc, stream, standings, standing.at(Round::Reading))?;
            }
            Ok(())
        }
        Round::Reading => settle_reading(alloc, stream, standings, standing),
        Round::Doing => settle_doing(alloc, stream, standings, standing),
    }
}

// The same of one that is to read.
fn settle_reading(
    alloc: Global,
    stream: Stream<'_>,
    standings: &mut Vec<Standing>,
    standing: Standing,
) -> Result<(), Memory> {
    add(standings, standing)?;
    add(standings, standing.at(Round::Sending(0)))?;
    let Some(piece) = stream.pieces.get(standing.read) else {
        return Ok(());
    };
    let size = piece.bytes().len();
    if size == 0 || size > LONGEST_PIECE {
        return Ok(());
    }
    let read = Standing {
        read: standing.read + 1,
        got: standing.got.saturating_add(size),
        round: Round::Doing,
        ..standing
    };
    settle_doing(alloc, stream, standings, read)
}

// The same of one that does what was read.
fn settle_doing(
    alloc: Global,
    stream: Stream<'_>,
    standings: &mut Vec<Standing>,
    standing: Standing,
) -> Result<(), Memory> {
    add(standings, standing)?;
    if standing.greeted {
        return settle_greeted(alloc, stream, standings, standing);
    }
    let pending = standing.pending(stream);
    if pending.len() < MAGIC.len() {
        return add(standings, standing.at(Round::Sending(0)));
    }
    if !pending.starts_with(MAGIC) {
        return Ok(());
    }
    let greeted = Standing {
        greeted: true,
        done: standing.done.saturating_add(MAGIC.len()),
        ..standing
    };
    add(standings, greeted)?;
    settle_greeted(alloc, stream, standings, greeted)
}

// The same of one that stands among the standings, behind the magic.
fn settle_greeted(
    alloc: Global,
    stream: Stream<'_>,
    standings: &mut Vec<Standing>,
    standing: Standing,
) -> Result<(), Memory> {
    match judged(alloc, stream, standing, None)? {
        Front::Unfinished => add(standings, standing.at(Round::Sending(0))),
        _ => Ok(()),
    }
}

// Adds one that isn't among the standings.
fn add(standings: &mut Vec<Standing>, standing: Standing) -> Result<(), Memory> {
    if !standings.contains(&standing) {
        standings.push(standing)?;
    }
    Ok(())
}
