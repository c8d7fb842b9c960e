//! Connections that are served at a floor that answers by a script.
use super::scripted::ScriptedFloor;
use super::trace::Trace;
use broker_history::FloorDesk;
use daemon_callers::{Ended, serve_v2};
use nsq_base::{Body, Memory};
use nsq_fakes::Piece;
use nsq_outside::Conn;
use std::alloc::Global;
use std::sync::Wait;
use v2_frame::Limits;

/// The limits of each connection.
const LIMITS: Limits = Limits { msg: 5, body: 100 };

/// What a connection in memory reads.
pub fn pieces_of(alloc: Global, pieces: &[Vec<u8>]) -> Result<Vec<Piece>, Memory> {
    let mut all = Vec::new(alloc);
    for piece in pieces {
        put_made(&mut all, piece_of(alloc, piece))?;
    }
    Ok(all)
}

/// A piece of these bytes.
fn piece_of(alloc: Global, bytes: &[u8]) -> Result<Piece, Memory> {
    if bytes.is_empty() {
        Ok(Piece::Nothing)
    } else {
        Ok(Piece::Bytes(Body::copy(alloc, bytes)?))
    }
}

/// Adds one that was made behind a list, where memory didn't want.
fn put_made<T: Drop>(list: &mut Vec<T>, made: Result<T, Memory>) -> Result<(), Memory> {
    list.push(made?)?;
    Ok(())
}

/// Serves a connection of number 7 at a floor that answers by this script, and gives how it ended and how often memory was wanting
/// for its Gone.
pub fn serve_by<R: Wait, K: Conn>(
    rt: &R,
    alloc: Global,
    conn: &mut K,
    floor: &mut ScriptedFloor<'_>,
) -> (Ended, u64) {
    let mut desk = FloorDesk {
        floor,
        number: 7,
        wanted: 0,
    };
    let ended = serve_v2(rt, alloc, 7, conn, &mut desk, LIMITS);
    (ended, desk.wanted)
}

/// A floor that answers by this script, and from the turn of this number on has stopped.
pub fn floor_of(script: Vec<u8>, stops: usize, trace: &Trace) -> ScriptedFloor<'_> {
    ScriptedFloor {
        script,
        made: 0,
        stops,
        number: 0,
        command: None,
        trace,
    }
}
