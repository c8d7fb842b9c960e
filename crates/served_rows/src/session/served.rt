//! A connection that is served from its first byte to its end at a floor that answers by a script, and what must be seen of it.

use super::letters::put_frames;
use super::lines::{ANSWERS, CALLS, ENDED, FAILS, SENT, WANTED, WRITTEN, pieces_in};
use crate::conn::{Fails, Watch, WatchedConn, conn_of, failing, let_go};
use crate::lists::{copied, same};
use crate::scripts::{ScriptedFloor, Trace, floor_of, serve_by};
use crate::text::{column, spread, unknown, word_of};
use std::alloc::Global;
use std::process::Abort;
use std::sync::Wait;

/// A connection that is to be served, what it is served by, and what must be seen of it.
#[derive(Drop)]
pub struct Case {
    /// What the client sends, in pieces; an empty one is a read that gives nothing.
    pub pieces: Vec<Vec<u8>>,
    /// The letters of the floor's answers.
    pub script: Vec<u8>,
    pub fails: Fails,
    /// The most bytes that one write takes.
    pub takes: usize,
    /// From the turn of this number on the daemon has stopped.
    pub stops: usize,
    /// How it must end.
    pub ended: &'static str,
    /// How often memory must be wanting for the Gone.
    pub wanted: u64,
    pub written: Vec<u8>,
    /// The letters of all turns, reads and writes, in their order.
    pub trace: Vec<u8>,
    /// How the first command must print that comes to the floor; empty where that isn't looked at.
    pub command: &'static str,
}

/// The case that a line says.
pub fn case_of(rt: &impl Abort, alloc: Global, line: &'static str) -> Case {
    let mut written = Vec::new(alloc);
    put_frames(rt, &mut written, &spread(rt, alloc, column(line, WRITTEN)));
    Case {
        pieces: pieces_in(rt, alloc, column(line, SENT)),
        script: spread(rt, alloc, column(line, ANSWERS)),
        fails: failing(rt, column(line, FAILS)),
        takes: usize::MAX,
        stops: usize::MAX,
        ended: column(line, ENDED),
        wanted: wanted_by(rt, column(line, WANTED)),
        written,
        trace: spread(rt, alloc, column(line, CALLS)),
        command: "",
    }
}

// How often memory is wanting for a Gone, by its word.
fn wanted_by(rt: &impl Abort, word: &str) -> u64 {
    match word {
        "" => 0,
        "once" => 1,
        _ => unknown(rt, word),
    }
}

/// The frames of all answers must be written.
pub fn write_all(rt: &impl Abort, case: &mut Case) {
    put_frames(rt, &mut case.written, &case.script);
}

/// Whether a connection is served so.
pub fn goes<R: Abort + Wait>(rt: &R, alloc: Global, case: &Case) -> bool {
    let trace = Trace::new(alloc, case.trace.len().saturating_add(16)).expect(rt, "memory");
    let mut conn = WatchedConn {
        inner: conn_of(rt, alloc, &case.pieces, case.fails),
        most: case.takes,
        watch: Watch::Letters(&trace),
    };
    let mut floor = floor_of(copied(rt, alloc, &case.script), case.stops, &trace);
    let (ended, wanted) = serve_by(rt, alloc, &mut conn, &mut floor);
    let has_ended = wanted == case.wanted
        && same(word_of(ended).as_bytes(), case.ended.as_bytes())
        && same(conn.written(), &case.written);
    let_go(conn);
    let is_noted = is_command(&floor.command, case.command);
    let_floor_go(floor);
    has_ended && is_noted && has_letters(rt, alloc, &trace, &case.trace)
}

/// Takes a floor apart that answers by a script.
pub fn let_floor_go(_floor: ScriptedFloor<'_>) {}

/// Ends the run where the row of this name doesn't hold.
pub fn check(rt: &impl Abort, holds: bool, name: &str) {
    assert!(rt; holds, "{name}");
}

/// Whether a trace has these letters, in this order.
pub fn has_letters(rt: &impl Abort, alloc: Global, trace: &Trace, letters: &[u8]) -> bool {
    let noted = trace.letters(alloc).expect(rt, "memory");
    same(&noted, letters)
}

// Whether the first command that came to a floor prints so, where that is looked at.
fn is_command(came: &Option<String>, prints: &str) -> bool {
    match came {
        Some(text) if !prints.is_empty() => same(text.as_bytes(), prints.as_bytes()),
        _ => prints.is_empty(),
    }
}
