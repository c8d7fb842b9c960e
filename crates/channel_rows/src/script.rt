//! Scripts of calls of a channel over a folder in memory: what each call answers, what the channel counts then, and what its files have.
//!
//! A script is a text: its name, what it begins with, and behind a `:` its steps, with a `;` between them.
//!
//! It begins with a channel's name and how many queued copies are kept in memory; with the call of the folder that fails, and from which one of its
//! kind up to which; and behind `with` with the lines of the metadata. The channel's clients asked for no message yet.
//!
//! A step is a call and behind `->` its answer, `done` where that isn't given. Copies are named by the numbers of their ids, and what may be left out
//! is 0:
//!
//! - `offer` NUMBER LETTER DELAY AT ATTEMPTS, `give` CLIENT AT, `put-back` CLIENT AT (what was drawn), `finish` CLIENT NUMBER,
//!   `touch` CLIENT NUMBER AT, `requeue` CLIENT NUMBER DELAY AT, `move` AT (what is due first is put back), `ready` CLIENT COUNT, `pause` on or off,
//!   `come-again` (the second client leaves, and subscribes again), `sync`, `empty`, `delete` (and made anew), `flush`, `open` (in place of this one).
//! - `done`, `fault` (the folder failed), `send` NUMBER LETTER ATTEMPTS, `held` NUMBER, `no-credit`, `paused`, `none-queued`, `not-yours` (the copy isn't
//!   in flight with the client), `timed-out` NUMBER, `came-due` NUMBER, `stays` NUMBER (it is due, and the folder failed), `nothing` (is due), `not-due`
//!   (a save), `bad-metadata`.
//!
//! Or it is a look at the channel: `look` CLIENT NUMBER with its answer, `next-due` with its moment or `none`, `places` (so many are queued, on disk, in
//! flight and deferred), `events` (so many joined, were given back and timed out), `has` FILE PIECES (with nothing between them), `has-lines` FILE LINES,
//! and `absent` FILE.

ghost use Rattle.std.specs.Prelude.{◌≡◌, ◌<◌};
ghost use Rattle.channel_core.specs.Made.{FitsRun};

use crate::calls::{call_in, client_named};
use crate::stage::{Scratch, Stage, defaults, end, setup_of};
use crate::words::{check, cut, halves, id, moment, number, part, same, unknown, words};
use crate::{sending, storing};
use channel_core::{Channel, Look};
use nsq_base::{Memory, Steps};
use nsq_fakes::{Failing, FolderCall, MemFolder};
use std::alloc::Global;
use std::marker::Brand;
use std::process::Abort;
use std::sync::ledger::{Blank, Ledger};

// Whether each step of a script answers what it says.
fn holds<L: Ledger>(rt: &impl Abort, stage: &mut Stage<L>, script: &str) -> bool {
    let (_, rest) = part(rt, script, "\n");
    let (begun, steps) = part(rt, rest, ":");
    begin(rt, stage, begun.trim()).expect(rt, "memory");
    stage.channel.name() == stage.setup.name && steps_hold(rt, stage, steps)
}

fn steps_hold<L: Ledger>(rt: &impl Abort, stage: &mut Stage<L>, steps: &str) -> bool {
    for step in steps.split(';') {
        if !step_holds(rt, stage, step.trim()) {
            return false;
        }
    }
    true
}

/// A stage with a channel for whatever begins.
pub fn stage<L: Ledger>(
    rt: &impl Abort,
    alloc: Global,
    steps: Steps<L>,
) -> Result<Stage<L>, Memory> {
    let scratch = Scratch::new(alloc)?;
    let folder = MemFolder::new(alloc, Vec::new(alloc), Vec::new(alloc))?;
    let options = defaults(alloc, 0)?;
    Stage::new(setup_of(rt, alloc, b"c", options), folder, scratch, steps)
}

/// Begins with a new channel, as these words say.
pub fn begin<L: Ledger>(rt: &impl Abort, stage: &mut Stage<L>, begun: &str) -> Result<(), Memory> {
    let alloc = stage.setup.alloc;
    let (begun, meta) = halves(begun, " with ");
    let [channel, memory, call, from, to] = words(begun);
    let fails = fails_of(rt, alloc, call, from, to);
    let folder = MemFolder::new(alloc, meta_of(rt, alloc, meta), fails)?;
    let options = defaults(alloc, number(rt, memory))?;
    stage.renew(setup_of(rt, alloc, channel.as_bytes(), options), folder)
}

// The calls of the folder that fail.
fn fails_of(rt: &impl Abort, alloc: Global, call: &str, from: &str, to: &str) -> Vec<Failing> {
    let mut fails = Vec::new(alloc);
    let call = match call {
        "" | "none" => return fails,
        "write" => FolderCall::WriteAt,
        "read" => FolderCall::ReadAt,
        "any" => FolderCall::Any,
        _ => unknown(rt, call),
    };
    let failing = Failing {
        call,
        from: number(rt, from),
        to: number(rt, to),
    };
    fails.push(failing).expect(rt, "memory");
    fails
}

// The metadata of the channel `c` with these lines; no file without a line.
fn meta_of(rt: &impl Abort, alloc: Global, lines: &str) -> Vec<(String, Vec<u8>)> {
    let mut files = Vec::new(alloc);
    if !lines.is_empty() {
        let name = String::from_str(alloc, "t:c.diskqueue.meta.dat").expect(rt, "memory");
        files
            .push((name, bytes_of(rt, alloc, lines)))
            .expect(rt, "memory");
    }
    files
}

fn bytes_of(rt: &impl Abort, alloc: Global, lines: &str) -> Vec<u8> {
    let mut bytes = Vec::new(alloc);
    for line in lines.split(' ') {
        bytes
            .extend_from_slice(line.as_bytes())
            .expect(rt, "memory");
        bytes.push(b'\n').expect(rt, "memory");
    }
    bytes
}

// Whether a step answers what it says.
fn step_holds<L: Ledger>(rt: &impl Abort, stage: &mut Stage<L>, step: &str) -> bool {
    let (what, wanted) = step_of(step);
    let (word, taken) = cut(what);
    match call_in(rt, word, taken) {
        Some(call) => stage.call(rt, &call).is(rt, wanted),
        None => shows(rt, stage, what, wanted),
    }
}

/// A step's call, and its answer.
pub fn step_of(step: &str) -> (&str, &str) {
    match step.split_once(" -> ") {
        Some(parts) => parts,
        None => (step, "done"),
    }
}

/// Whether the channel and its folder show what a look says.
pub fn shows<L: Ledger>(rt: &impl Abort, stage: &Stage<L>, what: &str, wanted: &str) -> bool {
    let (word, rest) = cut(what);
    match word {
        "look" => is_look(rt, &stage.channel, rest, wanted),
        "next-due" => is_next_due(rt, stage.channel.next_due(), wanted),
        "places" => are_places(rt, &stage.channel, rest),
        "events" => are_events(rt, &stage.channel, rest),
        "has" => has_file(&stage.folder, rest, b""),
        "has-lines" => has_file(&stage.folder, rest, b"\n"),
        "absent" => stage.folder.file(rest).is_none(),
        _ => unknown(rt, word),
    }
}

fn is_look(rt: &impl Abort, channel: &Channel, what: &str, wanted: &str) -> bool {
    let (client, of) = cut(what);
    let look = match channel.look(client_named(rt, client).client(), id(rt, of)) {
        Look::Yours => "yours",
        Look::NotYours => "not-yours",
        Look::NotInFlight => "not-in-flight",
    };
    same(look, wanted)
}

fn is_next_due(rt: &impl Abort, due: Option<u64>, wanted: &str) -> bool {
    match due {
        Some(due) => due == moment(rt, wanted),
        None => same(wanted, "none"),
    }
}

// Whether so many are queued, on disk, in flight and deferred.
fn are_places(rt: &impl Abort, channel: &Channel, wanted: &str) -> bool {
    let counts = channel.counts();
    let [queued, on_disk, in_flight, deferred, more] = words(wanted);
    counts.depth == u128::from(number(rt, queued))
        && counts.backend_depth == u128::from(number(rt, on_disk))
        && counts.in_flight_count == number(rt, in_flight)
        && counts.deferred_count == number(rt, deferred)
        && more.is_empty()
}

// Whether so many joined, were given back and timed out.
fn are_events(rt: &impl Abort, channel: &Channel, wanted: &str) -> bool {
    let counts = channel.counts();
    let [joined, requeued, timed_out, more, _] = words(wanted);
    counts.message_count == number(rt, joined)
        && counts.requeue_count == number(rt, requeued)
        && counts.timeout_count == number(rt, timed_out)
        && more.is_empty()
}

// Whether the file has these pieces, each with this end, one behind the other.
fn has_file(folder: &MemFolder, what: &str, end: &[u8]) -> bool {
    let (name, pieces) = cut(what);
    match folder.file(name) {
        Some(bytes) => is_made_of(bytes, pieces, end),
        None => false,
    }
}

fn is_made_of(bytes: &[u8], pieces: &str, end: &[u8]) -> bool {
    let mut rest = bytes;
    for piece in pieces.split(' ') {
        match behind(rest, piece.as_bytes(), end) {
            Some(left) => rest = left,
            None => return false,
        }
    }
    rest.is_empty()
}

// What stands behind a piece and its end.
fn behind<'a>(bytes: &'a [u8], piece: &[u8], end: &[u8]) -> Option<&'a [u8]> {
    bytes.strip_prefix(piece)?.strip_prefix(end)
}

// Checks these scripts.
fn check_all<L: Ledger>(rt: &impl Abort, stage: &mut Stage<L>, scripts: &'static str) {
    for script in scripts.trim().split("\n\n") {
        check(rt, holds(rt, stage, script), script);
    }
}

fn check_scripts<R: Abort, L: Ledger>(rt: &R, alloc: Global, blank: Blank)
    requires name { blank.name ≡ L.name }
    requires parts { blank.parts ≡ L.parts }
    requires some { 0 < L.parts }
{
    let steps: Steps<L> = Steps::new(blank);
    let mut stage = stage(rt, alloc, steps).expect(rt, "memory");
    check_all(rt, &mut stage, sending::ROWS);
    check_all(rt, &mut stage, storing::ROWS);
    end(stage);
}

#[test]
fn rows(rt: HostRuntime) {
    check_scripts::<_, Brand>(&rt, rt.alloc(), Blank::new(1));
}
