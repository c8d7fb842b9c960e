use crate::same;
use std::alloc::Global;
use std::process::Abort;
use streams_plain::{commands_text, script_of};
use v2_frame::{Command, Got, Limits, Reader, Rest};

/// A reader, and the commands that it gave.
#[derive(Drop)]
pub struct Reading {
    reader: Reader,
    commands: Vec<Command>,
}

impl Reading {
    /// A reader of a stream of which nothing has come yet.
    pub fn new(rt: &impl Abort, alloc: Global, limits: Limits) -> Reading {
        Reading {
            reader: Reader::new(alloc, limits).expect(rt, "memory"),
            commands: Vec::new(alloc),
        }
    }

    /// Takes a further piece.
    pub fn feed(&mut self, rt: &impl Abort, piece: &[u8]) {
        self.reader.feed(piece).expect(rt, "memory");
    }

    /// Asks until no whole command is there, but for a few commands at most, and tells what is behind them.
    pub fn take(&mut self, rt: &impl Abort) -> Rest {
        for _ in 0..9 {
            self.commands.reserve(1).expect(rt, "memory");
            match self.reader.next() {
                Got::Whole(command) => self.commands.push_reserved(command),
                Got::More => return Rest::Unfinished,
                Got::Fault(fault) => return Rest::Faulty(fault),
                Got::Memory => panic!(rt; "memory"),
            }
        }
        Rest::Unfinished
    }

    /// How many commands the reader gave.
    pub fn count(&self) -> usize {
        self.commands.len()
    }

    /// Whether this is behind the commands, and they print so.
    pub fn finds(&mut self, rt: &impl Abort, alloc: Global, want: &str, rest: Rest) -> bool {
        self.take(rt) == rest && prints(rt, alloc, &self.commands, want)
    }
}

/// How the commands print.
pub fn printed(rt: &impl Abort, alloc: Global, commands: &Vec<Command>) -> String {
    commands_text(alloc, commands).expect(rt, "memory")
}

/// Whether the commands print as this.
pub fn prints(rt: &impl Abort, alloc: Global, commands: &Vec<Command>, want: &str) -> bool {
    same(printed(rt, alloc, commands).as_bytes(), want.as_bytes())
}

// Whether the plain program finds these commands and this rest.
fn is_script(
    rt: &impl Abort,
    alloc: Global,
    limits: Limits,
    bytes: &[u8],
    want: &str,
    rest: Rest,
) -> bool {
    let (commands, found) = script_of(alloc, limits, bytes).expect(rt, "memory");
    found == rest && prints(rt, alloc, &commands, want)
}

/// Whether the plain program and a reader find these commands and this rest: the reader for every cut into two pieces, and
/// for pieces of one byte.
pub fn reads(
    rt: &impl Abort,
    alloc: Global,
    limits: Limits,
    bytes: &[u8],
    want: &str,
    rest: Rest,
) -> bool {
    for cut in 0..bytes.len().saturating_add(1) {
        let pieces = bytes.split_at(cut.min(bytes.len()));
        if !reads_two(rt, alloc, limits, pieces, want, rest) {
            return false;
        }
    }
    is_script(rt, alloc, limits, bytes, want, rest)
        && reads_bytes(rt, alloc, limits, bytes, want, rest)
}

// Whether a reader finds them in these two pieces.
fn reads_two(
    rt: &impl Abort,
    alloc: Global,
    limits: Limits,
    pieces: (&[u8], &[u8]),
    want: &str,
    rest: Rest,
) -> bool {
    let mut reading = Reading::new(rt, alloc, limits);
    reading.feed(rt, pieces.0);
    reading.take(rt);
    reading.feed(rt, pieces.1);
    reading.take(rt);
    reading.finds(rt, alloc, want, rest)
}

// Whether a reader finds them in pieces of one byte.
fn reads_bytes(
    rt: &impl Abort,
    alloc: Global,
    limits: Limits,
    bytes: &[u8],
    want: &str,
    rest: Rest,
) -> bool {
    let mut reading = Reading::new(rt, alloc, limits);
    for byte in bytes {
        reading.feed(rt, &[*byte]);
        reading.take(rt);
    }
    reading.finds(rt, alloc, want, rest)
}

/// Whether copies of the commands that the plain program finds print as this.
pub fn copies(rt: &impl Abort, alloc: Global, limits: Limits, bytes: &[u8], want: &str) -> bool {
    let (commands, _) = script_of(alloc, limits, bytes).expect(rt, "memory");
    let mut copies = Vec::new(alloc);
    for command in &commands {
        copies.reserve(1).expect(rt, "memory");
        copies.push_reserved(Command::copy(command, alloc).expect(rt, "memory"));
    }
    prints(rt, alloc, &copies, want)
}
