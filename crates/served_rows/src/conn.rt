//! A connection in memory that takes few bytes at a time, and whose reads and writes are watched.

use crate::lists::push;
use crate::scripts::{Trace, pieces_of};
use crate::text::{number, unknown};
use nsq_fakes::MemConn;
use nsq_outside::{Conn, Read, Sink, Source, Write, get, put};
use std::alloc::Global;
use std::process::Abort;
use std::sync::Wait;
use std::sync::atomic::{AtomicU64, Ordering};

/// What fails of a connection, if anything does.
#[derive(Clone, Copy)]
pub enum Fails {
    Nothing,
    /// The read of this number, counted from 0.
    Read(u64),
    /// The write of this number, counted from 0.
    Write(u64),
}

/// What fails of a connection, by its words: the read or the write of a number, or nothing.
pub fn failing(rt: &impl Abort, words: &str) -> Fails {
    match words.split_once(' ') {
        Some(("read", count)) => Fails::Read(number(rt, count)),
        Some(("write", count)) => Fails::Write(number(rt, count)),
        None if words.is_empty() || words == "nothing" => Fails::Nothing,
        _ => unknown(rt, words),
    }
}

/// What is done at a read, and what must be.
#[derive(Clone, Copy)]
pub struct Moment {
    /// What the clock shows from then on, in nanoseconds.
    pub at: u64,
    /// How many bytes must be written before; any number where it is none.
    pub written: Option<usize>,
}

/// The reads of a connection, as they are planned.
#[derive(Drop)]
pub struct Reads<'a> {
    pub clock: &'a AtomicU64,
    pub moments: &'a [Moment],
    /// How many reads there were.
    pub count: usize,
    /// Whether one was otherwise than planned.
    pub wrong: bool,
}

impl Reads<'_> {
    /// A read comes, and so many bytes were written before it.
    fn note(&mut self, written: usize) {
        match self.moments.get(self.count) {
            Some(moment) => {
                self.clock.store(moment.at, Ordering::SeqCst);
                self.wrong = self.wrong || moment.written.unwrap_or(written) != written;
            }
            None => self.wrong = true,
        }
        self.count = self.count.saturating_add(1);
    }
}

/// Who watches a connection.
#[derive(Drop)]
pub enum Watch<'a> {
    /// Its calls are noted here by their letters, `r` for a read and `w` for a write.
    Letters(&'a Trace),
    /// The clock is set at each read, and it is seen how many bytes were written before it.
    Reads(Reads<'a>),
}

/// A connection in memory of which a write takes so many bytes at most, and one at least.
#[derive(Drop)]
pub struct WatchedConn<'a> {
    pub inner: MemConn,
    pub most: usize,
    pub watch: Watch<'a>,
}

impl WatchedConn<'_> {
    /// The bytes that were written.
    pub fn written(&self) -> &[u8] {
        self.inner.bytes_written()
    }

    /// Whether all its reads came, and as planned.
    pub fn went(&self) -> bool {
        match &self.watch {
            Watch::Reads(reads) => !reads.wrong && reads.count == reads.moments.len(),
            _ => false,
        }
    }
}

/// Lets go of a connection.
pub fn let_go(_conn: WatchedConn<'_>) {}

// A read comes, and so many bytes were written before it.
fn note_read(watch: &mut Watch<'_>, written: usize) {
    match watch {
        Watch::Letters(trace) => trace.note(b'r'),
        Watch::Reads(reads) => reads.note(written),
    }
}

// A write comes.
fn note_write(watch: &Watch<'_>) {
    if let Watch::Letters(trace) = watch {
        trace.note(b'w');
    }
}

/// A connection in memory that gives these pieces, and at which this fails. An empty piece is a read that gives nothing.
pub fn conn_of(rt: &impl Abort, alloc: Global, pieces: &[Vec<u8>], fails: Fails) -> MemConn {
    let pieces = pieces_of(alloc, pieces).expect(rt, "memory");
    let mut reads = Vec::new(alloc);
    let mut writes = Vec::new(alloc);
    match fails {
        Fails::Nothing => {}
        Fails::Read(number) => push(rt, &mut reads, number),
        Fails::Write(number) => push(rt, &mut writes, number),
    }
    MemConn::new(alloc, pieces, reads, writes).expect(rt, "memory")
}

impl Source for WatchedConn<'_> {
    ghost use Rattle.std.specs.Prelude.{false, [], ◌≤◌};
    ghost use Rattle.nsq_fakes.specs.MemConns.{has_ended, read_faults_of, write_faults_of};

    ghost tells_pieces = { false };

    ghost pieces = { λ _. [] };

    ghost left = { λ _. [] };

    ghost ended = { λ c. has_ended c.inner };

    ghost read_faults = { λ c. read_faults_of c.inner };

    ghost may_read = { λ a b. write_faults_of a.inner ≤ write_faults_of b.inner };

    fn read<R: Wait>(&mut self, rt: &R, into: &mut [u8]) -> Read {
        note_read(&mut self.watch, self.inner.bytes_written().len());
        get(rt, &mut self.inner, into)
    }

    ghost read_faults_fit = { λ c. c.inner.reads.faults.fits };
}

impl Sink for WatchedConn<'_> {
    ghost use Rattle.std.specs.Prelude.{false, [], ◌≡◌, ◌≤◌};
    ghost use Rattle.nsq_fakes.specs.MemConns.{has_ended, read_faults_of, write_faults_of};

    ghost tells_written = { false };

    ghost written = { λ _. [] };

    ghost write_faults = { λ c. write_faults_of c.inner };

    ghost may_write = { λ a b. (has_ended b.inner ≡ has_ended a.inner) × (read_faults_of a.inner ≤ read_faults_of b.inner) };

    fn write<R: Wait>(&mut self, rt: &R, from: &[u8]) -> Write {
        note_write(&self.watch);
        let count = self.most.max(1).min(from.len());
        put(rt, &mut self.inner, &from[..count])
    }

    ghost write_faults_fit = { λ c. c.inner.writes.faults.fits };
}

impl Conn for WatchedConn<'_> {
    ghost use Rattle.std.specs.Prelude.{refl};

    ghost read_keeps = { λ a b h. (refl, h) };

    ghost write_keeps = { λ a b h. (refl, refl, h.0, h.1) };
}
