ghost use Rattle.std.specs.Prelude.{◌≡◌, ◌<◌, ◌≤◌, ◌++◌, ◌∷◌, [], length, map, true, false, IfOk, OnOk, OnErr};
ghost use Rattle.nsq_fakes.specs.Pieces.{bytes_to_come};
ghost use Rattle.nsq_fakes.specs.Scripts.{to_come};

use crate::calls::Calls;
use crate::script::{Piece, Script};
use nsq_base::Memory;
use nsq_outside::{Conn, Read, Sink, Source, Write};
use std::alloc::Global;
use std::sync::Wait;

/// A connection in memory: a list of pieces to be read, and the reads and writes that fail.
///
/// Of a piece longer than the buffer the rest comes with the next read. Once the pieces are used up a read answers `End`,
/// as it does at a piece of 0 bytes and from then on. A call that fails consumes nothing.
#[derive(Drop)]
pub struct MemConn {
    alloc: Global,
    script: Script,
    ended: bool,
    pieces: Vec<Vec<u8>>,
    reads: Calls,
    written: Vec<u8>,
    writes: Calls,
    ghost at_end: { ended ≡ true → to_come script ≡ [] },
}

impl MemConn {
    ghost use Rattle.nsq_fakes.specs.MemConns.{pieces_of, left_of, read_faults_of, written_of, write_faults_of, IsUnused, IsToGive, IsRestarted, FailsAtCalls};

    /// A connection that gives these pieces, and fails at the reads and the writes of these numbers, counted from 0.
    pub fn new(
        alloc: Global,
        pieces: Vec<Piece>,
        read_fails: Vec<u64>,
        write_fails: Vec<u64>,
    ) -> Result<MemConn, Memory>
        ensures left { IfOk result (λ conn. left_of conn ≡ bytes_to_come pieces.items) }
        ensures script { IfOk result (IsToGive pieces.items) }
        ensures unused { IfOk result IsUnused }
        ensures fails { IfOk result (FailsAtCalls read_fails.items write_fails.items) }
    {
        Ok(MemConn {
            alloc,
            script: Script::new(pieces),
            ended: false,
            pieces: Vec::new(alloc),
            reads: Calls::new(read_fails),
            written: Vec::new(alloc),
            writes: Calls::new(write_fails),
        })
    }

    /// The pieces that were read, in order.
    pub fn pieces_read(&self) -> &[Vec<u8>]
        ensures { map (λ piece. piece.items) result.now ≡ pieces_of self.now }
    {
        &self.pieces
    }

    /// The bytes that were written.
    pub fn bytes_written(&self) -> &[u8]
        ensures { result.now ≡ written_of self.now }
    {
        &self.written
    }

    /// How often a read failed; at most 2^64 - 1, where the count stops.
    pub fn read_faults(&self) -> u64
        ensures { result ≡ read_faults_of self.now }
    {
        self.reads.faults.count
    }

    /// How often a write failed; at most 2^64 - 1, where the count stops.
    pub fn write_faults(&self) -> u64
        ensures { result ≡ write_faults_of self.now }
    {
        self.writes.faults.count
    }

    /// As if nothing had been read or written yet. What is to come stays, and so do the calls that fail.
    pub(super) fn restart(&mut self)
        ensures unused { IsUnused self.new }
        ensures left { left_of self.new ≡ left_of self.old }
        ensures kept { IsRestarted self.old self.new }
    {
        self.ended = false;
        self.pieces.clear();
        self.reads.forget_faults();
        self.written.clear();
        self.writes.forget_faults();
    }
}

impl Source for MemConn {
    ghost use Rattle.nsq_fakes.specs.MemConns.{pieces_of, left_of, has_ended, read_faults_of, written_of, write_faults_of, CountsRead, FollowsScript};
    ghost use Rattle.nsq_outside.specs.Streams.{IsAmountRead, Reads, KeepsBuffer, EndsWith, ReadFails, ReadCounts};

    ghost tells_pieces = { true };

    ghost pieces = { pieces_of };

    ghost left = { left_of };

    ghost ended = { has_ended };

    ghost read_faults = { read_faults_of };

    ghost may_read = { λ a b. (written_of b ≡ written_of a) × (write_faults_of a ≤ write_faults_of b) };

    fn read<R: Wait>(&mut self, _rt: &R, into: &mut [u8]) -> Read
        requires { 0 < length into.old }
        ensures amount { IsAmountRead result (length into.old) }
        ensures told { Reads (pieces_of self.old) (left_of self.old) (pieces_of self.new) (left_of self.new) into.new result }
        ensures buffer { KeepsBuffer into.old into.new result }
        ensures end { EndsWith (has_ended self.old) (has_ended self.new) result }
        ensures written { written_of self.new ≡ written_of self.old }
        ensures write_faults { write_faults_of self.old ≤ write_faults_of self.new }
        ensures faults { read_faults_of self.old ≤ read_faults_of self.new }
        ensures cause { ReadFails (read_faults_of self.old) (read_faults_of self.new) result }
        ensures counted { ReadCounts (read_faults_of self.old) (read_faults_of self.new) result }
        ensures calls { CountsRead self.old self.new result }
        ensures over { self.old.ended ≡ true → self.new.reads ≡ self.old.reads }
        ensures script { FollowsScript self.old self.new (length into.old) result }
        ensures writes { self.new.writes ≡ self.old.writes }
    {
        if self.ended {
            return Read::End;
        }
        if self.reads.next_fails() {
            return Read::Failed;
        }
        let Some(rest) = self.script.front() else {
            self.script.pass_mark();
            return Read::Nothing;
        };
        if rest.is_empty() {
            self.ended = true;
            return Read::End;
        }
        let count = rest.len().min(into.len());
        if keep(self.alloc, &mut self.pieces, &rest[..count]).is_err() {
            self.reads.faults.add();
            return Read::Failed;
        }
        into[..count].copy_from_slice(&rest[..count]);
        self.script.pass(count);
        Read::Got(count)
    }

    ghost read_faults_fit = { λ conn. conn.reads.faults.fits };
}

impl Sink for MemConn {
    ghost use Rattle.nsq_fakes.specs.MemConns.{pieces_of, left_of, has_ended, read_faults_of, written_of, write_faults_of, CountsWrite, IsAllOrNone};
    ghost use Rattle.nsq_outside.specs.Streams.{IsAmountWritten, Writes, WriteFails, WriteCounts};

    ghost tells_written = { true };

    ghost written = { written_of };

    ghost write_faults = { write_faults_of };

    ghost may_write = { λ a b. (pieces_of b ≡ pieces_of a) × (left_of b ≡ left_of a) × (has_ended b ≡ has_ended a) × (read_faults_of a ≤ read_faults_of b) };

    fn write<R: Wait>(&mut self, _rt: &R, from: &[u8]) -> Write
        requires { 0 < length from.now }
        ensures amount { IsAmountWritten result (length from.now) }
        ensures told { Writes (written_of self.old) (written_of self.new) from.now result }
        ensures pieces { pieces_of self.new ≡ pieces_of self.old }
        ensures left { left_of self.new ≡ left_of self.old }
        ensures ended { has_ended self.new ≡ has_ended self.old }
        ensures read_faults { read_faults_of self.old ≤ read_faults_of self.new }
        ensures faults { write_faults_of self.old ≤ write_faults_of self.new }
        ensures cause { WriteFails (write_faults_of self.old) (write_faults_of self.new) result }
        ensures counted { WriteCounts (write_faults_of self.old) (write_faults_of self.new) result }
        ensures calls { CountsWrite self.old self.new result }
        ensures all { IsAllOrNone (length from.now) result }
        ensures rest { self.new ≡ record self.old { written = self.new.written; writes = self.new.writes } }
    {
        if self.writes.next_fails() {
            return Write::Failed;
        }
        if self.written.extend_from_slice(from).is_err() {
            self.writes.faults.add();
            return Write::Failed;
        }
        Write::Took(from.len())
    }

    ghost write_faults_fit = { λ conn. conn.writes.faults.fits };
}

impl Conn for MemConn {
    ghost read_keeps = { λ a b h. h };

    ghost write_keeps = { λ a b h. h };
}

/// Keeps a copy of a piece.
fn keep(alloc: Global, pieces: &mut Vec<Vec<u8>>, piece: &[u8]) -> Result<(), Memory>
    ensures ok { OnOk result (map (λ p. p.items) pieces.new.items ≡ map (λ p. p.items) pieces.old.items ++ piece.now ∷ []) }
    ensures err { OnErr result (pieces.new.items ≡ pieces.old.items) }
{
    pieces.reserve(1)?;
    pieces.push_reserved(piece.to_vec(alloc)?);
    Ok(())
}
