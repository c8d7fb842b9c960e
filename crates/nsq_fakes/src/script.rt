ghost use Rattle.std.specs.Prelude.{◌≡◌, ◌≢◌, ◌+◌, ◌-◌, ◌<◌, ◌≤◌, ◌++◌, [], length, take, drop, Some, IfSome, IfNone, slice_get};
ghost use Rattle.nsq_fakes.specs.Pieces.{bytes_to_come, front_bytes};

use nsq_base::Body;
use std::collections::VecDeque;

/// What a read of a connection in memory finds.
#[derive(Drop)]
pub enum Piece {
    /// These bytes. No byte comes after a piece of 0 bytes.
    Bytes(Body),
    /// Nothing has come yet.
    Nothing,
}

/// The pieces to come, and how many bytes of the first one were taken.
#[derive(Drop)]
pub struct Script {
    pieces: VecDeque<Piece>,
    offset: usize,
    ghost inside: { offset ≤ length (front_bytes pieces.items) - 1 },
}

impl Script {
    ghost use Rattle.nsq_fakes.specs.Scripts.{to_come, rest_of, IsMark, IsAtEnd, IsWhole, PassesFirst, PassesBytes};

    pub(crate) fn new(pieces: Vec<Piece>) -> Script
        ensures bytes { to_come result ≡ bytes_to_come pieces.items }
        ensures whole { IsWhole pieces.items result }
    {
        Script {
            pieces: VecDeque::from(pieces),
            offset: 0,
        }
    }

    /// The rest of the first piece, none of 0 bytes at the end; or `None` at a mark.
    pub(crate) fn front(&self) -> Option<&[u8]>
        ensures mark { IfNone result (IsMark self.now) }
        ensures rest { IfSome result (λ rest. rest.now ≡ rest_of self.now) }
        ensures no_mark { IfSome result (λ _. slice_get self.now.pieces.items 0 ≢ Some Piece.Nothing) }
        ensures end { IfSome result (λ rest. length rest.now ≡ 0 → to_come self.now ≡ []) }
    {
        match self.pieces.front() {
            None => Some(&[]),
            Some(Piece::Nothing) => None,
            Some(Piece::Bytes(body)) => Some(&body.bytes()[self.offset..]),
        }
    }

    /// Passes the mark that stands first.
    pub(crate) fn pass_mark(&mut self)
        requires { IsMark self.old }
        ensures passed { PassesFirst self.old self.new }
        ensures bytes { to_come self.new ≡ to_come self.old }
    {
        let _ = self.pieces.pop_front();
    }

    /// Passes bytes of the first piece.
    pub(crate) fn pass(&mut self, count: usize)
        requires some { 0 < count }
        requires there { self.old.offset + count ≤ length (front_bytes self.old.pieces.items) }
        ensures bytes { to_come self.old ≡ take count (rest_of self.old) ++ to_come self.new }
        ensures passed { PassesBytes self.old self.new count }
    {
        let left = match self.pieces.front() {
            Some(Piece::Bytes(body)) => body.bytes().len() - self.offset,
            _ => 0,
        };
        if count < left {
            self.offset += count;
        } else {
            let _ = self.pieces.pop_front();
            self.offset = 0;
        }
    }
}
