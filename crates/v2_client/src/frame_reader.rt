ghost use Rattle.std.specs.Prelude.{◌≡◌, ◌+◌, ◌<◌, ◌++◌, [], List, ℕ, min, MatchOption, IfOk, OnOk, OnErr};
ghost use Rattle.v2_frame.specs.declared.frame.Frame.{Frame};
ghost use Rattle.v2_frame.specs.Script.{told_place};
ghost use Rattle.v2_frame.specs.Written.{type_of};
ghost use Rattle.v2_client.specs.Frames.{FramesHeld, HasGiven};
ghost use Rattle.v2_client.specs.FrameReads.{IsFront, Gives, GaveOf};

use nsq_base::{Body, Memory};
use std::alloc::Global;
use std::marker::Model;
use v2_frame::{Frame, FrameKind, drop_front, told_place};
use v2_sizes::size_of;

/// What `FrameReader::next` answers.
#[derive(Drop)]
pub enum GotFrame {
    /// The next frame.
    Whole(Frame),
    /// What was fed and not given out is nothing or the beginning of a frame.
    More,
    /// A size below 4 or above the limit, or a type above 2, and the place of that field: counted from 0 at the stream's
    /// first byte, and at most 2^63. It is answered once the field's last byte is there, and each further call answers it.
    Bad(u64),
    /// There is no memory for the frame. Nothing was taken, and the call can be made again.
    Memory,
}

/// A reader of the frames of a stream, in pieces of any sizes. It keeps what was fed and not given out, and asks for no more
/// memory than that, whatever size a frame announces.
#[derive(Drop)]
pub struct FrameReader {
    alloc: Global,
    limit: u32,
    place: u64,
    start: usize,
    buffer: Vec<u8>,
}

impl Model for FrameReader {
    ghost use Rattle.std.specs.Prelude.{◌≤◌, ◌^◌, drop, length};
    ghost use Rattle.v2_client.specs.Frames.{FramesHeld};

    ghost Value = { FramesHeld };

    ghost view = { λ r. record { limit = r.limit; place = r.place; bytes = drop r.start r.buffer.items } };

    ghost invariant = { λ r. (r.start ≤ length r.buffer.items) × (r.place ≤ 2 ^ 63) };
}

impl FrameReader {
    /// A reader at the start of a stream, for frames whose size (that of the type and the data) is at most the limit. It
    /// takes no memory yet, and never fails.
    pub fn new(alloc: Global, limit: u32) -> Result<FrameReader, Memory>
        ensures start { IfOk result (λ reader. reader ≡ record { limit = limit; place = 0; bytes = [] }) }
        ensures given { IfOk result (λ reader. HasGiven reader [] []) }
    {
        Ok(FrameReader {
            alloc,
            limit,
            place: 0,
            start: 0,
            buffer: Vec::new(alloc),
        })
    }

    /// Takes the next piece of the stream. After Memory the reader is as before, and the piece can be fed again.
    pub fn feed(&mut self, piece: &[u8]) -> Result<(), Memory>
        ensures step { OnOk result (self.new ≡ record self.old { bytes = self.old.bytes ++ piece.now }) }
        ensures fed { OnOk result ((fed : List ℕ) (frames : List Frame) → HasGiven self.old fed frames → HasGiven self.new (fed ++ piece.now) frames) }
        ensures err { OnErr result (self.new ≡ self.old) }
    {
        self.keep(piece)
    }

    /// Keeps the piece behind what is held, which first goes to the front where no more bytes move than were given out since
    /// the last time.
    fn keep(&mut self, piece: &[u8]) -> Result<(), Memory>
        ensures ok { OnOk result (self.new ≡ record self.old { bytes = self.old.bytes ++ piece.now }) }
        ensures err { OnErr result (self.new ≡ self.old) }
    {
        if self.start >= self.buffer.len() - self.start {
            drop_front(&mut self.buffer, self.start);
            self.start = 0;
        }
        self.buffer.extend_from_slice(piece)?;
        Ok(())
    }

    /// The next frame, or what stands in its place.
    pub fn next(&mut self) -> GotFrame
        ensures step { Gives self.old self.new result }
        ensures given { (fed : List ℕ) (frames : List Frame) → HasGiven self.old fed frames → GaveOf self.new fed frames result }
    {
        self.take_next()
    }

    /// The bytes that were fed and not given out.
    fn held(&self) -> &[u8]
        ensures { result.now ≡ self.now.bytes }
    {
        &self.buffer[self.start..]
    }

    /// The next frame, as what is held has it.
    fn take_next(&mut self) -> GotFrame
        ensures { Gives self.old self.new result }
    {
        let bytes = self.held();
        let (kind, end) = match front_of(bytes, self.limit) {
            Front::Whole(kind, end) => (kind, end),
            Front::Open => return GotFrame::More,
            Front::Bad(at) => return GotFrame::Bad(told_place(self.place + at)),
        };
        let Ok(body) = Body::copy(self.alloc, &bytes[8..end]) else {
            return GotFrame::Memory;
        };
        self.start += end;
        self.place = told_place(self.place + end as u64);
        GotFrame::Whole(Frame { kind, body })
    }
}

/// What stands at the front of the bytes of a stream, at the start of a frame.
#[derive(Clone, Copy)]
enum Front {
    /// A whole frame of this type, which ends at this place.
    Whole(FrameKind, usize),
    /// Neither a whole frame nor a bad field.
    Open,
    /// A bad field at this place.
    Bad(u64),
}

/// What stands at the front of the bytes, for a greatest size.
fn front_of(bytes: &[u8], limit: u32) -> Front
    ensures { IsFront limit bytes.now result }
{
    let Some((size, rest)) = size_of(bytes) else {
        return Front::Open;
    };
    if size < 4 || size > limit {
        return Front::Bad(0);
    }
    let Some((number, text)) = size_of(rest) else {
        return Front::Open;
    };
    let Some(kind) = kind_of(number) else {
        return Front::Bad(4);
    };
    let length = (size - 4) as usize;
    if text.len() < length {
        return Front::Open;
    }
    Front::Whole(kind, 8 + length)
}

/// The type of this number, or None exactly where it is above 2.
fn kind_of(number: u32) -> Option<FrameKind>
    ensures { MatchOption result (2 < number) (λ kind. number ≡ type_of kind) }
{
    match number {
        0 => Some(FrameKind::Response),
        1 => Some(FrameKind::Error),
        2 => Some(FrameKind::Message),
        _ => None,
    }
}
