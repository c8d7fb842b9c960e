ghost use Rattle.std.specs.Prelude.{◌≡◌, [], IsOkAnd};
ghost use Rattle.v2_frame.specs.Judging.{IsFault};
ghost use Rattle.v2_frame.specs.Parts.{EndsLine};
ghost use Rattle.v2_frame.specs.Reading.{fresh, Gives, GivesNext, IsFed, IsLeft};
ghost use Rattle.v2_frame.specs.declared.fault.Rest.TheVariants.{Faulty};
ghost use Rattle.v2_frame.specs.declared.got.Got.TheVariants.{Fault};
ghost use Rattle.v2_frame.specs.declared.got.Stage.TheVariants.{Opening, Commands};

use crate::bytes::{drop_front, same};
use crate::got::Stage;
use crate::judge::{Found, MAGIC, TOO_LONG_LINE, lined, told_place};
use crate::{Fault, FaultKind, Got, Limits};
use nsq_base::Memory;
use pending::{first_line, needed_behind};
use std::alloc::Global;
use std::marker::Model;

mod pending;

/// A reader of a V2 stream that comes in pieces: it gives the stream's commands, whatever the pieces are. It keeps only bytes
/// that were fed, and looks at each of them once.
#[derive(Drop)]
pub struct Reader {
    alloc: Global,
    limits: Limits,
    stage: Stage,
    // The place in the stream of the first byte that isn't done, as it is told.
    place: u64,
    // Bytes that were fed, in their order. Those at the front are done.
    bytes: Vec<u8>,
    // How many of the bytes are done.
    start: usize,
    // How many of the bytes behind those have no line feed among them, so that none is looked at twice.
    scanned: usize,
    // How many bytes have to be pending before anything more can be found, so that a body of many pieces is judged once.
    needed: usize,
}

impl Model for Reader {
    ghost use Rattle.std.specs.Prelude.{drop};
    ghost use Rattle.v2_frame.specs.Reading.{Reading, Remembers};

    ghost Value = { Reading };

    ghost view = { λ r. record { limits = r.limits; stage = r.stage; place = r.place; pending = drop r.start r.bytes.items } };

    ghost invariant = { λ r. Remembers r.limits r.bytes.items r.start r.scanned r.needed };
}

impl Reader {
    /// A reader of a stream of which nothing has come yet. Takes no memory.
    pub fn new(alloc: Global, limits: Limits) -> Result<Reader, Memory>
        ensures { IsOkAnd result (λ reader. reader ≡ fresh limits) }
    {
        Ok(Reader {
            alloc,
            limits,
            stage: Stage::Opening,
            place: 0,
            bytes: Vec::new(alloc),
            start: 0,
            scanned: 0,
            needed: 0,
        })
    }

    /// Takes a further piece of the stream. After Memory the reader is as before. Nothing is kept after a fault.
    pub fn feed(&mut self, piece: &[u8]) -> Result<(), Memory>
        ensures { IsFed self.old piece.now result self.new }
    {
        if let Stage::Failed(_) = self.stage {
            return Ok(());
        }
        if self.start > self.bytes.len() - self.start {
            drop_front(&mut self.bytes, self.start);
            self.start = 0;
        }
        self.bytes.extend_from_slice(piece)?;
        Ok(())
    }

    /// The next command, or that more has to be fed for it, or the stream's fault. A command without anything behind its
    /// line takes no memory.
    pub fn next(&mut self) -> Got
        ensures { Gives self.old self.new result }
    {
        match self.stage {
            Stage::Opening => self.read_magic(),
            Stage::Commands => self.command(),
            Stage::Failed(fault) => Got::Fault(fault),
        }
    }

    /// Reads the magic, and gives what is next.
    fn read_magic(&mut self) -> Got
        requires { self.old.stage ≡ Opening }
        ensures { Gives self.old self.new result }
    {
        let pending = &self.bytes[self.start..];
        if pending.len() < MAGIC.len() {
            return Got::More;
        }
        if same(&pending[..MAGIC.len()], MAGIC) {
            self.stage = Stage::Commands;
            self.place = MAGIC.len() as u64;
            self.start += MAGIC.len();
            self.scanned = 0;
            self.needed = 0;
            return self.command();
        }
        let kind = FaultKind::BadMagic;
        self.fail(Fault { kind, at: 0 })
    }

    /// Gives what is next behind the magic.
    fn command(&mut self) -> Got
        requires { self.old.stage ≡ Commands }
        ensures { GivesNext self.old self.new result }
    {
        let pending = &self.bytes[self.start..];
        if pending.len() < self.needed {
            return Got::More;
        }
        let Some(end) = first_line(pending, self.scanned) else {
            if pending.len() < TOO_LONG_LINE {
                self.scanned = pending.len();
                return Got::More;
            }
            return self.fail_at(FaultKind::LineTooLong, 0);
        };
        self.at_line(end)
    }

    /// Gives the command whose line ends at this place, or what stands there.
    fn at_line(&mut self, end: usize) -> Got
        requires stage { self.old.stage ≡ Commands }
        requires line { EndsLine self.old.pending end }
        ensures { GivesNext self.old self.new result }
    {
        let pending = &self.bytes[self.start..];
        match lined(self.alloc, self.limits, pending, end) {
            Err(_) => Got::Memory,
            Ok(Found::Faulty(kind, at)) => self.fail_at(kind, at),
            Ok(Found::Unfinished) => {
                self.scanned = end;
                self.needed = needed_behind(pending, end);
                Got::More
            }
            Ok(Found::Whole(command, taken)) => {
                self.start += taken;
                self.scanned = 0;
                self.needed = 0;
                self.place = told_place(self.place.saturating_add(taken as u64));
                Got::Whole(command)
            }
        }
    }

    /// Keeps and gives a fault so many bytes behind the first one that isn't done.
    fn fail_at(&mut self, kind: FaultKind, at: usize) -> Got
        requires fault { IsFault self.old.limits self.old.pending kind at }
        requires stage { self.old.stage ≡ Commands }
        ensures { GivesNext self.old self.new result }
    {
        let at = told_place(self.place.saturating_add(at as u64));
        self.fail(Fault { kind, at })
    }

    /// Keeps and gives a fault.
    fn fail(&mut self, fault: Fault) -> Got
        requires { IsLeft self.old [] (Faulty fault) }
        ensures { GivesNext self.old self.new result }
    {
        self.stage = Stage::Failed(fault);
        Got::Fault(fault)
    }
}
