//! Rows of what gathers the bytes of a connection.
//!
//! A row is a text: its name, what its writer answers, and steps with a `;` between them. A writer takes at most so many bytes a call, or
//! `all`; it was `interrupted`, or it `fails`. The last answer repeats. A step is one of these:
//!
//! - `gather BYTES`, `through BYTES` and `flush`, each with what it answers.
//! - `stop`; `holds BYTES`, what the writer holds; `faults`, how often bytes couldn't be sent.

ghost use Rattle.std.specs.Prelude.{◌≡◌};

use crate::words::{bytes_of, cut, halves, is_did, is_number, is_write, part};
use crate::{check, same};
use nsq_system::Outbox;
use std::alloc::Global;
use std::io;
use std::io::ErrorKind;
use std::process::Abort;

/// What a writer answers.
#[derive(Clone, Copy)]
enum Answer {
    /// It takes at most so many bytes.
    Takes(usize),
    /// It was interrupted.
    Interrupted,
    /// It fails.
    Fails,
}

/// A writer in memory. It gives these answers in order, of which the last one repeats.
#[derive(Drop)]
struct Scripted {
    held: Vec<u8>,
    answers: Vec<Answer>,
    at: usize,
}

impl Scripted {
    /// The next answer.
    fn next(&mut self) -> Answer
        ensures { self.new.held ≡ self.old.held }
    {
        let answer = self.answers.get(self.at).copied();
        if self.at.saturating_add(1) < self.answers.len() {
            self.at += 1;
        }
        answer.unwrap_or(Answer::Takes(usize::MAX))
    }
}

impl io::Write for Scripted {
    ghost use Rattle.std.specs.Prelude.{Some};

    ghost contents = { λ writer. Some writer.held.items };

    fn write(&mut self, bytes: &[u8]) -> io::Result<usize> {
        match self.next() {
            Answer::Takes(most) => {
                let count = most.min(bytes.len());
                self.held.extend_from_slice(&bytes[..count])?;
                Ok(count)
            }
            Answer::Interrupted => Err(ErrorKind::Interrupted.into()),
            Answer::Fails => Err(ErrorKind::BrokenPipe.into()),
        }
    }

    fn flush(&mut self) -> io::Result<()> {
        Ok(())
    }
}

// What only looks like an error frame is a frame whose data looks so, and an error frame that isn't whole.
static ROWS: &'static str = "
a writer that takes few bytes a call gets all, in order and none twice
        1 2 interrupted 3: gather one = 3; gather two = 3; holds; flush = done; holds onetwo; faults 0

a large write is taken as far as the writer takes it
        5000: gather 1*20000 = 5000; holds 1*5000; gather 1*17000 = 5000; holds 1*10000

what waits goes before what goes through
        1: gather ab = 2; through cd = 1; holds abc; through d = 1; holds abcd

where there is too little room what waits goes first
        all: gather 1*10000 = 10000; gather 2*6384 = 6384; holds 1*0; flush = done; stop

one byte more than there is room for
        all: gather 1*10000 = 10000; gather 2*6385 = 6385; holds 1*10000

after a failure the writer holds what was sent before it, and gets nothing more
        4 fails 9: gather onetwo = 6; flush = failed; holds onet; gather more = failed; through more = failed; flush = done; holds onet;
        faults 3

a failure where bytes go through
        2 fails: gather ab = 2; through cd = failed; holds ab; faults 1

a writer that takes no byte has failed
        0: through x = failed; holds; faults 1

a writer that is interrupted for ever has failed
        interrupted: through x = failed; holds; faults 1

an error frame goes out at once, behind what was gathered
        7: gather \0\0\0\x06\0\0\0\0OK = 10; holds; gather \0\0\0\x06\0\0\0\x01E_ = 10; holds \0\0\0\x06\0\0\0\0OK\0\0\0\x06\0\0\0\x01E_

two frames whose last is an error frame go out at once
        all: gather \0\0\0\x04\0\0\0\0\0\0\0\x04\0\0\0\x01 = 16; holds \0\0\0\x04\0\0\0\0\0\0\0\x04\0\0\0\x01

what only looks like an error frame is gathered
        all: gather \0\0\0\x0c\0\0\0\x02\0\0\0\x04\0\0\0\x01 = 16; gather \0\0\0\x05\0\0\0\x01 = 8; holds

an error frame that can't be sent was taken
        fails: gather \0\0\0\x06\0\0\0\x01E_ = 10; holds; faults 1; gather more = failed

what was stopped sends nothing any more
        all: gather lost = 4; stop; gather more = failed; flush = failed; holds
";

/// The answers that these words say.
fn answers_of(rt: &impl Abort, alloc: Global, words: &str) -> Vec<Answer> {
    let mut answers = Vec::new(alloc);
    for word in words.trim().split(' ') {
        let answer = match word {
            "all" => Answer::Takes(usize::MAX),
            "interrupted" => Answer::Interrupted,
            "fails" => Answer::Fails,
            _ => Answer::Takes(word.parse::<usize>().expect(rt, "a number")),
        };
        answers.push(answer).expect(rt, "memory");
    }
    answers
}

/// Whether these bytes, of which there are some, are gathered so, or go through so.
fn sends(outbox: &mut Outbox<Scripted>, what: &str, bytes: &[u8], answer: &str) -> bool {
    if bytes.is_empty() {
        return false;
    }
    match what {
        "gather" => is_write(outbox.gather(bytes), answer),
        "through" => is_write(outbox.send_through(bytes), answer),
        _ => false,
    }
}

/// Whether a call goes so.
fn goes(rt: &impl Abort, alloc: Global, outbox: &mut Outbox<Scripted>, step: &str) -> bool {
    let (call, answer) = halves(step, " = ");
    let (what, rest) = cut(call);
    match what {
        "flush" => is_did(outbox.flush(), answer),
        "stop" => {
            outbox.stop();
            outbox.is_broken()
        }
        "holds" => same(&outbox.writer().held, &bytes_of(rt, alloc, rest)),
        "faults" => is_number(outbox.faults(), rest),
        _ => sends(outbox, what, &bytes_of(rt, alloc, rest), answer),
    }
}

/// Whether all calls of a row go so.
fn holds(rt: &impl Abort, alloc: Global, row: &str) -> bool {
    let (_, row) = part(rt, row, "\n");
    let (answers, steps) = part(rt, row, ":");
    let writer = Scripted {
        held: Vec::new(alloc),
        answers: answers_of(rt, alloc, answers),
        at: 0,
    };
    let mut outbox = Outbox::new(alloc, writer).expect(rt, "memory");
    for step in steps.split(';') {
        if !goes(rt, alloc, &mut outbox, step.trim()) {
            return false;
        }
    }
    true
}

#[test]
fn rows(rt: HostRuntime) {
    for row in ROWS.trim().split("\n\n") {
        check(&rt, holds(&rt, rt.alloc(), row), row);
    }
}
