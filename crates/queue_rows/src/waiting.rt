//! Backlogs: what their calls answer, where their messages are, and what is left on disk.
//!
//! A row is a text: its name; a backlog in an empty folder, which is `durable` or `loose`; how many messages its ring has room for; the calls of
//! the folder that fail, each from a number on and below another; and steps, with a `;` between them, which say their answers behind `=>`.
//!
//! A message's body is a letter. It was sent three times, and is held back for 5 nanoseconds. With `put` one is put, and that becomes of it; with
//! `put-all` these are put together, and so many are left with the caller. With `take` the first message is drawn and settled, and its letter and
//! its delay are the answer, or that there is none; with `undo` one is drawn and put back before. `sync`, `empty`, `flush` and `delete` are these
//! calls; behind a deletion a new backlog is made. With `open` a durable one of that name is opened in the folder, in place of this one, with
//! a ring for so many. The `depths` are how many are in the ring and how many on disk, and a file is `absent`.

ghost use Rattle.std.specs.Prelude.{◌≡◌, All, length, IsSome, IsTrue};
ghost use Rattle.backlog.specs.declared.backlog.Lent.TheVariants.{Nothing};
ghost use Rattle.backlog.specs.Seen.{FitsLimit};

use crate::folders::{folder_told, let_folder_go};
use crate::room::Room;
use crate::text::{
    all_put_of, cut, cut_at, depths_of, is_done, is_drawn, letter, number, script_of, sync_of,
    unknown,
};
use crate::{check, is, same};
use backlog::{Backlog, Drawn, Flushed, Gone, PutAll, PutOne};
use disk_queue::{Emptied, QueueOptions, Sync};
use nsq_base::{Body, MsgId};
use nsq_fakes::MemFolder;
use std::alloc::Global;
use std::process::Abort;
use v2_frame::Message;

const OPTIONS: QueueOptions = QueueOptions {
    max_bytes: 104_857_600,
    sync_every: 2500,
    least: 26,
    limit: 16_777_242,
};

// Behind `all are put or none`: of the two records that go to disk the second is refused.
static ROWS: &'static str = "
the ring comes before the disk
    backlog: q durable memory: 1 fails:
    steps: put x => kept; put y => spilled; depths 1 1; take => x 5; put z => kept; take => z 5; take => y 0;
        take => none; depths 0 0

an undone message is the first again
    backlog: q durable memory: 1 fails:
    steps: put x => kept; put y => spilled; undo => x 5; undo => y 0

without a disk what overflows goes away
    backlog: q#ephemeral loose memory: 1 fails:
    steps: put x => kept; put y => dropped; depths 1 0; sync => not due; empty => done; take => none

a ring of none keeps nothing, and the disk takes all
    backlog: q durable memory: 0 fails:
    steps: put x => spilled; depths 0 1; take => x 0

a ring of none without a disk keeps nothing
    backlog: q#ephemeral loose memory: 0 fails:
    steps: put x => dropped

all are put or none
    backlog: q durable memory: 1 fails: WriteAt 1 2
    steps: put-all abc => fault, 3 left; depths 0 0; put-all abc => done, 0 left; depths 1 2; take => a 5;
        take => b 0; take => c 0

what was flushed is found
    backlog: q durable memory: 2 fails:
    steps: put-all abc => done, 0 left; flush => done; depths 0 3; open 2; take => c 0; take => a 0; take => b 0

a fault hands the message back
    backlog: q durable memory: 1 fails: WriteAt 1 2
    steps: put x => kept; put y => spilled; put z => back; depths 1 1; empty => done; take => none; delete;
        absent q.diskqueue.meta.dat

a flush that fails keeps the rest
    backlog: q durable memory: 2 fails: WriteAt 1 2
    steps: put x => kept; put y => kept; flush => fault; depths 1 1; take => y 5; take => x 0
";

// A backlog in a folder. No message is drawn.
#[derive(Drop)]
struct Shelf {
    backlog: Backlog,
    folder: MemFolder,
    ring: usize,
    durable: bool,
    ghost nothing: { backlog.lent ≡ Nothing },
    ghost disk: { IsTrue durable → IsSome backlog.queue },
}

fn let_go(shelf: Shelf) {
    let Shelf {
        backlog,
        folder,
        ring: _,
        durable: _,
    } = shelf;
    let_backlog_go(backlog);
    let_folder_go(folder);
}

// Takes a backlog apart.
fn let_backlog_go(_backlog: Backlog) {}

// A new backlog.
fn fresh(rt: &impl Abort, alloc: Global, name: &str, ring: usize, durable: bool) -> Backlog
    ensures nothing { result.lent ≡ Nothing }
    ensures disk { IsTrue durable → IsSome result.queue }
{
    Backlog::fresh(alloc, name, ring, durable, OPTIONS).expect(rt, "memory")
}

fn is_durable(rt: &impl Abort, word: &str) -> bool {
    if is(word, "durable") {
        true
    } else if is(word, "loose") {
        false
    } else {
        unknown(rt, word)
    }
}

// Whether each step answers what it says.
fn holds(rt: &impl Abort, alloc: Global, room: &mut Room, row: &str) -> bool {
    let [backlog, memory, fails, steps] = script_of(rt, row);
    let (name, word) = cut(backlog);
    let ring = number(rt, memory) as usize;
    let durable = is_durable(rt, word);
    let mut shelf = Shelf {
        backlog: fresh(rt, alloc, name, ring, durable),
        folder: folder_told(rt, alloc, "", fails),
        ring,
        durable,
    };
    let held = all_hold(rt, alloc, &mut shelf, room, name, steps);
    let_go(shelf);
    held
}

fn all_hold(
    rt: &impl Abort,
    alloc: Global,
    shelf: &mut Shelf,
    room: &mut Room,
    name: &str,
    steps: &str,
) -> bool {
    for step in steps.split(';') {
        if !step_holds(rt, alloc, shelf, room, name, step.trim()) {
            return false;
        }
    }
    true
}

// Whether a step answers what it says.
fn step_holds(
    rt: &impl Abort,
    alloc: Global,
    shelf: &mut Shelf,
    room: &mut Room,
    name: &str,
    step: &str,
) -> bool {
    let (call, answer) = cut_at(step, " => ");
    let (word, rest) = cut(call);
    if is(word, "put") {
        is(shelf.put(rt, alloc, room, letter(rt, rest)), answer)
    } else if is(word, "put-all") {
        shelf.put_all(rt, alloc, room, rest.as_bytes()) == all_put_of(rt, answer)
    } else if is(word, "take") {
        is_drawn(rt, shelf.take(room), answer)
    } else if is(word, "undo") {
        is_drawn(rt, shelf.undo_and_take(room), answer)
    } else if is(word, "flush") {
        shelf.flushes(room, is_done(rt, answer))
    } else {
        changes(rt, alloc, shelf, name, (word, rest), answer)
    }
}

// The same of a step that no room for a message is needed for.
fn changes(
    rt: &impl Abort,
    alloc: Global,
    shelf: &mut Shelf,
    name: &str,
    call: (&str, &str),
    answer: &str,
) -> bool {
    let (word, rest) = call;
    if is(word, "sync") {
        shelf.sync() == sync_of(rt, answer)
    } else if is(word, "empty") {
        (shelf.empty() == Emptied::Done) == is_done(rt, answer)
    } else if is(word, "open") {
        shelf.opens(alloc, name, number(rt, rest) as usize)
    } else if is(word, "delete") {
        shelf.deletes(rt, alloc, name)
    } else if is(word, "depths") {
        shelf.backlog.depths() == depths_of(rt, rest)
    } else if is(word, "absent") {
        shelf.folder.file(rest).is_none()
    } else {
        unknown(rt, word)
    }
}

fn message(rt: &impl Abort, alloc: Global, letter: u8) -> Message
    ensures { length result.body ≡ 1 }
{
    Message {
        stamp: 7,
        attempts: 3,
        id: MsgId::make(1, 2),
        body: Body::copy(alloc, &[letter]).expect(rt, "memory"),
        delay: 5,
    }
}

fn all_of(rt: &impl Abort, alloc: Global, letters: &[u8]) -> Vec<Message>
    ensures { All FitsLimit result.items }
{
    let mut messages = Vec::new(alloc);
    for letter in letters {
        messages
            .push(message(rt, alloc, *letter))
            .expect(rt, "memory");
    }
    messages
}

// What becomes of a message that comes back: whether it is as it was.
fn came_back(message: &Message, letter: u8) -> &'static str {
    if message.delay == 5 && same(message.body.bytes(), &[letter]) {
        "back"
    } else {
        "another comes back"
    }
}

// The letter and the delay of the message that is drawn.
fn told(message: &Message) -> Option<(u64, u64)> {
    match message.body.bytes() {
        [letter] if message.attempts == 3 => Some((u64::from(*letter), message.delay)),
        _ => None,
    }
}

impl Shelf {
    // What becomes of a message that is put.
    fn put(&mut self, rt: &impl Abort, alloc: Global, room: &mut Room, letter: u8) -> &'static str {
        let message = message(rt, alloc, letter);
        match self.backlog.put(&mut self.folder, &mut room.bytes, message) {
            PutOne::Kept => "kept",
            PutOne::Dropped => "dropped",
            PutOne::Spilled => "spilled",
            PutOne::Fault(message) => came_back(&message, letter),
        }
    }

    // The answer, and how many are left.
    fn put_all(
        &mut self,
        rt: &impl Abort,
        alloc: Global,
        room: &mut Room,
        letters: &[u8],
    ) -> (PutAll, usize) {
        let mut messages = all_of(rt, alloc, letters);
        let answer = self
            .backlog
            .put_all(&mut self.folder, &mut room.bytes, &mut messages);
        (answer, messages.len())
    }

    fn sync(&mut self) -> Sync {
        self.backlog.sync(&mut self.folder)
    }

    fn empty(&mut self) -> Emptied {
        self.backlog.empty(&mut self.folder)
    }

    fn take(&mut self, room: &mut Room) -> Option<(u64, u64)> {
        match self.backlog.draw(&mut self.folder, &mut room.bytes) {
            Drawn::Got(message) => {
                self.backlog.settle(&mut self.folder);
                told(&message)
            }
            Drawn::Empty | Drawn::Fault | Drawn::Damaged | Drawn::Memory => None,
        }
    }

    fn undo_and_take(&mut self, room: &mut Room) -> Option<(u64, u64)> {
        match self.backlog.draw(&mut self.folder, &mut room.bytes) {
            Drawn::Got(message) => self.backlog.undo(message),
            Drawn::Empty | Drawn::Fault | Drawn::Damaged | Drawn::Memory => return None,
        }
        self.take(room)
    }

    fn flushes(&mut self, room: &mut Room, done: bool) -> bool {
        if !self.durable {
            return false;
        }
        (self.backlog.flush(&mut self.folder, &mut room.bytes) == Flushed::Done) == done
    }

    fn opens(&mut self, alloc: Global, name: &str, ring: usize) -> bool {
        match Backlog::open(alloc, &mut self.folder, name, ring, OPTIONS) {
            Ok(opened) => {
                let_backlog_go(std::mem::replace(&mut self.backlog, opened));
                true
            }
            Err(_) => false,
        }
    }

    fn deletes(&mut self, rt: &impl Abort, alloc: Global, name: &str) -> bool {
        let fresh = fresh(rt, alloc, name, self.ring, self.durable);
        let old = std::mem::replace(&mut self.backlog, fresh);
        match old.delete(&mut self.folder) {
            Gone::Done => true,
            Gone::Fault(kept) => {
                let_backlog_go(kept);
                false
            }
        }
    }
}

#[test]
fn rows(rt: HostRuntime) {
    let mut room = Room::new(rt.alloc()).expect(&rt, "memory");
    for row in ROWS.trim().split("\n\n") {
        check(&rt, holds(&rt, rt.alloc(), &mut room, row), row);
    }
}
