//! Scripts of calls: what each answers, which message is the head, who is owed a copy of it, and what is left on disk.
//!
//! A row is a text: its name; a topic in an empty folder; how many messages find room in memory; the calls of the folder that fail, each from a
//! number on and below another; and steps, with a `;` between them, which say their answers behind `=>`. A message's number is a letter, and
//! its delay is that of the number, unless it lay on disk. A channel's name is a letter too.
//!
//! With `put` messages are put together, and so many are left with the caller. With `take` a message is taken for these channels, with `undo`
//! it is drawn for them and put back. With `pay` a channel that is owed a copy got it, with `forget` it is gone. `pause`, `empty`, `sync` and
//! `flush` are these calls; with `open` a topic of that name is opened in the folder, in place of this one, and with `delete` a new one is made
//! behind the deletion. The head `is` of a letter and a delay, or none; the topic `owes` it to channels; so many messages are in memory and so
//! many on disk where it `waits`, and it `counts` those that were put and not dropped; it is `paused`; and a file is `absent`.

use crate::room::Room;
use crate::text::{
    all_put_of, cut, cut_at, depths_of, fails_of, is_done, is_drawn, letter, number, script_of,
    sync_of, unknown,
};
use crate::topic::bench::{Bench, bench_of, let_go};
use crate::{check, is, same};
use backlog::Flushed;
use disk_queue::Emptied;
use std::alloc::Global;
use std::process::Abort;
use topic_core::Head;

// Taking and paying; what a fault and an emptying leave; topics without memory, and ephemeral ones; what a stop and a deletion leave.
static ROWS: &'static str = "
a message is taken and paid in any order
    topic: t memory: 2 fails:
    steps: take a => empty; put xy => done, 0 left; take abc => ready; is x 3; owes abc; waits 1 0; pay b; owes ac; pay c; is x 3;
        pay a; is none; owes; take c => ready; is y 4; pay c; take c => empty; counts 2

a channel is forgotten while it is owed a copy
    topic: t memory: 2 fails:
    steps: forget a; put x => done, 0 left; take abc => ready; forget a; owes bc; forget z; owes bc; pay c; is x 3; forget b; is none

an undone message is the first again
    topic: t memory: 1 fails:
    steps: put xy => done, 0 left; waits 1 1; undo ab => ready; is none; owes; waits 1 1; take a => ready; is x 3; pay a;
        undo ab => ready; waits 0 1; take a => ready; is y 0

a fault of the disk takes no message
    topic: t memory: 0 fails: ReadAt 0 1
    steps: put x => done, 0 left; take ab => fault; is none; owes; waits 0 1; undo ab => ready; take ab => ready; is x 0; owes ab;
        waits 0 0

emptying leaves the head
    topic: t memory: 1 fails:
    steps: put xyz => done, 0 left; take ab => ready; waits 0 2; empty => done; waits 0 0; is x 3; owes ab; pay a; pay b;
        take a => empty; counts 3

all are put or none
    topic: t memory: 1 fails: WriteAt 1 2
    steps: put xyz => fault, 3 left; counts 0; waits 0 0; put xyz => done, 0 left; counts 3; waits 1 2

without memory all go by the disk
    topic: t memory: 0 fails:
    steps: put xy => done, 0 left; waits 0 2; take a => ready; is x 0; pay a; sync => done; sync => not due; take a => ready; is y 0;
        pay a; take a => empty

an ephemeral topic at its bound
    topic: t#ephemeral memory: 2 fails:
    steps: put xyz => done, 0 left; waits 2 0; counts 2; take a => ready; put vw => done, 0 left; waits 2 0; counts 3;
        sync => not due; flush => done; is x 3; pay a; take a => ready; is y 4; pay a; take a => ready; is v 1;
        absent t#ephemeral.diskqueue.meta.dat; open; waits 0 0

an ephemeral topic without memory keeps none
    topic: t#ephemeral memory: 0 fails:
    steps: put xy => done, 0 left; counts 0; take a => empty

a stop writes the head back
    topic: t memory: 2 fails:
    steps: put xyzw => done, 0 left; take ab => ready; pay a; flush => done; open; waits 0 4; counts 0; take a => ready; is z 0;
        pay a; take a => ready; is w 0; pay a; take a => ready; is y 0; pay a; take a => ready; is x 0

a stop without memory and without a head
    topic: t memory: 0 fails:
    steps: put xy => done, 0 left; take a => ready; flush => done; flush => done; open; waits 0 2; take a => ready; is y 0

a stop that fails
    topic: t memory: 1 fails: WriteAt 0 1
    steps: put x => done, 0 left; flush => fault; waits 1 0; flush => done

a deletion drops all
    topic: t memory: 1 fails:
    steps: pause on; paused on; put xyz => done, 0 left; take a => ready; delete; paused off; is none; absent t.diskqueue.000000.dat;
        absent t.diskqueue.meta.dat; open; waits 0 0
";

// Whether each step answers what it says.
fn holds(rt: &impl Abort, alloc: Global, room: &mut Room, row: &str) -> bool {
    let [topic, memory, fails, steps] = script_of(rt, row);
    let topic = topic.as_bytes();
    let fails = fails_of(rt, alloc, fails);
    let mut bench = bench_of(rt, alloc, topic, number(rt, memory), &fails);
    let held = all_hold(rt, alloc, &mut bench, room, steps)
        && same(bench.topic.name().bytes(), topic);
    let_go(bench);
    held
}

fn all_hold(
    rt: &impl Abort,
    alloc: Global,
    bench: &mut Bench,
    room: &mut Room,
    steps: &str,
) -> bool {
    for step in steps.split(';') {
        if !step_holds(rt, alloc, bench, room, step.trim()) {
            return false;
        }
    }
    true
}

// Whether a step answers what it says.
fn step_holds(
    rt: &impl Abort,
    alloc: Global,
    bench: &mut Bench,
    room: &mut Room,
    step: &str,
) -> bool {
    let (call, answer) = cut_at(step, " => ");
    let (word, rest) = cut(call);
    if is(word, "put") {
        puts(rt, alloc, bench, room, rest, answer)
    } else if is(word, "take") {
        takes(rt, alloc, bench, room, rest, true, answer)
    } else if is(word, "undo") {
        takes(rt, alloc, bench, room, rest, false, answer)
    } else if is(word, "flush") {
        (bench.flush(room) == Flushed::Done) == is_done(rt, answer)
    } else if is(word, "empty") {
        (bench.empty() == Emptied::Done) == is_done(rt, answer)
    } else if is(word, "sync") {
        bench.sync() == sync_of(rt, answer)
    } else {
        moves(rt, alloc, bench, word, rest)
    }
}

// The same of a step that has no answer.
fn moves(rt: &impl Abort, alloc: Global, bench: &mut Bench, word: &str, rest: &str) -> bool {
    if is(word, "pay") {
        bench.pay(letter(rt, rest))
    } else if is(word, "forget") {
        bench.forget(letter(rt, rest))
    } else if is(word, "pause") {
        bench.topic.pause(is_on(rt, rest));
        true
    } else if is(word, "open") {
        bench.open(alloc).is_ok()
    } else if is(word, "delete") {
        bench.delete(alloc).expect(rt, "memory")
    } else {
        shows(rt, bench, word, rest)
    }
}

// Whether the topic and its folder show what a step says that calls nothing.
fn shows(rt: &impl Abort, bench: &Bench, word: &str, rest: &str) -> bool {
    if is(word, "is") {
        is_drawn(rt, bench.head(), rest)
    } else if is(word, "owes") {
        bench.owes(rest.as_bytes())
    } else if is(word, "waits") {
        bench.topic.depths() == depths_of(rt, rest)
    } else if is(word, "counts") {
        bench.topic.message_count() == number(rt, rest)
    } else if is(word, "paused") {
        bench.topic.is_paused() == is_on(rt, rest)
    } else if is(word, "absent") {
        bench.folder.file(rest).is_none()
    } else {
        unknown(rt, word)
    }
}

fn is_on(rt: &impl Abort, word: &str) -> bool {
    if is(word, "on") {
        true
    } else if is(word, "off") {
        false
    } else {
        unknown(rt, word)
    }
}

fn head_of(rt: &impl Abort, answer: &str) -> Head {
    if is(answer, "ready") {
        Head::Ready
    } else if is(answer, "empty") {
        Head::Empty
    } else if is(answer, "fault") {
        Head::Fault
    } else {
        unknown(rt, answer)
    }
}

// Whether the messages of these letters are put so.
fn puts(
    rt: &impl Abort,
    alloc: Global,
    bench: &mut Bench,
    room: &mut Room,
    letters: &str,
    answer: &str,
) -> bool {
    let mut numbers = Vec::new(alloc);
    for letter in letters.as_bytes() {
        numbers.push(u64::from(*letter)).expect(rt, "memory");
    }
    bench.put(alloc, room, &numbers).expect(rt, "memory") == all_put_of(rt, answer)
}

// Whether a message is taken so, or put back.
fn takes(
    rt: &impl Abort,
    alloc: Global,
    bench: &mut Bench,
    room: &mut Room,
    channels: &str,
    keeps: bool,
    answer: &str,
) -> bool {
    let taken = bench.take(alloc, room, channels.as_bytes(), keeps);
    taken.expect(rt, "memory") == Some(head_of(rt, answer))
}

#[test]
fn rows(rt: HostRuntime) {
    let mut room = Room::new(rt.alloc()).expect(&rt, "memory");
    for row in ROWS.trim().split("\n\n") {
        check(&rt, holds(&rt, rt.alloc(), &mut room, row), row);
    }
}
