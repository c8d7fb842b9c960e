//! Random calls of a topic's queue, beside the plain list: after each call what it answers and what it shows is what the list says.
//!
//! A row is a line: its name, a topic, how many messages it keeps in memory, the seed of its random numbers, and the calls of the folder that
//! fail, each from a number on and below another.

ghost use Rattle.std.specs.Prelude.{◌≤◌};

use crate::check;
use crate::room::Room;
use crate::text::{cut, fails_of, number, part};
use crate::topic::bench::{Bench, bench_of, let_go as let_bench_go};
use crate::topic::plain::Plain;
use backlog::{Flushed, PutAll};
use disk_queue::{Emptied, Open};
use std::alloc::Global;
use std::process::Abort;
use topic_core::Head;

const CALLS: usize = 500;

static RUNS: [&'static str; 4] = [
    "durable: t 3 1",
    "durable, with a disk that fails: t 2 2 WriteAt 20 60; ReadAt 30 50",
    "durable, without memory: t 0 3",
    "ephemeral: t#ephemeral 3 4",
];

// The channels, one by one and together.
static LETTERS: [&[u8]; 7] = [b"a", b"b", b"c", b"ab", b"ac", b"bc", b"abc"];

// A topic's queue in a folder, and the plain list beside it.
#[derive(Drop)]
struct Pair {
    bench: Bench,
    plain: Plain,
    // Whether calls of the folder fail.
    fails: bool,
    // The number of the next message.
    next: u64,
    // Where the random numbers stand.
    state: u64,
}

// The next random number below this one.
fn below(state: &mut u64, bound: u64) -> u64
    requires { 1 ≤ bound }
{
    *state = state
        .wrapping_mul(6_364_136_223_846_793_005)
        .wrapping_add(1_442_695_040_888_963_407);
    (*state >> 33) % bound
}

// Some of the channels, at least one, of the first so many choices.
fn letters(state: &mut u64, choices: u64) -> &'static [u8]
    requires { 1 ≤ choices }
{
    match LETTERS.get(below(state, choices) as usize) {
        Some(letters) => letters,
        None => b"",
    }
}

// One of the channels.
fn letter(state: &mut u64) -> u8 {
    match letters(state, 3) {
        [letter] => *letter,
        _ => 0,
    }
}

// So many numbers from the next one on.
fn numbers(rt: &impl Abort, alloc: Global, count: u64, next: &mut u64) -> Vec<u64> {
    let mut numbers = Vec::new(alloc);
    for _ in 0..count {
        numbers.push(*next).expect(rt, "memory");
        *next = next.wrapping_add(1);
    }
    numbers
}

impl Pair {
    // One random call. Whether it answers what the list says, and shows that afterwards.
    fn step(&mut self, rt: &impl Abort, alloc: Global, room: &mut Room) -> bool {
        let right = match below(&mut self.state, 32) {
            0..=11 => self.put(rt, alloc, room),
            12..=17 => self.take(rt, alloc, room, true),
            18..=19 => self.take(rt, alloc, room, false),
            20..=27 => self.pay(),
            28..=29 => self.forget(),
            30 => self.empty(),
            _ => self.restart(rt, alloc, room),
        };
        right && self.agrees()
    }

    // Up to three messages are put.
    fn put(&mut self, rt: &impl Abort, alloc: Global, room: &mut Room) -> bool {
        let count = below(&mut self.state, 4);
        let numbers = numbers(rt, alloc, count, &mut self.next);
        match self.bench.put(alloc, room, &numbers).expect(rt, "memory") {
            (PutAll::Done, left) => {
                self.plain.put_all(rt, &numbers);
                left == 0
            }
            (PutAll::Fault, left) => self.fails && left == numbers.len(),
        }
    }

    // A message is drawn, where none is taken, and taken or put back. Whether that is as the list says: none is drawn where one is taken.
    fn take(&mut self, rt: &impl Abort, alloc: Global, room: &mut Room, keeps: bool) -> bool {
        let letters = letters(&mut self.state, 7);
        let waits = !self.plain.waiting.is_empty();
        match self
            .bench
            .take(alloc, room, letters, keeps)
            .expect(rt, "memory")
        {
            None => self.plain.taken.is_some(),
            Some(Head::Ready) if keeps => self.took(rt, letters),
            Some(Head::Ready) => waits,
            Some(Head::Empty) => !waits,
            Some(Head::Fault) => self.fails && waits,
            Some(Head::Damaged | Head::Memory) => false,
        }
    }

    // The message that was taken, which these channels are owed, is taken from the list.
    fn took(&mut self, rt: &impl Abort, letters: &[u8]) -> bool {
        let Some((number, delay)) = self.bench.head() else {
            return false;
        };
        self.plain.take(rt, number, delay, letters);
        self.plain.draw(number, delay)
    }

    // A channel is paid, where it is owed a copy.
    fn pay(&mut self) -> bool {
        let letter = letter(&mut self.state);
        let owed = self.plain.owed.contains(&letter);
        self.plain.pay(letter);
        self.bench.pay(letter) == owed
    }

    // A channel is gone.
    fn forget(&mut self) -> bool {
        let letter = letter(&mut self.state);
        self.plain.pay(letter);
        self.bench.forget(letter)
    }

    fn empty(&mut self) -> bool {
        match self.bench.empty() {
            Emptied::Done => {
                self.plain.waiting.clear();
                true
            }
            Emptied::Fault => self.fails,
        }
    }

    // A durable topic is flushed and opened again. Where that fails it is tried again.
    fn restart(&mut self, rt: &impl Abort, alloc: Global, room: &mut Room) -> bool {
        if self.bench.topic.name().ephemeral() {
            return true;
        }
        for _ in 0..100 {
            if self.bench.flush(room) == Flushed::Done {
                return self.reopen(rt, alloc);
            }
        }
        false
    }

    fn reopen(&mut self, rt: &impl Abort, alloc: Global) -> bool {
        for _ in 0..100 {
            match self.bench.open(alloc) {
                Ok(()) => {
                    self.plain.restart(rt);
                    return true;
                }
                Err(Open::Memory) => return false,
                Err(Open::Fault | Open::BadMeta) => {}
            }
        }
        false
    }

    // Whether the topic's queue shows what the list says.
    fn agrees(&self) -> bool {
        let depths = self.bench.topic.depths();
        let waiting = self.plain.waiting.len() as u128;
        depths.disk.checked_add(depths.ring as u128) == Some(waiting)
            && self.bench.topic.message_count() == self.plain.count
            && self.bench.head() == self.plain.taken
            && self.bench.owes(&self.plain.owed)
    }
}

// The pair that a run begins with.
fn pair_of(rt: &impl Abort, alloc: Global, run: &str) -> Pair {
    let (_, run) = part(rt, run, ": ");
    let (topic, run) = cut(run);
    let (memory, run) = cut(run);
    let (seed, fails) = cut(run);
    let fails = fails_of(rt, alloc, fails);
    let memory = number(rt, memory);
    let bench = bench_of(rt, alloc, topic.as_bytes(), memory, &fails);
    let ephemeral = bench.topic.name().ephemeral();
    Pair {
        bench,
        plain: Plain::new(alloc, ephemeral, memory as usize),
        fails: !fails.is_empty(),
        next: 0,
        state: number(rt, seed),
    }
}

fn let_go(pair: Pair) {
    let Pair {
        bench,
        plain: _plain,
        fails: _,
        next: _,
        state: _,
    } = pair;
    let_bench_go(bench);
}

// Whether all random calls of a run answer and show what the list says.
fn holds(rt: &impl Abort, alloc: Global, room: &mut Room, run: &str) -> bool {
    let mut pair = pair_of(rt, alloc, run);
    let right = all_are_right(rt, alloc, room, &mut pair);
    let_go(pair);
    right
}

fn all_are_right(rt: &impl Abort, alloc: Global, room: &mut Room, pair: &mut Pair) -> bool {
    for _ in 0..CALLS {
        if !pair.step(rt, alloc, room) {
            return false;
        }
    }
    true
}

#[test]
fn runs(rt: HostRuntime) {
    let mut room = Room::new(rt.alloc()).expect(&rt, "memory");
    for run in &RUNS {
        check(&rt, holds(&rt, rt.alloc(), &mut room, run), run);
    }
}
