//! Threads that take turns at the same time, each of which appends many entries of its number.
ghost use Rattle.std.specs.Prelude.{◌≡◌, ◌+◌, ◌<◌};
ghost use Rattle.turnstile.specs.Passes.{number};
ghost use Rattle.base_rows.specs.Keeps.{KeepsNumbers, IsReady, ArePasses};

use crate::check;
use crate::turnstiles::pairs::Pairs;
use crate::turnstiles::scripts::{made, turn};
use std::alloc::Global;
use std::process::Abort;
use std::sync::Wait;
use std::thread::{Threads, join};
use turnstile::{Pass, Turnstile};

struct Row {
    name: &'static str,
    /// Whether four threads take turns, and not two.
    four: bool,
    /// How many entries each of them appends, one in a turn.
    each: u64,
}

static ROWS: [Row; 3] = [
    Row {
        name: "two threads that append nothing",
        four: false,
        each: 0,
    },
    Row {
        name: "two threads",
        four: false,
        each: 10_000,
    },
    Row {
        name: "four threads",
        four: true,
        each: 10_000,
    },
];

/// Appends entries of the pass's number with the values 0, 1 and so on.
fn append_many<R: Abort + Wait>(
    rt: &R,
    turnstile: &Turnstile<Pairs>,
    mut pass: Pass<Pairs>,
    whose: u64,
    each: u64,
) -> Pass<Pairs>
    requires ready { IsReady turnstile.now pass }
    requires number { number pass ≡ whose }
    ensures ready { IsReady turnstile.now result }
    ensures kept { KeepsNumbers pass result }
{
    for value in 0..each {
        turn(rt, turnstile, &mut pass, &[], &[(whose, value)]);
    }
    pass
}

/// Two threads, each with a pass.
fn two_append<R: Abort + Wait + Threads + Sync>(
    rt: &R,
    turnstile: &Turnstile<Pairs>,
    one: Pass<Pairs>,
    other: Pass<Pairs>,
    from: u64,
    each: u64,
) -> (Pass<Pairs>, Pass<Pairs>)
    requires ready { IsReady turnstile.now one × IsReady turnstile.now other }
    requires one { number one ≡ from }
    requires other { number other ≡ from + 1 }
    requires room { from < 4 }
    ensures ready { IsReady turnstile.now result.0 × IsReady turnstile.now result.1 }
    ensures one { KeepsNumbers one result.0 }
    ensures other { KeepsNumbers other result.1 }
{
    join(
        rt,
        || append_many(rt, turnstile, one, from, each),
        || append_many(rt, turnstile, other, from + 1, each),
    )
}

fn two_threads<R: Abort + Wait + Threads + Sync>(
    rt: &R,
    alloc: Global,
    each: u64,
) -> Vec<(u64, u64)> {
    let (turnstile, mut first) = made(rt, alloc, &[]);
    let one = turnstile.split(&mut first, 1);
    let two = turnstile.split(&mut first, 2);
    let (one, two) = two_append(rt, &turnstile, one, two, 1, each);
    turnstile.join(&mut first, one);
    turnstile.join(&mut first, two);
    turnstile.close(first).list
}

/// Four threads, each with a pass.
fn four_append<R: Abort + Wait + Threads + Sync>(
    rt: &R,
    turnstile: &Turnstile<Pairs>,
    front: (Pass<Pairs>, Pass<Pairs>),
    back: (Pass<Pairs>, Pass<Pairs>),
    each: u64,
) -> ((Pass<Pairs>, Pass<Pairs>), (Pass<Pairs>, Pass<Pairs>))
    requires front { ArePasses turnstile.now 1 front }
    requires back { ArePasses turnstile.now 3 back }
    ensures front { ArePasses turnstile.now 1 result.0 }
    ensures back { ArePasses turnstile.now 3 result.1 }
{
    join(
        rt,
        || -> (Pass<Pairs>, Pass<Pairs>)
            requires { ArePasses turnstile.now 1 front }
            ensures { ArePasses turnstile.entry.now 1 result }
        { two_append(rt, turnstile, front.0, front.1, 1, each) },
        || -> (Pass<Pairs>, Pass<Pairs>)
            requires { ArePasses turnstile.now 3 back }
            ensures { ArePasses turnstile.entry.now 3 result }
        { two_append(rt, turnstile, back.0, back.1, 3, each) },
    )
}

fn four_threads<R: Abort + Wait + Threads + Sync>(
    rt: &R,
    alloc: Global,
    each: u64,
) -> Vec<(u64, u64)> {
    let (turnstile, mut first) = made(rt, alloc, &[]);
    let one = turnstile.split(&mut first, 1);
    let two = turnstile.split(&mut first, 2);
    let three = turnstile.split(&mut first, 3);
    let four = turnstile.split(&mut first, 4);
    let (front, back) = four_append(rt, &turnstile, (one, two), (three, four), each);
    turnstile.join(&mut first, front.1);
    turnstile.join(&mut first, back.1);
    turnstile.join(&mut first, front.0);
    turnstile.join(&mut first, back.0);
    turnstile.close(first).list
}

/// Whether the entries of a number have the values from 0 on, one after another, and are as many as this.
fn is_in_order(list: &[(u64, u64)], whose: u64, each: u64) -> bool {
    let mut next = 0u64;
    for entry in list {
        if entry.0 == whose {
            if entry.1 != next {
                return false;
            }
            next = next.saturating_add(1);
        }
    }
    next == each
}

/// Whether the list has what each of so many threads appended, in its order, and nothing else.
fn is_of_threads(list: &[(u64, u64)], threads: u64, each: u64) -> bool {
    for whose in 1..5 {
        let wants = if whose <= threads { each } else { 0 };
        if !is_in_order(list, whose, wants) {
            return false;
        }
    }
    list.len() as u64 == each.saturating_mul(threads)
}

fn holds<R: Abort + Wait + Threads + Sync>(rt: &R, alloc: Global, row: &Row) -> bool {
    if row.four {
        let list = four_threads(rt, alloc, row.each);
        return is_of_threads(list.as_slice(), 4, row.each);
    }
    let list = two_threads(rt, alloc, row.each);
    is_of_threads(list.as_slice(), 2, row.each)
}

#[test]
fn rows(rt: HostRuntime) {
    for row in &ROWS {
        check(&rt, holds(&rt, rt.alloc(), row), row.name);
    }
}
