//! What a pass has as its own, which no call answers: contracts say it.
ghost use Rattle.std.specs.Prelude.{◌≡◌, ◌<◌, [], ◌∷◌};
ghost use Rattle.turnstile.specs.Passes.{number, own_of};
ghost use Rattle.base_rows.specs.Keeps.{KeepsNumbers, IsReady};

use crate::check;
use crate::turnstiles::pairs::{Pairs, same};
use crate::turnstiles::scripts::{made, turn};
use std::alloc::Global;
use std::process::Abort;
use std::sync::Wait;
use turnstile::{Pass, Turnstile};

struct Row {
    name: &'static str,
    /// What the passes 1 and 2 append, beside a common entry each.
    one: u64,
    two: u64,
    ends: &'static [(u64, u64)],
}

static ROWS: [Row; 2] = [
    Row {
        name: "each pass has its entry alone as its own",
        one: 7,
        two: 8,
        ends: &[(1, 7), (0, 9), (2, 8), (0, 9)],
    },
    Row {
        name: "the same with equal values",
        one: 9,
        two: 9,
        ends: &[(1, 9), (0, 9), (2, 9), (0, 9)],
    },
];

/// A pass with no entries of its own appends one, and a common one behind it. It has the first as its own, and nothing else.
fn append_own<R: Abort + Wait>(
    rt: &R,
    turnstile: &Turnstile<Pairs>,
    pass: &mut Pass<Pairs>,
    whose: u64,
    value: u64,
)
    requires ready { IsReady turnstile.now pass.old }
    requires number { number pass.old ≡ whose }
    requires later { 0 < whose }
    requires none { own_of pass.old ≡ [] }
    ensures ready { IsReady turnstile.now pass.new }
    ensures kept { KeepsNumbers pass.old pass.new }
    ensures own { own_of pass.new ≡ (whose, value) ∷ [] }
{
    turn(rt, turnstile, pass, &[], &[(whose, value), (0, 9)]);
}

fn holds<R: Abort + Wait>(rt: &R, alloc: Global, row: &Row) -> bool {
    let (turnstile, mut first) = made(rt, alloc, &[]);
    let mut one = turnstile.split(&mut first, 1);
    let mut two = turnstile.split(&mut first, 2);
    append_own(rt, &turnstile, &mut one, 1, row.one);
    append_own(rt, &turnstile, &mut two, 2, row.two);
    turnstile.join(&mut first, one);
    turnstile.join(&mut first, two);
    let ended = turnstile.close(first);
    same(&ended.list, row.ends)
}

#[test]
fn rows(rt: HostRuntime) {
    for row in &ROWS {
        check(&rt, holds(&rt, rt.alloc(), row), row.name);
    }
}
