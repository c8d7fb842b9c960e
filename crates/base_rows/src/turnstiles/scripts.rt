//! Turns of three passes, one after another.
//!
//! A row has a name, the list with which the turnstile is made, the turns with a `;` between them, and the list at close. A turn is the number
//! of its pass, the list that it finds behind a `:`, and what it appends behind a `>`. An entry is its number and its value, with a `.` between
//! them.
ghost use Rattle.std.specs.Prelude.{◌≡◌, ◌⊎◌, ◌++◌, IsTrue, All};
ghost use Rattle.turnstile.specs.Passes.{number, own_in, own_of};
ghost use Rattle.base_rows.specs.Keeps.{KeepsNumbers, IsReady, IsUnsplit};

use crate::text::{check_row, cut, number_of, rows_of};
use crate::turnstiles::pairs::{Pairs, append, same};
use std::alloc::Global;
use std::process::Abort;
use std::sync::Wait;
use turnstile::{Pass, Turnstile};

static ROWS: &[u8] = b"\
one pass appends an entry of its own and a common one||1:>1.7 0.9|1.7 0.9~\
two passes, the second finds what the first appended||1:>1.7;2:1.7>2.8|1.7 2.8~\
a list that is there at the start, and turns that append nothing|0.3|2:0.3>;0:0.3>|0.3~\
the first pass takes turns too||0:>0.1;2:0.1>2.2 0.3 2.4;0:0.1 2.2 0.3 2.4>0.5;1:0.1 2.2 0.3 2.4 0.5>1.6|0.1 2.2 0.3 2.4 0.5 1.6~\
no turn at all|||~\
";

/// The entries of a text.
fn entries_of(rt: &impl Abort, alloc: Global, text: &'static [u8]) -> Vec<(u64, u64)> {
    let mut entries = Vec::new(alloc);
    for entry in &rows_of(rt, alloc, text, b' ') {
        let (number, value) = cut(entry, b'.');
        let entry = (number_of(rt, number), number_of(rt, value));
        entries.push(entry).expect(rt, "memory");
    }
    entries
}

/// Whether each entry names 0 or this number.
fn may_append(whose: u64, adds: &[(u64, u64)]) -> bool
    ensures { IsTrue result → All (λ e. (e.0 ≡ 0) ⊎ (e.0 ≡ whose)) adds.now }
{
    adds.iter().all(|e| e.0 == 0 || e.0 == whose)
}

/// One turn: whether the list is what the pass should find. It then appends the entries.
pub fn turn<R: Abort + Wait>(
    rt: &R,
    turnstile: &Turnstile<Pairs>,
    pass: &mut Pass<Pairs>,
    finds: &[(u64, u64)],
    adds: &[(u64, u64)],
) -> bool
    requires ready { IsReady turnstile.now pass.old }
    requires adds { All (λ e. (e.0 ≡ 0) ⊎ (e.0 ≡ number pass.old)) adds.now }
    ensures ready { IsReady turnstile.now pass.new }
    ensures kept { KeepsNumbers pass.old pass.new }
    ensures own { own_of pass.new ≡ own_of pass.old ++ own_in pass.old adds.now }
{
    let mut held = turnstile.take(rt, pass);
    let found = same(&held.value.list, finds);
    append(rt, &mut held.value, adds);
    turnstile.give(held, pass);
    found
}

/// All turns of a row: whether each found what it should.
fn run<R: Abort + Wait>(
    rt: &R,
    alloc: Global,
    turnstile: &Turnstile<Pairs>,
    first: &mut Pass<Pairs>,
    one: &mut Pass<Pairs>,
    two: &mut Pass<Pairs>,
    steps: &[&'static [u8]],
) -> bool
    requires first { IsReady turnstile.now first.old × (number first.old ≡ 0) }
    requires one { IsReady turnstile.now one.old × (number one.old ≡ 1) }
    requires two { IsReady turnstile.now two.old × (number two.old ≡ 2) }
    ensures ready { IsReady turnstile.now first.new × IsReady turnstile.now one.new × IsReady turnstile.now two.new }
    ensures first { KeepsNumbers first.old first.new }
    ensures one { KeepsNumbers one.old one.new }
    ensures two { KeepsNumbers two.old two.new }
{
    let mut all = true;
    for step in steps {
        let (who, step) = cut(step, b':');
        let found = match number_of(rt, who) {
            0 => turn_of(rt, alloc, turnstile, first, 0, step),
            1 => turn_of(rt, alloc, turnstile, one, 1, step),
            2 => turn_of(rt, alloc, turnstile, two, 2, step),
            _ => false,
        };
        all = all && found;
    }
    all
}

/// One turn of the pass of this number, where it may append what it should.
fn turn_of<R: Abort + Wait>(
    rt: &R,
    alloc: Global,
    turnstile: &Turnstile<Pairs>,
    pass: &mut Pass<Pairs>,
    whose: u64,
    step: &'static [u8],
) -> bool
    requires ready { IsReady turnstile.now pass.old }
    requires number { number pass.old ≡ whose }
    ensures ready { IsReady turnstile.now pass.new }
    ensures kept { KeepsNumbers pass.old pass.new }
{
    let (finds, adds) = cut(step, b'>');
    let finds = entries_of(rt, alloc, finds);
    let entries = entries_of(rt, alloc, adds);
    let adds = entries.as_slice();
    if !may_append(whose, adds) {
        return false;
    }
    turn(rt, turnstile, pass, &finds, adds)
}

/// Makes a turnstile of a list of common entries.
pub fn made(
    rt: &impl Abort,
    alloc: Global,
    begins: &[(u64, u64)],
) -> (Turnstile<Pairs>, Pass<Pairs>)
    ensures ready { IsReady result.0 result.1 }
    ensures new { IsUnsplit result.1 }
{
    if !may_append(0, begins) {
        panic!(rt; "an entry that isn't common");
    }
    let list = begins.to_vec(alloc).expect(rt, "memory");
    match Turnstile::new(alloc, Pairs { list }) {
        Ok(made) => made,
        Err(_) => panic!(rt; "memory"),
    }
}

fn holds<R: Abort + Wait>(rt: &R, alloc: Global, row: &'static [u8]) -> bool {
    let (_, rest) = cut(row, b'|');
    let (begins, rest) = cut(rest, b'|');
    let (steps, ends) = cut(rest, b'|');
    let steps = rows_of(rt, alloc, steps, b';');
    let (turnstile, mut first) = made(rt, alloc, &entries_of(rt, alloc, begins));
    let mut one = turnstile.split(&mut first, 1);
    let mut two = turnstile.split(&mut first, 2);
    let found = run(
        rt, alloc, &turnstile, &mut first, &mut one, &mut two, &steps,
    );
    turnstile.join(&mut first, two);
    turnstile.join(&mut first, one);
    let ended = turnstile.close(first);
    found && same(&ended.list, &entries_of(rt, alloc, ends))
}

#[test]
fn rows(rt: HostRuntime) {
    for row in &rows_of(&rt, rt.alloc(), ROWS, b'~') {
        let (name, _) = cut(row, b'|');
        check_row(&rt, holds(&rt, rt.alloc(), row), name);
    }
}
