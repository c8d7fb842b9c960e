ghost use Rattle.std.specs.Prelude.{◌≡◌, ◌⊎◌, ℕ, IsTrue, List, [], ◌∷◌, ◌++◌, IfOk, IfErr, All, Some};
ghost use Rattle.turnstile.specs.Lists.{BeginsWith, told};
ghost use Rattle.turnstile.specs.Views.{first_view, with_given, later_view, absorbing, winning, given_back, IsNew, IsLast};
ghost use Rattle.turnstile.specs.Passes.{view, number, seen, own_in, own_of, IsOf, IsSame, IsAway, IsTakenBy, GoesOn, HasRoot, KeepsJoined, NamesJoined};

use crate::shelf::{Shelved, put_on_shelf, take_off_shelf};
use crate::{Held, Pass, Stands, Turnstile};
use atomic_table::{Refused, Table};
use std::alloc::Global;
use std::marker::Brand;
use std::snapshot::Snapshot;
use std::sync::Wait;
use std::sync::atomic::AtomicU64;

impl<S: Stands> Turnstile<S> {
    /// A turnstile around a value, and its first pass, which has the number 0. It refuses for want of memory alone.
    pub fn new(alloc: Global, value: S) -> Result<(Turnstile<S>, Pass<S>), S>
        requires common { All (λ e. IsTrue (S.is_common e)) (told S.tells S.entries value) }
        requires descends { S.descends (S.picture value) value }
        ensures of { IfOk result (λ t. IsOf t.0 t.1) }
        ensures view { IfOk result (λ t. view t.1 ≡ first_view (told S.tells S.entries value) (S.picture value)) }
        ensures err { IfErr result (λ v. v ≡ value) }
    {
        let Shelved { slots, about } = put_on_shelf(alloc, value)?;
        match Table::new(alloc, &[0], slots, &about) {
            Ok((table, seat)) => {
                let turnstile = Turnstile {
                    table,
                    bell: AtomicU64::new(0),
                };
                Ok((turnstile, Pass { seat }))
            }
            Err(Refused { slots }) => Err(take_off_shelf(slots, &about)),
        }
    }

    /// A new pass, which has seen what the first pass has and has no own entries. The number is one that the first pass has not given.
    pub fn split(&self, pass: &mut Pass<S>, number: u64) -> Pass<S>
        requires of { IsOf self.now pass.old }
        requires new { IsNew number (view pass.old) }
        ensures of { IsSame pass.old pass.new × IsOf self.now result }
        ensures given { view pass.new ≡ with_given number (view pass.old) }
        ensures view { view result ≡ later_view number (view pass.old) }
        ensures own { own_of result ≡ [] }
    {
        Pass {
            seat: self.cut::<Brand>(&mut pass.seat, number),
        }
    }

    /// Waits for the turn and hands the value out. Its list begins with all that the pass has seen, has no more entries of the pass's
    /// own, and the value descends from the pass's root.
    pub fn take<R: Wait>(&self, rt: &R, pass: &mut Pass<S>) -> Held<S>
        requires of { IsOf self.now pass.old }
        requires away { IsAway pass.old }
        ensures of { IsSame pass.old pass.new }
        ensures taken { IsTakenBy pass.new result }
        ensures view { view pass.new ≡ winning (told S.tells S.entries result.value.value) (view pass.old) }
        ensures front { BeginsWith (told S.tells S.entries result.value.value) (seen pass.old) }
        ensures own { own_in pass.old (told S.tells S.entries result.value.value) ≡ own_of pass.old }
        ensures descends { HasRoot pass.old result.value.value }
    {
        let value = self.take_out(rt, &mut pass.seat);
        Held {
            value,
            by: Snapshot::of(pass),
        }
    }

    /// Gives back what the pass took. What was appended since is common or names the pass's number, and the value descends from the
    /// pass's root. The pass has then seen the list as it is, and what was appended and isn't common is its own too.
    pub fn give(&self, held: Held<S>, pass: &mut Pass<S>)
        requires of { IsOf self.now pass.old }
        requires taken { IsTakenBy pass.old held }
        requires appended { GoesOn pass.old (told S.tells S.entries held.value.value) }
        requires descends { HasRoot pass.old held.value.value }
        ensures of { IsSame pass.old pass.new }
        ensures view { view pass.new ≡ given_back (told S.tells S.entries held.value.value) (view pass.old) }
        ensures front { BeginsWith (seen pass.new) (seen pass.old) }
        ensures own { (rest : List S.Entry) → seen pass.new ≡ (view pass.old).taken ++ rest → own_of pass.new ≡ own_of pass.old ++ own_in pass.old rest }
    {
        let Held { value, by: _ } = held;
        self.put_back(&mut pass.seat, value);
    }

    /// The first pass takes in another one, and has then seen what both had seen.
    pub fn join(&self, pass: &mut Pass<S>, other: Pass<S>)
        requires of { IsOf self.now pass.old × IsOf self.now other }
        requires first { number pass.old ≡ 0 }
        requires away { IsAway other }
        ensures of { IsSame pass.old pass.new }
        ensures view { view pass.new ≡ absorbing (view pass.old) (view other) }
        ensures both { BeginsWith (seen pass.new) (seen pass.old) × BeginsWith (seen pass.new) (seen other) }
        ensures own { own_of pass.new ≡ own_of pass.old }
    {
        let Pass { seat } = other;
        self.absorb(&mut pass.seat, seat);
    }

    /// Gives the value back once all other passes were joined to the first one. Its list is the one that the pass has seen, which is
    /// the longest. Of each joined pass's number it has the entries that the pass had as its own, and each entry names 0 or such a number.
    pub fn close(self, pass: Pass<S>) -> S
        requires of { IsOf self pass }
        requires last { IsLast (view pass) }
        requires away { IsAway pass }
        ensures list { told S.tells S.entries result ≡ seen pass }
        ensures descends { HasRoot pass result }
        ensures kept { KeepsJoined pass (told S.tells S.entries result) }
        ensures named { NamesJoined pass (told S.tells S.entries result) }
    {
        let Turnstile { table, bell: _ } = self;
        let Pass { seat } = pass;
        let mut closed = table.close_with(seat);
        let Some(value) = closed.take(0) else {
            unreachable!()
        };
        closed.free();
        Box::into_inner(value)
    }
}
