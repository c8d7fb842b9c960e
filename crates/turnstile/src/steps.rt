//! The steps of a turnstile, on the seat of a pass.
ghost use Rattle.std.specs.Prelude.{◌≡◌, ◌≢◌, ◌++◌, ◌∷◌, [], ℕ, List, true, false, MatchBool, None, Some};
ghost use Rattle.turnstile.specs.Lists.{BeginsWith, told, own, Appends};
ghost use Rattle.turnstile.specs.Views.{with_given, later_view, absorbing, winning, given_back, IsNew, Descends};
ghost use Rattle.turnstile.specs.Rule.{Wins, Knows};
ghost use Rattle.turnstile.specs.Passes.{IsPassSeat, IsSameSeat};

use crate::plays::{Absorb, Count, Cut, Free, Look, Numbered, Win};
use crate::{Stands, Turnstile, View};
use atomic_table::Seat;
use std::hint::spin_loop;
use std::sync::Wait;
use std::sync::atomic::Ordering::SeqCst;

/// The seat of a pass at the table.
pub(crate) type Place<S> = Seat<Option<Box<S>>, View<<S as Stands>::Entry, <S as Stands>::Picture>>;

// What the word is while a pass holds the turn, and once its entries are counted.
const TAKEN: u64 = 1;

const COUNTED: u64 = 2;

// The bell while no thread sleeps, and while one may.
const QUIET: u64 = 0;

const CALLED: u32 = 1;

// How often a thread looks at the word before it sleeps.
const LOOKS: u32 = 40;

impl<S: Stands> Turnstile<S> {
    // Takes the turn if nobody holds it.
    fn try_win(&self, seat: &mut Place<S>) -> bool
        requires of { seat.old.table_id ≡ self.now.table.shared.table_id }
        requires pass { IsPassSeat seat.old }
        requires away { seat.old.me.0.turn ≡ 0 }
        ensures same { IsSameSeat seat.old seat.new }
        ensures won { MatchBool result (Wins (λ b. told S.tells S.entries b.value) S.number S.is_common (λ p b. S.descends p b.value) seat.old.me seat.new.me) (seat.new.me ≡ seat.old.me) }
    {
        self.table.shared.compare_exchange::<Win>(seat, 0, 0, TAKEN) == 0
    }

    // Looks for a free turn a while, and takes it. Where others sleep already it doesn't: fewer threads at the word are faster.
    fn spin(&self, seat: &mut Place<S>) -> bool
        requires of { seat.old.table_id ≡ self.now.table.shared.table_id }
        requires pass { IsPassSeat seat.old }
        requires away { seat.old.me.0.turn ≡ 0 }
        ensures same { IsSameSeat seat.old seat.new }
        ensures won { MatchBool result (Wins (λ b. told S.tells S.entries b.value) S.number S.is_common (λ p b. S.descends p b.value) seat.old.me seat.new.me) (seat.new.me ≡ seat.old.me) }
    {
        for _ in 0..LOOKS {
            if self.bell.load(SeqCst) != QUIET {
                return false;
            }
            spin_loop();
            if self.table.shared.peek(0) == 0 {
                if self.try_win(seat) {
                    return true;
                }
            }
        }
        false
    }

    // Sleeps until a turn is free, and takes it. The bell is set before each try and before each sleep: a giver whose turn the try
    // still finds will see it set, and one of those that sleep wakes and sets it again for the others. Who wins leaves it set.
    fn sleep<R: Wait>(&self, rt: &R, seat: &mut Place<S>)
        requires of { seat.old.table_id ≡ self.now.table.shared.table_id }
        requires pass { IsPassSeat seat.old }
        requires away { seat.old.me.0.turn ≡ 0 }
        ensures same { IsSameSeat seat.old seat.new }
        ensures won { Wins (λ b. told S.tells S.entries b.value) S.number S.is_common (λ p b. S.descends p b.value) seat.old.me seat.new.me }
    {
        for _ in rt.forever() {
            self.bell.store(CALLED as u64, SeqCst);
            if self.try_win(seat) {
                return;
            }
            self.bell.park(rt, CALLED);
        }
        unreachable!()
    }

    fn win<R: Wait>(&self, rt: &R, seat: &mut Place<S>)
        requires of { seat.old.table_id ≡ self.now.table.shared.table_id }
        requires pass { IsPassSeat seat.old }
        requires away { seat.old.me.0.turn ≡ 0 }
        ensures same { IsSameSeat seat.old seat.new }
        ensures won { Wins (λ b. told S.tells S.entries b.value) S.number S.is_common (λ p b. S.descends p b.value) seat.old.me seat.new.me }
    {
        if self.try_win(seat) {
            return;
        }
        if self.spin(seat) {
            return;
        }
        self.sleep(rt, seat);
    }

    // Wakes a thread where one may sleep. A word that is free has to stand before this looks.
    fn wake_one(&self) {
        if self.bell.load(SeqCst) == QUIET {
            return;
        }
        if self.bell.swap(QUIET, SeqCst) != QUIET {
            self.bell.wake_one();
        }
    }

    // Waits for the turn, and takes the value out.
    pub(crate) fn take_out<R: Wait>(&self, rt: &R, seat: &mut Place<S>) -> Box<S>
        requires of { seat.old.table_id ≡ self.now.table.shared.table_id }
        requires pass { IsPassSeat seat.old }
        requires away { seat.old.me.0.turn ≡ 0 }
        ensures same { IsSameSeat seat.old seat.new }
        ensures view { seat.new.me.0 ≡ winning (told S.tells S.entries result.value) seat.old.me.0 }
        ensures hand { seat.new.me.1 ≡ (0, None) ∷ [] }
        ensures front { BeginsWith (told S.tells S.entries result.value) seat.old.me.0.seen }
        ensures own { own S.number S.is_common seat.old.me.0.number (told S.tells S.entries result.value) ≡ own S.number S.is_common seat.old.me.0.number seat.old.me.0.seen }
        ensures descends { Descends S.descends seat.old.me.0.root result.value }
    {
        self.win(rt, seat);
        let Some(value) = self.table.shared.exchange(seat, 0, None) else {
            unreachable!()
        };
        value
    }

    // Counts the value's entries, puts it back, ends the turn, and wakes a thread where one sleeps.
    pub(crate) fn put_back(&self, seat: &mut Place<S>, value: Box<S>)
        requires of { seat.old.table_id ≡ self.now.table.shared.table_id }
        requires pass { IsPassSeat seat.old }
        requires turn { seat.old.me.0.turn ≡ 1 }
        requires appended { Appends S.number S.is_common seat.old.me.0.number seat.old.me.0.taken (told S.tells S.entries value.value) }
        requires descends { Descends S.descends seat.old.me.0.root value.value }
        ensures same { IsSameSeat seat.old seat.new }
        ensures view { seat.new.me.0 ≡ given_back (told S.tells S.entries value.value) seat.old.me.0 }
        ensures hand { seat.new.me.1 ≡ [] }
        ensures front { BeginsWith seat.old.me.0.taken seat.old.me.0.seen }
        ensures own { own S.number S.is_common seat.old.me.0.number seat.old.me.0.taken ≡ own S.number S.is_common seat.old.me.0.number seat.old.me.0.seen }
    {
        let shared = &self.table.shared;
        let home = Some(value);
        shared.compare_exchange_with::<Count>(seat, 0, TAKEN, COUNTED, &home);
        let empty = shared.exchange(seat, 0, home);
        let None = empty else { unreachable!() };
        shared.store::<Free>(seat, 0, 0);
        self.wake_one();
    }

    // Cuts a new seat off the first pass's, with the number that this call picks.
    pub(crate) fn cut<N: Numbered>(&self, seat: &mut Place<S>, number: u64) -> Place<S>
        requires of { seat.old.table_id ≡ self.now.table.shared.table_id }
        requires pass { IsPassSeat seat.old }
        requires number { number ≡ N.number }
        requires new { IsNew number seat.old.me.0 }
        ensures same { IsSameSeat seat.old seat.new × (seat.new.me.1 ≡ seat.old.me.1) }
        ensures given { seat.new.me.0 ≡ with_given number seat.old.me.0 }
        ensures new { (result.table_id ≡ seat.old.table_id) × (result.me.1 ≡ []) }
        ensures view { result.me.0 ≡ later_view number seat.old.me.0 }
        ensures knows { Knows S.number S.is_common result.me.0 }
    {
        let _ = number;
        let shared = &self.table.shared;
        let mut new = shared.split_seat::<Cut<N>>(seat);
        shared.load::<Look>(&mut new, 0);
        new
    }

    // The first pass's seat takes in another one.
    pub(crate) fn absorb(&self, seat: &mut Place<S>, other: Place<S>)
        requires of { (seat.old.table_id ≡ self.now.table.shared.table_id) × (other.table_id ≡ self.now.table.shared.table_id) }
        requires pass { IsPassSeat seat.old × IsPassSeat other }
        requires first { seat.old.me.0.number ≡ 0 }
        requires away { other.me.0.turn ≡ 0 }
        ensures same { IsSameSeat seat.old seat.new × (seat.new.me.1 ≡ seat.old.me.1) }
        ensures view { seat.new.me.0 ≡ absorbing seat.old.me.0 other.me.0 }
        ensures both { BeginsWith seat.new.me.0.seen seat.old.me.0.seen × BeginsWith seat.new.me.0.seen other.me.0.seen }
        ensures own { own S.number S.is_common seat.new.me.0.number seat.new.me.0.seen ≡ own S.number S.is_common seat.old.me.0.number seat.old.me.0.seen }
    {
        let shared = &self.table.shared;
        shared.join_seat::<Absorb>(seat, other);
        shared.load::<Look>(seat, 0);
    }
}
