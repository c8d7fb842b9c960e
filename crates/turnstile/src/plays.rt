//! The rule of the table, and what its steps tell. These types are for the proofs alone.
ghost use Rattle.std.specs.Prelude.{ℕ};
ghost use Rattle.turnstile.specs.Lists.{told};
ghost use Rattle.turnstile.specs.Views.{first_view, with_given, later_view, absorbing, spent};
ghost use Rattle.turnstile.specs.Rule.{IsRuled, Won, Counted, Freed, Looked};

use crate::{Stands, View};
use atomic_table::{Join, Play, Split, TableRule};
use std::marker::{Brand, PhantomData};
use std::snapshot::Snapshot;

pub(crate) struct Law;

impl<S: Stands> TableRule<Option<Box<S>>, View<S::Entry, S::Picture>, Snapshot<Box<S>>> for Law {
    ghost holds = { λ _. IsRuled (λ b. told S.tells S.entries b.value) S.number S.is_common (λ p b. S.descends p b.value) };

    ghost first = { λ key. first_view (told S.tells S.entries key.value.value) (S.picture key.value.value) };
}

pub(crate) struct Win;

impl<S: Stands> Play<Option<Box<S>>, View<S::Entry, S::Picture>> for Win {
    ghost then = { Won (λ b. told S.tells S.entries b.value) S.number S.is_common (λ p b. S.descends p b.value) };
}

pub(crate) struct Count;

impl<S: Stands> Play<Option<Box<S>>, View<S::Entry, S::Picture>> for Count {
    ghost then = { Counted (λ b. told S.tells S.entries b.value) S.number S.is_common };
}

pub(crate) struct Free;

impl<S: Stands> Play<Option<Box<S>>, View<S::Entry, S::Picture>> for Free {
    ghost then = { Freed };
}

pub(crate) struct Look;

impl<S: Stands> Play<Option<Box<S>>, View<S::Entry, S::Picture>> for Look {
    ghost then = { Looked S.number S.is_common };
}

/// The number of the next pass, which each call of `split` picks.
pub(crate) trait Numbered {
    ghost number: { ℕ };
}

impl Numbered for Brand {
    ghost number = { 0 };
}

pub(crate) struct Cut<N> {
    number: PhantomData<N>,
}

impl<E, P, N: Numbered> Split<View<E, P>> for Cut<N> {
    ghost left = { with_given N.number };

    ghost right = { later_view N.number };
}

pub(crate) struct Absorb;

impl<E, P> Join<View<E, P>> for Absorb {
    ghost both = { absorbing };

    ghost spent = { spent };
}
