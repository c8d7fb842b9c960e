ghost use Rattle.std.specs.Prelude.{◌≡◌, [], true, false, IsOk, None};

use nsq_core::Memory;
use nsq_outside::{End, Journal};
use std::alloc::Global;
use std::marker::PhantomData;

/// A journal that forgets its entries. It tells nothing but whether one is aside.
#[derive(Drop)]
pub struct Forgetful<E> {
    is_aside: bool,
    entries: PhantomData<E>,
}

impl<E> Forgetful<E> {
    ghost use Rattle.nsq_system.specs.Forgetting.{has_aside};

    /// A journal with no entry aside.
    pub fn new(_alloc: Global) -> Forgetful<E>
        ensures { has_aside result ≡ false }
    {
        Forgetful {
            is_aside: false,
            entries: PhantomData,
        }
    }
}

impl<E> Journal<E> for Forgetful<E> {
    ghost use Rattle.nsq_system.specs.Forgetting.{has_aside};

    ghost tells_notes = { false };

    ghost notes = { λ _. [] };

    ghost kept = { λ _. None };

    ghost is_aside = { has_aside };

    fn ready(&mut self, _entry: &E) -> Result<(), Memory>
        ensures ok { IsOk result }
        ensures aside { has_aside self.new ≡ true }
    {
        self.is_aside = true;
        Ok(())
    }

    fn note(&mut self, _end: End) {
        self.is_aside = false;
    }
}
