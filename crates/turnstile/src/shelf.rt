//! The slot's value, boxed, before the table is made and where it can't be.
ghost use Rattle.std.specs.Prelude.{◌≡◌, [], ◌∷◌, IfOk, IfErr, Box, Some};

use std::alloc::{AllocFailed, Global};
use std::snapshot::Snapshot;

/// A slot with a value, and the value as clauses see it.
pub(crate) struct Shelved<S> {
    pub slots: Vec<Option<Box<S>>>,
    pub about: Snapshot<Box<S>>,
    ghost one: { slots.items ≡ Some about.value ∷ [] },
}

/// Boxes a value. Without memory it comes back.
pub(crate) fn put_on_shelf<S>(alloc: Global, value: S) -> Result<Shelved<S>, S>
    ensures ok { IfOk result (λ s. s.about.value.value ≡ value) }
    ensures err { IfErr result (λ v. v ≡ value) }
{
    let Ok(mut slots) = Vec::with_capacity(alloc, 1) else {
        return Err(value);
    };
    match Box::new(alloc, value) {
        Ok(value) => {
            let about = Snapshot::of(&value);
            slots.push_reserved(Some(value));
            Ok(Shelved { slots, about })
        }
        Err(AllocFailed { value }) => {
            slots.destroy_empty();
            Err(value)
        }
    }
}

/// Takes the value out again.
pub(crate) fn take_off_shelf<S>(mut slots: Vec<Option<Box<S>>>, about: &Snapshot<Box<S>>) -> S
    requires { slots.items ≡ Some about.now.value ∷ [] }
    ensures { result ≡ about.now.value.value }
{
    let _ = about;
    let Some(Some(value)) = slots.pop() else {
        unreachable!()
    };
    slots.destroy_empty();
    Box::into_inner(value)
}
