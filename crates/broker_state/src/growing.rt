ghost use Rattle.std.specs.Prelude.{◌≡◌, ◌++◌, ◌∷◌, List, [], IfOk, OnOk};

use nsq_base::Memory;
use std::alloc::Global;

/// What can be copied, unless memory is wanting.
pub(crate) trait Copied: Drop {
    /// A copy of it.
    fn copied(&self, alloc: Global) -> Result<Self, Memory>
        ensures { IfOk result (λ copy. copy ≡ self.now) };
}

/// Copies of these.
pub(crate) fn copy_each<X: Copied>(alloc: Global, items: &[X]) -> Result<Vec<X>, Memory>
    ensures { IfOk result (λ copies. copies.items ≡ items.now) }
{
    let mut copies = Vec::new(alloc);
    for item in items {
        put_last(&mut copies, item.copied(alloc)?)?;
    }
    Ok(copies)
}

/// Adds one behind a list. It goes with the refusal where memory is wanting.
pub(crate) fn put_last<T: Drop>(list: &mut Vec<T>, one: T) -> Result<(), Memory>
    ensures { OnOk result (list.new.items ≡ list.old.items ++ one ∷ []) }
{
    list.push(one)?;
    Ok(())
}
