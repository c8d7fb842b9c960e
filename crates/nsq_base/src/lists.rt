ghost use Rattle.std.specs.Prelude.{◌≡◌, [], ◌∷◌, ◌++◌, OnOk, OnErr};

use nsq_core::Memory;

/// Puts an item at the end of a list. After Memory the list is as before, and the item is dropped.
pub(crate) fn put_last<T: Drop>(items: &mut Vec<T>, item: T) -> Result<(), Memory>
    ensures ok { OnOk result (items.new.items ≡ items.old.items ++ item ∷ []) }
    ensures err { OnErr result (items.new.items ≡ items.old.items) }
{
    items.push(item)?;
    Ok(())
}
