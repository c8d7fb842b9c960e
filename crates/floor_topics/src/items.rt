ghost use Rattle.std.specs.Prelude.{◌≡◌, ◌≤◌, ◌<◌, ◌++◌, drop, length, suc, take, vec_capacity, vec_len};
ghost use Rattle.std.specs.List.{insert};

// These two know nothing of their items, so that their proofs open none.

// Drops the item at a place.
pub(crate) fn drop_at<T: Drop>(items: &mut Vec<T>, i: usize)
    requires { i < length items.old.items }
    ensures { items.new.items ≡ take i items.old.items ++ drop (suc i) items.old.items }
{
    let _ = items.remove(i);
}

// Puts an item back where it was. Requires that there is room for one more.
pub(crate) fn put_back<T: Drop>(items: &mut Vec<T>, i: usize, item: T)
    requires place { i ≤ length items.old.items }
    requires space { vec_len items.old < vec_capacity items.old }
    ensures { items.new.items ≡ insert items.old.items i item }
{
    let Ok(()) = items.insert(i, item) else {
        unreachable!()
    };
}
