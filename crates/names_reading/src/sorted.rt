ghost use Rattle.std.specs.Prelude.{◌≡◌, ◌≢◌, ℕ, List, true, false, length};
ghost use Rattle.std.specs.List.{AllAdjacentBelow};
ghost use Rattle.nsq_base.specs.Name.{is_ephemeral};
ghost use Rattle.names_reading.specs.Reading.{AreApart, AreSorted};

/// What stands in a list in byte order of its names.
pub(crate) trait Named: Drop {
    ghost name_of: { Self → List ℕ };

    /// Its name.
    fn name(&self) -> &[u8]
        ensures { result.now ≡ name_of self.now };
}

// Sorts a list by the names, in byte order; false where a name stands in it twice.
pub(crate) fn sort<X: Named>(list: &mut Vec<X>) -> bool
    ensures once { result ≡ true → AreSorted X.name_of list.old.items list.new.items }
    ensures twice { result ≡ false → AreApart X.name_of list.old.items → ⊥ }
{
    list.sort_unstable_by(|a, b| a.name().cmp(b.name()));
    are_apart(list)
}

// Whether no two neighbours have one name.
fn are_apart<X: Named>(list: &[X]) -> bool
    ensures apart { result ≡ true → AllAdjacentBelow (λ a b. X.name_of a ≢ X.name_of b) list.now (length list.now) }
    ensures twice { result ≡ false → AreApart X.name_of list.now → ⊥ }
{
    'next: for next in 1..list.len() {
        if list[next - 1].name() == list[next].name() {
            return false;
        }
    }
    true
}

// Whether its name is that of a topic or channel that is never written to disk.
pub(crate) fn is_ephemeral<X: Named>(named: &X) -> bool
    ensures { result ≡ is_ephemeral (X.name_of named.now) }
{
    named.name().ends_with(b"#ephemeral")
}
