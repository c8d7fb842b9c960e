//! A list of pairs of a number and a value, which passes append to.
ghost use Rattle.std.specs.Prelude.{◌≡◌, ◌++◌, ◌==◌, true};
ghost use Rattle.std.proofs.lemmas.Bool.{eqb-true};
ghost use Rattle.turnstile.specs.Lists.{BeginsWith};

use std::collections::LinkedList;
use std::process::Abort;
use turnstile::Stands;

#[derive(Drop)]
pub struct Pairs {
    pub list: Vec<(u64, u64)>,
}

impl Stands for Pairs {
    type Entry = (u64, u64);

    type Picture = LinkedList<(u64, u64)>;

    ghost tells = { true };

    ghost entries = { λ p. p.list.items };

    ghost number = { λ e. e.0 };

    ghost is_common = { λ e. e.0 == 0 };

    ghost picture = { λ p. p.list.items };

    ghost descends = { λ front p. BeginsWith p.list.items front };

    ghost common_is_0 = { λ e h. eqb-true e.0 0 h };
}

/// Appends entries.
pub fn append(rt: &impl Abort, pairs: &mut Pairs, adds: &[(u64, u64)])
    ensures { pairs.new.list.items ≡ pairs.old.list.items ++ adds.now }
{
    pairs.list.extend_from_slice(adds).expect(rt, "memory");
}

/// Whether the entries are the same.
pub fn same(one: &[(u64, u64)], other: &[(u64, u64)]) -> bool {
    one == other
}
