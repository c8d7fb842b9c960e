ghost use Rattle.std.specs.Prelude.{◌≡◌, ◌++◌, ◌∷◌, Bool, true, false, IfOk};
ghost use Rattle.std.specs.List.{filter};

use nsq_base::Memory;
use std::alloc::Global;

/// What stands in a list in an order, each place once.
pub(crate) trait Ordered: Drop {
    ghost before: { Self → Self → Bool };

    /// Whether it comes before another.
    fn precedes(&self, other: &Self) -> bool
        ensures { result ≡ before self.now other.now };

    ghost once: { (a b : Self) → before a b ≡ true → before b a ≡ false };
}

/// With one more at its place, in place of the one that stands there.
pub(crate) fn put<X: Ordered>(alloc: Global, kept: Vec<X>, one: X) -> Result<Vec<X>, Memory>
    ensures { IfOk result (λ all. all.items ≡ filter (λ other. X.before other one) kept.items ++ one ∷ filter (λ other. X.before one other) kept.items) }
{
    let (mut all, mut after) = split(alloc, kept, &one)?;
    all.push(one)?;
    all.append(&mut after)?;
    Ok(all)
}

// Those that come before one, and those that come after it.
fn split<X: Ordered>(alloc: Global, kept: Vec<X>, one: &X) -> Result<(Vec<X>, Vec<X>), Memory>
    ensures { IfOk result (λ sides. (sides.0.items ≡ filter (λ other. X.before other one.now) kept.items)
        × (sides.1.items ≡ filter (λ other. X.before one.now other) kept.items)) }
{
    let mut before = Vec::new(alloc);
    let mut after = Vec::new(alloc);
    for other in kept {
        if other.precedes(one) {
            before.push(other)?;
        } else if one.precedes(&other) {
            after.push(other)?;
        }
    }
    Ok((before, after))
}
