ghost use Rattle.std.specs.Prelude.{◌≡◌, ℕ, List, [], fold, IfOk};
ghost use Rattle.std.specs.List.{filter};
ghost use Rattle.nsq_base.specs.Names.{is_before, put_by};

use nsq_base::Memory;
use std::alloc::Global;

/// What stands in a list in byte order of its names.
pub trait Named: Drop {
    ghost name_of: { Self → List ℕ };

    /// Its name.
    fn name(&self) -> &[u8]
        ensures { result.now ≡ name_of self.now };
}

/// The list in byte order of the names. Of two with one name the later stands in it.
pub fn in_order<X: Named>(alloc: Global, named: Vec<X>) -> Result<Vec<X>, Memory>
    ensures { IfOk result (λ kept. kept.items ≡ fold (put_by X.name_of) [] named.items) }
{
    let mut kept = Vec::new(alloc);
    for one in named {
        kept = put(alloc, kept, one)?;
    }
    Ok(kept)
}

/// With one more at its place in byte order, in place of the one of its name.
pub fn put<X: Named>(alloc: Global, kept: Vec<X>, one: X) -> Result<Vec<X>, Memory>
    ensures { IfOk result (λ all. all.items ≡ put_by X.name_of kept.items one) }
{
    let (mut all, mut after) = split(alloc, kept, &one)?;
    all.push(one)?;
    all.append(&mut after)?;
    Ok(all)
}

// Those that come before one in byte order, and those that come after it.
fn split<X: Named>(alloc: Global, kept: Vec<X>, one: &X) -> Result<(Vec<X>, Vec<X>), Memory>
    ensures { IfOk result (λ sides. (sides.0.items ≡ filter (λ other. is_before (X.name_of other) (X.name_of one.now)) kept.items)
        × (sides.1.items ≡ filter (λ other. is_before (X.name_of one.now) (X.name_of other)) kept.items)) }
{
    let mut before = Vec::new(alloc);
    let mut after = Vec::new(alloc);
    for other in kept {
        if is_before(&other, one) {
            before.push(other)?;
        } else if is_before(one, &other) {
            after.push(other)?;
        }
    }
    Ok((before, after))
}

// Whether one comes before another in byte order.
fn is_before<X: Named>(a: &X, b: &X) -> bool
    ensures { result ≡ is_before (X.name_of a.now) (X.name_of b.now) }
{
    a.name().cmp(b.name()).is_lt()
}
