//! Lists, and what stands in them.

ghost use Rattle.std.specs.Prelude.{◌≡◌, ◌++◌, List, OnOk};
ghost use Rattle.json.specs.Token.{Token};
ghost use Rattle.http_calls.specs.Tokens.{list_tokens};

use json::Writer;
use std::alloc::{AllocError, Global};

/// What stands in a list of the statistics.
pub(crate) trait Item {
    /// Its tokens.
    ghost tokens: { Self → List Token };

    /// Writes it.
    fn put(&self, alloc: Global, page: &mut Writer) -> Result<(), AllocError>
        ensures ok { OnOk result (page.new.tokens ≡ page.old.tokens ++ tokens self.now) }
        ensures before { page.new.before ≡ page.old.before };
}

/// Writes a list, each item by its tokens.
pub(crate) fn put_list<T: Item>(
    alloc: Global,
    page: &mut Writer,
    name: &str,
    items: &[T],
) -> Result<(), AllocError>
    ensures ok { OnOk result (page.new.tokens ≡ page.old.tokens ++ list_tokens T.tokens name.now items.now) }
    ensures before { page.new.before ≡ page.old.before }
{
    page.key(name)?;
    page.begin_array()?;
    'items: for item in items {
        item.put(alloc, page)?;
    }
    page.end_array()
}
