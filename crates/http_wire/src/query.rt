ghost use Rattle.std.specs.Prelude.{◌≡◌, IfOk};
ghost use Rattle.form_urlencoded.specs.Form.{split_once};
ghost use Rattle.http_wire.specs.Target.{path_of, query_of, pairs_of};

use form_urlencoded::parse;
use nsq_base::{Body, Memory, Pair, Pairs};
use std::alloc::Global;

/// What stands before the target's first question mark, and what behind it.
pub(crate) fn split_target(target: &[u8]) -> (&[u8], &[u8])
    ensures path { result.0.now ≡ path_of target.now }
    ensures query { result.1.now ≡ query_of target.now }
{
    split_once(target, b'?')
}

/// The bytes before the first such byte, and those behind it.
fn split_once(bytes: &[u8], separator: u8) -> (&[u8], &[u8])
    ensures before { result.0.now ≡ (split_once separator bytes.now).0 }
    ensures behind { result.1.now ≡ (split_once separator bytes.now).1 }
{
    match bytes.iter().position(|&byte| byte == separator) {
        Some(place) => (&bytes[..place], &bytes[place + 1..]),
        None => (bytes, &[]),
    }
}

/// The pairs of a query.
pub(crate) fn read_query(alloc: Global, query: &[u8]) -> Result<Pairs, Memory>
    ensures { IfOk result (λ pairs. pairs ≡ pairs_of query.now) }
{
    let mut pairs = Pairs::new(alloc);
    for pair in parse(alloc, query).into_owned() {
        let (name, value) = pair?;
        pairs.push(Pair {
            name: Body::of(name.into_bytes()),
            value: Body::of(value.into_bytes()),
        })?;
    }
    Ok(pairs)
}
