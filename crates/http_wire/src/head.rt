ghost use Rattle.std.specs.Prelude.{◌≡◌, ◌<◌, ◌^◌, ◌↔◌, ℕ, length, IsTrue, MatchOption};
ghost use Rattle.httparse.specs.Grammar.{RequestHead};
ghost use Rattle.http_wire.specs.Head.{EndsAt};
ghost use Rattle.http_wire.specs.Judged.{Says};
ghost use Rattle.http_wire.specs.Request.{IsGoodHead};

use crate::fields::{first_named, size_of};
use httparse::Status;
use httparse::spans::{EMPTY_HEADER_SPAN, parse_request};

/// The most fields of a head.
const MOST_FIELDS: usize = 64;

/// What a good head says.
#[derive(Clone, Copy)]
pub(crate) struct Head<'a> {
    /// The method.
    pub(crate) method: &'a [u8],
    /// The target.
    pub(crate) target: &'a [u8],
    /// How many bytes the body has.
    pub(crate) size: u64,
    /// Whether the body comes in another form than so many bytes.
    pub(crate) coded: bool,
}

/// What a whole head says, or None exactly where it isn't good.
pub(crate) fn read_head(text: &[u8]) -> Option<Head<'_>>
    requires { EndsAt text.now (length text.now) }
    ensures { MatchOption result ((head : RequestHead) (size : ℕ) → ¬ (IsGoodHead text.now head size)) (Says text.now) }
{
    let mut spans = [EMPTY_HEADER_SPAN; MOST_FIELDS];
    let Ok(Status::Complete(found)) = parse_request(text, &mut spans) else {
        return None;
    };
    let fields = &spans[..found.headers];
    let Some(size) = size_of(text, fields) else {
        return None;
    };
    Some(Head {
        method: found.method.of(text),
        target: found.path.of(text),
        size,
        coded: first_named(text, fields, b"transfer-encoding").is_some(),
    })
}
