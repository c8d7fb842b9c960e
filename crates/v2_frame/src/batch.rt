ghost use Rattle.std.specs.Prelude.{◌≡◌, [], IfOk, MatchOption};
ghost use Rattle.v2_frame.specs.declared.batch.Content.TheVariants.{Good, Bad};
ghost use Rattle.v2_frame.specs.Parts.{IsContent};

use crate::FaultKind;
use nsq_base::{Bodies, Body, Memory};
use std::alloc::Global;
use v2_sizes::{Field, field_of, size_of};

/// What the content of an `MPUB` is.
#[derive(Drop)]
pub(crate) enum Content {
    /// As many messages as its count says, and nothing behind them.
    Good(Bodies),
    /// A fault, and its place from the first byte of the size that stands before the content.
    Bad(FaultKind, usize),
}

/// Reads the whole content of an `MPUB`: a count, and each message behind its size.
pub(crate) fn content_of(alloc: Global, most: u32, content: &[u8]) -> Result<Content, Memory>
    ensures { IfOk result (λ found. IsContent most content.now found) }
{
    let mut bodies = Bodies::new(alloc);
    match read_bodies(alloc, most, content, &mut bodies)? {
        None => Ok(Content::Good(bodies)),
        Some((kind, at)) => Ok(Content::Bad(kind, at)),
    }
}

/// Reads the messages of the content into the bodies, which are none before, or finds its fault and the place of that.
fn read_bodies(
    alloc: Global,
    most: u32,
    content: &[u8],
    bodies: &mut Bodies,
) -> Result<Option<(FaultKind, usize)>, Memory>
    requires { bodies.old ≡ [] }
    ensures { IfOk result (λ fault. MatchOption fault (IsContent most content.now (Good bodies.new)) (λ f. IsContent most content.now (Bad f.0 f.1))) }
{
    let Some((count, _)) = size_of(content) else {
        return Ok(Some((FaultKind::BadBody, 0)));
    };
    if count == 0 {
        return Ok(Some((FaultKind::BadBody, 0)));
    }
    let count = count as usize;
    let mut at = 4;
    'messages: while bodies.count() < count {
        let size = match field_of(&content[at..], most) {
            Field::Open => return Ok(Some((FaultKind::BadBody, at + 4))),
            Field::Bad => return Ok(Some((FaultKind::BadSize, at + 4))),
            Field::Whole(size) => size,
        };
        let body = Body::copy(alloc, &content[at + 4..at + 4 + size])?;
        bodies.push(body)?;
        at += 4 + size;
    }
    if at < content.len() {
        return Ok(Some((FaultKind::BadBody, at + 4)));
    }
    Ok(None)
}
