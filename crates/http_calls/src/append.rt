ghost use Rattle.std.specs.Prelude.{◌≡◌, ◌++◌, flat_map, IfOk, OnOk};

use nsq_base::Memory;
use std::alloc::Global;

/// These parts, one behind the other. Want of memory is the only error. Memory is asked for once, for all parts.
pub(crate) fn joined(alloc: Global, parts: &[&[u8]]) -> Result<Vec<u8>, Memory>
    ensures { IfOk result (λ text. text.items ≡ flat_map (λ part. part.now) parts.now) }
{
    let mut text = Vec::with_capacity(alloc, length_of(parts))?;
    put_all(&mut text, parts)?;
    Ok(text)
}

/// How many bytes the parts have, or the most that are counted.
fn length_of(parts: &[&[u8]]) -> usize {
    let mut length: usize = 0;
    for part in parts {
        length = length.saturating_add(part.len());
    }
    length
}

/// Appends these parts, in order. Want of memory is the only error.
fn put_all(text: &mut Vec<u8>, parts: &[&[u8]]) -> Result<(), Memory>
    ensures { OnOk result (text.new.items ≡ text.old.items ++ flat_map (λ part. part.now) parts.now) }
{
    'parts: for part in parts {
        text.extend_from_slice(part)?;
    }
    Ok(())
}
