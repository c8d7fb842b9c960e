ghost use Rattle.std.specs.Prelude.{◌≡◌, ◌++◌, flat_map, length, take, OnOk, OnErr};

use nsq_base::Memory;

/// Appends these parts, in order. Want of memory is the only error: then the list is as before. Memory is asked for once,
/// for all parts.
pub(crate) fn append_all(out: &mut Vec<u8>, parts: &[&[u8]]) -> Result<(), Memory>
    ensures ok { OnOk result (out.new.items ≡ out.old.items ++ flat_map (λ part. part.now) parts.now) }
    ensures err { OnErr result (out.new.items ≡ out.old.items) }
{
    out.reserve(length_of(parts))?;
    let length = out.len();
    if put_all(out, parts).is_err() {
        out.truncate(length);
        return Err(Memory);
    }
    Ok(())
}

/// How many bytes the parts have, or the most that are counted.
fn length_of(parts: &[&[u8]]) -> usize {
    let mut length: usize = 0;
    for part in parts {
        length = length.saturating_add(part.len());
    }
    length
}

/// Appends these parts, in order. After Memory the list is as before but for bytes behind it.
fn put_all(out: &mut Vec<u8>, parts: &[&[u8]]) -> Result<(), Memory>
    ensures ok { OnOk result (out.new.items ≡ out.old.items ++ flat_map (λ part. part.now) parts.now) }
    ensures front { take (length out.old.items) out.new.items ≡ out.old.items }
{
    'parts: for part in parts {
        out.extend_from_slice(part)?;
    }
    Ok(())
}
