ghost use Rattle.std.specs.Prelude.{◌≡◌, ◌++◌, flat_map, OnOk, OnErr};

use nsq_base::Memory;

/// Appends these parts, in order. Want of memory is the only error: then the list is as before. Memory is asked for once,
/// for all parts.
pub fn append_all(out: &mut Vec<u8>, parts: &[&[u8]]) -> Result<(), Memory>
    ensures ok { OnOk result (out.new.items ≡ out.old.items ++ flat_map (λ part. part.now) parts.now) }
    ensures err { OnErr result (out.new.items ≡ out.old.items) }
{
    let mut more: usize = 0;
    for part in parts {
        more = more.saturating_add(part.len());
    }
    out.reserve(more)?;
    let length = out.len();
    'parts: for part in parts {
        if out.extend_from_slice(part).is_err() {
            out.truncate(length);
            return Err(Memory);
        }
    }
    Ok(())
}
