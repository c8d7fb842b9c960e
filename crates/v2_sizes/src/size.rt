ghost use Rattle.std.specs.Prelude.{◌≡◌, ◌<◌, length, drop, MatchOption};
ghost use Rattle.v2_sizes.specs.Sizes.{HasSize, IsField};

/// What stands where a size and so many bytes have to stand.
#[derive(Clone, Copy)]
pub enum Field {
    /// Fewer than the four bytes of the size, or fewer than so many bytes behind a good one.
    Open,
    /// A size of 0 or above the greatest one.
    Bad,
    /// A good size, and so many bytes behind it.
    Whole(usize),
}

/// The size in the first four bytes, and what stands behind them, or None where there are fewer.
pub fn size_of(bytes: &[u8]) -> Option<(u32, &[u8])>
    ensures { MatchOption result (length bytes.now < 4) (λ found. HasSize bytes.now found.0 found.1.now × (found.1.now ≡ drop 4 bytes.now)) }
{
    let Some((front, rest)) = bytes.split_first_chunk::<4>() else {
        return None;
    };
    Some((u32::from_be_bytes(*front), rest))
}

/// What stands at the front of the bytes, for a greatest size.
pub fn field_of(bytes: &[u8], most: u32) -> Field
    ensures { IsField most bytes.now result }
{
    let Some((size, rest)) = size_of(bytes) else {
        return Field::Open;
    };
    if size == 0 || size > most {
        return Field::Bad;
    }
    let size = size as usize;
    if rest.len() < size {
        return Field::Open;
    }
    Field::Whole(size)
}
