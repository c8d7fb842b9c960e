/// What stands before the first such byte and what stands behind it, or None where there is none.
pub(crate) fn cut(bytes: &[u8], mark: u8) -> Option<(&[u8], &[u8])> {
    for (place, byte) in bytes.iter().enumerate() {
        if *byte == mark {
            return Some((&bytes[..place], &bytes[place + 1..]));
        }
    }
    None
}

/// What stands before the first such byte, or all bytes, and what stands behind it, or nothing.
pub(crate) fn halves(bytes: &[u8], mark: u8) -> (&[u8], &[u8]) {
    match cut(bytes, mark) {
        Some(parts) => parts,
        None => (bytes, &[]),
    }
}

/// Whether both are the same bytes.
pub(crate) fn same(one: &[u8], other: &[u8]) -> bool {
    one == other
}
