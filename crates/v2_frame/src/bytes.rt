ghost use Rattle.std.specs.Prelude.{◌≡◌, ◌≤◌, length, drop};
ghost use Rattle.std.specs.Str.{bytes_eq};

/// Whether both are the same bytes.
pub(crate) fn same(one: &[u8], other: &[u8]) -> bool
    ensures { result ≡ bytes_eq one.now other.now }
{
    one == other
}

/// Drops so many bytes at the front, and moves the others there. It requires that so many are there.
pub fn drop_front(bytes: &mut Vec<u8>, count: usize)
    requires { count ≤ length bytes.old.items }
    ensures { bytes.new.items ≡ drop count bytes.old.items }
{
    let left = bytes.len() - count;
    bytes.copy_within(count.., 0);
    bytes.truncate(left);
}
