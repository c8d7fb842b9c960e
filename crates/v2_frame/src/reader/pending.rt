ghost use Rattle.std.specs.Prelude.{◌<◌, ◌≤◌, ◌++◌, List, ℕ, length, take, MatchOption};
ghost use Rattle.v2_frame.specs.Judging.{IsUnfinished};
ghost use Rattle.v2_frame.specs.Line.{HasNo};
ghost use Rattle.v2_frame.specs.Parts.{EndsLine};
ghost use Rattle.v2_frame.specs.declared.fault.Limits.{Limits};

use memchr::memchr;
use v2_sizes::size_of;

/// The place of the first line feed, or None where there is none. So many bytes at the front are none.
pub(crate) fn first_line(bytes: &[u8], scanned: usize) -> Option<usize>
    requires within { scanned ≤ length bytes.now }
    requires none { HasNo 10 (take scanned bytes.now) }
    ensures { MatchOption result (HasNo 10 bytes.now) (λ end. EndsLine bytes.now end) }
{
    match memchr(b'\n', &bytes[scanned..]) {
        Some(place) => Some(scanned + place),
        None => None,
    }
}

/// How many bytes have to be there before anything more is found than an unfinished command: the line that ends at this
/// place, the four bytes of the size behind it, and so many bytes once the size is there.
pub(crate) fn needed_behind(bytes: &[u8], end: usize) -> usize
    requires { EndsLine bytes.now end }
    ensures { (limits : Limits) → IsUnfinished limits bytes.now → (more : List ℕ) → length (bytes.now ++ more) < result → IsUnfinished limits (bytes.now ++ more) }
{
    match size_of(&bytes[end + 1..]) {
        None => end + 5,
        Some((size, _)) => end + 5 + size as usize,
    }
}
