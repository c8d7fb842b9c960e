ghost use Rattle.std.specs.Prelude.{◌≡◌, ◌+◌, ◌<◌, ◌≤◌, ◌↔◌, ℕ, false, min, length, take, IsTrue, MatchOption, slice_index};
ghost use Rattle.httparse.specs.Grammar.{AllPass};
ghost use Rattle.http_wire.specs.Head.{longest_head, is_line_end, EndsBlank, EndsHead, EndsAt};
ghost use Rattle.http_wire.specs.Searching.{HasNoEnd, IsSearched, IsBegun};

use memchr::memchr;

/// The most bytes of a head.
pub(crate) const LONGEST_HEAD: usize = 16384;

/// How far the end of a head was searched for, so that no byte is looked at twice.
#[derive(Clone, Copy)]
pub(crate) struct Search {
    // How many line ends stand before the head, as far as is known.
    begin: usize,
    // No head ends with so many bytes, or with fewer.
    done: usize,
}

impl Search {
    /// The search before its start.
    pub(crate) fn new() -> Search
        ensures { (result.begin ≡ 0) × (result.done ≡ 0) }
    {
        Search { begin: 0, done: 0 }
    }
}

/// Goes on with a search, and gives where the head ends, or None where it doesn't end within its most bytes.
pub(crate) fn find_end(bytes: &[u8], from: Search) -> (Search, Option<usize>)
    requires { IsSearched bytes.now from.begin from.done }
    ensures searched { IsSearched bytes.now result.0.begin result.0.done }
    ensures found { MatchOption result.1 (HasNoEnd bytes.now (min (length bytes.now) longest_head)) (λ end. EndsAt bytes.now end × (end ≤ longest_head)) }
{
    let seen = &bytes[..bytes.len().min(LONGEST_HEAD)];
    let begin = skip_line_ends(seen, from.begin);
    match first_end(seen, begin, from.done.max(begin)) {
        Some(end) => (
            Search {
                begin,
                done: end - 1,
            },
            Some(end),
        ),
        None => (
            Search {
                begin,
                done: seen.len(),
            },
            None,
        ),
    }
}

/// How many line ends stand at the front, of which so many are known.
fn skip_line_ends(bytes: &[u8], known: usize) -> usize
    requires within { known ≤ length bytes.now }
    requires known { AllPass is_line_end (take known bytes.now) }
    ensures { IsBegun bytes.now result }
{
    let mut begin = known;
    while begin < bytes.len() && matches!(bytes[begin], b'\r' | b'\n') {
        begin += 1;
    }
    begin
}

/// The fewest bytes at the front that end a head, or None where there are none. So many don't, nor do fewer.
fn first_end(bytes: &[u8], begin: usize, done: usize) -> Option<usize>
    requires begun { IsBegun bytes.now begin }
    requires order { begin ≤ done }
    requires within { done ≤ length bytes.now }
    requires none { HasNoEnd bytes.now done }
    ensures { MatchOption result (HasNoEnd bytes.now (length bytes.now)) (λ end. EndsAt bytes.now end × (begin < end)) }
{
    let mut done = done;
    while let Some(place) = memchr(b'\n', &bytes[done..]) {
        let end = done + place + 1;
        if ends_blank(&bytes[..end]) {
            return Some(end);
        }
        done = end;
    }
    None
}

/// Whether the bytes end with an empty line.
fn ends_blank(bytes: &[u8]) -> bool
    ensures { IsTrue result ↔ EndsBlank bytes.now }
{
    bytes.ends_with(b"\n\n") || bytes.ends_with(b"\n\r\n")
}
