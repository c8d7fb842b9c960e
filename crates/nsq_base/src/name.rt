ghost use Rattle.std.specs.Prelude.{◌≡◌, ◌≤◌, ◌↔◌, IsTrue, SomeIff, Some, length, nat_eq, refl};
ghost use Rattle.std.specs.Ordering.{nat_cmp};
ghost use Rattle.std.specs.Cmp.{partial_equiv_from_equiv};
ghost use Rattle.std.specs.Cmp.Lexicographic.{pointwise, slice_cmp, nat_list_eq_equiv, nat_list_cmp_total, texts_po, texts_ties};
ghost use Rattle.std.specs.Cmp.Rules.{hashing};
ghost use Rattle.std.specs.Hash as fed;
ghost use Rattle.std.proofs.Common.{rules};
ghost use Rattle.nsq_core.specs.Name.{is_name_byte, stem, IsEphemeral, IsName};
ghost use Rattle.nsq_base.specs.NameBuffers.{buffer_of};

use std::cmp::Ordering;
use std::hash::{Hash, Hasher};
use std::marker::Model;

/// What a topic's and a channel's name have in common: at most 64 bytes, which lie in the value itself.
#[derive(Clone, Copy)]
pub struct Name {
    buffer: [u8; Name::LONGEST],
    len: usize,
}

impl Model for Name {
    ghost use Rattle.std.specs.Prelude.{ℕ, List, length, take};
    ghost use Rattle.nsq_base.specs.NameBuffers.{HoldsName, buffer_of, buffer_of-take};

    ghost Value = { List ℕ };

    ghost view = { λ n. take n.len n.buffer };

    ghost invariant = { λ n. HoldsName n.buffer n.len };

    ghost inverse = { λ bytes. record { buffer = buffer_of bytes; len = length bytes } };

    ghost inverse_ok = { λ n h i. record { buffer = buffer_of-take n.buffer n.len h i; len = h.whole i } };
}

impl Name {
    /// The most bytes that a name has.
    pub const LONGEST: usize = 64;

    /// The name that the bytes are, or None exactly where they are none.
    pub(crate) fn read(bytes: &[u8]) -> Option<Name>
        ensures { SomeIff result (IsName bytes.now) bytes.now }
    {
        if !is_name(bytes) {
            return None;
        }
        Some(Name {
            buffer: buffer_of(bytes),
            len: bytes.len(),
        })
    }

    /// The name's bytes.
    pub(crate) fn bytes(&self) -> &[u8]
        ensures value { result.now ≡ self.now }
        ensures is_name { IsName result.now }
    {
        &self.buffer[..self.len]
    }

    /// The name as text: its bytes are all ASCII.
    pub(crate) fn as_str(&self) -> &str
        ensures { result.now ≡ self.now }
    {
        std::str::from_utf8(self.bytes()).unwrap()
    }

    /// Whether the name ends with `#ephemeral`.
    pub(crate) fn ephemeral(&self) -> bool
        ensures { IsTrue result ↔ IsEphemeral self.now }
    {
        self.bytes().ends_with(EPHEMERAL_SUFFIX)
    }
}

/// The ending of a name whose topic or channel is never written to disk.
const EPHEMERAL_SUFFIX: &[u8] = b"#ephemeral";

// The bytes with zeros behind them.
fn buffer_of(bytes: &[u8]) -> [u8; Name::LONGEST]
    requires { length bytes.now ≤ 64 }
    ensures { result ≡ buffer_of bytes.now }
{
    let mut buffer = [0; Name::LONGEST];
    buffer[..bytes.len()].copy_from_slice(bytes);
    buffer
}

// The grammar as a test.
fn is_name(bytes: &[u8]) -> bool
    ensures { IsTrue result ↔ IsName bytes.now }
{
    let stem = stem(bytes);
    bytes.len() <= Name::LONGEST && !stem.is_empty() && stem.iter().all(|byte| is_name_byte(*byte))
}

// The bytes before the ephemeral suffix, or all of them where there is none.
fn stem(bytes: &[u8]) -> &[u8]
    ensures { result.now ≡ stem bytes.now }
{
    match bytes.strip_suffix(EPHEMERAL_SUFFIX) {
        Some(stem) => stem,
        None => bytes,
    }
}

// One of `.`, `_`, `-`, a digit or an ASCII letter.
fn is_name_byte(byte: u8) -> bool
    ensures { result ≡ is_name_byte byte }
{
    matches!(byte, b'.' | b'_' | b'-' | b'0'..=b'9' | b'A'..=b'Z' | b'a'..=b'z')
}

impl PartialEq for Name {
    ghost eq = { pointwise nat_eq };

    ghost laws = { partial_equiv_from_equiv nat_list_eq_equiv };

    fn eq(&self, other: &Name) -> bool {
        self.bytes() == other.bytes()
    }
}

impl Eq for Name {
    ghost laws = { nat_list_eq_equiv };
}

impl PartialOrd for Name {
    ghost partial_cmp = { λ a b. Some (slice_cmp nat_cmp a b) };

    ghost laws = { texts_po };

    fn partial_cmp(&self, other: &Name) -> Option<Ordering> {
        Some(self.cmp(other))
    }
}

impl Ord for Name {
    ghost cmp = { slice_cmp nat_cmp };

    ghost total = { nat_list_cmp_total };

    ghost matches_partial_cmp = { λ a b. refl };

    ghost matches_eq = { texts_ties };

    fn cmp(&self, other: &Name) -> Ordering {
        self.bytes().cmp(other.bytes())
    }
}

impl Hash for Name {
    ghost hash_input = { fed.slice fed.u8 };

    ghost respects_eq = { Prim.search (hashing, rules) };

    fn hash<H: Hasher>(&self, state: &mut H) {
        self.bytes().hash(state);
    }
}
