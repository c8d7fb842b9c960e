ghost use Rattle.std.specs.Prelude.{◌≡◌, ℕ, Bool, IsTrue, List};

/// A value with a list that passes append to, as a turnstile sees it.
pub trait Stands {
    /// What stands in the list.
    type Entry;

    /// What is kept of a value from the moment at which its turnstile was made: plain data, of which no value is made.
    type Picture;

    /// Whether values of this type tell their list.
    ghost tells: { Bool };

    /// The list, where it is told.
    ghost entries: { Self → List Self.Entry };

    /// The number that an entry names.
    ghost number: { Self.Entry → ℕ };

    /// Whether an entry is common: it names 0, and any pass may append it.
    ghost is_common: { Self.Entry → Bool };

    /// What the value shows.
    ghost picture: { Self → Self.Picture };

    /// Whether a value descends from a picture. The turnstile asks no more of it than that callers show it.
    ghost descends: { Self.Picture → Self → Type 0 };

    /// A common entry names 0.
    ghost common_is_0: { (e : Self.Entry) → IsTrue (is_common e) → number e ≡ 0 };
}
