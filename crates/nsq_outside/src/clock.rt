ghost use Rattle.std.specs.Prelude.{◌≡◌, ◌+◌, ℕ, Bool, IsTrue};

/// A clock.
pub trait Clock {
    /// Whether values of this type tell their readings.
    ghost tells_readings: { Bool };

    /// The readings to come: the next one is that of 0.
    ghost coming: { Self → ℕ → ℕ };

    /// A reading, in nanoseconds. It can't fail, and it may be below an earlier one.
    fn now(&mut self) -> u64
        ensures reading { IsTrue tells_readings → result ≡ coming self.old 0 }
        ensures coming { IsTrue tells_readings → ((n : ℕ) → coming self.new n ≡ coming self.old (n + 1)) };
}
