ghost use Rattle.std.specs.Prelude.{◌≡◌, ◌-◌, ◌^◌, ◌≤◌, true};

/// How often calls on an object failed: at most 2^64 - 1, where the count stops.
#[derive(Drop)]
pub struct Faults {
    pub count: u64,
    pub ghost fits: { count ≤ 2 ^ 64 - 1 },
}

impl Faults {
    ghost use Rattle.nsq_outside.specs.Causes.{Rose, CountsFault};

    /// No call failed yet.
    pub fn none() -> Faults
        ensures { result.count ≡ 0 }
    {
        Faults { count: 0 }
    }

    /// Counts one more.
    pub fn add(&mut self)
        ensures faults { self.old.count ≤ self.new.count }
        ensures rose { Rose self.old.count self.new.count }
        ensures counted { CountsFault self.old.count self.new.count true }
    {
        self.count = self.count.saturating_add(1);
    }
}
