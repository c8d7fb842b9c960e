ghost use Rattle.std.specs.Prelude.{◌≡◌, ◌-◌, ◌≤◌, length, true, ℕ, IfOk};
ghost use Rattle.nsq_fakes.specs.Readings.{reading_at};

use nsq_base::Memory;
use nsq_outside::Clock;
use std::alloc::Global;

/// A clock in memory: a list of readings, of which the last one repeats. An empty list gives 0.
#[derive(Drop)]
pub struct MemClock {
    readings: Vec<u64>,
    at: usize,
    ghost in_range: { at ≤ length readings.items - 1 },
}

impl MemClock {
    ghost use Rattle.nsq_fakes.specs.MemClocks.{coming_of};

    /// A clock that gives these readings, in nanoseconds.
    pub fn new(_alloc: Global, readings: Vec<u64>) -> Result<MemClock, Memory>
        ensures { IfOk result (λ clock. (n : ℕ) → coming_of clock n ≡ reading_at readings.items n) }
    {
        Ok(MemClock { readings, at: 0 })
    }
}

impl Clock for MemClock {
    ghost use Rattle.nsq_fakes.specs.MemClocks.{coming_of};

    ghost tells_readings = { true };

    ghost coming = { coming_of };

    fn now(&mut self) -> u64 {
        let reading = self.readings.get(self.at).copied().unwrap_or(0);
        if self.at + 1 < self.readings.len() {
            self.at += 1;
        }
        reading
    }
}
