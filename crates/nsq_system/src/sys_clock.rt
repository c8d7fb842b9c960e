ghost use Rattle.std.specs.Prelude.{◌≡◌, false};

use crate::answers::reading;
use nsq_outside::Clock;
use std::rt::Clock as SystemClock;

/// The system's clock, in nanoseconds since 1970 and at most 2^64 - 1. It tells no readings.
///
/// Where the system gives no time it answers its last reading, which is 0 at first.
#[derive(Drop)]
pub struct SysClock<R: SystemClock> {
    rt: R,
    last: u64,
}

impl<R: SystemClock> SysClock<R> {
    ghost use Rattle.nsq_system.specs.SysClocks.{last_of};

    /// A clock that has given no reading.
    pub fn new(rt: R) -> SysClock<R>
        ensures { last_of result ≡ 0 }
    {
        SysClock { rt, last: 0 }
    }
}

impl<R: SystemClock> Clock for SysClock<R> {
    ghost use Rattle.nsq_system.specs.SysClocks.{last_of};

    ghost tells_readings = { false };

    ghost coming = { λ _ _. 0 };

    fn now(&mut self) -> u64
        ensures { result ≡ last_of self.new }
    {
        self.last = reading(self.last, self.rt.since_1970());
        self.last
    }
}
