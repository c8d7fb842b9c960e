use crate::check;
use nsq_outside::Clock;
use nsq_system::SysClock;
use std::cell::Cell;
use std::io;
use std::io::ErrorKind;
use std::process::Abort;
use std::rt::Clock as SystemClock;
use std::time::Duration;

/// The start of 2020, in nanoseconds.
const START_OF_2020: u64 = 1_577_836_800_000_000_000;

/// The system's time: seconds and nanoseconds since 1970, or none.
type Time = Option<(u64, u32)>;

/// A system that gives these times in order, and none behind the last.
#[derive(Drop)]
struct Times {
    times: &'static [Time],
    at: Cell<usize>,
}

impl SystemClock for Times {
    fn monotonic(&self) -> io::Result<Duration> {
        Err(ErrorKind::Unsupported.into())
    }

    fn since_1970(&self) -> io::Result<Duration> {
        let at = self.at.get();
        self.at.set(at.saturating_add(1));
        match self.times.get(at) {
            Some(Some((seconds, nanos))) if *nanos < 1_000_000_000 => {
                Ok(Duration::new(*seconds, *nanos))
            }
            _ => Err(ErrorKind::Unsupported.into()),
        }
    }
}

struct Row {
    name: &'static str,
    times: &'static [Time],
    readings: &'static [u64],
}

static ROWS: [Row; 4] = [
    Row {
        name: "nanoseconds",
        times: &[Some((1, 5)), Some((1_577_836_800, 123_456_789))],
        readings: &[1_000_000_005, 1_577_836_800_123_456_789],
    },
    Row {
        name: "where the system gives no time the last reading stays, at first 0",
        times: &[None, Some((2, 0)), None, Some((3, 0))],
        readings: &[0, 2_000_000_000, 2_000_000_000, 3_000_000_000],
    },
    Row {
        name: "a clock that goes back",
        times: &[Some((9, 0)), Some((4, 0)), None],
        readings: &[9_000_000_000, 4_000_000_000, 4_000_000_000],
    },
    Row {
        name: "a time beyond the end of the type",
        times: &[
            Some((18_446_744_073, 709_551_614)),
            Some((18_446_744_074, 0)),
        ],
        readings: &[18_446_744_073_709_551_614, 18_446_744_073_709_551_615],
    },
];

fn holds(row: &Row) -> bool {
    let mut clock = SysClock::new(Times {
        times: row.times,
        at: Cell::new(0),
    });
    let mut all = true;
    for reading in row.readings {
        all = clock.now() == *reading && all;
    }
    all
}

/// Whether the system's own clock gives times of today.
fn is_today(own: HostRuntime) -> bool {
    let mut clock = SysClock::new(own);
    clock.now() > START_OF_2020 && clock.now() > START_OF_2020
}

#[test]
fn rows(rt: HostRuntime) {
    for row in &ROWS {
        check(&rt, holds(row), row.name);
    }
    let own = rt.clone().expect(&rt, "memory");
    check(&rt, is_today(own), "the system's own clock");
}
