use crate::check;
use nsq_fakes::MemClock;
use nsq_outside::Clock;
use std::alloc::Global;
use std::process::Abort;

struct Row {
    name: &'static str,
    readings: &'static [u64],
    /// What its first calls answer.
    given: &'static [u64],
}

static ROWS: [Row; 2] = [
    Row {
        name: "the last reading repeats",
        readings: &[5, 9],
        given: &[5, 9, 9],
    },
    Row {
        name: "a clock with no reading gives 0",
        readings: &[],
        given: &[0],
    },
];

/// Whether a clock gives what its row says.
fn holds(rt: &impl Abort, alloc: Global, row: &Row) -> bool {
    let readings = row.readings.to_vec(alloc).expect(rt, "memory");
    let mut clock = MemClock::new(alloc, readings).expect(rt, "memory");
    let mut all = true;
    for reading in row.given {
        all = clock.now() == *reading && all;
    }
    drop(clock);
    all
}

#[test]
fn rows(rt: HostRuntime) {
    for row in &ROWS {
        check(&rt, holds(&rt, rt.alloc(), row), row.name);
    }
}
