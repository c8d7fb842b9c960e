//! All tables together.

use crate::texts::check;
use crate::words::held::holds;
use crate::words::{drills, durations, numbers, others, texts};
use std::alloc::Global;
use std::process::Abort;

// Rows of drills and of numbers.
static NUMBERS: [&'static str; 5] = [
    drills::RIGHT,
    drills::WRONG,
    numbers::SAID,
    numbers::BEYOND,
    numbers::NO_NUMBERS,
];

// Rows of durations.
static DURATIONS: [&'static str; 4] = [
    durations::SAID,
    durations::PAIRS,
    durations::BEYOND,
    durations::NO_DURATIONS,
];

// Rows of texts, and of all other words.
static OTHERS: [&'static str; 6] = [
    texts::SAID,
    texts::WRONG,
    others::RIGHT,
    others::REPEATED,
    others::FLAG,
    others::WRONG,
];

fn number_rows() -> &'static [&'static str] {
    &NUMBERS
}

fn duration_rows() -> &'static [&'static str] {
    &DURATIONS
}

fn other_rows() -> &'static [&'static str] {
    &OTHERS
}

// Ends the run where a row of these tables doesn't hold.
fn check_all(rt: &impl Abort, alloc: Global, tables: &[&'static str]) {
    for table in tables {
        for row in table.lines() {
            check(rt, holds(rt, alloc, row), row);
        }
    }
}

#[test]
fn rows(rt: HostRuntime) {
    check_all(&rt, rt.alloc(), number_rows());
    check_all(&rt, rt.alloc(), duration_rows());
    check_all(&rt, rt.alloc(), other_rows());
}
