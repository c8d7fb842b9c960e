//! Tables of data paths over several runs: each is opened, served in turns, saved and shut, and opened again.

mod damages;
mod faults;
mod held;
mod leftovers;
mod names;
mod pauses;
mod restarts;

static OF_NAMES: [&'static str; 3] = [names::ROWS, pauses::ROWS, damages::ROWS];

static OF_MESSAGES: [&'static str; 4] = [restarts::ROWS, leftovers::ROWS, held::ROWS, faults::ROWS];

pub fn of_names() -> &'static [&'static str] {
    &OF_NAMES
}

pub fn of_messages() -> &'static [&'static str] {
    &OF_MESSAGES
}
