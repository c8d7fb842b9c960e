//! Tables of turns at one floor.

mod bytes;
mod copies;
mod deletions;
mod ephemeral;
mod faults;
mod identities;
mod kinds;
mod moments;
mod refusals;
mod statistics;
mod stops;
mod ticks;
mod turns;

static OF_CLIENTS: [&'static str; 5] = [
    turns::ROWS,
    statistics::ROWS,
    refusals::ROWS,
    bytes::ROWS,
    identities::ROWS,
];

static OF_TOPICS: [&'static str; 4] = [
    deletions::ROWS,
    ephemeral::ROWS,
    faults::ROWS,
    copies::ROWS,
];

static OF_MOMENTS: [&'static str; 4] = [ticks::ROWS, stops::ROWS, moments::ROWS, kinds::ROWS];

pub fn of_clients() -> &'static [&'static str] {
    &OF_CLIENTS
}

pub fn of_topics() -> &'static [&'static str] {
    &OF_TOPICS
}

pub fn of_moments() -> &'static [&'static str] {
    &OF_MOMENTS
}
