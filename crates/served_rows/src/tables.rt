//! All tables: texts of rows, with an empty line between two of them.

mod calls;
mod credit;
mod endings;
mod faults;
mod moments;
mod publishes;
mod refusals;
mod states;
mod statistics;
mod stops;
mod storage;

/// Those with clients of V2 alone.
pub fn client_rows() -> [&'static str; 4] {
    [credit::ROWS, moments::ROWS, states::ROWS, storage::ROWS]
}

/// Those of what callers of HTTP ask for, and how they end.
pub fn request_rows() -> [&'static str; 4] {
    [calls::ROWS, publishes::ROWS, refusals::ROWS, endings::ROWS]
}

/// Those of callers of HTTP beside what else a floor does.
pub fn floor_rows() -> [&'static str; 3] {
    [statistics::ROWS, faults::ROWS, stops::ROWS]
}
