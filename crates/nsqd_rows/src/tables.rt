//! All tables: texts of rows, with an empty line between two of them.

mod channels;
mod drills;
mod faults;
mod hosts;
mod http;
mod moments;
mod openings;
mod publishes;
mod restarts;
mod words;

/// Those of the command lines of drills.
pub fn drill_rows() -> &'static str {
    drills::ROWS
}

/// Those of clients of TCP, and of a run and the next one.
pub fn client_rows() -> [&'static str; 4] {
    [
        publishes::ROWS,
        channels::ROWS,
        moments::ROWS,
        restarts::ROWS,
    ]
}

/// Those of words, of openings, and of a machine that fails.
pub fn host_rows() -> [&'static str; 4] {
    [words::ROWS, openings::ROWS, faults::ROWS, hosts::ROWS]
}

/// Those of callers of HTTP.
pub fn http_rows() -> [&'static str; 4] {
    [
        http::publishes::ROWS,
        http::pauses::ROWS,
        http::stops::ROWS,
        http::faults::ROWS,
    ]
}
