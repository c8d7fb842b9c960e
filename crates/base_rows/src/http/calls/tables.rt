use crate::http::calls::requests::check_call;
use crate::http::calls::{batches, delays, names, routes};
use crate::text::rows_of;

/// Requests to a daemon that serves no stop.
#[test]
fn rows(rt: HostRuntime) {
    let tables = [
        routes::PATHS,
        routes::STATISTICS,
        names::VERBS,
        names::TOPICS,
        names::CHANNELS,
        delays::MESSAGES,
        delays::DELAYS,
        batches::LINES,
        batches::BATCHES,
    ];
    for table in tables {
        for row in &rows_of(&rt, rt.alloc(), table, b'~') {
            check_call(&rt, rt.alloc(), false, row);
        }
    }
}

/// Requests to one that serves it.
#[test]
fn rows_where_a_stop_is_served(rt: HostRuntime) {
    for row in &rows_of(&rt, rt.alloc(), routes::STOPS, b'~') {
        check_call(&rt, rt.alloc(), true, row);
    }
}
