use crate::http::requests::check_request;
use crate::http::{bodies, lengths, limits, lines, starts, targets};
use crate::text::rows_of;

#[test]
fn rows(rt: HostRuntime) {
    let tables = [
        starts::ROWS,
        lines::ROWS,
        targets::ROWS,
        lengths::ROWS,
        bodies::ROWS,
        limits::ROWS,
    ];
    for table in tables {
        for row in &rows_of(&rt, rt.alloc(), table, b'~') {
            check_request(&rt, rt.alloc(), row);
        }
    }
}
