//! Rows of a connection in memory.
//!
//! A row is a text: its name, calls with a `;` between them, each with what it answers, the pieces that were read, with a `|` between them,
//! what was written, and how many reads and writes failed. A call is a `read` into a buffer of 4 bytes, or `write BYTES`.

use super::{are, made_conn};
use crate::words::{cut, halves, is_number, is_read, is_write, part};
use crate::{check, same};
use nsq_fakes::MemConn;
use nsq_outside::{get, put};
use std::alloc::Global;
use std::process::Abort;
use std::sync::Wait;

/// A piece of 5 bytes, a mark, a piece of 0 bytes and one that nobody reads.
const PIECES: &str = "hello|nothing||lost";

static ROWS: &'static str = "
a long piece comes in two reads, around one that fails
        read = 4; read = failed; read = 1; read = nothing; read = end; read = end
        read hell|o written faults 1 0

what is written is kept, but for a write that fails
        write no = failed; write yes = 3
        read written yes faults 0 1
";

/// Whether a connection answers a call so.
fn answers<R: Wait>(rt: &R, conn: &mut MemConn, call: &str) -> bool {
    let (call, answer) = halves(call, " = ");
    let (what, bytes) = cut(call);
    match what {
        "read" => is_read(get(rt, conn, &mut [0u8; 4]), answer),
        "write" => { !bytes.is_empty() && is_write(put(rt, conn, bytes.as_bytes()), answer) }
        _ => false,
    }
}

/// Whether a connection answers all these calls so.
fn all_answer<R: Wait>(rt: &R, conn: &mut MemConn, calls: &str) -> bool {
    for call in calls.split(';') {
        if !answers(rt, conn, call.trim()) {
            return false;
        }
    }
    true
}

/// Whether a connection keeps what was read and written as its row says, and counts its faults.
fn keeps(rt: &impl Abort, conn: &MemConn, kept: &str) -> bool {
    let (_, kept) = part(rt, kept, "read");
    let (read, kept) = part(rt, kept, "written");
    let (written, faults) = part(rt, kept, "faults ");
    let (read_faults, write_faults) = cut(faults);
    are(conn.pieces_read(), read.trim())
        && same(conn.bytes_written(), written.trim().as_bytes())
        && is_number(conn.read_faults(), read_faults)
        && is_number(conn.write_faults(), write_faults)
}

fn holds<R: Abort + Wait>(rt: &R, alloc: Global, row: &str) -> bool {
    let (_, row) = part(rt, row, "\n");
    let (calls, kept) = part(rt, row, "\n");
    let mut conn = made_conn(rt, alloc, PIECES, "1", "0");
    let all = all_answer(rt, &mut conn, calls) && keeps(rt, &conn, kept);
    drop(conn);
    all
}

#[test]
fn rows(rt: HostRuntime) {
    for row in ROWS.trim().split("\n\n") {
        check(&rt, holds(&rt, rt.alloc(), row), row);
    }
}
