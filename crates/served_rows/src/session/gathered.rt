//! Connections whose writes are gathered until the next read, as those over TCP are: what leaves together.

use super::lines::{ANSWERS, CALLS, SENT, pieces_in};
use super::served::{check, has_letters, let_floor_go};
use crate::conn::{Fails, conn_of};
use crate::scripts::{Trace, floor_of, serve_by};
use crate::text::{column, spread};
use nsq_fakes::MemConn;
use nsq_outside::{Conn, Faults, Read, Sink, Source, Write, get};
use nsq_system::Outbox;
use std::alloc::Global;
use std::io;
use std::process::Abort;
use std::sync::Wait;

/// A writer that takes all bytes, and keeps the letter `s` for each send.
#[derive(Drop)]
struct NotedWriter<'a> {
    trace: &'a Trace,
}

impl io::Write for NotedWriter<'_> {
    fn write(&mut self, bytes: &[u8]) -> io::Result<usize> {
        self.trace.note(b's');
        Ok(bytes.len())
    }

    fn flush(&mut self) -> io::Result<()> {
        Ok(())
    }
}

/// A connection in memory that keeps a letter for each call, `r` for a read and `w` for a write, and gathers what is written as one
/// over TCP does.
#[derive(Drop)]
struct GatheringConn<'a> {
    inner: MemConn,
    outbox: Outbox<NotedWriter<'a>>,
    failed: Faults,
    trace: &'a Trace,
}

impl Source for GatheringConn<'_> {
    ghost use Rattle.std.specs.Prelude.{false, [], ◌≤◌};
    ghost use Rattle.nsq_fakes.specs.MemConns.{has_ended, read_faults_of};

    ghost tells_pieces = { false };

    ghost pieces = { λ _. [] };

    ghost left = { λ _. [] };

    ghost ended = { λ c. has_ended c.inner };

    ghost read_faults = { λ c. read_faults_of c.inner };

    ghost may_read = { λ a b. a.failed.count ≤ b.failed.count };

    fn read<R: Wait>(&mut self, rt: &R, into: &mut [u8]) -> Read {
        let _ = self.outbox.flush();
        self.trace.note(b'r');
        get(rt, &mut self.inner, into)
    }

    ghost read_faults_fit = { λ c. c.inner.reads.faults.fits };
}

impl Sink for GatheringConn<'_> {
    ghost use Rattle.std.specs.Prelude.{false, [], ◌≡◌};

    ghost tells_written = { false };

    ghost written = { λ _. [] };

    ghost write_faults = { λ c. c.failed.count };

    ghost may_write = { λ a b. b.inner ≡ a.inner };

    fn write<R: Wait>(&mut self, _rt: &R, from: &[u8]) -> Write {
        self.trace.note(b'w');
        match self.outbox.gather(from) {
            Write::Took(count) => Write::Took(count),
            Write::Failed => {
                self.failed.add();
                Write::Failed
            }
        }
    }

    ghost write_faults_fit = { λ c. c.failed.fits };
}

impl Conn for GatheringConn<'_> {
    ghost use Rattle.std.specs.Prelude.{refl};
    ghost use Rattle.std.proofs.Common.{ap, sym};
    ghost use Rattle.std.proofs.Math.Nat.{le_of_eq};
    ghost use Rattle.nsq_fakes.specs.MemConns.{has_ended, read_faults_of};

    ghost read_keeps = { λ a b h. (refl, h) };

    ghost write_keeps = { λ a b h. (refl, refl, ap has_ended h, le_of_eq (sym (ap read_faults_of h))) };
}

static ROWS: &'static str = r#"
the pushes of a full round leave together|  V2NOP\n/|b+m*64+qig|b+nw*64+srcnrg
the pushes of each round leave before its read|//|b+m*130+ig|b+nw*64+sr+nw*64+sr+nw*2+nsrg
the replies to a piece leave together|  V2+PUB t\n\0\0\0\x01a*1000/|bi+o*1000+ig|bnr+cw*1000+nsrg
replies and the pushes behind them leave together|  V2SUB t c\nRDY 9\n/|bioqmmhig|bnrcwcnwnwnwnsrg
a batch of FINs sends nothing|  V2/FIN 0000010000000000\n*780/|bii+q*780+ig|bnrnr+c*780+nrg
what doesn't fit any more leaves first|  V2+CLS\n*1000/|bi+k*1000+ig|bnr+cw*910+cws+cw*89+nsrg
an error leaves at once, with what was gathered|  V2PUB t\n\0\0\0\x01aFIN 0000010000000000\nNOP\n/|biofqig|bnrcwcwscnrg
the frame for want of memory leaves at once|  V2NOP\n/|bmi-g|bnwnsrcwsg
"#;

// A connection that gives a row's pieces, and notes its calls in a trace.
fn gathering<'a>(rt: &impl Abort, alloc: Global, row: &str, trace: &'a Trace) -> GatheringConn<'a> {
    let pieces = pieces_in(rt, alloc, column(row, SENT));
    GatheringConn {
        inner: conn_of(rt, alloc, &pieces, Fails::Nothing),
        outbox: Outbox::new(alloc, NotedWriter { trace }).expect(rt, "memory"),
        failed: Faults::none(),
        trace,
    }
}

// Whether a connection's calls come in this order.
fn holds<R: Abort + Wait>(rt: &R, alloc: Global, row: &str) -> bool {
    let wanted = spread(rt, alloc, column(row, CALLS));
    let trace = Trace::new(alloc, wanted.len().saturating_add(16)).expect(rt, "memory");
    let script = spread(rt, alloc, column(row, ANSWERS));
    let mut conn = gathering(rt, alloc, row, &trace);
    let mut floor = floor_of(script, usize::MAX, &trace);
    let _ = serve_by(rt, alloc, &mut conn, &mut floor);
    let_go(conn);
    let_floor_go(floor);
    has_letters(rt, alloc, &trace, &wanted)
}

// Lets go of a connection.
fn let_go(_conn: GatheringConn<'_>) {}

#[test]
fn rows(rt: HostRuntime) {
    for row in ROWS.trim().split('\n') {
        check(&rt, holds(&rt, rt.alloc(), row), row);
    }
}
