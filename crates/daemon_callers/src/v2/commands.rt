ghost use Rattle.std.specs.Prelude.{◌≡◌, ◌≤◌, IsTrue};
ghost use Rattle.v2_frame.specs.declared.fault.Limits.{Limits};
ghost use Rattle.broker_history.specs.Entries.{own};
ghost use Rattle.broker_history.specs.Talk.{Sending, Doing};
ghost use Rattle.broker_history.specs.Calls.{AreAllowed, IsHere};
ghost use Rattle.daemon_callers.specs.Outputs.{HasOutCause, Warns};
ghost use Rattle.daemon_callers.specs.Sessions.{Told, InTalk, Goes};

use crate::v2::output::{answer, give_up};
use broker_history::{Call, Desk, Ended};
use nsq_outside::Conn;
use std::alloc::Global;
use std::sync::Wait;
use v2_frame::{Got, Reader};

/// Does each command that is whole, and writes its reply before the next. Unless all are done and the connection goes on, it
/// says how it ends.
pub(crate) fn commands<R: Wait, K: Conn, D: Desk>(
    rt: &R,
    alloc: Global,
    number: u64,
    conn: &mut K,
    desk: &mut D,
    reader: &mut Reader,
    out: &mut Vec<u8>,
) -> Option<Ended>
    requires number { number ≡ D.number desk.old }
    requires here { IsTrue D.tells → IsHere (own number (D.seen desk.old)) }
    requires limits { AreAllowed reader.old.limits }
    ensures talk { (limits : Limits) → Told K.tells_pieces K.tells_written D.tells → InTalk limits (K.pieces conn.old) (own number (D.seen desk.old)) (K.written conn.old) reader.old Doing
        → Goes limits (D.seen desk.new) (K.pieces conn.new) (own number (D.seen desk.new)) (K.written conn.new) reader.new (Sending 0) result }
    ensures here { IsTrue D.tells → IsHere (own number (D.seen desk.new)) }
    ensures limits { reader.new.limits ≡ reader.old.limits }
    ensures warned { IsTrue K.tells_written → Warns result (K.written conn.new) (K.write_faults conn.old) (K.write_faults conn.new) }
    ensures cause { HasOutCause result (K.write_faults conn.old) (K.write_faults conn.new) }
    ensures write_faults { K.write_faults conn.old ≤ K.write_faults conn.new }
    ensures read_faults { K.read_faults conn.old ≤ K.read_faults conn.new }
    ensures pieces { K.pieces conn.new ≡ K.pieces conn.old }
    ensures left { K.left conn.new ≡ K.left conn.old }
    ensures number { D.number desk.new ≡ D.number desk.old }
    ensures wanted { D.wanted desk.new ≡ D.wanted desk.old }
    ensures leads { D.leads desk.old desk.new }
{
    'commands: loop {
        match reader.next() {
            Got::Whole(command) => {
                let turned = desk.turn(rt, alloc, number, Call::Command(command));
                if let Some(ended) = answer(rt, alloc, conn, turned, out) {
                    return Some(ended);
                }
            }
            Got::More => return None,
            Got::Fault(fault) => {
                let turned = desk.turn(rt, alloc, number, Call::Bad(fault));
                let ended = answer(rt, alloc, conn, turned, out);
                return Some(ended.unwrap_or(Ended::Closed));
            }
            Got::Memory => return Some(give_up(rt, conn)),
        }
    }
}
