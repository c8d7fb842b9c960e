ghost use Rattle.std.specs.Prelude.{◌≡◌, ◌<◌, ◌≤◌, ◌++◌, [], Some, IsTrue};
ghost use Rattle.v2_frame.specs.Reading.{fresh};
ghost use Rattle.v2_frame.specs.declared.fault.Limits.{Limits};
ghost use Rattle.broker_history.specs.Entries.{has_stop, own};
ghost use Rattle.broker_history.specs.Talk.{IsTalkIn, Sending, bytes_of};
ghost use Rattle.broker_history.specs.Calls.{AreAllowed, IsHere};
ghost use Rattle.daemon_callers.specs.Outputs.{Warns};
ghost use Rattle.daemon_callers.specs.Sessions.{Told, InTalk, IsOver, HasCause, EndsAfter, IsWarned, rises};

use crate::letting::let_go;
use crate::v2::buffers::{Buffers, new_buffers};
use crate::v2::output::give_up;
use crate::v2::round::round;
use broker_history::{Call, Desk, Ended, Turned};
use nsq_outside::Conn;
use std::alloc::Global;
use std::sync::Wait;
use v2_frame::{Limits, Reader};

/// Serves one V2 connection (nsq.io, TCP Protocol Spec) from its first byte to its end, and says how it ended.
///
/// The desk notes that the connection begins. Then it makes rounds:
///
/// - Up to 64 times the desk is asked what is to be sent, and that is written before it is asked again. There is nothing where
///   it answers Idle.
/// - One read takes a piece of at most 16,384 bytes, if one comes.
/// - Each command that the piece completes is carried out at the desk, and its reply written whole before the next is looked
///   at. A fault in the bytes is answered.
///
/// The connection is closed after a reply that closes, a refused fault, too long a silence, the deletion of its channel, and a
/// stop of the daemon. At the end the desk notes that the connection is gone. That is missing only where memory was wanting
/// for it; a connection that would have been closed ends by want of memory then.
///
/// Want of memory, wherever it comes but for the going's, is answered by the frame `E_MEMORY out of memory`: it is the last that
/// is written, whole unless a write fails.
///
/// The number is the desk's, which noted nothing of its own before; the limits are such as options allow. Nothing is allocated
/// for a command or a message but what they and their frames carry.
pub fn serve_v2<R: Wait, K: Conn, D: Desk>(
    rt: &R,
    alloc: Global,
    number: u64,
    conn: &mut K,
    desk: &mut D,
    limits: Limits,
) -> Ended
    requires number { (0 < number) × (number ≡ D.number desk.old) }
    requires new { IsTrue D.tells → own number (D.seen desk.old) ≡ [] }
    requires limits { AreAllowed limits }
    ensures talk { IsTrue K.tells_pieces → IsTrue K.tells_written → IsTrue D.tells → K.pieces conn.old ≡ [] → K.written conn.old ≡ []
        → IsTalkIn limits number (D.seen desk.new) (rises (D.wanted desk.old) (D.wanted desk.new)) (K.pieces conn.new) (K.written conn.new) result }
    ensures warned { IsTrue K.tells_written → IsWarned result (K.written conn.new) (K.write_faults conn.old) (K.write_faults conn.new) (rises (D.wanted desk.old) (D.wanted desk.new)) }
    ensures cause { HasCause result (K.ended conn.new) (K.read_faults conn.old) (K.read_faults conn.new) (K.write_faults conn.old) (K.write_faults conn.new) }
    ensures stream { IsTrue K.tells_pieces → bytes_of (K.pieces conn.new) ++ K.left conn.new ≡ bytes_of (K.pieces conn.old) ++ K.left conn.old }
    ensures read_faults { K.read_faults conn.old ≤ K.read_faults conn.new }
    ensures write_faults { K.write_faults conn.old ≤ K.write_faults conn.new }
    ensures number { D.number desk.new ≡ D.number desk.old }
    ensures leads { D.leads desk.old desk.new }
{
    let Ok(mut reader) = Reader::new(alloc, limits) else {
        return give_up(rt, conn);
    };
    let Ok(mut buffers) = new_buffers(alloc) else {
        return give_up(rt, conn);
    };
    conversation(rt, alloc, number, conn, desk, &mut reader, &mut buffers)
}

/// Serves the connection from its Begin to its Gone.
fn conversation<R: Wait, K: Conn, D: Desk>(
    rt: &R,
    alloc: Global,
    number: u64,
    conn: &mut K,
    desk: &mut D,
    reader: &mut Reader,
    buffers: &mut Buffers,
) -> Ended
    requires number { (0 < number) × (number ≡ D.number desk.old) }
    requires new { IsTrue D.tells → own number (D.seen desk.old) ≡ [] }
    requires limits { AreAllowed reader.old.limits }
    ensures talk { (limits : Limits) → reader.old ≡ fresh limits → IsTrue K.tells_pieces → IsTrue K.tells_written → IsTrue D.tells → K.pieces conn.old ≡ [] → K.written conn.old ≡ []
        → IsTalkIn limits number (D.seen desk.new) (rises (D.wanted desk.old) (D.wanted desk.new)) (K.pieces conn.new) (K.written conn.new) result }
    ensures warned { IsTrue K.tells_written → IsWarned result (K.written conn.new) (K.write_faults conn.old) (K.write_faults conn.new) (rises (D.wanted desk.old) (D.wanted desk.new)) }
    ensures cause { HasCause result (K.ended conn.new) (K.read_faults conn.old) (K.read_faults conn.new) (K.write_faults conn.old) (K.write_faults conn.new) }
    ensures stream { IsTrue K.tells_pieces → bytes_of (K.pieces conn.new) ++ K.left conn.new ≡ bytes_of (K.pieces conn.old) ++ K.left conn.old }
    ensures read_faults { K.read_faults conn.old ≤ K.read_faults conn.new }
    ensures write_faults { K.write_faults conn.old ≤ K.write_faults conn.new }
    ensures number { D.number desk.new ≡ D.number desk.old }
    ensures leads { D.leads desk.old desk.new }
{
    let turned = desk.turn(rt, alloc, number, Call::Begin);
    match turned {
        Turned::Begun => {}
        Turned::Memory => return give_up(rt, conn),
        other => {
            let_go(other);
            return Ended::Closed;
        }
    }
    let ended = rounds(rt, alloc, number, conn, desk, reader, buffers);
    let gone = desk.turn(rt, alloc, number, Call::Gone);
    let last = ended_after(ended, &gone);
    let_go(gone);
    last
}

/// Makes rounds to the end.
fn rounds<R: Wait, K: Conn, D: Desk>(
    rt: &R,
    alloc: Global,
    number: u64,
    conn: &mut K,
    desk: &mut D,
    reader: &mut Reader,
    buffers: &mut Buffers,
) -> Ended
    requires number { number ≡ D.number desk.old }
    requires here { IsTrue D.tells → IsHere (own number (D.seen desk.old)) }
    requires limits { AreAllowed reader.old.limits }
    ensures talk { (limits : Limits) → Told K.tells_pieces K.tells_written D.tells → InTalk limits (K.pieces conn.old) (own number (D.seen desk.old)) (K.written conn.old) reader.old (Sending 0)
        → IsOver limits (has_stop (D.seen desk.new)) (K.pieces conn.new) (own number (D.seen desk.new)) (K.written conn.new) result }
    ensures warned { IsTrue K.tells_written → Warns (Some result) (K.written conn.new) (K.write_faults conn.old) (K.write_faults conn.new) }
    ensures here { IsTrue D.tells → IsHere (own number (D.seen desk.new)) }
    ensures cause { HasCause result (K.ended conn.new) (K.read_faults conn.old) (K.read_faults conn.new) (K.write_faults conn.old) (K.write_faults conn.new) }
    ensures stream { IsTrue K.tells_pieces → bytes_of (K.pieces conn.new) ++ K.left conn.new ≡ bytes_of (K.pieces conn.old) ++ K.left conn.old }
    ensures read_faults { K.read_faults conn.old ≤ K.read_faults conn.new }
    ensures write_faults { K.write_faults conn.old ≤ K.write_faults conn.new }
    ensures number { D.number desk.new ≡ D.number desk.old }
    ensures wanted { D.wanted desk.new ≡ D.wanted desk.old }
    ensures leads { D.leads desk.old desk.new }
{
    'rounds: for _ in rt.forever() {
        match round(rt, alloc, number, conn, desk, reader, buffers) {
            Some(ended) => return ended,
            None => {}
        }
    }
    Ended::Closed
}

/// How a connection ended whose going was answered so: it was closed only where its going was noted.
fn ended_after(ended: Ended, gone: &Turned) -> Ended
    ensures { EndsAfter ended gone.now result }
{
    match (ended, gone) {
        (Ended::Closed, Turned::Memory) => Ended::Memory,
        _ => ended,
    }
}
