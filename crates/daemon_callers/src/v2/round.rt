ghost use Rattle.std.specs.Prelude.{◌≡◌, ◌≤◌, ◌++◌, IsTrue};
ghost use Rattle.v2_frame.specs.Reading as reading;
ghost use Rattle.v2_frame.specs.declared.fault.Limits.{Limits};
ghost use Rattle.broker_history.specs.Entries.{own};
ghost use Rattle.broker_history.specs.Talk.{Sending, Reading, bytes_of};
ghost use Rattle.broker_history.specs.Calls.{AreAllowed, IsHere};
ghost use Rattle.daemon_callers.specs.Outputs.{HasOutCause, Warns};
ghost use Rattle.daemon_callers.specs.Sessions.{Told, InTalk, Goes, HasRoundCause};

use crate::v2::buffers::Buffers;
use crate::v2::commands::commands;
use crate::v2::output::{Delivered, deliver, give_up};
use broker_history::{Call, Desk, Ended};
use nsq_outside::{Conn, Read, get};
use std::alloc::Global;
use std::sync::Wait;
use v2_frame::Reader;

/// The most that is sent in a round.
const MOST_SENT: u32 = 64;

/// Makes one round: sends what is to be sent, reads a piece, and does the commands that it completes. Unless the next round
/// is to begin, it says how the connection ends.
pub(crate) fn round<R: Wait, K: Conn, D: Desk>(
    rt: &R,
    alloc: Global,
    number: u64,
    conn: &mut K,
    desk: &mut D,
    reader: &mut Reader,
    buffers: &mut Buffers,
) -> Option<Ended>
    requires number { number ≡ D.number desk.old }
    requires here { IsTrue D.tells → IsHere (own number (D.seen desk.old)) }
    requires limits { AreAllowed reader.old.limits }
    ensures talk { (limits : Limits) → Told K.tells_pieces K.tells_written D.tells → InTalk limits (K.pieces conn.old) (own number (D.seen desk.old)) (K.written conn.old) reader.old (Sending 0)
        → Goes limits (D.seen desk.new) (K.pieces conn.new) (own number (D.seen desk.new)) (K.written conn.new) reader.new (Sending 0) result }
    ensures here { IsTrue D.tells → IsHere (own number (D.seen desk.new)) }
    ensures limits { reader.new.limits ≡ reader.old.limits }
    ensures warned { IsTrue K.tells_written → Warns result (K.written conn.new) (K.write_faults conn.old) (K.write_faults conn.new) }
    ensures cause { HasRoundCause result (K.ended conn.new) (K.read_faults conn.old) (K.read_faults conn.new) (K.write_faults conn.old) (K.write_faults conn.new) }
    ensures stream { IsTrue K.tells_pieces → bytes_of (K.pieces conn.new) ++ K.left conn.new ≡ bytes_of (K.pieces conn.old) ++ K.left conn.old }
    ensures read_faults { K.read_faults conn.old ≤ K.read_faults conn.new }
    ensures write_faults { K.write_faults conn.old ≤ K.write_faults conn.new }
    ensures number { D.number desk.new ≡ D.number desk.old }
    ensures wanted { D.wanted desk.new ≡ D.wanted desk.old }
    ensures leads { D.leads desk.old desk.new }
{
    match pushes(rt, alloc, number, conn, desk, &mut buffers.out) {
        Some(ended) => return Some(ended),
        None => {}
    }
    match get(rt, conn, &mut buffers.piece) {
        Read::Got(count) => {
            if reader.feed(&buffers.piece[..count]).is_err() {
                return Some(give_up(rt, conn));
            }
            commands(rt, alloc, number, conn, desk, reader, &mut buffers.out)
        }
        Read::Nothing => None,
        Read::End => Some(Ended::EndOfInput),
        Read::Failed => Some(Ended::ReadFault),
    }
}

/// Sends what is to be sent, at most 64 times. Unless the connection is to read then, it says how it ends.
fn pushes<R: Wait, K: Conn, D: Desk>(
    rt: &R,
    alloc: Global,
    number: u64,
    conn: &mut K,
    desk: &mut D,
    out: &mut Vec<u8>,
) -> Option<Ended>
    requires number { number ≡ D.number desk.old }
    requires here { IsTrue D.tells → IsHere (own number (D.seen desk.old)) }
    ensures talk { (limits : Limits) (reader : reading.Reading) → Told K.tells_pieces K.tells_written D.tells → InTalk limits (K.pieces conn.old) (own number (D.seen desk.old)) (K.written conn.old) reader (Sending 0)
        → Goes limits (D.seen desk.new) (K.pieces conn.new) (own number (D.seen desk.new)) (K.written conn.new) reader Reading result }
    ensures here { IsTrue D.tells → IsHere (own number (D.seen desk.new)) }
    ensures warned { IsTrue K.tells_written → Warns result (K.written conn.new) (K.write_faults conn.old) (K.write_faults conn.new) }
    ensures cause { HasOutCause result (K.write_faults conn.old) (K.write_faults conn.new) }
    ensures read_faults { K.read_faults conn.old ≤ K.read_faults conn.new }
    ensures write_faults { K.write_faults conn.old ≤ K.write_faults conn.new }
    ensures pieces { K.pieces conn.new ≡ K.pieces conn.old }
    ensures left { K.left conn.new ≡ K.left conn.old }
    ensures number { D.number desk.new ≡ D.number desk.old }
    ensures wanted { D.wanted desk.new ≡ D.wanted desk.old }
    ensures leads { D.leads desk.old desk.new }
{
    let mut sent = 0;
    'pushes: while sent < MOST_SENT {
        let turned = desk.turn(rt, alloc, number, Call::Next);
        match deliver(rt, alloc, conn, turned, out) {
            Delivered::More => sent += 1,
            Delivered::Rest => return None,
            Delivered::Over(ended) => return Some(ended),
        }
    }
    None
}
