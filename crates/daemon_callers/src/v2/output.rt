ghost use Rattle.std.specs.Prelude.{◌≡◌, ◌^◌, ◌<◌, ◌≤◌, Some, false, IsTrue, length};
ghost use Rattle.nsq_outside.specs.Causes.{Rose};
ghost use Rattle.broker_history.specs.declared.ended.Ended.TheVariants.{Memory};
ghost use Rattle.broker_history.specs.Answers.{IsShortAnswer};
ghost use Rattle.daemon_callers.specs.Outputs.{memory_bytes, ending_of, WritesFirst, WritesAll, WritesFrame, WritesAnswer, Delivers, HasOutCause, Warns};

use crate::letting::let_go;
use broker_history::{Ended, Turned};
use nsq_outside::{Conn, Write, put};
use std::alloc::Global;
use std::sync::Wait;
use v2_frame::{Frame, write_frame};

/// The frame `E_MEMORY out of memory`, which is written where there is no memory to make one.
const MEMORY_FRAME: &[u8] = b"\0\0\0\x1a\0\0\0\x01E_MEMORY out of memory";

/// What comes of the answer to the question what is to be sent.
#[derive(Clone, Copy)]
pub(crate) enum Delivered {
    /// It was sent, and more may be.
    More,
    /// There is nothing to send.
    Rest,
    /// The connection ends so.
    Over(Ended),
}

/// Writes all the bytes, or as many of the first ones as are taken before a write fails. It says whether all were taken.
pub(crate) fn write_all<R: Wait, K: Conn>(rt: &R, conn: &mut K, bytes: &[u8]) -> bool
    ensures told { IsTrue K.tells_written → WritesAll bytes.now (K.written conn.old) (K.written conn.new) result }
    ensures cause { result ≡ false → Rose (K.write_faults conn.old) (K.write_faults conn.new) }
    ensures write_faults { K.write_faults conn.old ≤ K.write_faults conn.new }
    ensures read_faults { K.read_faults conn.old ≤ K.read_faults conn.new }
    ensures pieces { K.pieces conn.new ≡ K.pieces conn.old }
    ensures left { K.left conn.new ≡ K.left conn.old }
{
    let mut at = 0;
    'writes: while at < bytes.len() {
        match put(rt, conn, &bytes[at..]) {
            Write::Took(count) => at += count,
            Write::Failed => return false,
        }
    }
    true
}

/// Writes the frame for want of memory, which takes no memory, whole unless a write fails, and answers Memory.
pub(crate) fn give_up<R: Wait, K: Conn>(rt: &R, conn: &mut K) -> Ended
    ensures told { IsTrue K.tells_written → WritesFirst memory_bytes (K.written conn.old) (K.written conn.new) }
    ensures warned { IsTrue K.tells_written → Warns (Some result) (K.written conn.new) (K.write_faults conn.old) (K.write_faults conn.new) }
    ensures memory { result ≡ Memory }
    ensures write_faults { K.write_faults conn.old ≤ K.write_faults conn.new }
    ensures read_faults { K.read_faults conn.old ≤ K.read_faults conn.new }
    ensures pieces { K.pieces conn.new ≡ K.pieces conn.old }
    ensures left { K.left conn.new ≡ K.left conn.old }
{
    let _ = write_all(rt, conn, MEMORY_FRAME);
    Ended::Memory
}

/// Writes the frame whole, by way of a buffer that is used again and again. Otherwise it says how the connection ends: a
/// write failed, or memory was wanting, and what is taken of the frame for that was written in the place of this one.
fn send<R: Wait, K: Conn>(
    rt: &R,
    alloc: Global,
    conn: &mut K,
    frame: &Frame,
    out: &mut Vec<u8>,
) -> Option<Ended>
    requires short { length frame.now.body < 2 ^ 31 }
    ensures told { IsTrue K.tells_written → WritesFrame frame.now (K.written conn.old) (K.written conn.new) result }
    ensures warned { IsTrue K.tells_written → Warns result (K.written conn.new) (K.write_faults conn.old) (K.write_faults conn.new) }
    ensures cause { HasOutCause result (K.write_faults conn.old) (K.write_faults conn.new) }
    ensures write_faults { K.write_faults conn.old ≤ K.write_faults conn.new }
    ensures read_faults { K.read_faults conn.old ≤ K.read_faults conn.new }
    ensures pieces { K.pieces conn.new ≡ K.pieces conn.old }
    ensures left { K.left conn.new ≡ K.left conn.old }
{
    out.clear();
    if write_frame(alloc, frame, out).is_err() {
        return Some(give_up(rt, conn));
    }
    if write_all(rt, conn, out) {
        None
    } else {
        Some(Ended::WriteFault)
    }
}

/// Writes what the answer to a command or to a fault says to the client. Unless the connection goes on, it says how it ends.
pub(crate) fn answer<R: Wait, K: Conn>(
    rt: &R,
    alloc: Global,
    conn: &mut K,
    turned: Turned,
    out: &mut Vec<u8>,
) -> Option<Ended>
    requires short { IsShortAnswer turned }
    ensures told { IsTrue K.tells_written → WritesAnswer turned (K.written conn.old) (K.written conn.new) result }
    ensures warned { IsTrue K.tells_written → Warns result (K.written conn.new) (K.write_faults conn.old) (K.write_faults conn.new) }
    ensures cause { HasOutCause result (K.write_faults conn.old) (K.write_faults conn.new) }
    ensures write_faults { K.write_faults conn.old ≤ K.write_faults conn.new }
    ensures read_faults { K.read_faults conn.old ≤ K.read_faults conn.new }
    ensures pieces { K.pieces conn.new ≡ K.pieces conn.old }
    ensures left { K.left conn.new ≡ K.left conn.old }
{
    match turned {
        Turned::Quiet => None,
        Turned::Reply(frame, closing) => match send(rt, alloc, conn, &frame, out) {
            Some(ended) => Some(ended),
            None => if closing { Some(Ended::Closed) } else { None },
        },
        Turned::Memory => Some(give_up(rt, conn)),
        other => {
            let_go(other);
            Some(Ended::Closed)
        }
    }
}

/// Writes what is to be sent to the client, and says whether more may be sent.
pub(crate) fn deliver<R: Wait, K: Conn>(
    rt: &R,
    alloc: Global,
    conn: &mut K,
    turned: Turned,
    out: &mut Vec<u8>,
) -> Delivered
    requires short { IsShortAnswer turned }
    ensures told { IsTrue K.tells_written → Delivers turned (K.written conn.old) (K.written conn.new) result }
    ensures warned { IsTrue K.tells_written → Warns (ending_of result) (K.written conn.new) (K.write_faults conn.old) (K.write_faults conn.new) }
    ensures cause { HasOutCause (ending_of result) (K.write_faults conn.old) (K.write_faults conn.new) }
    ensures write_faults { K.write_faults conn.old ≤ K.write_faults conn.new }
    ensures read_faults { K.read_faults conn.old ≤ K.read_faults conn.new }
    ensures pieces { K.pieces conn.new ≡ K.pieces conn.old }
    ensures left { K.left conn.new ≡ K.left conn.old }
{
    match turned {
        Turned::Send(frame) => match send(rt, alloc, conn, &frame, out) {
            Some(ended) => Delivered::Over(ended),
            None => Delivered::More,
        },
        Turned::Idle => Delivered::Rest,
        Turned::Memory => Delivered::Over(give_up(rt, conn)),
        other => {
            let_go(other);
            Delivered::Over(Ended::Closed)
        }
    }
}
