ghost use Rattle.std.specs.Prelude.{◌≡◌, ◌≤◌, false, IfOk, IsTrue};
ghost use Rattle.nsq_outside.specs.Causes.{Rose};
ghost use Rattle.http_wire.specs.Answer.{IsStatus};
ghost use Rattle.daemon_callers.specs.declared.http.ended.EndedHttp.TheVariants.{Memory as OutOfMemory};
ghost use Rattle.daemon_callers.specs.Exchange.{HasCause, IsWarnedHttp};
ghost use Rattle.daemon_callers.specs.Written.{memory_bytes, WritesFirst, WritesAll, WritesUnlessFault, Sends, Finishes};

use crate::EndedHttp;
use http_calls::HttpAnswer;
use http_wire::write_answer;
use nsq_base::Memory;
use nsq_outside::{Conn, Write, put};
use std::alloc::Global;
use std::sync::Wait;

/// The answer 503 `OUT_OF_MEMORY`, which is written where there is no memory to make one.
const MEMORY_ANSWER: &[u8] =
    b"HTTP/1.1 503 Service Unavailable\r\nContent-Type: application/json; charset=utf-8\r\nContent-Length: 27\r\nConnection: close\r\n\r\n{\"message\":\"OUT_OF_MEMORY\"}";

/// Writes the answer, or where memory was wanting for it the one that says so, and says how the connection ended.
pub(crate) fn finish<R: Wait, K: Conn>(
    rt: &R,
    alloc: Global,
    conn: &mut K,
    answer: Result<HttpAnswer, Memory>,
) -> EndedHttp
    requires status { IfOk answer (λ a. IsStatus a.status) }
    ensures told { IsTrue K.tells_written → Finishes answer (K.written conn.old) (K.written conn.new) result }
    ensures warned { IsTrue K.tells_written → IsWarnedHttp result (K.written conn.old) (K.written conn.new) (K.write_faults conn.old) (K.write_faults conn.new) }
    ensures cause { HasCause result (K.ended conn.new) (K.read_faults conn.old) (K.read_faults conn.new) (K.write_faults conn.old) (K.write_faults conn.new) }
    ensures write_faults { K.write_faults conn.old ≤ K.write_faults conn.new }
    ensures read_faults { K.read_faults conn.old ≤ K.read_faults conn.new }
    ensures pieces { K.pieces conn.new ≡ K.pieces conn.old }
    ensures left { K.left conn.new ≡ K.left conn.old }
{
    match answer {
        Ok(answer) => send(rt, alloc, conn, &answer),
        Err(_) => give_up(rt, conn),
    }
}

/// Writes the answer whole, unless a write fails, or memory is wanting: then what is written is that.
fn send<R: Wait, K: Conn>(rt: &R, alloc: Global, conn: &mut K, answer: &HttpAnswer) -> EndedHttp
    requires status { IsStatus answer.now.status }
    ensures told { IsTrue K.tells_written → Sends answer.now (K.written conn.old) (K.written conn.new) result }
    ensures warned { IsTrue K.tells_written → IsWarnedHttp result (K.written conn.old) (K.written conn.new) (K.write_faults conn.old) (K.write_faults conn.new) }
    ensures cause { HasCause result (K.ended conn.new) (K.read_faults conn.old) (K.read_faults conn.new) (K.write_faults conn.old) (K.write_faults conn.new) }
    ensures write_faults { K.write_faults conn.old ≤ K.write_faults conn.new }
    ensures read_faults { K.read_faults conn.old ≤ K.read_faults conn.new }
    ensures pieces { K.pieces conn.new ≡ K.pieces conn.old }
    ensures left { K.left conn.new ≡ K.left conn.old }
{
    let mut out = Vec::new(alloc);
    if write_answer(
        alloc,
        answer.status,
        answer.json,
        answer.body.bytes(),
        &mut out,
    )
    .is_err()
    {
        return give_up(rt, conn);
    }
    if !write_all(rt, conn, &out) {
        return EndedHttp::WriteFault;
    }
    EndedHttp::Answered
}

/// Writes the answer for want of memory, whole unless a write fails, and answers Memory.
pub(crate) fn give_up<R: Wait, K: Conn>(rt: &R, conn: &mut K) -> EndedHttp
    ensures told { IsTrue K.tells_written → WritesFirst memory_bytes (K.written conn.old) (K.written conn.new) }
    ensures warned { IsTrue K.tells_written → IsWarnedHttp result (K.written conn.old) (K.written conn.new) (K.write_faults conn.old) (K.write_faults conn.new) }
    ensures memory { result ≡ OutOfMemory }
    ensures write_faults { K.write_faults conn.old ≤ K.write_faults conn.new }
    ensures read_faults { K.read_faults conn.old ≤ K.read_faults conn.new }
    ensures pieces { K.pieces conn.new ≡ K.pieces conn.old }
    ensures left { K.left conn.new ≡ K.left conn.old }
{
    write_memory_answer(rt, conn);
    EndedHttp::Memory
}

/// Writes the answer for want of memory, which takes no memory, whole unless a write fails.
fn write_memory_answer<R: Wait, K: Conn>(rt: &R, conn: &mut K)
    ensures told { IsTrue K.tells_written → WritesFirst memory_bytes (K.written conn.old) (K.written conn.new) }
    ensures whole { IsTrue K.tells_written → WritesUnlessFault memory_bytes (K.written conn.old) (K.written conn.new) (K.write_faults conn.old) (K.write_faults conn.new) }
    ensures write_faults { K.write_faults conn.old ≤ K.write_faults conn.new }
    ensures read_faults { K.read_faults conn.old ≤ K.read_faults conn.new }
    ensures pieces { K.pieces conn.new ≡ K.pieces conn.old }
    ensures left { K.left conn.new ≡ K.left conn.old }
{
    let _ = write_all(rt, conn, MEMORY_ANSWER);
}

/// Writes all the bytes, or as many of the first ones as are taken before a write fails. It says whether all were taken.
fn write_all<R: Wait, K: Conn>(rt: &R, conn: &mut K, bytes: &[u8]) -> bool
    ensures told { IsTrue K.tells_written → WritesAll bytes.now (K.written conn.old) (K.written conn.new) result }
    ensures cause { result ≡ false → Rose (K.write_faults conn.old) (K.write_faults conn.new) }
    ensures write_faults { K.write_faults conn.old ≤ K.write_faults conn.new }
    ensures read_faults { K.read_faults conn.old ≤ K.read_faults conn.new }
    ensures pieces { K.pieces conn.new ≡ K.pieces conn.old }
    ensures left { K.left conn.new ≡ K.left conn.old }
{
    let mut at = 0;
    'writes: while at < bytes.len() {
        match put(rt, conn, &bytes[at..]) {
            Write::Took(count) => at += count,
            Write::Failed => return false,
        }
    }
    true
}
