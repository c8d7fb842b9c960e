ghost use Rattle.std.specs.Prelude.{◌≡◌, ◌<◌, ◌≤◌, ◌++◌, [], IsTrue};
ghost use Rattle.nsq_base.specs.Options.{IsInRange};
ghost use Rattle.broker_history.specs.Entries.{own};
ghost use Rattle.broker_history.specs.Talk.{bytes_of};
ghost use Rattle.daemon_callers.specs.Exchange.{HasCause, IsExchangeIn, IsWarnedHttp};

use crate::EndedHttp;
use crate::http::asking::respond;
use crate::http::reading::{Came, read_request};
use crate::http::writing::{finish, give_up};
use broker_history::Desk;
use nsq_base::Options;
use nsq_outside::Conn;
use std::alloc::Global;
use std::sync::Wait;

/// Serves one HTTP connection (RFC 9112; nsq.io, nsqd's HTTP API) of a daemon with these options that began at this moment, in
/// nanoseconds, from its first byte to its end, and says how it ended. It has one request and its answer.
///
/// - Pieces of at most 16,384 bytes are read until they are a whole request, or no request. Where a read answers that nothing came, the
///   desk makes a tick; where that answers that the daemon stops, the connection is closed.
/// - A request that is refused or served by itself is answered at once. What it asks is asked at the desk, and answered by what is said,
///   or by 503 `STOPPING` where the daemon stops. A stop is noted, and answered `OK`, also behind another.
/// - Wherever the daemon stops the desk lists the names of topics and channels, so that the last entry of the connection is such a list
///   behind the Stop.
///
/// Want of memory, wherever it comes, is answered by 503 `OUT_OF_MEMORY`, whole unless a write fails. It may come behind what was noted.
///
/// The number is the desk's, which noted nothing of its own before. Nothing is allocated but one buffer for what is read, the bytes that
/// came, what the request and what is asked carry, and the answer.
pub fn serve_http<R: Wait, K: Conn, D: Desk>(
    rt: &R,
    alloc: Global,
    number: u64,
    conn: &mut K,
    desk: &mut D,
    options: &Options,
    began: u64,
) -> EndedHttp
    requires number { (0 < number) × (number ≡ D.number desk.old) }
    requires new { IsTrue D.tells → own number (D.seen desk.old) ≡ [] }
    requires options { IsInRange options.now }
    ensures exchange { IsTrue K.tells_pieces → IsTrue K.tells_written → IsTrue D.tells → K.pieces conn.old ≡ [] → K.written conn.old ≡ []
        → IsExchangeIn options.now began number (D.seen desk.new) (K.pieces conn.new) (K.written conn.new) result }
    ensures warned { IsTrue K.tells_written → IsWarnedHttp result (K.written conn.old) (K.written conn.new) (K.write_faults conn.old) (K.write_faults conn.new) }
    ensures cause { HasCause result (K.ended conn.new) (K.read_faults conn.old) (K.read_faults conn.new) (K.write_faults conn.old) (K.write_faults conn.new) }
    ensures stream { IsTrue K.tells_pieces → bytes_of (K.pieces conn.new) ++ K.left conn.new ≡ bytes_of (K.pieces conn.old) ++ K.left conn.old }
    ensures read_faults { K.read_faults conn.old ≤ K.read_faults conn.new }
    ensures write_faults { K.write_faults conn.old ≤ K.write_faults conn.new }
    ensures number { D.number desk.new ≡ D.number desk.old }
    ensures wanted { D.wanted desk.new ≡ D.wanted desk.old }
    ensures leads { D.leads desk.old desk.new }
{
    match read_request(rt, alloc, number, conn, desk, options.max_body_size) {
        Came::Whole(request) => {
            let answer = respond(rt, alloc, number, desk, options, began, request);
            finish(rt, alloc, conn, answer)
        }
        Came::Refused(refusal) => finish(rt, alloc, conn, refusal.answer(alloc)),
        Came::Over(ended) => ended,
        Came::Memory => give_up(rt, conn),
    }
}
