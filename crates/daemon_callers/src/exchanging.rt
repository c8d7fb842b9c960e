ghost use Rattle.std.specs.Prelude.{◌≡◌, ◌<◌, ◌++◌, [], IsTrue};
ghost use Rattle.nsq_base.specs.Options.{IsInRange};
ghost use Rattle.nsq_outside.specs.Hosts.{IsFresh};
ghost use Rattle.broker_history.specs.Entries.{own};
ghost use Rattle.broker_history.specs.Talk.{bytes_of};
ghost use Rattle.daemon_callers.specs.Exchange.{HasCause, IsExchangeIn, IsWarnedHttp};
ghost use Rattle.daemon_callers.specs.Served.{views, IsServedHttp};

use crate::caller_desk::CallerDesk;
use crate::{EndedHttp, serve_http};
use broker_history::{FloorDesk, Turner};
use nsq_base::Options;
use nsq_outside::Conn;
use std::alloc::Global;
use std::sync::Wait;

/// Serves a caller of HTTP.
pub(crate) fn serve_http_caller<R: Wait, K: Conn, T: Turner>(
    rt: &R,
    alloc: Global,
    options: &Options,
    began: u64,
    conn: &mut K,
    floor: &mut T,
    number: u64,
)
    requires options { IsInRange options.now }
    requires number { 0 < number }
    requires new { IsTrue T.tells → own number (T.notes floor.old) ≡ [] }
    ensures served { IsTrue K.tells_pieces → IsTrue K.tells_written → IsTrue T.tells → IsFresh K.pieces K.ended K.written K.read_faults K.write_faults conn.old
        → IsServedHttp (views K.pieces K.left K.ended K.written K.read_faults K.write_faults) options.now began (T.notes floor.new) number (K.left conn.old) conn.new }
    ensures leads { T.leads number floor.old floor.new }
{
    let _ended = exchange(rt, alloc, options, began, conn, floor, number);
}

/// Makes the exchange with a caller of HTTP at a desk of the floor, as `serve_http`.
fn exchange<R: Wait, K: Conn, T: Turner>(
    rt: &R,
    alloc: Global,
    options: &Options,
    began: u64,
    conn: &mut K,
    floor: &mut T,
    number: u64,
) -> EndedHttp
    requires options { IsInRange options.now }
    requires number { 0 < number }
    requires new { IsTrue T.tells → own number (T.notes floor.old) ≡ [] }
    ensures exchange { IsTrue K.tells_pieces → IsTrue K.tells_written → IsTrue T.tells → K.pieces conn.old ≡ [] → K.written conn.old ≡ []
        → IsExchangeIn options.now began number (T.notes floor.new) (K.pieces conn.new) (K.written conn.new) result }
    ensures warned { IsTrue K.tells_written → IsWarnedHttp result (K.written conn.old) (K.written conn.new) (K.write_faults conn.old) (K.write_faults conn.new) }
    ensures cause { HasCause result (K.ended conn.new) (K.read_faults conn.old) (K.read_faults conn.new) (K.write_faults conn.old) (K.write_faults conn.new) }
    ensures stream { IsTrue K.tells_pieces → bytes_of (K.pieces conn.new) ++ K.left conn.new ≡ bytes_of (K.pieces conn.old) ++ K.left conn.old }
    ensures leads { T.leads number floor.old floor.new }
{
    let mut desk = CallerDesk {
        desk: FloorDesk {
            floor,
            number,
            wanted: 0,
        },
    };
    serve_http(rt, alloc, number, conn, &mut desk, options, began)
}
