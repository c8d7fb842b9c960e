ghost use Rattle.std.specs.Prelude.{◌≡◌, ◌<◌, ◌++◌, [], IsTrue};
ghost use Rattle.nsq_base.specs.Options.{IsInRange};
ghost use Rattle.nsq_outside.specs.Hosts.{IsFresh};
ghost use Rattle.broker_history.specs.Entries.{own};
ghost use Rattle.broker_history.specs.Talk.{bytes_of};
ghost use Rattle.broker_history.specs.Calls.{AreAllowed};
ghost use Rattle.daemon_callers.specs.Sessions.{HasCause};
ghost use Rattle.daemon_callers.specs.Served.{views, IsServed, IsServedTcp, Talks, limits_of};

use crate::caller_desk::CallerDesk;
use crate::exchanging::serve_http_caller;
use crate::serve_v2;
use broker_history::{Ended, FloorDesk, Turner};
use nsq_base::Options;
use nsq_outside::{Conn, Kind};
use std::alloc::Global;
use std::sync::Wait;
use v2_frame::Limits;

/// Serves a caller as its kind asks: by a conversation of the TCP protocol, or by an exchange of HTTP.
pub fn serve_caller<R: Wait, K: Conn, T: Turner>(
    rt: &R,
    alloc: Global,
    options: &Options,
    began: u64,
    kind: Kind,
    conn: &mut K,
    floor: &mut T,
    number: u64,
)
    requires options { IsInRange options.now }
    requires number { 0 < number }
    requires new { IsTrue T.tells → own number (T.notes floor.old) ≡ [] }
    ensures served { IsTrue K.tells_pieces → IsTrue K.tells_written → IsTrue T.tells → IsFresh K.pieces K.ended K.written K.read_faults K.write_faults conn.old
        → IsServed (views K.pieces K.left K.ended K.written K.read_faults K.write_faults) options.now began (T.notes floor.new) number kind (K.left conn.old) conn.new }
    ensures leads { T.leads number floor.old floor.new }
{
    match kind {
        Kind::Tcp => serve_tcp(rt, alloc, limits_of(options), conn, floor, number),
        Kind::Http => serve_http_caller(rt, alloc, options, began, conn, floor, number),
    }
}

/// The limits that the options set.
fn limits_of(options: &Options) -> Limits
    requires { IsInRange options.now }
    ensures value { result ≡ limits_of options.now }
    ensures allowed { AreAllowed result }
{
    Limits {
        msg: options.max_msg_size,
        body: options.max_body_size,
    }
}

/// Serves a caller of the TCP protocol.
fn serve_tcp<R: Wait, K: Conn, T: Turner>(
    rt: &R,
    alloc: Global,
    limits: Limits,
    conn: &mut K,
    floor: &mut T,
    number: u64,
)
    requires limits { AreAllowed limits }
    requires number { 0 < number }
    requires new { IsTrue T.tells → own number (T.notes floor.old) ≡ [] }
    ensures served { IsTrue K.tells_pieces → IsTrue K.tells_written → IsTrue T.tells → IsFresh K.pieces K.ended K.written K.read_faults K.write_faults conn.old
        → IsServedTcp (views K.pieces K.left K.ended K.written K.read_faults K.write_faults) limits (T.notes floor.new) number (K.left conn.old) conn.new }
    ensures leads { T.leads number floor.old floor.new }
{
    let _ended = converse(rt, alloc, limits, conn, floor, number);
}

/// Makes the conversation with a caller of the TCP protocol at a desk of the floor, as `serve_v2`.
fn converse<R: Wait, K: Conn, T: Turner>(
    rt: &R,
    alloc: Global,
    limits: Limits,
    conn: &mut K,
    floor: &mut T,
    number: u64,
) -> Ended
    requires limits { AreAllowed limits }
    requires number { 0 < number }
    requires new { IsTrue T.tells → own number (T.notes floor.old) ≡ [] }
    ensures talks { IsTrue K.tells_pieces → IsTrue K.tells_written → IsTrue T.tells → K.pieces conn.old ≡ [] → K.written conn.old ≡ []
        → Talks limits number (T.notes floor.new) (K.pieces conn.new) (K.written conn.new) (K.write_faults conn.old) (K.write_faults conn.new) result }
    ensures cause { HasCause result (K.ended conn.new) (K.read_faults conn.old) (K.read_faults conn.new) (K.write_faults conn.old) (K.write_faults conn.new) }
    ensures stream { IsTrue K.tells_pieces → bytes_of (K.pieces conn.new) ++ K.left conn.new ≡ bytes_of (K.pieces conn.old) ++ K.left conn.old }
    ensures leads { T.leads number floor.old floor.new }
{
    let mut desk = CallerDesk {
        desk: FloorDesk {
            floor,
            number,
            wanted: 0,
        },
    };
    serve_v2(rt, alloc, number, conn, &mut desk, limits)
}
