use super::{let_conn_go, let_dialer_go, let_listeners_go, text_of};
use crate::check;
use nsq_outside::{Accept, Dialer, Dialled, Kind, Read, Sink, Source, Write};
use nsq_system::{Listeners, TcpConn, TcpDialer};
use std::alloc::Global;
use std::process::Abort;
use std::sync::Wait;

struct Row {
    name: &'static str,
    /// Whose listener is called.
    kind: Kind,
    /// What the caller sends.
    sends: &'static [u8],
}

static ROWS: [Row; 2] = [
    Row {
        name: "a caller of the TCP protocol",
        kind: Kind::Tcp,
        sends: b"  V2",
    },
    Row {
        name: "a caller of HTTP",
        kind: Kind::Http,
        sends: b"GET /",
    },
];

/// An address that asks for any port.
const HERE: &str = "127.0.0.1:0";

/// The kind of the caller, if there is one.
fn kind_of(accept: Accept<TcpConn>) -> Option<Kind> {
    match accept {
        Accept::Caller(kind, conn) => {
            let_conn_go(conn);
            Some(kind)
        }
        Accept::Nothing | Accept::Halt | Accept::Failed => None,
    }
}

/// Listeners of both kinds.
fn opened(rt: &impl Abort, own: &HostRuntime) -> Listeners<HostRuntime> {
    let system = own.clone().expect(rt, "memory");
    Listeners::open(system, own.alloc(), HERE, Some(HERE)).expect(rt, "listeners")
}

/// What dials them.
fn dialer(rt: &impl Abort, own: &HostRuntime) -> TcpDialer<HostRuntime> {
    TcpDialer::new(own.clone().expect(rt, "memory"), own.alloc())
}

/// Compiles only for a type whose values may move between threads.
fn may_move<T: Send>(_value: &T) {}

/// Whether bytes that are gathered come with the next read, and not before.
fn speaks<R: Wait>(rt: &R, near: &mut TcpConn, far: &mut TcpConn, bytes: &[u8]) -> bool {
    let mut buffer = [0u8; 64];
    if bytes.is_empty() || near.write(rt, bytes) != Write::Took(bytes.len()) {
        return false;
    }
    if near.read(rt, &mut buffer) != Read::Nothing {
        return false;
    }
    far.read(rt, &mut buffer) == Read::Got(bytes.len()) && buffer.starts_with(bytes)
}

/// The address of the listener of a kind.
fn address_of(
    rt: &impl Abort,
    alloc: Global,
    listeners: &Listeners<HostRuntime>,
    kind: Kind,
) -> String {
    let address = match kind {
        Kind::Tcp => listeners.tcp_address().expect(rt, "an address"),
        Kind::Http => {
            let address = listeners.http_address().expect(rt, "an address");
            address.expect(rt, "a listener of HTTP")
        }
    };
    text_of(rt, alloc, address)
}

/// A connection to the listener of a kind.
fn linked<R: Abort + Wait>(
    rt: &R,
    alloc: Global,
    listeners: &Listeners<HostRuntime>,
    dialer: &mut TcpDialer<HostRuntime>,
    kind: Kind,
) -> TcpConn {
    let address = address_of(rt, alloc, listeners, kind);
    match dialer.dial(rt, address.as_str()) {
        Dialled::Linked(conn) => conn,
        Dialled::Failed => panic!(rt; "a connection"),
    }
}

/// Whether callers of both kinds that wait are given in turn: two of the TCP protocol who called first, and one of HTTP
/// between them.
fn take_turns<R: Abort + Wait>(rt: &R, own: &HostRuntime) -> bool {
    let alloc = own.alloc();
    let mut listeners = opened(rt, own);
    let mut dialer = dialer(rt, own);
    let first = linked(rt, alloc, &listeners, &mut dialer, Kind::Tcp);
    let second = linked(rt, alloc, &listeners, &mut dialer, Kind::Tcp);
    let third = linked(rt, alloc, &listeners, &mut dialer, Kind::Http);
    let_dialer_go(dialer);
    let gives = gives(&mut listeners, &[Kind::Tcp, Kind::Http, Kind::Tcp]);
    let_conn_go(first);
    let_conn_go(second);
    let_conn_go(third);
    let_listeners_go(listeners);
    gives
}

/// Whether callers of these kinds are given, one after another.
fn gives(listeners: &mut Listeners<HostRuntime>, kinds: &[Kind]) -> bool {
    let mut all = true;
    for kind in kinds {
        all = kind_of(listeners.accept()) == Some(*kind) && all;
    }
    all
}

/// Whether a caller of this kind is given, whose bytes come.
fn hears<R: Wait>(
    rt: &R,
    listeners: &mut Listeners<HostRuntime>,
    near: &mut TcpConn,
    row: &Row,
) -> bool {
    match listeners.accept() {
        Accept::Caller(kind, mut far) => {
            let heard = kind == row.kind && speaks(rt, near, &mut far, row.sends);
            let_conn_go(far);
            heard
        }
        Accept::Nothing | Accept::Halt | Accept::Failed => false,
    }
}

/// Whether nobody calls, and then one of this kind, whose bytes come.
fn holds<R: Abort + Wait>(rt: &R, own: &HostRuntime, row: &Row) -> bool {
    let mut listeners = opened(rt, own);
    let mut dialer = dialer(rt, own);
    may_move(&listeners);
    may_move(&dialer);
    let nobody = kind_of(listeners.accept()).is_none() && listeners.faults() == 0;
    let mut near = linked(rt, own.alloc(), &listeners, &mut dialer, row.kind);
    let_dialer_go(dialer);
    let hears = nobody && hears(rt, &mut listeners, &mut near, row);
    let_conn_go(near);
    let_listeners_go(listeners);
    hears
}

#[test]
fn rows(rt: HostRuntime) {
    for row in &ROWS {
        check(&rt, holds(&rt, &rt, row), row.name);
    }
    check(
        &rt,
        take_turns(&rt, &rt),
        "callers of both kinds take turns",
    );
}
