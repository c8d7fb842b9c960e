//! Rows of TCP connections, of what accepts them and of what dials them, over the loopback network and a writer in memory.

mod answers;
mod callers;
mod closings;
mod dials;
mod outbox;
mod talks;

use nsq_outside::Kind;
use nsq_system::{Listeners, TcpConn, TcpDialer};
use std::alloc::Global;
use std::net::{SocketAddr, TcpListener, TcpStream};
use std::process::Abort;

/// A connection and its peer, over the loopback network.
fn made_pair(rt: &impl Abort, own: &HostRuntime, kind: Kind) -> (TcpConn, TcpStream) {
    let listener = TcpListener::bind(own, "127.0.0.1:0").expect(rt, "a listener");
    let address = listener.local_addr().expect(rt, "an address");
    let peer = TcpStream::connect(own, address).expect(rt, "a peer");
    let (stream, _) = listener.accept().expect(rt, "a caller");
    let conn = TcpConn::new(own, own.alloc(), stream, kind).expect(rt, "a connection");
    (conn, peer)
}

/// Takes a connection apart, once for all that held one.
fn let_conn_go(_conn: TcpConn) {}

/// The same of listeners.
fn let_listeners_go(_listeners: Listeners<HostRuntime>) {}

/// The same of what dials.
fn let_dialer_go(_dialer: TcpDialer<HostRuntime>) {}

/// The text of an address.
fn text_of(rt: &impl Abort, alloc: Global, address: SocketAddr) -> String {
    format!(in alloc; "{address}").expect(rt, "memory")
}
