use super::{let_conn_go, text_of};
use crate::check;
use crate::words::{cut, is_first, is_number, part};
use nsq_outside::{Dialer, Dialled};
use nsq_system::{TcpConn, TcpDialer};
use std::io;
use std::io::ErrorKind;
use std::net::{Net, SocketAddr, TcpListener, TcpStream};
use std::process::Abort;
use std::sync::Wait;
use std::time::Duration;

/// The system's network, where a name server may be silent.
#[derive(Drop)]
struct Network {
    rt: HostRuntime,
    has_names: bool,
}

impl Net for Network {
    type Stream = TcpStream;

    type Listener = TcpListener;

    fn bind(&self, address: SocketAddr) -> io::Result<TcpListener> {
        self.rt.bind(address)
    }

    fn connect(&self, address: SocketAddr) -> io::Result<TcpStream> {
        self.rt.connect(address)
    }

    fn connect_timeout(&self, address: SocketAddr, most: Duration) -> io::Result<TcpStream> {
        self.rt.connect_timeout(address, most)
    }

    fn lookup_host(&self, host: &str, port: u16, found: &mut [SocketAddr]) -> io::Result<usize> {
        if self.has_names {
            return self.rt.lookup_host(host, port, found);
        }
        Err(ErrorKind::Unsupported.into())
    }
}

/// A row is a text: a name, whether a name server answers (`names` or `silence`), dials with a `;` between them, each of which fails, and how
/// often a dial failed then. A dial asks for a port of this machine where `nobody` listens any more, or is `to` an address.
static ROWS: &'static str = "
nobody there, and no address: names, nobody; to no port = 2
no name server answers: silence, to lookupd.example:4160 = 1
";

/// Whether there is no connection.
fn is_failed(dialled: Dialled<TcpConn>) -> bool {
    match dialled {
        Dialled::Linked(conn) => {
            let_conn_go(conn);
            false
        }
        Dialled::Failed => true,
    }
}

/// The address of a port where nobody listens any more.
fn nobody(rt: &impl Abort, own: &HostRuntime) -> String {
    let listener = TcpListener::bind(own, "127.0.0.1:0").expect(rt, "a listener");
    let address = listener.local_addr().expect(rt, "an address");
    text_of(rt, own.alloc(), address)
}

/// Whether a dial fails.
fn fails<R: Abort + Wait>(
    rt: &R,
    own: &HostRuntime,
    dialer: &mut TcpDialer<Network>,
    asked: &str,
) -> bool {
    let (whom, address) = cut(asked);
    let address = if is_first(rt, whom, "nobody", "to") {
        nobody(rt, own)
    } else {
        String::from_str(own.alloc(), address).expect(rt, "memory")
    };
    is_failed(dialer.dial(rt, address.as_str()))
}

/// Whether each dial of a row fails and is counted.
fn holds<R: Abort + Wait>(rt: &R, own: &HostRuntime, row: &str) -> bool {
    let (_, rest) = part(rt, row, ": ");
    let (names, rest) = part(rt, rest, ", ");
    let (dials, faults) = part(rt, rest, " = ");
    let network = Network {
        rt: own.clone().expect(rt, "memory"),
        has_names: is_first(rt, names, "names", "silence"),
    };
    let mut dialer = TcpDialer::new(network, own.alloc());
    let mut all = true;
    for asked in dials.split(';') {
        all = fails(rt, own, &mut dialer, asked.trim()) && all;
    }
    all && is_number(dialer.faults(), faults)
}

#[test]
fn rows(rt: HostRuntime) {
    for row in ROWS.trim().split('\n') {
        check(&rt, holds(&rt, &rt, row), row);
    }
}
