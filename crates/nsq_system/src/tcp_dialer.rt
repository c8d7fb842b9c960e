ghost use Rattle.std.specs.Prelude.{◌≡◌, ◌≤◌};

use crate::tcp_conn::TcpConn;
use nsq_outside::{Dialer, Dialled, Faults, Kind};
use std::alloc::Global;
use std::net::{Net, TcpStream, ToSocketAddrs};
use std::sync::Wait;
use std::time::Duration;

/// How long a dial waits for the answer of one address, in seconds.
const DIAL_WAIT: u64 = 5;

/// Opens TCP connections. It tells no content. `N` is the runtime.
#[derive(Drop)]
pub struct TcpDialer<N> {
    rt: N,
    alloc: Global,
    faults: Faults,
}

impl<N: Net<Stream = TcpStream>> TcpDialer<N> {
    ghost use Rattle.nsq_system.specs.TcpDialers.{dial_faults_of};

    /// A dialer that has no fault yet.
    pub fn new(rt: N, alloc: Global) -> TcpDialer<N>
        ensures { dial_faults_of result ≡ 0 }
    {
        TcpDialer {
            rt,
            alloc,
            faults: Faults::none(),
        }
    }

    /// How often a dial failed.
    pub fn faults(&self) -> u64
        ensures { result ≡ dial_faults_of self.now }
    {
        self.faults.count
    }
}

impl<N: Net<Stream = TcpStream>> Dialer for TcpDialer<N> {
    ghost use Rattle.std.specs.Prelude.{false};
    ghost use Rattle.nsq_system.specs.TcpDialers.{dial_faults_of, no_content, IsFreshTcpLink, IsNewTcpLink, SpeaksTcp};
    ghost use Rattle.nsq_outside.specs.Hosts.{LinkFails, LinkCounts};

    type Conn = TcpConn;

    ghost tells = { false };

    ghost dials = { no_content };

    ghost dial_faults = { dial_faults_of };

    ghost may_dial = { λ a b. dial_faults_of a ≤ dial_faults_of b };

    fn dial<R: Wait>(&mut self, _rt: &R, address: &str) -> Dialled<TcpConn>
        ensures fresh { IsFreshTcpLink result }
        ensures unused { IsNewTcpLink result }
        ensures speaks { SpeaksTcp result }
        ensures faults { dial_faults_of self.old ≤ dial_faults_of self.new }
        ensures cause { LinkFails (dial_faults_of self.old) (dial_faults_of self.new) result }
        ensures counted { LinkCounts (dial_faults_of self.old) (dial_faults_of self.new) result }
    {
        if let Some(stream) = connect(&self.rt, address) {
            if let Ok(conn) = TcpConn::new(&self.rt, self.alloc, stream, Kind::Tcp) {
                return Dialled::Linked(conn);
            }
        }
        self.faults.add();
        Dialled::Failed
    }

    ghost dial_faults_fit = { λ dialer. dialer.faults.fits };
}

/// A connection to the first of these addresses that answers.
fn connect<N: Net<Stream = TcpStream>>(rt: &N, address: &str) -> Option<TcpStream> {
    let Ok(addresses) = address.to_socket_addrs(rt) else {
        return None;
    };
    for address in addresses {
        if let Ok(stream) = TcpStream::connect_timeout(
            rt,
            &address,
            Duration::from_secs(DIAL_WAIT),
        ) {
            return Some(stream);
        }
    }
    None
}
