ghost use Rattle.std.specs.Prelude.{◌≡◌, ◌≤◌, IfOk, is_some};
ghost use Rattle.nsq_system.specs.Listeners.{IsHeardStream, IsOfKind, kind_behind};
ghost use Rattle.nsq_outside.specs.Hosts.{AcceptFails, AcceptCounts};

use crate::answers::{NoCaller, no_caller};
use crate::polls::new_poll;
use crate::tcp_conn::TcpConn;
use mio::net::TcpListener;
use mio::{Events, Interest, Poll, Token};
use nsq_outside::{Accept, Faults, Kind};
use std::alloc::Global;
use std::io::ErrorKind;
use std::net::{Net, SocketAddr, TcpStream, ToSocketAddrs};
use std::time::{Clock, Duration};
use std::{io, thread};

/// The tokens of the listeners in their poll.
const TCP: Token = Token(0);

const HTTP: Token = Token(1);

/// How long `accept` waits for a caller, in milliseconds.
const ACCEPT_WAIT: u64 = 20;

/// How long `accept` pauses where the system is out of descriptors or memory, in milliseconds: it would fail again at once.
const SHORTAGE_PAUSE: u64 = 10;

/// How often an accept whose caller was lost is tried again at once.
const MOST_TRIES: u32 = 100;

/// The listeners of a daemon: one for the TCP protocol, and one for HTTP where there is one. Each has the longest backlog
/// that the system allows. Where callers of both wait they take turns: behind one of a kind comes one of the other. `N` is
/// the runtime.
#[derive(Drop)]
pub struct Listeners<N> {
    rt: N,
    alloc: Global,
    tcp: TcpListener,
    http: Option<TcpListener>,
    /// The kind of caller that is looked for first.
    first: Kind,
    poll: Poll,
    events: Events,
    faults: Faults,
}

/// What a try to accept gave.
#[derive(Drop)]
enum Tried {
    /// A caller's stream.
    Stream(Kind, TcpStream),
    /// Nobody called yet.
    Nobody,
    /// The system is out of descriptors or memory.
    Shortage,
    /// The listener failed.
    Broken,
}

impl<N: Net + Clock> Listeners<N> {
    ghost use Rattle.nsq_system.specs.Listeners.{accept_faults_of, has_http, IsFreshTcpCaller, IsNewTcpCaller, IsHeard, Speaks, GoesOn, TakesTurns};

    /// Opens the listeners at these addresses, as `127.0.0.1:4150`. Of a name's addresses it takes the first that can be
    /// bound. The error is that of a name that can't be resolved, of the last address that can't be bound, or another of the
    /// system's, or want of memory.
    pub fn open(rt: N, alloc: Global, tcp: &str, http: Option<&str>) -> io::Result<Listeners<N>>
    where
        N: Drop,
        ensures faults { IfOk result (λ listeners. accept_faults_of listeners ≡ 0) }
        ensures http { IfOk result (λ listeners. has_http listeners ≡ is_some http.entry) }
    {
        let (poll, events) = new_poll(&rt, alloc, 2)?;
        let (tcp, http) = listen_at(&rt, &poll, tcp, http)?;
        Ok(Listeners {
            rt,
            alloc,
            tcp,
            http,
            first: Kind::Tcp,
            poll,
            events,
            faults: Faults::none(),
        })
    }

    /// Waits up to 20 ms for a caller. A caller whose connection can't be made, for want of memory or descriptors, is
    /// dropped, and a system that is out of either is given some time: both are `Nothing`.
    pub fn accept(&mut self) -> Accept<TcpConn>
        ensures fresh { IsFreshTcpCaller result }
        ensures unused { IsNewTcpCaller result }
        ensures speaks { Speaks result }
        ensures goes_on { GoesOn result }
        ensures heard { IsHeard (has_http self.old) result }
        ensures http { has_http self.new ≡ has_http self.old }
        ensures faults { accept_faults_of self.old ≤ accept_faults_of self.new }
        ensures cause { AcceptFails (accept_faults_of self.old) (accept_faults_of self.new) result }
        ensures counted { AcceptCounts (accept_faults_of self.old) (accept_faults_of self.new) result }
        ensures turns { TakesTurns self.old.first self.new.first result }
    {
        match next_caller(
            &self.tcp,
            &self.http,
            &mut self.first,
            &mut self.poll,
            &mut self.events,
        ) {
            Tried::Stream(kind, stream) => {
                match TcpConn::new(&self.rt, self.alloc, stream, kind) {
                    Ok(conn) => Accept::Caller(kind, conn),
                    Err(_) => Accept::Nothing,
                }
            }
            Tried::Nobody => Accept::Nothing,
            Tried::Shortage => {
                thread::sleep(&self.rt, Duration::from_millis(SHORTAGE_PAUSE));
                Accept::Nothing
            }
            Tried::Broken => {
                self.faults.add();
                Accept::Failed
            }
        }
    }

    /// How often an accept failed.
    pub fn faults(&self) -> u64
        ensures { result ≡ accept_faults_of self.now }
    {
        self.faults.count
    }

    /// The address of the listener of the TCP protocol, with the port that it got where 0 was asked for.
    pub fn tcp_address(&self) -> io::Result<SocketAddr> {
        self.tcp.local_addr()
    }

    /// The address of the listener of HTTP, where there is one.
    pub fn http_address(&self) -> io::Result<Option<SocketAddr>>
        ensures { IfOk result (λ address. is_some address ≡ has_http self.now) }
    {
        match &self.http {
            Some(listener) => Ok(Some(listener.local_addr()?)),
            None => Ok(None),
        }
    }
}

/// A caller of either listener, after a wait where nobody called yet.
fn next_caller(
    tcp: &TcpListener,
    http: &Option<TcpListener>,
    first: &mut Kind,
    poll: &mut Poll,
    events: &mut Events,
) -> Tried
    ensures turns { first.new ≡ kind_behind first.old result }
    ensures heard { IsHeardStream (is_some http.now) result }
{
    match try_in_turn(tcp, http, first) {
        Tried::Nobody => {}
        tried => return tried,
    }
    let most = Duration::from_millis(ACCEPT_WAIT);
    if poll.poll(events, Some(most)).is_err() {
        return Tried::Broken;
    }
    try_in_turn(tcp, http, first)
}

/// A caller of either listener, of the kind that is looked for first where both have one. Behind a caller that is the
/// other kind.
fn try_in_turn(tcp: &TcpListener, http: &Option<TcpListener>, first: &mut Kind) -> Tried
    ensures turns { first.new ≡ kind_behind first.old result }
    ensures heard { IsHeardStream (is_some http.now) result }
{
    let tried = try_both(tcp, http, *first);
    match &tried {
        Tried::Stream(Kind::Tcp, _) => *first = Kind::Http,
        Tried::Stream(Kind::Http, _) => *first = Kind::Tcp,
        Tried::Nobody | Tried::Shortage | Tried::Broken => {}
    }
    tried
}

/// The listeners at these addresses, in the poll.
fn listen_at<N: Net>(
    rt: &N,
    poll: &Poll,
    tcp: &str,
    http: Option<&str>,
) -> io::Result<(TcpListener, Option<TcpListener>)>
    ensures { IfOk result (λ listeners. is_some listeners.1 ≡ is_some http.entry) }
{
    let tcp = listen(rt, poll, tcp, TCP)?;
    match http {
        Some(address) => Ok((tcp, Some(listen(rt, poll, address, HTTP)?))),
        None => Ok((tcp, None)),
    }
}

/// A listener at one of these addresses, in the poll under a token.
fn listen<N: Net>(rt: &N, poll: &Poll, address: &str, token: Token) -> io::Result<TcpListener> {
    let mut listener = bind(rt, address)?;
    poll.registry()
        .register(&mut listener, token, Interest::READABLE)?;
    Ok(listener)
}

/// A listener at the first of these addresses that can be bound.
fn bind<N: Net>(rt: &N, address: &str) -> io::Result<TcpListener> {
    let mut last = io::Error::from(ErrorKind::InvalidInput);
    for address in address.to_socket_addrs(rt)? {
        match TcpListener::bind(rt, address) {
            Ok(listener) => return Ok(listener),
            Err(error) => last = error,
        }
    }
    Err(last)
}

/// A caller of the listener of this kind, or else of the other.
fn try_both(tcp: &TcpListener, http: &Option<TcpListener>, first: Kind) -> Tried
    ensures { IsHeardStream (is_some http.now) result }
{
    let Some(http) = http else {
        return try_accept(tcp, Kind::Tcp);
    };
    match first {
        Kind::Tcp => match try_accept(tcp, Kind::Tcp) {
            Tried::Nobody => try_accept(http, Kind::Http),
            tried => tried,
        },
        Kind::Http => match try_accept(http, Kind::Http) {
            Tried::Nobody => try_accept(tcp, Kind::Tcp),
            tried => tried,
        },
    }
}

/// A caller of a listener, if one waits. A caller that was lost before it was accepted is passed over.
fn try_accept(listener: &TcpListener, kind: Kind) -> Tried
    ensures { IsOfKind kind result }
{
    for _ in 0..MOST_TRIES {
        match listener.accept() {
            Ok((stream, _)) => return Tried::Stream(kind, TcpStream::from(stream)),
            Err(error) => match no_caller(&error) {
                NoCaller::Nobody => return Tried::Nobody,
                NoCaller::Lost => {}
                NoCaller::Shortage => return Tried::Shortage,
                NoCaller::Broken => return Tried::Broken,
            },
        }
    }
    Tried::Nobody
}
