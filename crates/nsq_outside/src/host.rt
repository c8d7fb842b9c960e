ghost use Rattle.std.specs.Prelude.{◌≡◌, ◌+◌, ◌-◌, ◌^◌, ◌<◌, ◌≤◌, ◌++◌, ◌∷◌, [], List, ℕ, Bool, IsTrue, true, false, None, Some, IsSome, IfSome, length};
ghost use Rattle.nsq_outside.specs.Causes.{DidFails};
ghost use Rattle.nsq_outside.specs.Hosts.{HostContent, HostState, DialerContent, Dials, IsFreshLink, LinkFails, Starts, Accepts, IsFreshCaller, AcceptFails, Prints, Tells, OnlyAcceptFaults, OnlyPrintFaults, OnlyTellFaults, FaultsFit};

use crate::{Clock, Conn, Did, Folder, Journal};
use std::sync::Wait;

/// The answer of a dial.
pub enum Dialled<K> {
    /// A connection.
    Linked(K),
    /// No connection, and the count of dial faults rose in this call.
    Failed,
}

/// What opens connections to addresses.
pub trait Dialer {
    /// The connections that it gives.
    type Conn: Conn + Drop;

    /// Whether values of this type tell their content.
    ghost tells: { Bool };

    /// What was dialled, and what the connections to come will send.
    ghost dials: { Self → DialerContent };

    /// How often a dial failed. It never falls.
    ghost dial_faults: { Self → ℕ };

    /// Which values a dial may lead to.
    ghost may_dial: { Self → Self → Type 0 };

    /// Opens a connection to an address, as `127.0.0.1:4150`. It may wait. From a connection nothing was read yet, nothing
    /// was written, and it has no fault.
    fn dial<R: Wait>(&mut self, rt: &R, address: &str) -> Dialled<Self::Conn>
        ensures told { IsTrue tells → Dials Self.Conn.left (dials self.old) (dials self.new) address.now result }
        ensures fresh { IsFreshLink Self.Conn.pieces Self.Conn.ended Self.Conn.written Self.Conn.read_faults Self.Conn.write_faults result }
        ensures may { may_dial self.old self.new }
        ensures faults { dial_faults self.old ≤ dial_faults self.new }
        ensures cause { LinkFails (dial_faults self.old) (dial_faults self.new) result };

    /// The count of dial faults is at most 2^64 - 1.
    ghost dial_faults_fit: { (dialer : Self) → dial_faults dialer ≤ 2 ^ 64 - 1 };
}

/// What a caller speaks: the TCP protocol or HTTP.
#[derive(Clone, Copy, PartialEq)]
pub enum Kind {
    /// NSQ's TCP protocol.
    Tcp,
    /// HTTP/1.1.
    Http,
}

/// The answer of an accept.
pub enum Accept<K> {
    /// A caller's connection.
    Caller(Kind, K),
    /// Nobody called yet.
    Nothing,
    /// Nobody will call any more.
    Halt,
    /// The listeners failed, and the count of accept faults rose in this call.
    Failed,
}

/// What the engine borrows of a host while it runs.
#[derive(Drop)]
pub struct Kit<F, C, J> {
    /// The folder of the data path.
    pub folder: F,
    /// The clock that each turn reads once.
    pub clock: C,
    /// The journal that each entry is noted in.
    pub journal: J,
}

/// The process and its surroundings, as a daemon sees them. `E` is the type of the entries of its journal.
pub trait Host<E>: Dialer {
    /// The folder of its data path. As the clock and the journal it may move between threads.
    type Folder: Folder + Drop + Send;

    /// Its clock.
    type Clock: Clock + Drop + Send;

    /// The journal of what happened.
    type Journal: Journal<E> + Drop + Send;

    /// What it was asked, gave, took back and was told, where it tells.
    ghost content: { Self → HostContent Self.Conn };

    /// Its kit, whether callers get threads, and its counts of faults. Each type tells these.
    ghost state: { Self → HostState Self.Folder Self.Clock Self.Journal };

    /// Learns the addresses to listen at and the folder's path, and opens the listeners.
    fn start<R: Wait>(&mut self, rt: &R, tcp: &str, http: &str, path: &str) -> Did
        ensures content { IsTrue Self.tells → Starts (content self.old) (content self.new) tcp.now http.now path.now result }
        ensures state { OnlyAcceptFaults (state self.old) (state self.new) }
        ensures cause { DidFails (state self.old).accept_faults (state self.new).accept_faults result }
        ensures dials { Self.dials self.new ≡ Self.dials self.old }
        ensures dial_faults { Self.dial_faults self.new ≡ Self.dial_faults self.old };

    /// Waits a little for a caller. From a caller's connection nothing was read yet, nothing was written, and it has no fault.
    fn accept<R: Wait>(&mut self, rt: &R) -> Accept<Self::Conn>
        ensures content { IsTrue Self.tells → Accepts Self.Conn.left (content self.old) (content self.new) result }
        ensures fresh { IsFreshCaller Self.Conn.pieces Self.Conn.ended Self.Conn.written Self.Conn.read_faults Self.Conn.write_faults result }
        ensures state { OnlyAcceptFaults (state self.old) (state self.new) }
        ensures cause { AcceptFails (state self.old).accept_faults (state self.new).accept_faults result }
        ensures dials { Self.dials self.new ≡ Self.dials self.old }
        ensures dial_faults { Self.dial_faults self.new ≡ Self.dial_faults self.old };

    /// Takes back a connection that `accept` or `dial` gave, under a number. Fewer connections were taken back than were
    /// given. It takes no memory: who gave the connection made the room.
    fn done(&mut self, number: u64, conn: Self::Conn)
        requires { IsTrue Self.tells → length (content self.old).back < length (content self.old).given + length (Self.dials self.old).linked }
        ensures content { IsTrue Self.tells → content self.new ≡ record (content self.old) { back = (content self.old).back ++ (number, conn) ∷ [] } }
        ensures state { state self.new ≡ state self.old }
        ensures dials { Self.dials self.new ≡ Self.dials self.old }
        ensures dial_faults { Self.dial_faults self.new ≡ Self.dial_faults self.old };

    /// Lends the kit, which is at home. Its journal has no entry aside and, where it tells, an empty list.
    fn lend(&mut self) -> Kit<Self::Folder, Self::Clock, Self::Journal>
        requires { IsSome (state self.old).kit }
        ensures folder { IfSome (state self.old).kit (λ kit. result.folder ≡ kit.folder) }
        ensures clock { IfSome (state self.old).kit (λ kit. result.clock ≡ kit.clock) }
        ensures aside { Self.Journal.is_aside result.journal ≡ false }
        ensures empty { IsTrue Self.Journal.tells_notes → Self.Journal.notes result.journal ≡ [] }
        ensures content { content self.new ≡ content self.old }
        ensures state { state self.new ≡ record (state self.old) { kit = None } }
        ensures dials { Self.dials self.new ≡ Self.dials self.old }
        ensures dial_faults { Self.dial_faults self.new ≡ Self.dial_faults self.old };

    /// Takes the kit back, which is out.
    fn restore(&mut self, home: Kit<Self::Folder, Self::Clock, Self::Journal>)
        requires { (state self.old).kit ≡ None }
        ensures content { content self.new ≡ content self.old }
        ensures state { state self.new ≡ record (state self.old) { kit = Some home } }
        ensures dials { Self.dials self.new ≡ Self.dials self.old }
        ensures dial_faults { Self.dial_faults self.new ≡ Self.dial_faults self.old };

    /// Whether each caller gets a thread of its own. It doesn't change.
    fn beside(&self) -> bool
        ensures { result ≡ (state self.now).beside };

    /// Writes to standard output. After `Failed` a part of the text from its front went out.
    fn print<R: Wait>(&mut self, rt: &R, text: &[u8]) -> Did
        ensures content { IsTrue Self.tells → Prints (content self.old) (content self.new) text.now result }
        ensures state { OnlyPrintFaults (state self.old) (state self.new) }
        ensures cause { DidFails (state self.old).print_faults (state self.new).print_faults result }
        ensures dials { Self.dials self.new ≡ Self.dials self.old }
        ensures dial_faults { Self.dial_faults self.new ≡ Self.dial_faults self.old };

    /// Writes a line to standard error. A line that can't be told raises the count of tell faults.
    fn tell<R: Wait>(&mut self, rt: &R, line: &[u8])
        ensures content { IsTrue Self.tells → Tells (content self.old) (content self.new) line.now (state self.old).tell_faults (state self.new).tell_faults }
        ensures state { OnlyTellFaults (state self.old) (state self.new) }
        ensures dials { Self.dials self.new ≡ Self.dials self.old }
        ensures dial_faults { Self.dial_faults self.new ≡ Self.dial_faults self.old };

    /// A dial changes nothing but what a dialer tells: callers see that from `dial`.
    ghost dial_keeps: { (a b : Self) → Self.may_dial a b → (content b ≡ content a) × (state b ≡ state a) };

    /// No more connections were taken back than were given.
    ghost back_given: { (h : Self) → IsTrue Self.tells → length (content h).back ≤ length (content h).given + length (Self.dials h).linked };

    /// Each of its counts of faults is at most 2^64 - 1.
    ghost faults_fit: { (h : Self) → FaultsFit (state h) };
}

/// Opens a connection to an address, as `Dialer::dial`, and changes nothing else of the host.
pub fn dial<R: Wait, E, H: Host<E>>(rt: &R, host: &mut H, address: &str) -> Dialled<H::Conn>
    ensures told { IsTrue H.tells → Dials H.Conn.left (H.dials host.old) (H.dials host.new) address.now result }
    ensures fresh { IsFreshLink H.Conn.pieces H.Conn.ended H.Conn.written H.Conn.read_faults H.Conn.write_faults result }
    ensures faults { H.dial_faults host.old ≤ H.dial_faults host.new }
    ensures cause { LinkFails (H.dial_faults host.old) (H.dial_faults host.new) result }
    ensures content { H.content host.new ≡ H.content host.old }
    ensures state { H.state host.new ≡ H.state host.old }
{
    host.dial(rt, address)
}
