ghost use Rattle.std.specs.Prelude.{◌≡◌, IfOk, IfSome, Some, true};
ghost use Rattle.nsq_system.specs.Listeners.{has_http};

use broker_history::Entry;
use nsq_core::Memory;
use nsq_outside::{Accept, Dialer, Dialled, Did, Faults, Host, Kit};
use nsq_system::{DirFolder, Forgetful, Listeners, SysClock, TcpConn, TcpDialer};
use std::alloc::Global;
use std::io::{Eprint, Print};
use std::net::{Net, TcpStream};
use std::os::unix::fs::FileExt;
use std::rt::{Clock, Files};
use std::sync::Wait;
use std::{fmt, mem};

/// The real machine, as the daemon sees it: TCP connections, a folder on disk, the system's clock, a journal that forgets, and
/// the standard streams. It tells no content, and counts its faults. `N` is the runtime.
///
/// It listens at the address of the TCP protocol and at that of HTTP: what a caller speaks is told by the listener that it
/// called. It never answers `Halt`, so a daemon over it serves until it is stopped.
#[derive(Drop)]
pub struct SysHost<N: Files + Clock> {
    rt: N,
    alloc: Global,
    dialer: TcpDialer<N>,
    listeners: Option<Listeners<N>>,
    kit: Option<Kit<DirFolder<N>, SysClock<N>, Forgetful<Entry>>>,
    accept_faults: Faults,
    print_faults: Faults,
    tell_faults: Faults,
}

impl<N: Files + Clock + Net<Stream = TcpStream> + AllocGlobal + Clone + Drop> SysHost<N>
where
    N::File: FileExt,
{
    ghost use Rattle.std.specs.Prelude.{IsTrue};
    ghost use Rattle.nsqd_host.specs.SysHosts.{state_of, dial_faults_of, hears_http, IsAtHome};

    /// A host that has its kit at home and doesn't listen yet. Its folder is the one that the process runs in, until `start`
    /// names another.
    pub fn new(rt: N, alloc: Global) -> Result<SysHost<N>, Memory>
        ensures state { IfOk result (λ host. IsAtHome (state_of host)) }
        ensures dial_faults { IfOk result (λ host. dial_faults_of host ≡ 0) }
    {
        let own = rt.clone()?;
        let kit = kit_here(&rt, alloc)?;
        Ok(SysHost {
            rt,
            alloc,
            dialer: TcpDialer::new(own, alloc),
            listeners: None,
            kit: Some(kit),
            accept_faults: Faults::none(),
            print_faults: Faults::none(),
            tell_faults: Faults::none(),
        })
    }

    /// Opens the listeners at their addresses, and moves the folder to its path. False where any of it can't be.
    fn open(&mut self, tcp: &str, http: &str, path: &str) -> bool
        ensures http { IsTrue result → hears_http self.new ≡ true }
        ensures state { state_of self.new ≡ state_of self.old }
        ensures dial_faults { dial_faults_of self.new ≡ dial_faults_of self.old }
    {
        let Some(listeners) = listen(&self.rt, self.alloc, tcp, http) else {
            return false;
        };
        if !move_folder(&mut self.kit, path) {
            drop(listeners);
            return false;
        }
        put(&mut self.listeners, listeners);
        true
    }
}

/// Listens at these addresses. None where it can't, or without memory.
fn listen<N: Net + Clock + AllocGlobal + Clone + Drop>(
    rt: &N,
    alloc: Global,
    tcp: &str,
    http: &str,
) -> Option<Listeners<N>>
    ensures { IfSome result (λ listeners. has_http listeners ≡ true) }
{
    let rt: Result<_, _> = rt.clone();
    let Ok(rt) = rt else {
        return None;
    };
    Listeners::open(rt, alloc, tcp, Some(http)).ok()
}

/// Puts a value in its place. What stood there goes here, where nothing else is held beside it.
fn put<T: Drop>(place: &mut Option<T>, value: T)
    ensures { place.new ≡ Some value }
{
    drop(mem::replace(place, Some(value)));
}

/// A kit whose folder is the one that the process runs in.
fn kit_here<N: Files + Clock + AllocGlobal + Clone + Drop>(
    rt: &N,
    alloc: Global,
) -> Result<Kit<DirFolder<N>, SysClock<N>, Forgetful<Entry>>, Memory>
where
    N::File: FileExt,
{
    let clock = clock_here(rt)?;
    let folder = folder_here(rt, alloc)?;
    Ok(Kit {
        folder,
        clock,
        journal: Forgetful::new(alloc),
    })
}

/// The system's clock.
fn clock_here<N: Clock + Clone + Drop>(rt: &N) -> Result<SysClock<N>, Memory> {
    Ok(SysClock::new(rt.clone()?))
}

/// The folder that the process runs in.
fn folder_here<N: Files + AllocGlobal + Clone + Drop>(
    rt: &N,
    alloc: Global,
) -> Result<DirFolder<N>, Memory>
where
    N::File: FileExt,
{
    DirFolder::new(rt.clone()?, alloc, ".")
}

/// Moves the folder to its path. False where there is none, or without memory.
fn move_folder<N: Files + Clock + AllocGlobal + Clone + Drop>(
    kit: &mut Option<Kit<DirFolder<N>, SysClock<N>, Forgetful<Entry>>>,
    path: &str,
) -> bool
where
    N::File: FileExt,
    ensures { kit.new ≡ kit.old }
{
    match kit {
        Some(kit) => kit.folder.move_to(path).is_ok(),
        None => false,
    }
}

impl<N: Files + Clock> SysHost<N> {
    ghost use Rattle.std.specs.Prelude.{is_some};
    ghost use Rattle.nsqd_host.specs.SysHosts.{state_of};

    /// Whether its kit is at home: it is from the start, but between `lend` and `restore`.
    pub fn is_at_home(&self) -> bool
        ensures { result ≡ is_some (state_of self.now).kit }
    {
        self.kit.is_some()
    }

    /// How often `start` or `accept` failed.
    pub fn accept_faults(&self) -> u64
        ensures { result ≡ (state_of self.now).accept_faults }
    {
        self.accept_faults.count
    }

    /// How often `print` failed.
    pub fn print_faults(&self) -> u64
        ensures { result ≡ (state_of self.now).print_faults }
    {
        self.print_faults.count
    }

    /// How often `tell` failed.
    pub fn tell_faults(&self) -> u64
        ensures { result ≡ (state_of self.now).tell_faults }
    {
        self.tell_faults.count
    }
}

impl<N: Files + Clock + Net<Stream = TcpStream>> Dialer for SysHost<N> {
    ghost use Rattle.std.specs.Prelude.{false};
    ghost use Rattle.nsqd_host.specs.SysHosts.{state_of, no_dials, dial_faults_of};

    type Conn = TcpConn;

    ghost tells = { false };

    ghost dials = { no_dials };

    ghost dial_faults = { dial_faults_of };

    ghost may_dial = { λ a b. state_of b ≡ state_of a };

    fn dial<R: Wait>(&mut self, rt: &R, address: &str) -> Dialled<TcpConn> {
        self.dialer.dial(rt, address)
    }

    ghost dial_faults_fit = { λ host. host.dialer.faults.fits };
}

impl<
    N: Files + Clock + Net<Stream = TcpStream> + Print + Eprint + AllocGlobal + Clone + Drop + Send,
> Host<Entry> for SysHost<N>
where
    N::File: FileExt + Send,
{
    ghost use Rattle.std.specs.Prelude.{refl, false, IsTrue, None};
    ghost use Rattle.std.proofs.lemmas.Bool.{false≢true};
    ghost use Rattle.nsq_outside.specs.Hosts.{Accepts, AcceptFails, OnlyAcceptFaults};
    ghost use Rattle.nsq_system.specs.Listeners.{GoesOn, IsFreshTcpCaller, Speaks};
    ghost use Rattle.nsq_system.specs.TcpConns.{no_bytes};
    ghost use Rattle.nsqd_host.specs.SysHosts.{no_content, state_of, no_dials, dial_faults_of};

    type Folder = DirFolder<N>;

    type Clock = SysClock<N>;

    type Journal = Forgetful<Entry>;

    ghost content = { no_content };

    ghost state = { state_of };

    fn start<R: Wait>(&mut self, _rt: &R, tcp: &str, http: &str, path: &str) -> Did {
        if self.open(tcp, http, path) {
            return Did::Done;
        }
        self.accept_faults.add();
        Did::Failed
    }

    fn accept<R: Wait>(&mut self, _rt: &R) -> Accept<TcpConn>
        ensures goes_on { GoesOn result }
        ensures speaks { Speaks result }
        ensures content { IsTrue false → Accepts no_bytes (no_content self.old) (no_content self.new) result }
        ensures fresh { IsFreshTcpCaller result }
        ensures state { OnlyAcceptFaults (state_of self.old) (state_of self.new) }
        ensures cause { AcceptFails (state_of self.old).accept_faults (state_of self.new).accept_faults result }
        ensures dials { no_dials self.new ≡ no_dials self.old }
        ensures dial_faults { dial_faults_of self.new ≡ dial_faults_of self.old }
    {
        let Some(listeners) = &mut self.listeners else {
            self.accept_faults.add();
            return Accept::Failed;
        };
        let accepted = listeners.accept();
        match &accepted {
            Accept::Failed => self.accept_faults.add(),
            Accept::Caller(_, _) | Accept::Nothing | Accept::Halt => {}
        }
        accepted
    }

    fn done(&mut self, _number: u64, conn: TcpConn) {
        // This sends what the connection has gathered, and closes it.
        drop(conn);
    }

    fn lend(&mut self) -> Kit<DirFolder<N>, SysClock<N>, Forgetful<Entry>> {
        match self.kit.take() {
            Some(
                Kit {
                    folder,
                    clock,
                    journal: _,
                },
            ) => Kit {
                folder,
                clock,
                journal: Forgetful::new(self.alloc),
            },
            None => unreachable!(),
        }
    }

    fn restore(&mut self, home: Kit<DirFolder<N>, SysClock<N>, Forgetful<Entry>>)
        requires { (state_of self.old).kit ≡ None }
        ensures content { no_content self.new ≡ no_content self.old }
        ensures state { state_of self.new ≡ record (state_of self.old) { kit = Some home } }
        ensures dials { no_dials self.new ≡ no_dials self.old }
        ensures dial_faults { dial_faults_of self.new ≡ dial_faults_of self.old }
    {
        put(&mut self.kit, home);
    }

    fn beside(&self) -> bool {
        false
    }

    fn print<R: Wait>(&mut self, _rt: &R, text: &[u8]) -> Did {
        // The kit writes through: no buffer is left to flush.
        match self.rt.write_all(text) {
            Ok(()) => Did::Done,
            Err(_) => {
                self.print_faults.add();
                Did::Failed
            }
        }
    }

    fn tell<R: Wait>(&mut self, _rt: &R, line: &[u8]) {
        if self.rt.eprintln(Line(line)).is_err() {
            self.tell_faults.add();
        }
    }

    ghost dial_keeps = { λ a b h. (refl, h) };

    ghost back_given = { λ h told. absurd (false≢true told) };

    ghost faults_fit = { λ h. record { accept = h.accept_faults.fits; print = h.print_faults.fits; tell = h.tell_faults.fits } };
}

/// A line that is told. What isn't UTF-8 in it shows as the replacement character.
#[derive(Clone, Copy)]
struct Line<'a>(&'a [u8]);

impl fmt::Display for Line<'_> {
    fn fmt<W: fmt::Write>(&self, f: &mut fmt::Formatter<W>) -> fmt::Result {
        for chunk in self.0.utf8_chunks() {
            f.write_str(chunk.valid())?;
            if !chunk.invalid().is_empty() {
                f.write_str("\u{fffd}")?;
            }
        }
        Ok(())
    }
}
