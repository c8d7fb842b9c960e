ghost use Rattle.std.specs.Prelude.{◌≡◌, ◌+◌, ◌<◌, ◌≤◌, ◌++◌, ◌∷◌, [], List, ℕ, map, drop, slice_get, false, true, None, Some, IsSomeAnd, IfOk, OnOk, OnErr, option_copied, string_bytes, length, vec_len, vec_capacity};
ghost use Rattle.nsq_fakes.specs.MemConns.{left_of, IsUnused, IsRestarted};

use crate::calls::Calls;
use crate::clock::MemClock;
use crate::conn::MemConn;
use crate::dialer::MemDialer;
use crate::folder::MemFolder;
use crate::journal::MemJournal;
use crate::start::Start;
use nsq_base::Memory;
use nsq_outside::{Accept, Dialer, Dialled, Did, Host, Kind, Kit, Twin};
use std::alloc::Global;
use std::collections::VecDeque;
use std::sync::Wait;

/// A host in memory: a list of callers, a list of connections that dials give, and a kit. It keeps what it is told.
///
/// It gives the callers in order, and answers `Halt` once they are used up. Past the last of its connections a dial fails.
/// What finds no memory to be kept fails too, and so do the accepts, starts, prints and tells that `fail_at` names. One of
/// these that fails changes nothing but the counts of calls and of faults.
#[derive(Drop)]
pub struct MemHost<E: Drop> {
    alloc: Global,
    dialer: MemDialer,
    starts: Vec<Start>,
    callers: VecDeque<(Kind, MemConn)>,
    given: Vec<Kind>,
    halted: bool,
    back: Vec<(u64, MemConn)>,
    printed: Vec<u8>,
    lines: Vec<Vec<u8>>,
    kit: Option<Kit<MemFolder, MemClock, MemJournal<E>>>,
    beside: bool,
    accepts: Calls,
    prints: Calls,
    tells: Calls,
    ghost room: { vec_len given + vec_len dialer.linked ≤ vec_capacity back },
    ghost order: { length back.items ≤ length given.items + length dialer.linked.items },
    ghost at_halt: { halted ≡ true → callers.items ≡ [] },
}

impl<E: Drop> MemHost<E> {
    ghost use Rattle.nsq_fakes.specs.MemHosts.{content_of, state_of, dials_of, dial_faults_of, callers_of, to_link_of, FailsAtHostCalls};

    /// A host with these callers, connections to be dialled and kit. `beside` says whether each caller gets a thread of its own.
    pub fn new(
        alloc: Global,
        callers: Vec<(Kind, MemConn)>,
        dialled: Vec<MemConn>,
        kit: Kit<MemFolder, MemClock, MemJournal<E>>,
        beside: bool,
    ) -> Result<MemHost<E>, Memory>
        ensures content { IfOk result (λ host. content_of host ≡ record { starts = []; coming = map (λ c. (c.0, left_of c.1)) callers.items; given = []; halted = false; back = []; printed = []; lines = [] }) }
        ensures dials { IfOk result (λ host. dials_of host ≡ record { asked = []; linked = []; coming = map left_of dialled.items }) }
        ensures dial_faults { IfOk result (λ host. dial_faults_of host ≡ 0) }
        ensures callers { IfOk result (λ host. callers_of host ≡ callers.items) }
        ensures to_link { IfOk result (λ host. to_link_of host ≡ dialled.items) }
        ensures state { IfOk result (λ host. state_of host ≡ record { kit = Some kit; beside = beside; accept_faults = 0; print_faults = 0; tell_faults = 0 }) }
        ensures fails { IfOk result (FailsAtHostCalls [] [] []) }
    {
        Ok(MemHost {
            alloc,
            dialer: MemDialer::new(alloc, dialled),
            starts: Vec::new(alloc),
            callers: VecDeque::from(callers),
            given: Vec::new(alloc),
            halted: false,
            back: Vec::new(alloc),
            printed: Vec::new(alloc),
            lines: Vec::new(alloc),
            kit: Some(kit),
            beside,
            accepts: Calls::new(Vec::new(alloc)),
            prints: Calls::new(Vec::new(alloc)),
            tells: Calls::new(Vec::new(alloc)),
        })
    }

    /// From now on the accepts and starts, the prints and the tells of these numbers fail, each counted from 0. Accepts and
    /// starts are counted together. An accept that finds nobody to come isn't counted, and answers `Halt`.
    pub fn fail_at(&mut self, accepts: Vec<u64>, prints: Vec<u64>, tells: Vec<u64>)
        ensures fails { FailsAtHostCalls accepts.items prints.items tells.items self.new }
        ensures content { content_of self.new ≡ content_of self.old }
        ensures state { state_of self.new ≡ state_of self.old }
        ensures dials { dials_of self.new ≡ dials_of self.old }
        ensures dial_faults { dial_faults_of self.new ≡ dial_faults_of self.old }
        ensures callers { callers_of self.new ≡ callers_of self.old }
        ensures to_link { to_link_of self.new ≡ to_link_of self.old }
    {
        self.accepts.fail_at(accepts);
        self.prints.fail_at(prints);
        self.tells.fail_at(tells);
    }

    /// The connections that it took back, each with its number.
    pub fn back(&self) -> &[(u64, MemConn)]
        ensures { result.now ≡ (content_of self.now).back }
    {
        &self.back
    }

    /// What was printed.
    pub fn printed(&self) -> &[u8]
        ensures { result.now ≡ (content_of self.now).printed }
    {
        &self.printed
    }

    /// The lines that it was told.
    pub fn lines(&self) -> &[Vec<u8>]
        ensures { map (λ line. line.items) result.now ≡ (content_of self.now).lines }
    {
        &self.lines
    }

    /// What it was started with.
    pub fn starts(&self) -> &[Start]
        ensures { result.now ≡ (content_of self.now).starts }
    {
        &self.starts
    }

    /// The kinds of the callers that it gave.
    pub fn given(&self) -> &[Kind]
        ensures { result.now ≡ (content_of self.now).given }
    {
        &self.given
    }

    /// The kit, where it is at home.
    pub fn kit(&self) -> Option<&Kit<MemFolder, MemClock, MemJournal<E>>>
        ensures { option_copied result ≡ (state_of self.now).kit }
    {
        self.kit.as_ref()
    }

    /// How often it failed to say who calls; at most 2^64 - 1, where the count stops.
    pub fn accept_faults(&self) -> u64
        ensures { result ≡ (state_of self.now).accept_faults }
    {
        self.accepts.faults.count
    }

    /// How often it failed to print; at most 2^64 - 1, where the count stops.
    pub fn print_faults(&self) -> u64
        ensures { result ≡ (state_of self.now).print_faults }
    {
        self.prints.faults.count
    }

    /// How often it failed to tell a line; at most 2^64 - 1, where the count stops.
    pub fn tell_faults(&self) -> u64
        ensures { result ≡ (state_of self.now).tell_faults }
    {
        self.tells.faults.count
    }

    /// The addresses that it was asked to dial. One for which it found no memory is missing.
    pub fn asked(&self) -> &[String]
        ensures { map string_bytes result.now ≡ (dials_of self.now).asked }
    {
        self.dialer.asked()
    }
}

impl<E: Drop> Dialer for MemHost<E> {
    ghost use Rattle.nsq_fakes.specs.MemHosts.{content_of, state_of, dials_of, dial_faults_of, callers_of, to_link_of, KeepsCalls};
    ghost use Rattle.nsq_fakes.specs.MemConns.{IsUnusedLink, LinksFirst};
    ghost use Rattle.nsq_outside.specs.Hosts.{Dials, LinkFails, LinkCounts};

    type Conn = MemConn;

    ghost tells = { true };

    ghost dials = { dials_of };

    ghost dial_faults = { dial_faults_of };

    ghost may_dial = { λ a b. (content_of b ≡ content_of a) × (state_of b ≡ state_of a) };

    fn dial<R: Wait>(&mut self, _rt: &R, address: &str) -> Dialled<MemConn>
        ensures told { Dials left_of (dials_of self.old) (dials_of self.new) address.now result }
        ensures fresh { IsUnusedLink result }
        ensures may { (content_of self.new ≡ content_of self.old) × (state_of self.new ≡ state_of self.old) }
        ensures faults { dial_faults_of self.old ≤ dial_faults_of self.new }
        ensures cause { LinkFails (dial_faults_of self.old) (dial_faults_of self.new) result }
        ensures counted { LinkCounts (dial_faults_of self.old) (dial_faults_of self.new) result }
        ensures first { LinksFirst (to_link_of self.old) (to_link_of self.new) result }
        ensures callers { callers_of self.new ≡ callers_of self.old }
        ensures calls { KeepsCalls self.old self.new }
    {
        if make_room(&mut self.back, &self.given, &self.dialer.linked).is_err() {
            self.dialer.faults.add();
            return Dialled::Failed;
        }
        self.dialer.dial(address)
    }

    ghost dial_faults_fit = { λ host. host.dialer.faults.fits };
}

impl<E: Drop + Twin + Send> Host<E> for MemHost<E> {
    ghost use Rattle.nsq_fakes.specs.MemHosts.{content_of, state_of, dials_of, dial_faults_of, callers_of, to_link_of, IsUnusedCaller, AnswersAtOnce, GivesFirst, KeepsCalls, CountsStart, CountsAccept, CountsPrint, CountsTell};
    ghost use Rattle.nsq_outside.specs.Hosts.{Starts, Accepts, AcceptFails, AcceptCounts, Prints, Tells, TellCounts, OnlyAcceptFaults, OnlyPrintFaults, OnlyTellFaults};
    ghost use Rattle.nsq_outside.specs.Causes.{DidFails, DidCounts};
    ghost use Rattle.nsq_fakes.specs.MemJournals.{kept_of, notes_of};
    ghost use Rattle.std.specs.Prelude.{IsSome, IfSome, is_some};
    ghost use Rattle.std.proofs.lemmas.List.{length-map};

    type Folder = MemFolder;

    type Clock = MemClock;

    type Journal = MemJournal<E>;

    ghost content = { content_of };

    ghost state = { state_of };

    fn start<R: Wait>(&mut self, _rt: &R, tcp: &str, http: &str, path: &str) -> Did
        ensures content { Starts (content_of self.old) (content_of self.new) tcp.now http.now path.now result }
        ensures state { OnlyAcceptFaults (state_of self.old) (state_of self.new) }
        ensures cause { DidFails (state_of self.old).accept_faults (state_of self.new).accept_faults result }
        ensures counted { DidCounts (state_of self.old).accept_faults (state_of self.new).accept_faults result }
        ensures dials { dials_of self.new ≡ dials_of self.old }
        ensures dial_faults { dial_faults_of self.new ≡ dial_faults_of self.old }
        ensures callers { callers_of self.new ≡ callers_of self.old }
        ensures to_link { to_link_of self.new ≡ to_link_of self.old }
        ensures calls { CountsStart self.old self.new result }
        ensures failed { result ≡ Did.Failed → content_of self.new ≡ content_of self.old }
    {
        if self.accepts.next_fails() {
            return Did::Failed;
        }
        if keep_start(self.alloc, &mut self.starts, tcp, http, path).is_err() {
            self.accepts.faults.add();
            return Did::Failed;
        }
        Did::Done
    }

    fn accept<R: Wait>(&mut self, _rt: &R) -> Accept<MemConn>
        ensures content { Accepts left_of (content_of self.old) (content_of self.new) result }
        ensures at_once { AnswersAtOnce (content_of self.old).coming result }
        ensures fresh { IsUnusedCaller result }
        ensures state { OnlyAcceptFaults (state_of self.old) (state_of self.new) }
        ensures cause { AcceptFails (state_of self.old).accept_faults (state_of self.new).accept_faults result }
        ensures counted { AcceptCounts (state_of self.old).accept_faults (state_of self.new).accept_faults result }
        ensures dials { dials_of self.new ≡ dials_of self.old }
        ensures dial_faults { dial_faults_of self.new ≡ dial_faults_of self.old }
        ensures first { GivesFirst (callers_of self.old) (callers_of self.new) result }
        ensures to_link { to_link_of self.new ≡ to_link_of self.old }
        ensures calls { CountsAccept self.old self.new result }
    {
        if self.callers.is_empty() {
            self.halted = true;
            return Accept::Halt;
        }
        if self.accepts.next_fails() {
            return Accept::Failed;
        }
        if room_for_caller(&mut self.back, &mut self.given, &self.dialer.linked).is_err() {
            self.accepts.faults.add();
            return Accept::Failed;
        }
        let (kind, conn) = first_caller(&mut self.callers);
        self.given.push_reserved(kind);
        Accept::Caller(kind, conn)
    }

    fn done(&mut self, number: u64, conn: MemConn)
        requires { length (content_of self.old).back < length (content_of self.old).given + length (dials_of self.old).linked }
        ensures content { content_of self.new ≡ record (content_of self.old) { back = (content_of self.old).back ++ (number, conn) ∷ [] } }
        ensures state { state_of self.new ≡ state_of self.old }
        ensures dials { dials_of self.new ≡ dials_of self.old }
        ensures dial_faults { dial_faults_of self.new ≡ dial_faults_of self.old }
        ensures callers { callers_of self.new ≡ callers_of self.old }
        ensures to_link { to_link_of self.new ≡ to_link_of self.old }
        ensures calls { KeepsCalls self.old self.new }
    {
        self.back.push_reserved((number, conn));
    }

    /// Lends the kit, which is at home. It drops the kit's journal, and lends a new and empty one in its place.
    fn lend(&mut self) -> Kit<MemFolder, MemClock, MemJournal<E>>
        requires { IsSome (state_of self.old).kit }
        ensures folder { IfSome (state_of self.old).kit (λ kit. result.folder ≡ kit.folder) }
        ensures clock { IfSome (state_of self.old).kit (λ kit. result.clock ≡ kit.clock) }
        ensures aside { is_some (kept_of result.journal) ≡ false }
        ensures empty { notes_of result.journal ≡ [] }
        ensures content { content_of self.new ≡ content_of self.old }
        ensures state { state_of self.new ≡ record (state_of self.old) { kit = None } }
        ensures dials { dials_of self.new ≡ dials_of self.old }
        ensures dial_faults { dial_faults_of self.new ≡ dial_faults_of self.old }
        ensures callers { callers_of self.new ≡ callers_of self.old }
        ensures to_link { to_link_of self.new ≡ to_link_of self.old }
        ensures calls { KeepsCalls self.old self.new }
    {
        match self.kit.take() {
            Some(
                Kit {
                    folder,
                    clock,
                    journal,
                },
            ) => Kit {
                folder,
                clock,
                journal: journal.renewed(),
            },
            None => unreachable!(),
        }
    }

    fn restore(&mut self, home: Kit<MemFolder, MemClock, MemJournal<E>>)
        requires { (state_of self.old).kit ≡ None }
        ensures content { content_of self.new ≡ content_of self.old }
        ensures state { state_of self.new ≡ record (state_of self.old) { kit = Some home } }
        ensures dials { dials_of self.new ≡ dials_of self.old }
        ensures dial_faults { dial_faults_of self.new ≡ dial_faults_of self.old }
        ensures callers { callers_of self.new ≡ callers_of self.old }
        ensures to_link { to_link_of self.new ≡ to_link_of self.old }
        ensures calls { KeepsCalls self.old self.new }
    {
        put_back(&mut self.kit, home);
    }

    fn beside(&self) -> bool {
        self.beside
    }

    fn print<R: Wait>(&mut self, _rt: &R, text: &[u8]) -> Did
        ensures content { Prints (content_of self.old) (content_of self.new) text.now result }
        ensures state { OnlyPrintFaults (state_of self.old) (state_of self.new) }
        ensures cause { DidFails (state_of self.old).print_faults (state_of self.new).print_faults result }
        ensures counted { DidCounts (state_of self.old).print_faults (state_of self.new).print_faults result }
        ensures dials { dials_of self.new ≡ dials_of self.old }
        ensures dial_faults { dial_faults_of self.new ≡ dial_faults_of self.old }
        ensures callers { callers_of self.new ≡ callers_of self.old }
        ensures to_link { to_link_of self.new ≡ to_link_of self.old }
        ensures calls { CountsPrint self.old self.new result }
        ensures failed { result ≡ Did.Failed → content_of self.new ≡ content_of self.old }
    {
        if self.prints.next_fails() {
            return Did::Failed;
        }
        if self.printed.extend_from_slice(text).is_err() {
            self.prints.faults.add();
            return Did::Failed;
        }
        Did::Done
    }

    fn tell<R: Wait>(&mut self, _rt: &R, line: &[u8])
        ensures content { Tells (content_of self.old) (content_of self.new) line.now (state_of self.old).tell_faults (state_of self.new).tell_faults }
        ensures state { OnlyTellFaults (state_of self.old) (state_of self.new) }
        ensures counted { TellCounts (content_of self.old) (content_of self.new) line.now (state_of self.old).tell_faults (state_of self.new).tell_faults }
        ensures dials { dials_of self.new ≡ dials_of self.old }
        ensures dial_faults { dial_faults_of self.new ≡ dial_faults_of self.old }
        ensures callers { callers_of self.new ≡ callers_of self.old }
        ensures to_link { to_link_of self.new ≡ to_link_of self.old }
        ensures calls { CountsTell self.old self.new }
    {
        if self.tells.next_fails() {
            return;
        }
        if keep_line(self.alloc, &mut self.lines, line).is_err() {
            self.tells.faults.add();
        }
    }

    ghost dial_keeps = { λ a b h. h };

    ghost back_given = { λ h told. Prim.simp length-map h.order };

    ghost faults_fit = { λ h. record { accept = h.accepts.faults.fits; print = h.prints.faults.fits; tell = h.tells.faults.fits } };
}

/// Makes room to take back one connection more than callers were given and dials were linked.
fn make_room(
    back: &mut Vec<(u64, MemConn)>,
    given: &Vec<Kind>,
    linked: &Vec<String>,
) -> Result<(), Memory>
    ensures items { back.new.items ≡ back.old.items }
    ensures capacity { vec_capacity back.old ≤ vec_capacity back.new }
    ensures room { OnOk result (vec_len given.now + vec_len linked.now + 1 ≤ vec_capacity back.new) }
{
    back.reserve(given.len() + linked.len() + 1)?;
    Ok(())
}

/// Makes room to give one caller more, and to take its connection back.
fn room_for_caller(
    back: &mut Vec<(u64, MemConn)>,
    given: &mut Vec<Kind>,
    linked: &Vec<String>,
) -> Result<(), Memory>
    ensures back { back.new.items ≡ back.old.items }
    ensures given { given.new.items ≡ given.old.items }
    ensures count { vec_len given.new ≡ vec_len given.old }
    ensures capacity { vec_capacity back.old ≤ vec_capacity back.new }
    ensures room { OnOk result (vec_len given.new + vec_len linked.now + 1 ≤ vec_capacity back.new) }
    ensures free { OnOk result (vec_len given.new < vec_capacity given.new) }
{
    back.reserve(given.len() + linked.len() + 1)?;
    given.reserve(1)?;
    Ok(())
}

/// Takes the first caller, its connection restarted.
fn first_caller(callers: &mut VecDeque<(Kind, MemConn)>) -> (Kind, MemConn)
    requires { 0 < length callers.old.items }
    ensures unused { IsUnused result.1 }
    ensures left { map {B = Kind × List ℕ} (λ c. (c.0, left_of c.1)) callers.old.items ≡ (result.0, left_of result.1) ∷ map (λ c. (c.0, left_of c.1)) callers.new.items }
    ensures first { IsSomeAnd (slice_get callers.old.items 0) (λ first. (first.0 ≡ result.0) × IsRestarted first.1 result.1) }
    ensures rest { callers.new.items ≡ drop 1 callers.old.items }
{
    let Some((kind, mut conn)) = callers.pop_front() else {
        unreachable!()
    };
    conn.restart();
    (kind, conn)
}

/// Puts a value in its place.
fn put_back<T: Drop>(place: &mut Option<T>, value: T)
    ensures { place.new ≡ Some value }
{
    *place = Some(value);
}

/// Appends copies of what a host was started with.
fn keep_start(
    alloc: Global,
    starts: &mut Vec<Start>,
    tcp: &str,
    http: &str,
    path: &str,
) -> Result<(), Memory>
    ensures ok { OnOk result (starts.new.items ≡ starts.old.items ++ record { tcp = tcp.now; http = http.now; path = path.now } ∷ []) }
    ensures err { OnErr result (starts.new.items ≡ starts.old.items) }
{
    starts.reserve(1)?;
    starts.push_reserved(start_of(alloc, tcp, http, path)?);
    Ok(())
}

/// Copies of what a host was started with.
fn start_of(alloc: Global, tcp: &str, http: &str, path: &str) -> Result<Start, Memory>
    ensures { IfOk result (λ start. start ≡ record { tcp = tcp.now; http = http.now; path = path.now }) }
{
    Ok(Start {
        tcp: String::from_str(alloc, tcp)?,
        http: String::from_str(alloc, http)?,
        path: String::from_str(alloc, path)?,
    })
}

/// Appends a copy of a line.
fn keep_line(alloc: Global, lines: &mut Vec<Vec<u8>>, line: &[u8]) -> Result<(), Memory>
    ensures ok { OnOk result (map (λ l. l.items) lines.new.items ≡ map (λ l. l.items) lines.old.items ++ line.now ∷ []) }
    ensures err { OnErr result (lines.new.items ≡ lines.old.items) }
{
    lines.reserve(1)?;
    lines.push_reserved(line.to_vec(alloc)?);
    Ok(())
}
