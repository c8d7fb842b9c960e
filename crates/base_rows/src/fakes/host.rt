//! Rows of a host in memory.
//!
//! A row is a text: its name; then, with a `,` between them, its callers, each its kind and the one piece that it sends, if any; the piece of
//! each connection for dials; whether it runs `beside` or `alone`; who is `served` between its start and its steps, a kind or `nobody`, or
//! `-` where it isn't started; and the numbers of the accepts and starts, of the prints and of the tells that fail. Behind that are steps
//! with a `;` between them. Whoever is served or linked is sent back the first piece that it sends, up to 8 bytes. A step is a call with its
//! answer, or what the host keeps:
//!
//! - `start`, `print BYTES`: `done` or `failed`. `accept`: the caller's kind, `nothing`, `halt` or `failed`. `dial ADDRESS`: `linked` or
//!   `failed`. `tell LINE`.
//! - `printed BYTES`; `lines`, what it was told, and `asked`, the addresses that it dialled, with a `|` between them; `given`, the kinds of
//!   the callers that it gave; `back`, what was written to each connection that came back, behind its number; `faults`, how many accepts and
//!   starts, prints and tells failed; `started`, once and with the address of HTTP; `noted`, the reading of the clock by itself.

ghost use Rattle.std.specs.Prelude.{◌≡◌, ◌≤◌, [], false, IsTrue, IsSome, length};
ghost use Rattle.nsq_fakes.specs.MemHosts.{content_of, state_of};

use super::journal::{Seen, keeps};
use super::{are, made_conn};
use crate::words::{cut, halves, is, is_did, is_first, is_kind, is_number, kind_of, numbers, part};
use crate::{check, same};
use nsq_fakes::{MemClock, MemConn, MemFolder, MemHost, MemJournal, Start};
use nsq_outside::{
    Accept, Clock, Conn, Dialled, Did, End, Host, Journal, Kind, Kit, Read, dial, get, put,
};
use std::alloc::Global;
use std::process::Abort;
use std::sync::Wait;

static ROWS: &'static str = "
a caller is served through the bounds
        http GET /ping, , beside, http, , ,
        accept = halt; started; noted; beside; given http; printed; back 1 GET /pin; lines; asked

a dial gives the next connection, until none is left
        , hi, alone, nobody, , ,
        dial 127.0.0.1:4160 = linked; dial 127.0.0.1:4161 = failed; accept = halt; started; noted; alone; given; printed; back 2 hi; lines;
        asked 127.0.0.1:4160|127.0.0.1:4161

a host keeps what it is told
        , , beside, nobody, , ,
        print a = done; print b = done; tell c; accept = halt; started; noted; beside; given; printed ab; back; lines c; asked

the caller of an accept that fails comes with the next
        tcp, , alone, -, 0, ,
        accept = failed; accept = tcp; accept = halt; printed; lines; faults 1 0 0

starts and accepts are counted together
        tcp; http, , alone, -, 0 3, ,
        start = failed; start = done; accept = tcp; accept = failed; accept = http; printed; lines; faults 2 0 0

an accept with nobody to come isn't counted
        , , alone, -, 0, ,
        accept = halt; start = failed; printed; lines; faults 1 0 0

a print that fails prints nothing
        , , alone, -, , 1,
        print a = done; print b = failed; printed a; lines; faults 0 1 0

a line that fails isn't told
        , , alone, -, , , 0
        tell a; tell b; printed; lines b; faults 0 0 1
";

/// Sends back the first piece of a connection.
fn echo<R: Wait, K: Conn>(rt: &R, conn: &mut K) {
    let mut buffer = [0u8; 8];
    if let Read::Got(count) = get(rt, conn, &mut buffer) {
        let _ = put(rt, conn, &buffer[..count]);
    }
}

/// Notes a reading of the clock.
fn note_time<C: Clock, J: Journal<Seen>>(clock: &mut C, journal: &mut J)
    requires { J.is_aside journal.old ≡ false }
    ensures { J.is_aside journal.new ≡ false }
{
    let moment = clock.now();
    if journal.ready(&Seen(moment)).is_ok() {
        journal.note(End::Done);
    }
}

/// Serves a caller, and gives its kind.
fn serve_caller<R: Wait, H: Host<Seen>>(rt: &R, host: &mut H) -> Option<Kind>
    requires room { IsTrue H.tells → length (H.content host.old).back ≤ length (H.content host.old).given }
    ensures kit { (H.state host.new).kit ≡ (H.state host.old).kit }
{
    match host.accept(rt) {
        Accept::Caller(kind, mut conn) => {
            echo(rt, &mut conn);
            host.done(1, conn);
            Some(kind)
        }
        Accept::Nothing | Accept::Halt | Accept::Failed => None,
    }
}

/// Serves one caller while the kit is out, and gives its kind.
fn serve_one<R: Wait, H: Host<Seen>>(rt: &R, host: &mut H) -> Option<Kind>
    requires home { IsSome (H.state host.old).kit }
    requires room { IsTrue H.tells → length (H.content host.old).back ≤ length (H.content host.old).given }
{
    if host.start(rt, "127.0.0.1:4150", "127.0.0.1:4151", "data") == Did::Failed {
        return None;
    }
    let mut kit = host.lend();
    note_time(&mut kit.clock, &mut kit.journal);
    let kind = serve_caller(rt, host);
    host.restore(kit);
    kind
}

/// Dials an address, sends back the first piece, and hands the connection back. What a dial answers.
fn serve_link<R: Wait, H: Host<Seen>>(rt: &R, host: &mut H, address: &str) -> &'static str {
    match dial(rt, host, address) {
        Dialled::Linked(mut conn) => {
            echo(rt, &mut conn);
            host.done(2, conn);
            "linked"
        }
        Dialled::Failed => "failed",
    }
}

/// A kit with the clock at 7.
fn home_kit(rt: &impl Abort, alloc: Global) -> Kit<MemFolder, MemClock, MemJournal<Seen>> {
    let folder = MemFolder::new(alloc, Vec::new(alloc), Vec::new(alloc)).expect(rt, "memory");
    let clock = MemClock::new(alloc, [7].to_vec(alloc).expect(rt, "memory")).expect(rt, "memory");
    let journal = MemJournal::new(alloc);
    Kit {
        folder,
        clock,
        journal,
    }
}

/// A host with these callers, and these connections for dials. Its kit is at home, and no connection came back yet.
fn made(rt: &impl Abort, alloc: Global, callers: &str, dialled: &str, beside: bool) -> MemHost<Seen>
    ensures home { IsSome (state_of result).kit }
    ensures back { (content_of result).back ≡ [] }
{
    let mut calling = Vec::new(alloc);
    push_callers(rt, alloc, callers, &mut calling);
    let mut waiting = Vec::new(alloc);
    if !dialled.is_empty() {
        waiting
            .push(made_conn(rt, alloc, dialled, "", ""))
            .expect(rt, "memory");
    }
    MemHost::new(alloc, calling, waiting, home_kit(rt, alloc), beside).expect(rt, "memory")
}

fn push_callers(rt: &impl Abort, alloc: Global, callers: &str, list: &mut Vec<(Kind, MemConn)>) {
    for caller in callers.split(';') {
        let (kind, piece) = cut(caller.trim());
        if !kind.is_empty() {
            list.push((kind_of(rt, kind), made_conn(rt, alloc, piece, "", "")))
                .expect(rt, "memory");
        }
    }
}

/// Whether an accept answers so.
fn came(accept: Accept<MemConn>, answer: &str) -> bool {
    match accept {
        Accept::Caller(kind, _conn) => is_kind(kind, answer),
        Accept::Nothing => is(answer, "nothing"),
        Accept::Halt => is(answer, "halt"),
        Accept::Failed => is(answer, "failed"),
    }
}

/// Whether these connections came back: one, or none where the text is empty.
fn is_back(back: &[(u64, MemConn)], want: &str) -> bool {
    let (number, bytes) = cut(want);
    match back.first() {
        Some((which, conn)) => {
            back.len() == 1
                && is_number(*which, number)
                && same(conn.bytes_written(), bytes.as_bytes())
        }
        None => want.is_empty(),
    }
}

/// Whether the addresses that were asked for are these, in order.
fn is_asked(asked: &[String], want: &str) -> bool {
    let mut all = true;
    let mut left = want;
    for address in asked {
        let (one, behind) = halves(left, "|");
        all = all && !one.is_empty() && is(address.as_str(), one);
        left = behind;
    }
    all && left.is_empty()
}

/// Whether callers of these kinds were given: one, or none where the text is empty.
fn is_given(given: &[Kind], want: &str) -> bool {
    match given.first() {
        Some(kind) => given.len() == 1 && is_kind(*kind, want),
        None => want.is_empty(),
    }
}

/// Whether a host was started once, with the address of HTTP.
fn is_started(starts: &[Start]) -> bool {
    match starts.first() {
        Some(start) => starts.len() == 1 && is(start.http.as_str(), "127.0.0.1:4151"),
        None => false,
    }
}

/// Whether a host failed so often to accept or start, to print and to tell.
fn is_faulty(host: &MemHost<Seen>, want: &str) -> bool {
    let (accepts, rest) = cut(want);
    let (prints, tells) = cut(rest);
    is_number(host.accept_faults(), accepts)
        && is_number(host.print_faults(), prints)
        && is_number(host.tell_faults(), tells)
}

/// Whether the kit of a host noted the reading of the clock.
fn is_noted(host: &MemHost<Seen>) -> bool {
    match host.kit() {
        Some(kit) => keeps(&kit.journal, &[(7, End::Done)]),
        None => false,
    }
}

/// Whether a host keeps this.
fn has(host: &MemHost<Seen>, what: &str, want: &str) -> bool {
    match what {
        "printed" => same(host.printed(), want.as_bytes()),
        "lines" => are(host.lines(), want),
        "asked" => is_asked(host.asked(), want),
        "given" => is_given(host.given(), want),
        "back" => is_back(host.back(), want),
        "faults" => is_faulty(host, want),
        "started" => is_started(host.starts()),
        "noted" => is_noted(host),
        "beside" => host.beside(),
        "alone" => !host.beside(),
        _ => false,
    }
}

/// Whether a host answers a call so, or keeps what a step says.
fn goes<R: Wait>(rt: &R, host: &mut MemHost<Seen>, step: &str) -> bool {
    let (call, answer) = halves(step, " = ");
    let (what, rest) = cut(call);
    match what {
        "start" => is_did(
            host.start(rt, "127.0.0.1:4150", "127.0.0.1:4151", "data"),
            answer,
        ),
        "accept" => came(host.accept(rt), answer),
        "dial" => is(answer, serve_link(rt, host, rest)),
        "print" => is_did(host.print(rt, rest.as_bytes()), answer),
        "tell" => {
            host.tell(rt, rest.as_bytes());
            true
        }
        _ => has(host, what, rest),
    }
}

/// Whether all steps of a host go so.
fn all_go<R: Wait>(rt: &R, host: &mut MemHost<Seen>, steps: &str) -> bool {
    let mut all = true;
    for step in steps.split(';') {
        all = goes(rt, host, step.trim()) && all;
    }
    all
}

/// Serves one caller, and says whether it was this.
fn serves<R: Wait>(rt: &R, host: &mut MemHost<Seen>, want: &str) -> bool
    requires home { IsSome (state_of host.old).kit }
    requires back { (content_of host.old).back ≡ [] }
{
    match serve_one(rt, host) {
        Some(kind) => is_kind(kind, want),
        None => is(want, "nobody"),
    }
}

/// Drops a host.
fn let_go(_host: MemHost<Seen>) {}

fn holds<R: Abort + Wait>(rt: &R, alloc: Global, row: &str) -> bool {
    let (_, row) = part(rt, row, "\n");
    let (given, steps) = part(rt, row, "\n");
    let (callers, given) = part(rt, given, ",");
    let (dialled, given) = part(rt, given, ",");
    let (beside, given) = part(rt, given, ",");
    let (served, fails) = part(rt, given, ",");
    let (accepts, fails) = part(rt, fails, ",");
    let (prints, tells) = part(rt, fails, ",");
    let served = served.trim();
    let beside = is_first(rt, beside.trim(), "beside", "alone");
    let mut host = made(rt, alloc, callers, dialled.trim(), beside);
    let served = is(served, "-") || serves(rt, &mut host, served);
    host.fail_at(
        numbers(rt, alloc, accepts),
        numbers(rt, alloc, prints),
        numbers(rt, alloc, tells),
    );
    let all = all_go(rt, &mut host, steps) && served;
    let_go(host);
    all
}

#[test]
fn rows(rt: HostRuntime) {
    for row in ROWS.trim().split("\n\n") {
        check(&rt, holds(&rt, rt.alloc(), row), row);
    }
}
