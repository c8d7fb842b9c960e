//! A floor in memory with its clock and its options: the turns of clients and the daemon, and connections that are served at it. What has no memory for its
//! turn goes otherwise than it must.

ghost use Rattle.std.specs.Prelude.{◌<◌, IfSome};
ghost use Rattle.broker_history.specs.Calls.{CanCall};

use crate::conn::WatchedConn;
use crate::floor::{MemFloor, floor_of, options_of};
use crate::text::word_of;
use broker_history::{Call, FloorDesk, Turned, Turner};
use daemon_callers::{EndedHttp, serve_http, serve_v2};
use nsq_base::Options;
use nsq_fakes::MemFolder;
use nsq_outside::Kit;
use std::alloc::Global;
use std::process::Abort;
use std::sync::Wait;
use std::sync::atomic::{AtomicU64, Ordering};
use v2_frame::{Got, Limits, Reader};

// More than the messages of any client.
const MANY: usize = 100;

// The limits of each connection, those of the default options.
const LIMITS: Limits = Limits {
    msg: 1_048_576,
    body: 5_242_880,
};

/// How bytes come.
#[derive(Clone, Copy)]
pub struct Way {
    /// How many bytes of a caller of HTTP come at a time.
    pub size: usize,
    /// Before which byte the piece of a `client-cut` is cut in two; 0 where it isn't.
    pub place: usize,
}

/// A floor in memory, its clock, and what it was opened with. It's ended and not dropped.
pub struct Bench<'a> {
    pub alloc: Global,
    pub clock: &'a AtomicU64,
    pub way: Way,
    /// How many bytes a `client-cut` sent.
    pub sent: usize,
    floor: MemFloor<'a>,
    options: Options,
    // The number of the last client of V2, and that of the last caller of HTTP.
    client: u64,
    caller: u64,
}

/// A floor over an empty folder, opened as these lines say; its clock is this.
pub fn bench_of<'a>(
    rt: &impl Abort,
    alloc: Global,
    lines: &str,
    way: Way,
    clock: &'a AtomicU64,
) -> Bench<'a> {
    let mut fails = Vec::new(alloc);
    let options = options_of(rt, alloc, lines, clock, &mut fails);
    let floor = floor_of(rt, alloc, &options, clock, fails);
    Bench {
        alloc,
        clock,
        way,
        sent: 0,
        floor,
        options,
        client: 0,
        caller: 999,
    }
}

impl Bench<'_> {
    /// The clock shows this moment from now on.
    pub fn show(&mut self, moment: u64) {
        self.clock.store(moment, Ordering::SeqCst);
    }

    /// Whether a call of this number is answered, and by something else than that it is strange.
    pub fn turn(&mut self, number: u64, call: Call) -> bool
        requires { CanCall call }
    {
        !matches!(self.go(number, call), Went::Wrong)
    }

    // Makes a call of this number.
    fn go(&mut self, number: u64, call: Call) -> Went
        requires { CanCall call }
    {
        let turned = self.floor.take_turn(self.alloc, number, call);
        let went = went_of(&turned);
        let_turned_go(turned);
        went
    }

    /// Whether a client may send this.
    pub fn says(&mut self, rt: &impl Abort, number: u64, command: &[u8]) -> bool {
        match call_of(rt, self.alloc, command) {
            Some(call) => self.turn(number, call),
            None => false,
        }
    }

    /// Sends a client all that it may get. Whether that has an end.
    pub fn sends(&mut self, number: u64) -> bool {
        for _ in 0..MANY {
            match self.go(number, Call::Next) {
                Went::Sent => {}
                Went::Wrong => return false,
                Went::Well => return true,
            }
        }
        false
    }

    /// Serves a client of V2, and says how its connection ended.
    pub fn serve_client<R: Wait>(&mut self, rt: &R, conn: &mut WatchedConn<'_>) -> &'static str {
        let number = self.client.saturating_add(1);
        self.client = number;
        let mut desk = FloorDesk {
            floor: &mut self.floor,
            number,
            wanted: 0,
        };
        word_of(serve_v2(rt, self.alloc, number, conn, &mut desk, LIMITS))
    }

    /// Serves a caller of HTTP, and says how its connection ended.
    pub fn serve_caller<R: Wait>(&mut self, rt: &R, conn: &mut WatchedConn<'_>) -> &'static str {
        if !self.options.in_range() {
            return "options that none has";
        }
        let number = self.caller.saturating_add(1);
        self.caller = number;
        let began = self.floor.began();
        let mut desk = FloorDesk {
            floor: &mut self.floor,
            number,
            wanted: 0,
        };
        let options = &self.options;
        called(serve_http(rt, self.alloc, number, conn, &mut desk, options, began))
    }

    /// Ends the floor, and gives the folder that it stood on.
    pub fn end(self) -> MemFolder {
        let Bench {
            alloc: _,
            clock: _,
            way: _,
            sent: _,
            floor,
            options,
            client: _,
            caller: _,
        } = self;
        drop(options);
        let Kit {
            folder,
            clock: _clock,
            journal: _journal,
        } = floor.end();
        folder
    }
}

// What a turn came to.
#[derive(Clone, Copy)]
enum Went {
    // Something is to be sent.
    Sent,
    // It was answered in another way.
    Well,
    // There was no memory for it, or its number is strange.
    Wrong,
}

fn went_of(turned: &Turned) -> Went {
    match turned {
        Turned::Send(_) => Went::Sent,
        Turned::Memory | Turned::Strange => Went::Wrong,
        _ => Went::Well,
    }
}

// Takes a turn's answer apart.
fn let_turned_go(_turned: Turned) {}

// The word for how a connection of HTTP ended.
fn called(ended: EndedHttp) -> &'static str {
    match ended {
        EndedHttp::Answered => "answered",
        EndedHttp::EndOfInput => "end",
        EndedHttp::Cut => "cut",
        EndedHttp::Closed => "closed",
        EndedHttp::ReadFault => "read fault",
        EndedHttp::WriteFault => "write fault",
        EndedHttp::Memory => "memory",
    }
}

// Takes a reader apart.
fn let_reader_go(_reader: Reader) {}

// The call that a client's bytes behind its first four are; none where they are no whole command.
fn call_of(rt: &impl Abort, alloc: Global, command: &[u8]) -> Option<Call>
    ensures { IfSome result CanCall }
{
    let mut reader = Reader::new(alloc, LIMITS).expect(rt, "memory");
    reader.feed(b"  V2").expect(rt, "memory");
    reader.feed(command).expect(rt, "memory");
    let got = reader.next();
    let_reader_go(reader);
    match got {
        Got::Whole(command) => Some(Call::Command(command)),
        Got::Fault(fault) => Some(Call::Bad(fault)),
        Got::More | Got::Memory => None,
    }
}
