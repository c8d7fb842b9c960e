//! Random numbers, and random callers and disks.

ghost use Rattle.std.specs.Prelude.{◌≤◌, ◌<◌};

use crate::hosts::push_piece;
use crate::texts::{part, put, put_text};
use nsq_fakes::{Failing, FolderCall, Piece};
use std::alloc::Global;
use std::process::Abort;

/// Random numbers.
#[derive(Clone, Copy)]
pub struct Dice {
    state: u64,
}

// What a client says, 24 commands. Most of it fits somewhere.
static COMMANDS: &'static str = r#"PUB t\n\0\0\0\x01x
PUB t\n\0\0\0\x02yy
PUB t\n\0\0\0\x03zzz
PUB u#ephemeral\n\0\0\0\x01x
MPUB t\n\0\0\0\x0f\0\0\0\x02\0\0\0\x02aa\0\0\0\x01b
DPUB t 0\n\0\0\0\x01d
DPUB t 300\n\0\0\0\x02dd
RDY 1\n
RDY 2\n
RDY 5\n
RDY 0\n
NOP\n
NOP\n
CLS\n
SUB t a\n
SUB t b#ephemeral\n
SUB u#ephemeral a\n
IDENTIFY\n\0\0\0\x02{}
IDENTIFY\n\0\0\0\x19{"heartbeat_interval":-1}
PUB t\n\0\0\0\0
MPUB t\n\0\0\0\x08\0\0\0\x02\0\0\0\x01
DPUB t 3600001\n\0\0\0\x01d
PUB a b\n
HELLO\n"#;

// How a client begins that waits for messages, in 4 ways.
static BEGINNINGS: &'static str = r#"SUB t a\nRDY 1\n
SUB t a\nRDY 5\n
SUB t b#ephemeral\nRDY 2\n
IDENTIFY\n\0\0\0\x1b{"heartbeat_interval":1000}SUB t a\nRDY 3\n"#;

// What is done with a message, 6 times: what stands before its id, and behind it.
static HANDLINGS: &'static str = r#"FIN @\n
FIN @\n
FIN @\n
TOUCH @\n
REQ @ 0\n
REQ @ 500\n"#;

// What a caller of HTTP sends, 32 requests. Most of it fits somewhere.
static REQUESTS: &'static str = r#"POST /pub?topic=t HTTP/1.1\r\nContent-Length: 1\r\n\r\nx
POST /pub?topic=t HTTP/1.1\r\nHost: h\r\nContent-Length: 2\r\n\r\nyy
POST /pub?topic=u%23ephemeral HTTP/1.1\r\nContent-Length: 1\r\n\r\nx
POST /pub?topic=t&defer=0 HTTP/1.1\r\nContent-Length: 1\r\n\r\nd
POST /pub?topic=t&defer=300 HTTP/1.1\r\nContent-Length: 1\r\n\r\nd
POST /mpub?topic=t HTTP/1.1\r\nContent-Length: 5\r\n\r\naa\n\nb
POST /mpub?topic=t&binary=true HTTP/1.1\r\nContent-Length: 15\r\n\r\n\0\0\0\x02\0\0\0\x02aa\0\0\0\x01b
GET /stats?format=json HTTP/1.1\r\n\r\n
GET /stats?format=json HTTP/1.0\r\n\r\n
GET /stats?format=json&topic=t&channel=a HTTP/1.1\r\n\r\n
POST /topic/create?topic=t HTTP/1.1\r\n\r\n
POST /channel/create?topic=t&channel=a HTTP/1.1\r\n\r\n
POST /channel/create?topic=t&channel=b%23ephemeral HTTP/1.1\r\n\r\n
POST /topic/pause?topic=t HTTP/1.1\r\n\r\n
POST /topic/unpause?topic=t HTTP/1.1\r\n\r\n
POST /channel/pause?topic=t&channel=a HTTP/1.1\r\n\r\n
POST /channel/unpause?topic=t&channel=a HTTP/1.1\r\n\r\n
POST /topic/empty?topic=t HTTP/1.1\r\n\r\n
POST /channel/empty?topic=t&channel=a HTTP/1.1\r\n\r\n
POST /channel/delete?topic=t&channel=a HTTP/1.1\r\n\r\n
POST /topic/delete?topic=t HTTP/1.1\r\n\r\n
POST /stop HTTP/1.1\r\n\r\n
POST /stop HTTP/1.1\r\n\r\nGET /ping HTTP/1.1\r\n\r\n
GET /ping HTTP/1.1\r\n\r\n
GET /info HTTP/1.1\r\n\r\n
GET /x HTTP/1.1\r\n\r\n
GET /pub?topic=t HTTP/1.1\r\n\r\n
POST /pub?topic=t HTTP/1.1\r\n\r\n
POST /pub?topic=t HTTP/1.1\r\nContent-Length: 3\r\n\r\nxy
POST /pub?topic=t HTTP/1.1\r\nTransfer-Encoding: chunked\r\n\r\n1\r\nx\r\n0\r\n\r\n
POST /pub?topic=t HTTP/1.1\r\nContent-Length: 1073741824\r\n\r\nx
  V2PUB t\n\0\0\0\x01x\n\n"#;

impl Dice {
    /// Random numbers of this seed.
    pub fn new(seed: u64) -> Dice {
        Dice {
            state: seed.wrapping_mul(0x9e37_79b9_7f4a_7c15),
        }
    }

    /// The next random number below this one.
    pub fn below(&mut self, bound: u64) -> u64
        requires { 1 ≤ bound }
        ensures { result < bound }
    {
        self.state = self
            .state
            .wrapping_mul(6_364_136_223_846_793_005)
            .wrapping_add(1_442_695_040_888_963_407);
        (self.state >> 33) % bound
    }

    // Adds one of the first so many texts of these.
    fn add_one(&mut self, rt: &impl Abort, bytes: &mut Vec<u8>, texts: &'static str, count: u64)
        requires { 1 ≤ count }
    {
        let at = self.below(count) as usize;
        put_text(rt, bytes, texts.split('\n').nth(at).unwrap_or(""));
    }

    /// What a client sends in the run of this epoch, as bytes.
    pub fn stream(&mut self, rt: &impl Abort, alloc: Global, epoch: u64) -> Vec<u8> {
        let mut bytes = Vec::from_slice(alloc, b"  V2").expect(rt, "memory");
        if self.below(16) == 0 {
            put(rt, &mut bytes, b"x");
        }
        if self.below(3) != 0 {
            self.add_one(rt, &mut bytes, BEGINNINGS, 4);
        }
        for _ in 0..3 + self.below(10) {
            self.add_command(rt, &mut bytes, epoch);
        }
        bytes
    }

    /// What a caller of HTTP sends, as bytes.
    pub fn request(&mut self, rt: &impl Abort, alloc: Global) -> Vec<u8> {
        let mut bytes = Vec::new(alloc);
        self.add_one(rt, &mut bytes, REQUESTS, 32);
        bytes
    }

    fn add_command(&mut self, rt: &impl Abort, bytes: &mut Vec<u8>, epoch: u64) {
        if self.below(3) == 0 {
            return self.add_handling(rt, bytes, epoch);
        }
        // The first ones come more often, so that some clients go on for a while.
        let most = 1 + self.below(24);
        self.add_one(rt, bytes, COMMANDS, most);
    }

    // What is done with one of the first messages of a run.
    fn add_handling(&mut self, rt: &impl Abort, bytes: &mut Vec<u8>, epoch: u64) {
        let at = self.below(6) as usize;
        let digit = self.below(8) as usize;
        let handling = HANDLINGS.split('\n').nth(at).unwrap_or("");
        let (before, behind) = part(rt, handling, "@");
        put_text(rt, bytes, before);
        put_id(rt, bytes, epoch, digit);
        put_text(rt, bytes, behind);
    }

    /// These bytes, cut anywhere, with nothing between some pieces.
    pub fn pieces(&mut self, rt: &impl Abort, alloc: Global, bytes: &[u8]) -> Vec<Piece> {
        let mut pieces = Vec::new(alloc);
        let mut rest = bytes;
        for _ in 0..bytes.len() {
            if rest.is_empty() {
                break;
            }
            if self.below(3) == 0 {
                pieces.push(Piece::Nothing).expect(rt, "memory");
            }
            let length = 1 + self.below(60) as usize;
            let (piece, after) = rest.split_at(length.min(rest.len()));
            push_piece(rt, alloc, &mut pieces, piece);
            rest = after;
        }
        pieces
    }

    /// The numbers of reads or writes that fail: mostly none.
    pub fn failing(&mut self, rt: &impl Abort, alloc: Global) -> Vec<u64> {
        let mut numbers = Vec::new(alloc);
        if self.below(4) == 0 {
            numbers.push(self.below(12)).expect(rt, "memory");
        }
        numbers
    }

    /// Adds some calls of a folder that fail, of any method.
    pub fn add_faults(&mut self, rt: &impl Abort, fails: &mut Vec<Failing>) {
        for _ in 0..self.below(5) {
            let call = match self.below(4) {
                0 => FolderCall::WriteAt,
                1 => FolderCall::Rename,
                _ => FolderCall::Any,
            };
            let from = self.below(120);
            let to = from.wrapping_add(self.below(3)).wrapping_add(1);
            fails.push(Failing { call, from, to }).expect(rt, "memory");
        }
    }

    /// Adds the readings of a clock that mostly stands, and then goes on.
    pub fn add_readings(&mut self, rt: &impl Abort, readings: &mut Vec<u64>) {
        let mut moment: u64 = 0;
        for _ in 0..300 {
            moment = moment.saturating_add(match self.below(16) {
                0 => 1,
                1 => 300_000_000,
                2 => 1_000_000_000,
                _ => 0,
            });
            readings.push(moment).expect(rt, "memory");
        }
    }
}

// Adds the id of a message of the run of this epoch, one of its first ones.
fn put_id(rt: &impl Abort, bytes: &mut Vec<u8>, epoch: u64, digit: usize) {
    if epoch == 1 {
        put(rt, bytes, b"000001000000000");
    } else {
        put(rt, bytes, b"000002000000000");
    }
    let digits: &[u8] = b"01234567";
    let end = digit.saturating_add(1);
    put(rt, bytes, digits.get(digit..end).unwrap_or(b"0"));
}
