//! Rows of how a connection ends while its peer still sends.

ghost use Rattle.std.specs.Prelude.{◌<◌};
ghost use Rattle.nsq_outside.specs.Streams.{IsAmountRead};

use super::made_pair;
use crate::words::{cut, is_first, is_number, kind_of, part, unknown};
use crate::{check, same};
use nsq_outside::{Kind, Read, Sink, Source, Write};
use nsq_system::{Talker, TcpConn, hear_out};
use std::alloc::Global;
use std::io::{Read as _, Write as _};
use std::net::{Shutdown, TcpStream};
use std::process::Abort;
use std::sync::Wait;
use std::thread::{Threads, join};
use std::time::Duration;

/// What a peer in memory says to the reads of it.
#[derive(Clone, Copy)]
enum Speech {
    Silence,
    /// It gives what fits at each read.
    Flood,
    /// It gives a byte at each so-many-th read.
    Drip(u32),
    /// It floods up to a read of this number, and then it ends.
    Ends(u32),
    /// It floods up to a read of this number, which fails.
    Fails(u32),
}

/// A peer in memory. It counts how often it is read from and waited for.
#[derive(Drop)]
struct Scripted {
    speech: Speech,
    reads: u32,
    waits: u32,
}

/// The answer to a read of this number that has so much room.
fn answer(speech: Speech, read: u32, room: usize) -> Read
    requires { 0 < room }
    ensures { IsAmountRead result room }
{
    match speech {
        Speech::Drip(every) if every != 0 && read % every == 0 => Read::Got(1),
        Speech::Silence | Speech::Drip(_) => Read::Nothing,
        Speech::Ends(last) if last <= read => Read::End,
        Speech::Fails(last) if last <= read => Read::Failed,
        Speech::Flood | Speech::Ends(_) | Speech::Fails(_) => Read::Got(room),
    }
}

impl Talker for Scripted {
    ghost reads = { λ peer. peer.reads };

    ghost waits = { λ peer. peer.waits };

    fn read(&mut self, into: &mut [u8]) -> Read {
        self.reads = self.reads.saturating_add(1);
        answer(self.speech, self.reads, into.len())
    }

    fn wait(&mut self) {
        self.waits = self.waits.saturating_add(1);
    }
}

/// Rows of a connection that hears a peer in memory out: a name, what the peer says, and how often it is read from and waited for.
static HEARINGS: &'static str = "
the end is there: ends 1 = 1 0
the end behind some pieces: ends 5 = 5 0
a failure behind some pieces: fails 3 = 3 0
silence: silence = 201 200
a peer that sends for ever: flood = 4096 0
a peer that sends a byte now and then, for ever: drip 2 = 4001 2000
a byte that comes just before it is silent: drip 201 = 2011 2000
a byte that comes too late: drip 202 = 201 200
";

/// What these words say.
fn speech_of(rt: &impl Abort, words: &str) -> Speech {
    let (word, number) = cut(words);
    match word {
        "silence" => Speech::Silence,
        "flood" => Speech::Flood,
        "drip" => Speech::Drip(number.parse::<u32>().expect(rt, "a number")),
        "ends" => Speech::Ends(number.parse::<u32>().expect(rt, "a number")),
        "fails" => Speech::Fails(number.parse::<u32>().expect(rt, "a number")),
        _ => unknown(rt, word),
    }
}

fn hearing_holds(rt: &impl Abort, row: &str) -> bool {
    let (_, rest) = part(rt, row, ": ");
    let (speech, counts) = part(rt, rest, " = ");
    let (reads, waits) = part(rt, counts, " ");
    let mut peer = Scripted {
        speech: speech_of(rt, speech),
        reads: 0,
        waits: 0,
    };
    hear_out(&mut peer);
    is_number(u64::from(peer.reads), reads) && is_number(u64::from(peer.waits), waits)
}

/// Rows of a connection that is dropped while bytes of its peer are unread: a name, the kind, how many bytes the peer sends, as far as the system
/// takes them while nobody reads, and whether it goes on or sends no more after that.
static CLOSINGS: &'static str = "
HTTP, and the peer goes on listening: http 1000000 goes-on
HTTP, and the peer has ended: http 1000000 stops
the TCP protocol, a few bytes: tcp 11 goes-on
";

const ANSWER: &[u8] = b"too large";

/// The connection reads 10 bytes and writes an answer, and is dropped.
fn answers_and_closes<R: Wait>(rt: &R, mut conn: TcpConn) -> bool {
    let read = conn.read(rt, &mut [0u8; 10]);
    read == Read::Got(10) && conn.write(rt, ANSWER) == Write::Took(ANSWER.len())
}

/// Whether the peer gets the answer and the end behind it, and no reset.
fn gets_all(rt: &impl Abort, peer: &mut TcpStream) -> bool {
    let mut came = [0u8; 9];
    peer.read_exact(&mut came).expect(rt, "the answer");
    let answered = same(&came, ANSWER) && peer.read(&mut came).expect(rt, "the end") == 0;
    answered && peer.take_error().expect(rt, "what went wrong").is_none()
}

/// The peer sends so many bytes, and its reads wait at most a second. How much the system took.
fn sends(rt: &impl Abort, alloc: Global, peer: &mut TcpStream, count: &str) -> usize {
    peer.set_nonblocking(true).expect(rt, "a socket");
    let bytes = seven(rt, alloc, count);
    let sent = peer.write(&bytes).expect(rt, "a socket");
    peer.set_nonblocking(false).expect(rt, "a socket");
    peer.set_read_timeout(Some(Duration::from_secs(1)))
        .expect(rt, "a socket");
    sent
}

/// So many bytes of the value 7.
fn seven(rt: &impl Abort, alloc: Global, count: &str) -> Vec<u8> {
    let count = count.parse::<usize>().expect(rt, "a number");
    vec![in alloc; 7; count].expect(rt, "memory")
}

fn closing_holds<R: Abort + Wait>(rt: &R, own: &HostRuntime, row: &str) -> bool {
    let (_, rest) = part(rt, row, ": ");
    let (kind, rest) = part(rt, rest, " ");
    let (count, then) = part(rt, rest, " ");
    let (conn, mut peer) = made_pair(rt, own, kind_of(rt, kind));
    let sent = sends(rt, own.alloc(), &mut peer, count);
    if is_first(rt, then, "stops", "goes-on") {
        peer.shutdown(Shutdown::Write).expect(rt, "a socket");
    }
    let all = answers_and_closes(rt, conn);
    10 < sent && all && gets_all(rt, &mut peer)
}

/// Rows of a connection of HTTP that is dropped before the rest of its peer's request is there: a name, and how many bytes more the peer sends
/// once the answer is there.
static LATES: &'static str = "
a body that comes behind the answer: 1000000
the peer ends behind the answer: 0
";

/// The peer's side: ten bytes, and once the answer is there the body and the end. Whether it gets the answer and no reset.
fn sends_late(rt: &impl Abort, mut peer: TcpStream, body: &[u8]) -> bool {
    peer.set_read_timeout(Some(Duration::from_secs(5)))
        .expect(rt, "a socket");
    peer.write_all(b"ten bytes.").expect(rt, "a socket");
    let seen = peer.peek(&mut [0u8; 1]).expect(rt, "the answer");
    peer.write_all(body).expect(rt, "a socket");
    peer.shutdown(Shutdown::Write).expect(rt, "a socket");
    seen == 1 && gets_all(rt, &mut peer)
}

fn late_holds<R: Abort + Wait + Threads + Sync>(rt: &R, own: &HostRuntime, row: &str) -> bool {
    let (_, count) = part(rt, row, ": ");
    let body = seven(rt, own.alloc(), count);
    let (conn, peer) = made_pair(rt, own, Kind::Http);
    let (heard, answered) = join(
        rt,
        || sends_late(rt, peer, &body),
        || answers_and_closes(rt, conn),
    );
    heard && answered
}

#[test]
fn hearings(rt: HostRuntime) {
    for row in HEARINGS.trim().split('\n') {
        check(&rt, hearing_holds(&rt, row), row);
    }
}

#[test]
fn closings(rt: HostRuntime) {
    for row in CLOSINGS.trim().split('\n') {
        check(&rt, closing_holds(&rt, &rt, row), row);
    }
    for row in LATES.trim().split('\n') {
        check(&rt, late_holds(&rt, &rt, row), row);
    }
}
