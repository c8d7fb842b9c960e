//! Rows of a connection and its peer.
//!
//! A row is a text: its name; the kind of the connection, how many milliseconds pass at least, and how many are too many; and lines of steps,
//! each a number of rounds and steps with a `;` between them. A step is one of these:
//!
//! - `write BYTES`, `read BYTES` (what the bytes are that come) and `flush`, each with what it answers.
//! - `overfill`, writes of 32 KiB, of which one in 2,000 fails. `busy`, 64 writes of 8 bytes, which take them all.
//! - `faults`, how often a read and a write failed so far. `lost-writes`: no read failed so far, and a write did.
//! - `peer sends BYTES`; `peer gets BYTES`, for which it waits; `peer gets-nothing`, none has come so far; `peer gets-end`, none will come any
//!   more; `peer stops`: it sends nothing more, and still listens.
//! - `drop`, the connection is dropped. `leave`, the peer closes its socket.

use super::made_pair;
use crate::words::{
    bytes_of, cut, halves, is_did, is_number, is_read, is_write, kind_of, number, part,
};
use crate::{check, same};
use nsq_outside::{Kind, Sink, Source};
use nsq_system::TcpConn;
use std::alloc::Global;
use std::io::{Read as _, Write as _};
use std::net::{Shutdown, TcpStream};
use std::process::Abort;
use std::sync::Wait;
use std::time::{Duration, Instant};

// A frame whose data looks like an error frame, and an error frame that isn't whole, are only gathered. Of a busy writer a round of 64 messages is
// followed by a read, which would hold up the next round.
static ROWS: &'static str = "
gathered until the next read
        tcp 0 60000
        1: write one = 3; write two = 3; peer gets-nothing; peer sends here; read here = 4; peer gets onetwo

written through to HTTP
        http 0 60000
        1: write HTTP/1.1 = 8; peer gets HTTP/1.1

an error frame goes out at once, behind what was gathered
        tcp 0 60000
        1: write \0\0\0\x06\0\0\0\0OK = 10; peer gets-nothing; write \0\0\0\x06\0\0\0\x01E_ = 10; peer gets \0\0\0\x06\0\0\0\0OK; peer gets \0\0\0\x06\0\0\0\x01E_

two frames whose last is an error frame go out at once
        tcp 0 60000
        1: write \0\0\0\x04\0\0\0\0\0\0\0\x04\0\0\0\x01 = 16; peer gets \0\0\0\x04\0\0\0\0\0\0\0\x04\0\0\0\x01

what only looks like an error frame is gathered
        tcp 0 60000
        1: write \0\0\0\x0c\0\0\0\x02\0\0\0\x04\0\0\0\x01 = 16; peer gets-nothing; write \0\0\0\x05\0\0\0\x01 = 8; peer gets-nothing; flush = done
        1: peer gets \0\0\0\x0c\0\0\0\x02\0\0\0\x04\0\0\0\x01; peer gets \0\0\0\x05\0\0\0\x01

more than is gathered goes out in order
        tcp 0 60000
        1: write 1*10000 = 10000; write 2*10000 = 10000; write 3*20000 = 20000; drop
        1: peer gets 1*10000; peer gets 2*10000; peer gets 3*20000; peer gets-end

sent when it is dropped
        tcp 0 60000
        1: write bye = 3; drop; peer gets bye; peer gets-end

a peer that has sent all that it has to say may still listen
        tcp 0 60000
        1: peer stops; read = end; write bye = 3; read = end; peer gets bye; faults 0 0

the end stays the end, also where bytes can't be sent any more
        tcp 0 60000
        1: leave; read = end
        10: write nobody reads = any; read = end
        1: lost-writes; write nobody reads = failed

a peer that closes with bytes that it didn't read resets the connection
        tcp 0 60000
        1: write unread = 6; flush = done; peer gets u; leave; read = failed; faults 1 0; read = failed; write more = failed; faults 2 1

a peer that never reads is given 5 s
        tcp 4000 60000
        1: overfill; faults 0 1

a busy writer does not wait
        tcp 0 2500
        250: busy; read = nothing
";

/// A connection and its peer.
#[derive(Drop)]
struct Pair {
    conn: Option<TcpConn>,
    peer: Option<TcpStream>,
}

/// A connection and its peer, whose reads wait at most a second.
fn made(rt: &impl Abort, own: &HostRuntime, kind: Kind) -> Pair {
    let (conn, peer) = made_pair(rt, own, kind);
    peer.set_read_timeout(Some(Duration::from_secs(1)))
        .expect(rt, "a socket");
    Pair {
        conn: Some(conn),
        peer: Some(peer),
    }
}

/// Whether a write of these bytes, of which there are some, answers so.
fn writes<R: Wait>(rt: &R, conn: &mut TcpConn, bytes: &[u8], answer: &str) -> bool {
    !bytes.is_empty() && is_write(conn.write(rt, bytes), answer)
}

/// Whether one of many writes of 32 KiB fails.
fn overfills<R: Wait>(rt: &R, conn: &mut TcpConn, bytes: &[u8]) -> bool {
    for _ in 0..2_000 {
        if writes(rt, conn, bytes, "failed") {
            return true;
        }
    }
    false
}

/// Whether 64 writes of 8 bytes take them all.
fn is_busy<R: Wait>(rt: &R, conn: &mut TcpConn) -> bool {
    let mut all = true;
    for _ in 0..64 {
        all = writes(rt, conn, b"12345678", "8") && all;
    }
    all
}

/// Whether a read answers so, and gives these bytes.
fn reads<R: Wait>(rt: &R, conn: &mut TcpConn, answer: &str, bytes: &[u8]) -> bool {
    let mut into = [0u8; 64];
    is_read(conn.read(rt, &mut into), answer) && into.starts_with(bytes)
}

/// Whether a read and a write failed so often so far.
fn is_faulty(conn: &TcpConn, want: &str) -> bool {
    let (reads, writes) = cut(want);
    is_number(conn.read_faults(), reads) && is_number(conn.write_faults(), writes)
}

/// Whether the connection answers a call so.
fn answers<R: Abort + Wait>(rt: &R, alloc: Global, conn: &mut TcpConn, step: &str) -> bool {
    let (call, answer) = halves(step, " = ");
    let (what, rest) = cut(call);
    match what {
        "write" => writes(rt, conn, &bytes_of(rt, alloc, rest), answer),
        "overfill" => overfills(rt, conn, &bytes_of(rt, alloc, "7*32768")),
        "busy" => is_busy(rt, conn),
        "read" => reads(rt, conn, answer, rest.as_bytes()),
        "flush" => is_did(conn.flush(), answer),
        "faults" => is_faulty(conn, rest),
        "lost-writes" => conn.read_faults() == 0 && conn.write_faults() > 0,
        _ => false,
    }
}

/// Whether these bytes come next.
fn gets(rt: &impl Abort, alloc: Global, peer: &mut TcpStream, want: &[u8]) -> bool {
    let mut came = vec![in alloc; 0; want.len()].expect(rt, "memory");
    peer.read_exact(&mut came).expect(rt, "bytes");
    same(&came, want)
}

/// Whether nothing has come so far.
fn gets_nothing(rt: &impl Abort, peer: &mut TcpStream) -> bool {
    peer.set_nonblocking(true).expect(rt, "a socket");
    let nothing = peer.read(&mut [0u8; 8]).is_err();
    peer.set_nonblocking(false).expect(rt, "a socket");
    nothing
}

/// Whether the peer can do or finds this.
fn finds(rt: &impl Abort, alloc: Global, peer: &mut TcpStream, act: &str) -> bool {
    let (what, bytes) = cut(act);
    match what {
        "sends" => peer.write_all(bytes.as_bytes()).is_ok(),
        "gets" => gets(rt, alloc, peer, &bytes_of(rt, alloc, bytes)),
        "gets-nothing" => gets_nothing(rt, peer),
        "gets-end" => peer.read(&mut [0u8; 8]).expect(rt, "the end") == 0,
        "stops" => peer.shutdown(Shutdown::Write).is_ok(),
        _ => false,
    }
}

/// Whether a step goes so. Who is gone takes no step.
fn goes<R: Abort + Wait>(rt: &R, alloc: Global, pair: &mut Pair, step: &str) -> bool {
    let (who, act) = cut(step);
    match who {
        "drop" => {
            let_near_go(std::mem::replace(&mut pair.conn, None));
            true
        }
        "leave" => {
            let_far_go(std::mem::replace(&mut pair.peer, None));
            true
        }
        "peer" => match &mut pair.peer {
            Some(peer) => finds(rt, alloc, peer, act),
            None => false,
        },
        _ => match &mut pair.conn {
            Some(conn) => answers(rt, alloc, conn, step),
            None => false,
        },
    }
}

/// Whether all these steps go so.
fn all_go<R: Abort + Wait>(rt: &R, alloc: Global, pair: &mut Pair, steps: &str) -> bool {
    for step in steps.split(';') {
        if !goes(rt, alloc, pair, step.trim()) {
            return false;
        }
    }
    true
}

/// Whether the rounds of a row go so.
fn talk_goes<R: Abort + Wait>(rt: &R, alloc: Global, pair: &mut Pair, lines: &str) -> bool {
    let mut all = true;
    for line in lines.split('\n') {
        let (rounds, steps) = part(rt, line.trim(), ":");
        for _ in 0..number(rt, rounds) {
            all = all_go(rt, alloc, pair, steps) && all;
        }
    }
    all
}

/// Whether a talk goes so, and takes as long as its row says.
fn holds<R: Abort + Wait>(rt: &R, own: &HostRuntime, row: &str) -> bool {
    let (_, row) = part(rt, row, "\n");
    let (head, lines) = part(rt, row, "\n");
    let (kind, times) = part(rt, head.trim(), " ");
    let (least, most) = part(rt, times, " ");
    let start = Instant::now(own).expect(rt, "a clock");
    let all = talk_holds(rt, own, kind_of(rt, kind), lines);
    let waited = start.elapsed(own).expect(rt, "a clock").as_millis();
    all && u128::from(number(rt, least)) <= waited && waited < u128::from(number(rt, most))
}

fn talk_holds<R: Abort + Wait>(rt: &R, own: &HostRuntime, kind: Kind, lines: &str) -> bool {
    let mut pair = made(rt, own, kind);
    let goes = talk_goes(rt, own.alloc(), &mut pair, lines);
    let Pair { conn, peer } = pair;
    let_near_go(conn);
    let_far_go(peer);
    goes
}

/// Drops the connection, if it is there.
fn let_near_go(_conn: Option<TcpConn>) {}

/// The peer closes its socket, if it is there.
fn let_far_go(_peer: Option<TcpStream>) {}

#[test]
fn rows(rt: HostRuntime) {
    for row in ROWS.trim().split("\n\n") {
        check(&rt, holds(&rt, &rt, row), row);
    }
}
