//! What goes otherwise than a row says, and the test over all tables.
//!
//! A row is a text of lines: its name, what its floor is opened with otherwise than a plain one, and its steps.
//!
//! - `with`: what stands behind it, see `options_of`;
//! - `at` a moment: the clock shows it from now on;
//! - `comes` or `goes` and a number: a client of V2 begins under it, or goes;
//! - `says`, a number and commands, each with `|` behind it: the client sends these, each in one turn, and then is sent what it may get;
//! - `stop`: the daemon's stop is noted;
//! - `client` and the words of `client_of`: such a client is served to its end; the first one has number 1, the next 2;
//! - `client-cut` the same. The row is told once more for each place at which the one piece of this client can be cut in two;
//! - `asks` a request `=>` what its caller of HTTP gets, who is answered whole;
//! - `asks-cut` the same, once for each place at which the request can be cut in two, by callers one after another;
//! - `stats` and topics: a caller asks for the statistics, gets these, and is answered whole;
//! - `calls`, how a caller ends, `:`, what comes from it at each read, in runs and with `|` behind it, nothing where it is empty, `=>` what it gets. Behind a
//!   comma may stand what fails of its connection, and behind a second one how many bytes a write takes at most;
//! - `leaves`, the name and the bytes of a file: it is there in the end;
//! - `//`: a word on the row.

use crate::answers::answer_of;
use crate::bench::{Bench, Way, bench_of};
use crate::callers::{Caller, WHOLE, add_pieces, client_of, is_served, sent_by};
use crate::conn::{Fails, failing};
use crate::lists::same;
use crate::tables::{client_rows, floor_rows, request_rows};
use crate::text::{bytes_of, cut, moment, number, part, unknown};
use broker_history::Call;
use nsq_fakes::MemFolder;
use std::alloc::Global;
use std::process::Abort;
use std::sync::Wait;
use std::sync::atomic::AtomicU64;

const STATS: &[u8] = b"GET /stats?format=json HTTP/1.1\r\n\r\n";

// Whether a request is answered as it must be where it is cut in two before the byte of this number, and not cut before the first one.
fn is_answered<R: Abort + Wait>(
    rt: &R,
    bench: &mut Bench<'_>,
    request: &[u8],
    place: usize,
    gets: (&str, &str),
    got: &mut Vec<u8>,
) -> bool {
    let alloc = bench.alloc;
    let size = bench.way.size;
    let mut pieces = Vec::new(alloc);
    let (front, rest) = request.split_at(place.min(request.len()));
    if place != 0 {
        add_pieces(rt, alloc, &mut pieces, front, size);
    }
    add_pieces(rt, alloc, &mut pieces, rest, size);
    let caller = Caller {
        pieces,
        moments: Vec::new(alloc),
        fails: Fails::Nothing,
        most: WHOLE,
        written: answer_of(rt, alloc, gets),
        ended: "answered",
    };
    is_served(rt, bench, caller, got)
}

// Whether a request is answered as the words say, or wherever it is cut in two.
fn asks<R: Abort + Wait>(
    rt: &R,
    bench: &mut Bench<'_>,
    words: &str,
    is_cut: bool,
    got: &mut Vec<u8>,
) -> bool {
    let (request, gets) = part(rt, words, " => ");
    let request = bytes_of(rt, bench.alloc, request);
    let (from, to) = if is_cut { (1, request.len()) } else { (0, 1) };
    for place in from..to {
        if !is_answered(rt, bench, &request, place, cut(gets), got) {
            return false;
        }
    }
    true
}

// Whether a caller gets what it must, and ends so.
fn calls<R: Abort + Wait>(rt: &R, bench: &mut Bench<'_>, words: &str, got: &mut Vec<u8>) -> bool {
    let alloc = bench.alloc;
    let (label, words) = part(rt, words, ": ");
    let (sends, gets) = part(rt, words, "=> ");
    let mut label = label.split(", ");
    let caller = Caller {
        pieces: sent_by(rt, alloc, sends.trim(), bench.way.size),
        moments: Vec::new(alloc),
        ended: label.next().unwrap_or(""),
        fails: failing(rt, label.next().unwrap_or("")),
        most: match label.next() {
            Some(most) => most.parse::<usize>().expect(rt, "a number"),
            None => WHOLE,
        },
        written: answer_of(rt, alloc, cut(gets)),
    };
    is_served(rt, bench, caller, got)
}

// Whether a client gets what it must, and ends so.
fn serves<R: Abort + Wait>(
    rt: &R,
    bench: &mut Bench<'_>,
    words: &str,
    is_cut: bool,
    got: &mut Vec<u8>,
) -> bool {
    let place = if is_cut { bench.way.place } else { 0 };
    let client = client_of(rt, bench.alloc, words, place);
    if is_cut {
        bench.sent = 0;
        for piece in &client.pieces {
            bench.sent = bench.sent.saturating_add(piece.len());
        }
    }
    is_served(rt, bench, client, got)
}

// Whether a client may send all that it says; then it is sent what it may get.
fn says(rt: &impl Abort, bench: &mut Bench<'_>, words: &str) -> bool {
    let (client, commands) = cut(words);
    let client = number(rt, client);
    for command in commands.split_terminator('|') {
        if !bench.says(rt, client, &bytes_of(rt, bench.alloc, command)) {
            return false;
        }
    }
    bench.sends(client)
}

// Whether a step goes as its line says. What its last caller got stands in a list.
fn goes<R: Abort + Wait>(rt: &R, bench: &mut Bench<'_>, line: &str, got: &mut Vec<u8>) -> bool {
    match cut(line) {
        ("with" | "leaves" | "//", _) => true,
        ("at", at) => {
            bench.show(moment(rt, at));
            true
        }
        ("comes", client) => bench.turn(number(rt, client), Call::Begin),
        ("says", words) => says(rt, bench, words),
        ("goes", client) => bench.turn(number(rt, client), Call::Gone),
        ("stop", "") => bench.turn(0, Call::Stop),
        (word, words) => is_called(rt, bench, word, words, got),
    }
}

// The same of a step with someone who is served.
fn is_called<R: Abort + Wait>(
    rt: &R,
    bench: &mut Bench<'_>,
    word: &str,
    words: &str,
    got: &mut Vec<u8>,
) -> bool {
    match word {
        "asks" => asks(rt, bench, words, false, got),
        "asks-cut" => asks(rt, bench, words, true, got),
        "stats" => is_answered(rt, bench, STATS, 0, ("topics", words), got),
        "calls" => calls(rt, bench, words, got),
        "client" => serves(rt, bench, words, false, got),
        "client-cut" => serves(rt, bench, words, true, got),
        _ => unknown(rt, word),
    }
}

// The first line that goes otherwise than it says, and how many bytes a `client-cut` sent. What the last caller got stands in a list.
fn wrong_line<'a, R: Abort + Wait>(
    rt: &R,
    alloc: Global,
    lines: &'a str,
    way: Way,
    got: &mut Vec<u8>,
) -> (Option<&'a str>, usize) {
    let clock = AtomicU64::new(0);
    let mut bench = bench_of(rt, alloc, lines, way, &clock);
    let wrong = wrong_step(rt, &mut bench, lines, got);
    let sent = bench.sent;
    let folder = bench.end();
    (wrong.or(missing(rt, alloc, &folder, lines)), sent)
}

// The first step that goes otherwise than it says.
fn wrong_step<'a, R: Abort + Wait>(
    rt: &R,
    bench: &mut Bench<'_>,
    lines: &'a str,
    got: &mut Vec<u8>,
) -> Option<&'a str> {
    for line in lines.split('\n') {
        if !goes(rt, bench, line, got) {
            return Some(line);
        }
    }
    None
}

// The first line that says of a file that it is left, and isn't.
fn missing<'a>(
    rt: &impl Abort,
    alloc: Global,
    folder: &MemFolder,
    lines: &'a str,
) -> Option<&'a str> {
    for line in lines.split('\n') {
        match cut(line) {
            ("leaves", file) if !is_there(rt, alloc, folder, file) => return Some(line),
            _ => {}
        }
    }
    None
}

// Whether a file is there, by its name and its bytes.
fn is_there(rt: &impl Abort, alloc: Global, folder: &MemFolder, file: &str) -> bool {
    let (name, bytes) = cut(file);
    match folder.file(name) {
        Some(found) => same(found, &bytes_of(rt, alloc, bytes)),
        None => false,
    }
}

// Ends the run where a row doesn't hold, with the line that goes otherwise and what was got last, and else says how many bytes a `client-cut` sent. A row that
// doesn't hold begins once more, so that it holds too where one allocation of the floor's fails.
fn check<R: Abort + Wait>(rt: &R, alloc: Global, row: &str, way: Way) -> usize {
    let (name, lines) = part(rt, row, "\n");
    let mut got = Vec::new(alloc);
    let (mut wrong, mut sent) = wrong_line(rt, alloc, lines, way, &mut got);
    if wrong.is_some() {
        (wrong, sent) = wrong_line(rt, alloc, lines, way, &mut got);
    }
    if let Some(line) = wrong {
        let got = String::from_utf8_lossy(alloc, &got).expect(rt, "memory");
        panic!(rt; "{}, {}, cut before {}:\n{}", name, line, way.place, got);
    }
    sent
}

// The same of a row whole, and cut wherever it can be.
fn check_cut<R: Abort + Wait>(rt: &R, alloc: Global, row: &str) {
    let sent = check(
        rt,
        alloc,
        row,
        Way {
            size: WHOLE,
            place: 0,
        },
    );
    for place in 1..sent {
        check(rt, alloc, row, Way { size: WHOLE, place });
    }
}

// The same of each row of tables with callers of HTTP, and of the row in single bytes.
fn check_callers<R: Abort + Wait>(rt: &R, alloc: Global, tables: &[&'static str]) {
    for table in tables {
        for row in table.trim().split("\n\n") {
            check_cut(rt, alloc, row);
            check(rt, alloc, row, Way { size: 1, place: 0 });
        }
    }
}

#[test]
fn clients_rows(rt: HostRuntime) {
    for table in &client_rows() {
        for row in table.trim().split("\n\n") {
            check_cut(&rt, rt.alloc(), row);
        }
    }
}

#[test]
fn callers_rows(rt: HostRuntime) {
    check_callers(&rt, rt.alloc(), &request_rows());
    check_callers(&rt, rt.alloc(), &floor_rows());
}
