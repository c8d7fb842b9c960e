//! Conversations that are broken off at each place: by each answer that ends one, by a stop, by reads and writes that fail.

use super::letters::{length_of, put_frames};
use super::served::{Case, case_of, goes, write_all};
use crate::conn::Fails;
use crate::lists::{push, put, same};
use crate::text::{column, cut, number, unknown};
use std::alloc::Global;
use std::process::Abort;
use std::sync::Wait;

// Conversations, in the columns of all.
static TALKS: &'static str = r#"
a subscription|  V2SUB t c\nRDY 2\n//FIN 0000010000000000\nPUB t\n\0\0\0\x02hi/|bioqmhmiiqomig|bnrcwcnwnwnwnrnrccwnwnrg|end
a full round of messages|  V2NOP\n/|b+m*64+qmig|b+nw*64+rcnwnrg|end
errors that leave the connection open|  V2FIN 00000100/00000000\nREQ 0000010000000000 0\nNOP\n/|biiffqig|bnrnrcwcwcnrg|end
a bad word behind a command|  V2PUB t\n\0\0\0\x02hiBAD\n/|bmioeg|bnwnrcwfwg|closed
a bad magic|  V1/|bieg|bnrfwg|closed
a reply that closes behind another|  V2CLS\nCLS\nNOP\n/|bikeg|bnrcwcwg|closed
no memory for a command|  V2NOP\nPUB t\n\0\0\0\x02hi/|bmiq-g|bnwnrccwg|memory
no memory for a push||bm-g|bnwnwg|memory
no memory as it begins||-|bw|memory
"#;

// What breaks a conversation off, in columns between `|`: its name, itself, and how the conversation ends then.
//
// - `answer`, a letter, and those of turns: one of these turns gets that answer;
// - `stop`: from a turn on the daemon has stopped;
// - `read`: a read fails; `end`: the client sends no more;
// - `write`: a write fails; behind it may stand how many bytes each takes.
static BREAKS: &'static str = r#"
too long a silence|answer l n|closed
a channel that is deleted|answer d nc|closed
a daemon that stops for one turn|answer s ncf|closed
an error that closes|answer e cf|closed
a client that isn't there, or is there already|answer x bncf|closed
no memory|answer - bncf|memory
a daemon that stops|stop|closed
a read that fails|read|read fault
a client that sends no more|end|end
a write that fails|write|write fault
a write of a part that fails|write 7|write fault
"#;

// The answers to the Gone, in columns between `|`: what it is, its letter, how often memory was wanting for it, and how a connection ends then that would be
// closed.
static GOINGS: &'static str = r#"
its Gone is noted|g|0|closed
there is no memory for its Gone|-|1|memory
it isn't there as it goes|x|0|closed
"#;

/// What came up to a turn, a read or a write of a conversation.
#[derive(Clone, Copy)]
struct Place {
    /// Its letter.
    letter: u8,
    /// How many turns, reads and writes there were with it.
    turns: usize,
    reads: usize,
    writes: usize,
    /// How many bytes were written before it.
    written: usize,
    /// How many are written with it, and how many bytes of the last turn's frame are left behind it.
    writing: usize,
    left: usize,
}

// Goes on to the call of this letter, where a write takes at most so many bytes.
fn step(place: &mut Place, script: &[u8], letter: u8, takes: usize) {
    place.letter = letter;
    place.written = place.written.saturating_add(place.writing);
    place.writing = 0;
    match letter {
        b'r' => place.reads = place.reads.saturating_add(1),
        b'w' => {
            place.writes = place.writes.saturating_add(1);
            place.writing = takes.min(place.left);
            place.left = place.left.saturating_sub(place.writing);
        }
        _ => {
            let answer = script.get(place.turns).copied().unwrap_or(b'?');
            place.left = length_of(answer);
            place.turns = place.turns.saturating_add(1);
        }
    }
}

const START: Place = Place {
    letter: b'?',
    turns: 0,
    reads: 0,
    writes: 0,
    written: 0,
    writing: 0,
    left: 0,
};

// The letters of a conversation's calls where each write takes at most so many bytes.
fn letters_of(rt: &impl Abort, alloc: Global, talk: &Case, takes: usize) -> Vec<u8> {
    let takes = takes.max(1);
    let mut letters = Vec::new(alloc);
    let mut place = START;
    for letter in &talk.trace {
        let count = if *letter == b'w' {
            (place.left.saturating_sub(1) / takes).saturating_add(1)
        } else {
            1
        };
        for _ in 0..count {
            step(&mut place, &talk.script, *letter, takes);
            push(rt, &mut letters, *letter);
        }
    }
    letters
}

// The call of this number of a conversation, counted from 0; its end behind all of them.
fn place_at(script: &[u8], letters: &[u8], takes: usize, at: usize) -> Place {
    let mut place = START;
    for number in 0..at.saturating_add(1) {
        let letter = letters.get(number).copied().unwrap_or(b'?');
        step(&mut place, script, letter, takes);
    }
    place
}

// Ends a conversation with the call of this number, where such a one stands.
fn end_at(rt: &impl Abort, case: &mut Case, letters: &[u8], at: usize, place: Place) {
    let (before, _) = letters.split_at(at.saturating_add(1).min(letters.len()));
    write_all(rt, case);
    case.written.truncate(place.written);
    case.script.truncate(place.turns);
    case.trace.clear();
    put(rt, &mut case.trace, before);
}

// The number of the first call from this one on at which a stop is seen, or that of all calls.
fn seen_from(letters: &[u8], at: usize) -> usize {
    for number in at..letters.len() {
        if matches!(letters.get(number), Some(b'n' | b'c' | b'f')) {
            return number;
        }
    }
    letters.len()
}

// Breaks a conversation off by a stop before the call of this number, which is a turn: at the call at which the stop is seen, if there is one.
fn stop_at(rt: &impl Abort, case: &mut Case, letters: &[u8], at: usize, ended: &'static str) {
    let turn = place_at(&case.script, letters, usize::MAX, at);
    let seen = seen_from(letters, at);
    let place = place_at(&case.script, letters, usize::MAX, seen);
    end_at(rt, case, letters, seen, place);
    case.stops = turn.turns.saturating_sub(1);
    if seen < letters.len() {
        case.ended = ended;
    } else if matches!(case.script.last(), Some(b'g')) {
        let _ = case.script.pop();
        let _ = case.trace.pop();
    }
}

// A turn of one of the letters behind this one gets its answer, if the last call is such a one.
fn answer(rt: &impl Abort, case: &mut Case, letter: u8, words: &str) -> bool {
    let (answer, turns) = cut(words);
    let _ = case.script.pop();
    put(rt, &mut case.script, answer.as_bytes());
    let before = case.written.len();
    put_frames(rt, &mut case.written, answer.as_bytes());
    if case.written.len() > before {
        push(rt, &mut case.trace, b'w');
    }
    turns.as_bytes().contains(&letter)
}

// Breaks a conversation off at its last call, and says whether it can be.
fn breaks(rt: &impl Abort, case: &mut Case, place: Place, takes: usize, cause: &str) -> bool {
    match cut(cause) {
        ("answer", words) => answer(rt, case, place.letter, words),
        ("read", "") => {
            case.fails = Fails::Read(place.reads.saturating_sub(1) as u64);
            place.letter == b'r'
        }
        ("end", "") => {
            case.pieces.truncate(place.reads.saturating_sub(1));
            place.letter == b'r'
        }
        ("write", _) => {
            case.takes = takes;
            case.fails = Fails::Write(place.writes.saturating_sub(1) as u64);
            if matches!(case.script.last(), Some(b'-')) {
                case.ended = "memory";
            }
            place.letter == b'w'
        }
        _ => unknown(rt, cause),
    }
}

// Breaks a conversation off at the call of this number, and says whether it can be.
fn break_at(
    rt: &impl Abort,
    case: &mut Case,
    letters: &[u8],
    at: usize,
    takes: usize,
    one: &'static str,
) -> bool {
    let place = place_at(&case.script, letters, takes, at);
    let (cause, ended) = (column(one, 1), column(one, 2));
    if same(cause.as_bytes(), b"stop") {
        stop_at(rt, case, letters, at, ended);
        return place.letter != b'r' && place.letter != b'w';
    }
    end_at(rt, case, letters, at, place);
    case.ended = ended;
    breaks(rt, case, place, takes, cause)
}

// The connection goes, if it began.
fn go(rt: &impl Abort, case: &mut Case, going: &'static str) {
    if matches!(case.script.first(), Some(b'b')) {
        put(rt, &mut case.script, column(going, 1).as_bytes());
        push(rt, &mut case.trace, b'g');
        case.wanted = number(rt, column(going, 2));
        if same(case.ended.as_bytes(), b"closed") {
            case.ended = column(going, 3);
        }
    }
}

// Whether a conversation that is broken off at the call of this number goes so, to its Gone, if it can be broken off there.
fn holds<R: Abort + Wait>(
    rt: &R,
    alloc: Global,
    talk: &'static str,
    letters: &[u8],
    (at, takes): (usize, usize),
    one: &'static str,
    going: &'static str,
) -> bool {
    let mut case = case_of(rt, alloc, talk);
    let can = break_at(rt, &mut case, letters, at, takes, one);
    go(rt, &mut case, going);
    let holds = !can || goes(rt, alloc, &case);
    drop(case);
    holds
}

// Ends the run where a conversation that is broken off so goes otherwise, with the call at which it is, and how it goes there.
fn check<R: Abort + Wait>(rt: &R, alloc: Global, talk: &'static str, one: &'static str) {
    let takes = match column(one, 1).split_once("write ") {
        Some((_, takes)) => takes.parse::<usize>().expect(rt, "a number"),
        None => usize::MAX,
    };
    let case = case_of(rt, alloc, talk);
    let letters = letters_of(rt, alloc, &case, takes);
    drop(case);
    for at in 0..letters.len() {
        for going in GOINGS.trim().split('\n') {
            let holds = holds(rt, alloc, talk, &letters, (at, takes), one, going);
            assert!(rt; holds, "{talk}, {one}: at call {at}, {going}");
        }
    }
}

#[test]
fn rows(rt: HostRuntime) {
    for talk in TALKS.trim().split('\n') {
        for one in BREAKS.trim().split('\n') {
            check(&rt, rt.alloc(), talk, one);
        }
    }
}
