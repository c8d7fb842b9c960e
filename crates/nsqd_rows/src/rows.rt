//! Rows, what differs in one, and the tests over all tables.
//!
//! A row is a text of lines: its name, and a run, or several with `then` between them, over a folder that is empty at first. A run's lines:
//!
//! - `words` behind the program's name; `option` and what these words make of the options, see `options_of`;
//! - `file`, a name and bytes: it is put beside the files that were left;
//! - `fails`, a call of the folder, and the numbers of those that fail, from one `to` before another; or `accept`, `print` or `tell` and the number of the call
//!   of the host that fails, where starts and accepts are counted together;
//! - `clock`, how many readings show a moment, `at` and the moment in nanoseconds, with `, ` between: first at the opening, and then at each turn; the last one
//!   is shown from then on. Or `rises` and so much at each reading, from 0 on;
//! - `size`: how many bytes of the callers below come at a time;
//! - `tcp` or `http`: a caller of that kind, what comes from it at each read, with `|` between and nothing where it is empty, `=>` what it gets, see `put_got`
//!   and `put_answer`. One without words ends at once. `tcp-closed`: the daemon closes its connection;
//! - `ends behind`: so many callers, the last ones, are behind a served stop or a failed accept, and aren't accepted; `ends status` where that isn't 0;
//!   `ends told` and the line that is told, if one is; `ends printed` and what is; `ends unused` where the host is never started;
//! - `leaves`, a name and bytes: such a file is there in the end; `lacks` and a name: none is;
//! - `//`: a word on the run.

ghost use Rattle.nsq_base.specs.Options.{IsInRange};

use crate::files::{add_file, found_in};
use crate::hosts::{Fails, Given, Outcome, nothing, push_caller, push_piece, run_with};
use crate::judged::{is_served, noted_wrong};
use crate::setting::{add_words, options_of};
use crate::tables::{client_rows, drill_rows, host_rows, http_rows};
use crate::texts::{bytes_of, check_none, cut, number, part, put_answer, put_got, same, unknown};
use broker_history::Ended;
use nsq_base::Options;
use nsq_fakes::{Failing, FolderCall, MemConn, Piece};
use nsq_outside::Kind;
use path_plain::NamedFile;
use std::alloc::Global;
use std::process::Abort;
use std::sync::Wait;

// More than the bytes of any piece.
const WHOLE: usize = 1 << 24;

// How many readings a clock gives that goes on.
const READINGS: u64 = 400;

/// What a run must come to.
#[derive(Clone, Copy)]
struct Ends<'a> {
    status: u64,
    line: &'a str,
    printed: &'a str,
    /// How many callers aren't accepted.
    behind: u64,
    unused: bool,
}

// What a run must come to where no line says something else.
const ENDS: Ends<'static> = Ends {
    status: 0,
    line: "",
    printed: "",
    behind: 0,
    unused: false,
};

// Adds so many readings, the first of this moment, each so much later than the last.
fn add_readings(rt: &impl Abort, readings: &mut Vec<u64>, moment: u64, step: u64, count: u64) {
    for number in 0..count {
        readings
            .push(moment.wrapping_add(step.wrapping_mul(number)))
            .expect(rt, "memory");
    }
}

// Adds each of these moments so many times.
fn add_moments(rt: &impl Abort, readings: &mut Vec<u64>, words: &str) {
    for words in words.split(", ") {
        let (count, moment) = part(rt, words, " at ");
        add_readings(rt, readings, number(rt, moment), 0, number(rt, count));
    }
}

// Adds a caller of this kind from whom this comes, so many bytes at a time.
fn add_caller(
    rt: &impl Abort,
    alloc: Global,
    callers: &mut Vec<(Kind, MemConn)>,
    word: &str,
    words: &str,
    size: usize,
) {
    let kind = match ended_by(word) {
        Some((kind, _)) => kind,
        None => unknown(rt, word),
    };
    let mut pieces = Vec::new(alloc);
    if !words.is_empty() {
        let (sends, _) = part(rt, words, " =>");
        add_sent(rt, alloc, &mut pieces, sends, size);
    }
    let faults = (Vec::new(alloc), Vec::new(alloc));
    push_caller(rt, alloc, callers, kind, pieces, faults);
}

// Adds what comes at each read, so many bytes at a time.
fn add_sent(rt: &impl Abort, alloc: Global, pieces: &mut Vec<Piece>, sends: &str, size: usize) {
    for text in sends.split('|') {
        let bytes = bytes_of(rt, alloc, text);
        add_pieces(rt, alloc, pieces, &bytes, size);
    }
}

fn add_pieces(rt: &impl Abort, alloc: Global, pieces: &mut Vec<Piece>, bytes: &[u8], size: usize) {
    if bytes.is_empty() {
        pieces.push(Piece::Nothing).expect(rt, "memory");
    }
    let mut rest = bytes;
    for _ in 0..bytes.len() {
        if rest.is_empty() {
            break;
        }
        let (piece, after) = rest.split_at(size.max(1).min(rest.len()));
        push_piece(rt, alloc, pieces, piece);
        rest = after;
    }
}

// These calls fail.
fn fail(rt: &impl Abort, fails: &mut Fails, words: &str) {
    let (name, numbers) = cut(words);
    let call = match name {
        "accept" => return push(rt, &mut fails.accepts, number(rt, numbers)),
        "print" => return push(rt, &mut fails.prints, number(rt, numbers)),
        "tell" => return push(rt, &mut fails.tells, number(rt, numbers)),
        "WriteAt" => FolderCall::WriteAt,
        "Rename" => FolderCall::Rename,
        "Any" => FolderCall::Any,
        _ => unknown(rt, name),
    };
    let (from, to) = part(rt, numbers, " to ");
    let calls = Failing {
        call,
        from: number(rt, from),
        to: number(rt, to),
    };
    fails.folder.push(calls).expect(rt, "memory");
}

fn push(rt: &impl Abort, numbers: &mut Vec<u64>, number: u64) {
    numbers.push(number).expect(rt, "memory");
}

// Takes up what a run must come to, by what stands behind `ends`.
fn end<'a>(rt: &impl Abort, ends: &mut Ends<'a>, line: &'a str) {
    match cut(line) {
        ("behind", count) => ends.behind = number(rt, count),
        ("status", status) => ends.status = number(rt, status),
        ("told", line) => ends.line = line,
        ("printed", printed) => ends.printed = printed,
        ("unused", "") => ends.unused = true,
        _ => unknown(rt, line),
    }
}

// Takes up what a line gives to a run.
fn give(rt: &impl Abort, alloc: Global, given: &mut Given, word: &str, words: &str, size: usize) {
    match word {
        "words" => add_words(rt, alloc, &mut given.words, words),
        "fails" => fail(rt, &mut given.fails, words),
        "clock" => add_moments(rt, &mut given.readings, words),
        "rises" => add_readings(rt, &mut given.readings, 0, number(rt, words), READINGS),
        "option" | "leaves" | "lacks" | "//" => {}
        _ => add_caller(rt, alloc, &mut given.callers, word, words, size),
    }
}

// Adds a file, by its name and its bytes.
fn put_file(rt: &impl Abort, alloc: Global, files: &mut Vec<NamedFile>, file: &str) {
    let (name, bytes) = cut(file);
    let bytes = bytes_of(rt, alloc, bytes);
    add_file(rt, alloc, files, name, &bytes);
}

// Takes up what the lines of a run over these files say.
fn read<'a>(
    rt: &impl Abort,
    alloc: Global,
    given: &mut Given,
    ends: &mut Ends<'a>,
    files: &mut Vec<NamedFile>,
    lines: &'a str,
) {
    let mut size = WHOLE;
    for line in lines.split('\n') {
        let (word, words) = cut(line);
        match word {
            "ends" => end(rt, ends, words),
            "file" => put_file(rt, alloc, files, words),
            "size" => size = words.parse::<usize>().expect(rt, "a number"),
            _ => give(rt, alloc, given, word, words, size),
        }
    }
}

// What differs in a run over these files. Then they are those that it left.
fn run_differs<'a, R: Abort + Wait>(
    rt: &R,
    alloc: Global,
    lines: &'a str,
    files: &mut Vec<NamedFile>,
) -> Option<&'a str> {
    let mut given = nothing(rt, alloc);
    let mut ends = ENDS;
    read(rt, alloc, &mut given, &mut ends, files, lines);
    let began = given.readings.first().copied().unwrap_or(0);
    let mut outcome = run_with(rt, alloc, given, files);
    let wrong = outcome_differs(rt, alloc, lines, ends, began, files, &mut outcome);
    outcome.end();
    wrong
}

// What differs in what a run over these files came to. Then they are those that it left.
fn outcome_differs<'a>(
    rt: &impl Abort,
    alloc: Global,
    lines: &'a str,
    ends: Ends<'a>,
    began: u64,
    files: &mut Vec<NamedFile>,
    outcome: &mut Outcome,
) -> Option<&'a str> {
    let options = options_of(rt, alloc, lines);
    let shown = shown_differs(rt, alloc, ends, outcome);
    let got = callers_differ(rt, alloc, &options, began, lines, ends.behind, outcome);
    let noted = noted_wrong(rt, alloc, &options, began, files, outcome);
    drop(options);
    shown
        .or(got)
        .or(noted)
        .or(files_differ(rt, alloc, lines, files))
}

// What differs in what a run showed.
fn shown_differs(
    rt: &impl Abort,
    alloc: Global,
    ends: Ends<'_>,
    outcome: &Outcome,
) -> Option<&'static str> {
    if u64::from(outcome.status) != ends.status {
        return Some("the status");
    }
    if !same(outcome.line(), ends.line.as_bytes())
        || outcome.lines() != usize::from(!ends.line.is_empty())
    {
        return Some("the line");
    }
    if !same(outcome.printed(), &bytes_of(rt, alloc, ends.printed)) {
        return Some("what is printed");
    }
    if ends.unused && !outcome.is_unused() {
        return Some("the host was used");
    }
    None
}

// The kind of the caller of a line with this word, and how it must end; none where it has no caller.
fn ended_by(word: &str) -> Option<(Kind, Ended)> {
    match word {
        "tcp" => Some((Kind::Tcp, Ended::EndOfInput)),
        "tcp-closed" => Some((Kind::Tcp, Ended::Closed)),
        "http" => Some((Kind::Http, Ended::EndOfInput)),
        _ => None,
    }
}

// What differs in the callers that are handed back, all but so many.
fn callers_differ<'a>(
    rt: &impl Abort,
    alloc: Global,
    options: &Options,
    began: u64,
    lines: &'a str,
    behind: u64,
    outcome: &Outcome,
) -> Option<&'a str>
    requires { IsInRange options.now }
{
    let mut place = 0usize;
    for line in lines.split('\n') {
        let (word, _) = cut(line);
        if let Some((_, ended)) = ended_by(word) {
            if place < outcome.count()
                && !goes_so(rt, alloc, options, began, outcome, place, line, ended)
            {
                return Some(line);
            }
            place = place.saturating_add(1);
        }
    }
    if behind.saturating_add(outcome.count() as u64) == place as u64 {
        None
    } else {
        Some("how many are handed back")
    }
}

// Whether the caller at this place was served, ended so, and got what a line says.
fn goes_so(
    rt: &impl Abort,
    alloc: Global,
    options: &Options,
    began: u64,
    outcome: &Outcome,
    place: usize,
    line: &str,
    ended: Ended,
) -> bool
    requires { IsInRange options.now }
{
    let (word, words) = cut(line);
    has_got(rt, alloc, outcome, place, word, words)
        && is_served(rt, alloc, options, began, outcome, place, &[ended])
}

// Whether the caller at this place got what a line says.
fn has_got(
    rt: &impl Abort,
    alloc: Global,
    outcome: &Outcome,
    place: usize,
    word: &str,
    words: &str,
) -> bool {
    let Some((_, _, conn)) = outcome.caller(place) else {
        return false;
    };
    let mut got = Vec::new(alloc);
    put_all(rt, &mut got, word, words);
    let has_got = same(conn.bytes_written(), &got);
    drop(got);
    has_got
}

// Adds all that a line says that its caller gets.
fn put_all(rt: &impl Abort, out: &mut Vec<u8>, word: &str, words: &str) {
    let Some((_, gets)) = words.split_once(" => ") else {
        return;
    };
    if same(word.as_bytes(), b"http") {
        return put_answer(rt, out, gets);
    }
    for frame in gets.split(", ") {
        put_got(rt, out, frame);
    }
}

// What differs in the files that were left.
fn files_differ<'a>(
    rt: &impl Abort,
    alloc: Global,
    lines: &'a str,
    files: &[NamedFile],
) -> Option<&'a str> {
    for line in lines.split('\n') {
        let is_right = match cut(line) {
            ("leaves", file) => is_left(rt, alloc, files, file),
            ("lacks", name) => found_in(files, name).is_none(),
            _ => true,
        };
        if !is_right {
            return Some(line);
        }
    }
    None
}

// Whether a file is there, by its name and its bytes.
fn is_left(rt: &impl Abort, alloc: Global, files: &[NamedFile], file: &str) -> bool {
    let (name, bytes) = cut(file);
    match found_in(files, name) {
        Some(found) => same(found, &bytes_of(rt, alloc, bytes)),
        None => false,
    }
}

// What differs in a row; nothing where it holds.
fn differs<'a, R: Abort + Wait>(rt: &R, alloc: Global, runs: &'a str) -> Option<&'a str> {
    let mut files = Vec::new(alloc);
    for lines in runs.split("\nthen\n") {
        let wrong = run_differs(rt, alloc, lines, &mut files);
        if wrong.is_some() {
            return wrong;
        }
    }
    None
}

// Ends the run where a row doesn't hold. One that doesn't begins once more, so that it holds too where one allocation of the daemon's fails.
fn check<R: Abort + Wait>(rt: &R, alloc: Global, row: &str) {
    let (name, runs) = part(rt, row, "\n");
    let mut wrong = differs(rt, alloc, runs);
    if wrong.is_some() {
        wrong = differs(rt, alloc, runs);
    }
    check_none(rt, name, wrong);
}

// The same of each row of these tables.
fn check_all<R: Abort + Wait>(rt: &R, alloc: Global, tables: &[&'static str]) {
    for table in tables {
        for row in table.trim().split("\n\n") {
            check(rt, alloc, row);
        }
    }
}

#[test]
fn rows(rt: HostRuntime) {
    check_all(&rt, rt.alloc(), &client_rows());
    check_all(&rt, rt.alloc(), &host_rows());
    check_all(&rt, rt.alloc(), &http_rows());
}

#[test]
fn printed_drills(rt: HostRuntime) {
    check_all(&rt, rt.alloc(), &[drill_rows()]);
}
