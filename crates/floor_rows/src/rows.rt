//! Rows: how their lines are run, whether what happened is what they say, and the tests over all tables.
//!
//! Rows stand in a text with an empty line between them. A row's first line is its name; two strokes begin a remark.
//!
//! What a run begins with: `file NAME BYTES` is a file of its folder, `long-file SIZE NAME BYTES` one with spaces behind its bytes up to this size;
//! `memory N` says how many messages a topic or a channel keeps in memory, `timeout MOMENT` how long a client has for a message, `unsaved MOMENT` how
//! long a queue may be unsaved; of `fails METHOD FROM TO` the folder's calls of this method from the one number up to before the other fail, where
//! `any` counts all calls.
//!
//! `open` opens the folder, `refused WHY` wants that refused. Where neither stands, a floor of epoch 1 over the files begins before the first call.
//!
//! `at MOMENT` sets the clock. `NUMBER CALL => ANSWER` is a turn of this number with its answer; at a floor that wasn't opened the entries that it
//! notes stand behind the answer, `| ACT; ACT`, and the answer says all. `CALL => ANSWER` without a number is another call of the floor.
//!
//! `shut => END`, `flush => END` and `leave => left` end a run; behind it copies that were held back are told, `; held TOPIC CHANNEL ID`. Then
//! `leaves NAME BYTES` and `lacks NAME` ask files, and another run may begin with those that are there.

use crate::done::{is_in_order, put_done};
use crate::files::{put_text_file, same_file};
use crate::judged::{may_refuse, wrong_in};
use crate::outside::Dials;
use crate::settings::options_of;
use crate::stage::Stage;
use crate::texts::{
    check, halves, moment, number, parted, put, put_bytes, put_id, put_line, put_word, same,
};
use crate::{restarts, tables};
use broker_history::Act;
use nsq_fakes::{Failing, FolderCall};
use std::alloc::Global;
use std::process::Abort;

// Runs the lines of a row.
fn run(rt: &impl Abort, stage: &mut Stage, lines: &str) {
    for line in lines.lines() {
        let line = line.trim();
        if !line.is_empty() && !line.starts_with("//") && !does(rt, stage, line) {
            stage.tell(rt, line, b"is no line");
        }
        if !stage.wrong.is_empty() {
            return;
        }
    }
    if stage.is_open() {
        end(rt, stage, "leave", "left");
    }
}

// Does what a line says. Whether it says something.
fn does(rt: &impl Abort, stage: &mut Stage, line: &str) -> bool {
    let (said, wanted) = halves(line, " => ");
    let (word, rest) = parted(said);
    gives(rt, stage, word, rest) || makes(rt, stage, word, rest, wanted) || stage.call(rt, line)
}

// What a run is given.
fn gives(rt: &impl Abort, stage: &mut Stage, word: &str, rest: &str) -> bool {
    match word {
        "at" => stage.show(rt, moment(rt, rest)),
        "file" => put_given(rt, stage, "0", rest),
        "long-file" => {
            let (size, rest) = parted(rest);
            put_given(rt, stage, size, rest);
        }
        "fails" => return put_failing(rt, stage, rest),
        "memory" => stage.setting.memory = number(rt, rest),
        "timeout" => stage.setting.timeout = moment(rt, rest),
        "unsaved" => stage.setting.unsaved = moment(rt, rest),
        _ => return false,
    }
    true
}

// A file, with so many bytes at least.
fn put_given(rt: &impl Abort, stage: &mut Stage, size: &str, file: &str) {
    let size = number(rt, size) as usize;
    let (name, bytes) = parted(file);
    put_text_file(rt, stage.alloc, &mut stage.files, name, bytes, size);
}

fn put_failing(rt: &impl Abort, stage: &mut Stage, text: &str) -> bool {
    let (method, range) = parted(text);
    let (from, to) = parted(range);
    let call = match method {
        "any" => FolderCall::Any,
        "write-at" => FolderCall::WriteAt,
        "read-at" => FolderCall::ReadAt,
        "rename" => FolderCall::Rename,
        "sync" => FolderCall::Sync,
        _ => return false,
    };
    let from = number(rt, from);
    let to = number(rt, to);
    stage
        .fails
        .push(Failing { call, from, to })
        .expect(rt, "memory");
    true
}

// How a run begins and ends, and which files it leaves.
fn makes(rt: &impl Abort, stage: &mut Stage, word: &str, rest: &str, wanted: &str) -> bool {
    match word {
        "open" => open(rt, stage, ""),
        "refused" => open(rt, stage, rest),
        "shut" | "flush" | "leave" => end(rt, stage, word, wanted),
        "leaves" => {
            let (name, bytes) = parted(rest);
            compare_file(rt, stage, name, Some(bytes));
        }
        "lacks" => compare_file(rt, stage, rest, None),
        _ => return false,
    }
    true
}

// Opens the files, or is refused for this.
fn open(rt: &impl Abort, stage: &mut Stage, wanted: &str) {
    let why = stage.open(rt);
    if !same(why.as_bytes(), wanted.as_bytes()) {
        return stage.tell(rt, "the opening", why.as_bytes());
    }
    if !why.is_empty() {
        if !may_refuse(rt, stage.alloc, &stage.files, why) {
            return stage.tell(rt, "the opening", b"is refused for that");
        }
        let files = stage.files_left(rt);
        stage.go_on(files);
    }
}

// Ends a run, which has to end so, and compares what was done in it.
fn end(rt: &impl Abort, stage: &mut Stage, how: &str, wanted: &str) {
    let end = stage.end(how);
    let mut told = Vec::new(stage.alloc);
    put(rt, &mut told, end);
    put_all_held(rt, &mut told, stage);
    if !same(&told, wanted.as_bytes()) {
        return stage.tell(rt, "the end", &told);
    }
    compare_calls(rt, stage);
    if stage.wrong.is_empty() {
        judge(rt, stage, same(end, b"clean"));
    }
}

// The copies that were held back, in order: the topic, the channel and the id of each.
fn put_all_held(rt: &impl Abort, text: &mut Vec<u8>, stage: &Stage) {
    for (entry, _) in stage.entries() {
        put_held(rt, text, &entry.act);
    }
}

fn put_held(rt: &impl Abort, text: &mut Vec<u8>, act: &Act) {
    if let Act::HeldBack(topic, channel, id) = act {
        put(rt, text, b"; held");
        put_word(rt, text, topic.bytes());
        put_word(rt, text, channel.bytes());
        put(rt, text, b" ");
        put_id(rt, text, id);
    }
}

// What differs from the lines that are calls.
fn compare_calls(rt: &impl Abort, stage: &mut Stage) {
    let mut text = Vec::new(stage.alloc);
    for place in 0..stage.done.len() {
        compare_call(rt, &mut text, stage, place);
        if !text.is_empty() {
            break;
        }
    }
    stage.wrong = text;
}

fn compare_call(rt: &impl Abort, text: &mut Vec<u8>, stage: &Stage, place: usize) {
    let Some(done) = stage.done.get(place) else {
        return;
    };
    let mut told = Vec::new(stage.alloc);
    if stage.opened {
        put(rt, &mut told, &done.answer);
    } else {
        put_done(rt, &mut told, done, stage.entries());
    }
    let (_, wanted) = halves(&done.line, " => ");
    if !same(&told, wanted.as_bytes()) {
        return put_line(rt, text, &done.line, &told);
    }
    if !stage.opened && !is_in_order(rt, stage.alloc, done, stage.entries()) {
        put_line(rt, text, &done.line, b"isn't in order");
    }
}

// What differs in what a run noted and left. Then its files are those that the next one begins with.
fn judge(rt: &impl Abort, stage: &mut Stage, is_clean: bool) {
    let options = options_of(rt, stage.alloc, &stage.setting);
    let files = stage.files_left(rt);
    let left = if is_clean {
        Some(files.as_slice())
    } else {
        None
    };
    let wrong = wrong_in(rt, stage.alloc, &options, stage.run(), left);
    drop(options);
    if !wrong.is_empty() {
        stage.tell(rt, "the run", wrong);
    }
    stage.go_on(files);
}

// Compares a file that a run left, or that it didn't leave.
fn compare_file(rt: &impl Abort, stage: &mut Stage, name: &str, wanted: Option<&str>) {
    let mut bytes = Vec::new(stage.alloc);
    put_bytes(rt, &mut bytes, wanted.unwrap_or(""));
    let wanted = if wanted.is_some() {
        Some(bytes.as_slice())
    } else {
        None
    };
    let file = stage.file(name);
    if !same_file(file, wanted) {
        let mut text = Vec::new(stage.alloc);
        put_line(rt, &mut text, name, file.unwrap_or(b"isn't there"));
        stage.wrong = text;
    }
}

// Stops the run where a row doesn't hold, with its name and what differs in it.
//
// One over files that were opened, over a folder with faults, or in which it lacked memory begins once more. So where one allocation fails, whichever it
// is (`rt try --test --fail-alloc N`), the row holds or the run ends at once, as a row itself has no memory. What differs otherwise counts the first time:
// a turn in which an allocation failed may have lost nothing, and noted nothing that it didn't answer.
fn try_row(rt: &impl Abort, stage: &mut Stage, row: &str) {
    let (name, lines) = halves(row, "\n");
    stage.clear();
    run(rt, stage, lines);
    let (_, failed) = stage.called();
    if !stage.wrong.is_empty() && (stage.opened || failed || lines.contains("fails ")) {
        stage.clear();
        run(rt, stage, lines);
    }
    check(rt, stage.alloc, name, &stage.wrong);
}

fn try_table(rt: &impl Abort, stage: &mut Stage, table: &str) {
    for row in table.split("\n\n") {
        try_row(rt, stage, row.trim());
    }
}

fn try_tables(rt: &impl Abort, alloc: Global, tables: &[&str]) {
    let dials = Dials::new();
    let mut stage = Stage::new(alloc, &dials);
    for table in tables {
        try_table(rt, &mut stage, table);
    }
    stage.close();
}

#[test]
fn transcripts(rt: HostRuntime) {
    try_tables(&rt, rt.alloc(), tables::of_clients());
    try_tables(&rt, rt.alloc(), tables::of_topics());
    try_tables(&rt, rt.alloc(), tables::of_moments());
}

#[test]
fn transcripts_of_runs(rt: HostRuntime) {
    try_tables(&rt, rt.alloc(), restarts::of_names());
    try_tables(&rt, rt.alloc(), restarts::of_messages());
}
