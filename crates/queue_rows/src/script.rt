//! Scripts of calls of a queue over a folder in memory: what each call answers, and what it leaves in the files.
//!
//! A row is a text: its name; behind `queue` the name of a queue, which is made, and its options, which are a constant's name below; behind
//! `files` those that the folder has at the start; behind `fails` the calls of the folder that fail, each from a number on and below another;
//! behind `steps` calls of the queue; and behind `left`, where that stands, what files are at the end. Where a last call stands behind `then`,
//! the calls of the folder that it makes stand behind `calls`. All these lists have a `;` between their items.
//!
//! A step says its answer behind `=>`. With `put` a record is put, with `forget` and `commit` it is staged and then that, with `peek` and
//! `take` the first is read or taken, and the bytes that are told stand at the start of the buffer then. `sync`, `empty` and `delete` are those
//! calls; behind a deletion a new queue is made. With `open` a queue of that name is opened in this one's place, and the answer of that and of
//! `depth` is how many records it has. With `replace` the file `a` is replaced by way of `b`. With `write` and `cut` somebody else does that to
//! a file at a place, and `look` says what a file is.

use crate::folders::{all_told, are_behind, folder_told, is_told};
use crate::stand::{ROLLING, SHORT, Stand, WIDE, let_go, stand_of};
use crate::text::{bytes_of, cut, cut_at, is_done, number, part, size, sync_of, unknown};
use crate::{check, is, opening, order, reading, writing};
use disk_queue::{Emptied, Peek, Put, QueueOptions, Take, replace_file};
use nsq_fakes::MemFolder;
use nsq_outside::{Did, Folder};
use std::alloc::Global;
use std::process::Abort;

// The options of that name.
fn options_of(rt: &impl Abort, word: &str) -> QueueOptions {
    if is(word, "rolling") {
        ROLLING
    } else if is(word, "short") {
        SHORT
    } else if is(word, "wide") {
        WIDE
    } else {
        unknown(rt, word)
    }
}

// What a row says behind its words.
fn parts_of<'a>(rt: &impl Abort, row: &'a str) -> [&'a str; 5] {
    let (_, rest) = part(rt, row, "\n");
    let (_, rest) = part(rt, rest, "queue:");
    let (queue, rest) = part(rt, rest, "files:");
    let (files, rest) = part(rt, rest, "fails:");
    let (fails, rest) = part(rt, rest, "steps:");
    let (steps, left) = cut_at(rest, "left:");
    [queue.trim(), files, fails, steps, left]
}

// Whether each step of a row answers what it says, and the files are then what the row says.
fn holds(rt: &impl Abort, alloc: Global, row: &str) -> bool {
    let [queue, files, fails, steps, left] = parts_of(rt, row);
    let (name, options) = cut(queue);
    let folder = folder_told(rt, alloc, files, fails);
    let mut stand = stand_of(rt, alloc, name, options_of(rt, options), folder);
    let right = plays_all(rt, alloc, &mut stand, name, steps)
        && all_told(rt, alloc, &stand.folder, left);
    let_go(stand);
    right
}

// Plays the steps up to one that doesn't hold, and the last call.
fn plays_all(rt: &impl Abort, alloc: Global, stand: &mut Stand, name: &str, steps: &str) -> bool {
    match steps.split_once("then:") {
        Some((steps, then)) => {
            plays(rt, alloc, stand, name, steps) && makes(rt, alloc, stand, name, then)
        }
        None => plays(rt, alloc, stand, name, steps),
    }
}

// Plays the steps up to one that doesn't hold.
fn plays(rt: &impl Abort, alloc: Global, stand: &mut Stand, name: &str, steps: &str) -> bool {
    for step in steps.trim().split_terminator(';') {
        if !step_holds(rt, alloc, stand, name, step.trim()) {
            return false;
        }
    }
    true
}

// Whether a step answers what it says, and makes the calls of the folder that are told.
fn makes(rt: &impl Abort, alloc: Global, stand: &mut Stand, name: &str, then: &str) -> bool {
    let (step, calls) = part(rt, then, "calls:");
    let before = stand.folder.called().len();
    step_holds(rt, alloc, stand, name, step.trim())
        && are_behind(rt, stand.folder.called(), before, calls)
}

// Whether a step answers what it says.
fn step_holds(rt: &impl Abort, alloc: Global, stand: &mut Stand, name: &str, step: &str) -> bool {
    let (call, answer) = cut_at(step, " => ");
    let (word, rest) = cut(call);
    if is_of(word, "put forget commit peek take") {
        record_holds(rt, alloc, stand, word, rest, answer)
    } else if is_of(word, "replace write cut look") {
        folder_holds(rt, alloc, &mut stand.folder, word, rest, answer)
    } else {
        queue_holds(rt, alloc, stand, name, word, answer)
    }
}

// Whether a word is one of these.
fn is_of(word: &str, words: &str) -> bool {
    for one in words.split(' ') {
        if is(one, word) {
            return true;
        }
    }
    false
}

// Whether a step that tells no record and no file answers what it says.
fn queue_holds(
    rt: &impl Abort,
    alloc: Global,
    stand: &mut Stand,
    name: &str,
    word: &str,
    answer: &str,
) -> bool {
    if is(word, "sync") {
        stand.sync() == sync_of(rt, answer)
    } else if is(word, "empty") {
        (stand.empty() == Emptied::Done) == is_done(rt, answer)
    } else if is(word, "open") {
        stand.open(alloc, name).is_ok() && has(rt, stand, answer)
    } else if is(word, "depth") {
        has(rt, stand, answer)
    } else if is(word, "delete") {
        stand.delete(rt, alloc, name) && answer.is_empty()
    } else {
        unknown(rt, word)
    }
}

// Whether the queue has so many records.
fn has(rt: &impl Abort, stand: &Stand, answer: &str) -> bool {
    stand.queue.depth() == u128::from(number(rt, answer))
}

// Whether a step with a record answers what it says.
fn record_holds(
    rt: &impl Abort,
    alloc: Global,
    stand: &mut Stand,
    word: &str,
    rest: &str,
    answer: &str,
) -> bool {
    let bytes = bytes_of(rt, alloc, rest);
    if is(word, "put") {
        stand.put(rt, &bytes) == put_of(rt, answer)
    } else if is(word, "forget") {
        stand.forget(rt, &bytes)
    } else if is(word, "commit") {
        stand.commit(rt, &bytes, sync_of(rt, answer))
    } else if is(word, "peek") {
        peeks(rt, stand, &bytes, answer)
    } else {
        takes(rt, stand, &bytes, answer)
    }
}

// Whether the first record is read, and begins so.
fn peeks(rt: &impl Abort, stand: &mut Stand, bytes: &[u8], answer: &str) -> bool {
    let mut into = [0; 60];
    stand.peek(rt, &mut into) == peek_of(rt, answer) && into.starts_with(bytes)
}

// The same where it is taken.
fn takes(rt: &impl Abort, stand: &mut Stand, bytes: &[u8], answer: &str) -> bool {
    let mut into = [0; 60];
    stand.take(rt, &mut into) == take_of(rt, answer) && into.starts_with(bytes)
}

// Whether a step that isn't a call of the queue answers what it says.
fn folder_holds(
    rt: &impl Abort,
    alloc: Global,
    folder: &mut MemFolder,
    word: &str,
    rest: &str,
    answer: &str,
) -> bool {
    if is(word, "look") {
        is_told(rt, alloc, folder, rest)
    } else if is(word, "replace") {
        let bytes = bytes_of(rt, alloc, rest);
        (replace_file(folder, "a", "b", &bytes) == Did::Done) == is_done(rt, answer)
    } else {
        is_changed(rt, alloc, folder, word, rest)
    }
}

// Whether somebody else writes to a file, or cuts it.
fn is_changed(
    rt: &impl Abort,
    alloc: Global,
    folder: &mut MemFolder,
    word: &str,
    rest: &str,
) -> bool {
    let (name, rest) = cut(rest);
    let (place, bytes) = cut(rest);
    if is(word, "cut") {
        return folder.cut(name, number(rt, place)) == Did::Done;
    }
    let bytes = bytes_of(rt, alloc, bytes);
    folder.write_at(name, number(rt, place), &bytes) == Did::Done
}

fn put_of(rt: &impl Abort, answer: &str) -> Put {
    let (word, rest) = cut(answer);
    if is(word, "stored,") {
        Put::Stored(sync_of(rt, rest))
    } else if is(word, "too-long") {
        Put::TooLong(size(rt, rest))
    } else if is(answer, "fault") {
        Put::Fault
    } else {
        unknown(rt, answer)
    }
}

fn peek_of(rt: &impl Abort, answer: &str) -> Peek {
    let (word, count) = cut(answer);
    if is(word, "got") {
        Peek::Got(number(rt, count) as usize)
    } else if is(answer, "empty") {
        Peek::Empty
    } else {
        unknown(rt, answer)
    }
}

fn take_of(rt: &impl Abort, answer: &str) -> Take {
    let (word, rest) = cut(answer);
    if is(word, "got") {
        let (count, saved) = part(rt, rest, ", ");
        Take::Got(number(rt, count) as usize, sync_of(rt, saved))
    } else if is(word, "damaged") {
        let (file, rest) = cut(rest);
        let (place, read) = cut(rest);
        Take::Damaged(number(rt, file), number(rt, place), size(rt, read))
    } else if is(answer, "empty") {
        Take::Empty
    } else {
        unknown(rt, answer)
    }
}

// Stops the test where a row of a table doesn't hold.
fn check_all(rt: &impl Abort, alloc: Global, table: &str) {
    for row in table.trim().split("\n\n") {
        check(rt, holds(rt, alloc, row), row);
    }
}

#[test]
fn rows(rt: HostRuntime) {
    check_all(&rt, rt.alloc(), writing::rows());
    check_all(&rt, rt.alloc(), reading::rows());
    check_all(&rt, rt.alloc(), opening::scripts());
    check_all(&rt, rt.alloc(), order::rows());
}
