//! Each call of the folder fails in turn: whether the answers are right all the same, and the list is what it should be, in the files
//! too. What the plain program finds in them judges.
//!
//! A row is a text: its name; how many calls of the folder fail in turn, from the first on, more than the moves make; and the moves of a new
//! queue. With `put` the next letter is put, in a record of 40 bytes, which counts where it was stored. With `take` the first letter is taken,
//! or the folder fails; with `sync` a save is made, whatever its answer, and with `save` one that doesn't fail; with `empty` the list is emptied,
//! or the folder fails; with `count` the queue has as many records as there are letters. With `delete` the queue is deleted, and where that fails
//! saved.

use crate::folders::folder_failing;
use crate::plain::found;
use crate::stand::{ROLLING, Stand, let_go, stand_of};
use crate::text::{cut, number, part, unknown};
use crate::{is, same};
use disk_queue::{Emptied, Put, Sync, Take};
use nsq_base::Bodies;
use nsq_fakes::{FolderCall, MemFolder};
use path_plain::Found;
use std::alloc::Global;
use std::process::Abort;

static TRIALS: [&'static str; 4] = [
    "writing: 40 put sync put put sync save count",
    "reading: 50 put put take put take take sync save",
    "emptying: 30 put put put empty sync",
    "deleting: 30 put put put delete",
];

// What a queue should have: records of 40 bytes, of the letters from `first` on and below `next`. The call with that number fails.
#[derive(Drop)]
struct Letters {
    first: u8,
    next: u8,
    failing: u64,
}

// Whether all is right where the call of the folder with that number fails.
fn holds(rt: &impl Abort, alloc: Global, moves: &str, failing: u64) -> bool {
    let folder = folder_failing(rt, alloc, "", failing);
    let mut stand = stand_of(rt, alloc, "q", ROLLING, folder);
    let mut letters = Letters {
        first: b'a',
        next: b'a',
        failing,
    };
    let right = goes(rt, alloc, &mut stand, &mut letters, moves)
        && finds_letters(rt, alloc, &stand.folder, &letters);
    let_go(stand);
    right
}

// Makes the moves up to one that goes wrong.
fn goes(
    rt: &impl Abort,
    alloc: Global,
    stand: &mut Stand,
    letters: &mut Letters,
    moves: &str,
) -> bool {
    for word in moves.split(' ') {
        if !is_right(rt, alloc, stand, letters, word) {
            return false;
        }
    }
    true
}

// Whether a move's answer is right.
fn is_right(
    rt: &impl Abort,
    alloc: Global,
    stand: &mut Stand,
    letters: &mut Letters,
    word: &str,
) -> bool {
    if is(word, "put") {
        put(rt, stand, letters)
    } else if is(word, "take") {
        take(rt, stand, letters)
    } else if is(word, "sync") {
        stand.sync();
        true
    } else if is(word, "save") {
        stand.sync() != Sync::Failed
    } else if is(word, "empty") {
        empty(rt, alloc, stand, letters)
    } else if is(word, "count") {
        stand.queue.depth() == letters.next.saturating_sub(letters.first) as u128
    } else if is(word, "delete") {
        delete(rt, alloc, stand, letters)
    } else {
        unknown(rt, word)
    }
}

fn put(rt: &impl Abort, stand: &mut Stand, letters: &mut Letters) -> bool {
    if let Put::Stored(_) = stand.put(rt, &[letters.next; 40]) {
        letters.next = letters.next.saturating_add(1);
    }
    true
}

fn take(rt: &impl Abort, stand: &mut Stand, letters: &mut Letters) -> bool {
    let mut into = [0; 60];
    match stand.take(rt, &mut into) {
        Take::Got(size, _) => {
            let right = letters.first < letters.next
                && size == 40
                && into.starts_with(&[letters.first; 40]);
            letters.first = letters.first.saturating_add(1);
            right
        }
        Take::Empty => letters.first == letters.next,
        Take::Fault => true,
        Take::Damaged(_, _, _) => false,
    }
}

// Once the list is emptied an opening finds nothing.
fn empty(rt: &impl Abort, alloc: Global, stand: &mut Stand, letters: &mut Letters) -> bool {
    let before = stand.folder.called().len() as u64;
    if stand.empty() != Emptied::Done {
        return true;
    }
    letters.first = letters.next;
    may_be_done(&stand.folder, before, letters.failing)
        && finds_letters(rt, alloc, &stand.folder, letters)
}

fn delete(rt: &impl Abort, alloc: Global, stand: &mut Stand, letters: &mut Letters) -> bool {
    let before = stand.folder.called().len() as u64;
    if !stand.delete(rt, alloc, "q") {
        return true;
    }
    letters.first = letters.next;
    may_be_done(&stand.folder, before, letters.failing)
}

// Whether the call that fails, where it came behind the first so many, is a removal.
fn may_be_done(folder: &MemFolder, before: u64, failing: u64) -> bool {
    if failing < before {
        return true;
    }
    match folder.called().get(failing as usize) {
        Some(called) => called.call == FolderCall::Remove,
        None => true,
    }
}

// Whether an opening finds these letters, and no bad file.
fn finds_letters(rt: &impl Abort, alloc: Global, folder: &MemFolder, letters: &Letters) -> bool {
    match found(rt, alloc, folder, 26) {
        Found::BadMeta => false,
        Found::Records(listing) => listing.bad.is_empty() && are(&listing.bodies, letters),
    }
}

// Whether these are the letters' records, one by one.
fn are(found: &Bodies, letters: &Letters) -> bool {
    let mut place = 0;
    for letter in letters.first..letters.next {
        if place >= found.count() || !same(found.get(place).bytes(), &[letter; 40]) {
            return false;
        }
        place += 1;
    }
    place == found.count()
}

#[test]
fn rows(rt: HostRuntime) {
    for row in &TRIALS {
        let (_, trial) = part(&rt, row, ": ");
        let (calls, moves) = cut(trial);
        for failing in 0..number(&rt, calls) {
            let holds = holds(&rt, rt.alloc(), moves, failing);
            assert!(rt; holds, "{}: call {failing} fails", row);
        }
    }
}
