//! Calls on a folder, each with what it answers.
//!
//! Steps stand in a text with a `;` between them. A step is a call, and behind ` = ` its answer:
//!
//! - `list`, which may have a beginning: the names that it gives, in any order, or `failed`. No file has that name.
//! - `len NAME`: how many bytes the file has, `absent` or `failed`.
//! - `read NAME FROM`: how many bytes came, and what the buffer holds then, each of whose bytes is `-` before; or `failed`.
//! - `write NAME FROM BYTES`, `cut NAME TO`, `sync NAME`, `sync-names`, `rename NAME NEW`, `remove NAME`: `done` or `failed`.
//! - `cut-far NAME`, a cut to 2^62 bytes, which most systems refuse: what `len` answers where it failed.

use crate::same;
use crate::words::{cut, halves, is, is_did, is_number, number};
use nsq_outside::{Did, Folder, Length, Listing, ReadAt};
use std::alloc::Global;
use std::process::Abort;

/// The most bytes of the buffer of a read.
const MOST_READ: usize = 8;

/// Listings by a beginning, of files that are written, renamed and removed. The folder is empty before.
const BY_BEGINNING: &str =
    "list a =; write a 0 one = done; write a.1 0 two = done; write a.2 0 three = done; write ab.1 0 four = done;
    list a. = a.1 a.2; list ab. = ab.1; list a = a a.1 a.2 ab.1; list ab.1 = ab.1; list ab.10 =; list b =;
    rename a.1 b.1 = done; list a. = a.2; list b = b.1; rename ab.1 a.2 = done; list ab. =; list a. = a.2;
    remove a.2 = done; list a. =; cut a.2 0 = done; list a = a a.2; list = a a.2 b.1";

/// The steps that a row says: `by-beginning` stands for these of above.
pub fn steps_of(text: &str) -> &str {
    if is(text, "by-beginning") {
        BY_BEGINNING
    } else {
        text
    }
}

/// Whether a folder answers all these calls so.
pub fn all_answer<F: Folder>(rt: &impl Abort, alloc: Global, folder: &mut F, steps: &str) -> bool {
    for step in steps_of(steps).split(';') {
        if !answers(rt, alloc, folder, step.trim()) {
            return false;
        }
    }
    true
}

/// Whether a folder answers a call so.
pub fn answers<F: Folder>(rt: &impl Abort, alloc: Global, folder: &mut F, step: &str) -> bool {
    let (call, answer) = halves(step, " =");
    let answer = answer.trim();
    let (what, rest) = cut(call);
    let (name, rest) = cut(rest);
    match what {
        "list" => lists(alloc, folder, name, answer),
        "len" => is_length(folder.len(name), answer),
        "read" => reads(folder, name, number(rt, rest), answer),
        "cut-far" => cuts_far(folder, name, answer),
        _ => changes(rt, folder, what, name, rest, answer),
    }
}

/// Whether a folder answers a call so that changes it or makes it durable.
fn changes<F: Folder>(
    rt: &impl Abort,
    folder: &mut F,
    what: &str,
    name: &str,
    rest: &str,
    answer: &str,
) -> bool {
    let (at, bytes) = cut(rest);
    let did = match what {
        "write" => folder.write_at(name, number(rt, at), bytes.as_bytes()),
        "cut" => folder.cut(name, number(rt, at)),
        "sync" => folder.sync(name),
        "sync-names" => folder.sync_names(),
        "rename" => folder.rename(name, at),
        "remove" => folder.remove(name),
        _ => return false,
    };
    is_did(did, answer)
}

/// Whether a word says this length.
fn is_length(length: Length, word: &str) -> bool {
    match length {
        Length::Is(count) => is_number(count, word),
        Length::Absent => is(word, "absent"),
        Length::Failed => is(word, "failed"),
    }
}

/// Whether a listing by a beginning gives these names and no others, or fails where it is to.
fn lists<F: Folder>(alloc: Global, folder: &mut F, beginning: &str, want: &str) -> bool {
    let mut names = Vec::new(alloc);
    match folder.list(alloc, beginning, &mut names) {
        Listing::Done => are_names(&names, want),
        Listing::Failed => is(want, "failed"),
        Listing::Memory => false,
    }
}

/// Whether these are the names, in any order.
fn are_names(names: &[String], want: &str) -> bool {
    let mut left = names.len();
    for name in want.split(' ') {
        if !name.is_empty() {
            if left == 0 || !is_among(names, name) {
                return false;
            }
            left -= 1;
        }
    }
    left == 0
}

/// Whether a name is among these.
fn is_among(names: &[String], want: &str) -> bool {
    for name in names {
        if is(name.as_str(), want) {
            return true;
        }
    }
    false
}

/// Whether a read answers so, and leaves these bytes in its buffer. The buffer of one that is to fail has 4 bytes.
fn reads<F: Folder>(folder: &mut F, name: &str, at: u64, answer: &str) -> bool {
    let (got, after) = cut(answer);
    let after = if is(got, "failed") { "----" } else { after };
    let mut into = [b'-'; MOST_READ];
    let room = after.len().min(MOST_READ);
    let part = &mut into[..room];
    match folder.read_at(name, at, part) {
        ReadAt::Got(count) => is_number(count as u64, got) && same(part, after.as_bytes()),
        ReadAt::Failed => is(got, "failed"),
    }
}

/// Whether a file has 2^62 bytes after a cut to them that was carried out, and this length after one that failed.
fn cuts_far<F: Folder>(folder: &mut F, name: &str, before: &str) -> bool {
    match folder.cut(name, 1 << 62) {
        Did::Done => folder.len(name) == Length::Is(1 << 62),
        Did::Failed => is_length(folder.len(name), before),
    }
}
