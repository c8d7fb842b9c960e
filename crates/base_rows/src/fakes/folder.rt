//! Rows of a folder in memory.
//!
//! A row is a text: its name; behind `files` the files at first, with a `;` between them, each a name and its bytes; behind `fails` calls that
//! fail, each a method and the numbers from which on and below which they do; calls with what they answer; behind `there` files that are there
//! then, and behind `absent` names that no file has; behind `kept` the calls that the folder kept, each a method, the name of its file, and
//! the new name of a rename.

use crate::folder_steps::all_answer;
use crate::words::{cut, halves, is, is_first, number, part};
use crate::{check, same};
use nsq_fakes::{Called, Failing, FolderCall, MemFolder};
use std::alloc::Global;
use std::process::Abort;

static ROWS: &'static str = "
reads and writes
        files a one; b two
        fails
        calls write a 1 xyz = done; len a = 4; write c 2 ! = done; read a 2 = 2 yz--; cut a 2 = done
        there a ox; b two; c \0\0!
        absent
        kept write a; len a; write c; read a; cut a

a rename takes the place of a file
        files a one; b two
        fails
        calls rename a b = done; list = b; sync b = done
        there b one
        absent a
        kept rename a b; list; sync b

a file that is removed is absent
        files a one; b two
        fails
        calls remove b = done; sync-names = done; len b = absent
        there a one
        absent b
        kept remove b; sync-names; len b

calls that are to fail do, by their numbers of one method and of all
        files a one; b two
        fails write 1 2; any 4 5
        calls sync a = done; write a 0 1 = done; write a 0 2 = failed; write a 1 3 = done; remove a = failed; read a 0 = 3 13e;
            remove a = done
        there b two
        absent a
        kept sync a; write a; write a; write a; remove a; read a; remove a

listings by a beginning
        files
        fails
        calls by-beginning
        there a one; a.2; b.1 two
        absent a.1 ab.1
        kept list; write a; write a.1; write a.2; write ab.1; list; list; list; list; list; list; rename a.1 b.1; list; list;
            rename ab.1 a.2; list; list; remove a.2; list; cut a.2; list; list
";

/// A folder with these files, of which these calls fail.
fn made(rt: &impl Abort, alloc: Global, files: &str, fails: &str) -> MemFolder {
    let mut list = Vec::new(alloc);
    push_files(rt, alloc, files, &mut list);
    let mut failing = Vec::new(alloc);
    push_fails(rt, fails, &mut failing);
    MemFolder::new(alloc, list, failing).expect(rt, "memory")
}

fn push_files(rt: &impl Abort, alloc: Global, files: &str, list: &mut Vec<(String, Vec<u8>)>) {
    for file in files.split(';') {
        let (name, bytes) = cut(file.trim());
        if !name.is_empty() {
            let name = String::from_str(alloc, name).expect(rt, "memory");
            let bytes = bytes.as_bytes().to_vec(alloc).expect(rt, "memory");
            list.push((name, bytes)).expect(rt, "memory");
        }
    }
}

fn push_fails(rt: &impl Abort, fails: &str, list: &mut Vec<Failing>) {
    for calls in fails.split(';') {
        let (method, range) = cut(calls.trim());
        if !method.is_empty() {
            let call = if is_first(rt, method, "write", "any") {
                FolderCall::WriteAt
            } else {
                FolderCall::Any
            };
            let (from, to) = cut(range);
            let from = number(rt, from);
            let to = number(rt, to);
            list.push(Failing { call, from, to }).expect(rt, "memory");
        }
    }
}

/// Whether a file has these bytes.
pub fn is_file(folder: &MemFolder, name: &str, bytes: &[u8]) -> bool {
    match folder.file(name) {
        Some(found) => same(found, bytes),
        None => false,
    }
}

/// Whether these files are there, and none of the absent ones.
fn has(folder: &MemFolder, there: &str, absent: &str) -> bool {
    let mut all = true;
    for file in there.split(';') {
        let (name, bytes) = cut(file.trim());
        all = all && is_file(folder, name, bytes.as_bytes());
    }
    for name in absent.split(' ') {
        all = all && folder.file(name).is_none();
    }
    all
}

/// The word of a method.
fn word_of(call: FolderCall) -> &'static str {
    match call {
        FolderCall::List => "list",
        FolderCall::Len => "len",
        FolderCall::ReadAt => "read",
        FolderCall::WriteAt => "write",
        FolderCall::Cut => "cut",
        FolderCall::Sync => "sync",
        FolderCall::SyncNames => "sync-names",
        FolderCall::Rename => "rename",
        FolderCall::Remove => "remove",
        FolderCall::Any => "any",
    }
}

/// Whether these calls were made, in this order.
fn is_called(called: &[Called], want: &str) -> bool {
    let mut all = true;
    let mut left = want;
    for call in called {
        let (one, behind) = halves(left, ";");
        all = all && is_made(call, one.trim());
        left = behind;
    }
    all && left.is_empty()
}

/// Whether this call was made.
fn is_made(made: &Called, want: &str) -> bool {
    let (call, names) = cut(want);
    let (name, to) = cut(names);
    is(word_of(made.call), call) && is(made.name.as_str(), name) && is(made.to.as_str(), to)
}

fn holds(rt: &impl Abort, alloc: Global, row: &str) -> bool {
    let (_, rest) = part(rt, row, "\n        files");
    let (files, rest) = part(rt, rest, "\n        fails");
    let (fails, rest) = part(rt, rest, "\n        calls ");
    let (calls, rest) = part(rt, rest, "\n        there ");
    let (there, rest) = part(rt, rest, "\n        absent");
    let (absent, kept) = part(rt, rest, "\n        kept ");
    let mut folder = made(rt, alloc, files, fails);
    let all = all_answer(rt, alloc, &mut folder, calls);
    let keeps = has(&folder, there, absent.trim()) && is_called(folder.called(), kept);
    drop(folder);
    all && keeps
}

#[test]
fn rows(rt: HostRuntime) {
    for row in ROWS.trim().split("\n\n") {
        check(&rt, holds(&rt, rt.alloc(), row), row);
    }
}
