//! What an opening finds in a folder, as the plain program reads its files.

use broker_files::{Finding, FoundNames, found, is_all_left, kept_names, names_text, start};
use broker_state::State;
use nsq_base::{Body, Options};
use nsq_fakes::MemFolder;
use nsq_outside::{Folder, Listing};
use path_plain::NamedFile;
use std::alloc::Global;
use std::process::Abort;

// The names of the folder's files. Where the folder fails, that is tried again.
fn names_in(rt: &impl Abort, alloc: Global, folder: &mut MemFolder) -> Vec<String> {
    let mut names = Vec::new(alloc);
    for _ in 0..100 {
        match folder.list(alloc, "", &mut names) {
            Listing::Done => return names,
            Listing::Failed => {}
            Listing::Memory => panic!(rt; "memory"),
        }
    }
    names
}

// The folder's files, and one of names that keeps those of the state.
fn files_in(
    rt: &impl Abort,
    alloc: Global,
    folder: &mut MemFolder,
    state: &State,
) -> Vec<NamedFile> {
    let names = names_in(rt, alloc, folder);
    let mut files = copies_of(rt, alloc, folder, &names);
    let kept = kept_names(alloc, state).expect(rt, "memory");
    let text = names_text(alloc, &kept).expect(rt, "memory");
    put_file(rt, alloc, &mut files, b"nsqd.dat", &text);
    files
}

// Copies of the files of these names.
fn copies_of(
    rt: &impl Abort,
    alloc: Global,
    folder: &MemFolder,
    names: &[String],
) -> Vec<NamedFile> {
    let mut files = Vec::new(alloc);
    for name in names {
        if let Some(bytes) = folder.file(name.as_str()) {
            put_file(rt, alloc, &mut files, name.as_bytes(), bytes);
        }
    }
    files
}

// Puts a file of this name and these bytes at the end.
fn put_file(rt: &impl Abort, alloc: Global, files: &mut Vec<NamedFile>, name: &[u8], bytes: &[u8]) {
    let file = NamedFile {
        name: Body::copy(alloc, name).expect(rt, "memory"),
        bytes: Body::copy(alloc, bytes).expect(rt, "memory"),
    };
    files.push(file).expect(rt, "memory");
}

/// The state in which the next run begins: what an opening finds in the folder, where that is all that is left of this state.
pub fn next_run(
    rt: &impl Abort,
    alloc: Global,
    folder: &mut MemFolder,
    state: &State,
    options: &Options,
) -> Option<State> {
    let files = files_in(rt, alloc, folder, state);
    match found(alloc, &files).expect(rt, "memory") {
        Finding::Names(names) => begun(rt, alloc, state, &names, options),
        Finding::BadData | Finding::EpochSpent => None,
    }
}

// The state in which a run begins that finds these names, where they are all that is left of the state.
fn begun(
    rt: &impl Abort,
    alloc: Global,
    state: &State,
    names: &FoundNames,
    options: &Options,
) -> Option<State> {
    if names.epoch >= 16_777_215 {
        return None;
    }
    if !is_all_left(alloc, state, names).expect(rt, "memory") {
        return None;
    }
    Some(start(alloc, names, options, state.moment).expect(rt, "memory"))
}
