//! Folders in memory, as rows tell them: files with a `;` between them, of which each `is` bytes, or is `empty` or `absent`; and the calls that
//! were made, each with the name of its file, and a rename with the new one.

use crate::same;
use crate::text::{bytes_of, call_of, cut, fails_of, part};
use nsq_base::Body;
use nsq_fakes::{Called, Failing, FolderCall, MemFolder};
use path_plain::NamedFile;
use std::alloc::Global;
use std::process::Abort;

/// A folder with the files that are told, of which these calls fail.
pub fn folder_of(rt: &impl Abort, alloc: Global, files: &str, fails: Vec<Failing>) -> MemFolder {
    let files = files_told(rt, alloc, files);
    MemFolder::new(alloc, files, fails).expect(rt, "memory")
}

fn files_told(rt: &impl Abort, alloc: Global, files: &str) -> Vec<(String, Vec<u8>)> {
    let mut all = Vec::new(alloc);
    for file in files.trim().split_terminator(';') {
        let file = file_told(rt, alloc, file.trim());
        all.push(file).expect(rt, "memory");
    }
    all
}

/// The same where the calls that fail are told too.
pub fn folder_told(rt: &impl Abort, alloc: Global, files: &str, fails: &str) -> MemFolder {
    folder_of(rt, alloc, files, fails_of(rt, alloc, fails))
}

/// The same where the call of that number fails, whichever it is.
pub fn folder_failing(rt: &impl Abort, alloc: Global, files: &str, failing: u64) -> MemFolder {
    let fails = [Failing {
        call: FolderCall::Any,
        from: failing,
        to: failing.saturating_add(1),
    }];
    folder_of(rt, alloc, files, fails.to_vec(alloc).expect(rt, "memory"))
}

/// Takes a folder apart, once for all that held one.
pub fn let_folder_go(_folder: MemFolder) {}

fn file_told(rt: &impl Abort, alloc: Global, file: &str) -> (String, Vec<u8>) {
    let (name, bytes) = named(rt, file);
    let name = String::from_str(alloc, name).expect(rt, "memory");
    (name, bytes_of(rt, alloc, bytes))
}

// A file's name, and what its bytes are told as.
fn named<'a>(rt: &impl Abort, file: &'a str) -> (&'a str, &'a str) {
    match file.split_once(" is ") {
        Some(parts) => parts,
        None => part(rt, file, " empty"),
    }
}

/// The files that are told, as the plain program takes them.
pub fn named_files(rt: &impl Abort, alloc: Global, files: &str) -> Vec<NamedFile> {
    let mut all = Vec::new(alloc);
    for file in files.trim().split_terminator(';') {
        let (name, bytes) = named(rt, file.trim());
        put_file(rt, alloc, &mut all, name, &bytes_of(rt, alloc, bytes));
    }
    all
}

/// Puts a file behind these.
pub fn put_file(
    rt: &impl Abort,
    alloc: Global,
    files: &mut Vec<NamedFile>,
    name: &str,
    bytes: &[u8],
) {
    let name = Body::copy(alloc, name.as_bytes()).expect(rt, "memory");
    let bytes = Body::copy(alloc, bytes).expect(rt, "memory");
    files.push(NamedFile { name, bytes }).expect(rt, "memory");
}

/// Whether each file is what is told of it.
pub fn all_told(rt: &impl Abort, alloc: Global, folder: &MemFolder, looks: &str) -> bool {
    let mut all = true;
    for look in looks.trim().split_terminator(';') {
        all = all && is_told(rt, alloc, folder, look.trim());
    }
    all
}

/// Whether a file is what is told of it.
pub fn is_told(rt: &impl Abort, alloc: Global, folder: &MemFolder, look: &str) -> bool {
    match look.split_once(" absent") {
        Some((name, "")) => folder.file(name).is_none(),
        _ => is_there(rt, alloc, folder, look),
    }
}

// Whether a file is there, with the bytes that are told.
fn is_there(rt: &impl Abort, alloc: Global, folder: &MemFolder, file: &str) -> bool {
    let (name, bytes) = named(rt, file);
    let bytes = bytes_of(rt, alloc, bytes);
    match folder.file(name) {
        Some(found) => same(found, &bytes),
        None => false,
    }
}

/// Whether behind the first so many calls that were made these stand, and no other.
pub fn are_behind(rt: &impl Abort, called: &[Called], before: usize, calls: &str) -> bool {
    let mut place = before;
    let mut all = true;
    for call in calls.trim().split_terminator(';') {
        all = all && is_call(rt, called, place, call.trim());
        place = place.saturating_add(1);
    }
    all && place == called.len()
}

// Whether this call was made at that place.
fn is_call(rt: &impl Abort, called: &[Called], place: usize, call: &str) -> bool {
    let (method, names) = cut(call);
    let (name, to) = cut(names);
    match called.get(place) {
        Some(made) => {
            made.call == call_of(rt, method)
                && same(made.name.as_bytes(), name.as_bytes())
                && same(made.to.as_bytes(), to.as_bytes())
        }
        None => false,
    }
}
