//! A folder's files as a list, and folders in memory that have them.

use crate::texts::same;
use nsq_base::Body;
use nsq_fakes::{Failing, MemFolder};
use nsq_outside::{Folder, Listing};
use path_plain::NamedFile;
use std::alloc::Global;
use std::process::Abort;

/// A folder with these files, of which these calls fail.
pub fn folder_of(
    rt: &impl Abort,
    alloc: Global,
    files: &[NamedFile],
    fails: Vec<Failing>,
) -> MemFolder {
    MemFolder::new(alloc, given_as(rt, alloc, files), fails).expect(rt, "memory")
}

// Files as a folder in memory is given them.
fn given_as(rt: &impl Abort, alloc: Global, files: &[NamedFile]) -> Vec<(String, Vec<u8>)> {
    let mut given = Vec::new(alloc);
    for file in files {
        push_given(rt, alloc, &mut given, file);
    }
    given
}

// Adds a file as a folder in memory is given it.
fn push_given(
    rt: &impl Abort,
    alloc: Global,
    given: &mut Vec<(String, Vec<u8>)>,
    file: &NamedFile,
) {
    let name = String::from_utf8_lossy(alloc, file.name.bytes()).expect(rt, "memory");
    let bytes = Vec::from_slice(alloc, file.bytes.bytes()).expect(rt, "memory");
    given.push((name, bytes)).expect(rt, "memory");
}

/// Adds a file to a list.
pub fn add_file(
    rt: &impl Abort,
    alloc: Global,
    files: &mut Vec<NamedFile>,
    name: &str,
    bytes: &[u8],
) {
    let name = Body::copy(alloc, name.as_bytes()).expect(rt, "memory");
    let bytes = Body::copy(alloc, bytes).expect(rt, "memory");
    files.push(NamedFile { name, bytes }).expect(rt, "memory");
}

/// Puts a folder's files in the place of these. A listing that fails is tried again.
pub fn list_files(
    rt: &impl Abort,
    alloc: Global,
    folder: &mut MemFolder,
    files: &mut Vec<NamedFile>,
) {
    let names = names_in(rt, alloc, folder);
    files.clear();
    for name in &names {
        if let Some(bytes) = folder.file(name.as_str()) {
            add_file(rt, alloc, files, name.as_str(), bytes);
        }
    }
}

fn names_in(rt: &impl Abort, alloc: Global, folder: &mut MemFolder) -> Vec<String> {
    let mut names = Vec::new(alloc);
    for _ in 0..2_000 {
        match folder.list(alloc, "", &mut names) {
            Listing::Done => break,
            Listing::Failed => {}
            Listing::Memory => panic!(rt; "memory"),
        }
    }
    names
}

/// The bytes of a file, where there is one.
pub fn found_in<'a>(files: &'a [NamedFile], name: &str) -> Option<&'a [u8]> {
    for file in files {
        if same(file.name.bytes(), name.as_bytes()) {
            return Some(file.bytes.bytes());
        }
    }
    None
}
