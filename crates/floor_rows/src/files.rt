//! A folder's files as a list, and folders in memory that have them.

use crate::texts::{put_bytes, same};
use nsq_base::Body;
use nsq_fakes::{Failing, MemFolder};
use nsq_outside::{Folder, Listing};
use path_plain::NamedFile;
use std::alloc::Global;
use std::process::Abort;

/// The file of names.
pub const NAMES: &str = "nsqd.dat";

/// A folder with these files, of which these calls fail.
pub fn folder_of(
    rt: &impl Abort,
    alloc: Global,
    files: &[NamedFile],
    fails: &[Failing],
) -> MemFolder {
    let mut given = Vec::new(alloc);
    for file in files {
        push_given(rt, alloc, &mut given, file);
    }
    let fails = Vec::from_slice(alloc, fails).expect(rt, "memory");
    MemFolder::new(alloc, given, fails).expect(rt, "memory")
}

// Adds a file as a folder in memory is given it.
fn push_given(
    rt: &impl Abort,
    alloc: Global,
    given: &mut Vec<(String, Vec<u8>)>,
    file: &NamedFile,
) {
    let name = String::from_utf8_lossy(alloc, file.name.bytes()).expect(rt, "memory");
    let bytes = Vec::from_slice(alloc, file.bytes.bytes()).expect(rt, "memory");
    given.push((name, bytes)).expect(rt, "memory");
}

/// One more file, whose bytes a text stands for. Behind them stand so many spaces that it has `padded` bytes, if it has fewer.
pub fn put_text_file(
    rt: &impl Abort,
    alloc: Global,
    files: &mut Vec<NamedFile>,
    name: &str,
    text: &str,
    padded: usize,
) {
    let mut bytes = Vec::new(alloc);
    put_bytes(rt, &mut bytes, text);
    if bytes.len() < padded {
        bytes.resize(padded, b' ').expect(rt, "memory");
    }
    put_file(rt, alloc, files, name.as_bytes(), bytes);
}

fn put_file(
    rt: &impl Abort,
    alloc: Global,
    files: &mut Vec<NamedFile>,
    name: &[u8],
    bytes: Vec<u8>,
) {
    let name = Body::copy(alloc, name).expect(rt, "memory");
    let bytes = Body::of(bytes);
    files.push(NamedFile { name, bytes }).expect(rt, "memory");
}

/// One more file with a copy of these bytes.
pub fn put_copy(
    rt: &impl Abort,
    alloc: Global,
    files: &mut Vec<NamedFile>,
    name: &[u8],
    bytes: &[u8],
) {
    let bytes = Vec::from_slice(alloc, bytes).expect(rt, "memory");
    put_file(rt, alloc, files, name, bytes);
}

/// Copies of files, behind those that are there.
pub fn put_copies(rt: &impl Abort, alloc: Global, files: &mut Vec<NamedFile>, of: &[NamedFile]) {
    for file in of {
        put_copy(rt, alloc, files, file.name.bytes(), file.bytes.bytes());
    }
}

/// The files of a folder. A listing that fails is tried again.
pub fn files_in(rt: &impl Abort, alloc: Global, folder: &mut MemFolder) -> Vec<NamedFile> {
    let names = names_in(rt, alloc, folder);
    let mut files = Vec::new(alloc);
    for name in &names {
        if let Some(bytes) = folder.file(name.as_str()) {
            put_copy(rt, alloc, &mut files, name.as_bytes(), bytes);
        }
    }
    files
}

fn names_in(rt: &impl Abort, alloc: Global, folder: &mut MemFolder) -> Vec<String> {
    let mut names = Vec::new(alloc);
    for _ in 0..2_000 {
        match folder.list(alloc, "", &mut names) {
            Listing::Done => return names,
            Listing::Failed => {}
            Listing::Memory => panic!(rt; "memory"),
        }
    }
    names
}

/// The bytes of a file, where there is one.
pub fn bytes_of<'a>(files: &'a [NamedFile], name: &str) -> Option<&'a [u8]> {
    for file in files {
        if same(file.name.bytes(), name.as_bytes()) {
            return Some(file.bytes.bytes());
        }
    }
    None
}

/// Whether the bytes of two files, or none, are the same.
pub fn same_file(one: Option<&[u8]>, other: Option<&[u8]>) -> bool {
    match (one, other) {
        (Some(one), Some(other)) => same(one, other),
        (None, None) => true,
        _ => false,
    }
}
