//! The plain program's part: what it finds of the queue `q` in a folder in memory. It judges rows whose files aren't written out.

use crate::folders::put_file;
use crate::same;
use crate::text::bytes_of;
use nsq_base::Bodies;
use nsq_fakes::MemFolder;
use path_plain::{Found, found_queue};
use std::alloc::Global;
use std::process::Abort;

// The files of the queue that the plain program is given: the metadata, and the data files with the numbers 0 to 4.
static FILES: [&str; 6] = [
    "q.diskqueue.meta.dat",
    "q.diskqueue.000000.dat",
    "q.diskqueue.000001.dat",
    "q.diskqueue.000002.dat",
    "q.diskqueue.000003.dat",
    "q.diskqueue.000004.dat",
];

/// What is found, of records of so many to 60 bytes.
pub fn found(rt: &impl Abort, alloc: Global, folder: &MemFolder, least: u32) -> Found {
    let mut files = Vec::new(alloc);
    for name in &FILES {
        if let Some(bytes) = folder.file(name) {
            put_file(rt, alloc, &mut files, name, bytes);
        }
    }
    found_queue(alloc, files.as_slice(), "q", least, 60).expect(rt, "memory")
}

/// Whether these are the bodies that are told, one by one, with a `;` between them.
pub fn are(rt: &impl Abort, alloc: Global, found: &Bodies, bodies: &str) -> bool {
    let mut place = 0usize;
    let mut all = true;
    for body in bodies.trim().split_terminator(';') {
        let body = bytes_of(rt, alloc, body.trim());
        all = all && place < found.count() && same(found.get(place).bytes(), &body);
        place = place.saturating_add(1);
    }
    all && place == found.count()
}
