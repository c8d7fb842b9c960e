//! Folders in words: the file of names, and each queue's messages as a stop wrote them, each its letter and its attempts; and what an opening finds
//! there.

use crate::made::{bytes_of, copy, cut, put};
use crate::state::given::{Sent, sent_of};
use broker_files::{Finding, FoundNames, found, start};
use broker_state::State;
use nsq_base::{Body, MsgId, Options};
use path_plain::NamedFile;
use std::alloc::Global;
use std::process::Abort;

// The files of names.
const TEXTS: &str = "\
LISTED {\"id_epoch\":1,\"topics\":[{\"channels\":[{\"name\":\"c\",\"paused\":false}],\"name\":\"t\",\"paused\":false}],\"version\":\"1.0.0\"}~\
LISTED_PAUSED {\"id_epoch\":1,\"topics\":[{\"channels\":[{\"name\":\"c\",\"paused\":true}],\"name\":\"t\",\"paused\":false}],\"version\":\"1.0.0\"}~\
TOPIC_ALONE {\"id_epoch\":1,\"topics\":[{\"channels\":[],\"name\":\"t\",\"paused\":false}],\"version\":\"1.0.0\"}~\
NOTHING {\"id_epoch\":1,\"topics\":[],\"version\":\"1.0.0\"}~\
NEXT_EPOCH {\"id_epoch\":2,\"topics\":[{\"channels\":[{\"name\":\"c\",\"paused\":false}],\"name\":\"t\",\"paused\":false}],\"version\":\"1.0.0\"}~\
";

/// The file of names of this word.
pub fn listed(rt: &impl Abort, word: &str) -> &'static [u8] {
    bytes_of(rt, TEXTS, word)
}

/// Adds these parts, one behind the other.
fn add_each(rt: &impl Abort, bytes: &mut Vec<u8>, parts: &[&[u8]]) {
    for part in parts {
        bytes.extend_from_slice(part).expect(rt, "memory");
    }
}

/// Adds a record of a queue: its size, and the message.
fn add_record(rt: &impl Abort, bytes: &mut Vec<u8>, sent: Sent) {
    let id = MsgId::make(1, sent.number.min(255));
    let attempts = sent.attempts.to_be_bytes();
    add_each(
        rt,
        bytes,
        &[
            b"\0\0\0\x1b",
            &[0; 8],
            &attempts,
            id.bytes(),
            &[sent.letter],
        ],
    );
}

/// Adds a file, whose name is that of a queue and what it is of the queue.
fn add_file(
    rt: &impl Abort,
    alloc: Global,
    files: &mut Vec<NamedFile>,
    queue: &[u8],
    part: &[u8],
    bytes: &[u8],
) {
    let mut name = Vec::new(alloc);
    add_each(rt, &mut name, &[queue, part]);
    let file = NamedFile {
        name: Body::of(name),
        bytes: copy(rt, alloc, bytes),
    };
    put(rt, files, file);
}

/// Adds the files of a queue: its name, and its messages, all of them in the first data file.
fn add_queue(rt: &impl Abort, alloc: Global, files: &mut Vec<NamedFile>, queue: &str) {
    let (name, messages) = cut(queue);
    let mut bytes = Vec::new(alloc);
    let mut count = 0usize;
    for word in messages.split(' ') {
        add_record(rt, &mut bytes, sent_of(rt, word));
        count = count.saturating_add(1);
    }
    let name = name.as_bytes();
    add_file(rt, alloc, files, name, b".diskqueue.000000.dat", &bytes);
    let positions = format!(in alloc; "{}\n0,0\n0,{}\n", count, bytes.len()).expect(rt, "memory");
    let meta = b".diskqueue.meta.dat";
    add_file(rt, alloc, files, name, meta, positions.as_bytes());
}

/// The folder's files: the file of names, and those of these queues.
pub fn files_of(rt: &impl Abort, alloc: Global, text: &[u8], queues: &str) -> Vec<NamedFile> {
    let mut files = Vec::new(alloc);
    add_file(rt, alloc, &mut files, b"nsqd", b".dat", text);
    for queue in queues.split('/') {
        let queue = queue.trim();
        if !queue.is_empty() {
            add_queue(rt, alloc, &mut files, queue);
        }
    }
    files
}

/// What an opening finds in these files, which it doesn't refuse.
pub fn names_in(rt: &impl Abort, alloc: Global, files: &[NamedFile]) -> FoundNames {
    match found(alloc, files).expect(rt, "memory") {
        Finding::Names(names) => names,
        _ => panic!(rt; "files that an opening refuses"),
    }
}

/// What the run that begins at this moment with these names starts from.
pub fn started(
    rt: &impl Abort,
    alloc: Global,
    names: &FoundNames,
    options: &Options,
    moment: u64,
) -> State {
    if names.epoch >= 16_777_215 {
        panic!(rt; "no epoch is left");
    }
    start(alloc, names, options, moment).expect(rt, "memory")
}
