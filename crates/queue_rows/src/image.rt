//! What queue files are called, what their bytes are, and what the plain program finds in them.
//!
//! A row is a text: its name; a word for what is looked at, and that; and behind `=>` what it is, or `none`.
//!
//! - `found`: a queue, the greatest size of a record, of which the least is 26, and behind `in` the files; the records' bodies, oldest
//!   first, and behind `but` the numbers of the bad files.
//! - `split`: the least size of a record, of which the greatest is 60, and bytes; that they are `whole`, or the place of what is no
//!   record and the size that is read there.
//! - `meta`: a text of metadata; how far the list of file 0 goes, which is read from its start.
//! - `data`, `metadata`, `temporary`, `aside`, `channel`: what is named; its name.
//! - `number`: a file's name; its number in the queue `t`.

use crate::folders::named_files;
use crate::plain::are;
use crate::text::{bytes_of, cut, number, part, size, unknown};
use crate::{check, is, same};
use path_plain::{Found, Listing, found_queue};
use queue_image::{Positions, file_names, read_meta};
use queue_records::{Row, records_of};
use std::alloc::Global;
use std::process::Abort;

static ROWS: &'static str = "
three records in two files: found q 60 in q.diskqueue.meta.dat is 3/0,0/1,44/; q.diskqueue.000001.dat is size 40+40*c;
        q.diskqueue.000000.dat is size 40+40*a+size 40+40*b; r.diskqueue.000000.dat is of another queue
    => 40*a; 40*b; 40*c but

nothing is left after three takes: found q 60 in q.diskqueue.meta.dat is 0/1,44/1,44/; q.diskqueue.000001.dat is size 40+40*c => but

no file is the queue's: found r 60 in q.diskqueue.meta.dat is 0/1,44/1,44/; q.diskqueue.000001.dat is size 40+40*c => but

three messages of a channel: found t:c 16777242 in t:c.diskqueue.000000.dat is size 27+27*c+size 27+27*b+size 27+27*a;
        t:c.diskqueue.meta.dat is 3/0,0/0,93/
    => 27*c; 27*b; 27*a but

a damaged file is left out, and an absent one at the end is bad: found q 60 in q.diskqueue.meta.dat is 3/0,0/1099511627776,44/;
        q.diskqueue.000000.dat is size 40+40*a+size 25+25*b; q.diskqueue.000007.dat is size 40+40*c
    => 40*c but 0; 1099511627776

bad metadata: found t 60 in t.diskqueue.meta.dat is 1/0/ => none

no file at all: found t 60 in => but

a size below the least: split 26 size 40+40*a+size 25+25*b => 44 25

the least size: split 25 size 40+40*a+size 25+25*b => whole

metadata: meta 3/0,0/0,93/ => 93

a number of 40 digits: meta 0000000000000000000000000000000000000003/0,0/0,93/ => 93

one number of two: meta 1/0/ => none

no third line: meta 3/0,0/ => none

an open line: meta 3/0,0/0,93 => none

a line more: meta 3/0,0/0,93// => none

a letter: meta 3/0,0/0,9x/ => none

no depth: meta /0,0/0,93/ => none

a number of 41 digits: meta 00000000000000000000000000000000000000003/0,0/0,93/ => none

a place past 2^62: meta 3/0,0/0,4611686018427387905/ => none

a file past 2^40: meta 3/0,0/1099511627777,93/ => none

a read place past the write place: meta 3/0,94/0,93/ => none

a read file past the write file: meta 3/1,0/0,93/ => none

a data file: data t 0 => t.diskqueue.000000.dat

a data file with a great number: data t 1000000 => t.diskqueue.1000000.dat

a file of metadata: metadata t => t.diskqueue.meta.dat

its temporary: temporary t => t.diskqueue.meta.dat.tmp

a file that is set aside: aside t.diskqueue.000000.dat => t.diskqueue.000000.dat.bad

a channel: channel t c => t:c

six digits: number t.diskqueue.000012.dat => 12

seven digits: number t.diskqueue.0000012.dat => none

two digits: number t.diskqueue.12.dat => none

another queue's: number t:c.diskqueue.000012.dat => none

no number: number t.diskqueue.meta.dat => none
";

// Whether what is looked at is what the row says.
fn holds(rt: &impl Abort, alloc: Global, row: &str) -> bool {
    let (_, rest) = part(rt, row, ": ");
    let (what, answer) = part(rt, rest, "=>");
    let (word, what) = cut(what.trim());
    let answer = answer.trim();
    if is(word, "found") {
        finds(rt, alloc, what, answer)
    } else if is(word, "split") {
        splits(rt, alloc, what, answer)
    } else if is(word, "meta") {
        says(rt, alloc, what, answer)
    } else if is(word, "number") {
        is_numbered(rt, alloc, what, answer)
    } else {
        is(name_of(rt, alloc, word, what).as_str(), answer)
    }
}

// Whether the plain program finds that.
fn finds(rt: &impl Abort, alloc: Global, what: &str, answer: &str) -> bool {
    let (queue, files) = part(rt, what, " in");
    let (name, limit) = cut(queue);
    let files = named_files(rt, alloc, files);
    let found = found_queue(alloc, files.as_slice(), name, 26, size(rt, limit));
    match found.expect(rt, "memory") {
        Found::Records(listing) => is_listed(rt, alloc, &listing, answer),
        Found::BadMeta => same(answer.as_bytes(), b"none"),
    }
}

// Whether these bodies are found, and these numbers of bad files.
fn is_listed(rt: &impl Abort, alloc: Global, listing: &Listing, answer: &str) -> bool {
    match answer.split_once("but") {
        Some((bodies, bad)) => are(rt, alloc, &listing.bodies, bodies)
            && are_numbers(rt, &listing.bad, bad),
        None => false,
    }
}

// Whether these are the numbers, one by one.
fn are_numbers(rt: &impl Abort, found: &[u64], numbers: &str) -> bool {
    let mut place = 0usize;
    let mut all = true;
    for word in numbers.trim().split_terminator(';') {
        all = all && is_number(found.get(place), number(rt, word.trim()));
        place = place.saturating_add(1);
    }
    all && place == found.len()
}

fn is_number(found: Option<&u64>, number: u64) -> bool {
    match found {
        Some(found) => *found == number,
        None => false,
    }
}

// Whether the bytes are that as a row of records.
fn splits(rt: &impl Abort, alloc: Global, what: &str, answer: &str) -> bool {
    let (least, bytes) = cut(what);
    let bytes = bytes_of(rt, alloc, bytes);
    match records_of(alloc, &bytes, size(rt, least), 60).expect(rt, "memory") {
        Row::Whole(_) => same(answer.as_bytes(), b"whole"),
        Row::Damaged { place, size: read } => match answer.split_once(" ") {
            Some((at, told)) => number(rt, at) == place as u64 && size(rt, told) == read,
            None => false,
        },
    }
}

// The number that is told; None for `none`.
fn told(rt: &impl Abort, answer: &str) -> Option<u64> {
    if is(answer, "none") {
        None
    } else {
        Some(number(rt, answer))
    }
}

// Whether the text says that.
fn says(rt: &impl Abort, alloc: Global, text: &str, answer: &str) -> bool {
    let positions = match told(rt, answer) {
        Some(end) => Some(Positions {
            read_file: 0,
            read_at: 0,
            write_file: 0,
            write_at: end,
        }),
        None => None,
    };
    read_meta(&bytes_of(rt, alloc, text)) == positions
}

// Whether the file has that number.
fn is_numbered(rt: &impl Abort, alloc: Global, file: &str, answer: &str) -> bool {
    file_names::number_of(alloc, "t", file.as_bytes()).expect(rt, "memory") == told(rt, answer)
}

// What it is called.
fn name_of(rt: &impl Abort, alloc: Global, word: &str, what: &str) -> String {
    let (one, other) = cut(what);
    let name = if is(word, "data") {
        file_names::data_file(alloc, one, number(rt, other))
    } else if is(word, "metadata") {
        file_names::meta_file(alloc, what)
    } else if is(word, "temporary") {
        file_names::meta_temp(alloc, what)
    } else if is(word, "aside") {
        file_names::set_aside(alloc, what)
    } else if is(word, "channel") {
        file_names::channel_queue(alloc, one, other)
    } else {
        unknown(rt, word)
    };
    name.expect(rt, "memory")
}

// Each law is called once.
fn call_laws() {
    queue_laws::names();
    queue_laws::records();
    queue_laws::lists();
    queue_laws::reading();
    queue_laws::metadata();
    queue_laws::openings();
}

#[test]
fn rows(rt: HostRuntime) {
    for row in ROWS.trim().split("\n\n") {
        check(&rt, holds(&rt, rt.alloc(), row), row);
    }
    call_laws();
}
