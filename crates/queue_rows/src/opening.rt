//! What an opening makes of a queue's files.

use crate::check;
use crate::folders::{folder_failing, folder_told, let_folder_go};
use crate::plain::{are, found};
use crate::stand::{SHORT, let_queue_go};
use crate::text::{part, unknown};
use disk_queue::{Open, Queue};
use nsq_fakes::MemFolder;
use path_plain::Found;
use std::alloc::Global;
use std::process::Abort;

// A good file 1, a read one below it, a damaged write file 3, one above it, and no file 2.
const DAMAGED_FILES: &str =
    "q.diskqueue.meta.dat is 3/1,0/3,5/; q.diskqueue.000000.dat is size 1+z; q.diskqueue.000001.dat is size 1+a+size 2+bc;
    q.diskqueue.000003.dat is size 2+de; q.diskqueue.000003.dat.bad is old; q.diskqueue.000004.dat is above;
    q.diskqueue.000005.dat.bad is kept; q:c.diskqueue.000000.dat is another";

static ROWS: &'static str = "
the depth is not trusted
    queue: q short
    files: q.diskqueue.meta.dat is 7/0,5/0,11/; q.diskqueue.000000.dat is size 1+a+size 2+bc+size 1+d
    fails: steps: open => 1
    left: q.diskqueue.meta.dat is 1/0,5/0,11/; q.diskqueue.000000.dat is size 1+a+size 2+bc

a damaged write file
    queue: q short
    files: q.diskqueue.meta.dat is 3/1,0/3,5/; q.diskqueue.000000.dat is size 1+z; q.diskqueue.000001.dat is size 1+a+size 2+bc;
        q.diskqueue.000003.dat is size 2+de; q.diskqueue.000003.dat.bad is old; q.diskqueue.000004.dat is above;
        q.diskqueue.000005.dat.bad is kept; q:c.diskqueue.000000.dat is another
    fails: steps: open => 2; look q.diskqueue.meta.dat is 2/1,0/4,0/; look q.diskqueue.000000.dat absent; look q.diskqueue.000003.dat absent;
        look q.diskqueue.000003.dat.bad is size 2+de; look q.diskqueue.000004.dat.bad is above;
        look q.diskqueue.000005.dat.bad is kept; look q:c.diskqueue.000000.dat is another; look q.diskqueue.000004.dat empty;
        put f => stored, not due
    left: q.diskqueue.000004.dat is size 1+f

a damaged read file
    queue: q short
    files: q.diskqueue.meta.dat is 9/1,5/2,5/; q.diskqueue.000001.dat is size 1+a+zeros 3; q.diskqueue.000002.dat is size 1+b+size 1+c
    fails: steps: open => 1
    left: q.diskqueue.meta.dat is 1/1,0/2,5/; q.diskqueue.000001.dat.bad is size 1+a+zeros 3; q.diskqueue.000002.dat is size 1+b

the last number
    queue: q short
    files: q.diskqueue.meta.dat is 9/0,0/1099511627776,4/; q.diskqueue.000000.dat is size 1+a;
        q.diskqueue.1099511627776.dat is size 1+b
    fails: steps: open => 1
    left: q.diskqueue.meta.dat is 1/0,0/1099511627776,0/; q.diskqueue.1099511627776.dat.bad is size 1+b;
        q.diskqueue.1099511627776.dat empty

without metadata
    queue: q short
    files: q.diskqueue.000000.dat is size 1+a; q.diskqueue.000007.dat is seven; q:c.diskqueue.000000.dat is another
    fails: steps: open => 0
    left: q.diskqueue.meta.dat is 0/0,0/0,0/; q.diskqueue.000000.dat empty; q.diskqueue.000000.dat.bad is size 1+a;
        q.diskqueue.000007.dat.bad is seven; q.diskqueue.000007.dat absent; q:c.diskqueue.000000.dat is another

an empty list begins at the start of its file
    queue: q short
    files: q.diskqueue.meta.dat is 4/3,5/3,5/; q.diskqueue.000003.dat is size 1+a+zeros 2
    fails: steps: open => 0
    left: q.diskqueue.meta.dat is 0/3,0/3,0/; q.diskqueue.000003.dat empty; q.diskqueue.000003.dat.bad absent

a great gap is passed over at once
    queue: q short
    files: q.diskqueue.meta.dat is 0/0,0/1099511627776,0/; q.diskqueue.000005.dat empty
    fails: steps: open => 0
    left: q.diskqueue.meta.dat is 0/1099511627776,0/1099511627776,0/; q.diskqueue.000005.dat absent

what was taken is not found
    queue: q short files: fails:
    steps: put 40*a => stored, not due; put 40*b => stored, not due; put 40*c => stored, done; take 40*a => got 40, not due;
        take 40*b => got 40, not due; take 40*c => got 40, done; open => 0
    left: q.diskqueue.000000.dat absent; q.diskqueue.meta.dat is 0/1,0/1,0/
";

pub fn scripts() -> &'static str {
    ROWS
}

// Metadata that is good, of which an opening makes a queue, and bad.
static METAS: &'static str = "
nothing: bad, q.diskqueue.meta.dat empty
one position: bad, q.diskqueue.meta.dat is 1/0,0/
a letter: bad, q.diskqueue.meta.dat is 1/0,x/0,44/
an open line: bad, q.diskqueue.meta.dat is 1/0,0/0,44
a byte more: bad, q.diskqueue.meta.dat is 1/0,0/0,44/x
a read place past the write place: bad, q.diskqueue.meta.dat is 1/0,44/0,43/
a read file past the write file: bad, q.diskqueue.meta.dat is 1/1,0/0,44/
a depth of 41 digits: bad, q.diskqueue.meta.dat is 00000000000000000000000000000000000000001/0,0/0,44/
a place of 41 digits: bad, q.diskqueue.meta.dat is 1/0,0/0,00000000000000000000000000000000000000044/
a place past 2^62: bad, q.diskqueue.meta.dat is 1/0,0/0,4611686018427387905/
a file past 2^40: bad, q.diskqueue.meta.dat is 1/0,0/1099511627777,0/
a sign: bad, q.diskqueue.meta.dat is -1/0,0/0,44/
300 digits: bad, q.diskqueue.meta.dat is 300*0
a depth of 40 digits: good, q.diskqueue.meta.dat is 0000000000000000000000000000000000000001/0,0/0,0/
";

// How many records an opening of the queue `q` finds.
fn opened(alloc: Global, folder: &mut MemFolder) -> Result<u128, Open> {
    match Queue::open(alloc, folder, "q", SHORT) {
        Ok(queue) => {
            let depth = queue.depth();
            let_queue_go(queue);
            Ok(depth)
        }
        Err(why) => Err(why),
    }
}

// Whether the opening answers what the row says.
fn answers(rt: &impl Abort, alloc: Global, row: &str) -> bool {
    let (_, rest) = part(rt, row, ": ");
    let (answer, file) = part(rt, rest, ", ");
    let mut folder = folder_told(rt, alloc, file, "");
    let opened = opened(alloc, &mut folder);
    let_folder_go(folder);
    match answer {
        "good" => opened.is_ok(),
        "bad" => matches!(opened, Err(Open::BadMeta)),
        _ => unknown(rt, answer),
    }
}

// Whether the plain program finds the records of the good ones between the positions, whatever files are bad.
fn finds_left(rt: &impl Abort, alloc: Global, folder: &MemFolder) -> bool {
    match found(rt, alloc, folder, 1) {
        Found::BadMeta => false,
        Found::Records(listing) => are(rt, alloc, &listing.bodies, "a; bc"),
    }
}

// Whether the plain program finds what is left before and after an opening of the files in which one call fails, and after one behind
// it that opens them.
fn is_found_again(rt: &impl Abort, alloc: Global, folder: &mut MemFolder) -> bool {
    finds_left(rt, alloc, folder)
        && matches!(opened(alloc, folder), Err(Open::Fault))
        && finds_left(rt, alloc, folder)
        && matches!(opened(alloc, folder), Ok(2))
        && finds_left(rt, alloc, folder)
}

// The same of the damaged files, where the call with that number fails.
fn opens_again(rt: &impl Abort, alloc: Global, failing: u64) -> bool {
    let mut folder = folder_failing(rt, alloc, DAMAGED_FILES, failing);
    let right = is_found_again(rt, alloc, &mut folder);
    let_folder_go(folder);
    right
}

// How many calls the opening of the damaged files makes.
const CALLS: u64 = 20;

#[test]
fn rows(rt: HostRuntime) {
    let alloc = rt.alloc();
    for row in METAS.trim().split('\n') {
        check(&rt, answers(&rt, alloc, row), row);
    }
    for failing in 0..CALLS {
        let holds = opens_again(&rt, alloc, failing);
        assert!(rt; holds, "call {failing} of an opening fails");
    }
}
