//! Want of memory: a ring that no memory has room for is refused, and what is left where a call found none.
//!
//! Each call that may want memory is looked at and made once more, and so is each that the folder in memory refuses, which wants some to
//! keep its calls. So the rows hold too where one allocation fails, whichever it is: `rt try --test --fail-alloc N`.

use crate::room::Room;
use crate::text::{cut, depths_of, number, part};
use crate::topic::bench::{Bench, let_go};
use crate::{check, same};
use backlog::{Depths, Flushed, PutAll};
use disk_queue::Open;
use nsq_base::{Memory, Topic};
use nsq_fakes::MemFolder;
use std::alloc::Global;
use std::process::Abort;
use topic_core::Head;

// A topic, for how many messages it has room in memory, how many of two wait there and how many on disk, and how many are on disk after a stop.
static ROWS: [&'static str; 3] = [
    "messages in memory: t 2 => 2 0, 2",
    "messages on disk: t 0 => 0 2, 2",
    "messages of an ephemeral topic: t#ephemeral 2 => 2 0, 0",
];

// The numbers of the messages that are put, of which the first is taken.
const NUMBERS: [u64; 2] = [1, 2];

// More messages than any memory has room for.
const BEYOND: u64 = 1 << 57;

// Whether the messages are put. Where that fails they are all left, and all is as before.
fn puts(alloc: Global, bench: &mut Bench, room: &mut Room) -> Result<bool, Memory> {
    let before = bench.shows();
    let (answer, left) = bench.put(alloc, room, &NUMBERS)?;
    if answer == PutAll::Done {
        return Ok(left == 0);
    }
    if left != NUMBERS.len() || bench.shows() != before {
        return Ok(false);
    }
    Ok(bench.put(alloc, room, &NUMBERS)? == (PutAll::Done, 0))
}

// Whether the first message is taken. Where that fails all is as before.
fn takes(alloc: Global, bench: &mut Bench, room: &mut Room) -> Result<bool, Memory> {
    let before = bench.shows();
    match bench.take(alloc, room, b"ab", true)? {
        Some(Head::Ready) => return Ok(true),
        Some(Head::Memory | Head::Fault) => {}
        Some(Head::Empty | Head::Damaged) | None => return Ok(false),
    }
    if bench.shows() != before {
        return Ok(false);
    }
    Ok(bench.take(alloc, room, b"ab", true)? == Some(Head::Ready))
}

// Whether all is written.
fn flushes(bench: &mut Bench, room: &mut Room) -> bool {
    bench.flush(room) == Flushed::Done || bench.flush(room) == Flushed::Done
}

// The bytes of the files of the topic `t`.
fn image(alloc: Global, folder: &MemFolder) -> Result<Vec<u8>, Memory> {
    let mut bytes = Vec::new(alloc);
    bytes.extend_from_slice(file(folder, "t.diskqueue.meta.dat"))?;
    bytes.extend_from_slice(file(folder, "t.diskqueue.000000.dat"))?;
    Ok(bytes)
}

// The bytes of a file, or none.
fn file<'a>(folder: &'a MemFolder, name: &str) -> &'a [u8] {
    folder.file(name).unwrap_or(b"")
}

// Whether the files of the topic `t` have these bytes.
fn is_image(alloc: Global, folder: &MemFolder, bytes: &[u8]) -> Result<bool, Memory> {
    Ok(same(&image(alloc, folder)?, bytes))
}

// Whether a new topic with a ring that no memory has room for is refused.
fn is_refused_anew(alloc: Global, name: Topic) -> bool {
    match Bench::new(alloc, name, BEYOND, &[]) {
        Ok(bench) => {
            let_go(bench);
            false
        }
        Err(Memory) => true,
    }
}

// Whether a ring that no memory has room for is refused, and the files are as they were.
fn is_refused(alloc: Global, bench: &mut Bench) -> Result<bool, Memory> {
    if !is_refused_anew(alloc, bench.topic.name()) {
        return Ok(false);
    }
    let before = image(alloc, &bench.folder)?;
    let memory = bench.options.mem_queue_size;
    bench.options.mem_queue_size = BEYOND;
    let opened = bench.open(alloc);
    bench.options.mem_queue_size = memory;
    match opened {
        Err(Open::Memory) => is_image(alloc, &bench.folder, &before),
        Err(Open::Fault | Open::BadMeta) | Ok(()) => Ok(false),
    }
}

// Whether an opening finds so many messages. Where memory was wanting the files are as they were.
fn reopens(alloc: Global, bench: &mut Bench, left: Depths) -> Result<bool, Memory> {
    let before = image(alloc, &bench.folder)?;
    match bench.open(alloc) {
        Ok(()) => return Ok(bench.topic.depths() == left),
        Err(Open::Memory) => {
            if !is_image(alloc, &bench.folder, &before)? {
                return Ok(false);
            }
        }
        Err(Open::Fault) => {}
        Err(Open::BadMeta) => return Ok(false),
    }
    Ok(bench.open(alloc).is_ok() && bench.topic.depths() == left)
}

// What a row says.
#[derive(Clone, Copy)]
struct Want {
    topic: Topic,
    memory: u64,
    waits: Depths,
    left: Depths,
}

fn want_of(rt: &impl Abort, row: &str) -> Want {
    let (_, rest) = part(rt, row, ": ");
    let (topic, rest) = part(rt, rest, " => ");
    let (topic, memory) = cut(topic);
    let (waits, left) = part(rt, rest, ", ");
    Want {
        topic: Topic::read(topic.as_bytes()).expect(rt, "a topic's name"),
        memory: number(rt, memory),
        waits: depths_of(rt, waits),
        left: Depths {
            ring: 0,
            disk: u128::from(number(rt, left)),
        },
    }
}

// Whether each call of this row's topic succeeds, at once or where it is made once more.
fn holds(alloc: Global, room: &mut Room, want: &Want) -> Result<bool, Memory> {
    let mut bench = Bench::new(alloc, want.topic, want.memory, &[])?;
    let succeed = all_succeed(alloc, &mut bench, room, want);
    let_go(bench);
    succeed
}

fn all_succeed(
    alloc: Global,
    bench: &mut Bench,
    room: &mut Room,
    want: &Want,
) -> Result<bool, Memory> {
    if !puts(alloc, bench, room)? || bench.topic.depths() != want.waits {
        return Ok(false);
    }
    if !takes(alloc, bench, room)? || !flushes(bench, room) {
        return Ok(false);
    }
    Ok(is_refused(alloc, bench)? && reopens(alloc, bench, want.left)?)
}

// Whether a row holds. One that ends for want of memory begins once more.
fn holds_again(rt: &impl Abort, alloc: Global, room: &mut Room, row: &str) -> bool {
    let want = want_of(rt, row);
    match holds(alloc, room, &want) {
        Ok(holds) => holds,
        Err(Memory) => holds(alloc, room, &want).expect(rt, "memory"),
    }
}

// Room for the longest message. Where memory was wanting it is made once more.
fn room_of(rt: &impl Abort, alloc: Global) -> Room {
    match Room::new(alloc) {
        Ok(room) => room,
        Err(Memory) => Room::new(alloc).expect(rt, "memory"),
    }
}

#[test]
fn rows(rt: HostRuntime) {
    let mut room = room_of(&rt, rt.alloc());
    for row in &ROWS {
        check(&rt, holds_again(&rt, rt.alloc(), &mut room, row), row);
    }
}
