//! A clock that shows what it is set to, a journal that forgets its entries, and a floor in memory over them, opened with the options of a row.

ghost use Rattle.std.specs.Prelude.{◌≡◌, false};
ghost use Rattle.nsq_base.specs.Options.{IsInRange};

use crate::lists::push;
use crate::text::{cut, moment, number, part, unknown};
use broker_floor::Floor;
use broker_history::Entry;
use nsq_base::{Memory, Options};
use nsq_fakes::{Failing, FolderCall, MemFolder};
use nsq_outside::{Clock, End, Journal, Kit};
use std::alloc::Global;
use std::process::Abort;
use std::sync::atomic::{AtomicU64, Ordering};

/// The default options but for what a row's lines say behind `with`: how many messages a topic or a channel keeps in `memory`, a message's `timeout`, the
/// `most` bytes of a message, and `stops served`. Behind `began` they say what the clock shows at the opening, and behind `fails` which calls of the folder
/// fail, as in `Rename 0 to 2`: the numbers from one to before another of those of a name.
pub fn options_of(
    rt: &impl Abort,
    alloc: Global,
    lines: &str,
    clock: &AtomicU64,
    fails: &mut Vec<Failing>,
) -> Options
    ensures { IsInRange result }
{
    let mut options = Options::defaults(alloc).expect(rt, "memory");
    for line in lines.split('\n') {
        match cut(line) {
            ("with", words) => set(rt, &mut options, clock, fails, words),
            _ => {}
        }
    }
    assert!(rt; options.in_range(), "options that none has");
    options
}

// This is said of a floor.
fn set(
    rt: &impl Abort,
    options: &mut Options,
    clock: &AtomicU64,
    fails: &mut Vec<Failing>,
    words: &str,
) {
    match cut(words) {
        ("began", at) => clock.store(moment(rt, at), Ordering::SeqCst),
        ("memory", count) => options.mem_queue_size = number(rt, count),
        ("timeout", time) => options.msg_timeout = moment(rt, time),
        ("most", size) => options.max_msg_size = size.parse::<u32>().expect(rt, "a number"),
        ("stops", "served") => options.http_stop = true,
        ("fails", calls) => fail(rt, fails, calls),
        _ => unknown(rt, words),
    }
}

// These calls of a folder fail.
fn fail(rt: &impl Abort, fails: &mut Vec<Failing>, calls: &str) {
    let (name, numbers) = cut(calls);
    let (from, to) = part(rt, numbers, " to ");
    let call = match name {
        "WriteAt" => FolderCall::WriteAt,
        "Rename" => FolderCall::Rename,
        _ => unknown(rt, name),
    };
    let calls = Failing {
        call,
        from: number(rt, from),
        to: number(rt, to),
    };
    push(rt, fails, calls);
}

/// A clock that shows the moment that stands here.
#[derive(Drop)]
pub struct Shown<'a> {
    moment: &'a AtomicU64,
}

impl Clock for Shown<'_> {
    ghost use Rattle.std.specs.Prelude.{false};

    ghost tells_readings = { false };

    ghost coming = { λ _ _. 0 };

    fn now(&mut self) -> u64 {
        self.moment.load(Ordering::SeqCst)
    }
}

/// A journal that forgets its entries.
#[derive(Drop)]
pub struct Forgotten {
    aside: bool,
}

impl Journal<Entry> for Forgotten {
    ghost use Rattle.std.specs.Prelude.{[], None, false};

    ghost tells_notes = { false };

    ghost notes = { λ _. [] };

    ghost kept = { λ _. None };

    ghost is_aside = { λ journal. journal.aside };

    fn ready(&mut self, _entry: &Entry) -> Result<(), Memory> {
        self.aside = true;
        Ok(())
    }

    fn note(&mut self, _end: End) {
        self.aside = false;
    }
}

/// A floor in memory.
pub type MemFloor<'a> = Floor<MemFolder, Shown<'a>, Forgotten>;

/// What a floor in memory stands on.
type MemKit<'a> = Kit<MemFolder, Shown<'a>, Forgotten>;

/// A floor of epoch 1 over an empty folder of which these calls fail, opened with these options; its clock is this.
pub fn floor_of<'a>(
    rt: &impl Abort,
    alloc: Global,
    options: &Options,
    clock: &'a AtomicU64,
    fails: Vec<Failing>,
) -> MemFloor<'a>
    requires { IsInRange options.now }
{
    let kit = kit_of(rt, alloc, clock, fails);
    match Floor::new(alloc, kit, options, 1) {
        Ok(floor) => floor,
        Err(_) => panic!(rt; "memory"),
    }
}

fn kit_of<'a>(
    rt: &impl Abort,
    alloc: Global,
    clock: &'a AtomicU64,
    fails: Vec<Failing>,
) -> MemKit<'a>
    ensures { result.journal.aside ≡ false }
{
    Kit {
        folder: MemFolder::new(alloc, Vec::new(alloc), fails).expect(rt, "memory"),
        clock: Shown { moment: clock },
        journal: Forgotten { aside: false },
    }
}
