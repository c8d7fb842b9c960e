//! Runs of random calls, beside a plain list and beside the plain program of the whole broker.

ghost use Rattle.channel_core.specs.Made.{FitsRun};

use crate::dice::Dice;
use crate::words::{number, part, same, unknown, words};
use nsq_base::{Body, Options};
use nsq_fakes::MemFolder;
use std::alloc::Global;
use std::process::Abort;

/// How many seeds there are; the first is 1.
pub const SEEDS: u64 = 20;

/// Random calls of a channel or a topic.
#[derive(Clone, Copy)]
pub struct Run {
    pub ephemeral: bool,
    /// How many messages find room in memory.
    pub memory: u64,
    /// Whether calls of the folder fail.
    pub fails: bool,
}

/// All runs beside the plain program of the whole broker.
pub fn all_runs() -> &'static [&'static str] {
    &ALL_RUNS
}

// The runs beside the plain program of the whole broker, of which each seed makes each: a name, and behind a `:` of what kind the channel or the
// topic is, how many messages find room in memory, and `fails` where calls of the folder fail.
static ALL_RUNS: [&'static str; 12] = [
    "durable, without room: durable 0",
    "durable, with room for 1: durable 1",
    "durable, with room for 3: durable 3",
    "durable, without room and with a disk that fails: durable 0 fails",
    "durable, with room for 1 and a disk that fails: durable 1 fails",
    "durable, with room for 3 and a disk that fails: durable 3 fails",
    "ephemeral, without room: ephemeral 0",
    "ephemeral, with room for 1: ephemeral 1",
    "ephemeral, with room for 3: ephemeral 3",
    "ephemeral, without room and with a disk that fails: ephemeral 0 fails",
    "ephemeral, with room for 1 and a disk that fails: ephemeral 1 fails",
    "ephemeral, with room for 3 and a disk that fails: ephemeral 3 fails",
];

/// Stops the run where one of this seed doesn't hold, and names both.
pub fn check_seed(rt: &impl Abort, holds: bool, row: &str, seed: u64) {
    assert!(rt; holds, "{}, with the seed {}", row, seed);
}

/// The run that a row tells.
pub fn run_of(rt: &impl Abort, row: &str) -> Run {
    let (_, told) = part(rt, row, ": ");
    let [kind, memory, fails, _, _] = words(told);
    Run {
        ephemeral: is_word(rt, kind, "ephemeral", "durable"),
        memory: number(rt, memory),
        fails: is_word(rt, fails, "fails", ""),
    }
}

// Whether it is the one word; else it is the other.
fn is_word(rt: &impl Abort, word: &str, one: &str, other: &str) -> bool {
    if same(word, one) {
        true
    } else if same(word, other) {
        false
    } else {
        unknown(rt, word)
    }
}

impl Run {
    /// The name of the channel.
    pub fn channel(&self) -> &'static [u8] {
        if self.ephemeral { b"c#ephemeral" } else { b"c" }
    }

    /// Random numbers of this seed, other ones for each run.
    pub fn dice(&self, seed: u64) -> Dice {
        let kind = u64::from(self.ephemeral) * 2 + u64::from(self.fails);
        Dice::new(
            seed.wrapping_mul(64)
                .wrapping_add(self.memory.wrapping_mul(4))
                .wrapping_add(kind),
        )
    }
}

/// How long a client has for a message that doesn't say: 20 s.
pub const HELD: u64 = 20_000_000_000;

/// A copy in flight is due back no later than so long after its sending: 100 s.
pub const LONGEST: u64 = 5 * HELD;

/// The options of a run: short times, small files that are often saved, and no texts, since each state of the broker has a copy of them.
pub fn options_of(rt: &impl Abort, alloc: Global, run: &Run) -> Options
    ensures { FitsRun result }
{
    let mut options = Options::defaults(alloc).expect(rt, "memory");
    options.tcp_address = Body::of(Vec::new(alloc));
    options.http_address = Body::of(Vec::new(alloc));
    options.broadcast_address = Body::of(Vec::new(alloc));
    options.data_path = Body::of(Vec::new(alloc));
    options.mem_queue_size = run.memory;
    options.msg_timeout = HELD;
    options.max_msg_timeout = LONGEST;
    options.max_bytes_per_file = 200;
    options.sync_every = 3;
    options
}

/// An empty folder, of which so many times some of so many calls fail, where the run says so.
pub fn folder_of(
    rt: &impl Abort,
    alloc: Global,
    run: &Run,
    dice: &mut Dice,
    times: u64,
    calls: u64,
) -> MemFolder {
    let fails = if run.fails {
        dice.faults(rt, alloc, times, calls)
    } else {
        Vec::new(alloc)
    };
    MemFolder::new(alloc, Vec::new(alloc), fails).expect(rt, "memory")
}
