//! Random runs: five callers of both kinds with commands and requests that fit and that don't, cut anywhere, over a folder and connections that fail at random,
//! and then a second such run on the folder. What each run noted is legal, each caller had a conversation or an exchange, and where the status was 0 all that was
//! left is found. Nobody is served behind a caller that stops the daemon.

ghost use Rattle.nsq_base.specs.Options.{IsInRange};

use crate::dice::Dice;
use crate::hosts::{Given, Outcome, nothing, push_caller, run_with};
use crate::judged::{is_served, noted_wrong};
use crate::setting::{add_words, options_of};
use crate::texts::{cut, part};
use broker_history::{Act, Ended, Entry};
use nsq_base::Options;
use nsq_fakes::MemConn;
use nsq_outside::{End, Kind};
use path_plain::NamedFile;
use std::alloc::Global;
use std::process::Abort;
use std::sync::Wait;

// How many seeds there are; the first is 1.
const SEEDS: u64 = 20;

const CALLERS: usize = 5;

// How a conversation may end where there is memory.
static ENDINGS: [Ended; 4] = [
    Ended::EndOfInput,
    Ended::Closed,
    Ended::ReadFault,
    Ended::WriteFault,
];

// What the runs of seeds are given, as lines: words, and what they make of the options.
static SETTINGS: [&'static str; 3] = [
    "words --mem-queue-size=0 --msg-timeout=1s\noption memory 0\noption timeout 1000000000",
    "words --mem-queue-size=2 --msg-timeout 1s\noption memory 2\noption timeout 1000000000",
    "words --http-stop\noption stops",
];

// A seed's dice, and what its runs are given.
#[derive(Drop)]
struct Seed {
    dice: Dice,
    setting: &'static str,
    // Whether the folder fails.
    fails: bool,
}

fn seed_of(number: u64) -> Seed {
    Seed {
        dice: Dice::new(number),
        setting: SETTINGS[(number % 3) as usize],
        fails: number % 4 != 0,
    }
}

fn add_caller(
    rt: &impl Abort,
    alloc: Global,
    dice: &mut Dice,
    epoch: u64,
    callers: &mut Vec<(Kind, MemConn)>,
) {
    let kind = if dice.below(5) < 2 {
        Kind::Http
    } else {
        Kind::Tcp
    };
    let bytes = bytes_of(rt, alloc, dice, kind, epoch);
    let pieces = dice.pieces(rt, alloc, &bytes);
    drop(bytes);
    let reads = dice.failing(rt, alloc);
    let writes = dice.failing(rt, alloc);
    push_caller(rt, alloc, callers, kind, pieces, (reads, writes));
}

// What a caller of this kind sends.
fn bytes_of(rt: &impl Abort, alloc: Global, dice: &mut Dice, kind: Kind, epoch: u64) -> Vec<u8> {
    match kind {
        Kind::Tcp => dice.stream(rt, alloc, epoch),
        Kind::Http => dice.request(rt, alloc),
    }
}

fn add_callers(
    rt: &impl Abort,
    alloc: Global,
    dice: &mut Dice,
    epoch: u64,
    callers: &mut Vec<(Kind, MemConn)>,
) {
    for _ in 0..CALLERS {
        add_caller(rt, alloc, dice, epoch, callers);
    }
}

fn given_by(rt: &impl Abort, alloc: Global, seed: &mut Seed, epoch: u64) -> Given {
    let mut given = nothing(rt, alloc);
    add_callers(rt, alloc, &mut seed.dice, epoch, &mut given.callers);
    if seed.fails {
        seed.dice.add_faults(rt, &mut given.fails.folder);
    }
    seed.dice.add_readings(rt, &mut given.readings);
    let (line, _) = part(rt, seed.setting, "\n");
    let (_, words) = cut(line);
    add_words(rt, alloc, &mut given.words, words);
    given
}

// What is wrong with a run of a seed over these files. Then they are those that it left.
fn run_wrong<R: Abort + Wait>(
    rt: &R,
    alloc: Global,
    seed: &mut Seed,
    epoch: u64,
    files: &mut Vec<NamedFile>,
) -> Option<&'static str> {
    let given = given_by(rt, alloc, seed, epoch);
    let began = given.readings.first().copied().unwrap_or(0);
    let mut outcome = run_with(rt, alloc, given, files);
    let wrong = outcome_wrong(rt, alloc, seed, began, files, &mut outcome);
    outcome.end();
    wrong
}

// What is wrong with what a run of a seed over these files came to. Then they are those that it left.
fn outcome_wrong(
    rt: &impl Abort,
    alloc: Global,
    seed: &Seed,
    began: u64,
    files: &mut Vec<NamedFile>,
    outcome: &mut Outcome,
) -> Option<&'static str> {
    let options = options_of(rt, alloc, seed.setting);
    let shown = shown_wrong(rt, alloc, &options, seed, began, outcome);
    let noted = noted_wrong(rt, alloc, &options, began, files, outcome);
    drop(options);
    shown.or(noted)
}

// What is wrong with the status of a run of a seed, or with its callers.
fn shown_wrong(
    rt: &impl Abort,
    alloc: Global,
    options: &Options,
    seed: &Seed,
    began: u64,
    outcome: &Outcome,
) -> Option<&'static str>
    requires { IsInRange options.now }
{
    if !is_status(seed, outcome.status) {
        return Some("the status");
    }
    let served = if outcome.has_opened() {
        served_in(outcome.entries())
    } else {
        0
    };
    if outcome.count() as u64 != served {
        return Some("how many are handed back");
    }
    for place in 0..outcome.count() {
        if !is_served(rt, alloc, options, began, outcome, place, &ENDINGS) {
            return Some("a conversation or an exchange");
        }
    }
    None
}

// How many callers are served: none behind one that stops the daemon.
fn served_in(entries: &[(Entry, End)]) -> u64 {
    for (entry, _) in entries {
        if entry.conn != 0 && matches!(entry.act, Act::Stop) {
            return entry.conn;
        }
    }
    CALLERS as u64
}

// Whether a run of a seed may end with this status.
fn is_status(seed: &Seed, status: u8) -> bool {
    status == 0 || seed.fails && (status == 2 || status == 3)
}

// What is wrong with the runs of a seed.
fn seed_wrong<R: Abort + Wait>(rt: &R, alloc: Global, number: u64) -> Option<&'static str> {
    let mut seed = seed_of(number);
    let mut files = Vec::new(alloc);
    for epoch in 1..3 {
        let wrong = run_wrong(rt, alloc, &mut seed, epoch, &mut files);
        if wrong.is_some() {
            return wrong;
        }
    }
    None
}

// Where a seed is wrong it begins once more, so that it holds too where one allocation of the daemon's fails.
#[test]
fn random_runs(rt: HostRuntime) {
    for number in 1..SEEDS + 1 {
        let mut wrong = seed_wrong(&rt, rt.alloc(), number);
        if wrong.is_some() {
            wrong = seed_wrong(&rt, rt.alloc(), number);
        }
        assert!(rt; wrong.is_none(), "seed {number}: {}", wrong.unwrap_or(""));
    }
}
