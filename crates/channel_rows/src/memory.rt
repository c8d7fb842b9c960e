//! Where memory is wanting: with `rt try --test --fail-alloc N` the Nth allocation fails, for each N in turn. A call that is refused for it
//! leaves the channel and its files as they were, and succeeds when it is made again.

ghost use Rattle.std.specs.Prelude.{◌≡◌, ◌<◌};

use crate::calls::{Call, Came, Does, call_in};
use crate::script::{begin, shows, stage, step_of};
use crate::stage::{MINUTE, Stage, end};
use crate::words::{check, cut, id_of};
use channel_core::{Counts, Look};
use nsq_base::{Memory, Steps};
use nsq_fakes::MemFolder;
use std::alloc::Global;
use std::marker::Brand;
use std::process::Abort;
use std::sync::ledger::{Blank, Ledger};

// What is told of a channel and its files.
#[derive(Clone, Copy, PartialEq)]
struct View {
    counts: [u128; 7],
    first: Look,
    second: Look,
    // Whether something is due then.
    soon: bool,
    late: bool,
    data: u64,
    meta: u64,
}

fn view_of<L: Ledger>(stage: &Stage<L>) -> View {
    let channel = &stage.channel;
    View {
        counts: numbers_of(channel.counts()),
        first: channel.look(1, id_of(0)),
        second: channel.look(1, id_of(1)),
        soon: channel.due(MINUTE - 1).is_some(),
        late: channel.due(MINUTE).is_some(),
        data: sum_of(&stage.folder, "t:c.diskqueue.000000.dat"),
        meta: sum_of(&stage.folder, "t:c.diskqueue.meta.dat"),
    }
}

// All that is counted of a channel.
fn numbers_of(counts: Counts) -> [u128; 7] {
    [
        counts.backend_depth,
        u128::from(counts.deferred_count),
        counts.depth,
        u128::from(counts.in_flight_count),
        u128::from(counts.message_count),
        u128::from(counts.requeue_count),
        u128::from(counts.timeout_count),
    ]
}

// A number that tells a file's bytes from most others; 0 where it has none.
fn sum_of(folder: &MemFolder, name: &str) -> u64 {
    let Some(bytes) = folder.file(name) else {
        return 0;
    };
    let mut sum: u64 = 0;
    for byte in bytes {
        sum = sum
            .wrapping_mul(257)
            .wrapping_add(u64::from(*byte))
            .wrapping_add(1);
    }
    sum
}

// What begins, as in scripts: how many queued copies the channels keep in memory.
const BEGUN: [&str; 3] = ["c 0", "c 1", "c 3"];

// The calls of each channel, as in scripts. The second copy of a number is held back; at the end a copy is finished, and nothing else was counted.
const STEPS: &str =
    "ready first 3; offer 0 m -> done; offer 1 m 60s -> done; put-back first -> send 0 m 1;
    give first -> send 0 m 1; offer 0 m -> done; give first -> held 0; finish first 0 -> done; places 0 0 0 2; events 3 0 0";

// Whether a call answers so, at the first try, or at the second where the first one wanted memory. The folder wants some too, and then it fails.
fn answers<L: Ledger>(
    rt: &impl Abort,
    stage: &mut Stage<L>,
    call: &Call,
    wanted: &str,
) -> Result<bool, Memory> {
    let before = view_of(stage);
    let answer = stage.call(rt, call);
    let may_be = match answer.came {
        Came::Wanting => return Err(Memory),
        Came::Memory => !is_offer(call) || call.delay != 0,
        Came::Fault => !is_offer(call) || call.delay == 0,
        _ => return Ok(answer.is(rt, wanted)),
    };
    if !may_be || view_of(stage) != before {
        return Ok(false);
    }
    let answer = stage.call(rt, call);
    if matches!(answer.came, Came::Wanting) {
        return Err(Memory);
    }
    Ok(answer.is(rt, wanted))
}

fn is_offer(call: &Call) -> bool {
    matches!(call.does, Does::Offer)
}

fn step_holds<L: Ledger>(
    rt: &impl Abort,
    stage: &mut Stage<L>,
    step: &str,
) -> Result<bool, Memory> {
    let (what, wanted) = step_of(step);
    let (word, taken) = cut(what);
    match call_in(rt, word, taken) {
        Some(call) => answers(rt, stage, &call, wanted),
        None => Ok(shows(rt, stage, what, wanted)),
    }
}

// Whether the steps hold of a channel that begins so.
fn holds<L: Ledger>(rt: &impl Abort, stage: &mut Stage<L>, begun: &str) -> Result<bool, Memory> {
    begin(rt, stage, begun)?;
    for step in STEPS.split(';') {
        if !step_holds(rt, stage, step.trim())? {
            return Ok(false);
        }
    }
    Ok(true)
}

// Checks each channel. What wants memory before the calls or between them ends those of a channel.
fn check_all<L: Ledger>(rt: &impl Abort, stage: &mut Stage<L>) {
    for begun in &BEGUN {
        let holds = match holds(rt, stage, begun) {
            Ok(holds) => holds,
            Err(Memory) => true,
        };
        check(rt, holds, begun);
    }
}

fn check_channels<R: Abort, L: Ledger>(rt: &R, alloc: Global, blank: Blank)
    requires name { blank.name ≡ L.name }
    requires parts { blank.parts ≡ L.parts }
    requires some { 0 < L.parts }
{
    let steps: Steps<L> = Steps::new(blank);
    if let Ok(mut stage) = stage(rt, alloc, steps) {
        check_all(rt, &mut stage);
        end(stage);
    }
}

#[test]
fn a_refused_call_leaves_all_as_it_was(rt: HostRuntime) {
    check_channels::<_, Brand>(&rt, rt.alloc(), Blank::new(1));
}
