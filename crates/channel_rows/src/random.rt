//! Random calls of a channel, beside a plain list of copies and beside the plain program of the whole broker: what each answers, and what the channel
//! tells afterwards, is what the list says, or what is so in a possible state.

ghost use Rattle.std.specs.Prelude.{◌≡◌, ◌<◌};

use crate::broker::beside::Beside;
use crate::broker::channels;
use crate::calls::{Answer, Call, Came, Does, call_of, kind_of};
use crate::dice::Dice;
use crate::plain::Plain;
use crate::runs::{SEEDS, all_runs, check_seed, folder_of, options_of, run_of};
use crate::script::stage;
use crate::stage::{Stage, end, setup_of};
use crate::words::cut;
use channel_core::Channel;
use nsq_base::{MsgId, Steps};
use std::alloc::Global;
use std::marker::Brand;
use std::process::Abort;
use std::sync::ledger::{Blank, Ledger};

// The random calls beside a list, and what each draws; before each its weight, of 64, and of the seldom ones of 4.
const LISTED: &str =
    "18 offer listed delay moment; 17 give who moment settles; 4 ready who count; 4 finish who listed; 3 touch who listed moment;
    6 requeue who listed delay moment; 7 move moment; 2 pause on; 1 come-again; 1 sync; 1 seldom";

const LISTED_SELDOM: &str = "1 empty; 1 delete; 2 restart";

// The same beside the whole broker.
const POSSIBLE: &str =
    "17 offer id delay moment; 17 give who moment settles; 4 ready who count moment; 4 finish who named moment; 3 touch who named moment;
    6 requeue who named whole-delay moment; 7 move moment; 2 pause on moment; 1 come-again moment; 1 sync; 2 seldom";

const POSSIBLE_SELDOM: &str = "1 empty moment; 1 delete moment; 2 restart";

// The runs beside a list, as those beside the whole broker. The seeds take turns.
static LISTED_RUNS: [&'static str; 9] = [
    "durable, with room for 3: durable 3",
    "durable, with room for 1: durable 1",
    "durable, without room: durable 0",
    "durable, with room for 3 and a disk that fails: durable 3 fails",
    "durable, with room for 1 and a disk that fails: durable 1 fails",
    "durable, without room and with a disk that fails: durable 0 fails",
    "ephemeral, with room for 3: ephemeral 3 fails",
    "ephemeral, with room for 1: ephemeral 1 fails",
    "ephemeral, without room: ephemeral 0 fails",
];

// What stands beside a channel.
#[derive(Drop)]
enum Side {
    Listed(Plain),
    Possible(Beside),
}

impl Side {
    fn may_fail(&self) -> bool {
        match self {
            Side::Listed(plain) => plain.may_fail(),
            Side::Possible(beside) => beside.may_fail(),
        }
    }

    // Whether two copies of this id are there.
    fn has_two(&self, id: MsgId) -> bool {
        match self {
            Side::Listed(plain) => plain.has_two(id),
            Side::Possible(beside) => channels::has_two(beside, id),
        }
    }

    // The id that a call is of.
    fn named(&self, call: &Call) -> MsgId {
        match self {
            Side::Listed(_) => call.id,
            Side::Possible(beside) => channels::named(beside, call),
        }
    }

    // Whether a call may be answered so. What is beside the channel is then as it is behind that call.
    fn answers(&mut self, rt: &impl Abort, call: &Call, answer: &Answer) -> bool {
        match self {
            Side::Listed(plain) => plain.answers(rt, call, answer),
            Side::Possible(beside) => channels::answers(beside, rt, call, answer),
        }
    }

    // Whether what the channel tells is so.
    fn tells(&mut self, rt: &impl Abort, channel: &Channel) -> bool {
        match self {
            Side::Listed(plain) => plain.tells(channel),
            Side::Possible(beside) => channels::tells(beside, rt, channel),
        }
    }
}

// A channel in a folder, and what stands beside it.
#[derive(Drop)]
struct Pair<L: Ledger> {
    stage: Stage<L>,
    side: Side,
    dice: Dice,
}

impl<L: Ledger> Pair<L> {
    // A run begins, beside a list or the whole broker.
    fn begin(&mut self, rt: &impl Abort, row: &str, seed: u64, is_listed: bool) {
        let run = run_of(rt, row);
        let alloc = self.stage.setup.alloc;
        let mut dice = if is_listed {
            Dice::new(seed)
        } else {
            run.dice(seed)
        };
        let (times, calls) = if is_listed { (80, 8_000) } else { (32, 400) };
        let folder = folder_of(rt, alloc, &run, &mut dice, times, calls);
        let setup = setup_of(rt, alloc, run.channel(), options_of(rt, alloc, &run));
        let side = if is_listed {
            Side::Listed(Plain::new(alloc, &run))
        } else {
            Side::Possible(channels::beside(rt, &setup, run.fails))
        };
        self.stage.renew(setup, folder).expect(rt, "memory");
        self.dice = dice;
        let_go(std::mem::replace(&mut self.side, side));
    }

    // One random call. Whether it answers, and the channel tells afterwards, what is right.
    fn step(&mut self, rt: &impl Abort) -> bool {
        let call = self.draw(rt);
        self.makes(rt, &call) && self.side.tells(rt, &self.stage.channel)
    }

    // The next call.
    fn draw(&mut self, rt: &impl Abort) -> Call {
        let (lines, seldom) = match &self.side {
            Side::Listed(_) => (LISTED, LISTED_SELDOM),
            Side::Possible(_) => (POSSIBLE, POSSIBLE_SELDOM),
        };
        let line = match self.dice.one_of(rt, lines, 64) {
            "seldom" => self.dice.one_of(rt, seldom, 4),
            line => line,
        };
        drawn(rt, &mut self.dice, line)
    }

    // Whether a call answers what is right. A third message of an id isn't offered.
    fn makes(&mut self, rt: &impl Abort, call: &Call) -> bool {
        match call.does {
            Does::Restart => self.restart(rt),
            Does::Offer if self.side.has_two(call.id) => true,
            _ => {
                let mut call = *call;
                call.id = self.side.named(&call);
                let answer = self.stage.call(rt, &call);
                self.side.answers(rt, &call, &answer)
            }
        }
    }

    // The channel is flushed and opened again; an ephemeral one stays. After a fault the channel is made anew.
    fn restart(&mut self, rt: &impl Abort) -> bool {
        let answer = self.stage.call(rt, &call_of(Does::Flush));
        match answer.came {
            Came::Done => self.stage.setup.name.ephemeral() || self.begin_next(rt),
            _ => self.side.may_fail() && self.make_anew(rt),
        }
    }

    // The next run begins: the channel is opened, and beside the whole broker with the pause that was kept.
    fn begin_next(&mut self, rt: &impl Abort) -> bool {
        let stage = &mut self.stage;
        let fails = self.side.may_fail();
        match &mut self.side {
            Side::Listed(plain) => {
                plain.restart();
                stage.reopen(rt, fails)
            }
            Side::Possible(beside) => {
                let paused = stage.channel.is_paused();
                let begins = beside.begins(rt, &mut stage.folder) && stage.reopen(rt, fails);
                stage.channel.pause(paused);
                begins
            }
        }
    }

    // The channel is deleted and made anew.
    fn make_anew(&mut self, rt: &impl Abort) -> bool {
        let made = self.stage.make_anew(rt);
        match &mut self.side {
            Side::Listed(plain) => plain.delete(),
            Side::Possible(beside) => {
                let at = self.dice.moment();
                channels::starts(beside, rt, at);
            }
        }
        made
    }
}

// The call of a line, with what it draws.
fn drawn(rt: &impl Abort, dice: &mut Dice, line: &str) -> Call {
    let (word, names) = cut(line);
    let (does, _) = kind_of(word).expect(rt, "a call");
    let mut call = call_of(does);
    dice.fill(rt, &mut call, names);
    call
}

// Whether so many random calls of a run answer and tell what is right.
fn holds<L: Ledger>(rt: &impl Abort, pair: &mut Pair<L>, calls: u64) -> bool {
    for _ in 0..calls {
        if !pair.step(rt) {
            return false;
        }
    }
    true
}

// Checks a run with this seed: of 170 calls beside the whole broker, which makes a little over 2,000 of each seed, and of 2,000 beside a list.
fn check_run<L: Ledger>(
    rt: &impl Abort,
    pair: &mut Pair<L>,
    row: &'static str,
    seed: u64,
    is_listed: bool,
) {
    let calls = if is_listed { 2_000 } else { 170 };
    pair.begin(rt, row, seed, is_listed);
    check_seed(rt, holds(rt, pair, calls), row, seed);
}

// The run of a seed beside a list.
fn listed_run(seed: u64) -> &'static str {
    LISTED_RUNS[seed as usize % LISTED_RUNS.len()]
}

// Checks the runs of all seeds.
fn check_all<L: Ledger>(rt: &impl Abort, pair: &mut Pair<L>, is_listed: bool) {
    for i in 0..SEEDS {
        let seed = i + 1;
        if is_listed {
            check_run(rt, pair, listed_run(seed), seed, true);
        } else {
            for row in all_runs() {
                check_run(rt, pair, row, seed, false);
            }
        }
    }
}

fn check_runs<R: Abort, L: Ledger>(rt: &R, alloc: Global, is_listed: bool, blank: Blank)
    requires name { blank.name ≡ L.name }
    requires parts { blank.parts ≡ L.parts }
    requires some { 0 < L.parts }
{
    let steps: Steps<L> = Steps::new(blank);
    let mut pair = pair_of(rt, alloc, steps);
    check_all(rt, &mut pair, is_listed);
    let Pair {
        stage,
        side,
        dice: _,
    } = pair;
    let_go(side);
    end(stage);
}

// Takes what stands beside a channel apart, once for all that held it.
fn let_go(_side: Side) {}

// A pair for whatever begins.
fn pair_of<L: Ledger>(rt: &impl Abort, alloc: Global, steps: Steps<L>) -> Pair<L> {
    Pair {
        stage: stage(rt, alloc, steps).expect(rt, "memory"),
        side: Side::Listed(Plain::new(alloc, &run_of(rt, listed_run(1)))),
        dice: Dice::new(1),
    }
}

#[test]
fn listed(rt: HostRuntime) {
    check_runs::<_, Brand>(&rt, rt.alloc(), true, Blank::new(1));
}

#[test]
fn possible(rt: HostRuntime) {
    check_runs::<_, Brand>(&rt, rt.alloc(), false, Blank::new(1));
}
