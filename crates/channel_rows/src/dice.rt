//! Random numbers for calls.

ghost use Rattle.std.specs.Prelude.{◌≤◌, ◌<◌};

use crate::calls::{Call, Who};
use crate::stage::MINUTE;
use crate::words::{MOST, cut, number, unknown};
use nsq_base::MsgId;
use nsq_fakes::{Failing, FolderCall};
use std::alloc::Global;
use std::process::Abort;

/// Random numbers, and a moment that never falls.
#[derive(Clone, Copy)]
pub struct Dice {
    state: u64,
    now: u64,
}

/// How many ids there are beside a plain list.
pub const LISTED: u64 = 8;

/// How many ids there are beside the plain program of the whole broker.
pub const IDS: u64 = 5;

const MILLISECOND: u64 = 1_000_000;

impl Dice {
    /// Random numbers of this seed.
    pub fn new(seed: u64) -> Dice {
        Dice {
            state: seed.wrapping_mul(0x9e37_79b9_7f4a_7c15),
            now: 0,
        }
    }

    /// The next random number below this one.
    pub fn below(&mut self, bound: u64) -> u64
        requires { 1 ≤ bound }
        ensures { result < bound }
    {
        self.state = self
            .state
            .wrapping_mul(6_364_136_223_846_793_005)
            .wrapping_add(1_442_695_040_888_963_407);
        (self.state >> 33) % bound
    }

    /// What stands behind the weight of one of these lines, which have a `;` between them and so many as the sum of their weights.
    pub fn one_of(&mut self, rt: &impl Abort, lines: &'static str, sum: u64) -> &'static str {
        let mut left = self.below(sum.max(1));
        for line in lines.split(';') {
            let (weight, rest) = cut(line.trim());
            let weight = number(rt, weight);
            if left < weight {
                return rest;
            }
            left = left.saturating_sub(weight);
        }
        unknown(rt, lines)
    }

    /// Gives the call what these words name, in their order.
    pub fn fill(&mut self, rt: &impl Abort, call: &mut Call, names: &str) {
        for name in names.split(' ') {
            self.draw(rt, call, name);
        }
    }

    // `who` is more often the first client than the second, `listed` one of the ids beside a plain list, `id` one beside the whole broker's, `named` too,
    // or else some copy in flight, `delay` mostly none, `whole-delay` one of whole milliseconds, and `moment` that of the last call, or a later one.
    fn draw(&mut self, rt: &impl Abort, call: &mut Call, name: &str) {
        match name {
            "who" => call.who = self.who(),
            "listed" => call.id = MsgId::make(1, self.below(LISTED)),
            "id" => call.id = MsgId::make(1, self.below(IDS)),
            "named" => {
                call.id = MsgId::make(1, self.below(IDS));
                call.place = self.below(8);
            }
            "delay" => call.delay = self.delay(1),
            "whole-delay" => call.delay = self.delay(MILLISECOND),
            "moment" => call.at = self.moment(),
            _ => self.draw_small(rt, call, name),
        }
    }

    // `count` is below 4, `on` one time of four, `settles` four times of five, `takes` three times of four, and `letter` one of three.
    fn draw_small(&mut self, rt: &impl Abort, call: &mut Call, name: &str) {
        match name {
            "count" => call.count = self.below(4) as u32,
            "on" => call.on = self.below(4) == 0,
            "settles" => call.on = self.below(5) != 0,
            "takes" => call.on = self.below(4) != 0,
            "letter" => call.letter = b'a'.wrapping_add(self.below(3) as u8),
            "" => {}
            _ => unknown(rt, name),
        }
    }

    fn who(&mut self) -> Who {
        if self.below(3) == 0 {
            Who::Second
        } else {
            Who::First
        }
    }

    // Mostly no delay, or a long one, or this one.
    fn delay(&mut self, short: u64) -> u64 {
        match self.below(8) {
            0 => MINUTE,
            1 => MINUTE / 2,
            2 => short,
            _ => 0,
        }
    }

    /// The moment: that of the last call, or later by some time, or by a nanosecond.
    pub fn moment(&mut self) -> u64 {
        let later = match self.below(8) {
            0 => 1,
            1 | 2 => MINUTE / 4,
            3 => MINUTE / 2,
            _ => 0,
        };
        self.now = self.now.wrapping_add(later).min(MOST);
        self.now
    }

    /// So many times some calls of a folder that fail, of any method, of so many calls.
    pub fn faults(
        &mut self,
        rt: &impl Abort,
        alloc: Global,
        times: u64,
        calls: u64,
    ) -> Vec<Failing> {
        let mut fails = Vec::new(alloc);
        for _ in 0..times {
            let failing = self.fault(calls);
            fails.push(failing).expect(rt, "memory");
        }
        fails
    }

    // Some calls of a folder that fail.
    fn fault(&mut self, calls: u64) -> Failing {
        let call = match self.below(4) {
            0 => FolderCall::WriteAt,
            1 => FolderCall::ReadAt,
            _ => FolderCall::Any,
        };
        let from = self.below(calls.max(1));
        let to = from.wrapping_add(self.below(3)).wrapping_add(1);
        Failing { call, from, to }
    }
}

/// A delay in milliseconds, as a client gives it.
pub fn in_milliseconds(delay: u64) -> i64 {
    (delay / MILLISECOND).min(1_000_000) as i64
}
