//! Random numbers, and random calls as text.

ghost use Rattle.std.specs.Prelude.{◌≤◌, ◌<◌};

use crate::texts::{count_of, halves, number, parted, same};
use nsq_fakes::{Failing, FolderCall};
use std::alloc::Global;
use std::process::Abort;

/// Random numbers.
#[derive(Clone, Copy)]
pub struct Dice {
    state: u64,
}

// Of how many calls of a folder some fail, and how often some do.
const FOLDER_CALLS: u64 = 2_000;

const FAULTS: u64 = 40;

/// What somebody asks who needs no connection. As in all such lists the first line says below which number one is drawn, each other line has a number and
/// a call: the one that is made is the first whose number is above the one drawn. A word with an @ stands for words.
pub const ASKS: &str = "32
    2 create @topic
    8 create @topic @channel
    9 delete @topic
    11 delete @topic @channel
    12 empty @topic
    13 empty @topic @channel
    14 pause @topic @channel
    15 pause @topic
    18 unpause @topic @channel
    20 unpause @topic
    26 stats
    28 names
    32 publish @topic @wait @body";

/// What a client publishes.
pub const PUBLISHES: &str = "8
    1 DPUB @topic @delay @body
    2 MPUB @topic @body @body
    8 PUB @topic @body";

/// What a client says that joins a channel.
pub const JOINS: &str = r#"8
    1 IDENTIFY {"heartbeat_interval":-1}
    2 IDENTIFY {"heartbeat_interval":1000,"msg_timeout":2000}
    3 @early
    8 SUB @topic @channel"#;

/// What a client says that joined one.
pub const SAYS: &str = "16
    1 SUB @topic @channel
    12 RDY @credit
    14 NOP
    15 @late
    16 @wrong";

/// What a client does with a message, whose id stands at @id.
pub const HANDLES: &str = "8
    3 FIN @id
    5 TOUCH @id
    8 REQ @id @back";

// The words that a word with an @ stands for, parted by strokes.
const WORDS: &str = "
    @topic t|t|e#ephemeral
    @channel a|a|b|c#ephemeral
    @body x|yy|zzz|a-longer-body
    @wait 0|0|500000000|5000000000
    @delay 0|300|1000|3600001
    @early IDENTIFY {}|IDENTIFY []|RDY 1|CLS
    @credit 1|2|3|9|0|9
    @late CLS|RDY 2501
    @wrong IDENTIFY {}|bad word|bad size
    @back 0|0|300|1000|99999999
";

impl Dice {
    /// Random numbers of this seed.
    pub fn new(seed: u64) -> Dice {
        Dice {
            state: seed.wrapping_mul(0x9e37_79b9_7f4a_7c15),
        }
    }

    /// The next random number below this one.
    pub fn below(&mut self, bound: u64) -> u64
        requires { 1 ≤ bound }
        ensures { result < bound }
    {
        self.state = self
            .state
            .wrapping_mul(6_364_136_223_846_793_005)
            .wrapping_add(1_442_695_040_888_963_407);
        (self.state >> 33) % bound
    }

    /// Some calls of a folder that fail, of any method.
    pub fn faults(&mut self, rt: &impl Abort, alloc: Global) -> Vec<Failing> {
        let mut fails = Vec::new(alloc);
        for _ in 0..FAULTS {
            let call = match self.below(4) {
                0 => FolderCall::WriteAt,
                1 => FolderCall::ReadAt,
                _ => FolderCall::Any,
            };
            let from = self.below(FOLDER_CALLS);
            let to = from.wrapping_add(self.below(3)).wrapping_add(1);
            fails.push(Failing { call, from, to }).expect(rt, "memory");
        }
        fails
    }

    /// How much later it is: mostly nothing.
    pub fn later(&mut self) -> u64 {
        match self.below(32) {
            0 | 1 => 1,
            2..=4 => 300_000_000,
            5 | 6 => 1_000_000_000,
            7 => self.much_later(),
            _ => 0,
        }
    }

    fn much_later(&mut self) -> u64 {
        if self.below(4) == 0 {
            return 30_000_000_000;
        }
        0
    }

    /// Puts one of these calls, and this id where one has its place. A list of one call is that call, and nothing is drawn for it.
    pub fn put_call(&mut self, rt: &impl Abort, out: &mut String, calls: &'static str, id: &str) {
        for word in self.one_call(rt, calls).split(" ") {
            if !out.is_empty() {
                out.push_str(" ").expect(rt, "memory");
            }
            if same(word.as_bytes(), b"@id") {
                out.push_str(id).expect(rt, "memory");
            } else {
                let word = self.one_word(word);
                out.push_str(word).expect(rt, "memory");
            }
        }
    }

    // One of these calls, with its words as they stand there.
    fn one_call(&mut self, rt: &impl Abort, calls: &'static str) -> &'static str {
        let (bound, lines) = halves(calls, "\n");
        if lines.is_empty() {
            return calls;
        }
        let drawn = self.drawn(number(rt, bound));
        for line in lines.lines() {
            let (bound, call) = parted(line.trim());
            if drawn < number(rt, bound) {
                return call;
            }
        }
        ""
    }

    // A random number below this one, where that isn't 0.
    fn drawn(&mut self, bound: u64) -> u64 {
        if bound == 0 {
            return 0;
        }
        self.below(bound)
    }

    // One of the words that a word stands for, or itself.
    fn one_word(&mut self, word: &'static str) -> &'static str {
        for line in WORDS.lines() {
            let (name, words) = parted(line.trim());
            if same(name.as_bytes(), word.as_bytes()) {
                let place = self.drawn(count_of(words, "|") as u64);
                return words.split("|").nth(place as usize).unwrap_or("");
            }
        }
        word
    }
}
