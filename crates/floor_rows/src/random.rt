//! Random turns of three clients at two topics, of which one is ephemeral, over a folder that fails at random: the plain program finds what they
//! noted legal, and each is answered as its entry says.

ghost use Rattle.nsq_base.specs.Options.{IsInRange};

use crate::dice::{ASKS, Dice, HANDLES, JOINS, PUBLISHES, SAYS};
use crate::done::{Done, is_in_order, put_done};
use crate::judged::wrong_in;
use crate::outside::Dials;
use crate::stage::Stage;
use crate::texts::{check, put, put_number, same};
use broker_history::Entry;
use nsq_base::Options;
use nsq_outside::End;
use std::alloc::Global;
use std::process::Abort;

// How many seeds there are; the first is 1.
const SEEDS: u64 = 20;

// How many turns each of them makes, and how many of these come before a stop.
const TURNS: u64 = 250;

const RUNNING: u64 = 240;

// A client's side: the number of its connection, whether that is there, whether it joined a channel, and whether it was told that it is closed.
#[derive(Clone, Copy)]
struct Side {
    number: u64,
    is_there: bool,
    joined: bool,
    closed: bool,
}

// The side of a connection of this number, which hasn't begun.
fn side_of(number: u64) -> Side {
    Side {
        number,
        is_there: false,
        joined: false,
        closed: false,
    }
}

// What clients know, and whether the daemon stopped.
#[derive(Drop)]
struct Clients {
    alloc: Global,
    dice: Dice,
    reading: u64,
    sides: [Side; 3],
    // The ids of messages that were sent, the last ones in the end.
    sent: Vec<String>,
    stopped: bool,
}

impl Clients {
    // Three clients that haven't begun.
    fn new(alloc: Global, seed: u64) -> Clients {
        Clients {
            alloc,
            dice: Dice::new(seed),
            reading: 0,
            sides: [side_of(1), side_of(2), side_of(3)],
            sent: Vec::new(alloc),
            stopped: false,
        }
    }

    // What the clock shows next: it stands, goes on, or goes back for one turn.
    fn pass(&mut self) -> u64 {
        self.reading = self.reading.saturating_add(self.dice.later());
        if self.dice.below(16) == 0 {
            self.reading / 2
        } else {
            self.reading
        }
    }

    fn side(&self, rt: &impl Abort, place: usize) -> Side {
        *self.sides.get(place).expect(rt, "a side")
    }

    // The turn of this count: a call of a client or of somebody who needs no connection, or a stop.
    fn call(&mut self, rt: &impl Abort, count: u64, place: usize) -> String {
        let mut call = String::new(self.alloc);
        if count == RUNNING {
            call.push_str("stop").expect(rt, "memory");
        } else {
            self.put_call(rt, &mut call, place);
        }
        call
    }

    fn put_call(&mut self, rt: &impl Abort, call: &mut String, place: usize) {
        let side = self.side(rt, place);
        let goes_on = self.dice.below(8) != 0;
        let drawn = self.dice.below(64);
        match calls_of(side, goes_on, drawn) {
            Some(calls) => self.dice.put_call(rt, call, calls, ""),
            None => self.put_handling(rt, call),
        }
    }

    // What is done with one of the last messages that were sent.
    fn put_handling(&mut self, rt: &impl Abort, call: &mut String) {
        let back = self.dice.below(3) as usize;
        let at = self.sent.len().saturating_sub(1).saturating_sub(back);
        match self.sent.get(at) {
            Some(id) => self.dice.put_call(rt, call, HANDLES, id),
            None => self.dice.put_call(rt, call, HANDLES, "i0"),
        }
    }

    // What a turn's answer tells. Whether it was strange, or stopping, exactly where it should.
    fn learn(&mut self, rt: &impl Abort, place: usize, call: &str, answer: &[u8]) -> bool {
        if let Some(id) = sent_id(rt, self.alloc, answer) {
            self.sent.push(id).expect(rt, "memory");
        }
        let side = self.side(rt, place);
        let stop = is(call, "stop");
        let stops = stop || self.stopped && ends_at_stop(call);
        let strange = if is(call, "begin") {
            side.is_there
        } else {
            !side.is_there && needs_client(call)
        };
        *self.sides.get_mut(place).expect(rt, "a side") = learned(side, call, answer);
        self.stopped = self.stopped || stop;
        same(answer, b"strange") == strange && same(answer, b"stopping") == (!strange && stops)
    }
}

// What is called by a client, or by somebody who needs no connection; none where the client does something with a message.
fn calls_of(side: Side, goes_on: bool, drawn: u64) -> Option<&'static str> {
    Some(match drawn {
        0..=8 => ASKS,
        9..=11 => "tick",
        _ if goes_on && !side.is_there => "begin",
        _ if goes_on && side.closed => "gone",
        12..=23 => PUBLISHES,
        _ if goes_on && !side.joined => JOINS,
        24..=32 => SAYS,
        33..=40 => return None,
        41 => "gone",
        42 => "begin",
        _ => "next",
    })
}

// What a client knows behind a call that was answered so.
fn learned(before: Side, call: &str, answer: &[u8]) -> Side {
    if is(call, "gone") {
        return side_of(before.number.saturating_add(3));
    }
    let joined = call.starts_with("SUB") && same(answer, b"OK");
    let closed = answer.ends_with(b"closes") || same(answer, b"deleted") || same(answer, b"silent");
    Side {
        number: before.number,
        is_there: before.is_there || is(call, "begin"),
        joined: before.joined || joined,
        closed: before.closed || closed,
    }
}

// The id of the message that an answer sends.
fn sent_id(rt: &impl Abort, alloc: Global, answer: &[u8]) -> Option<String> {
    let text = String::from_utf8_lossy(alloc, answer).expect(rt, "memory");
    match id_in(&text) {
        Some(id) => Some(String::from_str(alloc, id).expect(rt, "memory")),
        None => None,
    }
}

fn id_in(text: &str) -> Option<&str> {
    let (id, _) = text.strip_prefix("sends ")?.split_once("*")?;
    Some(id)
}

// Whether a call is this one.
fn is(call: &str, other: &str) -> bool {
    same(call.as_bytes(), other.as_bytes())
}

// Whether it is a client's call, other than its beginning. A command's word is in capitals.
fn needs_client(call: &str) -> bool {
    let is_command = match call.as_bytes().first() {
        Some(letter) => letter.is_ascii_uppercase(),
        None => false,
    };
    is_command || is(call, "next") || is(call, "gone") || call.starts_with("bad")
}

// Whether it does nothing behind a stop.
fn ends_at_stop(call: &str) -> bool {
    !is(call, "begin") && !is(call, "gone") && !is(call, "names")
}

// Options with short times, and no texts, since each state has a copy of them.
fn options_of(rt: &impl Abort, alloc: Global, seed: u64) -> Options
    ensures { IsInRange result }
{
    let mut options = Options::defaults(alloc).expect(rt, "memory");
    options.mem_queue_size = match seed % 4 {
        1 => 1,
        3 => 3,
        _ => 0,
    };
    options.msg_timeout = 1_000_000_000;
    options.max_msg_timeout = 3_000_000_000;
    options.max_bytes_per_file = 200;
    options.sync_every = 7;
    assert!(rt; options.in_range(), "options that none has");
    options
}

fn turns_are_right(rt: &impl Abort, stage: &mut Stage, clients: &mut Clients) -> bool {
    for count in 0..TURNS {
        stage.dials.show(clients.pass());
        if !turn(rt, stage, clients, count) {
            return false;
        }
    }
    true
}

// One random turn. Whether it was strange, or stopping, exactly where it should.
fn turn(rt: &impl Abort, stage: &mut Stage, clients: &mut Clients, count: u64) -> bool {
    let place = clients.dice.below(3) as usize;
    let call = clients.call(rt, count, place);
    let number = clients.side(rt, place).number;
    let line = format!(in stage.alloc; "{number} {call}").expect(rt, "memory");
    stage.call(rt, &line) && clients.learn(rt, place, &call, stage.answer())
}

// Makes a seed's turns, and tells what is wrong with them.
fn make_turns(rt: &impl Abort, stage: &mut Stage, seed: u64) {
    let options = options_of(rt, stage.alloc, seed);
    let mut clients = Clients::new(stage.alloc, seed);
    stage.clear();
    stage.fails = clients.dice.faults(rt, stage.alloc);
    stage.begin(rt, &options);
    let right = turns_are_right(rt, stage, &mut clients);
    drop(clients);
    stage.end("leave");
    if right {
        judge(rt, stage, &options);
    } else {
        tell(rt, stage, b"the last is answered wrongly", 0);
    }
    drop(options);
}

// Tells what is wrong with the turns that were answered rightly.
fn judge(rt: &impl Abort, stage: &mut Stage, options: &Options) {
    if let Some(place) = out_of_order(rt, stage) {
        return tell(rt, stage, b"not in order", place);
    }
    let wrong = wrong_in(rt, stage.alloc, options, stage.run(), None);
    if !wrong.is_empty() {
        tell(rt, stage, wrong, 0);
    }
}

// The place of the first turn whose entries aren't in order.
fn out_of_order(rt: &impl Abort, stage: &Stage) -> Option<usize> {
    for (place, done) in stage.done.iter().enumerate() {
        if !is_in_order(rt, stage.alloc, done, stage.entries()) {
            return Some(place);
        }
    }
    None
}

// What is said of turns, and the turns from this one on.
fn tell(rt: &impl Abort, stage: &mut Stage, what: &[u8], from: usize) {
    let mut text = Vec::new(stage.alloc);
    put(rt, &mut text, what);
    for (place, done) in stage.done.iter().enumerate() {
        if place >= from {
            put_turn(rt, &mut text, done, stage.entries());
        }
    }
    stage.wrong = text;
}

// What a turn was, and what it did.
fn put_turn(rt: &impl Abort, text: &mut Vec<u8>, done: &Done, entries: &[(Entry, End)]) {
    put(rt, text, b"\n");
    put_number(rt, text, u128::from(done.at));
    put(rt, text, b": ");
    put(rt, text, done.line.as_bytes());
    put(rt, text, b" => ");
    put_done(rt, text, done, entries);
}

// Stops the run where a seed's turns aren't right.
fn try_seed(rt: &impl Abort, stage: &mut Stage, seed: u64) {
    make_turns(rt, stage, seed);
    if !stage.wrong.is_empty() {
        put(rt, &mut stage.wrong, b"\nseed ");
        put_number(rt, &mut stage.wrong, u128::from(seed));
    }
    check(rt, stage.alloc, "random turns", &stage.wrong);
}

#[test]
fn random_turns(rt: HostRuntime) {
    let dials = Dials::new();
    let mut stage = Stage::new(rt.alloc(), &dials);
    for seed in 1..SEEDS + 1 {
        try_seed(&rt, &mut stage, seed);
    }
    stage.close();
}
