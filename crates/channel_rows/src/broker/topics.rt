//! Random calls of a topic's queue, beside the plain program of the whole broker.

ghost use Rattle.std.specs.Prelude.{◌≡◌, All, length};
ghost use Rattle.backlog.specs.Seen.{FitsLimit};
ghost use Rattle.topic_core.specs.Seen.{IsSettled};

use crate::broker::beside::{Beside, let_go as let_beside_go};
use crate::broker::topics_beside::{
    beside, changes, channels, deletes, ids, lettered, may_lose, pays, publishes, tells, took,
};
use crate::calls::{Call, Does, call_of};
use crate::dice::Dice;
use crate::runs::{Run, SEEDS, all_runs, check_seed, folder_of, options_of, run_of};
use crate::stage::{Scratch, let_folder_go};
use crate::words::{cut, unknown};
use backlog::{Flushed, PutAll};
use disk_queue::{Emptied, Sync};
use nsq_base::{Body, Chan, MsgId, Options, Topic};
use nsq_fakes::MemFolder;
use queue_opening::Open;
use std::alloc::Global;
use std::process::Abort;
use topic_core::{DropTopic, Head, TopicQueue};
use v2_frame::Message;

// How many calls each run of a seed makes: with 12 runs a little over 2,000 of each seed.
const CALLS: u64 = 170;

// The random calls, and what each draws; before each its weight, of 64. Up to three messages are put together, a message is drawn where one may be taken
// (and taken or put back), a channel gets its copy where it is owed one, and a channel is deleted, or made where it isn't there.
const LINES: &str =
    "21 put count delay moment; 14 take takes moment; 16 pay moment letter; 4 change moment letter; 3 pause on moment; 2 sync;
    1 empty moment; 1 delete moment; 2 restart";

// A topic's queue in a folder, and the plain program beside it.
#[derive(Drop)]
struct Pair {
    alloc: Global,
    options: Options,
    topic: TopicQueue,
    folder: MemFolder,
    beside: Beside,
    dice: Dice,
    ghost settled: { IsSettled topic },
}

impl Pair {
    // One random call. Whether it answers, and the topic tells afterwards, what is so in a possible state.
    fn step(&mut self, rt: &impl Abort, scratch: &mut Scratch) -> bool {
        let (word, names) = cut(self.dice.one_of(rt, LINES, 64));
        let mut call = call_of(Does::Restart);
        self.dice.fill(rt, &mut call, names);
        self.call(rt, scratch, word, &call) && tells(&mut self.beside, rt, &self.topic)
    }

    fn call(&mut self, rt: &impl Abort, scratch: &mut Scratch, word: &str, call: &Call) -> bool {
        match word {
            "put" => self.put(rt, scratch, call),
            "take" => self.take(rt, scratch, call),
            "pay" => self.pay(rt, call.at, lettered(rt, call.letter)),
            "change" => self.change(rt, call.at, lettered(rt, call.letter)),
            "restart" => self.restart(rt, scratch),
            _ => self.call_whole(rt, word, call),
        }
    }

    fn call_whole(&mut self, rt: &impl Abort, word: &str, call: &Call) -> bool {
        match word {
            "pause" => {
                self.topic.pause(call.on);
                self.beside.pauses(rt, call.at, call.on)
            }
            "sync" => match self.topic.sync(&mut self.folder) {
                Sync::NotDue => true,
                Sync::Done => !self.topic.name().ephemeral(),
                Sync::Failed => self.beside.may_fail(),
            },
            "empty" => {
                let done = matches!(self.topic.empty(&mut self.folder), Emptied::Done);
                self.beside.empties(rt, call.at, done)
            }
            "delete" => self.delete(rt, call.at),
            _ => unknown(rt, word),
        }
    }

    // Up to three messages are put together.
    fn put(&mut self, rt: &impl Abort, scratch: &mut Scratch, call: &Call) -> bool {
        let count = u64::from(call.count);
        match self.put_all(rt, scratch, count, call) {
            Some(done) => publishes(&mut self.beside, rt, call.at, call.delay, count, done),
            None => false,
        }
    }

    // Puts so many messages. Whether that was done, and then all of them are taken over; else none is. None where it is otherwise.
    fn put_all(
        &mut self,
        rt: &impl Abort,
        scratch: &mut Scratch,
        count: u64,
        call: &Call,
    ) -> Option<bool> {
        let (epoch, used) = ids(&self.beside);
        let mut messages = messages_of(rt, self.alloc, epoch, used, count, call.at, call.delay);
        let answer = self
            .topic
            .put_all(&mut self.folder, &mut scratch.bytes, &mut messages);
        let left = messages.len() as u64;
        match answer {
            PutAll::Done if left == 0 => Some(true),
            PutAll::Fault if left == count => Some(false),
            PutAll::Done | PutAll::Fault => None,
        }
    }

    // A message is drawn where one may be taken, and taken or put back.
    fn take(&mut self, rt: &impl Abort, scratch: &mut Scratch, call: &Call) -> bool {
        let Some(channels) = channels(&self.beside, rt) else {
            return true;
        };
        if channels.is_empty() || self.topic.head().is_some() {
            return channels.is_empty();
        }
        let (answer, told) = self.draw(rt, scratch, &channels, call.on);
        took(&mut self.beside, rt, call.at, answer, told, call.on)
    }

    // Draws a message for these channels, where there are some and no head is there, and takes it, or puts it back. The message that was
    // drawn.
    fn draw(
        &mut self,
        rt: &impl Abort,
        scratch: &mut Scratch,
        channels: &[Chan],
        settles: bool,
    ) -> (Head, Option<Message>) {
        if channels.is_empty() || self.topic.head().is_some() {
            return (Head::Damaged, None);
        }
        let answer = self
            .topic
            .take_head(&mut self.folder, &mut scratch.bytes, channels);
        let told = head_of(rt, self.alloc, &self.topic);
        match answer {
            Head::Ready if settles => self.topic.settle_head(&mut self.folder),
            Head::Ready => self.topic.undo_head(),
            Head::Empty | Head::Fault | Head::Damaged | Head::Memory => {}
        }
        (answer, told)
    }

    // A channel gets its copy, where it is owed one.
    fn pay(&mut self, rt: &impl Abort, at: u64, channel: Chan) -> bool {
        if !self.topic.owed().contains(&channel) {
            return true;
        }
        let Some(message) = head_of(rt, self.alloc, &self.topic) else {
            return false;
        };
        self.topic.paid(channel);
        pays(&mut self.beside, rt, at, channel, message)
    }

    // A channel is deleted, or made where it isn't there.
    fn change(&mut self, rt: &impl Abort, at: u64, channel: Chan) -> bool {
        let loses = may_lose(&self.beside, channel);
        if loses {
            self.topic.forget_channel(channel);
        }
        changes(&mut self.beside, rt, at, channel, loses)
    }

    // The topic is deleted, and made anew. Where the folder fails it stays.
    fn delete(&mut self, rt: &impl Abort, at: u64) -> bool {
        let fresh = TopicQueue::fresh(self.alloc, self.topic.name(), &self.options);
        let old = std::mem::replace(&mut self.topic, fresh.expect(rt, "memory"));
        let done = match old.delete(&mut self.folder) {
            DropTopic::Done => true,
            DropTopic::Fault(back) => {
                put(&mut self.topic, back);
                false
            }
        };
        deletes(&mut self.beside, rt, at, done)
    }

    // A durable topic is flushed and opened again.
    fn restart(&mut self, rt: &impl Abort, scratch: &mut Scratch) -> bool {
        if !self.flush(scratch) {
            return false;
        }
        self.topic.name().ephemeral()
            || (self.beside.begins(rt, &mut self.folder) && self.reopen(rt))
    }

    // Whether the topic is flushed. Where the folder fails, that is tried again.
    fn flush(&mut self, scratch: &mut Scratch) -> bool {
        for _ in 0..100 {
            match self.topic.flush(&mut self.folder, &mut scratch.bytes) {
                Flushed::Done => return true,
                Flushed::Fault if self.beside.may_fail() => {}
                Flushed::Fault => return false,
            }
        }
        false
    }

    // The topic is opened, with the pause that was kept. Where the folder fails, that is tried again.
    fn reopen(&mut self, rt: &impl Abort) -> bool {
        let paused = self.topic.is_paused();
        for _ in 0..100 {
            match self.open(paused) {
                Ok(()) => return true,
                Err(Open::Memory) => panic!(rt; "memory"),
                Err(Open::Fault) if self.beside.may_fail() => {}
                Err(Open::Fault | Open::BadMeta) => return false,
            }
        }
        false
    }

    // A topic of this name is opened in place of this one.
    fn open(&mut self, paused: bool) -> Result<(), Open> {
        let opened = TopicQueue::open(
            self.alloc,
            &mut self.folder,
            self.topic.name(),
            &self.options,
        )?;
        put(&mut self.topic, opened);
        self.topic.pause(paused);
        Ok(())
    }
}

// Puts a topic in the place of another.
fn put(topic: &mut TopicQueue, new: TopicQueue)
    ensures { topic.new ≡ new }
{
    let_topic_go(std::mem::replace(topic, new));
}

// Takes a topic's queue apart, once for all that held one.
fn let_topic_go(_topic: TopicQueue) {}

fn let_options_go(_options: Options) {}

// Takes a pair apart.
fn let_go(pair: Pair) {
    let Pair {
        alloc: _,
        options,
        topic,
        folder,
        beside,
        dice: _,
    } = pair;
    let_options_go(options);
    let_topic_go(topic);
    let_folder_go(folder);
    let_beside_go(beside);
}

// A copy of the topic's head, if it has one.
fn head_of(rt: &impl Abort, alloc: Global, topic: &TopicQueue) -> Option<Message> {
    match topic.head() {
        Some(head) => Some(head.copy(alloc).expect(rt, "memory")),
        None => None,
    }
}

// So many messages behind this number, with the ids that come next: the body of each is its number.
fn messages_of(
    rt: &impl Abort,
    alloc: Global,
    epoch: u32,
    used: u64,
    count: u64,
    at: u64,
    delay: u64,
) -> Vec<Message>
    ensures { All FitsLimit result.items }
{
    let mut messages = Vec::new(alloc);
    for i in 0..count {
        let message = message(rt, alloc, epoch, used.wrapping_add(i), at, delay);
        messages.push(message).expect(rt, "memory");
    }
    messages
}

fn message(rt: &impl Abort, alloc: Global, epoch: u32, number: u64, at: u64, delay: u64) -> Message
    ensures { length result.body ≡ 8 }
{
    Message {
        stamp: at,
        attempts: 0,
        id: MsgId::make(epoch % 1_000, number % 1_000_000),
        body: Body::copy(alloc, &number.to_be_bytes()).expect(rt, "memory"),
        delay,
    }
}

// Whether all calls of a run and a seed answer what is so in a possible state.
fn holds(rt: &impl Abort, alloc: Global, scratch: &mut Scratch, run: &Run, seed: u64) -> bool {
    let mut pair = pair_of(rt, alloc, run, seed);
    let hold = calls_hold(rt, &mut pair, scratch);
    let_go(pair);
    hold
}

fn calls_hold(rt: &impl Abort, pair: &mut Pair, scratch: &mut Scratch) -> bool {
    for _ in 0..CALLS {
        if !pair.step(rt, scratch) {
            return false;
        }
    }
    true
}

// A topic's queue in a folder, and the plain program beside it.
fn pair_of(rt: &impl Abort, alloc: Global, run: &Run, seed: u64) -> Pair {
    let mut dice = run.dice(seed);
    let name: &[u8] = if run.ephemeral { b"t#ephemeral" } else { b"t" };
    let name = Topic::read(name).expect(rt, "a topic");
    let options = options_of(rt, alloc, run);
    Pair {
        folder: folder_of(rt, alloc, run, &mut dice, 32, 400),
        beside: beside(rt, alloc, &options, name, run.fails),
        topic: TopicQueue::fresh(alloc, name, &options).expect(rt, "memory"),
        alloc,
        options,
        dice,
    }
}

// Checks the runs of all seeds.
fn check_all(rt: &impl Abort, alloc: Global, scratch: &mut Scratch) {
    for i in 0..SEEDS {
        for row in all_runs() {
            let holds = holds(rt, alloc, scratch, &run_of(rt, row), i + 1);
            check_seed(rt, holds, row, i + 1);
        }
    }
}

#[test]
fn runs(rt: HostRuntime) {
    let alloc = rt.alloc();
    let mut scratch = Scratch::new(alloc).expect(&rt, "memory");
    check_all(&rt, alloc, &mut scratch);
}
