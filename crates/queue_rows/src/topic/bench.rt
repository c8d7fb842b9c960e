//! A topic's queue in a folder in memory, and its calls: messages by their numbers, channels by their letters.

ghost use Rattle.std.specs.Prelude.{◌≡◌, All, length, IfOk};
ghost use Rattle.backlog.specs.Seen.{FitsLimit};
ghost use Rattle.topic_core.specs.Seen.{IsSettled};

use crate::folders::let_folder_go;
use crate::room::Room;
use crate::same;
use crate::text::unknown;
use backlog::{Depths, Flushed, PutAll};
use disk_queue::{Emptied, Open, Sync};
use nsq_base::{Body, Chan, Memory, MsgId, Options, Topic};
use nsq_fakes::{Failing, MemFolder};
use std::alloc::Global;
use std::process::Abort;
use topic_core::{DropTopic, Head, TopicQueue};
use v2_frame::Message;

/// A topic's queue and its folder. No message is drawn.
#[derive(Drop)]
pub struct Bench {
    pub topic: TopicQueue,
    pub folder: MemFolder,
    pub options: Options,
    ghost settled: { IsSettled topic },
}

/// What a topic's queue shows.
#[derive(Clone, Copy, PartialEq)]
pub struct Shown {
    depths: Depths,
    count: u64,
    head: bool,
    owed: usize,
}

impl Bench {
    /// A new topic in an empty folder whose calls fail so. It keeps so many messages in memory.
    pub fn new(
        alloc: Global,
        name: Topic,
        memory: u64,
        fails: &[Failing],
    ) -> Result<Bench, Memory> {
        let fails = fails.to_vec(alloc)?;
        let folder = MemFolder::new(alloc, Vec::new(alloc), fails)?;
        match options_of(alloc, memory) {
            Ok(options) => Bench::over(alloc, name, folder, options),
            Err(Memory) => {
                let_folder_go(folder);
                Err(Memory)
            }
        }
    }

    // A new topic in a folder.
    fn over(
        alloc: Global,
        name: Topic,
        folder: MemFolder,
        options: Options,
    ) -> Result<Bench, Memory> {
        match TopicQueue::fresh(alloc, name, &options) {
            Ok(topic) => Ok(Bench {
                topic,
                folder,
                options,
            }),
            Err(Memory) => {
                let_folder_go(folder);
                Err(Memory)
            }
        }
    }

    /// Puts the messages of these numbers together. The answer, and how many are left.
    pub fn put(
        &mut self,
        alloc: Global,
        room: &mut Room,
        numbers: &[u64],
    ) -> Result<(PutAll, usize), Memory> {
        let mut messages = messages_of(alloc, numbers)?;
        let answer = self
            .topic
            .put_all(&mut self.folder, &mut room.bytes, &mut messages);
        Ok((answer, messages.len()))
    }

    /// Draws a message for these channels, where none is taken, and takes it, or puts it back.
    pub fn take(
        &mut self,
        alloc: Global,
        room: &mut Room,
        letters: &[u8],
        keeps: bool,
    ) -> Result<Option<Head>, Memory> {
        let channels = channels_of(alloc, letters)?;
        if channels.is_empty() || self.topic.head().is_some() {
            return Ok(None);
        }
        let answer = self
            .topic
            .take_head(&mut self.folder, &mut room.bytes, &channels);
        match answer {
            Head::Ready if keeps => self.topic.settle_head(&mut self.folder),
            Head::Ready => self.topic.undo_head(),
            Head::Empty | Head::Fault | Head::Damaged | Head::Memory => {}
        }
        Ok(Some(answer))
    }

    /// Whether the channel was owed a copy. Then it is paid.
    pub fn pay(&mut self, letter: u8) -> bool {
        let Some(channel) = Chan::read(&[letter]) else {
            return false;
        };
        if !self.topic.owed().contains(&channel) {
            return false;
        }
        self.topic.paid(channel);
        true
    }

    /// Whether the letter is a channel's name. Then that is gone.
    pub fn forget(&mut self, letter: u8) -> bool {
        let Some(channel) = Chan::read(&[letter]) else {
            return false;
        };
        self.topic.forget_channel(channel);
        true
    }

    pub fn empty(&mut self) -> Emptied {
        self.topic.empty(&mut self.folder)
    }

    pub fn sync(&mut self) -> Sync {
        self.topic.sync(&mut self.folder)
    }

    pub fn flush(&mut self, room: &mut Room) -> Flushed {
        self.topic.flush(&mut self.folder, &mut room.bytes)
    }

    /// Opens a topic of that name in the folder, in place of this one.
    pub fn open(&mut self, alloc: Global) -> Result<(), Open> {
        let opened = TopicQueue::open(alloc, &mut self.folder, self.topic.name(), &self.options)?;
        let_topic_go(std::mem::replace(&mut self.topic, opened));
        Ok(())
    }

    /// Deletes the topic, and makes a new one in its place. Whether no fault came.
    pub fn delete(&mut self, alloc: Global) -> Result<bool, Memory> {
        let fresh = TopicQueue::fresh(alloc, self.topic.name(), &self.options)?;
        let old = std::mem::replace(&mut self.topic, fresh);
        match old.delete(&mut self.folder) {
            DropTopic::Done => Ok(true),
            DropTopic::Fault(kept) => {
                let_topic_go(kept);
                Ok(false)
            }
        }
    }

    pub fn shows(&self) -> Shown {
        Shown {
            depths: self.topic.depths(),
            count: self.topic.message_count(),
            head: self.topic.head().is_some(),
            owed: self.topic.owed().len(),
        }
    }

    /// The number and the delay of the head, where it has what its number says.
    pub fn head(&self) -> Option<(u64, u64)> {
        let message = self.topic.head()?;
        let Some((number, [])) = message.body.bytes().split_first_chunk::<8>() else {
            return None;
        };
        let number = u64::from_be_bytes(*number);
        if message.stamp != 7 || message.attempts != 0 || message.id != id_of(number) {
            return None;
        }
        Some((number, message.delay))
    }

    /// Whether these are the channels that are owed the head.
    pub fn owes(&self, letters: &[u8]) -> bool {
        let owed = self.topic.owed();
        if owed.len() != letters.len() {
            return false;
        }
        let mut all = true;
        for i in 0..letters.len() {
            all = all && same(owed[i].bytes(), &[letters[i]]);
        }
        all
    }
}

// The default options but for how many messages are kept in memory.
fn options_of(alloc: Global, memory: u64) -> Result<Options, Memory> {
    let mut options = Options::defaults(alloc)?;
    options.mem_queue_size = memory;
    Ok(options)
}

/// A new topic of that name in an empty folder, as a bench.
pub fn bench_of(
    rt: &impl Abort,
    alloc: Global,
    topic: &[u8],
    memory: u64,
    fails: &[Failing],
) -> Bench {
    match Topic::read(topic) {
        Some(name) => Bench::new(alloc, name, memory, fails).expect(rt, "memory"),
        None => unknown(rt, "a topic's name"),
    }
}

// Takes a topic's queue apart, once for all that held one.
fn let_topic_go(_topic: TopicQueue) {}

/// Takes a bench apart, once for all that held one.
pub fn let_go(bench: Bench) {
    let Bench {
        topic,
        folder,
        options,
    } = bench;
    let_topic_go(topic);
    let_folder_go(folder);
    let_options_go(options);
}

fn let_options_go(_options: Options) {}

/// The delay of the message of this number.
pub fn delay_of(number: u64) -> u64 {
    number % 9
}

fn id_of(number: u64) -> MsgId {
    MsgId::make(1, number % 1_000_000)
}

fn message(alloc: Global, number: u64) -> Result<Message, Memory>
    ensures { IfOk result (λ m. length m.body ≡ 8) }
{
    Ok(Message {
        stamp: 7,
        attempts: 0,
        id: id_of(number),
        body: Body::copy(alloc, &number.to_be_bytes())?,
        delay: delay_of(number),
    })
}

// The messages of these numbers.
fn messages_of(alloc: Global, numbers: &[u64]) -> Result<Vec<Message>, Memory>
    ensures { IfOk result (λ messages. All FitsLimit messages.items) }
{
    let mut messages = Vec::new(alloc);
    for number in numbers {
        messages.push(message(alloc, *number)?)?;
    }
    Ok(messages)
}

fn channels_of(alloc: Global, letters: &[u8]) -> Result<Vec<Chan>, Memory> {
    let mut channels = Vec::new(alloc);
    for letter in letters {
        if let Some(channel) = Chan::read(&[*letter]) {
            channels.push(channel)?;
        }
    }
    Ok(channels)
}
