ghost use Rattle.std.specs.Prelude.{◌≡◌, ◌≢◌, ◌≤◌, ◌<◌, ◌+◌, ◌^◌, List, [], length, true, false, None, IsTrue, IsSome, IfSome, IfOk, IfErr, OnOk, option_map, option_copied};
ghost use Rattle.nsq_base.specs.Name.{is_ephemeral};
ghost use Rattle.nsq_outside.specs.Files.{Files};
ghost use Rattle.queue_image.specs.FileNames.{meta_file};
ghost use Rattle.queue_image.specs.Metas.{IsIdle};
ghost use Rattle.backlog.specs.Opened.{FilesOfChange, IsTidied};
ghost use Rattle.backlog.specs.Refusals.{OpenFails, OpenCounts};
ghost use Rattle.v2_frame.specs.declared.message.Message.{Message};
ghost use Rattle.backlog.specs.Seen.{ForMessages, FitsLimit, ring_depth, disk_depth};
ghost use Rattle.backlog.specs.Lists.{IsFoundAgain, Stands, OpenRefused};
ghost use Rattle.backlog.specs.declared.backlog.Lent.TheVariants.{Nothing};
ghost use Rattle.broker_history.specs.State.{Topic as StateTopic, new_topic, is_empty};
ghost use Rattle.topic_core.specs.Seen.{fresh_topic, queue_options, owed_of, IsDrawn, IsSettled, IsOpenedTopic, IsWant};
ghost use Rattle.topic_core.specs.Kept.{IsNamed};
ghost use Rattle.topic_core.specs.Rows.{IsTopicOf, Becomes, FindsMessages, found_topic, paused_in};

mod heads;
mod putting;
mod saving;

use backlog::{Backlog, Depths, Open, QueueOptions};
use nsq_base::{Chan, Memory, Options, Topic};
use nsq_outside::Folder;
use std::alloc::Global;
use std::marker::Model;
use v2_frame::Message;

/// A topic's messages: those that wait, in a backlog, and the one that was taken, for as long as a channel is owed a copy of it.
///
/// A message that waits is drawn by `take_head`, and then either taken, by `settle_head`, or put back, by `undo_head`; no call but
/// `head`, `owed`, `name`, `is_paused`, `message_count`, `depths` and `is_empty` may come before. The channels themselves are the caller's. An
/// ephemeral topic has no queue on disk. No call but `fresh`, `open` and `take_head` takes memory.
#[derive(Drop)]
pub struct TopicQueue {
    name: Topic,
    paused: bool,
    // How many messages were put into it and not dropped; it stays at 2^64 - 1.
    message_count: u64,
    backlog: Backlog,
    // The message that was drawn or taken.
    head: Option<Message>,
    // The channels that are owed a copy of it.
    owed: Vec<Chan>,
}

impl Model for TopicQueue {
    ghost use Rattle.topic_core.specs.Seen.{Seen, with_owed};
    ghost use Rattle.topic_core.specs.Kept.{IsSound};

    ghost Value = { Seen };

    ghost view = { λ t. record { name = t.name; paused = t.paused; message_count = t.message_count; backlog = t.backlog; head = with_owed t.head t.owed.items } };

    ghost invariant = { λ t. IsSound t.name t.backlog t.head t.owed.items };
}

impl TopicQueue {
    /// A topic without messages, which isn't paused. It keeps `mem_queue_size` messages in memory; a durable one has a queue on disk of
    /// the topic's name, which begins at file 0, whatever the folder has. Want of memory is the only error.
    pub fn fresh(alloc: Global, name: Topic, options: &Options) -> Result<TopicQueue, Memory>
        ensures seen { IfOk result (λ q. q ≡ fresh_topic name options.now) }
        ensures row { IfOk result (λ q. (files : Files) → IsTopicOf q files (new_topic name)) }
        ensures stands { IfOk result (λ q. (files : Files) → IsIdle (files (meta_file name)) → Stands q.backlog.queue files) }
    {
        let durable = !name.ephemeral();
        let backlog = Backlog::fresh(
            alloc,
            name.as_str(),
            ring_of(options),
            durable,
            queue_options(options),
        )?;
        Ok(TopicQueue::over(alloc, name, backlog))
    }

    /// A topic with the messages that an opening finds in its queue on disk, which all wait there. An ephemeral one is made as by
    /// `fresh`, without a look at the folder. Errors are those of `Backlog::open`.
    pub fn open<F: Folder>(
        alloc: Global,
        folder: &mut F,
        name: Topic,
        options: &Options,
    ) -> Result<TopicQueue, Open>
        ensures seen { IfOk result (IsOpenedTopic name options.now) }
        ensures row { IsTrue F.tells_files → IfOk result (λ q. (messages : List Message) → FindsMessages (F.files folder.old) name messages → IsTopicOf q (F.files folder.new) (found_topic name messages)) }
        ensures again { IsTrue F.tells_files → is_ephemeral name ≡ false → OnOk result (IsFoundAgain name (F.files folder.old) (F.files folder.new)) }
        ensures stands { IsTrue F.tells_files → IfOk result (λ q. Stands q.backlog.queue (F.files folder.new)) }
        ensures tidied { IsTrue F.tells_files → IfOk result (λ q. IfSome q.backlog.queue (λ disk. IsTidied disk (F.files folder.old) (F.files folder.new))) }
        ensures ephemeral { is_ephemeral name ≡ true → (folder.new ≡ folder.old) × IfErr result IsWant }
        ensures refused { IsTrue F.tells_files → IfErr result (λ e. OpenRefused name (F.files folder.old) (F.files folder.new) e) }
        ensures others { IsTrue F.tells_files → FilesOfChange name (F.files folder.old) (F.files folder.new) }
        ensures faults { F.folder_faults folder.old ≤ F.folder_faults folder.new }
        ensures cause { IfErr result (λ e. OpenFails (F.folder_faults folder.old) (F.folder_faults folder.new) e) }
        ensures exact { IsTrue F.counts_exactly → OpenCounts (F.folder_faults folder.old) (F.folder_faults folder.new) result }
    {
        if name.ephemeral() {
            return Ok(TopicQueue::fresh(alloc, name, options)?);
        }
        let backlog = Backlog::open(
            alloc,
            folder,
            name.as_str(),
            ring_of(options),
            queue_options(options),
        )?;
        Ok(TopicQueue::over(alloc, name, backlog))
    }

    // A topic whose messages are those of the backlog.
    fn over(alloc: Global, name: Topic, backlog: Backlog) -> TopicQueue
        requires named { IsNamed name backlog }
        requires settled { backlog.lent ≡ Nothing }
        ensures { result ≡ record { name = name; paused = false; message_count = 0; backlog = backlog; head = None } }
    {
        TopicQueue {
            name,
            paused: false,
            message_count: 0,
            backlog,
            head: None,
            owed: Vec::new(alloc),
        }
    }

    /// Its name. Exactly the durable ones have a queue on disk, which has that name.
    pub fn name(&self) -> Topic
        ensures value { result ≡ self.now.name }
        ensures named { IsNamed self.now.name self.now.backlog }
    {
        self.name
    }

    /// Whether it is paused: then no message is to be taken.
    pub fn is_paused(&self) -> bool
        ensures { result ≡ self.now.paused }
    {
        self.paused
    }

    /// Pauses it, or lets it go on. Requires that nothing is drawn.
    pub fn pause(&mut self, on: bool)
        requires { IsSettled self.old }
        ensures seen { self.new ≡ record self.old { paused = on } }
        ensures row { (files : Files) → Becomes self.old files self.new files (paused_in on) }
    {
        self.paused = on;
    }

    /// How many messages were put into it and not dropped; it stays at 2^64 - 1.
    pub fn message_count(&self) -> u64
        ensures { result ≡ self.now.message_count }
    {
        self.message_count
    }

    /// How many messages wait, and where: the taken one isn't among them, one that is only drawn is. The ring has at most
    /// `mem_queue_size` of them, and an ephemeral topic none on disk. Their sum stays below 2^128.
    pub fn depths(&self) -> Depths
        ensures ring { result.ring ≡ ring_depth self.now.backlog }
        ensures disk { result.disk ≡ disk_depth self.now.backlog.queue }
        ensures within { result.ring ≤ self.now.backlog.capacity }
        ensures fits { result.ring + result.disk < 2 ^ 128 }
        ensures ephemeral { is_ephemeral self.now.name ≡ true → result.disk ≡ 0 }
        ensures row { (files : Files) (t : StateTopic) → IsTopicOf self.now files t → result.ring + result.disk ≡ length t.waiting }
    {
        self.backlog.depths()
    }

    /// Whether no message waits.
    pub fn is_empty(&self) -> bool
        ensures { (files : Files) (t : StateTopic) → IsTopicOf self.now files t → result ≡ is_empty t.waiting }
    {
        let depths = self.depths();
        if depths.ring != 0 {
            return false;
        }
        depths.disk == 0
    }

    /// The message that is drawn or taken. Its body has at most 16,777,216 bytes.
    pub fn head(&self) -> Option<&Message>
        ensures value { option_copied result ≡ option_map (λ head. head.message) self.now.head }
        ensures short { IfSome self.now.head (λ head. FitsLimit head.message) }
        ensures drawn { IsDrawn self.now → IsSome self.now.head }
    {
        self.head.as_ref()
    }

    /// The channels that are owed a copy of it, in the order in which `take_head` was given them: at least one where there is a head.
    pub fn owed(&self) -> &[Chan]
        ensures value { result.now ≡ owed_of self.now.head }
        ensures some { IfSome self.now.head (λ head. head.owed ≢ []) }
    {
        &self.owed
    }
}

/// The least number of bytes of a message on disk.
const LEAST: u32 = 26;

/// The greatest number of bytes of a message on disk: 26 and those of the longest body that any options allow.
const LONGEST: u32 = 26 + 16_777_216;

// How many messages a topic keeps in memory.
fn ring_of(options: &Options) -> usize
    ensures { result ≡ options.now.mem_queue_size }
{
    options.mem_queue_size as usize
}

// The options of a topic's queue on disk.
fn queue_options(options: &Options) -> QueueOptions
    ensures value { result ≡ queue_options options.now }
    ensures messages { ForMessages result }
{
    QueueOptions {
        max_bytes: options.max_bytes_per_file,
        sync_every: options.sync_every,
        least: LEAST,
        limit: LONGEST,
    }
}
