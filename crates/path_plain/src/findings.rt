ghost use Rattle.std.specs.Prelude.{◌≡◌, ◌≤◌, length, map, All, IfOk, MatchOption};
ghost use Rattle.path_plain.specs.Folders.{files_of};
ghost use Rattle.queue_image.specs.FileNames.{channel_queue};
ghost use Rattle.queue_image.specs.Finds.{BadMeta};
ghost use Rattle.path_image.specs.Data.{KeptChannel};
ghost use Rattle.path_image.specs.Found.{IsRecordOf, Pairwise, IsFoundQueue, HasMessages, FindsChannel, FindsTopic, queues_of, IsFound};
ghost use Rattle.path_plain.specs.Findings.{HasBadMeta, HasBadTopic, finding_of};

use crate::names::LAST_EPOCH;
use crate::{KeptChannel, KeptTopic, NamedFile, found_queue, look_up, read_names};
use nsq_base::{Bodies, Body, Chan, Memory, Topic};
use queue_image::file_names::channel_queue;
use std::alloc::Global;
use std::marker::Model;
use v2_frame::{Message, Taken};

/// The name of the file of names.
const DATA_NAME: &str = "nsqd.dat";

/// The fewest bytes of a record: those of a message without a body.
const LEAST_RECORD: u32 = 26;

/// The most bytes of a record: those of a message with the longest body.
const LONGEST_RECORD: u32 = 16_777_242;

/// A channel that was found.
#[derive(Drop)]
pub struct FoundChannel {
    /// Its name.
    pub name: Chan,
    /// Whether it is paused.
    pub paused: bool,
    /// The messages of its queue, oldest first.
    pub messages: Vec<Message>,
}

impl Model for FoundChannel {
    ghost use Rattle.path_image.specs.Found.{FoundChannel};

    ghost Value = { FoundChannel };

    ghost view = { λ c. record { name = c.name; paused = c.paused; messages = c.messages.items } };
}

/// A topic that was found.
#[derive(Drop)]
pub struct FoundTopic {
    /// Its name.
    pub name: Topic,
    /// Whether it is paused.
    pub paused: bool,
    /// The messages of its queue, oldest first.
    pub messages: Vec<Message>,
    /// Its durable channels in byte order.
    pub channels: Vec<FoundChannel>,
}

impl Model for FoundTopic {
    ghost use Rattle.path_image.specs.Found.{FoundTopic};

    ghost Value = { FoundTopic };

    ghost view = { λ t. record { name = t.name; paused = t.paused; messages = t.messages.items; channels = t.channels.items } };
}

/// Names that were found, with their messages.
#[derive(Drop)]
pub struct FoundNames {
    /// The epoch of the last run; 0 where there was none.
    pub epoch: u32,
    /// The durable topics in byte order.
    pub topics: Vec<FoundTopic>,
}

impl Model for FoundNames {
    ghost use Rattle.path_image.specs.Found.{Found};

    ghost Value = { Found };

    ghost view = { λ n. record { epoch = n.epoch; topics = n.topics.items } };
}

/// What an opening finds in a folder.
#[derive(Drop)]
pub enum Finding {
    /// The file of names isn't in its grammar, or the metadata of a queue that it lists isn't in its own.
    BadData,
    /// The last epoch was used, so no run can follow.
    EpochSpent,
    /// These names.
    Names(FoundNames),
}

/// What an opening finds among the files of a folder: what the file of names keeps, and of each topic and channel there the messages
/// of its queue, without those of bad files. Without a file of names nothing is found, whatever the other files are. A bad file of
/// names comes before a spent epoch, and that before bad metadata. Want of memory is the only error.
pub fn found(alloc: Global, files: &[NamedFile]) -> Result<Finding, Memory>
    ensures { IfOk result (λ finding. IsFound (files_of files.now) (finding_of finding)) }
{
    let Some(text) = look_up(files, DATA_NAME) else {
        return Ok(Finding::Names(FoundNames {
            epoch: 0,
            topics: Vec::new(alloc),
        }));
    };
    let Some(kept) = read_names(alloc, text)? else {
        return Ok(Finding::BadData);
    };
    if u64::from(kept.epoch) == LAST_EPOCH {
        return Ok(Finding::EpochSpent);
    }
    let Some(topics) = found_topics(alloc, files, &kept.topics)? else {
        return Ok(Finding::BadData);
    };
    let epoch = kept.epoch;
    Ok(Finding::Names(FoundNames { epoch, topics }))
}

// The topics with their messages; None where a queue of one has bad metadata.
fn found_topics(
    alloc: Global,
    files: &[NamedFile],
    kept: &[KeptTopic],
) -> Result<Option<Vec<FoundTopic>>, Memory>
    ensures { IfOk result (λ topics. MatchOption topics (HasBadTopic (files_of files.now) kept.now) (λ found. Pairwise (FindsTopic (files_of files.now)) kept.now found.items)) }
{
    let mut topics = Vec::new(alloc);
    for topic in kept {
        let Some(found) = found_topic(alloc, files, topic)? else {
            return Ok(None);
        };
        topics.push(found)?;
    }
    Ok(Some(topics))
}

// The topic with its messages; None where a queue of it has bad metadata.
fn found_topic(
    alloc: Global,
    files: &[NamedFile],
    kept: &KeptTopic,
) -> Result<Option<FoundTopic>, Memory>
    ensures { IfOk result (λ topic. MatchOption topic (HasBadMeta (files_of files.now) (queues_of kept.now)) (FindsTopic (files_of files.now) kept.now)) }
{
    let Some(messages) = messages_in(alloc, files, kept.name.as_str())? else {
        return Ok(None);
    };
    let Some(channels) = found_channels(alloc, files, kept.name, &kept.channels)? else {
        return Ok(None);
    };
    Ok(Some(FoundTopic {
        name: kept.name,
        paused: kept.paused,
        messages,
        channels,
    }))
}

// The channels of a topic with their messages; None where a queue of one has bad metadata.
fn found_channels(
    alloc: Global,
    files: &[NamedFile],
    topic: Topic,
    kept: &[KeptChannel],
) -> Result<Option<Vec<FoundChannel>>, Memory>
    ensures { IfOk result (λ channels. MatchOption channels (HasBadMeta (files_of files.now) (map (λ (c : KeptChannel). channel_queue topic c.name) kept.now)) (λ found. Pairwise (FindsChannel (files_of files.now) topic) kept.now found.items)) }
{
    let mut channels = Vec::new(alloc);
    for channel in kept {
        let Some(found) = found_channel(alloc, files, topic, channel)? else {
            return Ok(None);
        };
        channels.push(found)?;
    }
    Ok(Some(channels))
}

// The channel with its messages; None where its queue has bad metadata.
fn found_channel(
    alloc: Global,
    files: &[NamedFile],
    topic: Topic,
    kept: &KeptChannel,
) -> Result<Option<FoundChannel>, Memory>
    ensures { IfOk result (λ channel. MatchOption channel (IsFoundQueue (files_of files.now) (channel_queue topic kept.now.name) BadMeta) (FindsChannel (files_of files.now) topic kept.now)) }
{
    let queue = channel_queue(alloc, topic.as_str(), kept.name.as_str())?;
    let Some(messages) = messages_in(alloc, files, queue.as_str())? else {
        return Ok(None);
    };
    Ok(Some(FoundChannel {
        name: kept.name,
        paused: kept.paused,
        messages,
    }))
}

// The messages of the queue of that name; None where its metadata is bad.
fn messages_in(
    alloc: Global,
    files: &[NamedFile],
    name: &str,
) -> Result<Option<Vec<Message>>, Memory>
    ensures { IfOk result (λ messages. MatchOption messages (IsFoundQueue (files_of files.now) name.now BadMeta) (λ found. HasMessages (files_of files.now) name.now found.items)) }
{
    match found_queue(alloc, files, name, LEAST_RECORD, LONGEST_RECORD)? {
        crate::Found::BadMeta => Ok(None),
        crate::Found::Records(listing) => Ok(Some(messages_of(alloc, &listing.bodies)?)),
    }
}

// The messages that records are.
fn messages_of(alloc: Global, bodies: &Bodies) -> Result<Vec<Message>, Memory>
    requires { All (λ body. 26 ≤ length body) bodies.now }
    ensures { IfOk result (λ messages. Pairwise IsRecordOf bodies.now messages.items) }
{
    let mut messages = Vec::new(alloc);
    for body in bodies.as_slice() {
        messages.push(message_of(alloc, body)?)?;
    }
    Ok(messages)
}

// The message that a record is.
fn message_of(alloc: Global, body: &Body) -> Result<Message, Memory>
    requires { 26 ≤ length body.now }
    ensures { IfOk result (IsRecordOf body.now) }
{
    match Message::take(alloc, body.bytes()) {
        Taken::Whole(message) => Ok(message),
        Taken::Memory => Err(Memory),
        Taken::Short => unreachable!(),
    }
}
