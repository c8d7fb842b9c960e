ghost use Rattle.std.specs.Prelude.{◌≡◌, ◌+◌, [], IfOk, MatchOption, unwrap_or};
ghost use Rattle.nsq_fakes.specs.MemFolders.{files_in};
ghost use Rattle.queue_image.specs.Between.{content};
ghost use Rattle.queue_image.specs.Places.{IsInRange, IsOrdered};
ghost use Rattle.drill_parts.specs.Left.{CountsAll, CountsChannels, CountsQueue, CountsTopic, CountsTopics, FindsNoNames, FindsNoTopic, FindsNoTopics, FindsNoneOf, GivesSo, HasNoList, WalksOver};

use names_file::{KeptChannel, KeptTopic};
use names_reading::{Unread, read_names};
use nsq_base::{Memory, Topic};
use nsq_fakes::MemFolder;
use queue_image::file_names::{channel_queue, data_file, meta_file};
use queue_image::{Positions, read_meta};
use queue_records::{Row, records_of};
use std::alloc::Global;

/// The fewest bytes of a record: those of a message without a body.
const LEAST_RECORD: u32 = 26;

/// The most bytes of a record: those of a message with the longest body.
const LONGEST_RECORD: u32 = 16_777_242;

/// How many messages an opening of a folder finds, in the queues of all topics and channels; None only where it finds no names. The folder is looked at and
/// not called.
pub fn left_in(alloc: Global, folder: &MemFolder) -> Result<Option<u64>, Memory>
    ensures { IfOk result (λ left. MatchOption left (FindsNoNames (files_in folder.now)) (CountsAll (files_in folder.now))) }
{
    let Some(text) = folder.file("nsqd.dat") else {
        return Ok(Some(0));
    };
    match read_names(alloc, text) {
        Ok(names) => in_topics(alloc, folder, &names.topics),
        Err(Unread::Bad) => Ok(None),
        Err(Unread::Memory) => Err(Memory),
    }
}

// How many messages are in these topics and their channels; None only where a queue of theirs can't be found.
fn in_topics(alloc: Global, folder: &MemFolder, topics: &[KeptTopic]) -> Result<Option<u64>, Memory>
    ensures { IfOk result (λ count. MatchOption count (FindsNoTopics (files_in folder.now) topics.now) (CountsTopics (files_in folder.now) topics.now)) }
{
    let mut sum = 0;
    for topic in topics {
        let Some(more) = in_topic(alloc, folder, topic)? else {
            return Ok(None);
        };
        sum = add(sum, more)?;
    }
    Ok(Some(sum))
}

// How many messages are in a topic and its channels; None only where a queue of its can't be found.
fn in_topic(alloc: Global, folder: &MemFolder, topic: &KeptTopic) -> Result<Option<u64>, Memory>
    ensures { IfOk result (λ count. MatchOption count (FindsNoTopic (files_in folder.now) topic.now) (CountsTopic (files_in folder.now) topic.now)) }
{
    let Some(own) = in_queue(alloc, folder, topic.topic.as_str())? else {
        return Ok(None);
    };
    let Some(theirs) = in_channels(alloc, folder, topic.topic, &topic.channels)? else {
        return Ok(None);
    };
    Ok(Some(add(own, theirs)?))
}

// How many messages are in these channels of a topic; None only where a queue of theirs can't be found.
fn in_channels(
    alloc: Global,
    folder: &MemFolder,
    topic: Topic,
    channels: &[KeptChannel],
) -> Result<Option<u64>, Memory>
    ensures { IfOk result (λ count. MatchOption count (FindsNoneOf (files_in folder.now) topic channels.now) (CountsChannels (files_in folder.now) topic channels.now)) }
{
    let mut sum = 0;
    for channel in channels {
        let name = channel_queue(alloc, topic.as_str(), channel.channel.as_str())?;
        let Some(more) = in_queue(alloc, folder, name.as_str())? else {
            return Ok(None);
        };
        sum = add(sum, more)?;
    }
    Ok(Some(sum))
}

// The sum of two numbers. What 64 bits don't hold counts as want of memory.
fn add(a: u64, b: u64) -> Result<u64, Memory>
    ensures { IfOk result (λ sum. sum ≡ a + b) }
{
    match a.checked_add(b) {
        Some(sum) => Ok(sum),
        None => Err(Memory),
    }
}

// How many messages are in the queue of this name; None only where its metadata is bad.
fn in_queue(alloc: Global, folder: &MemFolder, name: &str) -> Result<Option<u64>, Memory>
    ensures { IfOk result (λ count. MatchOption count (HasNoList (files_in folder.now) name.now) (CountsQueue (files_in folder.now) name.now)) }
{
    let Some(text) = folder.file(meta_file(alloc, name)?.as_str()) else {
        return Ok(Some(0));
    };
    let Some(positions) = read_meta(text) else {
        return Ok(None);
    };
    if positions.at_end() {
        return Ok(Some(0));
    }
    Ok(Some(walk(alloc, folder, name, positions)?))
}

// How many records the files of a queue have between the positions, without those of bad files. The numbers of the files are few.
fn walk(alloc: Global, folder: &MemFolder, name: &str, positions: Positions) -> Result<u64, Memory>
    requires order { IsOrdered positions }
    requires range { IsInRange positions }
    ensures { IfOk result (WalksOver positions (content (files_in folder.now) name.now) (positions.write_file + 1)) }
{
    let mut sum = 0;
    let mut number = positions.read_file;
    while number <= positions.write_file {
        let file = data_file(alloc, name, number)?;
        let bytes = content_of(folder, file.as_str());
        sum = add(sum, in_file(alloc, bytes, &positions, number)?)?;
        number += 1;
    }
    Ok(sum)
}

// What is in a file; one that is absent counts as empty.
fn content_of<'a>(folder: &'a MemFolder, name: &str) -> &'a [u8]
    ensures { result.now ≡ unwrap_or (files_in folder.now name.now) [] }
{
    match folder.file(name) {
        Some(bytes) => bytes,
        None => &[],
    }
}

// How many records the file of this number gives; none where it is bad.
fn in_file(alloc: Global, bytes: &[u8], positions: &Positions, number: u64) -> Result<u64, Memory>
    requires { IsOrdered positions.now }
    ensures { IfOk result (GivesSo positions.now number bytes.now) }
{
    let len = bytes.len() as u64;
    let start = positions.start_in(number);
    let end = positions.end_in(number, len);
    if start > len || end > len {
        return Ok(0);
    }
    match records_of(
        alloc,
        &bytes[start as usize..end as usize],
        LEAST_RECORD,
        LONGEST_RECORD,
    )? {
        Row::Whole(bodies) => Ok(bodies.count() as u64),
        Row::Damaged { .. } => Ok(0),
    }
}
