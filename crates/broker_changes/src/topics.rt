ghost use Rattle.std.specs.Prelude.{◌<◌, ◌≤◌, ◌+◌, ◌^◌, length};

use crate::channels::{Room, counted, gets, has_due};
use crate::rows::{if_done, is_same, put_made, remove_at, same};
use broker_state::{ChannelState, TakenMessage, TopicState, Waiting};
use nsq_base::{Body, Chan, Memory, MsgId, Names};
use std::alloc::Global;
use v2_frame::Message;

// What is the same of all messages of a publish.
#[derive(Clone, Copy)]
pub(crate) struct Publishing {
    // How many messages find room in memory.
    pub mem: u64,
    // The run's epoch.
    pub epoch: u32,
    // How many ids were used before.
    pub used: u64,
    // The moment.
    pub at: u64,
    // The delay.
    pub delay: u64,
}

// Puts messages of these bodies into the topic in order (`put_bodies`), with the ids from the first one on that wasn't used.
pub(crate) fn put_bodies(
    alloc: Global,
    topic: &mut TopicState,
    publishing: Publishing,
    bodies: &[Body],
) -> Result<(), Memory>
    requires epoch { publishing.epoch < 2 ^ 24 }
    requires ids { publishing.used + length bodies.now ≤ 2 ^ 40 }
{
    for i in 0..bodies.len() {
        let id = MsgId::make(publishing.epoch, publishing.used + i as u64);
        put_message(alloc, topic, publishing, id, &bodies[i])?;
    }
    Ok(())
}

// Puts a message of this id and body into the topic (`put_message`): an ephemeral topic drops what finds no room.
fn put_message(
    alloc: Global,
    topic: &mut TopicState,
    publishing: Publishing,
    id: MsgId,
    body: &Body,
) -> Result<(), Memory> {
    let loose = publishing.mem <= topic.waiting.len() as u64;
    if topic.name.ephemeral() && loose {
        return Ok(());
    }
    topic.message_count = counted(topic.message_count);
    put_made(
        &mut topic.waiting,
        new_message(alloc, publishing, id, body, loose),
    )
}

// A message of a publish, of this id and body, as it waits.
fn new_message(
    alloc: Global,
    publishing: Publishing,
    id: MsgId,
    body: &Body,
    loose: bool,
) -> Result<Waiting, Memory> {
    let body = Body::copy(alloc, body.bytes())?;
    let message = Message {
        stamp: publishing.at,
        attempts: 0,
        id,
        body,
        delay: publishing.delay,
    };
    Ok(Waiting { message, loose })
}

/// Whether a Took is due (`takes`): the topic isn't paused, has a channel and a waiting message, and has taken none.
pub fn takes(topic: &TopicState) -> bool {
    if topic.paused {
        return false;
    }
    if topic.channels.is_empty() {
        return false;
    }
    if topic.waiting.is_empty() {
        return false;
    }
    topic.taken.is_none()
}

/// Whether a Copied is due (`owes`): a channel is owed a copy.
pub fn owes(taken: &Option<TakenMessage>) -> bool {
    match taken {
        None => false,
        Some(taken) => !taken.owed.is_empty(),
    }
}

/// Whether a TimedOut or a CameDue is due at a moment in one of these channels (`has_due`).
pub fn any_due(at: u64, channels: &[ChannelState]) -> bool {
    for channel in channels {
        if has_due(at, &channel.copies) {
            return true;
        }
    }
    false
}

// Whether the message may be taken for the one that waits (`Fits`): the same, with its delay; where that is loose its delay may be
// forgotten.
fn fits(waiting: &Waiting, message: &Message) -> bool {
    if !is_same(&waiting.message, message) {
        return false;
    }
    if message.delay == waiting.message.delay {
        return true;
    }
    waiting.loose && message.delay == 0
}

/// The topics that Took makes of one (`Takes`): one for each waiting message that this may be, where the names list the topic. Want of
/// memory is the only error, here and below.
pub fn took(
    alloc: Global,
    topic: &TopicState,
    message: &Message,
    names: &Names,
) -> Result<Vec<TopicState>, Memory> {
    let mut topics = Vec::new(alloc);
    if !takes(topic) {
        return Ok(topics);
    }
    if !is_listed(topic, names) {
        return Ok(topics);
    }
    for i in 0..topic.waiting.len() {
        if fits(&topic.waiting[i], message) {
            put_made(&mut topics, took_at(alloc, topic, i, message))?;
        }
    }
    Ok(topics)
}

// The topic after the message that waits at a place was taken.
fn took_at(
    alloc: Global,
    topic: &TopicState,
    i: usize,
    message: &Message,
) -> Result<TopicState, Memory> {
    let mut took = topic.copy(alloc)?;
    let taken = take_at(alloc, &mut took, i, message);
    if_done(took, taken)
}

// Takes the message that waits at a place.
fn take_at(
    alloc: Global,
    topic: &mut TopicState,
    i: usize,
    message: &Message,
) -> Result<(), Memory> {
    topic.taken = Some(taken_by(alloc, &topic.channels, message)?);
    remove_at(&mut topic.waiting, i);
    Ok(())
}

// A copy of the message that these channels are owed.
fn taken_by(
    alloc: Global,
    channels: &[ChannelState],
    message: &Message,
) -> Result<TakenMessage, Memory> {
    let owed = channel_names(alloc, channels)?;
    let message = message.copy(alloc)?;
    Ok(TakenMessage { message, owed })
}

// The names of channels.
pub(crate) fn channel_names(alloc: Global, channels: &[ChannelState]) -> Result<Vec<Chan>, Memory> {
    let mut names = Vec::new(alloc);
    for channel in channels {
        put_made(&mut names, Ok(channel.name))?;
    }
    Ok(names)
}

// Whether the names list the topic with its channels, and nothing else.
fn is_listed(topic: &TopicState, names: &Names) -> bool {
    if names.count() != 1 {
        return false;
    }
    is_topic_at(topic, names, 0)
}

/// Whether at a place of the names the topic stands with its channels.
pub fn is_topic_at(topic: &TopicState, names: &Names, i: usize) -> bool
    requires { i < length names.now }
{
    topic.is_named(&names.topic(i)) && are_named(&topic.channels, names.channels(i))
}

// Whether the channels have these names, in this order.
fn are_named(channels: &[ChannelState], names: &[Chan]) -> bool {
    if channels.len() != names.len() {
        return false;
    }
    for i in 0..channels.len() {
        if !is_name_at(&channels[i], names, i) {
            return false;
        }
    }
    true
}

// Whether the channel's name stands at a place of these.
fn is_name_at(channel: &ChannelState, names: &[Chan], i: usize) -> bool {
    match names.get(i) {
        Some(name) => channel.is_named(name),
        None => false,
    }
}

// The channel of this name is owed no more (`owed_no_more`): with the last owed channel what was taken goes.
pub(crate) fn owe_no_more(taken: &mut Option<TakenMessage>, name: &Chan) {
    let is_last = match taken {
        Some(taken) => is_last_owed(&mut taken.owed, name),
        None => false,
    };
    if is_last {
        *taken = None;
    }
}

// Takes a name out of the owed ones, and says whether none is left.
fn is_last_owed(owed: &mut Vec<Chan>, name: &Chan) -> bool {
    let place = place_of_name(owed, name);
    remove_at(owed, place);
    owed.is_empty()
}

// Whether the channel of this name is owed a copy of this very message.
fn is_owed(taken: &Option<TakenMessage>, name: &Chan, message: &Message) -> bool {
    let Some(taken) = taken else {
        return false;
    };
    if message.delay != taken.message.delay {
        return false;
    }
    if !is_same(message, &taken.message) {
        return false;
    }
    place_of_name(&taken.owed, name) < taken.owed.len()
}

// The place of the first of these names that is this one, behind all where none is.
fn place_of_name(names: &[Chan], name: &Chan) -> usize {
    for i in 0..names.len() {
        if same(names[i].bytes(), name.bytes()) {
            return i;
        }
    }
    names.len()
}

/// The topic that Copied makes of one (`Copies`): the channel gets the message, which its topic owes it no more. None where it doesn't
/// owe it.
pub fn copied(
    alloc: Global,
    topic: &TopicState,
    name: &Chan,
    room: Room,
    at: u64,
    message: &Message,
) -> Result<Option<TopicState>, Memory> {
    let Some(channel) = topic.channel_of(name) else {
        return Ok(None);
    };
    if !is_owed(&topic.taken, name, message) {
        return Ok(None);
    }
    let channel = gets(alloc, channel, room, at, message)?;
    Ok(Some(paid(alloc, topic, channel)?))
}

// The topic with this channel, which it owes no more.
fn paid(alloc: Global, topic: &TopicState, channel: ChannelState) -> Result<TopicState, Memory> {
    let mut paid = topic.copy(alloc)?;
    owe_no_more(&mut paid.taken, &channel.name);
    paid.with_channel(alloc, channel)
}
