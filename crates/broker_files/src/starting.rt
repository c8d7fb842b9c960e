ghost use Rattle.std.specs.Prelude.{◌<◌};

use crate::growing::put_made;
use broker_state::{ChannelState, MessageCopy, Place, State, TopicState, Waiting};
use nsq_base::{Memory, Options};
use path_plain::{FoundChannel, FoundNames, FoundTopic};
use std::alloc::Global;
use v2_frame::Message;

/// The state at the start of a run at a moment: the epoch is one above the one found, no client is there, all counts are 0, and each
/// message of a channel is a queued copy. Want of memory is the only error. No contract says more than its condition: it is a second
/// reading of the definitions by hand.
pub fn start(
    alloc: Global,
    found: &FoundNames,
    options: &Options,
    moment: u64,
) -> Result<State, Memory>
    requires { found.now.epoch < 16777215 }
{
    let topics = started_topics(alloc, &found.topics)?;
    let options = options.copy(alloc)?;
    Ok(State {
        options,
        epoch: found.epoch + 1,
        ids_used: 0,
        moment,
        stopped: false,
        began: Vec::new(alloc),
        clients: Vec::new(alloc),
        topics,
    })
}

// Topics at the start of a run.
fn started_topics(alloc: Global, found: &[FoundTopic]) -> Result<Vec<TopicState>, Memory> {
    let mut topics = Vec::new(alloc);
    for topic in found {
        put_made(&mut topics, started(alloc, topic))?;
    }
    Ok(topics)
}

// A topic at the start of a run: none of its messages is loose, since none has a delay.
fn started(alloc: Global, found: &FoundTopic) -> Result<TopicState, Memory> {
    let channels = started_channels(alloc, &found.channels)?;
    let waiting = waiting(alloc, &found.messages)?;
    Ok(TopicState {
        name: found.name,
        paused: found.paused,
        message_count: 0,
        waiting,
        taken: None,
        channels,
    })
}

// These messages as they wait.
fn waiting(alloc: Global, messages: &[Message]) -> Result<Vec<Waiting>, Memory> {
    let mut waiting = Vec::new(alloc);
    for message in messages {
        put_made(&mut waiting, waits(alloc, message))?;
    }
    Ok(waiting)
}

// A message as it waits.
fn waits(alloc: Global, message: &Message) -> Result<Waiting, Memory> {
    Ok(Waiting {
        message: message.copy(alloc)?,
        loose: false,
    })
}

// Channels at the start of a run.
fn started_channels(alloc: Global, found: &[FoundChannel]) -> Result<Vec<ChannelState>, Memory> {
    let mut channels = Vec::new(alloc);
    for channel in found {
        put_made(&mut channels, started_channel(alloc, channel))?;
    }
    Ok(channels)
}

// A channel at the start of a run.
fn started_channel(alloc: Global, found: &FoundChannel) -> Result<ChannelState, Memory> {
    Ok(ChannelState {
        name: found.name,
        paused: found.paused,
        message_count: 0,
        requeue_count: 0,
        timeout_count: 0,
        copies: queued_copies(alloc, &found.messages)?,
    })
}

// Queued copies of these messages.
fn queued_copies(alloc: Global, messages: &[Message]) -> Result<Vec<MessageCopy>, Memory> {
    let mut copies = Vec::new(alloc);
    for message in messages {
        put_made(&mut copies, queued_copy(alloc, message))?;
    }
    Ok(copies)
}

// A queued copy of a message, without its delay.
fn queued_copy(alloc: Global, message: &Message) -> Result<MessageCopy, Memory> {
    let mut message = message.copy(alloc)?;
    message.delay = 0;
    Ok(MessageCopy {
        message,
        place: Place::Queued,
    })
}
