ghost use Rattle.std.specs.Prelude.{◌≡◌, IfOk};
ghost use Rattle.std.specs.List.{find};
ghost use Rattle.std.specs.Option.{option_copied};
ghost use Rattle.std.specs.Str.{bytes_eq};
ghost use Rattle.broker_history.specs.State.{channel_in, new_topic, with_channel};

use crate::channel::ChannelState;
use crate::growing::{Copied, copy_each};
use crate::in_order::{Ordered, put};
use crate::texts::same;
use nsq_base::{Chan, Memory, Topic};
use std::alloc::Global;
use std::marker::Model;
use v2_frame::Message;

/// A message that waits in its topic.
#[derive(Drop)]
pub struct Waiting {
    /// The message.
    pub message: Message,
    /// Whether at least mem-queue-size messages were waiting as it was put.
    pub loose: bool,
}

impl Model for Waiting {
    ghost use Rattle.broker_history.specs.State.{Waiting};

    ghost Value = { Waiting };

    ghost view = { λ w. record { message = w.message; loose = w.loose } };
}

/// A message that its topic took.
#[derive(Drop)]
pub struct TakenMessage {
    /// The message.
    pub message: Message,
    /// The channels that are owed a copy of it.
    pub owed: Vec<Chan>,
}

impl Model for TakenMessage {
    ghost use Rattle.broker_history.specs.State.{Taken};

    ghost Value = { Taken };

    ghost view = { λ t. record { message = t.message; owed = t.owed.items } };
}

/// A topic. Its count begins with the run and stays at 2^64 - 1.
#[derive(Drop)]
pub struct TopicState {
    /// Its name.
    pub name: Topic,
    /// Whether it is paused.
    pub paused: bool,
    /// How many messages were put into it and not dropped.
    pub message_count: u64,
    /// The messages that wait, in order.
    pub waiting: Vec<Waiting>,
    /// The message that it took, if there is one.
    pub taken: Option<TakenMessage>,
    /// Its channels in byte order, each once.
    pub channels: Vec<ChannelState>,
}

impl Model for TopicState {
    ghost use Rattle.broker_history.specs.State.{Topic};

    ghost Value = { Topic };

    ghost view = { λ t. record { name = t.name; paused = t.paused; message_count = t.message_count; waiting = t.waiting.items; taken = t.taken; channels = t.channels.items } };
}

impl Ordered for TopicState {
    ghost use Rattle.nsq_base.specs.Names.{is_before};
    ghost use Rattle.path_image.proofs.NameLists.{before_once};

    ghost before = { λ a b. is_before a.name b.name };

    fn precedes(&self, other: &TopicState) -> bool {
        self.name.bytes().cmp(other.name.bytes()).is_lt()
    }

    ghost once = { λ a b h. before_once a.name b.name h };
}

impl Copied for Waiting {
    fn copied(&self, alloc: Global) -> Result<Waiting, Memory> {
        self.copy(alloc)
    }
}

impl Waiting {
    /// A copy of it. Want of memory is the only error.
    pub fn copy(&self, alloc: Global) -> Result<Waiting, Memory>
        ensures { IfOk result (λ waiting. waiting ≡ self.now) }
    {
        Ok(Waiting {
            message: self.message.copy(alloc)?,
            loose: self.loose,
        })
    }
}

impl TakenMessage {
    /// A copy of it. Want of memory is the only error.
    pub fn copy(&self, alloc: Global) -> Result<TakenMessage, Memory>
        ensures { IfOk result (λ taken. taken ≡ self.now) }
    {
        let owed = Vec::from_slice(alloc, &self.owed)?;
        let message = self.message.copy(alloc)?;
        Ok(TakenMessage { message, owed })
    }
}

impl Copied for TopicState {
    fn copied(&self, alloc: Global) -> Result<TopicState, Memory> {
        self.copy(alloc)
    }
}

impl TopicState {
    /// A topic as it is made.
    pub fn new(alloc: Global, name: Topic) -> TopicState
        ensures { result ≡ new_topic name }
    {
        TopicState {
            name,
            paused: false,
            message_count: 0,
            waiting: Vec::new(alloc),
            taken: None,
            channels: Vec::new(alloc),
        }
    }

    /// Whether it has this name.
    pub fn is_named(&self, name: &Topic) -> bool
        ensures { result ≡ bytes_eq name.now self.now.name }
    {
        same(name.bytes(), self.name.bytes())
    }

    /// The channel of this name, where there is one.
    pub fn channel_of(&self, name: &Chan) -> Option<&ChannelState>
        ensures { option_copied result ≡ channel_in self.now.channels name.now }
    {
        find_channel(&self.channels, name)
    }

    /// The topic with this channel at its place in byte order, in place of the one of its name.
    pub fn with_channel(self, alloc: Global, channel: ChannelState) -> Result<TopicState, Memory>
        ensures { IfOk result (λ topic. topic ≡ with_channel self channel) }
    {
        let channels = put(alloc, self.channels, channel)?;
        Ok(TopicState { channels, ..self })
    }

    /// A copy of it. Want of memory is the only error.
    pub fn copy(&self, alloc: Global) -> Result<TopicState, Memory>
        ensures { IfOk result (λ topic. topic ≡ self.now) }
    {
        let waiting = copy_each(alloc, &self.waiting)?;
        let channels = copy_each(alloc, &self.channels)?;
        let taken = copy_taken(alloc, &self.taken)?;
        Ok(self.with_parts(waiting, taken, channels))
    }

    // The topic in which these messages wait, which took this one, and with these channels.
    fn with_parts(
        &self,
        waiting: Vec<Waiting>,
        taken: Option<TakenMessage>,
        channels: Vec<ChannelState>,
    ) -> TopicState
        ensures { result ≡ record self.now { waiting = waiting.items; taken = taken; channels = channels.items } }
    {
        TopicState {
            name: self.name,
            paused: self.paused,
            message_count: self.message_count,
            waiting,
            taken,
            channels,
        }
    }
}

// The first of these channels that has this name.
fn find_channel<'a>(channels: &'a [ChannelState], name: &Chan) -> Option<&'a ChannelState>
    ensures { option_copied result ≡ find (λ channel. bytes_eq name.now channel.name) channels.now }
{
    for channel in channels {
        if channel.is_named(name) {
            return Some(channel);
        }
    }
    None
}

// A copy of a taken message, if there is one.
fn copy_taken(alloc: Global, taken: &Option<TakenMessage>) -> Result<Option<TakenMessage>, Memory>
    ensures { IfOk result (λ copy. copy ≡ taken.now) }
{
    match taken {
        Some(taken) => Ok(Some(taken.copy(alloc)?)),
        None => Ok(None),
    }
}
