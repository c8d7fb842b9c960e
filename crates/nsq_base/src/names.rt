ghost use Rattle.std.specs.Prelude.{◌≡◌, ◌<◌, [], length, slice_get, Some, IfOk, OnOk, OnErr};
ghost use Rattle.nsq_core.specs.Name.{IsName};
ghost use Rattle.nsq_base.specs.Names.{topic_of, topics_of, channel_lists_of, with_channels, with_topic, with_channel, AreChannels, IsInOrder};
ghost use Rattle.nsq_base.specs.Places.{BelongsAt, IsPlaceOf};

use crate::channels::Channels;
use crate::{Chan, Memory, Topic};
use std::alloc::Global;
use std::marker::Model;

/// Topics in byte order, each with its channels in byte order, and each name once.
#[derive(Drop)]
pub struct Names {
    topics: Vec<(Topic, Channels)>,
}

impl Model for Names {
    ghost use Rattle.nsq_base.specs.Names.{TopicList, IsInOrder};

    ghost Value = { TopicList };

    ghost view = { λ n. n.topics.items };

    ghost invariant = { λ n. IsInOrder n.topics.items };
}

impl Names {
    /// No topics. Takes no memory.
    pub fn new(alloc: Global) -> Names
        ensures { result ≡ [] }
    {
        Names {
            topics: Vec::new(alloc),
        }
    }

    /// Puts a topic in, without channels, if it isn't there yet. After Memory the names are as before.
    pub fn add(&mut self, topic: Topic) -> Result<(), Memory>
        ensures ok { OnOk result (self.new ≡ with_topic self.old topic) }
        ensures err { OnErr result (self.new ≡ self.old) }
    {
        if let Err(i) = self.place_of(&topic) {
            let channels = Channels::new(*self.topics.allocator());
            self.insert_at(i, topic, channels)?;
        }
        Ok(())
    }

    /// Puts a channel into a topic, and the topic too if it isn't there yet. After Memory the names are as before: neither
    /// was put in.
    pub fn add_channel(&mut self, topic: Topic, channel: Chan) -> Result<(), Memory>
        ensures ok { OnOk result (self.new ≡ with_channel self.old topic channel) }
        ensures err { OnErr result (self.new ≡ self.old) }
    {
        match self.place_of(&topic) {
            Ok(i) => self.topics[i].1.insert(channel)?,
            Err(i) => {
                let channels = Channels::of(*self.topics.allocator(), channel)?;
                self.insert_at(i, topic, channels)?;
            }
        }
        Ok(())
    }

    /// How many topics there are.
    pub fn count(&self) -> usize
        ensures count { result ≡ length self.now }
        ensures in_order { IsInOrder self.now }
    {
        self.topics.len()
    }

    /// The topic at a place, counted from 0.
    pub fn topic(&self, i: usize) -> Topic
        requires { i < length self.now }
        ensures value { slice_get (topics_of self.now) i ≡ Some result }
        ensures is_name { IsName result }
    {
        self.topics[i].0
    }

    /// The channels of the topic at a place, counted from 0.
    pub fn channels(&self, i: usize) -> &[Chan]
        requires { i < length self.now }
        ensures value { slice_get (channel_lists_of self.now) i ≡ Some result.now }
        ensures in_order { AreChannels result.now }
    {
        self.topics[i].1.as_slice()
    }

    /// A copy.
    pub fn copy(&self, alloc: Global) -> Result<Names, Memory>
        ensures { IfOk result (λ names. names ≡ self.now) }
    {
        let mut topics = Vec::with_capacity(alloc, self.topics.len())?;
        for (topic, channels) in &self.topics {
            topics.push_reserved((*topic, channels.copy(alloc)?));
        }
        Ok(Names { topics })
    }

    // Where a topic stands, or else where it belongs.
    fn place_of(&self, topic: &Topic) -> Result<usize, usize>
        ensures place { IsPlaceOf topic_of self.now topic.now result }
        ensures named { IsName topic.now }
    {
        self.topics
            .binary_search_by_key(&topic.name(), |entry| entry.0.name())
    }

    // Puts a topic in at the place where it belongs. After Memory the names are as before.
    fn insert_at(&mut self, i: usize, topic: Topic, channels: Channels) -> Result<(), Memory>
        requires place { BelongsAt topic_of self.old topic i }
        requires named { IsName topic }
        requires in_order { AreChannels channels }
        ensures ok { OnOk result (self.new ≡ with_channels self.old topic channels) }
        ensures err { OnErr result (self.new ≡ self.old) }
    {
        self.topics.insert(i, (topic, channels))?;
        Ok(())
    }
}
