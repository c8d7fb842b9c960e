ghost use Rattle.std.specs.Prelude.{◌≡◌, ◌↔◌, map, Contains, IsTrue};
ghost use Rattle.nsq_base.specs.Names.{IsAscendingBy};
ghost use Rattle.nsq_base.specs.Places.{IsPlaceOf};
ghost use Rattle.names_file.specs.Kept.{CanKeepAll};
ghost use Rattle.queue_sweep.specs.Names.{HasNames, spelled};
ghost use Rattle.queue_sweep.specs.Swept.{IsListedQueue, IsUnlisted, topic_name, channel_name};

use crate::queue_name::{QueueName, queue_of};
use names_file::{KeptChannel, KeptTopic};
use nsq_base::{Chan, Topic};

/// Whether the file has the form of a queue's data file or metadata, and that queue is none of these topics' and of their
/// channels'.
pub fn is_unlisted(listed: &[KeptTopic], file: &str) -> bool
    requires { CanKeepAll listed.now }
    ensures { IsTrue result ↔ IsUnlisted listed.now file.now }
{
    match queue_of(file) {
        Some(queue) => !is_listed(listed, &queue),
        None => false,
    }
}

// Whether one of these topics, or one of its channels, has the queue.
fn is_listed(listed: &[KeptTopic], queue: &QueueName) -> bool
    requires kept { CanKeepAll listed.now }
    requires named { HasNames queue.now }
    ensures { IsTrue result ↔ IsListedQueue listed.now (spelled queue.now) }
{
    let Ok(place) = place_of(listed, queue.topic) else {
        return false;
    };
    match queue.channel {
        Some(channel) => has_channel(&listed[place], channel),
        None => true,
    }
}

// Where the topic of this name stands, or else where it belongs.
fn place_of(listed: &[KeptTopic], topic: Topic) -> Result<usize, usize>
    requires { IsAscendingBy topic_name listed.now }
    ensures { IsPlaceOf topic_name listed.now topic result }
{
    listed.binary_search_by_key(&topic, |kept| kept.topic)
}

// Whether the topic has the channel of this name.
fn has_channel(topic: &KeptTopic, channel: Chan) -> bool
    requires { IsAscendingBy channel_name topic.now.channels }
    ensures { IsTrue result ↔ Contains (map channel_name topic.now.channels) channel }
{
    channel_place(&topic.channels, channel).is_ok()
}

// Where the channel of this name stands, or else where it belongs.
fn channel_place(channels: &[KeptChannel], channel: Chan) -> Result<usize, usize>
    requires { IsAscendingBy channel_name channels.now }
    ensures { IsPlaceOf channel_name channels.now channel result }
{
    channels.binary_search_by_key(&channel, |kept| kept.channel)
}
