ghost use Rattle.std.specs.Prelude.{◌≡◌, ◌==◌, None};
ghost use Rattle.std.specs.List.{position};
ghost use Rattle.queue_sweep.specs.Names.{ReadsName, FindsQueue};

use crate::form::stem_of;
use nsq_base::{Chan, Topic};

/// The name of a queue: a topic's, or that of a topic's channel.
#[derive(Clone, Copy)]
pub struct QueueName {
    /// The topic.
    pub topic: Topic,
    /// The channel, where the queue is a channel's.
    pub channel: Option<Chan>,
}

/// The queue whose data file or metadata has this name; None exactly where the name has the form of no queue's file.
pub fn queue_of(file: &str) -> Option<QueueName>
    ensures { FindsQueue file.now result }
{
    let Some(stem) = stem_of(file.as_bytes()) else {
        return None;
    };
    read_name(stem)
}

// The name that the bytes are; None exactly where they are the name of no queue.
fn read_name(name: &[u8]) -> Option<QueueName>
    ensures { ReadsName name.now result }
{
    let Some(colon) = colon_in(name) else {
        return read_topic(name);
    };
    let Some(topic) = Topic::read(&name[..colon]) else {
        return None;
    };
    let Some(channel) = Chan::read(&name[colon + 1..]) else {
        return None;
    };
    Some(QueueName {
        topic,
        channel: Some(channel),
    })
}

// The name that bytes without a colon are.
fn read_topic(name: &[u8]) -> Option<QueueName>
    requires { position (λ b. b == 58) name.now ≡ None }
    ensures { ReadsName name.now result }
{
    let Some(topic) = Topic::read(name) else {
        return None;
    };
    Some(QueueName {
        topic,
        channel: None,
    })
}

// The place of the first colon.
fn colon_in(name: &[u8]) -> Option<usize>
    ensures { result ≡ position (λ b. b == 58) name.now }
{
    name.iter().position(|byte| *byte == b':')
}
