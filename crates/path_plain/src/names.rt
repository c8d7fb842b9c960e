ghost use Rattle.std.specs.Prelude.{◌≡◌, IfOk, MatchOption, option_map, codes};
ghost use Rattle.serde_json.specs.Find.{get};
ghost use Rattle.serde_json.specs.View.{view};
ghost use Rattle.path_image.specs.Data.{SaysChannel, SaysTopic, SaysEpoch, IsNames, IsBadNames};
ghost use Rattle.path_plain.specs.Reads.{Answers};
ghost use Rattle.path_image.specs.Once.{channel_once, topic_once};

use crate::by_name::Named;
use crate::names_lists::{Listed, flag, name_in, present, read_list};
use nsq_base::{Chan, Memory, Topic};
use serde_json::Value;
use std::alloc::Global;
use std::marker::Model;

/// The most bytes of a file of names: 16 MiB.
const LONGEST_DATA: usize = 1 << 24;

/// The greatest epoch.
pub const LAST_EPOCH: u64 = 16_777_215;

/// A channel that the file of names keeps.
#[derive(Drop)]
pub struct KeptChannel {
    /// Its name.
    pub name: Chan,
    /// Whether it is paused.
    pub paused: bool,
}

impl Model for KeptChannel {
    ghost use Rattle.path_image.specs.Data.{KeptChannel};

    ghost Value = { KeptChannel };

    ghost view = { λ c. record { name = c.name; paused = c.paused } };
}

/// A topic that the file of names keeps.
#[derive(Drop)]
pub struct KeptTopic {
    /// Its name.
    pub name: Topic,
    /// Whether it is paused.
    pub paused: bool,
    /// Its durable channels in byte order, each once.
    pub channels: Vec<KeptChannel>,
}

impl Model for KeptTopic {
    ghost use Rattle.path_image.specs.Data.{KeptTopic};

    ghost Value = { KeptTopic };

    ghost view = { λ t. record { name = t.name; paused = t.paused; channels = t.channels.items } };
}

/// What the file of names keeps.
#[derive(Drop)]
pub struct KeptNames {
    /// The epoch of the last run, at most 2^24 - 1.
    pub epoch: u32,
    /// The durable topics in byte order, each once.
    pub topics: Vec<KeptTopic>,
}

impl Model for KeptNames {
    ghost use Rattle.path_image.specs.Data.{Kept};

    ghost Value = { Kept };

    ghost view = { λ k. record { epoch = k.epoch; topics = k.topics.items } };
}

impl Named for KeptChannel {
    ghost name_of = { λ c. c.name };

    fn name(&self) -> &[u8] {
        self.name.bytes()
    }
}

impl Listed for KeptChannel {
    ghost says = { SaysChannel };

    fn read(alloc: Global, item: &Value) -> Result<Option<KeptChannel>, Memory> {
        let (Some(name), Some(paused)) = (name_in(item), flag(item)) else {
            return Ok(None);
        };
        match Chan::read(name.as_bytes()) {
            Some(name) => Ok(Some(KeptChannel { name, paused })),
            None => Ok(None),
        }
    }

    ghost once = { channel_once };
}

impl Named for KeptTopic {
    ghost name_of = { λ t. t.name };

    fn name(&self) -> &[u8] {
        self.name.bytes()
    }
}

impl Listed for KeptTopic {
    ghost says = { SaysTopic };

    fn read(alloc: Global, item: &Value) -> Result<Option<KeptTopic>, Memory> {
        let (Some(name), Some(paused)) = (name_in(item), flag(item)) else {
            return Ok(None);
        };
        let Some(name) = Topic::read(name.as_bytes()) else {
            return Ok(None);
        };
        match read_list(alloc, item, "channels")? {
            Some(channels) => Ok(Some(KeptTopic {
                name,
                paused,
                channels,
            })),
            None => Ok(None),
        }
    }

    ghost once = { topic_once };
}

/// What the text of a file of names keeps (the layout of nsqd's `nsqd.dat`, and `id_epoch`); None exactly where the text is
/// bad. Want of memory is the only error.
pub fn read_names(alloc: Global, text: &[u8]) -> Result<Option<KeptNames>, Memory>
    ensures { IfOk result (λ read. MatchOption read (IsBadNames text.now) (IsNames text.now)) }
{
    if text.len() > LONGEST_DATA {
        return Ok(None);
    }
    let value = match Value::from_slice(alloc, text) {
        Ok(value) => value,
        Err(error) => return if error.is_memory() {
            Err(Memory)
        } else {
            Ok(None)
        },
    };
    if !value.is_object() {
        return Ok(None);
    }
    let Some(epoch) = epoch_in(&value) else {
        return Ok(None);
    };
    match read_list(alloc, &value, "topics")? {
        Some(topics) => Ok(Some(KeptNames { epoch, topics })),
        None => Ok(None),
    }
}

// The epoch that an object says; None where it is no whole number from 0 to the greatest epoch.
fn epoch_in(object: &Value) -> Option<u32>
    ensures { Answers SaysEpoch (get (codes "id_epoch") (view object.now)) result }
{
    let Some(member) = present(object, "id_epoch") else {
        return Some(0);
    };
    match member.as_u64() {
        Some(epoch) if epoch <= LAST_EPOCH => Some(epoch as u32),
        _ => None,
    }
}
