ghost use Rattle.std.specs.Prelude.{◌≡◌, ◌≤◌, IfOk, IfErr, IsUtf8, Some, None};
ghost use Rattle.serde_json.specs.Read.{read};
ghost use Rattle.serde_json.specs.View.{view};
ghost use Rattle.path_image.specs.Data.{IsNames, IsBadNames, last_epoch};
ghost use Rattle.names_file.specs.Kept.{CanKeepAll};
ghost use Rattle.names_reading.specs.Durable.{AreDurable};
ghost use Rattle.names_reading.specs.Reading.{ObjectKeeps, SaysNothing};
ghost use Rattle.names_reading.specs.declared.names.Unread.TheVariants.{Bad, Memory};

use crate::items::read_list;
use crate::members::epoch_in;
use names_file::KeptTopic;
use serde_json::Value;
use std::alloc::{AllocFailed, Global};
use std::marker::Model;
use thiserror::Error;

// The most bytes of a file of names: 16 MiB.
const LONGEST_DATA: usize = 1 << 24;

/// What the file of names keeps.
#[derive(Drop)]
pub struct ListedNames {
    /// The epoch of the last run that wrote it, at most 2^24 - 1.
    pub epoch: u32,
    /// The durable topics, each once and in byte order, with their channels.
    pub topics: Vec<KeptTopic>,
}

impl Model for ListedNames {
    ghost use Rattle.path_image.specs.Data.{Kept};

    ghost Value = { Kept };

    ghost view = { λ k. record { epoch = k.epoch; topics = k.topics.items } };
}

/// Why nothing was read.
#[derive(Clone, Copy, Debug, Error)]
pub enum Unread {
    /// The text keeps nothing.
    #[error("bad file of names")]
    Bad,
    /// Want of memory. Another call may read the same text.
    #[error("out of memory")]
    Memory,
}

/// So that `?` takes a refused allocation of a push to this error. The value is dropped.
impl<T: Drop> From<AllocFailed<T>> for Unread {
    ghost from_gives = { λ _ e. e ≡ Memory };

    fn from(_refused: AllocFailed<T>) -> Unread {
        Unread::Memory
    }
}

/// Reads the text of the file of names, `nsqd.dat`: an object in JSON, in UTF-8, of at most 16 MiB. Its `topics` are objects with
/// a `name`, `paused` and `channels`, and these are objects with a `name` and `paused`; its `id_epoch` is the epoch. Unknown
/// members are ignored; those that are absent or null are an empty list, false and 0, but for names. Topics and channels come in
/// any order. Ephemeral ones are passed over, however often they are named.
///
/// `Bad` only where the text keeps nothing: it is longer, isn't JSON, nests more than 127 deep, has a member of another kind or a
/// name against the grammar, names a durable topic twice or a durable channel of a topic twice, or its epoch isn't a whole number
/// from 0 to 2^24 - 1. Such a text is never read. Want of memory is the only other error. What is read may be written as it is,
/// by `write_names`, where that text isn't longer than 16 MiB.
pub fn read_names(alloc: Global, text: &[u8]) -> Result<ListedNames, Unread>
    ensures names { IfOk result (λ names. IsNames text.now names) }
    ensures epoch { IfOk result (λ names. names.epoch ≤ last_epoch) }
    ensures can { IfOk result (λ names. CanKeepAll names.topics) }
    ensures durable { IfOk result (λ names. AreDurable names.topics) }
    ensures bad { IfErr result (λ e. e ≡ Bad → IsBadNames text.now) }
{
    if text.len() > LONGEST_DATA {
        return Err(Unread::Bad);
    }
    let value = parse(alloc, text)?;
    names_in(alloc, &value)
}

// What an object keeps; Bad where the value is none, or keeps nothing.
fn names_in(alloc: Global, value: &Value) -> Result<ListedNames, Unread>
    ensures value { IfOk result (ObjectKeeps (view value.now)) }
    ensures bad { IfErr result (λ e. e ≡ Bad → SaysNothing ObjectKeeps (view value.now)) }
{
    if !value.is_object() {
        return Err(Unread::Bad);
    }
    let Some(epoch) = epoch_in(value) else {
        return Err(Unread::Bad);
    };
    let topics = read_list(alloc, value, "topics")?;
    Ok(ListedNames { epoch, topics })
}

// The value of a text in JSON; Bad where it isn't UTF-8 or isn't JSON.
fn parse(alloc: Global, text: &[u8]) -> Result<Value, Unread>
    ensures value { IfOk result (λ value. IsUtf8 text.now × (read text.now ≡ Some (view value))) }
    ensures bad { IfErr result (λ e. e ≡ Bad → IsUtf8 text.now → read text.now ≡ None) }
{
    match Value::from_slice(alloc, text) {
        Ok(value) => Ok(value),
        Err(error) => {
            if error.is_memory() {
                Err(Unread::Memory)
            } else {
                Err(Unread::Bad)
            }
        }
    }
}
