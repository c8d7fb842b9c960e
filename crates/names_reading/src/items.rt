ghost use Rattle.std.specs.Prelude.{◌≡◌, IfOk, IfErr, codes};
ghost use Rattle.serde_json.specs.Data.{Data};
ghost use Rattle.serde_json.specs.Find.{get};
ghost use Rattle.serde_json.specs.View.{view, items_view};
ghost use Rattle.path_image.specs.Data.{SaysChannel, SaysTopic, ItemsSay};
ghost use Rattle.path_image.specs.Once.{channel_once, topic_once};
ghost use Rattle.names_reading.specs.Reading.{SaysNothing, ItemsKeep, ListKeeps};
ghost use Rattle.names_reading.specs.declared.names.Unread.TheVariants.{Bad};

use crate::members::{flag, name_in, present};
use crate::names::Unread;
use crate::sorted::{Named, is_ephemeral, sort};
use names_file::{KeptChannel, KeptTopic};
use nsq_base::{Chan, Topic};
use serde_json::Value;
use std::alloc::Global;

/// What stands in a list of the file of names.
pub(crate) trait Listed: Named {
    ghost says: { Data → Self → Type 0 };

    /// What an item says. `Bad` where it says nothing; want of memory is the only other error.
    fn read(alloc: Global, item: &Value) -> Result<Self, Unread>
        ensures value { IfOk result (says (view item.now)) }
        ensures bad { IfErr result (λ e. e ≡ Bad → SaysNothing says (view item.now)) };

    ghost once: { (item : Data) (x y : Self) → says item x → says item y → x ≡ y };
}

impl Named for KeptChannel {
    ghost name_of = { λ c. c.name };

    fn name(&self) -> &[u8] {
        self.channel.bytes()
    }
}

impl Listed for KeptChannel {
    ghost says = { SaysChannel };

    fn read(_alloc: Global, item: &Value) -> Result<KeptChannel, Unread> {
        let (Some(name), Some(paused)) = (name_in(item), flag(item)) else {
            return Err(Unread::Bad);
        };
        match Chan::read(name.as_bytes()) {
            Some(channel) => Ok(KeptChannel { channel, paused }),
            None => Err(Unread::Bad),
        }
    }

    ghost once = { channel_once };
}

impl Named for KeptTopic {
    ghost name_of = { λ t. t.name };

    fn name(&self) -> &[u8] {
        self.topic.bytes()
    }
}

impl Listed for KeptTopic {
    ghost says = { SaysTopic };

    fn read(alloc: Global, item: &Value) -> Result<KeptTopic, Unread> {
        let (Some(name), Some(paused)) = (name_in(item), flag(item)) else {
            return Err(Unread::Bad);
        };
        let Some(topic) = Topic::read(name.as_bytes()) else {
            return Err(Unread::Bad);
        };
        let channels = read_list(alloc, item, "channels")?;
        Ok(KeptTopic {
            topic,
            paused,
            channels,
        })
    }

    ghost once = { topic_once };
}

// The durable ones that a member is a list of, in byte order; none where it is absent or null. Bad where it is another value, an
// item is bad, or two durable ones have one name.
pub(crate) fn read_list<X: Listed>(
    alloc: Global,
    object: &Value,
    key: &str,
) -> Result<Vec<X>, Unread>
    ensures value { IfOk result (λ list. ListKeeps X.says X.name_of (get key.now (view object.now)) list.items) }
    ensures bad { IfErr result (λ e. e ≡ Bad → SaysNothing (ListKeeps X.says X.name_of) (get key.now (view object.now))) }
{
    let Some(member) = present(object, key) else {
        return Ok(Vec::new(alloc));
    };
    let Some(items) = member.as_array() else {
        return Err(Unread::Bad);
    };
    let mut list = read_items(alloc, items)?;
    if !sort(&mut list) {
        return Err(Unread::Bad);
    }
    Ok(list)
}

// What the items say, in their order and without ephemeral ones. Bad where one item is.
fn read_items<X: Listed>(alloc: Global, items: &[Value]) -> Result<Vec<X>, Unread>
    ensures value { IfOk result (λ list. ItemsKeep X.says X.name_of (items_view items.now) list.items) }
    ensures bad { IfErr result (λ e. e ≡ Bad → SaysNothing (ItemsSay X.says) (items_view items.now)) }
{
    let mut durables = Vec::new(alloc);
    for item in items {
        let listed = X::read(alloc, item)?;
        if is_ephemeral(&listed) {
            continue;
        }
        durables.push(listed)?;
    }
    Ok(durables)
}
