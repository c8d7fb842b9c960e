ghost use Rattle.std.specs.Prelude.{◌≡◌, [], ◌∷◌, IfOk, OnOk, OnErr};
ghost use Rattle.nsq_core.specs.Name.{IsName};
ghost use Rattle.nsq_base.specs.Names.{insert_name, AreChannels};
ghost use Rattle.nsq_base.specs.Places.{IsPlaceOf};

use crate::{Chan, Memory};
use std::alloc::Global;
use std::marker::Model;

/// The channels of one topic, each once, in byte order.
#[derive(Drop)]
pub struct Channels {
    items: Vec<Chan>,
}

impl Model for Channels {
    ghost use Rattle.std.specs.Prelude.{ℕ, List};
    ghost use Rattle.nsq_base.specs.Names.{AreChannels};

    ghost Value = { List (List ℕ) };

    ghost view = { λ c. c.items.items };

    ghost invariant = { λ c. AreChannels c.items.items };
}

impl Channels {
    /// No channels. Takes no memory.
    pub(crate) fn new(alloc: Global) -> Channels
        ensures value { result ≡ [] }
        ensures in_order { AreChannels result }
    {
        Channels {
            items: Vec::new(alloc),
        }
    }

    /// One channel.
    pub(crate) fn of(alloc: Global, channel: Chan) -> Result<Channels, Memory>
        ensures value { IfOk result (λ channels. channels ≡ channel ∷ []) }
        ensures in_order { IfOk result AreChannels }
    {
        let mut channels = Channels::new(alloc);
        channels.insert(channel)?;
        Ok(channels)
    }

    /// The channels, in byte order.
    pub(crate) fn as_slice(&self) -> &[Chan]
        ensures value { result.now ≡ self.now }
        ensures in_order { AreChannels self.now }
    {
        self.items.as_slice()
    }

    /// Puts a channel in, if it isn't there yet. After Memory the channels are as before.
    pub(crate) fn insert(&mut self, channel: Chan) -> Result<(), Memory>
        ensures ok { OnOk result (self.new ≡ insert_name self.old channel) }
        ensures err { OnErr result (self.new ≡ self.old) }
        ensures in_order { AreChannels self.new }
    {
        if let Err(i) = self.place_of(&channel) {
            self.items.insert(i, channel)?;
        }
        Ok(())
    }

    /// A copy.
    pub(crate) fn copy(&self, alloc: Global) -> Result<Channels, Memory>
        ensures { IfOk result (λ channels. channels ≡ self.now) }
    {
        let items = Vec::from_slice(alloc, &self.items)?;
        Ok(Channels { items })
    }

    // Where a channel stands, or else where it belongs.
    fn place_of(&self, channel: &Chan) -> Result<usize, usize>
        ensures place { IsPlaceOf (λ n. n) self.now channel.now result }
        ensures named { IsName channel.now }
    {
        self.items
            .binary_search_by_key(&channel.name(), |kept| kept.name())
    }
}
