ghost use Rattle.std.specs.Prelude.{◌≡◌, None, true, option_map};
ghost use Rattle.broker_history.specs.State.{Closing, is_fresh, is_lost, is_subscribed};
ghost use Rattle.floor_rooms.specs.Seen.{channel_of, phase_of, route_of, route_named};

use nsq_base::{Chan, Topic};

/// What a client may do, with the names of its topic and its channel once it has one.
#[derive(Clone, Copy)]
pub enum Standing {
    /// It has no channel yet.
    Fresh,
    /// It gets messages of this channel.
    Subscribed(Topic, Chan),
    /// It gets no more of them.
    Closing(Topic, Chan),
    /// Its channel was deleted.
    Lost(Topic, Chan),
}

impl Standing {
    /// Whether it has no channel yet.
    pub fn is_fresh(self) -> bool
        ensures { result ≡ is_fresh (phase_of self) }
    {
        matches!(self, Standing::Fresh)
    }

    /// Whether it gets messages.
    pub fn is_subscribed(self) -> bool
        ensures { result ≡ is_subscribed (phase_of self) }
    {
        matches!(self, Standing::Subscribed(_, _))
    }

    /// Whether its channel was deleted.
    pub fn is_lost(self) -> bool
        ensures { result ≡ is_lost (phase_of self) }
    {
        matches!(self, Standing::Lost(_, _))
    }

    /// The same of a client that gets no more messages, where it gets some.
    pub(crate) fn closing(self) -> Standing
        ensures phase { is_subscribed (phase_of self) ≡ true → phase_of result ≡ Closing }
        ensures route { route_of result ≡ route_of self }
    {
        match self {
            Standing::Subscribed(topic, channel) => Standing::Closing(topic, channel),
            Standing::Fresh | Standing::Closing(_, _) | Standing::Lost(_, _) => self,
        }
    }

    // A client that has no channel yet has the names of none.
    pub(crate) fn fresh_has_none(self)
        ensures { is_fresh (phase_of self) ≡ true → channel_of self ≡ None }
    {
        match self {
            Standing::Fresh => {}
            Standing::Subscribed(_, _) | Standing::Closing(_, _) | Standing::Lost(_, _) => {}
        }
    }

    /// The names of the topic and the channel that it has: None where it has none yet, or none any more.
    pub fn channel(self) -> Option<(Topic, Chan)>
        ensures { option_map route_named result ≡ channel_of self }
    {
        match self {
            Standing::Fresh | Standing::Lost(_, _) => None,
            Standing::Subscribed(topic, channel) | Standing::Closing(topic, channel) => {
                Some((topic, channel))
            }
        }
    }
}
