use nsq_base::{Chan, Topic};
use std::marker::Model;

/// A durable channel, as the file of names keeps it.
#[derive(Drop)]
pub struct KeptChannel {
    /// Its name.
    pub channel: Chan,
    /// Whether it is paused.
    pub paused: bool,
}

impl Model for KeptChannel {
    ghost use Rattle.path_image.specs.Data as names;

    ghost Value = { names.KeptChannel };

    ghost view = { λ c. record { name = c.channel; paused = c.paused } };
}

/// A durable topic, as the file of names keeps it.
#[derive(Drop)]
pub struct KeptTopic {
    /// Its name.
    pub topic: Topic,
    /// Whether it is paused.
    pub paused: bool,
    /// Its durable channels.
    pub channels: Vec<KeptChannel>,
}

impl Model for KeptTopic {
    ghost use Rattle.path_image.specs.Data as names;

    ghost Value = { names.KeptTopic };

    ghost view = { λ t. record { name = t.topic; paused = t.paused; channels = t.channels.items } };
}
