ghost use Rattle.std.specs.Prelude.{◌≡◌, ◌==◌, IfOk};
ghost use Rattle.std.specs.List.{filter, find};
ghost use Rattle.std.specs.Option.{option_copied};
ghost use Rattle.std.specs.Str.{bytes_eq};
ghost use Rattle.broker_history.specs.State.{at_moment, channel_at, client_channel, client_of, clients_of, has_begun, has_channel, topic_of, with_client, with_topic};

use crate::channel::ChannelState;
use crate::client::{Client, Route};
use crate::growing::{copy_each, put_last};
use crate::in_order::put;
use crate::topic::TopicState;
use nsq_base::{Chan, Memory, Options, Topic};
use std::alloc::Global;
use std::marker::Model;

/// What a daemon is at a moment.
#[derive(Drop)]
pub struct State {
    /// Its options.
    pub options: Options,
    /// The run's epoch, below 2^24.
    pub epoch: u32,
    /// How many ids were used in this run.
    pub ids_used: u64,
    /// The moment of the last entry, in nanoseconds.
    pub moment: u64,
    /// Whether it stopped.
    pub stopped: bool,
    /// The numbers of all connections that ever began.
    pub began: Vec<u64>,
    /// The clients that are there, by their numbers.
    pub clients: Vec<Client>,
    /// The topics in byte order, each once.
    pub topics: Vec<TopicState>,
}

impl Model for State {
    ghost use Rattle.std.specs.Prelude.{◌<◌, ◌^◌};
    ghost use Rattle.broker_history.specs.State.{State};

    ghost Value = { State };

    ghost view = { λ s. record { options = s.options; epoch = s.epoch; ids_used = s.ids_used; moment = s.moment; stopped = s.stopped; began = s.began.items; clients = s.clients.items; topics = s.topics.items } };

    ghost invariant = { λ s. s.epoch < 2 ^ 24 };
}

impl State {
    /// Whether a connection of this number ever began.
    pub fn has_begun(&self, number: u64) -> bool
        ensures { result ≡ has_begun self.now number }
    {
        self.began.contains(&number)
    }

    /// The client of this number, where it is there.
    pub fn client_of(&self, number: u64) -> Option<&Client>
        ensures { option_copied result ≡ client_of self.now number }
    {
        find_client(&self.clients, number)
    }

    /// The topic of this name, where there is one.
    pub fn topic_of(&self, name: &Topic) -> Option<&TopicState>
        ensures { option_copied result ≡ topic_of self.now name.now }
    {
        find_topic(&self.topics, name)
    }

    /// A channel of a topic, where both are there.
    pub fn channel_at(&self, topic: &Topic, channel: &Chan) -> Option<&ChannelState>
        ensures { option_copied result ≡ channel_at self.now topic.now channel.now }
    {
        match self.topic_of(topic) {
            Some(topic) => topic.channel_of(channel),
            None => None,
        }
    }

    /// The channel of a client, where it has one that is there.
    pub fn client_channel(&self, route: &Option<Route>) -> Option<&ChannelState>
        ensures { option_copied result ≡ client_channel self.now route.now }
    {
        match route {
            Some(route) => self.channel_at(&route.topic, &route.channel),
            None => None,
        }
    }

    /// Copies of the clients of a channel, by their numbers. Want of memory is the only error.
    pub fn clients_of(
        &self,
        alloc: Global,
        topic: &Topic,
        channel: &Chan,
    ) -> Result<Vec<Client>, Memory>
        ensures { IfOk result (λ clients. clients.items ≡ clients_of self.now topic.now channel.now) }
    {
        clients_with(alloc, &self.clients, topic, channel)
    }

    /// The state with this topic at its place in byte order, in place of the one of its name.
    pub fn with_topic(self, alloc: Global, topic: TopicState) -> Result<State, Memory>
        ensures { IfOk result (λ state. state ≡ with_topic self topic) }
    {
        let topics = put(alloc, self.topics, topic)?;
        Ok(State { topics, ..self })
    }

    /// The state with this client, in place of the one of its number.
    pub fn with_client(self, alloc: Global, client: Client) -> Result<State, Memory>
        ensures { IfOk result (λ state. state ≡ with_client self client) }
    {
        let clients = put(alloc, self.clients, client)?;
        Ok(State { clients, ..self })
    }

    /// The state at another moment.
    pub fn at_moment(self, at: u64) -> State
        ensures { result ≡ at_moment self at }
    {
        State { moment: at, ..self }
    }

    /// A copy of it. Want of memory is the only error.
    pub fn copy(&self, alloc: Global) -> Result<State, Memory>
        ensures { IfOk result (λ state. state ≡ self.now) }
    {
        let began = Vec::from_slice(alloc, &self.began)?;
        let clients = copy_each(alloc, &self.clients)?;
        let topics = copy_each(alloc, &self.topics)?;
        let options = self.options.copy(alloc)?;
        Ok(self.with_parts(options, began, clients, topics))
    }

    // The state with these options and lists.
    fn with_parts(
        &self,
        options: Options,
        began: Vec<u64>,
        clients: Vec<Client>,
        topics: Vec<TopicState>,
    ) -> State
        ensures { result ≡ record self.now { options = options; began = began.items; clients = clients.items; topics = topics.items } }
    {
        State {
            options,
            epoch: self.epoch,
            ids_used: self.ids_used,
            moment: self.moment,
            stopped: self.stopped,
            began,
            clients,
            topics,
        }
    }
}

// The first of these clients that has this number.
fn find_client(clients: &[Client], number: u64) -> Option<&Client>
    ensures { option_copied result ≡ find (λ client. client.number == number) clients.now }
{
    for client in clients {
        if client.is_numbered(number) {
            return Some(client);
        }
    }
    None
}

// The first of these topics that has this name.
fn find_topic<'a>(topics: &'a [TopicState], name: &Topic) -> Option<&'a TopicState>
    ensures { option_copied result ≡ find (λ topic. bytes_eq name.now topic.name) topics.now }
{
    for topic in topics {
        if topic.is_named(name) {
            return Some(topic);
        }
    }
    None
}

// Copies of those of the clients that have this channel.
fn clients_with(
    alloc: Global,
    clients: &[Client],
    topic: &Topic,
    channel: &Chan,
) -> Result<Vec<Client>, Memory>
    ensures { IfOk result (λ kept. kept.items ≡ filter (has_channel topic.now channel.now) clients.now) }
{
    let mut kept = Vec::new(alloc);
    for client in clients {
        if client.has_channel(topic, channel) {
            put_last(&mut kept, client.copy(alloc)?)?;
        }
    }
    Ok(kept)
}
