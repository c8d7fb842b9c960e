ghost use Rattle.std.specs.Prelude.{◌≡◌, ◌==◌, IfOk};
ghost use Rattle.broker_history.specs.State.{has_channel, is_on};

use crate::Phase;
use crate::growing::Copied;
use crate::in_order::Ordered;
use crate::texts::same;
use nsq_base::{Body, Chan, Memory, Topic};
use std::alloc::Global;
use std::marker::Model;

/// The names of a channel and its topic.
#[derive(Drop)]
pub struct Route {
    /// The topic's name.
    pub topic: Topic,
    /// The channel's name.
    pub channel: Chan,
}

impl Model for Route {
    ghost use Rattle.broker_history.specs.State.{Route};

    ghost Value = { Route };

    ghost view = { λ r. record { topic = r.topic; channel = r.channel } };
}

/// A client that is there. Moments and spans are in nanoseconds. Its counts stay at 2^64 - 1.
#[derive(Drop)]
pub struct Client {
    /// The number of its connection.
    pub number: u64,
    /// What it may do.
    pub phase: Phase,
    /// Its channel, once it subscribed.
    pub route: Option<Route>,
    /// Its last accepted `RDY`, or 0.
    pub ready: u64,
    /// Its heartbeat interval, unless that is off.
    pub heartbeat: Option<u64>,
    /// How long it has for a message.
    pub timeout: u64,
    /// What its `IDENTIFY` said, empty where it said nothing.
    pub client_id: Body,
    /// What its `IDENTIFY` said, empty where it said nothing.
    pub hostname: Body,
    /// What its `IDENTIFY` said, empty where it said nothing.
    pub user_agent: Body,
    /// The moment of its last command, or else of its beginning.
    pub last_command: u64,
    /// The moment from which its next heartbeat counts.
    pub beat_from: u64,
    /// How many messages it finished.
    pub finish_count: u64,
    /// How often a message was sent to it.
    pub message_count: u64,
    /// How many messages it gave back.
    pub requeue_count: u64,
}

impl Model for Client {
    ghost use Rattle.broker_history.specs.State.{Client};
    ghost use Rattle.broker_state.specs.Phases.{phase_of};

    ghost Value = { Client };

    ghost view = { λ c. record { number = c.number; phase = phase_of c.phase; route = c.route; ready = c.ready; heartbeat = c.heartbeat; timeout = c.timeout; client_id = c.client_id; hostname = c.hostname; user_agent = c.user_agent; last_command = c.last_command; beat_from = c.beat_from; finish_count = c.finish_count; message_count = c.message_count; requeue_count = c.requeue_count } };
}

impl Ordered for Client {
    ghost use Rattle.std.specs.Prelude.{nat_lt};
    ghost use Rattle.broker_state.specs.Once.{lower_once};

    ghost before = { λ a b. nat_lt a.number b.number };

    fn precedes(&self, other: &Client) -> bool {
        self.number < other.number
    }

    ghost once = { λ a b h. lower_once a.number b.number h };
}

impl Copied for Client {
    fn copied(&self, alloc: Global) -> Result<Client, Memory> {
        self.copy(alloc)
    }
}

impl Client {
    /// Whether it has this number.
    pub fn is_numbered(&self, number: u64) -> bool
        ensures { result ≡ (self.now.number == number) }
    {
        self.number == number
    }

    /// Whether it has this channel: one that is lost has none any more.
    pub fn has_channel(&self, topic: &Topic, channel: &Chan) -> bool
        ensures { result ≡ has_channel topic.now channel.now self.now }
    {
        if self.phase == Phase::Lost {
            return false;
        }
        is_on(&self.route, topic, channel)
    }

    /// A copy of it. Want of memory is the only error.
    pub fn copy(&self, alloc: Global) -> Result<Client, Memory>
        ensures { IfOk result (λ client. client ≡ self.now) }
    {
        let client_id = Body::copy(alloc, self.client_id.bytes())?;
        let hostname = Body::copy(alloc, self.hostname.bytes())?;
        let user_agent = Body::copy(alloc, self.user_agent.bytes())?;
        Ok(self.with_texts(client_id, hostname, user_agent))
    }

    // The client with these texts.
    fn with_texts(&self, client_id: Body, hostname: Body, user_agent: Body) -> Client
        ensures { result ≡ record self.now { client_id = client_id; hostname = hostname; user_agent = user_agent } }
    {
        Client {
            number: self.number,
            phase: self.phase,
            route: copy_route(&self.route),
            ready: self.ready,
            heartbeat: self.heartbeat,
            timeout: self.timeout,
            client_id,
            hostname,
            user_agent,
            last_command: self.last_command,
            beat_from: self.beat_from,
            finish_count: self.finish_count,
            message_count: self.message_count,
            requeue_count: self.requeue_count,
        }
    }
}

/// A copy of a route, if there is one.
pub fn copy_route(route: &Option<Route>) -> Option<Route>
    ensures { result ≡ route.now }
{
    match route {
        Some(route) => Some(Route {
            topic: route.topic,
            channel: route.channel,
        }),
        None => None,
    }
}

// Whether a route leads to this channel.
fn is_on(route: &Option<Route>, topic: &Topic, channel: &Chan) -> bool
    ensures { result ≡ is_on route.now topic.now channel.now }
{
    match route {
        None => false,
        Some(route) => {
            if same(topic.bytes(), route.topic.bytes()) {
                same(channel.bytes(), route.channel.bytes())
            } else {
                false
            }
        }
    }
}
