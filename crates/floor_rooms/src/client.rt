ghost use Rattle.std.specs.Prelude.{◌≡◌, ◌≤◌, ◌^◌, ℕ, Bool, None, true, IfOk, option_map};
ghost use Rattle.broker_history.specs.State.{Closing, counted, is_fresh, is_lost, is_subscribed};
ghost use Rattle.broker_history.specs.Identify.{Identity};
ghost use Rattle.broker_history.specs.Credit.{has_passed, is_beat_due, is_silent};
ghost use Rattle.broker_history.specs.Step.{new_client, ready_for, spoke, subscribed};
ghost use Rattle.broker_history.specs.Changes.{lost};
ghost use Rattle.floor_rooms.specs.Seen.{Introduces, TellsOf, held_channel, route_named};

use crate::Standing;
use broker_history::ClientStats;
use nsq_base::{Body, Chan, Memory, Options, Topic};
use std::alloc::Global;
use std::marker::Model;

/// The longest heartbeat interval of a client that asks for none, in nanoseconds.
const DEFAULT_HEARTBEAT: u64 = 30_000_000_000;

/// A client that is there.
///
/// Counts stay at 2^64 - 1, and its time for a message is at most 2^62.
#[derive(Drop)]
pub struct Client {
    number: u64,
    standing: Standing,
    ready: u32,
    heartbeat: Option<u64>,
    timeout: u64,
    client_id: Body,
    hostname: Body,
    user_agent: Body,
    last_command: u64,
    beat_from: u64,
    finish_count: u64,
    message_count: u64,
    requeue_count: u64,
}

impl Model for Client {
    ghost use Rattle.std.specs.Prelude.{◌≤◌, ◌^◌};
    ghost use Rattle.broker_history.specs.State as state;
    ghost use Rattle.floor_rooms.specs.Seen.{phase_of, route_of};

    ghost Value = { state.Client };

    ghost view = { λ c. record {
      number = c.number;
      phase = phase_of c.standing;
      route = route_of c.standing;
      ready = c.ready;
      heartbeat = c.heartbeat;
      timeout = c.timeout;
      client_id = c.client_id;
      hostname = c.hostname;
      user_agent = c.user_agent;
      last_command = c.last_command;
      beat_from = c.beat_from;
      finish_count = c.finish_count;
      message_count = c.message_count;
      requeue_count = c.requeue_count;
    } };

    ghost invariant = { λ c. c.timeout ≤ 2 ^ 62 };
}

impl Client {
    /// A client as it begins at a moment: its heartbeat is on, and its time for a message is the option's. Takes no memory. Requires that
    /// this is at most 2^62.
    pub fn new(alloc: Global, options: &Options, number: u64, at: u64) -> Client
        requires { options.now.msg_timeout ≤ 2 ^ 62 }
        ensures { result ≡ new_client options.now at number }
    {
        Client {
            number,
            standing: Standing::Fresh,
            ready: 0,
            heartbeat: Some(DEFAULT_HEARTBEAT.min(options.max_heartbeat_interval)),
            timeout: options.msg_timeout,
            client_id: Body::of(Vec::new(alloc)),
            hostname: Body::of(Vec::new(alloc)),
            user_agent: Body::of(Vec::new(alloc)),
            last_command: at,
            beat_from: at,
            finish_count: 0,
            message_count: 0,
            requeue_count: 0,
        }
    }

    /// The number of its connection.
    pub fn number(&self) -> u64
        ensures { result ≡ self.now.number }
    {
        self.number
    }

    /// Whether it has no channel yet.
    pub fn is_fresh(&self) -> bool
        ensures { result ≡ is_fresh self.now.phase }
    {
        self.standing.is_fresh()
    }

    /// Whether it gets messages.
    pub fn is_subscribed(&self) -> bool
        ensures { result ≡ is_subscribed self.now.phase }
    {
        self.standing.is_subscribed()
    }

    /// Whether its channel was deleted.
    pub fn is_lost(&self) -> bool
        ensures { result ≡ is_lost self.now.phase }
    {
        self.standing.is_lost()
    }

    /// A client that has no channel yet has the names of none: for callers' proofs, since it does nothing.
    pub fn fresh_has_none(&self)
        ensures { is_fresh self.now.phase ≡ true → held_channel self.now.phase self.now.route ≡ None }
    {
        self.standing.fresh_has_none();
    }

    /// The names of the topic and the channel that it has: None where it has none yet, or none any more.
    pub fn channel(&self) -> Option<(Topic, Chan)>
        ensures { option_map route_named result ≡ held_channel self.now.phase self.now.route }
    {
        self.standing.channel()
    }

    /// How many messages it may have in flight.
    pub fn ready(&self) -> u32
        ensures { result ≡ self.now.ready }
    {
        self.ready
    }

    /// How long it has for a message, in nanoseconds: at most 2^62.
    pub fn timeout(&self) -> u64
        ensures value { result ≡ self.now.timeout }
        ensures bound { result ≤ 2 ^ 62 }
    {
        self.timeout
    }

    /// Whether it was silent for two heartbeat intervals, where the heartbeat is on. Requires a moment of at most 2^62.
    pub fn is_silent(&self, at: u64) -> bool
        requires { at ≤ 2 ^ 62 }
        ensures { result ≡ is_silent at self.now }
    {
        match self.heartbeat {
            Some(interval) => has_passed(self.last_command, interval.saturating_mul(2), at),
            None => false,
        }
    }

    /// Whether a heartbeat is due to it, where the heartbeat is on. Requires a moment of at most 2^62.
    pub fn is_beat_due(&self, at: u64) -> bool
        requires { at ≤ 2 ^ 62 }
        ensures { result ≡ is_beat_due at self.now }
    {
        match self.heartbeat {
            Some(interval) => has_passed(self.beat_from, interval, at),
            None => false,
        }
    }

    /// It gave a command at this moment.
    pub fn speak(&mut self, at: u64)
        ensures { self.new ≡ spoke at self.old }
    {
        self.last_command = at;
    }

    /// It said this of itself, at this moment: its heartbeat interval unless that is off, its time for a message, and its texts. Requires a
    /// time of at most 2^62.
    pub fn introduce(
        &mut self,
        at: u64,
        heartbeat: Option<u64>,
        timeout: u64,
        client_id: Body,
        hostname: Body,
        user_agent: Body,
    )
        requires { timeout ≤ 2 ^ 62 }
        ensures { (negotiates : Bool) → Introduces at (record { client_id = client_id; hostname = hostname; user_agent = user_agent; negotiates = negotiates; heartbeat = heartbeat; timeout = timeout }) self.old self.new }
    {
        self.heartbeat = heartbeat;
        self.timeout = timeout;
        put_text(&mut self.client_id, client_id);
        put_text(&mut self.hostname, hostname);
        put_text(&mut self.user_agent, user_agent);
        self.beat_from = at;
    }

    /// It has this channel from now on.
    pub fn subscribe(&mut self, topic: Topic, channel: Chan)
        ensures { self.new ≡ subscribed topic channel self.old }
    {
        self.standing = Standing::Subscribed(topic, channel);
    }

    /// It asks for so many messages in flight, which one that is closing does in vain.
    pub fn set_ready(&mut self, count: u32)
        ensures { self.new ≡ record self.old { ready = ready_for self.old.phase count self.old.ready } }
    {
        if self.standing.is_subscribed() {
            self.ready = count;
        }
    }

    /// It gets no more messages. Requires that it gets some.
    pub fn close(&mut self)
        requires { is_subscribed self.old.phase ≡ true }
        ensures { self.new ≡ record self.old { phase = Closing } }
    {
        self.standing = self.standing.closing();
    }

    /// This channel was deleted.
    pub fn lose(&mut self, topic: Topic, channel: Chan)
        ensures { self.new ≡ lost topic channel self.old }
    {
        if let Some((of, named)) = self.standing.channel() {
            if of == topic && named == channel {
                self.standing = Standing::Lost(topic, channel);
            }
        }
    }

    /// It finished a message.
    pub fn finish(&mut self)
        ensures { self.new ≡ record self.old { finish_count = counted self.old.finish_count } }
    {
        self.finish_count = self.finish_count.saturating_add(1);
    }

    /// A message was sent to it.
    pub fn receive(&mut self)
        ensures { self.new ≡ record self.old { message_count = counted self.old.message_count } }
    {
        self.message_count = self.message_count.saturating_add(1);
    }

    /// It gave a message back.
    pub fn give_back(&mut self)
        ensures { self.new ≡ record self.old { requeue_count = counted self.old.requeue_count } }
    {
        self.requeue_count = self.requeue_count.saturating_add(1);
    }

    /// A heartbeat was sent to it at this moment, from which the next one counts.
    pub fn beat(&mut self, at: u64)
        ensures { self.new ≡ record self.old { beat_from = at } }
    {
        self.beat_from = at;
    }

    /// What is told of it where so many copies are in flight with it. Want of memory is the only error.
    pub fn tells(&self, alloc: Global, in_flight: u64) -> Result<ClientStats, Memory>
        ensures { IfOk result (TellsOf self.now in_flight) }
    {
        Ok(ClientStats {
            client_id: Body::copy(alloc, self.client_id.bytes())?,
            finish_count: self.finish_count,
            hostname: Body::copy(alloc, self.hostname.bytes())?,
            in_flight_count: in_flight,
            message_count: self.message_count,
            ready_count: u64::from(self.ready),
            requeue_count: self.requeue_count,
            user_agent: Body::copy(alloc, self.user_agent.bytes())?,
        })
    }
}

// Puts a text in the place of another one.
fn put_text(text: &mut Body, by: Body)
    ensures { text.new ≡ by }
{
    *text = by;
}

// Whether a span passed since a moment.
fn has_passed(since: u64, span: u64, at: u64) -> bool
    requires { at ≤ 2 ^ 62 }
    ensures { result ≡ has_passed since span at }
{
    since.saturating_add(span) <= at
}
