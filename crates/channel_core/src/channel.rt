ghost use Rattle.std.specs.Prelude.{◌≡◌, ◌≤◌, ◌^◌, ℕ, List, [], true, false, IsTrue, IsSome, IfSome, IfOk, IfErr, OnOk, OnErr, Some, None};
ghost use Rattle.nsq_outside.specs.Files.{Files};
ghost use Rattle.queue_image.specs.FileNames.{meta_file};
ghost use Rattle.queue_image.specs.Metas.{IsIdle};
ghost use Rattle.backlog.specs.Refusals.{OpenFails, OpenCounts};
ghost use Rattle.backlog.specs.Opened.{IsTidied, FilesOfChange};
ghost use Rattle.v2_frame.specs.declared.message.Message.{Message};
ghost use Rattle.backlog.specs.Lists.{IsFoundAgain, OnDisk, Stands, WasFound, OpenRefused};
ghost use Rattle.broker_history.specs.State.{flying, is_ephemeral_channel};
ghost use Rattle.channel_copies.specs.Clients.{PutsClient, client_of, now_ready};
ghost use Rattle.channel_core.specs.Seen.{channel_with, queue_name, seen_channel};
ghost use Rattle.channel_core.specs.Kept.{IsBacklogOf};
ghost use Rattle.channel_core.specs.Made.{IsFresh, IsOpenedAs, IsWant, FitsRun};
ghost use Rattle.channel_core.specs.Answers.{IsNextDue, Looks, Tells, TellsDue, sooner_of};
ghost use Rattle.channel_core.specs.declared.drawn.Drawn.TheVariants as drawn;
ghost use Rattle.channel_core.specs.Moves.{due_in};

mod making;
mod moving;
mod sending;
mod settling;
mod storing;

use crate::{About, Counts, Drawn, Look};
use backlog::{Backlog, Open};
use channel_copies::{Clients, Deferred, Flights};
use making::{backlog_options, is_ephemeral, queue_name};
use nsq_base::{Chan, Memory, MsgId, Options, Topic};
use nsq_outside::Folder;
use std::alloc::Global;
use std::marker::Model;
use v2_frame::Message;

/// The copies of a topic's messages that a channel has, and its clients.
///
/// Of a channel's calls only `fresh`, `open`, `subscribe`, `offer` and `next` take memory. Between calls the heap of deferred copies has room
/// for as many more as are in flight.
#[derive(Drop)]
pub struct Channel {
    alloc: Global,
    about: About,
    paused: bool,
    message_count: u64,
    requeue_count: u64,
    timeout_count: u64,
    backlog: Backlog,
    flights: Flights,
    clients: Clients,
    deferred: Deferred,
    drawn: Drawn,
}

impl Model for Channel {
    ghost use Rattle.channel_core.specs.Seen.{Seen};
    ghost use Rattle.channel_core.specs.Kept.{IsWhole};

    ghost Value = { Seen };

    ghost view = { λ c. record {
      about = c.about;
      paused = c.paused;
      message_count = c.message_count;
      requeue_count = c.requeue_count;
      timeout_count = c.timeout_count;
      backlog = c.backlog;
      flights = c.flights.flights;
      clients = c.clients;
      deferred = c.deferred.waiting;
      spare = c.flights.spare;
      deferred_spare = c.deferred.spare;
      drawn = c.drawn;
    } };

    ghost invariant = { λ c. IsWhole c.about c.backlog c.flights c.deferred c.drawn };
}

impl Channel {
    /// A channel with no copy and no client. It has a queue on disk unless its name or its topic's is ephemeral, and that begins at file 0,
    /// whatever the folder has. Want of memory is the only error. Requires times of at most 2^62.
    pub fn fresh(
        alloc: Global,
        topic: Topic,
        name: Chan,
        options: &Options,
    ) -> Result<Channel, Memory>
        requires { FitsRun options.now }
        ensures seen { IfOk result (IsFresh topic name options.now) }
        ensures list { IfOk result (λ c. (files : Files) → OnDisk c.backlog.queue files []) }
        ensures stands { IfOk result (λ c. (files : Files) → IsIdle (files (meta_file (queue_name topic name))) → Stands c.backlog.queue files) }
    {
        let queue = queue_name(alloc, topic, name)?;
        let durable = !is_ephemeral(topic, name);
        let backlog = Backlog::fresh(
            alloc,
            queue.as_str(),
            options.mem_queue_size as usize,
            durable,
            backlog_options(options),
        )?;
        Ok(Channel::of(alloc, topic, name, options, backlog))
    }

    /// A channel with the copies that an opening finds in its queue: all of them are queued. An ephemeral one is made as by `fresh`, without a
    /// look at the folder. Errors are those of `Backlog::open`. Requires times of at most 2^62.
    pub fn open<F: Folder>(
        alloc: Global,
        folder: &mut F,
        topic: Topic,
        name: Chan,
        options: &Options,
    ) -> Result<Channel, Open>
        requires { FitsRun options.now }
        ensures seen { IfOk result (IsOpenedAs topic name options.now) }
        ensures list { IsTrue F.tells_files → is_ephemeral_channel topic name ≡ false → IfOk result (λ c. (messages : List Message) → WasFound (queue_name topic name) (F.files folder.old) messages → OnDisk c.backlog.queue (F.files folder.new) messages) }
        ensures again { IsTrue F.tells_files → is_ephemeral_channel topic name ≡ false → OnOk result (IsFoundAgain (queue_name topic name) (F.files folder.old) (F.files folder.new)) }
        ensures stands { IsTrue F.tells_files → IfOk result (λ c. Stands c.backlog.queue (F.files folder.new)) }
        ensures tidied { IsTrue F.tells_files → IfOk result (λ c. IfSome c.backlog.queue (λ q. IsTidied q (F.files folder.old) (F.files folder.new))) }
        ensures ephemeral { is_ephemeral_channel topic name ≡ true → (folder.new ≡ folder.old) × IfErr result IsWant }
        ensures refused { IsTrue F.tells_files → IfErr result (λ e. OpenRefused (queue_name topic name) (F.files folder.old) (F.files folder.new) e) }
        ensures others { IsTrue F.tells_files → FilesOfChange (queue_name topic name) (F.files folder.old) (F.files folder.new) }
        ensures faults { F.folder_faults folder.old ≤ F.folder_faults folder.new }
        ensures cause { IfErr result (λ e. OpenFails (F.folder_faults folder.old) (F.folder_faults folder.new) e) }
        ensures exact { IsTrue F.counts_exactly → OpenCounts (F.folder_faults folder.old) (F.folder_faults folder.new) result }
    {
        if is_ephemeral(topic, name) {
            return Ok(Channel::fresh(alloc, topic, name, options)?);
        }
        let Ok(queue) = queue_name(alloc, topic, name) else {
            return Err(Open::Memory);
        };
        let backlog = Backlog::open(
            alloc,
            folder,
            queue.as_str(),
            options.mem_queue_size as usize,
            backlog_options(options),
        )?;
        Ok(Channel::of(alloc, topic, name, options, backlog))
    }

    /// Its name. Exactly a durable channel has a queue on disk, which is named after its topic and it, and the ring holds as many messages as the
    /// options of its making said.
    pub fn name(&self) -> Chan
        ensures value { result ≡ self.now.about.name }
        ensures named { IsBacklogOf self.now.about self.now.backlog }
    {
        self.about.name
    }

    /// Whether it is paused: then no copy is sent.
    pub fn is_paused(&self) -> bool
        ensures { result ≡ self.now.paused }
    {
        self.paused
    }

    /// Subscribes a client, which asks for no copy yet. After Memory all is as it was. Requires that it isn't subscribed, and a time of at
    /// most 2^62.
    pub fn subscribe(&mut self, client: u64, timeout: u64) -> Result<(), Memory>
        requires new { client_of self.old.clients client ≡ None }
        requires timeout { timeout ≤ 2 ^ 62 }
        ensures clients { OnOk result (PutsClient client (Some (record { timeout = timeout; ready = 0 })) self.old.clients self.new.clients) }
        ensures refused { OnErr result (self.new ≡ self.old) }
        ensures rest { self.new ≡ record self.old { clients = self.new.clients } }
    {
        self.clients.subscribe(client, timeout)
    }

    /// Takes a client out. Its copies stay in flight until they are due.
    pub fn leave(&mut self, client: u64)
        requires { IsSome (client_of self.old.clients client) }
        ensures clients { PutsClient client None self.old.clients self.new.clients }
        ensures rest { self.new ≡ record self.old { clients = self.new.clients } }
    {
        self.clients.leave(client);
    }

    /// Sets how many copies a client may have in flight.
    pub fn ready(&mut self, client: u64, count: u32)
        requires { IsSome (client_of self.old.clients client) }
        ensures clients { PutsClient client (now_ready count (client_of self.old.clients client)) self.old.clients self.new.clients }
        ensures rest { self.new ≡ record self.old { clients = self.new.clients } }
    {
        self.clients.ready(client, count);
    }

    /// Pauses the channel, or ends that.
    pub fn pause(&mut self, on: bool)
        ensures { self.new ≡ record self.old { paused = on } }
    {
        self.paused = on;
    }

    /// Where the copy of this id is, as far as a client may know.
    pub fn look(&self, client: u64, id: MsgId) -> Look
        ensures { (queued : List Message) → Looks client id (channel_with self.now queued) result }
    {
        match self.flights.get(id) {
            None => Look::NotInFlight,
            Some(flight) => {
                if flight.client == client {
                    Look::Yours
                } else {
                    Look::NotYours
                }
            }
        }
    }

    /// How many copies are in flight with a client.
    pub fn in_flight(&self, client: u64) -> u64
        ensures { (queued : List Message) → result ≡ flying client (channel_with self.now queued).copies }
    {
        self.flights.count(client) as u64
    }

    /// Which copy `move_due` moves at this moment: its id, and whether it is in flight. None exactly where none is due.
    pub fn due(&self, now: u64) -> Option<(MsgId, bool)>
        ensures is { result ≡ due_in now self.now }
        ensures tells { (queued : List Message) → TellsDue now (channel_with self.now queued) result }
    {
        match self.flights.first_due(now) {
            Some(flight) => Some((flight.message.id, true)),
            None => match self.deferred.first_due(now) {
                Some(message) => Some((message.id, false)),
                None => None,
            },
        }
    }

    /// When the next copy is due of those that are in flight or deferred: none is due before. None where there is none.
    pub fn next_due(&self) -> Option<u64>
        ensures { (queued : List Message) → IsNextDue (channel_with self.now queued) result }
    {
        let flight = self.flights.next_due();
        let waiting = self.deferred.next_due();
        sooner_of(flight, waiting)
    }

    /// How many copies there are, and what happened to them. Those of copies are told where nothing is drawn.
    pub fn counts(&self) -> Counts
        ensures tells { self.now.drawn ≡ drawn.Nothing → (files : Files) → (disk : List Message) → OnDisk self.now.backlog.queue files disk → Tells self.now.about.mem_queue_size (seen_channel self.now disk) result }
        ensures none { is_ephemeral_channel self.now.about.topic self.now.about.name ≡ true → result.backend_depth ≡ 0 }
    {
        let depths = self.backlog.depths();
        Counts {
            backend_depth: depths.disk,
            deferred_count: self.deferred.len() as u64,
            depth: u128::from(depths.ring) + depths.disk,
            in_flight_count: self.flights.len() as u64,
            message_count: self.message_count,
            requeue_count: self.requeue_count,
            timeout_count: self.timeout_count,
        }
    }
}

// Of two moments the sooner one, where there are two.
fn sooner_of(a: Option<u64>, b: Option<u64>) -> Option<u64>
    ensures { result ≡ sooner_of a b }
{
    let Some(first) = a else {
        return b;
    };
    let Some(second) = b else {
        return a;
    };
    Some(first.min(second))
}
