ghost use Rattle.std.specs.Prelude.{◌≡◌, ◌+◌, ◌^◌, ◌≤◌, ◌<◌, ℕ, List, length, IsTrue, IsSome, OnOk, MatchBool};
ghost use Rattle.nsq_outside.specs.Files.{Files, SameFiles};
ghost use Rattle.v2_frame.specs.declared.message.Message.{Message};
ghost use Rattle.backlog.specs.Seen.{FitsLimit};
ghost use Rattle.backlog.specs.Lists.{OnDisk};
ghost use Rattle.broker_history.specs.State.{flying, queued};
ghost use Rattle.broker_history.specs.Channels.{MovesLive, Sends, HoldsBack};
ghost use Rattle.channel_copies.specs.Clients.{client_of};
ghost use Rattle.channel_copies.specs.Putting.{KeepsDisk, around};
ghost use Rattle.channel_core.specs.declared.drawn.Drawn.TheVariants as drawn;
ghost use Rattle.channel_core.specs.Costs.{CostsDeferred, CostsFlying};
ghost use Rattle.channel_core.specs.Seen.{HasRoom, channel_with, drawn_in, queued_in, seen_channel};
ghost use Rattle.channel_core.specs.Drawing.{Draws, DrawFails, Drew, IsDrawnFor, IsFirstDrawn, IsHeld, IsOfDrawing, Leads, NextLeaves, NextWhere, first_drawn, message_of, ready_of, timeout_of};

use super::Channel;
use crate::{Drawn, Next, Sending};
use backlog::Drawn as FromBacklog;
use channel_copies::Flight;
use nsq_base::{Memory, Steps};
use nsq_outside::Folder;
use std::mem;
use std::sync::ledger::Ledger;
use v2_frame::Message;

/// What is drawn for a client.
impl Channel {
    /// The next copy for a client, with one more attempt: NoCredit exactly where it has as many in flight as it asked for, else Paused exactly
    /// where the channel is, else NoneQueued exactly where no copy is queued; Held exactly where the id of the copy that comes up is in flight.
    /// The copy stays queued until `sent` or `settle_held`. Requires that nothing is drawn, that the client is subscribed, and 16,777,242 bytes
    /// of `scratch`.
    pub fn next<F: Folder>(
        &mut self,
        folder: &mut F,
        scratch: &mut [u8],
        client: u64,
        now: u64,
    ) -> Next
        requires nothing { self.old.drawn ≡ drawn.Nothing }
        requires client { IsSome (client_of self.old.clients client) }
        requires scratch { 16777242 ≤ length scratch.old }
        ensures cause { (queued : List Message) → NextWhere client (ready_of client self.old) (channel_with self.old queued) result }
        ensures drawn { NextLeaves client now self.new.drawn result }
        ensures gives { IsTrue F.tells_files → (disk : List Message) → OnDisk self.old.backlog.queue (F.files folder.old) disk → Draws self.old self.new disk result }
        ensures list { IsTrue F.tells_files → (disk : List Message) → OnDisk self.old.backlog.queue (F.files folder.old) disk → OnDisk self.new.backlog.queue (F.files folder.new) disk }
        ensures rest { self.new ≡ record self.old { backlog = self.new.backlog; drawn = self.new.drawn; spare = self.new.spare; deferred_spare = self.new.deferred_spare } }
        ensures same { IsTrue F.tells_files → SameFiles (F.files folder.old) (F.files folder.new) }
        ensures disk { KeepsDisk F.tells_files (around self.old.backlog (F.files folder.old) (F.folder_faults folder.old)) (around self.new.backlog (F.files folder.new) (F.folder_faults folder.new)) }
        ensures fault { DrawFails (F.folder_faults folder.old) (F.folder_faults folder.new) result }
    {
        if self.has_no_credit(client) {
            return Next::NoCredit;
        }
        if self.is_paused() {
            return Next::Paused;
        }
        if self.has_none_queued() {
            return Next::NoneQueued;
        }
        let Ok(()) = self.reserve() else {
            return Next::Memory;
        };
        self.draw_for(folder, scratch, client, now)
    }

    /// The copy that `next` gave is in flight from now on, for the client's time. It takes no memory. Requires the message, the client and the
    /// moment of that `next`, and a moment of at most 2^62.
    pub fn sent<F: Folder, L: Ledger>(
        &mut self,
        folder: &mut F,
        client: u64,
        message: Message,
        now: u64,
        steps: &mut Steps<L>,
    )
        requires drawn { IsDrawnFor client message now self.old.drawn }
        requires client { IsSome (client_of self.old.clients client) }
        requires short { FitsLimit message }
        requires now { now ≤ 2 ^ 62 }
        ensures nothing_now { self.new.drawn ≡ drawn.Nothing }
        ensures row { IsTrue F.tells_files → (disk : List Message) → OnDisk self.old.backlog.queue (F.files folder.old) disk → IsFirstDrawn (first_drawn self.old.drawn message) self.old disk → Leads (Sends MovesLive client now (timeout_of client self.old) message) self.old (drawn_in (first_drawn self.old.drawn message) self.old disk) self.new (F.files folder.new) }
        ensures rest { self.new ≡ record self.old { backlog = self.new.backlog; flights = self.new.flights; drawn = drawn.Nothing; spare = self.new.spare } }
        ensures disk { KeepsDisk F.tells_files (around self.old.backlog (F.files folder.old) (F.folder_faults folder.old)) (around self.new.backlog (F.files folder.new) (F.folder_faults folder.new)) }
        ensures steps { CostsFlying 1 self.old steps.old steps.new }
    {
        let due = now + self.clients.get(client).timeout;
        self.backlog.settle(folder);
        self.drawn = Drawn::Nothing;
        let flight = Flight {
            message,
            client,
            due,
            sent: now,
        };
        self.flights.put(flight, steps);
    }

    /// Puts the copy back that `next` gave to be sent, with the attempts that it had. Requires its message.
    pub fn unsend(&mut self, message: Message)
        requires drawn { (client : ℕ) × (now : ℕ) × IsDrawnFor client message now self.old.drawn }
        requires short { FitsLimit message }
        ensures nothing_now { self.new.drawn ≡ drawn.Nothing }
        ensures back { (disk : List Message) → queued_in self.new disk ≡ drawn_in (first_drawn self.old.drawn message) self.old disk }
        ensures queue { self.new.backlog.queue ≡ self.old.backlog.queue }
        ensures rest { self.new ≡ record self.old { backlog = self.new.backlog; drawn = drawn.Nothing } }
    {
        let mut message = message;
        message.attempts = self.drawn.attempts_before(message.attempts);
        self.drawn = Drawn::Nothing;
        self.backlog.undo(message);
    }

    /// The copy that came up while its id was in flight is deferred, for the time for a message of the options. It takes no memory. Requires
    /// the moment of that `next`, of at most 2^62.
    pub fn settle_held<F: Folder, L: Ledger>(
        &mut self,
        folder: &mut F,
        now: u64,
        steps: &mut Steps<L>,
    )
        requires drawn { IsHeld now self.old.drawn }
        requires now { now ≤ 2 ^ 62 }
        ensures nothing_now { self.new.drawn ≡ drawn.Nothing }
        ensures row { IsTrue F.tells_files → (disk : List Message) → (held : Message) → self.old.drawn ≡ drawn.ToHold held now → OnDisk self.old.backlog.queue (F.files folder.old) disk → IsFirstDrawn held self.old disk → Leads (HoldsBack MovesLive held.id (now + self.old.about.msg_timeout)) self.old (drawn_in held self.old disk) self.new (F.files folder.new) }
        ensures rest { self.new ≡ record self.old { backlog = self.new.backlog; deferred = self.new.deferred; drawn = drawn.Nothing; deferred_spare = self.new.deferred_spare } }
        ensures disk { KeepsDisk F.tells_files (around self.old.backlog (F.files folder.old) (F.folder_faults folder.old)) (around self.new.backlog (F.files folder.new) (F.folder_faults folder.new)) }
        ensures steps { CostsDeferred 1 self.old steps.old steps.new }
    {
        let due = now + self.about.msg_timeout;
        let drawn = mem::replace(&mut self.drawn, Drawn::Nothing);
        let message = drawn.held().unwrap();
        self.backlog.settle(folder);
        self.deferred.put(due, message, steps);
    }

    /// Puts the copy back that came up while its id was in flight.
    pub fn undo_held(&mut self)
        requires drawn { (now : ℕ) × IsHeld now self.old.drawn }
        ensures nothing_now { self.new.drawn ≡ drawn.Nothing }
        ensures back { (disk : List Message) → (held : Message) → (now : ℕ) → self.old.drawn ≡ drawn.ToHold held now → queued_in self.new disk ≡ drawn_in held self.old disk }
        ensures queue { self.new.backlog.queue ≡ self.old.backlog.queue }
        ensures rest { self.new ≡ record self.old { backlog = self.new.backlog; drawn = drawn.Nothing } }
    {
        let drawn = mem::replace(&mut self.drawn, Drawn::Nothing);
        let message = drawn.held().unwrap();
        self.backlog.undo(message);
    }

    // Draws the first queued copy, for a client that has credit for it.
    fn draw_for<F: Folder>(
        &mut self,
        folder: &mut F,
        scratch: &mut [u8],
        client: u64,
        now: u64,
    ) -> Next
        requires nothing { self.old.drawn ≡ drawn.Nothing }
        requires room { HasRoom self.old }
        requires scratch { 16777242 ≤ length scratch.old }
        ensures drawing { IsOfDrawing result }
        ensures drawn { NextLeaves client now self.new.drawn result }
        ensures gives { IsTrue F.tells_files → (disk : List Message) → OnDisk self.old.backlog.queue (F.files folder.old) disk → Drew self.old self.new disk result }
        ensures list { IsTrue F.tells_files → (disk : List Message) → OnDisk self.old.backlog.queue (F.files folder.old) disk → OnDisk self.new.backlog.queue (F.files folder.new) disk }
        ensures rest { self.new ≡ record self.old { backlog = self.new.backlog; drawn = self.new.drawn } }
        ensures same { IsTrue F.tells_files → SameFiles (F.files folder.old) (F.files folder.new) }
        ensures disk { KeepsDisk F.tells_files (around self.old.backlog (F.files folder.old) (F.folder_faults folder.old)) (around self.new.backlog (F.files folder.new) (F.folder_faults folder.new)) }
        ensures fault { DrawFails (F.folder_faults folder.old) (F.folder_faults folder.new) result }
    {
        let message = match message_of(self.backlog.draw(folder, scratch)) {
            Ok(message) => message,
            Err(answer) => return answer,
        };
        let id = message.id;
        if self.flights.has(id) {
            self.drawn = Drawn::ToHold(message, now);
            return Next::Held(id);
        }
        let attempts = message.attempts;
        self.drawn = Drawn::ToSend(Sending {
            client,
            id,
            attempts,
            now,
        });
        let mut message = message;
        message.attempts = attempts.saturating_add(1);
        Next::Send(message)
    }

    // Whether the client has as many copies in flight as it asked for.
    fn has_no_credit(&self, client: u64) -> bool
        requires { IsSome (client_of self.now.clients client) }
        ensures { (queued : List Message) → MatchBool result (ready_of client self.now ≤ flying client (channel_with self.now queued).copies) (flying client (channel_with self.now queued).copies < ready_of client self.now) }
    {
        let in_flight = self.flights.count(client) as u64;
        let ready = u64::from(self.clients.get(client).ready);
        ready <= in_flight
    }

    // Whether no copy is queued.
    fn has_none_queued(&self) -> bool
        requires { self.now.drawn ≡ drawn.Nothing }
        ensures { (files : Files) (disk : List Message) → OnDisk self.now.backlog.queue files disk → MatchBool result (queued (seen_channel self.now disk).copies ≡ 0) (0 < queued (seen_channel self.now disk).copies) }
    {
        let depths = self.backlog.depths();
        if depths.ring != 0 {
            return false;
        }
        depths.disk == 0
    }

    // Makes room for one more in flight, and for deferring it.
    fn reserve(&mut self) -> Result<(), Memory>
        requires { self.old.drawn ≡ drawn.Nothing }
        ensures room { OnOk result (HasRoom self.new) }
        ensures rest { self.new ≡ record self.old { spare = self.new.spare; deferred_spare = self.new.deferred_spare } }
    {
        let Some(most) = self.flights.len().checked_add(1) else {
            return Err(Memory);
        };
        self.flights.reserve()?;
        self.deferred.reserve(most)
    }
}

// The message that was drawn, or the answer where none was.
fn message_of(drawn: FromBacklog) -> Result<Message, Next>
    ensures { result ≡ message_of drawn }
{
    match drawn {
        FromBacklog::Got(message) => Ok(message),
        FromBacklog::Empty => Err(Next::NoneQueued),
        FromBacklog::Fault => Err(Next::Fault),
        FromBacklog::Damaged => Err(Next::Damaged),
        FromBacklog::Memory => Err(Next::Memory),
    }
}
