ghost use Rattle.std.specs.Prelude.{◌≡◌, ◌^◌, ◌≤◌, List, [], length, true, IsTrue};
ghost use Rattle.backlog.specs.QueueAnswers.{SyncFails};
ghost use Rattle.v2_frame.specs.declared.message.Message.{Message};
ghost use Rattle.backlog.specs.Seen.{FitsLimit, SyncSeen};
ghost use Rattle.backlog.specs.Lists.{OnDisk, Stands, DiskChanges, SyncFinds, EmptyFinds};
ghost use Rattle.backlog.specs.Answers.{FlushFails, EmptyFails};
ghost use Rattle.backlog.specs.declared.answers.Flushed.TheVariants.{Done as FlushDone};
ghost use Rattle.broker_history.specs.State.{is_ephemeral_channel};
ghost use Rattle.broker_history.specs.Left.{left_in_channel};
ghost use Rattle.channel_copies.specs.Putting.{KeepsDisk, around};
ghost use Rattle.channel_core.specs.declared.drawn.Drawn.TheVariants as drawn;
ghost use Rattle.channel_core.specs.Costs.{CostsHeaps, OfferCosts};
ghost use Rattle.channel_core.specs.Seen.{queued_in, seen_channel};
ghost use Rattle.channel_core.specs.Storing.{Defers, Offers, OfferBack, OfferFails, Empties, FlushEmpties, FlushLeaves, FlushStores};
ghost use Rattle.channel_core.specs.Deleting.{Deletes, DeleteSeen, DeleteStands, DeleteFinds, DeleteGone, DeleteFails};

use super::Channel;
use super::making::is_ephemeral;
use crate::{Drawn, DropChannel, Offer};
use backlog::{Emptied, Flushed, Gone, PutOne, Sync};
use channel_copies::{Clients, Deferred, Flights, put_back, write_deferred, write_flights};
use nsq_base::Steps;
use nsq_outside::Folder;
use std::alloc::Global;
use std::sync::ledger::Ledger;
use v2_frame::Message;

/// What joins a channel, and what becomes of all its copies.
impl Channel {
    /// A copy of the message joins: it is queued, or deferred where the message has a delay, which counts from now on. Where the channel is
    /// ephemeral and its ring full, a copy that is to be queued is dropped. Only a deferred one wants memory. Requires that nothing is drawn, a
    /// moment and a delay of at most 2^62, a body of at most 16,777,216 bytes, and 16,777,242 bytes of `scratch`.
    pub fn offer<F: Folder, L: Ledger>(
        &mut self,
        folder: &mut F,
        scratch: &mut [u8],
        message: Message,
        now: u64,
        steps: &mut Steps<L>,
    ) -> Offer
        requires nothing { self.old.drawn ≡ drawn.Nothing }
        requires short { FitsLimit message }
        requires now { now ≤ 2 ^ 62 }
        requires delay { message.delay ≤ 2 ^ 62 }
        requires scratch { 16777242 ≤ length scratch.old }
        ensures row { IsTrue F.tells_files → (disk : List Message) → OnDisk self.old.backlog.queue (F.files folder.old) disk → Offers now message self.old disk self.new (F.files folder.new) result }
        ensures back { OfferBack message result }
        ensures rest { self.new ≡ record self.old { message_count = self.new.message_count; backlog = self.new.backlog; deferred = self.new.deferred; deferred_spare = self.new.deferred_spare } }
        ensures disk { KeepsDisk F.tells_files (around self.old.backlog (F.files folder.old) (F.folder_faults folder.old)) (around self.new.backlog (F.files folder.new) (F.folder_faults folder.new)) }
        ensures cause { OfferFails message.delay (F.folder_faults folder.old) (F.folder_faults folder.new) result }
        ensures steps { OfferCosts self.old steps.old steps.new result }
        ensures free { message.delay ≡ 0 → steps.new ≡ steps.old }
    {
        if message.delay != 0 {
            return self.defer(message, now, steps);
        }
        match put_back(&mut self.backlog, folder, scratch, message) {
            PutOne::Kept | PutOne::Spilled => {
                self.message_count = self.message_count.saturating_add(1);
                Offer::Done
            }
            PutOne::Dropped => Offer::Done,
            PutOne::Fault(message) => Offer::Fault(message),
        }
    }

    /// Drops all copies; that the disk has none is saved. After a fault all are there still. Requires that nothing is drawn.
    pub fn empty<F: Folder>(&mut self, folder: &mut F) -> Emptied
        requires nothing { self.old.drawn ≡ drawn.Nothing }
        ensures row { IsTrue F.tells_files → (disk : List Message) → OnDisk self.old.backlog.queue (F.files folder.old) disk → Empties self.old disk self.new (F.files folder.new) result }
        ensures found { IsTrue F.tells_files → EmptyFinds self.old.backlog.queue (F.files folder.new) result }
        ensures rest { self.new ≡ record self.old { backlog = self.new.backlog; flights = self.new.flights; deferred = self.new.deferred; spare = self.new.spare; deferred_spare = self.new.deferred_spare } }
        ensures disk { KeepsDisk F.tells_files (around self.old.backlog (F.files folder.old) (F.folder_faults folder.old)) (around self.new.backlog (F.files folder.new) (F.folder_faults folder.new)) }
        ensures cause { EmptyFails (F.folder_faults folder.old) (F.folder_faults folder.new) self.new.backlog.queue result }
    {
        match self.backlog.empty(folder) {
            Emptied::Done => {}
            Emptied::Fault => return Emptied::Fault,
        }
        empty_flights(&mut self.flights, self.alloc);
        empty_deferred(&mut self.deferred, self.alloc);
        Emptied::Done
    }

    /// Writes all copies of a durable channel behind those on disk, the ring's, those in flight and the deferred ones, each of the two by due
    /// moment, and saves: an opening finds them all, and none is left in memory. After a fault nothing is claimed of where the copies are, and one
    /// that the folder refused is in no place any more. An ephemeral channel stays as it is, and asks nothing of the folder. It takes no memory.
    /// Requires that nothing is drawn, and 16,777,242 bytes of `scratch`.
    pub fn flush<F: Folder, L: Ledger>(
        &mut self,
        folder: &mut F,
        scratch: &mut [u8],
        steps: &mut Steps<L>,
    ) -> Flushed
        requires nothing { self.old.drawn ≡ drawn.Nothing }
        requires scratch { 16777242 ≤ length scratch.old }
        ensures found { IsTrue F.tells_files → (disk : List Message) → OnDisk self.old.backlog.queue (F.files folder.old) disk → Stands self.old.backlog.queue (F.files folder.old) → FlushLeaves (left_in_channel (seen_channel self.old disk)) self.old.about (F.files folder.new) result }
        ensures empties { FlushEmpties self.old.about self.new result }
        ensures stores { IsTrue F.tells_files → (disk : List Message) → OnDisk self.old.backlog.queue (F.files folder.old) disk → FlushStores (left_in_channel (seen_channel self.old disk)) self.old.about self.new (F.files folder.new) result }
        ensures ephemeral { is_ephemeral_channel self.old.about.topic self.old.about.name ≡ true → self.new ≡ self.old }
        ensures idle { is_ephemeral_channel self.old.about.topic self.old.about.name ≡ true → (folder.new ≡ folder.old) × (steps.new ≡ steps.old) × (result ≡ FlushDone) }
        ensures rest { self.new ≡ record self.old { backlog = self.new.backlog; flights = self.new.flights; deferred = self.new.deferred; spare = self.new.spare; deferred_spare = self.new.deferred_spare } }
        ensures nothing_now { self.new.drawn ≡ drawn.Nothing }
        ensures disk { KeepsDisk F.tells_files (around self.old.backlog (F.files folder.old) (F.folder_faults folder.old)) (around self.new.backlog (F.files folder.new) (F.folder_faults folder.new)) }
        ensures cause { FlushFails (F.folder_faults folder.old) (F.folder_faults folder.new) result }
        ensures steps { CostsHeaps (length self.old.flights) (length self.old.deferred) self.old steps.old steps.new }
    {
        if is_ephemeral(self.about.topic, self.about.name) {
            return Flushed::Done;
        }
        let ring = self.about.mem_queue_size;
        match write_flights(
            &mut self.flights,
            &mut self.backlog,
            ring,
            folder,
            scratch,
            steps,
        ) {
            Flushed::Done => {}
            Flushed::Fault => return Flushed::Fault,
        }
        match write_deferred(
            &mut self.deferred,
            &mut self.backlog,
            ring,
            folder,
            scratch,
            steps,
        ) {
            Flushed::Done => {}
            Flushed::Fault => return Flushed::Fault,
        }
        self.backlog.flush(folder, scratch)
    }

    /// Saves what is on disk, as `Queue::sync`. It is never due where there is no disk. Requires that nothing is drawn.
    pub fn sync<F: Folder>(&mut self, folder: &mut F) -> Sync
        requires nothing { self.old.drawn ≡ drawn.Nothing }
        ensures same { (disk : List Message) → queued_in self.new disk ≡ queued_in self.old disk }
        ensures list { IsTrue F.tells_files → (disk : List Message) → OnDisk self.old.backlog.queue (F.files folder.old) disk → OnDisk self.new.backlog.queue (F.files folder.new) disk }
        ensures found { IsTrue F.tells_files → (disk : List Message) → OnDisk self.old.backlog.queue (F.files folder.old) disk → Stands self.old.backlog.queue (F.files folder.old) → SyncFinds self.new.backlog.queue (F.files folder.new) disk result }
        ensures seen { SyncSeen self.old.backlog.queue self.new.backlog.queue result }
        ensures rest { self.new ≡ record self.old { backlog = record self.old.backlog { queue = self.new.backlog.queue } } }
        ensures disk { KeepsDisk F.tells_files (around self.old.backlog (F.files folder.old) (F.folder_faults folder.old)) (around self.new.backlog (F.files folder.new) (F.folder_faults folder.new)) }
        ensures cause { SyncFails (F.folder_faults folder.old) (F.folder_faults folder.new) result }
    {
        self.backlog.sync(folder)
    }

    /// Drops all copies and removes the queue's files, as `Queue::delete`: where a removal fails files may stay, and an opening finds nothing
    /// in them. Requires that nothing is drawn.
    pub fn delete<F: Folder>(self, folder: &mut F) -> DropChannel
        requires nothing { self.drawn ≡ drawn.Nothing }
        ensures seen { DeleteSeen self result }
        ensures row { IsTrue F.tells_files → (disk : List Message) → OnDisk self.backlog.queue (F.files folder.old) disk → Deletes self disk (F.files folder.new) result }
        ensures found { IsTrue F.tells_files → DeleteFinds self.backlog.queue (F.files folder.new) result }
        ensures gone { IsTrue F.tells_files → Stands self.backlog.queue (F.files folder.old) → DeleteGone self.backlog.queue (F.files folder.new) (F.folder_faults folder.old) (F.folder_faults folder.new) result }
        ensures stands { IsTrue F.tells_files → Stands self.backlog.queue (F.files folder.old) → DeleteStands (F.files folder.new) result }
        ensures others { IsTrue F.tells_files → DiskChanges self.backlog.queue (F.files folder.old) (F.files folder.new) }
        ensures faults { F.folder_faults folder.old ≤ F.folder_faults folder.new }
        ensures cause { DeleteFails (F.folder_faults folder.old) (F.folder_faults folder.new) result }
    {
        let Channel {
            alloc,
            about,
            paused,
            message_count,
            requeue_count,
            timeout_count,
            backlog,
            flights,
            clients,
            deferred,
            drawn,
        } = self;
        match backlog.delete(folder) {
            Gone::Done => {
                let_go(flights, clients, deferred, drawn);
                DropChannel::Done
            }
            Gone::Fault(backlog) => DropChannel::Fault(Channel {
                alloc,
                about,
                paused,
                message_count,
                requeue_count,
                timeout_count,
                backlog,
                flights,
                clients,
                deferred,
                drawn,
            }),
        }
    }

    // Defers a copy that joins.
    fn defer<L: Ledger>(&mut self, message: Message, now: u64, steps: &mut Steps<L>) -> Offer
        requires nothing { self.old.drawn ≡ drawn.Nothing }
        requires short { FitsLimit message }
        requires now { now ≤ 2 ^ 62 }
        requires delay { message.delay ≤ 2 ^ 62 }
        ensures defers { Defers now message self.old self.new result }
        ensures rest { self.new ≡ record self.old { message_count = self.new.message_count; deferred = self.new.deferred; deferred_spare = self.new.deferred_spare } }
        ensures steps { OfferCosts self.old steps.old steps.new result }
    {
        let Some(most) = self.flights.len().checked_add(1) else {
            return Offer::Memory(message);
        };
        let Ok(()) = self.deferred.reserve(most) else {
            return Offer::Memory(message);
        };
        self.deferred.put(now + message.delay, message, steps);
        self.message_count = self.message_count.saturating_add(1);
        Offer::Done
    }
}

// Drops all copies in flight.
fn empty_flights(flights: &mut Flights, alloc: Global)
    ensures { flights.new.flights ≡ [] }
{
    *flights = Flights::new(alloc);
}

// Drops all deferred copies.
fn empty_deferred(deferred: &mut Deferred, alloc: Global)
    ensures { deferred.new.waiting ≡ [] }
{
    *deferred = Deferred::new(alloc);
}

// Drops what a channel has beside its backlog.
fn let_go(_flights: Flights, _clients: Clients, _deferred: Deferred, _drawn: Drawn) {}
