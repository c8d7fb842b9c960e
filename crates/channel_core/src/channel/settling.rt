ghost use Rattle.std.specs.Prelude.{◌≡◌, ◌^◌, ◌≤◌, List, length, IsTrue, IsSome};
ghost use Rattle.v2_frame.specs.declared.message.Message.{Message};
ghost use Rattle.backlog.specs.Lists.{OnDisk};
ghost use Rattle.broker_history.specs.Channels.{MovesLive, Finishes, Touches};
ghost use Rattle.channel_copies.specs.Clients.{client_of};
ghost use Rattle.channel_copies.specs.Putting.{KeepsDisk, around};
ghost use Rattle.channel_core.specs.declared.drawn.Drawn.TheVariants as drawn;
ghost use Rattle.channel_core.specs.Costs.{CostsFlying, RequeueCosts};
ghost use Rattle.channel_core.specs.Drawing.{Does, timeout_of};
ghost use Rattle.channel_core.specs.Answers.{IsYours, RequeueFails};
ghost use Rattle.channel_core.specs.Moves.{Requeues};

use super::Channel;
use crate::Requeue;
use channel_copies::Back;
use nsq_base::{MsgId, Steps};
use nsq_outside::Folder;
use std::sync::ledger::Ledger;

/// What a client does with a copy that it has.
impl Channel {
    /// The copy of this id is finished. It takes no memory. Requires that nothing is drawn, and that `look` answers Yours.
    pub fn finish<L: Ledger>(&mut self, client: u64, id: MsgId, steps: &mut Steps<L>)
        requires nothing { self.old.drawn ≡ drawn.Nothing }
        requires yours { IsYours client id self.old }
        ensures row { Does (Finishes MovesLive client id) self.old self.new }
        ensures rest { self.new ≡ record self.old { flights = self.new.flights; spare = self.new.spare } }
        ensures steps { CostsFlying 1 self.old steps.old steps.new }
    {
        let _ = self.flights.take(id, steps);
    }

    /// The copy of this id is due after the client's time from now on, but no later than the greatest time for a message after its sending.
    /// It takes no memory. Requires that nothing is drawn, that `look` answers Yours, and a moment of at most 2^62.
    pub fn touch<L: Ledger>(&mut self, client: u64, id: MsgId, now: u64, steps: &mut Steps<L>)
        requires nothing { self.old.drawn ≡ drawn.Nothing }
        requires client { IsSome (client_of self.old.clients client) }
        requires yours { IsYours client id self.old }
        requires now { now ≤ 2 ^ 62 }
        ensures row { Does (Touches MovesLive client id now (timeout_of client self.old) self.old.about.max_msg_timeout) self.old self.new }
        ensures rest { self.new ≡ record self.old { flights = self.new.flights; spare = self.new.spare } }
        ensures steps { CostsFlying 2 self.old steps.old steps.new }
    {
        let until = now + self.clients.get(client).timeout;
        self.flights
            .touch(id, until, self.about.max_msg_timeout, steps);
    }

    /// The copy of this id is given back: at once where the delay is 0, and else it is deferred from now on. It takes no memory. Requires that
    /// nothing is drawn, that `look` answers Yours, a moment and a delay of at most 2^62, and 16,777,242 bytes of `scratch`.
    pub fn requeue<F: Folder, L: Ledger>(
        &mut self,
        folder: &mut F,
        scratch: &mut [u8],
        client: u64,
        id: MsgId,
        delay: u64,
        now: u64,
        steps: &mut Steps<L>,
    ) -> Requeue
        requires nothing { self.old.drawn ≡ drawn.Nothing }
        requires yours { IsYours client id self.old }
        requires now { now ≤ 2 ^ 62 }
        requires delay { delay ≤ 2 ^ 62 }
        requires scratch { 16777242 ≤ length scratch.old }
        ensures row { IsTrue F.tells_files → (disk : List Message) → OnDisk self.old.backlog.queue (F.files folder.old) disk → Requeues client id now delay self.old disk self.new (F.files folder.new) result }
        ensures rest { self.new ≡ record self.old { requeue_count = self.new.requeue_count; backlog = self.new.backlog; flights = self.new.flights; deferred = self.new.deferred; spare = self.new.spare; deferred_spare = self.new.deferred_spare } }
        ensures disk { KeepsDisk F.tells_files (around self.old.backlog (F.files folder.old) (F.folder_faults folder.old)) (around self.new.backlog (F.files folder.new) (F.folder_faults folder.new)) }
        ensures cause { RequeueFails delay (F.folder_faults folder.old) (F.folder_faults folder.new) result }
        ensures steps { RequeueCosts delay self.old steps.old steps.new }
    {
        if delay != 0 {
            let flight = self.flights.take(id, steps);
            self.deferred.put(now + delay, flight.message, steps);
            self.requeue_count = self.requeue_count.saturating_add(1);
            return Requeue::Done;
        }
        match self
            .flights
            .move_back(id, &mut self.backlog, folder, scratch, steps)
        {
            Back::Done => {
                self.requeue_count = self.requeue_count.saturating_add(1);
                Requeue::Done
            }
            Back::Fault => Requeue::Fault,
        }
    }
}
