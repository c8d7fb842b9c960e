ghost use Rattle.std.specs.Prelude.{◌≡◌, ◌≤◌, ◌<◌, ℕ, true, false, List, length, Some, IsTrue};
ghost use Rattle.v2_frame.specs.declared.message.Message.{Message};
ghost use Rattle.backlog.specs.Lists.{OnDisk};
ghost use Rattle.channel_copies.specs.Flights.{flights_of_id};
ghost use Rattle.channel_copies.specs.Putting.{KeepsDisk, around};
ghost use Rattle.channel_core.specs.declared.drawn.Drawn.TheVariants as drawn;
ghost use Rattle.channel_core.specs.Costs.{CostsDeferred, CostsFlying, MoveCosts};
ghost use Rattle.channel_core.specs.Moves.{MovesDue, MoveFails, IsTold, due_in};

use super::Channel;
use crate::Moved;
use channel_copies::Back;
use nsq_base::{MsgId, Steps};
use nsq_outside::Folder;
use std::sync::ledger::Ledger;

/// What comes due.
impl Channel {
    /// Puts a copy back that is due at this moment, the one that `due` tells: first of those in flight, and else of the deferred ones, the one
    /// that is due soonest. Nothing exactly where none is due. It takes no memory. Requires that nothing is drawn, and 16,777,242 bytes of
    /// `scratch`.
    pub fn move_due<F: Folder, L: Ledger>(
        &mut self,
        folder: &mut F,
        scratch: &mut [u8],
        now: u64,
        steps: &mut Steps<L>,
    ) -> Moved
        requires nothing { self.old.drawn ≡ drawn.Nothing }
        requires scratch { 16777242 ≤ length scratch.old }
        ensures told { IsTold (due_in now self.old) result }
        ensures row { IsTrue F.tells_files → (disk : List Message) → OnDisk self.old.backlog.queue (F.files folder.old) disk → MovesDue now self.old disk self.new (F.files folder.new) result }
        ensures rest { self.new ≡ record self.old { timeout_count = self.new.timeout_count; backlog = self.new.backlog; flights = self.new.flights; deferred = self.new.deferred; spare = self.new.spare; deferred_spare = self.new.deferred_spare } }
        ensures disk { KeepsDisk F.tells_files (around self.old.backlog (F.files folder.old) (F.folder_faults folder.old)) (around self.new.backlog (F.files folder.new) (F.folder_faults folder.new)) }
        ensures cause { MoveFails (F.folder_faults folder.old) (F.folder_faults folder.new) result }
        ensures steps { MoveCosts self.old steps.old steps.new (due_in now self.old) }
    {
        let Some((id, flies)) = self.due(now) else {
            return Moved::Nothing;
        };
        if flies {
            return self.time_out(folder, scratch, id, steps);
        }
        self.come_due(folder, scratch, id, steps)
    }

    // Puts the copy of this id back, which is in flight: it timed out.
    fn time_out<F: Folder, L: Ledger>(
        &mut self,
        folder: &mut F,
        scratch: &mut [u8],
        id: MsgId,
        steps: &mut Steps<L>,
    ) -> Moved
        requires nothing { self.old.drawn ≡ drawn.Nothing }
        requires there { 0 < flights_of_id id self.old.flights }
        requires scratch { 16777242 ≤ length scratch.old }
        ensures told { IsTold (Some (id, true)) result }
        ensures row { IsTrue F.tells_files → (now : ℕ) → due_in now self.old ≡ Some (id, true) → (disk : List Message) → OnDisk self.old.backlog.queue (F.files folder.old) disk → MovesDue now self.old disk self.new (F.files folder.new) result }
        ensures rest { self.new ≡ record self.old { timeout_count = self.new.timeout_count; backlog = self.new.backlog; flights = self.new.flights; deferred = self.new.deferred; spare = self.new.spare; deferred_spare = self.new.deferred_spare } }
        ensures disk { KeepsDisk F.tells_files (around self.old.backlog (F.files folder.old) (F.folder_faults folder.old)) (around self.new.backlog (F.files folder.new) (F.folder_faults folder.new)) }
        ensures cause { MoveFails (F.folder_faults folder.old) (F.folder_faults folder.new) result }
        ensures steps { CostsFlying 2 self.old steps.old steps.new }
    {
        match self
            .flights
            .move_back(id, &mut self.backlog, folder, scratch, steps)
        {
            Back::Done => {
                self.timeout_count = self.timeout_count.saturating_add(1);
                Moved::TimedOut(id)
            }
            Back::Fault => Moved::Fault(id),
        }
    }

    // Puts the deferred copy back that is due soonest, which has this id.
    fn come_due<F: Folder, L: Ledger>(
        &mut self,
        folder: &mut F,
        scratch: &mut [u8],
        id: MsgId,
        steps: &mut Steps<L>,
    ) -> Moved
        requires nothing { self.old.drawn ≡ drawn.Nothing }
        requires there { 0 < length self.old.deferred }
        requires scratch { 16777242 ≤ length scratch.old }
        ensures told { IsTold (Some (id, false)) result }
        ensures row { IsTrue F.tells_files → (now : ℕ) → due_in now self.old ≡ Some (id, false) → (disk : List Message) → OnDisk self.old.backlog.queue (F.files folder.old) disk → MovesDue now self.old disk self.new (F.files folder.new) result }
        ensures rest { self.new ≡ record self.old { timeout_count = self.new.timeout_count; backlog = self.new.backlog; flights = self.new.flights; deferred = self.new.deferred; spare = self.new.spare; deferred_spare = self.new.deferred_spare } }
        ensures disk { KeepsDisk F.tells_files (around self.old.backlog (F.files folder.old) (F.folder_faults folder.old)) (around self.new.backlog (F.files folder.new) (F.folder_faults folder.new)) }
        ensures cause { MoveFails (F.folder_faults folder.old) (F.folder_faults folder.new) result }
        ensures steps { CostsDeferred 2 self.old steps.old steps.new }
    {
        match self
            .deferred
            .move_back(&mut self.backlog, folder, scratch, steps)
        {
            Back::Done => {}
            Back::Fault => return Moved::Fault(id),
        }
        Moved::CameDue(id)
    }
}
