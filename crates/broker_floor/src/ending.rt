ghost use Rattle.std.specs.Prelude.{◌≡◌, ◌<◌, ◌≤◌, IsTrue, false, true};
ghost use Rattle.broker_history.specs.State.{State};
ghost use Rattle.floor_rooms.specs.Changes.{OnlyQueueFiles};
ghost use Rattle.floor_rooms.specs.Kept.{hall_kept};
ghost use Rattle.floor_rooms.specs.Standing.{HoldsFor};
ghost use Rattle.floor_serving.specs.Flushing.{LeavesOthers, LeavesWhere};
ghost use Rattle.broker_floor.specs.Floors.{faults_of, files_of, flushed_of, hall_of, held_of, kit_of};
ghost use Rattle.broker_floor.specs.Ending.{FloorFlushFails, flushed_at};

use crate::Floor;
use backlog::Flushed;
use broker_history::Entry;
use nsq_outside::{Clock, Folder, Journal};
use std::marker::Brand;
use std::sync::ledger::{Blank, Ledger};

impl<F: Folder, C: Clock, J: Journal<Entry>> Floor<F, C, J> {
    /// Writes all that durable topics and their durable channels have in memory behind what is on disk, and saves: after Done an opening finds in each of
    /// their queues all that was left of it. A fault in one queue keeps none of the others from being written: no more queues are missed than the folder's count of
    /// faults rose. Where a disk fault kept the Stop's turn from
    /// paying all that was owed the answer is Fault, whatever was written. It takes no memory. After it no turn is taken: nothing is claimed of the states
    /// that the floor stands for. Requires that it wasn't flushed before.
    pub fn flush(&mut self) -> Flushed
        requires { flushed_of self.old ≡ false }
        ensures left { IsTrue F.tells_files → (s : State) → HoldsFor (hall_of self.old) (files_of self.old) s → LeavesWhere result s (files_of self.new) }
        ensures others { IsTrue F.tells_files → LeavesOthers result (faults_of self.old) (faults_of self.new) (hall_of self.old) (files_of self.old) (files_of self.new) }
        ensures kept { hall_kept (hall_of self.new) ≡ hall_kept (hall_of self.old) }
        ensures held { held_of self.new ≡ record { hall = record (hall_of self.old) { rooms = (hall_of self.new).rooms }; flushed = true } }
        ensures clock { (kit_of self.new).clock ≡ (kit_of self.old).clock }
        ensures journal { (kit_of self.new).journal ≡ (kit_of self.old).journal }
        ensures files { IsTrue F.tells_files → OnlyQueueFiles (files_of self.old) (files_of self.new) }
        ensures faults { faults_of self.old ≤ faults_of self.new }
        ensures cause { FloorFlushFails (hall_of self.old).stuck (faults_of self.old) (faults_of self.new) result }
    {
        self.flush_in::<Brand>(Blank::new(1))
    }

    // The same, with steps of heaps counted in a ledger.
    fn flush_in<L: Ledger>(&mut self, blank: Blank) -> Flushed
        requires name { blank.name ≡ L.name }
        requires parts { blank.parts ≡ L.parts }
        requires some { 0 < L.parts }
        requires unflushed { flushed_of self.old ≡ false }
        ensures left { IsTrue F.tells_files → (s : State) → HoldsFor (hall_of self.old) (files_of self.old) s → LeavesWhere result s (files_of self.new) }
        ensures others { IsTrue F.tells_files → LeavesOthers result (faults_of self.old) (faults_of self.new) (hall_of self.old) (files_of self.old) (files_of self.new) }
        ensures kept { hall_kept (hall_of self.new) ≡ hall_kept (hall_of self.old) }
        ensures held { held_of self.new ≡ record { hall = record (hall_of self.old) { rooms = (hall_of self.new).rooms }; flushed = true } }
        ensures clock { (kit_of self.new).clock ≡ (kit_of self.old).clock }
        ensures journal { (kit_of self.new).journal ≡ (kit_of self.old).journal }
        ensures files { IsTrue F.tells_files → OnlyQueueFiles (files_of self.old) (files_of self.new) }
        ensures faults { faults_of self.old ≤ faults_of self.new }
        ensures cause { FloorFlushFails (hall_of self.old).stuck (faults_of self.old) (faults_of self.new) result }
    {
        let stuck = self.held.get().stuck;
        let flushed = self
            .held
            .flush::<F, L>(blank, &mut self.folder, &mut self.scratch);
        flushed_at(stuck, flushed)
    }
}

// The answer of a flush by that of its queues.
fn flushed_at(stuck: bool, flushed: Flushed) -> Flushed
    ensures { result ≡ flushed_at stuck flushed }
{
    if stuck {
        return Flushed::Fault;
    }
    flushed
}
