ghost use Rattle.std.specs.Prelude.{◌≡◌, ◌≢◌, ◌<◌, ◌≤◌, ◌^◌, ℕ, List, IsTrue, false, IfOk};
ghost use Rattle.nsq_outside.specs.Causes.{DidFails};
ghost use Rattle.nsq_outside.specs.Files.{Files};
ghost use Rattle.queue_image.specs.FileNames.{IsOwnFile, IsQueueName};
ghost use Rattle.queue_files.specs.Replaced.{OnlyTwoChange, Replaces};
ghost use Rattle.names_file.specs.Kept.{CanKeepAll};
ghost use Rattle.broker_history.specs.State.{State};
ghost use Rattle.floor_rooms.specs.Kept.{hall_kept};
ghost use Rattle.floor_rooms.specs.Rooms.{hall_names};
ghost use Rattle.floor_rooms.specs.Standing.{HoldsFor};
ghost use Rattle.broker_floor.specs.Floors.{faults_of, files_of, flushed_of, hall_of, held_of, kit_of};

use crate::Floor;
use broker_history::Entry;
use disk_queue::replace_file;
use floor_serving::{kept, names};
use names_file::KeptTopic;
use nsq_base::{Memory, Names};
use nsq_outside::{Clock, Did, Folder, Journal};
use std::alloc::Global;

impl<F: Folder, C: Clock, J: Journal<Entry>> Floor<F, C, J> {
    /// The run's epoch, below 2^24.
    pub fn epoch(&self) -> u32
        ensures value { result ≡ (hall_of self.now).epoch }
        ensures bound { result < 2 ^ 24 }
    {
        self.held.get().epoch
    }

    /// The moment of the opening, in nanoseconds.
    pub fn began(&self) -> u64
        ensures { result ≡ (hall_of self.now).began_at }
    {
        self.held.get().began_at
    }

    /// The names of all topics and channels. Want of memory is the only error. Requires that it wasn't flushed.
    pub fn names(&self, alloc: Global) -> Result<Names, Memory>
        requires { flushed_of self.now ≡ false }
        ensures { IfOk result (λ names. names ≡ hall_names (hall_of self.now)) }
    {
        names(self.held.get(), alloc)
    }

    /// The durable topics and channels with their pauses, in byte order. Want of memory is the only error. Until the floor is flushed the file of names can
    /// keep them.
    pub fn kept(&self, alloc: Global) -> Result<Vec<KeptTopic>, Memory>
        ensures kept { IfOk result (λ kept. kept.items ≡ hall_kept (hall_of self.now)) }
        ensures can { flushed_of self.now ≡ false → IfOk result (λ kept. CanKeepAll kept.items) }
    {
        kept(self.held.get(), alloc)
    }

    /// Whether durable names or pauses changed since they were saved last.
    pub fn changed(&self) -> bool
        ensures { result ≡ (hall_of self.now).unsaved_names }
    {
        self.held.get().unsaved_names
    }

    /// The durable names and pauses were saved as they are.
    pub fn saved(&mut self)
        ensures held { held_of self.new ≡ record (held_of self.old) { hall = record (hall_of self.old) { unsaved_names = false } } }
        ensures folder { (kit_of self.new).folder ≡ (kit_of self.old).folder }
        ensures clock { (kit_of self.new).clock ≡ (kit_of self.old).clock }
        ensures journal { (kit_of self.new).journal ≡ (kit_of self.old).journal }
        ensures stands { (files : Files) (s : State) → HoldsFor (hall_of self.old) files s → HoldsFor (hall_of self.new) files s }
    {
        self.held.saved();
    }

    /// Replaces a file of the folder by way of a temporary one, so that the file has the old content or these bytes at every moment. It takes no memory.
    /// Requires two names that differ, and that neither is a queue's file.
    pub fn store(&mut self, name: &str, temp: &str, bytes: &[u8]) -> Did
        requires apart { temp.now ≢ name.now }
        requires name { (queue : List ℕ) → IsQueueName queue → IsOwnFile queue name.now → ⊥ }
        requires temp { (queue : List ℕ) → IsQueueName queue → IsOwnFile queue temp.now → ⊥ }
        ensures content { IsTrue F.tells_files → Replaces (files_of self.old) (files_of self.new) name.now temp.now bytes.now result }
        ensures others { IsTrue F.tells_files → OnlyTwoChange (files_of self.old) (files_of self.new) name.now temp.now }
        ensures stands { IsTrue F.tells_files → flushed_of self.old ≡ false → (s : State) → HoldsFor (hall_of self.old) (files_of self.old) s → HoldsFor (hall_of self.new) (files_of self.new) s }
        ensures held { held_of self.new ≡ held_of self.old }
        ensures clock { (kit_of self.new).clock ≡ (kit_of self.old).clock }
        ensures journal { (kit_of self.new).journal ≡ (kit_of self.old).journal }
        ensures faults { faults_of self.old ≤ faults_of self.new }
        ensures cause { DidFails (faults_of self.old) (faults_of self.new) result }
    {
        let _hall = self.held.get();
        replace_file(&mut self.folder, name, temp, bytes)
    }
}
