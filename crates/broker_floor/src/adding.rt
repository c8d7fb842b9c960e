ghost use Rattle.std.specs.Prelude.{◌≡◌, ◌≤◌, All, IfErr, IsTrue, None, OnErr, OnOk, false};
ghost use Rattle.nsq_base.specs.Name.{is_ephemeral};
ghost use Rattle.queue_opening.specs.Refusals.{OpenFails};
ghost use Rattle.floor_rooms.specs.Rooms.{room_in};
ghost use Rattle.floor_files.specs.Opened.{AreApart, BadStays, FindsBack, FindsThem, ListsStay, NoneIsBad, OnlyTheirFiles, OnlyTopicFiles, OpensRoom, OpensTo, RefusesTopic};
ghost use Rattle.broker_floor.specs.Floors.{faults_of, files_of, flushed_of, hall_of, held_of, kit_of};

use crate::Floor;
use broker_history::Entry;
use nsq_base::{Chan, Topic};
use nsq_outside::{Clock, Folder, Journal};
use queue_opening::Open;

impl<F: Folder, C: Clock, J: Journal<Entry>> Floor<F, C, J> {
    /// Opens the queue of a durable topic and those of these durable channels of it, each with its pause, before any turn. Errors are those of
    /// `TopicQueue::open` and `Channel::open`: then the floor has the topics that it had. Its names aren't unsaved by it. Requires that the floor has no such
    /// topic and wasn't flushed, and that the channels' names differ.
    pub fn add(&mut self, topic: Topic, paused: bool, channels: &[(Chan, bool)]) -> Result<(), Open>
        requires unflushed { flushed_of self.old ≡ false }
        requires durable { is_ephemeral topic ≡ false }
        requires channels { All (λ c. is_ephemeral c.0 ≡ false) channels.now }
        requires apart { AreApart channels.now }
        requires new { room_in (hall_of self.old).rooms.items topic ≡ None }
        ensures opens { OnOk result (OpensRoom (hall_of self.old).options topic paused (hall_of self.old).rooms.items (hall_of self.new).rooms.items) }
        ensures told { IsTrue F.tells_files → OnOk result (OpensTo topic paused channels.now (hall_of self.old) (files_of self.old) (hall_of self.new) (files_of self.new)) }
        ensures again { IsTrue F.tells_files → ListsStay (files_of self.old) (files_of self.new) }
        ensures good { IsTrue F.tells_files → OnOk result (NoneIsBad topic channels.now (files_of self.old)) }
        ensures theirs { IsTrue F.tells_files → OnlyTheirFiles topic channels.now (files_of self.old) (files_of self.new) }
        ensures bad { IsTrue F.tells_files → OnOk result (BadStays (files_of self.old) (files_of self.new)) }
        ensures finds { IsTrue F.tells_files → OnOk result (FindsThem topic channels.now (files_of self.old)) }
        ensures back { IsTrue F.tells_files → OnOk result (FindsBack (files_of self.old) (files_of self.new)) }
        ensures same { OnErr result ((hall_of self.new).rooms.items ≡ (hall_of self.old).rooms.items) }
        ensures held { held_of self.new ≡ record (held_of self.old) { hall = record (hall_of self.old) { rooms = (hall_of self.new).rooms; pending = (hall_of self.new).pending } } }
        ensures clock { (kit_of self.new).clock ≡ (kit_of self.old).clock }
        ensures journal { (kit_of self.new).journal ≡ (kit_of self.old).journal }
        ensures refused { IsTrue F.tells_files → IfErr result (λ e. RefusesTopic topic channels.now (files_of self.old) (files_of self.new) e) }
        ensures files { IsTrue F.tells_files → OnlyTopicFiles topic (files_of self.old) (files_of self.new) }
        ensures faults { faults_of self.old ≤ faults_of self.new }
        ensures cause { IfErr result (λ e. OpenFails (faults_of self.old) (faults_of self.new) e) }
    {
        self.held.add(topic, paused, channels, &mut self.folder)
    }
}
