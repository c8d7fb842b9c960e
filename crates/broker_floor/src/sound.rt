ghost use Rattle.std.specs.Prelude.{◌≡◌, ◌^◌, ◌<◌, ◌≤◌, max, min, All, IfErr, IsTrue, None, OnErr, OnOk, false, true, length};
ghost use Rattle.nsq_base.specs.Name.{is_ephemeral};
ghost use Rattle.queue_opening.specs.Refusals.{OpenFails};
ghost use Rattle.nsq_outside.specs.Files.{Files};
ghost use Rattle.backlog.specs.Answers.{FlushFails};
ghost use Rattle.broker_history.specs.State.{State};
ghost use Rattle.broker_history.specs.Calls.{CanCall};
ghost use Rattle.floor_rooms.specs.Changes.{OnlyQueueFiles};
ghost use Rattle.floor_rooms.specs.Kept.{hall_kept};
ghost use Rattle.floor_rooms.specs.Rooms.{room_in};
ghost use Rattle.floor_rooms.specs.Sound.{IsSound};
ghost use Rattle.floor_rooms.specs.Standing.{HoldsFor};
ghost use Rattle.floor_serving.specs.Moves.{sight};
ghost use Rattle.floor_serving.specs.Flushing.{LeavesOthers, LeavesWhere};
ghost use Rattle.floor_serving.specs.Turning.{TakesTurn};
ghost use Rattle.floor_files.specs.Opened.{AreApart, BadStays, FindsBack, FindsThem, ListsStay, NoneIsBad, OnlyTheirFiles, OnlyTopicFiles, OpensRoom, OpensTo, RefusesTopic};

use backlog::Flushed;
use broker_history::{Call, Entry, Turned};
use floor_files::open_topic;
use floor_rooms::Hall;
use floor_serving::{flush_all, turn_at};
use nsq_base::{Chan, Steps, Topic};
use nsq_outside::{Folder, Journal};
use queue_opening::Open;
use std::alloc::Global;
use std::marker::Model;
use std::sync::ledger::{Blank, Ledger};

// A hall that is sound until all that it has in memory was written at a stop.
#[derive(Drop)]
pub(crate) struct SoundHall {
    hall: Hall,
    // Whether that was done.
    flushed: bool,
}

impl Model for SoundHall {
    ghost use Rattle.broker_floor.specs.Held.{Held, IsHeld};

    ghost Value = { Held };

    ghost view = { λ s. record { hall = s.hall; flushed = s.flushed } };

    ghost invariant = { λ s. IsHeld s.hall s.flushed };
}

impl SoundHall {
    // This hall.
    pub(crate) fn new(hall: Hall) -> SoundHall
        requires { IsSound hall }
        ensures { result ≡ record { hall = hall; flushed = false } }
    {
        SoundHall {
            hall,
            flushed: false,
        }
    }

    // Lets go of the hall.
    pub(crate) fn end(self) {}

    // Whether all that it has in memory was written.
    pub(crate) fn is_flushed(&self) -> bool
        ensures { result ≡ self.now.flushed }
    {
        self.flushed
    }

    // The hall.
    pub(crate) fn get(&self) -> &Hall
        ensures same { result.now ≡ self.now.hall }
        ensures sound { self.now.flushed ≡ false → IsSound result.now }
        ensures epoch { result.now.epoch < 2 ^ 24 }
    {
        &self.hall
    }

    // The clock was read.
    pub(crate) fn pass(&mut self, reading: u64)
        requires { self.old.flushed ≡ false }
        ensures is { self.new ≡ record (self.old) { hall = record (self.old.hall) { moment = max self.old.hall.moment (min reading (2 ^ 62)) } } }
        ensures bounded { self.new.hall.moment ≤ 2 ^ 62 }
        ensures stands { (files : Files) (s : State) → HoldsFor self.old.hall files s → HoldsFor self.new.hall files s }
    {
        self.hall.pass(reading);
    }

    // The durable names and pauses were saved as they are.
    pub(crate) fn saved(&mut self)
        ensures is { self.new ≡ record (self.old) { hall = record (self.old.hall) { unsaved_names = false } } }
        ensures stands { (files : Files) (s : State) → HoldsFor self.old.hall files s → HoldsFor self.new.hall files s }
    {
        self.hall.unsaved_names = false;
    }

    // Takes a turn of this number at the hall's moment, with steps of heaps counted in a ledger.
    pub(crate) fn turn<F: Folder, J: Journal<Entry>, L: Ledger>(
        &mut self,
        blank: Blank,
        alloc: Global,
        number: u64,
        call: Call,
        folder: &mut F,
        scratch: &mut [u8],
        journal: &mut J,
    ) -> Turned
        requires name { blank.name ≡ L.name }
        requires parts { blank.parts ≡ L.parts }
        requires some { 0 < L.parts }
        requires unflushed { self.old.flushed ≡ false }
        requires can { CanCall call }
        requires calm { J.is_aside journal.old ≡ false }
        requires scratch { 16777242 ≤ length scratch.old }
        ensures turn { TakesTurn J.tells_notes F.tells_files number call result (sight self.old.hall (J.notes journal.old) (F.files folder.old) (F.folder_faults folder.old)) (sight self.new.hall (J.notes journal.new) (F.files folder.new) (F.folder_faults folder.new)) }
        ensures unflushed { self.new.flushed ≡ false }
        ensures calm { J.is_aside journal.new ≡ false }
        ensures files { IsTrue F.tells_files → OnlyQueueFiles (F.files folder.old) (F.files folder.new) }
    {
        let mut steps: Steps<L> = Steps::new(blank);
        turn_at(
            &mut self.hall,
            alloc,
            number,
            call,
            folder,
            scratch,
            journal,
            &mut steps,
        )
    }

    // Writes all that durable topics and channels have in memory behind what is on disk, with steps counted in the same way.
    pub(crate) fn flush<F: Folder, L: Ledger>(
        &mut self,
        blank: Blank,
        folder: &mut F,
        scratch: &mut [u8],
    ) -> Flushed
        requires name { blank.name ≡ L.name }
        requires parts { blank.parts ≡ L.parts }
        requires some { 0 < L.parts }
        requires unflushed { self.old.flushed ≡ false }
        requires scratch { 16777242 ≤ length scratch.old }
        ensures left { IsTrue F.tells_files → (s : State) → HoldsFor self.old.hall (F.files folder.old) s → LeavesWhere result s (F.files folder.new) }
        ensures others { IsTrue F.tells_files → LeavesOthers result (F.folder_faults folder.old) (F.folder_faults folder.new) self.old.hall (F.files folder.old) (F.files folder.new) }
        ensures kept { hall_kept self.new.hall ≡ hall_kept self.old.hall }
        ensures rest { self.new ≡ record { hall = record (self.old.hall) { rooms = self.new.hall.rooms }; flushed = true } }
        ensures files { IsTrue F.tells_files → OnlyQueueFiles (F.files folder.old) (F.files folder.new) }
        ensures faults { F.folder_faults folder.old ≤ F.folder_faults folder.new }
        ensures cause { FlushFails (F.folder_faults folder.old) (F.folder_faults folder.new) result }
    {
        let mut steps: Steps<L> = Steps::new(blank);
        let flushed = flush_all(&mut self.hall, folder, scratch, &mut steps);
        self.flushed = true;
        flushed
    }

    // Opens a topic that the folder lists, with its channels.
    pub(crate) fn add<F: Folder>(
        &mut self,
        topic: Topic,
        paused: bool,
        channels: &[(Chan, bool)],
        folder: &mut F,
    ) -> Result<(), Open>
        requires unflushed { self.old.flushed ≡ false }
        requires durable { is_ephemeral topic ≡ false }
        requires channels { All (λ c. is_ephemeral c.0 ≡ false) channels.now }
        requires apart { AreApart channels.now }
        requires new { room_in self.old.hall.rooms.items topic ≡ None }
        ensures opens { OnOk result (OpensRoom self.old.hall.options topic paused self.old.hall.rooms.items self.new.hall.rooms.items) }
        ensures told { IsTrue F.tells_files → OnOk result (OpensTo topic paused channels.now self.old.hall (F.files folder.old) self.new.hall (F.files folder.new)) }
        ensures again { IsTrue F.tells_files → ListsStay (F.files folder.old) (F.files folder.new) }
        ensures good { IsTrue F.tells_files → OnOk result (NoneIsBad topic channels.now (F.files folder.old)) }
        ensures theirs { IsTrue F.tells_files → OnlyTheirFiles topic channels.now (F.files folder.old) (F.files folder.new) }
        ensures bad { IsTrue F.tells_files → OnOk result (BadStays (F.files folder.old) (F.files folder.new)) }
        ensures finds { IsTrue F.tells_files → OnOk result (FindsThem topic channels.now (F.files folder.old)) }
        ensures back { IsTrue F.tells_files → OnOk result (FindsBack (F.files folder.old) (F.files folder.new)) }
        ensures same { OnErr result (self.new.hall.rooms.items ≡ self.old.hall.rooms.items) }
        ensures rest { self.new ≡ record (self.old) { hall = record (self.old.hall) { rooms = self.new.hall.rooms; pending = self.new.hall.pending } } }
        ensures refused { IsTrue F.tells_files → IfErr result (λ e. RefusesTopic topic channels.now (F.files folder.old) (F.files folder.new) e) }
        ensures files { IsTrue F.tells_files → OnlyTopicFiles topic (F.files folder.old) (F.files folder.new) }
        ensures faults { F.folder_faults folder.old ≤ F.folder_faults folder.new }
        ensures cause { IfErr result (λ e. OpenFails (F.folder_faults folder.old) (F.folder_faults folder.new) e) }
    {
        open_topic(&mut self.hall, topic, paused, channels, folder)
    }
}
