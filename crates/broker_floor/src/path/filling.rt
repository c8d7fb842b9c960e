ghost use Rattle.std.specs.Prelude.{◌≡◌, ◌≤◌, IfErr, IsTrue, OnOk, [], false};
ghost use Rattle.queue_files.specs.Replaced.{OnlyTwoChange};
ghost use Rattle.path_image.specs.Data.{data_name, temp_name};
ghost use Rattle.names_file.specs.Kept.{CanKeepAll};
ghost use Rattle.names_reading.specs.Durable.{AreDurable};
ghost use Rattle.broker_history.specs.State.{State};
ghost use Rattle.floor_rooms.specs.Standing.{HoldsFor};
ghost use Rattle.broker_floor.specs.Floors.{faults_of, files_of, flushed_of, hall_of, held_of, kit_of};
ghost use Rattle.broker_floor.specs.Adding.{HasNames, IsFilled, IsNotFilled, IsNotSaved};

use crate::Floor;
use crate::path::adding::add_topics;
use broker_history::Entry;
use daemon_endings::Why;
use names_file::{KeptTopic, LONGEST_NAMES, NAMES, NAMES_TEMP, write_names};
use nsq_outside::{Clock, Did, Folder, Journal};
use std::alloc::Global;

/// Adds these topics with their channels to a floor that has none, and then writes the file of names with the floor's epoch and these topics, durably.
pub(crate) fn fill<F: Folder, C: Clock, J: Journal<Entry>>(
    alloc: Global,
    floor: &mut Floor<F, C, J>,
    topics: &[KeptTopic],
) -> Result<(), Why>
    requires unflushed { flushed_of floor.old ≡ false }
    requires empty { (hall_of floor.old).rooms.items ≡ [] }
    requires can { CanKeepAll topics.now }
    requires durable { AreDurable topics.now }
    ensures filled { OnOk result (IsFilled F.tells_files topics.now (held_of floor.old) (held_of floor.new) (files_of floor.old) (files_of floor.new)) }
    ensures refused { IfErr result (λ why. IsNotFilled why F.tells_files topics.now (hall_of floor.old).epoch (files_of floor.old) (files_of floor.new) (faults_of floor.old) (faults_of floor.new)) }
    ensures clock { (kit_of floor.new).clock ≡ (kit_of floor.old).clock }
    ensures journal { (kit_of floor.new).journal ≡ (kit_of floor.old).journal }
    ensures faults { faults_of floor.old ≤ faults_of floor.new }
{
    match add_topics(alloc, floor, topics) {
        Ok(()) => save(alloc, floor, topics),
        Err(why) => Err(why),
    }
}

// Writes the file of names with the floor's epoch and these topics, durably, by way of its temporary.
fn save<F: Folder, C: Clock, J: Journal<Entry>>(
    alloc: Global,
    floor: &mut Floor<F, C, J>,
    topics: &[KeptTopic],
) -> Result<(), Why>
    requires can { CanKeepAll topics.now }
    ensures saved { IsTrue F.tells_files → OnOk result (HasNames (files_of floor.new) (hall_of floor.old).epoch topics.now) }
    ensures refused { IfErr result (λ why. IsNotSaved why F.tells_files topics.now (hall_of floor.old).epoch (files_of floor.old) (files_of floor.new) (faults_of floor.old) (faults_of floor.new)) }
    ensures stands { IsTrue F.tells_files → flushed_of floor.old ≡ false → (s : State) → HoldsFor (hall_of floor.old) (files_of floor.old) s → HoldsFor (hall_of floor.new) (files_of floor.new) s }
    ensures others { IsTrue F.tells_files → OnlyTwoChange (files_of floor.old) (files_of floor.new) data_name temp_name }
    ensures held { held_of floor.new ≡ held_of floor.old }
    ensures clock { (kit_of floor.new).clock ≡ (kit_of floor.old).clock }
    ensures journal { (kit_of floor.new).journal ≡ (kit_of floor.old).journal }
    ensures faults { faults_of floor.old ≤ faults_of floor.new }
{
    let mut text = Vec::new(alloc);
    let Ok(()) = write_names(alloc, floor.epoch(), topics, &mut text) else {
        return Err(Why::Memory);
    };
    if text.len() > LONGEST_NAMES {
        return Err(Why::Memory);
    }
    match floor.store(NAMES, NAMES_TEMP, &text) {
        Did::Done => Ok(()),
        Did::Failed => Err(Why::Fault),
    }
}
