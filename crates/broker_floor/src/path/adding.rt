ghost use Rattle.std.specs.Prelude.{◌≡◌, ◌≤◌, All, IfErr, IfOk, IsTrue, None, OnOk, [], false};
ghost use Rattle.nsq_base.specs.Name.{is_ephemeral};
ghost use Rattle.nsq_base.specs.Names.{IsAscendingBy};
ghost use Rattle.names_file.specs.Kept.{CanKeepAll};
ghost use Rattle.names_reading.specs.Durable.{AreDurable};
ghost use Rattle.floor_rooms.specs.Rooms.{room_in};
ghost use Rattle.broker_floor.specs.Floors.{faults_of, files_of, flushed_of, hall_of, held_of, kit_of};
ghost use Rattle.broker_floor.specs.Adding.{AddsOne, HasOthersOnly, IsAdded, IsNotAdded, IsNotOne, PutsTopic, pauses, why_of};

use crate::Floor;
use broker_history::Entry;
use daemon_endings::Why;
use names_file::{KeptChannel, KeptTopic};
use nsq_base::{Chan, Memory};
use nsq_outside::{Clock, Folder, Journal};
use queue_opening::Open;
use std::alloc::Global;

/// Adds these topics with their channels to a floor that has none, in their order. Refused, each queue's list is found as before.
pub(crate) fn add_topics<F: Folder, C: Clock, J: Journal<Entry>>(
    alloc: Global,
    floor: &mut Floor<F, C, J>,
    topics: &[KeptTopic],
) -> Result<(), Why>
    requires unflushed { flushed_of floor.old ≡ false }
    requires empty { (hall_of floor.old).rooms.items ≡ [] }
    requires can { CanKeepAll topics.now }
    requires durable { AreDurable topics.now }
    ensures added { OnOk result (IsAdded F.tells_files topics.now (held_of floor.old) (held_of floor.new) (files_of floor.old) (files_of floor.new) (faults_of floor.old) (faults_of floor.new)) }
    ensures refused { IfErr result (λ why. IsNotAdded why F.tells_files topics.now (files_of floor.old) (files_of floor.new) (faults_of floor.old) (faults_of floor.new)) }
    ensures clock { (kit_of floor.new).clock ≡ (kit_of floor.old).clock }
    ensures journal { (kit_of floor.new).journal ≡ (kit_of floor.old).journal }
    ensures faults { faults_of floor.old ≤ faults_of floor.new }
{
    'topics: for topic in topics {
        match add_topic(alloc, floor, topic) {
            Ok(()) => {}
            Err(why) => return Err(why),
        }
    }
    Ok(())
}

// Adds a topic with its channels, which are in byte order.
fn add_topic<F: Folder, C: Clock, J: Journal<Entry>>(
    alloc: Global,
    floor: &mut Floor<F, C, J>,
    topic: &KeptTopic,
) -> Result<(), Why>
    requires unflushed { flushed_of floor.old ≡ false }
    requires durable { is_ephemeral topic.now.name ≡ false }
    requires channels { All (λ c. is_ephemeral c.name ≡ false) topic.now.channels }
    requires order { IsAscendingBy (λ c. c.name) topic.now.channels }
    requires new { room_in (hall_of floor.old).rooms.items topic.now.name ≡ None }
    ensures adds { IsTrue F.tells_files → OnOk result (AddsOne topic.now (hall_of floor.old) (files_of floor.old) (hall_of floor.new) (files_of floor.new)) }
    ensures puts { OnOk result (PutsTopic topic.now.name (hall_of floor.old) (hall_of floor.new)) }
    ensures held { HasOthersOnly (held_of floor.old) (held_of floor.new) }
    ensures refused { IfErr result (λ why. IsNotOne why F.tells_files topic.now (files_of floor.old) (files_of floor.new) (faults_of floor.old) (faults_of floor.new)) }
    ensures clock { (kit_of floor.new).clock ≡ (kit_of floor.old).clock }
    ensures journal { (kit_of floor.new).journal ≡ (kit_of floor.old).journal }
    ensures faults { faults_of floor.old ≤ faults_of floor.new }
{
    let Ok(channels) = pauses_of(alloc, &topic.channels) else {
        return Err(Why::Memory);
    };
    match floor.add(topic.topic, topic.paused, &channels) {
        Ok(()) => Ok(()),
        Err(refusal) => Err(why_of(refusal)),
    }
}

// Each channel with its pause. Want of memory is the only error.
fn pauses_of(alloc: Global, channels: &[KeptChannel]) -> Result<Vec<(Chan, bool)>, Memory>
    ensures { IfOk result (λ list. list.items ≡ pauses channels.now) }
{
    let mut list = Vec::new(alloc);
    'channels: for channel in channels {
        list.push((channel.channel, channel.paused))?;
    }
    Ok(list)
}

// Why a folder isn't opened one of whose queues was refused.
fn why_of(refusal: Open) -> Why
    ensures { result ≡ why_of refusal }
{
    match refusal {
        Open::Fault => Why::Fault,
        Open::BadMeta => Why::BadData,
        Open::Memory => Why::Memory,
    }
}
