ghost use Rattle.std.specs.Prelude.{◌≡◌, ◌<◌, ◌||◌, not, HoldsAt, None, OnErr, OnOk, Some, length};
ghost use Rattle.nsq_base.specs.Name.{is_ephemeral};
ghost use Rattle.nsq_outside.specs.Files.{Files};
ghost use Rattle.broker_history.specs.Changes.{set_paused};
ghost use Rattle.broker_history.specs.State.{is_ephemeral_channel};
ghost use Rattle.floor_rooms.specs.Changes.{AtRoom, AtStall, KeepsSince};
ghost use Rattle.floor_rooms.specs.Kept.{NamesTold};
ghost use Rattle.floor_rooms.specs.Rooms.{channel_name, topic_name};
ghost use Rattle.floor_rooms.specs.Sound.{IsSound};
ghost use Rattle.floor_rooms.specs.Standing.{Carries};
ghost use Rattle.floor_topics.specs.Pausing.{PausesRoom, PausesStall};

use floor_rooms::Hall;
use nsq_base::{Memory, Topic};

/// Pauses the topic at this place, or lets it go on. That of a durable one is to be saved. Want of memory, the only error, leaves all as it is.
pub fn pause(hall: &mut Hall, i: usize, on: bool) -> Result<(), Memory>
    requires sound { IsSound hall.old }
    requires room { i < length hall.old.rooms.items }
    ensures paused { (files : Files) → OnOk result (HoldsAt (λ r. Carries hall.old files hall.new files (λ s t. t ≡ set_paused on s (topic_name r) None)) hall.old.rooms.items i) }
    ensures stays { (files : Files) → OnErr result (Carries hall.old files hall.new files (λ s t. t ≡ s)) }
    ensures unsaved { OnOk result (HoldsAt (λ r. hall.new.unsaved_names ≡ (hall.old.unsaved_names || not (is_ephemeral (topic_name r)))) hall.old.rooms.items i) }
    ensures none { OnErr result (hall.new.unsaved_names ≡ hall.old.unsaved_names) }
    ensures rest { hall.new ≡ record hall.old { rooms = hall.new.rooms; pending = hall.new.pending; unsaved_names = hall.new.unsaved_names } }
    ensures sound { IsSound hall.new }
    ensures names { NamesTold hall.old hall.new }
    ensures since { KeepsSince hall.old.moment hall.old.rooms.items hall.new.rooms.items }
{
    hall.reserve_room()?;
    hall.list_room(i);
    set_paused(hall, i, on);
    Ok(())
}

// Pauses a topic, or lets it go on.
fn set_paused(hall: &mut Hall, i: usize, on: bool)
    requires sound { IsSound hall.old }
    requires room { i < length hall.old.rooms.items }
    ensures rest { hall.new ≡ record hall.old { rooms = hall.new.rooms; unsaved_names = hall.new.unsaved_names } }
    ensures unsaved { HoldsAt (λ r. hall.new.unsaved_names ≡ (hall.old.unsaved_names || not (is_ephemeral (topic_name r)))) hall.old.rooms.items i }
    ensures room { AtRoom i (PausesRoom on) hall.old.rooms.items hall.new.rooms.items }
{
    hall.unsaved_names = also_durable(hall.unsaved_names, hall.rooms[i].name());
    hall.rooms[i].queue.pause(on);
}

// Whether names are unsaved, also where that of this topic is to be saved.
fn also_durable(unsaved: bool, topic: Topic) -> bool
    ensures { result ≡ (unsaved || not (is_ephemeral topic)) }
{
    if unsaved {
        return true;
    }
    !topic.ephemeral()
}

/// Pauses the channel at this place of a topic, or lets it go on. That of a durable one is to be saved.
pub fn pause_channel(hall: &mut Hall, i: usize, j: usize, on: bool)
    requires sound { IsSound hall.old }
    requires room { i < length hall.old.rooms.items }
    requires stall { HoldsAt (λ r. j < length r.stalls.items) hall.old.rooms.items i }
    ensures paused { (files : Files) → HoldsAt (λ r. HoldsAt (λ x. Carries hall.old files hall.new files (λ s t. t ≡ set_paused on s (topic_name r) (Some (channel_name x)))) r.stalls.items j) hall.old.rooms.items i }
    ensures unsaved { HoldsAt (λ r. HoldsAt (λ x. hall.new.unsaved_names ≡ (hall.old.unsaved_names || not (is_ephemeral_channel (topic_name r) (channel_name x)))) r.stalls.items j) hall.old.rooms.items i }
    ensures rest { hall.new ≡ record hall.old { rooms = hall.new.rooms; unsaved_names = hall.new.unsaved_names } }
    ensures sound { IsSound hall.new }
    ensures names { NamesTold hall.old hall.new }
    ensures since { KeepsSince hall.old.moment hall.old.rooms.items hall.new.rooms.items }
{
    hall.unsaved_names = also_durable_at(hall, i, j);
    pause_stall(hall, i, j, on);
}

// One call of the channel's.
fn pause_stall(hall: &mut Hall, i: usize, j: usize, on: bool)
    requires room { i < length hall.old.rooms.items }
    requires stall { HoldsAt (λ r. j < length r.stalls.items) hall.old.rooms.items i }
    ensures rest { hall.new ≡ record hall.old { rooms = hall.new.rooms } }
    ensures stall { AtStall i j (PausesStall on) hall.old.rooms.items hall.new.rooms.items }
{
    hall.rooms[i].stalls[j].channel.pause(on);
}

// Whether names are unsaved, also where that of the channel at this place is to be saved.
fn also_durable_at(hall: &Hall, i: usize, j: usize) -> bool
    requires room { i < length hall.now.rooms.items }
    requires stall { HoldsAt (λ r. j < length r.stalls.items) hall.now.rooms.items i }
    ensures { HoldsAt (λ r. HoldsAt (λ x. result ≡ (hall.now.unsaved_names || not (is_ephemeral_channel (topic_name r) (channel_name x)))) r.stalls.items j) hall.now.rooms.items i }
{
    if hall.unsaved_names {
        return true;
    }
    let room = &hall.rooms[i];
    if room.name().ephemeral() {
        return false;
    }
    !room.stalls[j].name().ephemeral()
}
