ghost use Rattle.std.specs.Prelude.{◌≡◌, ◌<◌, false, HoldsAt, IfOk, OnErr, OnOk, length};
ghost use Rattle.std.specs.List.{Contains};
ghost use Rattle.nsq_base.specs.Options.{IsInRange};
ghost use Rattle.nsq_base.specs.Places.{BelongsAt, StandsAt};
ghost use Rattle.nsq_outside.specs.Files.{Files};
ghost use Rattle.v2_frame.specs.declared.command.Command.TheVariants.{Sub};
ghost use Rattle.broker_history.specs.Step.{spoke, subscribed};
ghost use Rattle.floor_rooms.specs.Changes.{KeepsSince};
ghost use Rattle.floor_rooms.specs.Kept.{NamesTold};
ghost use Rattle.floor_rooms.specs.Rooms.{channel_name, topic_name};
ghost use Rattle.floor_rooms.specs.Sound.{IsSound};
ghost use Rattle.floor_rooms.specs.Standing.{Carries};
ghost use Rattle.floor_topics.specs.Seating.{IsFree};
ghost use Rattle.floor_acts.specs.Acts.{ChangesAt, DoesAt};
ghost use Rattle.floor_calls.specs.Subscribing.{IsAsItWas, IsPeopled, IsSeated, Joins, Remains};

use floor_acts::speak;
use floor_rooms::{Hall, Room, Stall};
use floor_topics::seat_in;
use nsq_base::{Chan, Memory, Topic};

/// The client at a place, which has no channel yet, gave a SUB that is accepted: topic and channel are made where they aren't there, in one step
/// with its coming, it is one of the channel's clients from now on, it spoke at the hall's moment, and the topic stands among those that may have
/// something to take or to pay. After Memory, the only error, all is as it was.
pub fn subscribe(hall: &mut Hall, k: usize, topic: Topic, channel: Chan) -> Result<(), Memory>
    requires sound { IsSound hall.old }
    requires client { k < length hall.old.clients.items }
    requires free { HoldsAt IsFree hall.old.clients.items k }
    ensures told { (files : Files) → OnOk result (DoesAt k (Sub topic channel) false hall.old files hall.new files) }
    ensures stays { (files : Files) → OnErr result (Carries hall.old files hall.new files (λ s t. t ≡ s)) }
    ensures clients { OnOk result (ChangesAt k (λ c. subscribed topic channel (spoke hall.old.moment c)) hall.old.clients.items hall.new.clients.items) }
    ensures listed { OnOk result (Contains hall.new.pending.items topic) }
    ensures unchanged { OnErr result (IsAsItWas hall.old hall.new) }
    ensures rest { hall.new ≡ record hall.old { rooms = hall.new.rooms; clients = hall.new.clients; pending = hall.new.pending; unsaved_names = hall.new.unsaved_names } }
    ensures sound { IsSound hall.new }
    ensures names { NamesTold hall.old hall.new }
    ensures since { KeepsSince hall.old.moment hall.old.rooms.items hall.new.rooms.items }
{
    join(hall, k, topic, channel)?;
    speak(hall, k);
    Ok(())
}

// The client at a place has the channel of these names from now on, which is made with its topic where they aren't there.
fn join(hall: &mut Hall, k: usize, topic: Topic, channel: Chan) -> Result<(), Memory>
    requires sound { IsSound hall.old }
    requires client { k < length hall.old.clients.items }
    requires free { HoldsAt IsFree hall.old.clients.items k }
    ensures rest { hall.new ≡ record hall.old { rooms = hall.new.rooms; clients = hall.new.clients; pending = hall.new.pending; unsaved_names = hall.new.unsaved_names } }
    ensures joins { OnOk result (HoldsAt (Joins topic channel k hall.old hall.new) hall.old.clients.items k) }
    ensures remains { OnErr result (Remains hall.old hall.new) }
{
    match hall.place_of(topic) {
        Ok(i) => match hall.rooms[i].place_of(channel) {
            Ok(j) => join_stall(hall, k, i, j, topic, channel),
            Err(j) => join_room(hall, k, i, j, topic, channel),
        },
        Err(i) => join_hall(hall, k, i, topic, channel),
    }
}

// The same of a channel that is there.
fn join_stall(
    hall: &mut Hall,
    k: usize,
    i: usize,
    j: usize,
    topic: Topic,
    channel: Chan,
) -> Result<(), Memory>
    requires sound { IsSound hall.old }
    requires client { k < length hall.old.clients.items }
    requires free { HoldsAt IsFree hall.old.clients.items k }
    requires there { StandsAt topic_name hall.old.rooms.items topic i }
    requires stall { HoldsAt (λ r. StandsAt channel_name r.stalls.items channel j) hall.old.rooms.items i }
    ensures rest { hall.new ≡ record hall.old { rooms = hall.new.rooms; clients = hall.new.clients; pending = hall.new.pending; unsaved_names = hall.new.unsaved_names } }
    ensures joins { OnOk result (HoldsAt (Joins topic channel k hall.old hall.new) hall.old.clients.items k) }
    ensures remains { OnErr result (Remains hall.old hall.new) }
{
    hall.pending.reserve(1)?;
    let number = hall.clients[k].number();
    let timeout = hall.clients[k].timeout();
    seat_in(&mut hall.rooms[i].stalls[j], number, timeout)?;
    hall.clients[k].subscribe(topic, channel);
    hall.list_room(i);
    Ok(())
}

// The same of a channel that is made, of a topic that is there.
fn join_room(
    hall: &mut Hall,
    k: usize,
    i: usize,
    j: usize,
    topic: Topic,
    channel: Chan,
) -> Result<(), Memory>
    requires sound { IsSound hall.old }
    requires client { k < length hall.old.clients.items }
    requires free { HoldsAt IsFree hall.old.clients.items k }
    requires there { StandsAt topic_name hall.old.rooms.items topic i }
    requires place { HoldsAt (λ r. BelongsAt channel_name r.stalls.items channel j) hall.old.rooms.items i }
    ensures rest { hall.new ≡ record hall.old { rooms = hall.new.rooms; clients = hall.new.clients; pending = hall.new.pending; unsaved_names = hall.new.unsaved_names } }
    ensures joins { OnOk result (HoldsAt (Joins topic channel k hall.old hall.new) hall.old.clients.items k) }
    ensures remains { OnErr result (Remains hall.old hall.new) }
{
    hall.reserve_stall(i)?;
    let stall = seated_stall(hall, k, topic, channel)?;
    hall.add_stall(i, j, stall);
    hall.clients[k].subscribe(topic, channel);
    Ok(())
}

// The same of a channel that is made with its topic.
fn join_hall(hall: &mut Hall, k: usize, i: usize, topic: Topic, channel: Chan) -> Result<(), Memory>
    requires sound { IsSound hall.old }
    requires client { k < length hall.old.clients.items }
    requires free { HoldsAt IsFree hall.old.clients.items k }
    requires place { BelongsAt topic_name hall.old.rooms.items topic i }
    ensures rest { hall.new ≡ record hall.old { rooms = hall.new.rooms; clients = hall.new.clients; pending = hall.new.pending; unsaved_names = hall.new.unsaved_names } }
    ensures joins { OnOk result (HoldsAt (Joins topic channel k hall.old hall.new) hall.old.clients.items k) }
    ensures remains { OnErr result (Remains hall.old hall.new) }
{
    hall.reserve_room()?;
    let room = peopled_room(hall, k, topic, channel)?;
    hall.add_room(i, room);
    hall.clients[k].subscribe(topic, channel);
    hall.list_room(i);
    Ok(())
}

// A channel as it is made, but that it has the client at a place. Want of memory is the only error.
fn seated_stall(hall: &Hall, k: usize, topic: Topic, channel: Chan) -> Result<Stall, Memory>
    requires options { IsInRange hall.now.options }
    requires client { k < length hall.now.clients.items }
    ensures { IfOk result (λ s. HoldsAt (IsSeated topic channel hall.now.options s) hall.now.clients.items k) }
{
    let number = hall.clients[k].number();
    let timeout = hall.clients[k].timeout();
    let mut stall = hall.free_stall(topic, channel)?;
    let Ok(()) = seat_in(&mut stall, number, timeout) else {
        drop(stall);
        return Err(Memory);
    };
    Ok(stall)
}

// A topic as it is made, but that it has one channel, which has the client at a place. Want of memory is the only error.
fn peopled_room(hall: &Hall, k: usize, topic: Topic, channel: Chan) -> Result<Room, Memory>
    requires options { IsInRange hall.now.options }
    requires client { k < length hall.now.clients.items }
    ensures { IfOk result (λ r. HoldsAt (IsPeopled topic channel hall.now.options r) hall.now.clients.items k) }
{
    let mut stalls = Vec::new(hall.alloc);
    stalls.reserve(1)?;
    stalls.push_reserved(seated_stall(hall, k, topic, channel)?);
    let mut room = hall.free_room(topic)?;
    room.stalls = stalls;
    Ok(room)
}
