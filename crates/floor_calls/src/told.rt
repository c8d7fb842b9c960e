ghost use Rattle.std.specs.Prelude.{◌≡◌, ◌<◌, All, AllPairs, IfOk, IsSome, filter};
ghost use Rattle.nsq_outside.specs.Files.{Files};
ghost use Rattle.path_image.specs.Found.{Pairwise};
ghost use Rattle.broker_history.specs.State.{State, has_channel};
ghost use Rattle.broker_history.specs.Said.{Tells, is_wanted};
ghost use Rattle.floor_rooms.specs.Rooms.{channel_name, client_in, topic_name};
ghost use Rattle.floor_rooms.specs.Sound.{AreMembers, IsRoomSound, IsSound, IsStallSound};
ghost use Rattle.floor_rooms.specs.Standing.{HoldsFor};
ghost use Rattle.floor_calls.specs.Stats.{IsToldOfClient, IsToldOfNumber, IsToldOfRoom, IsToldOfStall};

use broker_history::{ChannelStats, ClientStats, Items, Stats, TopicStats};
use floor_acts::find_client;
use floor_rooms::{Hall, Room, Stall};
use nsq_base::{Chan, Memory, Topic};
use std::alloc::Global;

/// The statistics, of the topic that is asked for or of all, and in each of the channel that is asked for or of all. Want of memory is the
/// only error.
pub fn stats(
    hall: &Hall,
    alloc: Global,
    topic: Option<Topic>,
    channel: Option<Chan>,
) -> Result<Stats, Memory>
    requires { IsSound hall.now }
    ensures { IfOk result (λ stats. (files : Files) (s : State) → HoldsFor hall.now files s → Tells s topic channel stats) }
{
    let mut topics = Items::new(alloc);
    'rooms: for room in &hall.rooms {
        if is_wanted_topic(topic, room.queue.name()) {
            topics.push(topic_stats(hall, alloc, room, channel)?)?;
        }
    }
    Ok(Stats { topics })
}

// What is told of a topic of the hall.
fn topic_stats(
    hall: &Hall,
    alloc: Global,
    room: &Room,
    channel: Option<Chan>,
) -> Result<TopicStats, Memory>
    requires sound { IsSound hall.now }
    requires room { IsRoomSound hall.now room.now }
    requires members { All (AreMembers hall.now.clients.items (topic_name room.now)) room.now.stalls.items }
    ensures { IfOk result (IsToldOfRoom hall.now channel room.now) }
{
    let depths = room.queue.depths();
    Ok(TopicStats {
        backend_depth: depths.disk,
        channels: channels_stats(hall, alloc, room, channel)?,
        depth: u128::from(depths.ring) + depths.disk,
        message_count: room.queue.message_count(),
        paused: room.queue.is_paused(),
        topic_name: room.queue.name(),
    })
}

// What is told of its channels.
fn channels_stats(
    hall: &Hall,
    alloc: Global,
    room: &Room,
    channel: Option<Chan>,
) -> Result<Items<ChannelStats>, Memory>
    requires sound { IsSound hall.now }
    requires room { IsRoomSound hall.now room.now }
    requires members { All (AreMembers hall.now.clients.items (topic_name room.now)) room.now.stalls.items }
    ensures { IfOk result (λ told. Pairwise (IsToldOfStall hall.now (topic_name room.now)) (filter (λ x. is_wanted channel (channel_name x)) room.now.stalls.items) told) }
{
    let topic = room.queue.name();
    let mut told = Items::new(alloc);
    'stalls: for stall in &room.stalls {
        if is_wanted_channel(channel, stall.channel.name()) {
            told.push(channel_stats(hall, alloc, topic, stall)?)?;
        }
    }
    Ok(told)
}

// What is told of a channel.
fn channel_stats(
    hall: &Hall,
    alloc: Global,
    topic: Topic,
    stall: &Stall,
) -> Result<ChannelStats, Memory>
    requires sound { IsSound hall.now }
    requires stall { IsStallSound hall.now.options topic hall.now.quiet_until hall.now.unsaved_from stall.now }
    requires members { AreMembers hall.now.clients.items topic stall.now }
    ensures { IfOk result (IsToldOfStall hall.now topic stall.now) }
{
    let counts = stall.channel.counts();
    Ok(ChannelStats {
        backend_depth: counts.backend_depth,
        channel_name: stall.channel.name(),
        clients: clients_stats(hall, alloc, topic, stall)?,
        deferred_count: counts.deferred_count,
        depth: counts.depth,
        in_flight_count: counts.in_flight_count,
        message_count: counts.message_count,
        paused: stall.channel.is_paused(),
        requeue_count: counts.requeue_count,
        timeout_count: counts.timeout_count,
    })
}

// What is told of a channel's clients.
fn clients_stats(
    hall: &Hall,
    alloc: Global,
    topic: Topic,
    stall: &Stall,
) -> Result<Items<ClientStats>, Memory>
    requires sound { IsSound hall.now }
    requires order { AllPairs (λ a b. a < b) stall.now.members.items }
    requires members { AreMembers hall.now.clients.items topic stall.now }
    ensures { IfOk result (Pairwise (IsToldOfClient stall.now) (filter (has_channel topic (channel_name stall.now)) hall.now.clients.items)) }
{
    let mut told = Items::new(alloc);
    'members: for number in &stall.members {
        told.push(client_stats(hall, alloc, stall, *number)?)?;
    }
    Ok(told)
}

// What is told of a client of a channel, by its number.
fn client_stats(
    hall: &Hall,
    alloc: Global,
    stall: &Stall,
    number: u64,
) -> Result<ClientStats, Memory>
    requires sound { IsSound hall.now }
    requires there { IsSome (client_in hall.now.clients.items number) }
    ensures { IfOk result (IsToldOfNumber hall.now.clients.items stall.now number) }
{
    let Some(client) = find_client(hall, number) else {
        unreachable!()
    };
    let flying = stall.channel.in_flight(number);
    Ok(client.tells(alloc, flying)?)
}

// Whether the topic is the one that is asked for, or none is.
fn is_wanted_topic(wanted: Option<Topic>, name: Topic) -> bool
    ensures { result ≡ is_wanted wanted name }
{
    match wanted {
        Some(topic) => topic == name,
        None => true,
    }
}

// Whether the channel is the one that is asked for, or none is.
fn is_wanted_channel(wanted: Option<Chan>, name: Chan) -> bool
    ensures { result ≡ is_wanted wanted name }
{
    match wanted {
        Some(channel) => channel == name,
        None => true,
    }
}
