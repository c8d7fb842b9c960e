ghost use Rattle.std.specs.Prelude.{◌≡◌, not, IfOk};
ghost use Rattle.nsq_base.specs.Name.{is_ephemeral};
ghost use Rattle.nsq_outside.specs.Files.{Files};
ghost use Rattle.broker_history.specs.State.{State};
ghost use Rattle.broker_history.specs.Left.{kept_names};
ghost use Rattle.floor_rooms.specs.Standing.{HoldsFor};
ghost use Rattle.floor_rooms.specs.Kept.{hall_kept, room_kept, stall_kept};

use floor_rooms::{Hall, Room, Stall};
use names_file::{KeptChannel, KeptTopic};
use nsq_base::{Chan, Memory, Topic};
use std::alloc::Global;

/// The durable topics and channels with their pauses, in byte order. Want of memory is the only error.
pub fn kept(hall: &Hall, alloc: Global) -> Result<Vec<KeptTopic>, Memory>
    ensures value { IfOk result (λ kept. kept.items ≡ hall_kept hall.now) }
    ensures told { IfOk result (λ kept. (files : Files) (s : State) → HoldsFor hall.now files s → kept.items ≡ (kept_names s).topics) }
{
    let mut kept = Vec::new(alloc);
    'rooms: for room in &hall.rooms {
        if is_durable_topic(room.name()) {
            kept.push(kept_topic(alloc, room)?)?;
        }
    }
    Ok(kept)
}

// A topic as it is kept.
fn kept_topic(alloc: Global, room: &Room) -> Result<KeptTopic, Memory>
    ensures { IfOk result (λ topic. topic ≡ room_kept room.now) }
{
    let channels = kept_channels(alloc, room)?;
    Ok(KeptTopic {
        topic: room.name(),
        paused: room.queue.is_paused(),
        channels,
    })
}

// Its durable channels.
fn kept_channels(alloc: Global, room: &Room) -> Result<Vec<KeptChannel>, Memory>
    ensures { IfOk result (λ channels. channels.items ≡ (room_kept room.now).channels) }
{
    let mut channels = Vec::new(alloc);
    'stalls: for stall in &room.stalls {
        if is_durable_channel(stall.name()) {
            channels.push(kept_channel(stall))?;
        }
    }
    Ok(channels)
}

// A channel as it is kept.
fn kept_channel(stall: &Stall) -> KeptChannel
    ensures { result ≡ stall_kept stall.now }
{
    KeptChannel {
        channel: stall.name(),
        paused: stall.channel.is_paused(),
    }
}

// Whether a topic is kept on disk.
fn is_durable_topic(name: Topic) -> bool
    ensures { result ≡ not (is_ephemeral name) }
{
    !name.ephemeral()
}

// Whether a channel is kept on disk, where its topic is.
fn is_durable_channel(name: Chan) -> bool
    ensures { result ≡ not (is_ephemeral name) }
{
    !name.ephemeral()
}
