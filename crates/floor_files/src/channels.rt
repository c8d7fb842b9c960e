ghost use Rattle.std.specs.Prelude.{◌≡◌, ◌<◌, ◌≤◌, All, IfErr, IfOk, IsTrue, List, None, OnOk, [], false, length, vec_capacity, vec_len};
ghost use Rattle.std.specs.List.{insert};
ghost use Rattle.nsq_base.specs.Name.{is_ephemeral};
ghost use Rattle.nsq_base.specs.Names.{IsAscendingBy};
ghost use Rattle.nsq_base.specs.Options.{IsInRange};
ghost use Rattle.nsq_base.specs.Places.{BelongsAt};
ghost use Rattle.queue_opening.specs.Refusals.{OpenFails};
ghost use Rattle.disk_queue.specs.Opened.{FilesOfChange};
ghost use Rattle.v2_frame.specs.declared.message.Message.{Message};
ghost use Rattle.path_image.specs.Found.{HasMessages};
ghost use Rattle.backlog.specs.Lists.{IsFoundAgain, OpenRefused};
ghost use Rattle.broker_history.specs.Found.{started_channel};
ghost use Rattle.topic_core.specs.Kept.{IsNamed};
ghost use Rattle.channel_core.specs.Seen.{queue_name};
ghost use Rattle.floor_rooms.specs.Rooms.{channel_name, put_stall, stall_in};
ghost use Rattle.floor_rooms.specs.Standing.{IsStallOf};
ghost use Rattle.floor_files.specs.Opened.{AreApart, HasOpened, IsOpenedStall, LeavesFound, ListsStay, OnlyChannelFiles, OnlyTopicFiles, RefusesChannel};

use channel_core::Channel;
use floor_rooms::{Hall, Room, Stall};
use nsq_base::{Chan, Memory, Topic};
use nsq_outside::Folder;
use queue_opening::Open;

/// Opens the queues of these durable channels of a durable topic, each with its pause, into the topic, which has none yet. Errors are those of
/// `Channel::open`; the channels that were opened before stay in the topic then. Requires that the channels' names differ.
pub fn open_channels<F: Folder>(
    hall: &Hall,
    room: &mut Room,
    topic: Topic,
    channels: &[(Chan, bool)],
    folder: &mut F,
) -> Result<(), Open>
    requires options { IsInRange hall.now.options }
    requires durable { is_ephemeral topic ≡ false }
    requires channels { All (λ c. is_ephemeral c.0 ≡ false) channels.now }
    requires apart { AreApart channels.now }
    requires named { IsNamed topic room.old.queue.backlog }
    requires empty { room.old.stalls.items ≡ [] }
    ensures opened { OnOk result (HasOpened F.tells_files hall.now.options topic channels.now (F.files folder.old) (F.files folder.new) (F.folder_faults folder.old) (F.folder_faults folder.new) room.old room.new) }
    ensures leaves { IsTrue F.tells_files → OnOk result (LeavesFound topic channels.now (F.files folder.old) (F.files folder.new)) }
    ensures again { IsTrue F.tells_files → ListsStay (F.files folder.old) (F.files folder.new) }
    ensures theirs { IsTrue F.tells_files → OnlyChannelFiles topic channels.now (F.files folder.old) (F.files folder.new) }
    ensures refused { IsTrue F.tells_files → IfErr result (λ e. RefusesChannel topic channels.now (F.files folder.old) (F.files folder.new) e) }
    ensures files { IsTrue F.tells_files → OnlyTopicFiles topic (F.files folder.old) (F.files folder.new) }
    ensures faults { F.folder_faults folder.old ≤ F.folder_faults folder.new }
    ensures cause { IfErr result (λ e. OpenFails (F.folder_faults folder.old) (F.folder_faults folder.new) e) }
{
    let _ = topic.bytes();
    'channels: for item in channels {
        let (channel, paused) = *item;
        let stall = open_stall(hall, topic, channel, paused, folder)?;
        put_stall(room, stall)?;
    }
    Ok(())
}

// Opens the queue of a durable channel. Errors are those of `Channel::open`.
fn open_stall<F: Folder>(
    hall: &Hall,
    topic: Topic,
    channel: Chan,
    paused: bool,
    folder: &mut F,
) -> Result<Stall, Open>
    requires options { IsInRange hall.now.options }
    requires durable { is_ephemeral topic ≡ false }
    requires also { is_ephemeral channel ≡ false }
    ensures stall { IfOk result (IsOpenedStall hall.now.options topic) }
    ensures named { IfOk result (λ s. channel_name s ≡ channel) }
    ensures told { IsTrue F.tells_files → IfOk result (λ s. (messages : List Message) → HasMessages (F.files folder.old) (queue_name topic channel) messages → IsStallOf (F.files folder.new) s (started_channel (record { name = channel; paused = paused; messages = messages }))) }
    ensures again { IsTrue F.tells_files → OnOk result (IsFoundAgain (queue_name topic channel) (F.files folder.old) (F.files folder.new)) }
    ensures refused { IsTrue F.tells_files → IfErr result (λ e. OpenRefused (queue_name topic channel) (F.files folder.old) (F.files folder.new) e) }
    ensures others { IsTrue F.tells_files → FilesOfChange (queue_name topic channel) (F.files folder.old) (F.files folder.new) }
    ensures faults { F.folder_faults folder.old ≤ F.folder_faults folder.new }
    ensures cause { IfErr result (λ e. OpenFails (F.folder_faults folder.old) (F.folder_faults folder.new) e) }
{
    let _ = channel.bytes();
    let mut opened = Channel::open(hall.alloc, folder, topic, channel, &hall.options)?;
    opened.pause(paused);
    Ok(Stall {
        channel: opened,
        since: None,
        members: Vec::new(hall.alloc),
    })
}

// Puts a channel into a topic where it belongs. Want of memory is the only error. Requires that the topic has none of its name.
fn put_stall(room: &mut Room, stall: Stall) -> Result<(), Memory>
    requires order { IsAscendingBy channel_name room.old.stalls.items }
    requires new { stall_in room.old.stalls.items (channel_name stall) ≡ None }
    ensures rest { room.new ≡ record room.old { stalls = room.new.stalls } }
    ensures ok { OnOk result (room.new.stalls.items ≡ put_stall room.old.stalls.items stall) }
{
    match room.place_of(stall.name()) {
        Ok(_) => unreachable!(),
        Err(j) => insert_stall(room, j, stall),
    }
}

// Puts a channel into a topic at the place where it belongs. Want of memory is the only error.
fn insert_stall(room: &mut Room, j: usize, stall: Stall) -> Result<(), Memory>
    requires { BelongsAt channel_name room.old.stalls.items (channel_name stall) j }
    ensures rest { room.new ≡ record room.old { stalls = room.new.stalls } }
    ensures ok { OnOk result (room.new.stalls.items ≡ put_stall room.old.stalls.items stall) }
{
    let Ok(()) = room.stalls.reserve(1) else {
        drop(stall);
        return Err(Memory);
    };
    put_in(&mut room.stalls, j, stall);
    Ok(())
}

// Puts an item in at a place. It knows nothing of its items, so that its proof opens none. Requires that there is room for one more.
fn put_in<T: Drop>(items: &mut Vec<T>, i: usize, item: T)
    requires place { i ≤ length items.old.items }
    requires space { vec_len items.old < vec_capacity items.old }
    ensures { items.new.items ≡ insert items.old.items i item }
{
    let Ok(()) = items.insert(i, item) else {
        unreachable!()
    };
}
