ghost use Rattle.std.specs.Prelude.{◌≡◌, ◌≤◌, Bool, ℕ, length};
ghost use Rattle.nsq_outside.specs.Files.{Files};
ghost use Rattle.broker_history.specs.declared.ask.Ask.TheVariants as ask;
ghost use Rattle.broker_history.specs.Calls.{CanAsk};
ghost use Rattle.floor_rooms.specs.Sound.{IsSound};
ghost use Rattle.floor_serving.specs.Carrying.{basis};
ghost use Rattle.floor_serving.specs.Asks.{CarriesAsk, pauses};

use crate::served::Served;
use disk_queue::Emptied;
use floor_calls::{
    Deleted, Lost, Published, are_left, create, delete_channel, delete_topic, empty_channel,
    empty_topic, pause, pause_channel, publish,
};
use floor_rooms::Hall;
use nsq_base::{Bodies, Chan, Memory, Topic};
use nsq_outside::Folder;

// Publishes what was asked, with a delay in nanoseconds, where ids are left for it.
pub(crate) fn serve_publish<F: Folder>(
    hall: &mut Hall,
    topic: Topic,
    delay: u64,
    bodies: Bodies,
    folder: &mut F,
    scratch: &mut [u8],
) -> Result<Served, Memory>
    requires sound { IsSound hall.old }
    requires can { CanAsk (ask.Publish topic delay bodies) }
    requires scratch { 16777242 ≤ length scratch.old }
    ensures { CarriesAsk F.tells_files (ask.Publish topic delay bodies) (basis hall.old (F.files folder.old) (F.folder_faults folder.old)) (basis hall.new (F.files folder.new) (F.folder_faults folder.new)) result }
{
    if !are_left(hall.ids_used, bodies.count() as u64) {
        drop(bodies);
        return Ok(Served::Done);
    }
    match publish(hall, topic, delay, bodies.spend(), folder, scratch) {
        Ok(Published::Done) => Ok(Served::Done),
        Ok(Published::Fault) => Ok(Served::Fault(0)),
        Err(_) => Err(Memory),
    }
}

// Statistics change nothing.
pub(crate) fn serve_nothing(
    hall: &mut Hall,
    topic: Option<Topic>,
    channel: Option<Chan>,
) -> Result<Served, Memory>
    requires { IsSound hall.old }
    ensures { (tells : Bool) (files : Files) (faults : ℕ) → CarriesAsk tells (ask.Stats topic channel) (basis hall.old files faults) (basis hall.new files faults) result }
{
    let _ = (hall.moment, topic, channel);
    Ok(Served::Done)
}

// Makes a topic, or a channel of one.
pub(crate) fn serve_creation(
    hall: &mut Hall,
    topic: Topic,
    channel: Option<Chan>,
) -> Result<Served, Memory>
    requires { IsSound hall.old }
    ensures { (tells : Bool) (files : Files) (faults : ℕ) → CarriesAsk tells (ask.Create topic channel) (basis hall.old files faults) (basis hall.new files faults) result }
{
    match create(hall, topic, channel) {
        Ok(()) => Ok(Served::Done),
        Err(_) => Err(Memory),
    }
}

// Deletes a topic, or a channel of one.
pub(crate) fn serve_deletion<F: Folder>(
    hall: &mut Hall,
    topic: Topic,
    channel: Option<Chan>,
    folder: &mut F,
) -> Result<Served, Memory>
    requires { IsSound hall.old }
    ensures { CarriesAsk F.tells_files (ask.Delete topic channel) (basis hall.old (F.files folder.old) (F.folder_faults folder.old)) (basis hall.new (F.files folder.new) (F.folder_faults folder.new)) result }
{
    match channel {
        None => match delete_topic(hall, topic, folder) {
            Deleted::Done => Ok(Served::Done),
            Deleted::Fault(count) => Ok(Served::Fault(count)),
        },
        Some(channel) => match delete_channel(hall, topic, channel, folder) {
            Lost::Done => Ok(Served::Done),
            Lost::Fault => Ok(Served::Fault(0)),
        },
    }
}

// Drops what waits in a topic, or all copies of a channel, where it is there.
pub(crate) fn serve_emptying<F: Folder>(
    hall: &mut Hall,
    topic: Topic,
    channel: Option<Chan>,
    folder: &mut F,
) -> Result<Served, Memory>
    requires { IsSound hall.old }
    ensures { CarriesAsk F.tells_files (ask.Empty topic channel) (basis hall.old (F.files folder.old) (F.folder_faults folder.old)) (basis hall.new (F.files folder.new) (F.folder_faults folder.new)) result }
{
    let Some(i) = hall.room_place(topic) else {
        return Ok(Served::Done);
    };
    let Some(channel) = channel else {
        return match empty_topic(hall, i, folder) {
            Emptied::Done => Ok(Served::Done),
            Emptied::Fault => Ok(Served::Fault(0)),
        };
    };
    let Some(j) = hall.stall_place(i, channel) else {
        return Ok(Served::Done);
    };
    match empty_channel(hall, i, j, folder) {
        Emptied::Done => Ok(Served::Done),
        Emptied::Fault => Ok(Served::Fault(0)),
    }
}

// Pauses a topic or a channel, or ends that, where it is there.
pub(crate) fn serve_pause(
    hall: &mut Hall,
    topic: Topic,
    channel: Option<Chan>,
    on: bool,
) -> Result<Served, Memory>
    requires { IsSound hall.old }
    ensures { (tells : Bool) (files : Files) (faults : ℕ) → CarriesAsk tells (pauses on topic channel) (basis hall.old files faults) (basis hall.new files faults) result }
{
    let Some(i) = hall.room_place(topic) else {
        return Ok(Served::Done);
    };
    let Some(channel) = channel else {
        return match pause(hall, i, on) {
            Ok(()) => Ok(Served::Done),
            Err(_) => Err(Memory),
        };
    };
    let Some(j) = hall.stall_place(i, channel) else {
        return Ok(Served::Done);
    };
    pause_channel(hall, i, j, on);
    Ok(Served::Done)
}
