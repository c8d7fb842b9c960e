ghost use Rattle.std.specs.Prelude.{◌≡◌, ◌⊎◌, ◌≤◌, ◌<◌, All, HoldsAt, IsTrue, length};
ghost use Rattle.nsq_outside.specs.Causes.{Rose};
ghost use Rattle.floor_rooms.specs.Changes.{AtRoom, AtStall, OnlyQueueFiles};
ghost use Rattle.floor_rooms.specs.Kept.{NamesTold, hall_kept};
ghost use Rattle.floor_rooms.specs.Sound.{IsSound};
ghost use Rattle.floor_rooms.specs.Standing.{Carries};
ghost use Rattle.floor_files.specs.Timely.{IsEarly, IsTimely, IsTried};
ghost use Rattle.floor_files.specs.Saving.{ClearsRooms, IsRoomDone, IsSoon, MarksGo, SavesRoom, SavesStall, Synced};

use crate::marks::{is_lately, save_room, save_stall};
use floor_rooms::Hall;
use nsq_outside::Folder;

/// Saves each queue that has been marked as unsaved for the options' sync timeout or longer, in nanoseconds up to the hall's moment, and no other, as
/// far as the folder doesn't fail: one that is saved is marked no more, and one whose save failed keeps its mark and keeps no other from being saved,
/// which only the folder's count of faults tells. Where none is due that costs one comparison. It takes no memory.
pub fn sync_all<F: Folder>(hall: &mut Hall, folder: &mut F)
    requires { IsSound hall.old }
    ensures timely { IsTimely hall.new ⊎ Rose (F.folder_faults folder.old) (F.folder_faults folder.new) }
    ensures tried { IsTried hall.new }
    ensures soon { IsEarly hall.new ⊎ Rose (F.folder_faults folder.old) (F.folder_faults folder.new) }
    ensures idle { IsEarly hall.old → (hall.new ≡ hall.old) × (folder.new ≡ folder.old) }
    ensures told { IsTrue F.tells_files → Carries hall.old (F.files folder.old) hall.new (F.files folder.new) (λ s t. t ≡ s) }
    ensures rest { hall.new ≡ record hall.old { rooms = hall.new.rooms; unsaved_from = hall.new.unsaved_from } }
    ensures rooms { ClearsRooms hall.old.moment hall.old.options.sync_timeout hall.old.rooms.items hall.new.rooms.items }
    ensures marks { MarksGo hall.old.rooms.items hall.new.rooms.items }
    ensures kept { hall_kept hall.new ≡ hall_kept hall.old }
    ensures names { NamesTold hall.old hall.new }
    ensures sound { IsSound hall.new }
    ensures files { IsTrue F.tells_files → OnlyQueueFiles (F.files folder.old) (F.files folder.new) }
    ensures faults { F.folder_faults folder.old ≤ F.folder_faults folder.new }
{
    if is_lately(hall.unsaved_from, hall.moment, hall.options.sync_timeout) {
        return;
    }
    let least = sync_rooms(hall, folder);
    hall.unsaved_from = least;
}

// Saves the queues of all topics, and answers the least mark that is left.
fn sync_rooms<F: Folder>(hall: &mut Hall, folder: &mut F) -> u64
    requires { IsSound hall.old }
    ensures synced { Synced F.tells_files hall.old hall.new (F.files folder.old) (F.files folder.new) (F.folder_faults folder.old) (F.folder_faults folder.new) }
    ensures done { All (IsRoomDone hall.old.moment hall.old.options.sync_timeout result (F.folder_faults folder.old) (F.folder_faults folder.new)) hall.new.rooms.items }
    ensures soon { IsSoon hall.old.moment hall.old.options.sync_timeout result (F.folder_faults folder.old) (F.folder_faults folder.new) }
{
    let mut least = u64::MAX;
    let count = hall.rooms.len();
    for i in 0..count {
        let left = sync_room(hall, i, folder);
        least = least.min(left);
    }
    least
}

// Saves the queues of the topic at this place, its own and its channels', and answers the least mark that is left.
fn sync_room<F: Folder>(hall: &mut Hall, i: usize, folder: &mut F) -> u64
    requires sound { IsSound hall.old }
    requires room { i < length hall.old.rooms.items }
    ensures synced { Synced F.tells_files hall.old hall.new (F.files folder.old) (F.files folder.new) (F.folder_faults folder.old) (F.folder_faults folder.new) }
    ensures room { AtRoom i (λ a b. IsRoomDone hall.old.moment hall.old.options.sync_timeout result (F.folder_faults folder.old) (F.folder_faults folder.new) b) hall.old.rooms.items hall.new.rooms.items }
    ensures soon { IsSoon hall.old.moment hall.old.options.sync_timeout result (F.folder_faults folder.old) (F.folder_faults folder.new) }
{
    let mut least = sync_topic(hall, i, folder);
    let count = hall.rooms[i].stalls.len();
    for j in 0..count {
        let left = sync_channel(hall, i, j, folder);
        least = least.min(left);
    }
    least
}

// Saves the queue of the topic at this place, where it is due.
fn sync_topic<F: Folder>(hall: &mut Hall, i: usize, folder: &mut F) -> u64
    requires sound { IsSound hall.old }
    requires room { i < length hall.old.rooms.items }
    ensures rest { hall.new ≡ record hall.old { rooms = hall.new.rooms } }
    ensures room { AtRoom i (SavesRoom F.tells_files hall.old.moment hall.old.options.sync_timeout result (F.files folder.old) (F.files folder.new) (F.folder_faults folder.old) (F.folder_faults folder.new)) hall.old.rooms.items hall.new.rooms.items }
{
    let at = hall.moment;
    let timeout = hall.options.sync_timeout;
    save_room(&mut hall.rooms[i], folder, at, timeout)
}

// Saves the queue of the channel at this place, where it is due.
fn sync_channel<F: Folder>(hall: &mut Hall, i: usize, j: usize, folder: &mut F) -> u64
    requires sound { IsSound hall.old }
    requires room { i < length hall.old.rooms.items }
    requires stall { HoldsAt (λ r. j < length r.stalls.items) hall.old.rooms.items i }
    ensures rest { hall.new ≡ record hall.old { rooms = hall.new.rooms } }
    ensures stall { AtStall i j (SavesStall F.tells_files hall.old.moment hall.old.options.sync_timeout result (F.files folder.old) (F.files folder.new) (F.folder_faults folder.old) (F.folder_faults folder.new)) hall.old.rooms.items hall.new.rooms.items }
{
    let at = hall.moment;
    let timeout = hall.options.sync_timeout;
    save_stall(&mut hall.rooms[i].stalls[j], folder, at, timeout)
}
