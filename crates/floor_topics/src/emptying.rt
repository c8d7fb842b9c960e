ghost use Rattle.std.specs.Prelude.{◌≡◌, ◌≤◌, ◌<◌, HoldsAt, IsTrue, None, Some, length};
ghost use Rattle.floor_rooms.specs.Changes.{AtRoom, AtStall, KeepsSince, OnlyQueueFiles};
ghost use Rattle.floor_rooms.specs.Kept.{NamesTold};
ghost use Rattle.floor_rooms.specs.Rooms.{channel_name, topic_name};
ghost use Rattle.floor_rooms.specs.Sound.{IsSound};
ghost use Rattle.floor_rooms.specs.Standing.{Carries};
ghost use Rattle.floor_topics.specs.Emptying.{EmptiesBy, EmptiesRoom, EmptiesStall, EmptyingFails};

use disk_queue::Emptied;
use floor_rooms::Hall;
use nsq_outside::Folder;

/// Drops the messages that wait in the topic at this place; one that was taken stays owed. After a fault all is as it was.
pub fn empty_topic<F: Folder>(hall: &mut Hall, i: usize, folder: &mut F) -> Emptied
    requires sound { IsSound hall.old }
    requires room { i < length hall.old.rooms.items }
    ensures told { IsTrue F.tells_files → HoldsAt (λ r. Carries hall.old (F.files folder.old) hall.new (F.files folder.new) (EmptiesBy result (topic_name r) None)) hall.old.rooms.items i }
    ensures rest { hall.new ≡ record hall.old { rooms = hall.new.rooms; unsaved_from = hall.new.unsaved_from } }
    ensures sound { IsSound hall.new }
    ensures names { NamesTold hall.old hall.new }
    ensures since { KeepsSince hall.old.moment hall.old.rooms.items hall.new.rooms.items }
    ensures files { IsTrue F.tells_files → OnlyQueueFiles (F.files folder.old) (F.files folder.new) }
    ensures faults { F.folder_faults folder.old ≤ F.folder_faults folder.new }
    ensures cause { EmptyingFails (F.folder_faults folder.old) (F.folder_faults folder.new) result }
{
    hall.mark_room(i);
    empty_room(hall, i, folder)
}

// One call of the topic's queue.
fn empty_room<F: Folder>(hall: &mut Hall, i: usize, folder: &mut F) -> Emptied
    requires sound { IsSound hall.old }
    requires room { i < length hall.old.rooms.items }
    ensures rest { hall.new ≡ record hall.old { rooms = hall.new.rooms } }
    ensures room { AtRoom i (EmptiesRoom F.tells_files result (F.files folder.old) (F.files folder.new)) hall.old.rooms.items hall.new.rooms.items }
    ensures faults { F.folder_faults folder.old ≤ F.folder_faults folder.new }
    ensures cause { EmptyingFails (F.folder_faults folder.old) (F.folder_faults folder.new) result }
{
    hall.rooms[i].queue.empty(folder)
}

/// Drops all copies of the channel at this place of a topic, those in flight and deferred ones too. After a fault all is as it was.
pub fn empty_channel<F: Folder>(hall: &mut Hall, i: usize, j: usize, folder: &mut F) -> Emptied
    requires sound { IsSound hall.old }
    requires room { i < length hall.old.rooms.items }
    requires stall { HoldsAt (λ r. j < length r.stalls.items) hall.old.rooms.items i }
    ensures told { IsTrue F.tells_files → HoldsAt (λ r. HoldsAt (λ x. Carries hall.old (F.files folder.old) hall.new (F.files folder.new) (EmptiesBy result (topic_name r) (Some (channel_name x)))) r.stalls.items j) hall.old.rooms.items i }
    ensures rest { hall.new ≡ record hall.old { rooms = hall.new.rooms; unsaved_from = hall.new.unsaved_from; quiet_until = hall.new.quiet_until } }
    ensures sound { IsSound hall.new }
    ensures names { NamesTold hall.old hall.new }
    ensures since { KeepsSince hall.old.moment hall.old.rooms.items hall.new.rooms.items }
    ensures files { IsTrue F.tells_files → OnlyQueueFiles (F.files folder.old) (F.files folder.new) }
    ensures faults { F.folder_faults folder.old ≤ F.folder_faults folder.new }
    ensures cause { EmptyingFails (F.folder_faults folder.old) (F.folder_faults folder.new) result }
{
    hall.mark_stall(i, j);
    let emptied = empty_stall(hall, i, j, folder);
    hall.settle_stall(i, j);
    emptied
}

// One call of the channel's.
fn empty_stall<F: Folder>(hall: &mut Hall, i: usize, j: usize, folder: &mut F) -> Emptied
    requires sound { IsSound hall.old }
    requires room { i < length hall.old.rooms.items }
    requires stall { HoldsAt (λ r. j < length r.stalls.items) hall.old.rooms.items i }
    ensures rest { hall.new ≡ record hall.old { rooms = hall.new.rooms } }
    ensures stall { AtStall i j (EmptiesStall F.tells_files result (F.files folder.old) (F.files folder.new) (F.folder_faults folder.old) (F.folder_faults folder.new)) hall.old.rooms.items hall.new.rooms.items }
    ensures cause { EmptyingFails (F.folder_faults folder.old) (F.folder_faults folder.new) result }
{
    hall.rooms[i].stalls[j].channel.empty(folder)
}
