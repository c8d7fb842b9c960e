ghost use Rattle.std.specs.Prelude.{◌≡◌, ◌≤◌, ◌<◌, [], true, HoldsAt, IsTrue, MatchBool, length};
ghost use Rattle.nsq_base.specs.Name.{is_ephemeral};
ghost use Rattle.nsq_outside.specs.Files.{Files};
ghost use Rattle.broker_history.specs.Changes.{without_topic};
ghost use Rattle.floor_rooms.specs.Changes.{KeepsSince, OnlyQueueFiles, OthersStay};
ghost use Rattle.floor_rooms.specs.Kept.{NamesTold};
ghost use Rattle.floor_rooms.specs.Rooms.{topic_name, without_room};
ghost use Rattle.floor_rooms.specs.Sound.{IsSound};
ghost use Rattle.floor_rooms.specs.Standing.{Carries};
ghost use Rattle.floor_topics.specs.Going.{DropsRoom, DropsTopic, LostFails, UnsavedBy};
ghost use Rattle.floor_topics.specs.declared.lost.Lost.TheVariants.{Done};

use crate::Lost;
use crate::items::{drop_at, put_back};
use floor_rooms::{Hall, Room};
use nsq_outside::Folder;
use topic_core::DropTopic;

/// Drops an ephemeral topic that has no channel, with its messages: nothing of it is on disk.
pub fn forget_room(hall: &mut Hall, i: usize)
    requires sound { IsSound hall.old }
    requires room { i < length hall.old.rooms.items }
    requires none { HoldsAt (λ r. r.stalls.items ≡ []) hall.old.rooms.items i }
    requires ephemeral { HoldsAt (λ r. is_ephemeral (topic_name r) ≡ true) hall.old.rooms.items i }
    ensures rest { hall.new ≡ record hall.old { rooms = hall.new.rooms } }
    ensures rooms { HoldsAt (λ r. hall.new.rooms.items ≡ without_room hall.old.rooms.items (topic_name r)) hall.old.rooms.items i }
    ensures sound { IsSound hall.new }
    ensures stands { HoldsAt (λ r. (files : Files) → Carries hall.old files hall.new files (λ s t. t ≡ without_topic s (topic_name r))) hall.old.rooms.items i }
    ensures names { NamesTold hall.old hall.new }
    ensures since { KeepsSince hall.old.moment hall.old.rooms.items hall.new.rooms.items }
{
    drop_at(&mut hall.rooms, i);
}

/// Deletes a topic that has no channel, with its messages and the files of its queue. After Fault it is as it was, and may be unsaved.
pub fn delete_room<F: Folder>(hall: &mut Hall, folder: &mut F, i: usize) -> Lost
    requires sound { IsSound hall.old }
    requires room { i < length hall.old.rooms.items }
    requires none { HoldsAt (λ r. r.stalls.items ≡ []) hall.old.rooms.items i }
    ensures rest { hall.new ≡ record hall.old { rooms = hall.new.rooms; unsaved_names = hall.new.unsaved_names; unsaved_from = hall.new.unsaved_from } }
    ensures sound { IsSound hall.new }
    ensures stands { IsTrue F.tells_files → HoldsAt (λ r. Carries hall.old (F.files folder.old) hall.new (F.files folder.new) (DropsTopic result (topic_name r))) hall.old.rooms.items i }
    ensures others { IsTrue F.tells_files → HoldsAt (λ r. OthersStay (topic_name r) (F.files folder.old) (F.files folder.new)) hall.old.rooms.items i }
    ensures faults { F.folder_faults folder.old ≤ F.folder_faults folder.new }
    ensures cause { LostFails (F.folder_faults folder.old) (F.folder_faults folder.new) result }
    ensures rooms { HoldsAt (λ r. DropsRoom result hall.old.moment (topic_name r) hall.old.rooms.items hall.new.rooms.items) hall.old.rooms.items i }
    ensures files { IsTrue F.tells_files → OnlyQueueFiles (F.files folder.old) (F.files folder.new) }
    ensures names { NamesTold hall.old hall.new }
    ensures since { KeepsSince hall.old.moment hall.old.rooms.items hall.new.rooms.items }
    ensures unsaved { UnsavedBy result hall.old.unsaved_names hall.new.unsaved_names }
{
    hall.mark_room(i);
    let Room {
        queue,
        since,
        listed,
        names,
        stalls,
    } = hall.rooms.remove(i);
    match queue.delete(folder) {
        DropTopic::Done => {
            hall.unsaved_names = true;
            Lost::Done
        }
        DropTopic::Fault(queue) => {
            let room = Room {
                queue,
                since,
                listed,
                names,
                stalls,
            };
            put_back(&mut hall.rooms, i, room);
            Lost::Fault
        }
    }
}

/// Drops a topic that has no channel, with its messages: an ephemeral one is forgotten, a durable one deleted, and after Fault as it was, while
/// it may be unsaved. An ephemeral one goes without a look at the folder.
pub fn drop_room<F: Folder>(hall: &mut Hall, folder: &mut F, i: usize) -> Lost
    requires sound { IsSound hall.old }
    requires room { i < length hall.old.rooms.items }
    requires none { HoldsAt (λ r. r.stalls.items ≡ []) hall.old.rooms.items i }
    ensures rest { hall.new ≡ record hall.old { rooms = hall.new.rooms; unsaved_names = hall.new.unsaved_names; unsaved_from = hall.new.unsaved_from } }
    ensures sound { IsSound hall.new }
    ensures stands { IsTrue F.tells_files → HoldsAt (λ r. Carries hall.old (F.files folder.old) hall.new (F.files folder.new) (DropsTopic result (topic_name r))) hall.old.rooms.items i }
    ensures others { IsTrue F.tells_files → HoldsAt (λ r. OthersStay (topic_name r) (F.files folder.old) (F.files folder.new)) hall.old.rooms.items i }
    ensures faults { F.folder_faults folder.old ≤ F.folder_faults folder.new }
    ensures cause { LostFails (F.folder_faults folder.old) (F.folder_faults folder.new) result }
    ensures rooms { HoldsAt (λ r. DropsRoom result hall.old.moment (topic_name r) hall.old.rooms.items hall.new.rooms.items) hall.old.rooms.items i }
    ensures files { IsTrue F.tells_files → OnlyQueueFiles (F.files folder.old) (F.files folder.new) }
    ensures names { NamesTold hall.old hall.new }
    ensures since { KeepsSince hall.old.moment hall.old.rooms.items hall.new.rooms.items }
    ensures ephemeral { HoldsAt (λ r. is_ephemeral (topic_name r) ≡ true → result ≡ Done) hall.old.rooms.items i }
    ensures unsaved { HoldsAt (λ r. MatchBool (is_ephemeral (topic_name r)) (hall.new.unsaved_names ≡ hall.old.unsaved_names) (UnsavedBy result hall.old.unsaved_names hall.new.unsaved_names)) hall.old.rooms.items i }
{
    if hall.rooms[i].name().ephemeral() {
        forget_room(hall, i);
        return Lost::Done;
    }
    delete_room(hall, folder, i)
}
