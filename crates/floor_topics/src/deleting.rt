ghost use Rattle.std.specs.Prelude.{◌≡◌, ◌≤◌, ◌<◌, ◌&&◌, ℕ, HoldsAt, IsTrue, is_some, length};
ghost use Rattle.nsq_base.specs.Name.{is_ephemeral};
ghost use Rattle.broker_history.specs.State.{is_empty};
ghost use Rattle.nsq_outside.specs.Files.{Files};
ghost use Rattle.floor_rooms.specs.Changes.{KeepsSince, OnlyQueueFiles};
ghost use Rattle.floor_rooms.specs.Kept.{NamesTold};
ghost use Rattle.floor_rooms.specs.Rooms.{channel_name, client_in, stall_names, topic_name};
ghost use Rattle.floor_rooms.specs.Sound.{IsSound};
ghost use Rattle.floor_rooms.specs.Standing.{Carries};
ghost use Rattle.floor_topics.specs.Going.{LostFails};
ghost use Rattle.floor_topics.specs.Deleting.{DeletesChannel, DeletesTopic, DeletionFails, GoesEmpty, IsWithin, LosesAll, LosesSoFar, deleted_of, without_empty};

use crate::going::{drop_room, forget_room};
use crate::losing::lose_stall;
use crate::{Deleted, Lost};
use floor_rooms::{Hall, Room};
use nsq_base::{Chan, Topic};
use nsq_outside::Folder;

/// Deletes the channel of this name, with its copies and its clients' part in it, and with its last channel an ephemeral topic; where it isn't there
/// nothing changes. After a fault all is as it was.
pub fn delete_channel<F: Folder>(
    hall: &mut Hall,
    topic: Topic,
    channel: Chan,
    folder: &mut F,
) -> Lost
    requires { IsSound hall.old }
    ensures told { IsTrue F.tells_files → Carries hall.old (F.files folder.old) hall.new (F.files folder.new) (DeletesChannel result topic channel) }
    ensures rest { hall.new ≡ record hall.old { clients = hall.new.clients; rooms = hall.new.rooms; unsaved_names = hall.new.unsaved_names; unsaved_from = hall.new.unsaved_from } }
    ensures sound { IsSound hall.new }
    ensures names { NamesTold hall.old hall.new }
    ensures since { KeepsSince hall.old.moment hall.old.rooms.items hall.new.rooms.items }
    ensures files { IsTrue F.tells_files → OnlyQueueFiles (F.files folder.old) (F.files folder.new) }
    ensures faults { F.folder_faults folder.old ≤ F.folder_faults folder.new }
    ensures cause { LostFails (F.folder_faults folder.old) (F.folder_faults folder.new) result }
    ensures numbers { (m : ℕ) → is_some (client_in hall.new.clients.items m) ≡ is_some (client_in hall.old.clients.items m) }
{
    let Some(i) = hall.room_place(topic) else {
        return Lost::Done;
    };
    let Some(j) = hall.stall_place(i, channel) else {
        return Lost::Done;
    };
    lose_at(hall, i, j, folder)
}

/// Deletes the topic of this name: its channels in byte order of their names, then the topic with its messages; where it isn't there nothing changes. A
/// fault ends that behind the channels that were deleted.
pub fn delete_topic<F: Folder>(hall: &mut Hall, topic: Topic, folder: &mut F) -> Deleted
    requires { IsSound hall.old }
    ensures told { IsTrue F.tells_files → Carries hall.old (F.files folder.old) hall.new (F.files folder.new) (DeletesTopic result topic) }
    ensures rest { hall.new ≡ record hall.old { clients = hall.new.clients; rooms = hall.new.rooms; unsaved_names = hall.new.unsaved_names; unsaved_from = hall.new.unsaved_from } }
    ensures sound { IsSound hall.new }
    ensures names { NamesTold hall.old hall.new }
    ensures since { KeepsSince hall.old.moment hall.old.rooms.items hall.new.rooms.items }
    ensures files { IsTrue F.tells_files → OnlyQueueFiles (F.files folder.old) (F.files folder.new) }
    ensures faults { F.folder_faults folder.old ≤ F.folder_faults folder.new }
    ensures cause { DeletionFails (F.folder_faults folder.old) (F.folder_faults folder.new) result }
    ensures numbers { (m : ℕ) → is_some (client_in hall.new.clients.items m) ≡ is_some (client_in hall.old.clients.items m) }
{
    let Some(i) = hall.room_place(topic) else {
        return Deleted::Done;
    };
    let all = hall.rooms[i].stalls.len() as u64;
    match lose_all(hall, i, folder) {
        Deleted::Done => {}
        Deleted::Fault(count) => return Deleted::Fault(count),
    }
    match drop_room(hall, folder, i) {
        Lost::Done => Deleted::Done,
        Lost::Fault => Deleted::Fault(all),
    }
}

// Deletes all channels of the topic at this place, one after another. The topic itself stays.
fn lose_all<F: Folder>(hall: &mut Hall, i: usize, folder: &mut F) -> Deleted
    requires sound { IsSound hall.old }
    requires room { i < length hall.old.rooms.items }
    ensures loses { HoldsAt (λ r. LosesSoFar F.tells_files (topic_name r) (stall_names r) (deleted_of (length r.stalls.items) result) hall.old hall.new (F.files folder.old) (F.files folder.new) (F.folder_faults folder.old) (F.folder_faults folder.new)) hall.old.rooms.items i }
    ensures within { HoldsAt (λ r. IsWithin (length r.stalls.items) result) hall.old.rooms.items i }
    ensures rooms { LosesAll i result hall.old.rooms.items hall.new.rooms.items }
    ensures cause { DeletionFails (F.folder_faults folder.old) (F.folder_faults folder.new) result }
{
    let all = hall.rooms[i].stalls.len();
    for count in 0..all {
        match lose_stall(hall, folder, i, 0) {
            Lost::Done => {}
            Lost::Fault => return Deleted::Fault(count as u64),
        }
    }
    Deleted::Done
}

// Deletes the channel at this place of a topic, and with its last channel an ephemeral topic.
fn lose_at<F: Folder>(hall: &mut Hall, i: usize, j: usize, folder: &mut F) -> Lost
    requires sound { IsSound hall.old }
    requires room { i < length hall.old.rooms.items }
    requires stall { HoldsAt (λ r. j < length r.stalls.items) hall.old.rooms.items i }
    ensures told { IsTrue F.tells_files → HoldsAt (λ r. HoldsAt (λ x. Carries hall.old (F.files folder.old) hall.new (F.files folder.new) (DeletesChannel result (topic_name r) (channel_name x))) r.stalls.items j) hall.old.rooms.items i }
    ensures rest { hall.new ≡ record hall.old { clients = hall.new.clients; rooms = hall.new.rooms; unsaved_names = hall.new.unsaved_names; unsaved_from = hall.new.unsaved_from } }
    ensures sound { IsSound hall.new }
    ensures names { NamesTold hall.old hall.new }
    ensures since { KeepsSince hall.old.moment hall.old.rooms.items hall.new.rooms.items }
    ensures files { IsTrue F.tells_files → OnlyQueueFiles (F.files folder.old) (F.files folder.new) }
    ensures faults { F.folder_faults folder.old ≤ F.folder_faults folder.new }
    ensures cause { LostFails (F.folder_faults folder.old) (F.folder_faults folder.new) result }
    ensures numbers { (m : ℕ) → is_some (client_in hall.new.clients.items m) ≡ is_some (client_in hall.old.clients.items m) }
{
    match lose_stall(hall, folder, i, j) {
        Lost::Done => {
            forget_empty(hall, i);
            Lost::Done
        }
        Lost::Fault => Lost::Fault,
    }
}

/// An ephemeral topic that has no channel goes, with its messages; any other stays.
pub fn forget_empty(hall: &mut Hall, i: usize)
    requires sound { IsSound hall.old }
    requires room { i < length hall.old.rooms.items }
    ensures rest { hall.new ≡ record hall.old { rooms = hall.new.rooms } }
    ensures stands { HoldsAt (λ r. (files : Files) → Carries hall.old files hall.new files (λ s t. t ≡ without_empty r s)) hall.old.rooms.items i }
    ensures rooms { HoldsAt (λ r. GoesEmpty r hall.old.rooms.items hall.new.rooms.items) hall.old.rooms.items i }
    ensures sound { IsSound hall.new }
    ensures names { NamesTold hall.old hall.new }
    ensures since { KeepsSince hall.old.moment hall.old.rooms.items hall.new.rooms.items }
{
    if !is_left_empty(&hall.rooms[i]) {
        return;
    }
    forget_room(hall, i);
}

// Whether a topic goes because it is ephemeral and has no channel.
fn is_left_empty(room: &Room) -> bool
    ensures { result ≡ (is_ephemeral (topic_name room.now) && is_empty room.now.stalls.items) }
{
    if !room.stalls.is_empty() {
        return false;
    }
    room.name().ephemeral()
}
