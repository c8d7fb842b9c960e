ghost use Rattle.std.specs.Prelude.{◌≡◌, ◌≤◌, ◌<◌, true, HoldsAt, IsTrue, OnErr, OnOk, length};
ghost use Rattle.std.specs.VecDeque.{deque_capacity, deque_len};
ghost use Rattle.nsq_outside.specs.Files.{Files};
ghost use Rattle.broker_history.specs.Changes.{deleted_channel, gone, left_channel};
ghost use Rattle.broker_history.specs.State.{without_client};
ghost use Rattle.floor_rooms.specs.Changes.{KeepsSince, OnlyQueueFiles};
ghost use Rattle.floor_rooms.specs.Kept.{NamesTold};
ghost use Rattle.floor_rooms.specs.Rooms.{channel_name, topic_name};
ghost use Rattle.floor_rooms.specs.Sound.{IsSound};
ghost use Rattle.floor_rooms.specs.Standing.{Carries};
ghost use Rattle.floor_calls.specs.Going.{NoneComes, is_deserted};

use floor_rooms::{Hall, Room};
use floor_topics::{Lost, forget_empty, lose_stall, part};
use nsq_base::{Chan, Memory, Topic};
use nsq_outside::Folder;

/// The client at this place is gone: its copies stay in flight until they are due, and an ephemeral channel goes with its last client, and with its
/// last channel an ephemeral topic. No fault of the folder keeps it from going. Want of memory, the only error, leaves all as it is.
pub fn gone<F: Folder>(hall: &mut Hall, k: usize, folder: &mut F) -> Result<(), Memory>
    requires sound { IsSound hall.old }
    requires client { k < length hall.old.clients.items }
    ensures told { IsTrue F.tells_files → OnOk result (HoldsAt (λ c. Carries hall.old (F.files folder.old) hall.new (F.files folder.new) (λ s t. t ≡ gone s c.number)) hall.old.clients.items k) }
    ensures stays { (files : Files) → OnErr result (Carries hall.old files hall.new files (λ s t. t ≡ s)) }
    ensures none { OnErr result (folder.new ≡ folder.old) }
    ensures clients { OnOk result (HoldsAt (λ c. hall.new.clients.items ≡ without_client hall.old.clients.items c.number) hall.old.clients.items k) }
    ensures unchanged { OnErr result (hall.new ≡ record hall.old { pending = hall.new.pending }) }
    ensures listed { OnErr result (hall.new.pending.items ≡ hall.old.pending.items) }
    ensures rest { hall.new ≡ record hall.old { clients = hall.new.clients; rooms = hall.new.rooms; pending = hall.new.pending; unsaved_from = hall.new.unsaved_from } }
    ensures sound { IsSound hall.new }
    ensures names { NamesTold hall.old hall.new }
    ensures since { KeepsSince hall.old.moment hall.old.rooms.items hall.new.rooms.items }
    ensures files { IsTrue F.tells_files → OnlyQueueFiles (F.files folder.old) (F.files folder.new) }
    ensures faults { F.folder_faults folder.old ≤ F.folder_faults folder.new }
{
    hall.pending.reserve(1)?;
    leave(hall, k, folder);
    Ok(())
}

// The client at this place goes, where there is room for its topic among those that may have something to take or to pay, and with it an ephemeral
// channel that has no other.
fn leave<F: Folder>(hall: &mut Hall, k: usize, folder: &mut F)
    requires sound { IsSound hall.old }
    requires client { k < length hall.old.clients.items }
    requires space { deque_len hall.old.pending < deque_capacity hall.old.pending }
    ensures told { IsTrue F.tells_files → HoldsAt (λ c. Carries hall.old (F.files folder.old) hall.new (F.files folder.new) (λ s t. t ≡ gone s c.number)) hall.old.clients.items k }
    ensures clients { HoldsAt (λ c. hall.new.clients.items ≡ without_client hall.old.clients.items c.number) hall.old.clients.items k }
    ensures rest { hall.new ≡ record hall.old { clients = hall.new.clients; rooms = hall.new.rooms; pending = hall.new.pending; unsaved_from = hall.new.unsaved_from } }
    ensures sound { IsSound hall.new }
    ensures names { NamesTold hall.old hall.new }
    ensures since { KeepsSince hall.old.moment hall.old.rooms.items hall.new.rooms.items }
    ensures files { IsTrue F.tells_files → OnlyQueueFiles (F.files folder.old) (F.files folder.new) }
    ensures faults { F.folder_faults folder.old ≤ F.folder_faults folder.new }
{
    match hall.clients[k].channel() {
        None => part(hall, k),
        Some(names) => {
            part(hall, k);
            forget_deserted(hall, names.0, names.1, folder);
        }
    }
}

// The channel of this name goes where it is ephemeral and has no client.
fn forget_deserted<F: Folder>(hall: &mut Hall, topic: Topic, channel: Chan, folder: &mut F)
    requires { IsSound hall.old }
    ensures told { IsTrue F.tells_files → Carries hall.old (F.files folder.old) hall.new (F.files folder.new) (λ s t. t ≡ left_channel s (record { topic = topic; channel = channel })) }
    ensures clients { hall.new.clients.items ≡ hall.old.clients.items }
    ensures rest { hall.new ≡ record hall.old { clients = hall.new.clients; rooms = hall.new.rooms; unsaved_from = hall.new.unsaved_from } }
    ensures sound { IsSound hall.new }
    ensures names { NamesTold hall.old hall.new }
    ensures comes { NoneComes hall.old.rooms.items hall.new.rooms.items }
    ensures since { KeepsSince hall.old.moment hall.old.rooms.items hall.new.rooms.items }
    ensures files { IsTrue F.tells_files → OnlyQueueFiles (F.files folder.old) (F.files folder.new) }
    ensures faults { F.folder_faults folder.old ≤ F.folder_faults folder.new }
{
    let Some(i) = hall.room_place(topic) else {
        return;
    };
    let Some(j) = hall.stall_place(i, channel) else {
        return;
    };
    if !is_deserted(&hall.rooms[i], j) {
        return;
    }
    forget_channel(hall, i, j, folder);
}

// Whether the channel at this place of a topic is ephemeral and has no client.
fn is_deserted(room: &Room, j: usize) -> bool
    requires { j < length room.now.stalls.items }
    ensures { HoldsAt (λ x. result ≡ is_deserted (topic_name room.now) x) room.now.stalls.items j }
{
    if !room.stalls[j].members.is_empty() {
        return false;
    }
    room.name().ephemeral() || room.stalls[j].name().ephemeral()
}

// Drops the channel at this place of a topic, which is ephemeral and has no client, and with its last channel an ephemeral topic: nothing of them is
// on disk.
fn forget_channel<F: Folder>(hall: &mut Hall, i: usize, j: usize, folder: &mut F)
    requires sound { IsSound hall.old }
    requires room { i < length hall.old.rooms.items }
    requires stall { HoldsAt (λ r. j < length r.stalls.items) hall.old.rooms.items i }
    requires deserted { HoldsAt (λ r. HoldsAt (λ x. is_deserted (topic_name r) x ≡ true) r.stalls.items j) hall.old.rooms.items i }
    ensures told { IsTrue F.tells_files → HoldsAt (λ r. HoldsAt (λ x. Carries hall.old (F.files folder.old) hall.new (F.files folder.new) (λ s t. t ≡ deleted_channel s (topic_name r) (channel_name x))) r.stalls.items j) hall.old.rooms.items i }
    ensures clients { hall.new.clients.items ≡ hall.old.clients.items }
    ensures rest { hall.new ≡ record hall.old { clients = hall.new.clients; rooms = hall.new.rooms; unsaved_from = hall.new.unsaved_from } }
    ensures sound { IsSound hall.new }
    ensures names { NamesTold hall.old hall.new }
    ensures comes { NoneComes hall.old.rooms.items hall.new.rooms.items }
    ensures since { KeepsSince hall.old.moment hall.old.rooms.items hall.new.rooms.items }
    ensures files { IsTrue F.tells_files → OnlyQueueFiles (F.files folder.old) (F.files folder.new) }
    ensures faults { F.folder_faults folder.old ≤ F.folder_faults folder.new }
{
    let Lost::Done = lose_stall(hall, folder, i, j) else {
        unreachable!()
    };
    forget_empty(hall, i);
}
