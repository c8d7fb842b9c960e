ghost use Rattle.std.specs.Prelude.{◌≡◌, ◌≤◌, ◌+◌, ◌^◌, ◌<◌, All, HoldsAt, IfOk, IsTrue, OnErr, length};
ghost use Rattle.nsq_base.specs.Places.{BelongsAt};
ghost use Rattle.nsq_outside.specs.Files.{Files};
ghost use Rattle.backlog.specs.Answers.{PutAllFails};
ghost use Rattle.backlog.specs.Seen.{FitsLimit};
ghost use Rattle.topic_core.specs.Seen.{IsSettled};
ghost use Rattle.floor_rooms.specs.Changes.{AtRoom, KeepsSince, OnlyQueueFiles};
ghost use Rattle.floor_rooms.specs.Kept.{NamesTold};
ghost use Rattle.floor_rooms.specs.Rooms.{topic_name};
ghost use Rattle.floor_rooms.specs.Sound.{IsSound};
ghost use Rattle.floor_rooms.specs.Standing.{Carries, longest_delay};
ghost use Rattle.floor_topics.specs.Publishing.{Publishes, PublishFails, PutsInto, FillsRoom, ids_after};

use crate::Published;
use crate::messages::messages_of;
use backlog::PutAll;
use floor_rooms::{Hall, Room};
use nsq_base::{Body, Memory, Topic};
use nsq_outside::Folder;
use v2_frame::Message;

/// Publishes messages of these bodies to the topic of this name, which is made where it isn't there: all of them, in order and with the next ids, or
/// none. A delay is in nanoseconds. What finds `mem_queue_size` messages waiting goes to disk, where it loses its delay; in an ephemeral topic it is
/// dropped, and its id is used too. The bodies move into the messages. After Memory, the only error, nothing happened. Requires that there are ids for
/// all, a delay that options allow, bodies of at most 16,777,216 bytes, and 16,777,242 bytes of `scratch`.
pub fn publish<F: Folder>(
    hall: &mut Hall,
    topic: Topic,
    delay: u64,
    bodies: Vec<Body>,
    folder: &mut F,
    scratch: &mut [u8],
) -> Result<Published, Memory>
    requires sound { IsSound hall.old }
    requires ids { hall.old.ids_used + length bodies.items ≤ 2 ^ 40 }
    requires short { All (λ body. length body ≤ 16777216) bodies.items }
    requires delay { delay ≤ longest_delay }
    requires scratch { 16777242 ≤ length scratch.old }
    ensures told { IsTrue F.tells_files → IfOk result (λ p. Carries hall.old (F.files folder.old) hall.new (F.files folder.new) (Publishes hall.old.moment delay topic bodies.items p)) }
    ensures stays { (files : Files) → OnErr result (Carries hall.old files hall.new files (λ s t. t ≡ s)) }
    ensures ids { IfOk result (λ p. hall.new.ids_used ≡ ids_after hall.old.ids_used (length bodies.items) p) }
    ensures none { OnErr result ((hall.new.ids_used ≡ hall.old.ids_used) × (folder.new ≡ folder.old)) }
    ensures rest { hall.new ≡ record hall.old { ids_used = hall.new.ids_used; rooms = hall.new.rooms; pending = hall.new.pending; unsaved_names = hall.new.unsaved_names; unsaved_from = hall.new.unsaved_from } }
    ensures sound { IsSound hall.new }
    ensures names { NamesTold hall.old hall.new }
    ensures since { KeepsSince hall.old.moment hall.old.rooms.items hall.new.rooms.items }
    ensures files { IsTrue F.tells_files → OnlyQueueFiles (F.files folder.old) (F.files folder.new) }
    ensures faults { F.folder_faults folder.old ≤ F.folder_faults folder.new }
    ensures cause { IfOk result (λ p. PublishFails (F.folder_faults folder.old) (F.folder_faults folder.new) p) }
{
    let mut messages = messages_of(hall, delay, bodies)?;
    match hall.place_of(topic) {
        Ok(i) => put_there(hall, i, &mut messages, folder, scratch),
        Err(i) => put_new(hall, i, topic, &mut messages, folder, scratch),
    }
}

// Puts messages into the topic at this place.
fn put_there<F: Folder>(
    hall: &mut Hall,
    i: usize,
    messages: &mut Vec<Message>,
    folder: &mut F,
    scratch: &mut [u8],
) -> Result<Published, Memory>
    requires sound { IsSound hall.old }
    requires room { i < length hall.old.rooms.items }
    requires ids { hall.old.ids_used + length messages.old.items ≤ 2 ^ 40 }
    requires short { All FitsLimit messages.old.items }
    requires delays { All (λ m. m.delay ≤ longest_delay) messages.old.items }
    requires scratch { 16777242 ≤ length scratch.old }
    ensures told { IsTrue F.tells_files → HoldsAt (λ r. IfOk result (λ p. Carries hall.old (F.files folder.old) hall.new (F.files folder.new) (PutsInto (topic_name r) messages.old.items p))) hall.old.rooms.items i }
    ensures stays { (files : Files) → OnErr result (Carries hall.old files hall.new files (λ s t. t ≡ s)) }
    ensures ids { IfOk result (λ p. hall.new.ids_used ≡ ids_after hall.old.ids_used (length messages.old.items) p) }
    ensures none { OnErr result ((hall.new.ids_used ≡ hall.old.ids_used) × (folder.new ≡ folder.old)) }
    ensures rest { hall.new ≡ record hall.old { ids_used = hall.new.ids_used; rooms = hall.new.rooms; pending = hall.new.pending; unsaved_from = hall.new.unsaved_from } }
    ensures sound { IsSound hall.new }
    ensures names { NamesTold hall.old hall.new }
    ensures since { KeepsSince hall.old.moment hall.old.rooms.items hall.new.rooms.items }
    ensures files { IsTrue F.tells_files → OnlyQueueFiles (F.files folder.old) (F.files folder.new) }
    ensures faults { F.folder_faults folder.old ≤ F.folder_faults folder.new }
    ensures cause { IfOk result (λ p. PublishFails (F.folder_faults folder.old) (F.folder_faults folder.new) p) }
{
    let count = messages.len() as u64;
    hall.reserve_room()?;
    hall.mark_room(i);
    hall.list_room(i);
    match put_at(hall, i, messages, folder, scratch) {
        PutAll::Done => {
            hall.ids_used += count;
            Ok(Published::Done)
        }
        PutAll::Fault => Ok(Published::Fault),
    }
}

// One call of the topic's queue.
fn put_at<F: Folder>(
    hall: &mut Hall,
    i: usize,
    messages: &mut Vec<Message>,
    folder: &mut F,
    scratch: &mut [u8],
) -> PutAll
    requires sound { IsSound hall.old }
    requires room { i < length hall.old.rooms.items }
    requires short { All FitsLimit messages.old.items }
    requires scratch { 16777242 ≤ length scratch.old }
    ensures rest { hall.new ≡ record hall.old { rooms = hall.new.rooms } }
    ensures room { AtRoom i (FillsRoom F.tells_files messages.old.items result (F.files folder.old) (F.files folder.new)) hall.old.rooms.items hall.new.rooms.items }
    ensures faults { F.folder_faults folder.old ≤ F.folder_faults folder.new }
    ensures cause { PutAllFails (F.folder_faults folder.old) (F.folder_faults folder.new) result }
{
    hall.rooms[i].queue.put_all(folder, scratch, messages)
}

// Puts messages into a topic of this name that is made for them, and belongs at this place. It goes into the hall only with them.
fn put_new<F: Folder>(
    hall: &mut Hall,
    i: usize,
    topic: Topic,
    messages: &mut Vec<Message>,
    folder: &mut F,
    scratch: &mut [u8],
) -> Result<Published, Memory>
    requires sound { IsSound hall.old }
    requires place { BelongsAt topic_name hall.old.rooms.items topic i }
    requires ids { hall.old.ids_used + length messages.old.items ≤ 2 ^ 40 }
    requires short { All FitsLimit messages.old.items }
    requires delays { All (λ m. m.delay ≤ longest_delay) messages.old.items }
    requires scratch { 16777242 ≤ length scratch.old }
    ensures told { IsTrue F.tells_files → IfOk result (λ p. Carries hall.old (F.files folder.old) hall.new (F.files folder.new) (PutsInto topic messages.old.items p)) }
    ensures stays { (files : Files) → OnErr result (Carries hall.old files hall.new files (λ s t. t ≡ s)) }
    ensures ids { IfOk result (λ p. hall.new.ids_used ≡ ids_after hall.old.ids_used (length messages.old.items) p) }
    ensures none { OnErr result ((hall.new.ids_used ≡ hall.old.ids_used) × (folder.new ≡ folder.old)) }
    ensures rest { hall.new ≡ record hall.old { ids_used = hall.new.ids_used; rooms = hall.new.rooms; pending = hall.new.pending; unsaved_names = hall.new.unsaved_names; unsaved_from = hall.new.unsaved_from } }
    ensures sound { IsSound hall.new }
    ensures names { NamesTold hall.old hall.new }
    ensures since { KeepsSince hall.old.moment hall.old.rooms.items hall.new.rooms.items }
    ensures files { IsTrue F.tells_files → OnlyQueueFiles (F.files folder.old) (F.files folder.new) }
    ensures faults { F.folder_faults folder.old ≤ F.folder_faults folder.new }
    ensures cause { IfOk result (λ p. PublishFails (F.folder_faults folder.old) (F.folder_faults folder.new) p) }
{
    let count = messages.len() as u64;
    hall.reserve_room()?;
    let mut room = hall.free_room(topic)?;
    match fill(&mut room, messages, folder, scratch) {
        PutAll::Done => {}
        PutAll::Fault => {
            drop(room);
            return Ok(Published::Fault);
        }
    }
    room.since = Some(hall.moment);
    hall.unsaved_from = hall.unsaved_from.min(hall.moment);
    hall.add_room(i, room);
    hall.ids_used += count;
    Ok(Published::Done)
}

// One call of the queue of a topic that no hall has.
fn fill<F: Folder>(
    room: &mut Room,
    messages: &mut Vec<Message>,
    folder: &mut F,
    scratch: &mut [u8],
) -> PutAll
    requires settled { IsSettled room.old.queue }
    requires short { All FitsLimit messages.old.items }
    requires scratch { 16777242 ≤ length scratch.old }
    ensures room { FillsRoom F.tells_files messages.old.items result (F.files folder.old) (F.files folder.new) room.old room.new }
    ensures faults { F.folder_faults folder.old ≤ F.folder_faults folder.new }
    ensures cause { PutAllFails (F.folder_faults folder.old) (F.folder_faults folder.new) result }
{
    room.queue.put_all(folder, scratch, messages)
}
