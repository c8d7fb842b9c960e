ghost use Rattle.std.specs.Prelude.{◌≡◌, ◌≤◌, ◌<◌, ◌||◌, ◌++◌, true, HoldsAt, IsTrue, MatchBool, drop, length, suc, take};
ghost use Rattle.nsq_outside.specs.Files.{Files};
ghost use Rattle.backlog.specs.Lists.{DiskChanges};
ghost use Rattle.broker_history.specs.State.{is_ephemeral_channel};
ghost use Rattle.channel_core.specs.Seen.{queue_name};
ghost use Rattle.channel_core.specs.declared.drawn.Drawn.TheVariants as drawn;
ghost use Rattle.floor_rooms.specs.ClientPlaces.{AreInOrder};
ghost use Rattle.topic_core.specs.Seen.{IsSettled};
ghost use Rattle.floor_rooms.specs.Changes.{AtRoom, KeepsSince, OnlyQueueFiles, OthersStay};
ghost use Rattle.floor_rooms.specs.Kept.{NamesTold};
ghost use Rattle.floor_rooms.specs.Rooms.{channel_name, topic_name};
ghost use Rattle.floor_rooms.specs.Sound.{IsSound};
ghost use Rattle.floor_rooms.specs.Standing.{Carries};
ghost use Rattle.floor_topics.specs.Going.{LostFails, UnsavedBy};
ghost use Rattle.floor_topics.specs.Losing.{DropsChannel, Forgets, LosesClients, LosesFrom, TakeFails, TakesFrom, lost_among, lost_one};
ghost use Rattle.floor_topics.specs.declared.lost.Lost.TheVariants.{Done};

use crate::Lost;
use crate::items::put_back;
use channel_core::DropChannel;
use floor_rooms::{Client, Hall, Room, Stall, place_of};
use nsq_base::{Chan, Topic};
use nsq_outside::Folder;

/// Deletes a channel of a topic, with its copies: its clients have lost it then, the topic owes it nothing, and the topic itself stays, also
/// an ephemeral one that has no channel left. An ephemeral channel goes without a look at the folder; of a durable one the queue's files are
/// removed first, and after Fault all is as it was, while the channel may be unsaved.
pub fn lose_stall<F: Folder>(hall: &mut Hall, folder: &mut F, i: usize, j: usize) -> Lost
    requires sound { IsSound hall.old }
    requires room { i < length hall.old.rooms.items }
    requires stall { HoldsAt (λ r. j < length r.stalls.items) hall.old.rooms.items i }
    ensures rest { hall.new ≡ record hall.old { rooms = hall.new.rooms; clients = hall.new.clients; unsaved_names = hall.new.unsaved_names; unsaved_from = hall.new.unsaved_from } }
    ensures rooms { HoldsAt (λ r. HoldsAt (λ s. LosesFrom result hall.old.moment i j (channel_name s) hall.old.rooms.items hall.new.rooms.items) r.stalls.items j) hall.old.rooms.items i }
    ensures clients { HoldsAt (λ r. HoldsAt (λ s. LosesClients result (topic_name r) (channel_name s) hall.old.clients.items hall.new.clients.items) r.stalls.items j) hall.old.rooms.items i }
    ensures sound { IsSound hall.new }
    ensures stands { IsTrue F.tells_files → HoldsAt (λ r. HoldsAt (λ s. Carries hall.old (F.files folder.old) hall.new (F.files folder.new) (DropsChannel result (topic_name r) (channel_name s))) r.stalls.items j) hall.old.rooms.items i }
    ensures others { IsTrue F.tells_files → HoldsAt (λ r. HoldsAt (λ s. OthersStay (queue_name (topic_name r) (channel_name s)) (F.files folder.old) (F.files folder.new)) r.stalls.items j) hall.old.rooms.items i }
    ensures files { IsTrue F.tells_files → OnlyQueueFiles (F.files folder.old) (F.files folder.new) }
    ensures names { NamesTold hall.old hall.new }
    ensures since { KeepsSince hall.old.moment hall.old.rooms.items hall.new.rooms.items }
    ensures faults { F.folder_faults folder.old ≤ F.folder_faults folder.new }
    ensures cause { LostFails (F.folder_faults folder.old) (F.folder_faults folder.new) result }
    ensures ephemeral { HoldsAt (λ r. HoldsAt (λ s. is_ephemeral_channel (topic_name r) (channel_name s) ≡ true → result ≡ Done) r.stalls.items j) hall.old.rooms.items i }
    ensures unsaved { HoldsAt (λ r. HoldsAt (λ s. MatchBool (is_ephemeral_channel (topic_name r) (channel_name s)) (hall.new.unsaved_names ≡ hall.old.unsaved_names) (UnsavedBy result hall.old.unsaved_names hall.new.unsaved_names)) r.stalls.items j) hall.old.rooms.items i }
{
    if is_ephemeral_at(&hall.rooms[i], j) {
        forget_stall(hall, i, j);
        return Lost::Done;
    }
    delete_stall(hall, folder, i, j)
}

// Whether the channel at a place is ephemeral: its name or its topic's name is.
fn is_ephemeral_at(room: &Room, j: usize) -> bool
    requires { j < length room.now.stalls.items }
    ensures { HoldsAt (λ s. result ≡ is_ephemeral_channel (topic_name room.now) (channel_name s)) room.now.stalls.items j }
{
    room.name().ephemeral() || room.stalls[j].name().ephemeral()
}

// Drops an ephemeral channel, with its copies: nothing of it is on disk.
fn forget_stall(hall: &mut Hall, i: usize, j: usize)
    requires sound { IsSound hall.old }
    requires room { i < length hall.old.rooms.items }
    requires stall { HoldsAt (λ r. j < length r.stalls.items) hall.old.rooms.items i }
    requires ephemeral { HoldsAt (λ r. HoldsAt (λ s. is_ephemeral_channel (topic_name r) (channel_name s) ≡ true) r.stalls.items j) hall.old.rooms.items i }
    ensures rest { hall.new ≡ record hall.old { rooms = hall.new.rooms; clients = hall.new.clients } }
    ensures rooms { HoldsAt (λ r. HoldsAt (λ s. LosesFrom Done hall.old.moment i j (channel_name s) hall.old.rooms.items hall.new.rooms.items) r.stalls.items j) hall.old.rooms.items i }
    ensures clients { HoldsAt (λ r. HoldsAt (λ s. LosesClients Done (topic_name r) (channel_name s) hall.old.clients.items hall.new.clients.items) r.stalls.items j) hall.old.rooms.items i }
    ensures sound { IsSound hall.new }
    ensures stands { (files : Files) → HoldsAt (λ r. HoldsAt (λ s. Carries hall.old files hall.new files (DropsChannel Done (topic_name r) (channel_name s))) r.stalls.items j) hall.old.rooms.items i }
    ensures names { NamesTold hall.old hall.new }
    ensures since { KeepsSince hall.old.moment hall.old.rooms.items hall.new.rooms.items }
{
    let topic = hall.rooms[i].name();
    let channel = hall.rooms[i].stalls[j].name();
    let members = drop_stall(&mut hall.rooms[i].stalls, j);
    strike(hall, i, topic, channel, &members);
}

// Drops the channel at a place, with its copies, and answers the numbers of its clients.
fn drop_stall(stalls: &mut Vec<Stall>, j: usize) -> Vec<u64>
    requires { j < length stalls.old.items }
    ensures left { stalls.new.items ≡ take j stalls.old.items ++ drop (suc j) stalls.old.items }
    ensures members { HoldsAt (λ s. result.items ≡ s.members.items) stalls.old.items j }
{
    let Stall {
        channel,
        since: _,
        members,
    } = stalls.remove(j);
    drop(channel);
    members
}

// Deletes a durable channel, with its copies and the files of its queue. After Fault it is as it was, and may be unsaved.
fn delete_stall<F: Folder>(hall: &mut Hall, folder: &mut F, i: usize, j: usize) -> Lost
    requires sound { IsSound hall.old }
    requires room { i < length hall.old.rooms.items }
    requires stall { HoldsAt (λ r. j < length r.stalls.items) hall.old.rooms.items i }
    ensures rest { hall.new ≡ record hall.old { rooms = hall.new.rooms; clients = hall.new.clients; unsaved_names = hall.new.unsaved_names; unsaved_from = hall.new.unsaved_from } }
    ensures rooms { HoldsAt (λ r. HoldsAt (λ s. LosesFrom result hall.old.moment i j (channel_name s) hall.old.rooms.items hall.new.rooms.items) r.stalls.items j) hall.old.rooms.items i }
    ensures clients { HoldsAt (λ r. HoldsAt (λ s. LosesClients result (topic_name r) (channel_name s) hall.old.clients.items hall.new.clients.items) r.stalls.items j) hall.old.rooms.items i }
    ensures sound { IsSound hall.new }
    ensures stands { IsTrue F.tells_files → HoldsAt (λ r. HoldsAt (λ s. Carries hall.old (F.files folder.old) hall.new (F.files folder.new) (DropsChannel result (topic_name r) (channel_name s))) r.stalls.items j) hall.old.rooms.items i }
    ensures others { IsTrue F.tells_files → HoldsAt (λ r. HoldsAt (λ s. OthersStay (queue_name (topic_name r) (channel_name s)) (F.files folder.old) (F.files folder.new)) r.stalls.items j) hall.old.rooms.items i }
    ensures files { IsTrue F.tells_files → OnlyQueueFiles (F.files folder.old) (F.files folder.new) }
    ensures names { NamesTold hall.old hall.new }
    ensures since { KeepsSince hall.old.moment hall.old.rooms.items hall.new.rooms.items }
    ensures faults { F.folder_faults folder.old ≤ F.folder_faults folder.new }
    ensures cause { LostFails (F.folder_faults folder.old) (F.folder_faults folder.new) result }
    ensures unsaved { UnsavedBy result hall.old.unsaved_names hall.new.unsaved_names }
{
    hall.mark_stall(i, j);
    let topic = hall.rooms[i].name();
    let channel = hall.rooms[i].stalls[j].name();
    match take_out(&mut hall.rooms[i], folder, j) {
        None => Lost::Fault,
        Some(members) => {
            hall.unsaved_names = true;
            strike(hall, i, topic, channel, &members);
            Lost::Done
        }
    }
}

// Takes a channel out of a topic and deletes it, and answers the numbers of its clients. Where the folder fails it is put back.
fn take_out<F: Folder>(room: &mut Room, folder: &mut F, j: usize) -> Option<Vec<u64>>
    requires stall { j < length room.old.stalls.items }
    requires nothing { HoldsAt (λ s. s.channel.drawn ≡ drawn.Nothing) room.old.stalls.items j }
    ensures takes { TakesFrom j F.tells_files (F.files folder.old) (F.files folder.new) room.old room.new result }
    ensures disk { IsTrue F.tells_files → HoldsAt (λ s. DiskChanges s.channel.backlog.queue (F.files folder.old) (F.files folder.new)) room.old.stalls.items j }
    ensures faults { F.folder_faults folder.old ≤ F.folder_faults folder.new }
    ensures cause { TakeFails (F.folder_faults folder.old) (F.folder_faults folder.new) result }
{
    let Stall {
        channel,
        since,
        members,
    } = room.stalls.remove(j);
    match channel.delete(folder) {
        DropChannel::Done => Some(members),
        DropChannel::Fault(channel) => {
            let stall = Stall {
                channel,
                since,
                members,
            };
            put_back(&mut room.stalls, j, stall);
            None
        }
    }
}

// What is left to do once a channel was taken out of its topic: its clients lost it, and the topic owes it nothing any more.
fn strike(hall: &mut Hall, i: usize, topic: Topic, channel: Chan, members: &[u64])
    requires order { AreInOrder hall.old.clients.items }
    requires room { i < length hall.old.rooms.items }
    requires settled { HoldsAt (λ r. IsSettled r.queue) hall.old.rooms.items i }
    ensures rest { hall.new ≡ record hall.old { rooms = hall.new.rooms; clients = hall.new.clients } }
    ensures clients { hall.new.clients.items ≡ lost_among members.now topic channel hall.old.clients.items }
    ensures room { AtRoom i (Forgets channel) hall.old.rooms.items hall.new.rooms.items }
{
    lose_all(&mut hall.clients, members, topic, channel);
    let room = &mut hall.rooms[i];
    room.queue.forget_channel(channel);
    room.names = None;
}

// The clients of these numbers lost the channel.
fn lose_all(clients: &mut Vec<Client>, members: &[u64], topic: Topic, channel: Chan)
    requires { AreInOrder clients.old.items }
    ensures { clients.new.items ≡ lost_among members.now topic channel clients.old.items }
{
    'members: for number in members {
        lose_one(clients, *number, topic, channel);
    }
}

// The client of this number lost the channel, where there is one.
fn lose_one(clients: &mut Vec<Client>, number: u64, topic: Topic, channel: Chan)
    requires { AreInOrder clients.old.items }
    ensures { clients.new.items ≡ lost_one number topic channel clients.old.items }
{
    if let Ok(k) = place_of(clients, number) {
        clients[k].lose(topic, channel);
    }
}
