ghost use Rattle.std.specs.Prelude.{◌≡◌, ◌≤◌, HoldsAt, IfSome, IsSome, IsTrue, OnErr, OnOk, Some, false, length, true};
ghost use Rattle.nsq_base.specs.Names.{IsAscendingBy};
ghost use Rattle.broker_history.specs.declared.entry.Act.TheVariants as acts;
ghost use Rattle.topic_core.specs.Seen.{IsSettled};
ghost use Rattle.floor_rooms.specs.Changes.{OnlyQueueFiles};
ghost use Rattle.floor_rooms.specs.Rooms.{channel_name, topic_name};
ghost use Rattle.floor_rooms.specs.Sound.{IsSound};
ghost use Rattle.floor_moves.specs.Moves.{entry_at, sight, Keeps};
ghost use Rattle.floor_moves.specs.Taking.{names_of, taken_of, DrawsRoom, HasRoomAt, LeavesRoom, Sticks, TakesFirst, TakesIn, TakesNext};

use crate::lending::blank;
use crate::named::fill_names;
use crate::{Made, announce};
use broker_history::{Act, Entry};
use floor_rooms::{Hall, Room};
use nsq_base::{Memory, Names};
use nsq_outside::{End, Folder, Journal};
use std::alloc::Global;
use topic_core::Head;
use v2_frame::Message;

/// Takes a message that waits in the topic at this place: it is owed to all of the topic's channels from then on, and that is noted. A disk fault
/// leaves it where it is, and is noted, as is a damaged file, which is passed over. Want of memory leaves all as it is.
pub fn take_message<F: Folder, J: Journal<Entry>>(
    hall: &mut Hall,
    i: usize,
    folder: &mut F,
    scratch: &mut [u8],
    journal: &mut J,
) -> Made
    requires sound { IsSound hall.old }
    requires running { hall.old.stopped ≡ false }
    requires takes { HasRoomAt i TakesNext hall.old.rooms.items }
    requires calm { J.is_aside journal.old ≡ false }
    requires scratch { 16777242 ≤ length scratch.old }
    ensures moves { TakesFirst J.tells_notes F.tells_files i (sight hall.old (J.notes journal.old) (F.files folder.old) (F.folder_faults folder.old)) (sight hall.new (J.notes journal.new) (F.files folder.new) (F.folder_faults folder.new)) result }
    ensures sound { IsSound hall.new }
    ensures calm { J.is_aside journal.new ≡ false }
    ensures keeps { Keeps hall.old hall.new }
    ensures files { IsTrue F.tells_files → OnlyQueueFiles (F.files folder.old) (F.files folder.new) }
{
    hall.mark_room(i);
    let alloc = hall.alloc;
    let at = hall.moment;
    take_in(&mut hall.rooms[i], alloc, at, folder, scratch, journal)
}

// Takes a message of a topic.
fn take_in<F: Folder, J: Journal<Entry>>(
    room: &mut Room,
    alloc: Global,
    at: u64,
    folder: &mut F,
    scratch: &mut [u8],
    journal: &mut J,
) -> Made
    requires takes { TakesNext room.old }
    requires settled { IsSettled room.old.queue }
    requires order { IsAscendingBy channel_name room.old.stalls.items }
    requires names { IfSome room.old.names (λ names. names ≡ names_of room.old) }
    requires calm { J.is_aside journal.old ≡ false }
    requires scratch { 16777242 ≤ length scratch.old }
    ensures takes { TakesIn J.tells_notes F.tells_files at (F.files folder.old) (F.files folder.new) (F.folder_faults folder.old) (F.folder_faults folder.new) (J.notes journal.old) (J.notes journal.new) room.old room.new result }
    ensures leaves { LeavesRoom F.tells_files (F.files folder.old) (F.files folder.new) (F.folder_faults folder.old) (F.folder_faults folder.new) room.old room.new }
    ensures calm { J.is_aside journal.new ≡ false }
{
    let Ok(()) = fill_names(room, alloc) else {
        return Made::Memory;
    };
    match draw(room, folder, scratch) {
        Head::Ready => {}
        Head::Fault => return stick(room, at, journal),
        Head::Damaged => return stick(room, at, journal),
        Head::Empty => return Made::Memory,
        Head::Memory => return Made::Memory,
    }
    let Ok(()) = announce_taken(room, alloc, at, journal) else {
        room.queue.undo_head();
        return Made::Memory;
    };
    room.queue.settle_head(folder);
    journal.note(End::Done);
    Made::Done
}

// Draws the first message that waits.
fn draw<F: Folder>(room: &mut Room, folder: &mut F, scratch: &mut [u8]) -> Head
    requires takes { TakesNext room.old }
    requires names { room.old.names ≡ Some (names_of room.old) }
    requires scratch { 16777242 ≤ length scratch.old }
    ensures { DrawsRoom F.tells_files result (F.files folder.old) (F.files folder.new) (F.folder_faults folder.old) (F.folder_faults folder.new) room.old room.new }
{
    let Some(names) = &room.names else {
        unreachable!()
    };
    room.queue.take_head(folder, scratch, names.channels(0))
}

// Keeps the entry aside of the message that is drawn, which goes into it and comes back.
fn announce_taken<J: Journal<Entry>>(
    room: &mut Room,
    alloc: Global,
    at: u64,
    journal: &mut J,
) -> Result<(), Memory>
    requires names { room.old.names ≡ Some (names_of room.old) }
    requires head { IsSome room.old.queue.head }
    requires calm { J.is_aside journal.old ≡ false }
    ensures same { room.new ≡ room.old }
    ensures aside { OnOk result (J.is_aside journal.new ≡ true) }
    ensures kept { OnOk result (IsTrue J.tells_notes → IfSome room.old.queue.head (λ head. J.kept journal.new ≡ Some (entry_at at (acts.Took (topic_name room.old) head.message (names_of room.old))))) }
    ensures err { OnErr result (J.is_aside journal.new ≡ false) }
    ensures notes { IsTrue J.tells_notes → J.notes journal.new ≡ J.notes journal.old }
{
    let mut message = blank(alloc);
    room.queue.swap_head(&mut message);
    let Some(names) = room.names.take() else {
        unreachable!()
    };
    let act = Act::Took(room.queue.name(), message, names);
    let entry = Entry { conn: 0, at, act };
    let ready = journal.ready(&entry);
    let (mut message, names) = parts(entry);
    room.queue.swap_head(&mut message);
    room.names = Some(names);
    ready
}

// The message and the names of the move.
fn parts(entry: Entry) -> (Message, Names)
    requires { IsSome (taken_of entry.act) }
    ensures { taken_of entry.act ≡ Some result }
{
    let Entry {
        conn: _,
        at: _,
        act,
    } = entry;
    let Act::Took(_, message, names) = act else {
        unreachable!()
    };
    (message, names)
}

// Notes that the topic is stuck.
fn stick<J: Journal<Entry>>(room: &Room, at: u64, journal: &mut J) -> Made
    requires { J.is_aside journal.old ≡ false }
    ensures noted { Sticks J.tells_notes (topic_name room.now) at (J.notes journal.old) (J.notes journal.new) result }
    ensures calm { J.is_aside journal.new ≡ false }
{
    let Ok(()) = announce(journal, at, Act::Stuck(room.queue.name(), None)) else {
        return Made::Memory;
    };
    journal.note(End::Faulted(0));
    Made::Stuck
}
