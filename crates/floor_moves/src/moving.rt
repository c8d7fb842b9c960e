ghost use Rattle.std.specs.Prelude.{◌≡◌, ◌<◌, ◌≤◌, HoldsAt, IsTrue, false, length};
ghost use Rattle.nsq_outside.specs.Causes.{Rose};
ghost use Rattle.floor_rooms.specs.Changes.{AtStall, OnlyQueueFiles};
ghost use Rattle.floor_rooms.specs.Sound.{IsSound};
ghost use Rattle.floor_moves.specs.declared.moving.Due.{Due as DueCopy};
ghost use Rattle.floor_moves.specs.declared.made.Made.TheVariants.{Stuck};
ghost use Rattle.floor_moves.specs.Due.{HasStallAt, IsDueNow};
ghost use Rattle.floor_moves.specs.Moves.{sight, Keeps};
ghost use Rattle.floor_moves.specs.Moving.{act_of, is_done, IsDueAt, MovesFirst, MovesStall, PutFails, PutsDue};

use crate::noting::announce;
use crate::{Made, Place};
use broker_history::{Act, Entry};
use channel_core::Moved;
use floor_rooms::Hall;
use nsq_base::{Chan, MsgId, Steps, Topic};
use nsq_outside::{End, Folder, Journal};
use std::sync::ledger::Ledger;

/// The copy that a channel has to move first: whether it is in flight, and its names.
#[derive(Clone, Copy)]
pub struct Due {
    /// The topic's name.
    pub topic: Topic,
    /// The channel's name.
    pub channel: Chan,
    /// The message's id.
    pub id: MsgId,
    /// Whether it is in flight: otherwise it is deferred.
    pub flies: bool,
}

/// Moves the copy of the channel at this place that is due first: it timed out, or came due, and is put back. A disk fault keeps it where it is, and is
/// noted with the move. Want of memory leaves all as it is.
pub fn move_due<F: Folder, J: Journal<Entry>, L: Ledger>(
    hall: &mut Hall,
    place: Place,
    folder: &mut F,
    scratch: &mut [u8],
    journal: &mut J,
    steps: &mut Steps<L>,
) -> Made
    requires sound { IsSound hall.old }
    requires running { hall.old.stopped ≡ false }
    requires due { HasStallAt place.room place.stall (IsDueNow hall.old.moment) hall.old.rooms.items }
    requires calm { J.is_aside journal.old ≡ false }
    requires scratch { 16777242 ≤ length scratch.old }
    ensures moves { MovesFirst J.tells_notes F.tells_files place (sight hall.old (J.notes journal.old) (F.files folder.old) (F.folder_faults folder.old)) (sight hall.new (J.notes journal.new) (F.files folder.new) (F.folder_faults folder.new)) result }
    ensures sound { IsSound hall.new }
    ensures calm { J.is_aside journal.new ≡ false }
    ensures keeps { Keeps hall.old hall.new }
    ensures files { IsTrue F.tells_files → OnlyQueueFiles (F.files folder.old) (F.files folder.new) }
    ensures fault { result ≡ Stuck → Rose (F.folder_faults folder.old) (F.folder_faults folder.new) }
{
    let due = due_at(hall, place);
    let Ok(()) = announce(journal, hall.moment, act_of(due)) else {
        return Made::Memory;
    };
    if put_due(hall, place, folder, scratch, steps) {
        journal.note(End::Done);
        return Made::Done;
    }
    journal.note(End::Faulted(0));
    Made::Stuck
}

// What is due first of the channel at this place.
fn due_at(hall: &Hall, place: Place) -> Due
    requires { HasStallAt place.room place.stall (IsDueNow hall.now.moment) hall.now.rooms.items }
    ensures { IsDueAt hall.now place result }
{
    let room = &hall.rooms[place.room];
    let channel = &room.stalls[place.stall].channel;
    let Some(first) = channel.due(hall.moment) else {
        unreachable!()
    };
    Due {
        topic: room.queue.name(),
        channel: channel.name(),
        id: first.0,
        flies: first.1,
    }
}

// The move of what is due.
fn act_of(due: Due) -> Act
    ensures { result ≡ act_of due }
{
    if due.flies {
        return Act::TimedOut(due.topic, due.channel, due.id);
    }
    Act::CameDue(due.topic, due.channel, due.id)
}

// Puts the copy back; false where the folder failed, and all is as it was.
fn put_due<F: Folder, L: Ledger>(
    hall: &mut Hall,
    place: Place,
    folder: &mut F,
    scratch: &mut [u8],
    steps: &mut Steps<L>,
) -> bool
    requires sound { IsSound hall.old }
    requires due { HasStallAt place.room place.stall (IsDueNow hall.old.moment) hall.old.rooms.items }
    requires scratch { 16777242 ≤ length scratch.old }
    ensures puts { (due : DueCopy) → IsDueAt hall.old place due → IsTrue F.tells_files → PutsDue hall.old.moment (act_of due) hall.old (F.files folder.old) hall.new (F.files folder.new) result }
    ensures sound { IsSound hall.new }
    ensures keeps { Keeps hall.old hall.new }
    ensures files { IsTrue F.tells_files → OnlyQueueFiles (F.files folder.old) (F.files folder.new) }
    ensures faults { F.folder_faults folder.old ≤ F.folder_faults folder.new }
    ensures cause { PutFails (F.folder_faults folder.old) (F.folder_faults folder.new) result }
{
    hall.mark_stall(place.room, place.stall);
    let moved = move_first(hall, place, folder, scratch, steps);
    hall.settle_stall(place.room, place.stall);
    is_done(moved)
}

// One call of the channel's.
fn move_first<F: Folder, L: Ledger>(
    hall: &mut Hall,
    place: Place,
    folder: &mut F,
    scratch: &mut [u8],
    steps: &mut Steps<L>,
) -> Moved
    requires sound { IsSound hall.old }
    requires room { place.room < length hall.old.rooms.items }
    requires stall { HoldsAt (λ r. place.stall < length r.stalls.items) hall.old.rooms.items place.room }
    requires scratch { 16777242 ≤ length scratch.old }
    ensures rest { hall.new ≡ record hall.old { rooms = hall.new.rooms } }
    ensures stall { AtStall place.room place.stall (MovesStall F.tells_files hall.old.moment result (F.files folder.old) (F.files folder.new) (F.folder_faults folder.old) (F.folder_faults folder.new)) hall.old.rooms.items hall.new.rooms.items }
{
    let now = hall.moment;
    hall.rooms[place.room].stalls[place.stall]
        .channel
        .move_due(folder, scratch, now, steps)
}

// Whether a copy was put back.
fn is_done(moved: Moved) -> bool
    ensures { result ≡ is_done moved }
{
    match moved {
        Moved::TimedOut(_) | Moved::CameDue(_) | Moved::Nothing => true,
        Moved::Fault(_) => false,
    }
}
