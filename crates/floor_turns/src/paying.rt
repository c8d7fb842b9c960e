ghost use Rattle.std.specs.Prelude.{◌≡◌, ◌<◌, ◌≤◌, IsTrue, false, is_some, length};
ghost use Rattle.nsq_outside.specs.Files.{Files};
ghost use Rattle.broker_history.specs.State.{State};
ghost use Rattle.floor_rooms.specs.Changes.{OnlyQueueFiles};
ghost use Rattle.floor_rooms.specs.Sound.{IsSound};
ghost use Rattle.floor_rooms.specs.Standing.{HoldsFor};
ghost use Rattle.floor_moves.specs.Due.{DueFound};
ghost use Rattle.floor_moves.specs.Moves.{sight, Keeps};
ghost use Rattle.floor_turns.specs.Paying.{MovesNext, Pays, ended};

use broker_history::Entry;
use floor_moves::{Made, Place, copy_message, find_due, find_pending, move_due, take_message};
use floor_rooms::{Hall, Room};
use nsq_base::Steps;
use nsq_outside::{Folder, Journal};
use std::sync::ledger::Ledger;

/// How the paying of what is due ended.
#[derive(Clone, Copy)]
pub enum Paid {
    /// Nothing is due any more.
    Clear,
    /// As many moves were made as were allowed, and more may be due.
    Most,
    /// A disk fault kept a move off, which was noted.
    Stuck,
    /// Memory was wanting. The moves that were made stand.
    Wants,
}

// How one move ended.
#[derive(Clone, Copy)]
enum Moved {
    // It was made, and noted.
    Done,
    // A disk fault kept it off, which was noted.
    Stuck,
    // Memory was wanting, and nothing was done.
    Memory,
    // None is due.
    Nothing,
}

/// Makes the moves that are due at the hall's moment, as many as this at most, and notes each: until nothing is due any more, or a disk fault keeps one
/// off, after which no other is made, or memory is wanting. Requires that no Stop was noted, and 16,777,242 bytes of `scratch`.
pub fn pay<F: Folder, J: Journal<Entry>, L: Ledger>(
    hall: &mut Hall,
    most: u64,
    folder: &mut F,
    scratch: &mut [u8],
    journal: &mut J,
    steps: &mut Steps<L>,
) -> Paid
    requires sound { IsSound hall.old }
    requires running { hall.old.stopped ≡ false }
    requires calm { J.is_aside journal.old ≡ false }
    requires scratch { 16777242 ≤ length scratch.old }
    ensures pays { Pays J.tells_notes F.tells_files most (sight hall.old (J.notes journal.old) (F.files folder.old) (F.folder_faults folder.old)) (sight hall.new (J.notes journal.new) (F.files folder.new) (F.folder_faults folder.new)) result }
    ensures sound { IsSound hall.new }
    ensures calm { J.is_aside journal.new ≡ false }
    ensures keeps { Keeps hall.old hall.new }
    ensures files { IsTrue F.tells_files → OnlyQueueFiles (F.files folder.old) (F.files folder.new) }
{
    let mut from = 0;
    for _ in 0..most {
        match next_move(hall, &mut from, folder, scratch, journal, steps) {
            Moved::Done => {}
            Moved::Stuck => return Paid::Stuck,
            Moved::Memory => return Paid::Wants,
            Moved::Nothing => return Paid::Clear,
        }
    }
    Paid::Most
}

// Makes one move that is due, which is looked for from the topic at a place on.
fn next_move<F: Folder, J: Journal<Entry>, L: Ledger>(
    hall: &mut Hall,
    from: &mut usize,
    folder: &mut F,
    scratch: &mut [u8],
    journal: &mut J,
    steps: &mut Steps<L>,
) -> Moved
    requires sound { IsSound hall.old }
    requires running { hall.old.stopped ≡ false }
    requires calm { J.is_aside journal.old ≡ false }
    requires scratch { 16777242 ≤ length scratch.old }
    ensures moves { MovesNext J.tells_notes F.tells_files (sight hall.old (J.notes journal.old) (F.files folder.old) (F.folder_faults folder.old)) (sight hall.new (J.notes journal.new) (F.files folder.new) (F.folder_faults folder.new)) result }
    ensures sound { IsSound hall.new }
    ensures calm { J.is_aside journal.new ≡ false }
    ensures keeps { Keeps hall.old hall.new }
    ensures files { IsTrue F.tells_files → OnlyQueueFiles (F.files folder.old) (F.files folder.new) }
{
    match due_place(hall, *from) {
        Some(place) => {
            *from = place.room;
            ended(move_due(hall, place, folder, scratch, journal, steps))
        }
        None => next_owed(hall, folder, scratch, journal, steps),
    }
}

// A channel of which a copy is due, looked for from the topic at a place on.
fn due_place(hall: &mut Hall, from: usize) -> Option<Place>
    requires { IsSound hall.old }
    ensures found { DueFound hall.old.moment hall.new.quiet_until hall.new.rooms.items result }
    ensures rest { hall.new ≡ record hall.old { quiet_until = hall.new.quiet_until } }
    ensures sound { IsSound hall.new }
    ensures stands { (files : Files) (s : State) → HoldsFor hall.old files s → HoldsFor hall.new files s }
{
    if hall.moment < hall.quiet_until {
        return None;
    }
    find_due(hall, from)
}

// Takes a message that waits, or copies one that is owed to a channel, of a topic that is listed, where no copy is due.
fn next_owed<F: Folder, J: Journal<Entry>, L: Ledger>(
    hall: &mut Hall,
    folder: &mut F,
    scratch: &mut [u8],
    journal: &mut J,
    steps: &mut Steps<L>,
) -> Moved
    requires sound { IsSound hall.old }
    requires running { hall.old.stopped ≡ false }
    requires quiet { hall.old.moment < hall.old.quiet_until }
    requires calm { J.is_aside journal.old ≡ false }
    requires scratch { 16777242 ≤ length scratch.old }
    ensures moves { MovesNext J.tells_notes F.tells_files (sight hall.old (J.notes journal.old) (F.files folder.old) (F.folder_faults folder.old)) (sight hall.new (J.notes journal.new) (F.files folder.new) (F.folder_faults folder.new)) result }
    ensures sound { IsSound hall.new }
    ensures calm { J.is_aside journal.new ≡ false }
    ensures keeps { Keeps hall.old hall.new }
    ensures files { IsTrue F.tells_files → OnlyQueueFiles (F.files folder.old) (F.files folder.new) }
{
    let Some(i) = find_pending(hall) else {
        return Moved::Nothing;
    };
    if has_taken(&hall.rooms[i]) {
        return ended(copy_message(hall, i, folder, scratch, journal, steps));
    }
    ended(take_message(hall, i, folder, scratch, journal))
}

// Whether the topic took a message.
fn has_taken(room: &Room) -> bool
    ensures { result ≡ is_some room.now.queue.head }
{
    room.queue.head().is_some()
}

// How a move ended that was due.
fn ended(made: Made) -> Moved
    ensures { result ≡ ended made }
{
    match made {
        Made::Done => Moved::Done,
        Made::Stuck => Moved::Stuck,
        Made::Memory => Moved::Memory,
    }
}
