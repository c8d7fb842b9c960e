ghost use Rattle.std.specs.Prelude.{◌≡◌, ◌≤◌, IsTrue, false, length};
ghost use Rattle.nsq_outside.specs.Causes.{Rose};
ghost use Rattle.floor_rooms.specs.Changes.{OnlyQueueFiles};
ghost use Rattle.floor_rooms.specs.Sound.{IsSound};
ghost use Rattle.floor_moves.specs.Moves.{sight, Keeps};
ghost use Rattle.floor_moves.specs.declared.made.Made.TheVariants.{Stuck};
ghost use Rattle.floor_moves.specs.Copying.{CopiesFirst, OwesNext};
ghost use Rattle.floor_moves.specs.Taking.{HasRoomAt};

use crate::giving::give;
use crate::owed::{announce_copy, first_owed};
use crate::paying::pay;
use crate::{Made, Place};
use broker_history::Entry;
use floor_rooms::Hall;
use nsq_base::Steps;
use nsq_outside::{End, Folder, Journal};
use std::sync::ledger::Ledger;

/// The first channel that is owed a copy of the message that the topic at this place took gets it, and that is noted: it is owed none any more, and
/// with the last one the message goes. A disk fault keeps it off, and is noted. Want of memory leaves all as it is.
pub fn copy_message<F: Folder, J: Journal<Entry>, L: Ledger>(
    hall: &mut Hall,
    i: usize,
    folder: &mut F,
    scratch: &mut [u8],
    journal: &mut J,
    steps: &mut Steps<L>,
) -> Made
    requires sound { IsSound hall.old }
    requires running { hall.old.stopped ≡ false }
    requires owes { HasRoomAt i OwesNext hall.old.rooms.items }
    requires calm { J.is_aside journal.old ≡ false }
    requires scratch { 16777242 ≤ length scratch.old }
    ensures moves { CopiesFirst J.tells_notes F.tells_files i (sight hall.old (J.notes journal.old) (F.files folder.old) (F.folder_faults folder.old)) (sight hall.new (J.notes journal.new) (F.files folder.new) (F.folder_faults folder.new)) result }
    ensures sound { IsSound hall.new }
    ensures calm { J.is_aside journal.new ≡ false }
    ensures keeps { Keeps hall.old hall.new }
    ensures files { IsTrue F.tells_files → OnlyQueueFiles (F.files folder.old) (F.files folder.new) }
    ensures fault { result ≡ Stuck → Rose (F.folder_faults folder.old) (F.folder_faults folder.new) }
{
    let room = &hall.rooms[i];
    let owed = first_owed(room);
    let Ok(message) = announce_copy(room, hall.alloc, hall.moment, owed, journal) else {
        return Made::Memory;
    };
    match give(hall, owed.place(i), folder, scratch, message, steps) {
        Made::Done => {}
        Made::Stuck => {
            journal.note(End::Faulted(0));
            return Made::Stuck;
        }
        Made::Memory => {
            journal.note(End::Skip);
            return Made::Memory;
        }
    }
    pay(hall, i, owed.channel());
    journal.note(End::Done);
    Made::Done
}
