ghost use Rattle.std.specs.Prelude.{◌≡◌, ◌≤◌, IsTrue, length};
ghost use Rattle.backlog.specs.Answers.{FlushFails};
ghost use Rattle.broker_history.specs.State.{State};
ghost use Rattle.floor_rooms.specs.Changes.{OnlyQueueFiles};
ghost use Rattle.floor_rooms.specs.Kept.{hall_kept};
ghost use Rattle.floor_rooms.specs.Sound.{IsSound};
ghost use Rattle.floor_rooms.specs.Standing.{HoldsFor};
ghost use Rattle.floor_files.specs.Flushing.{CanFlushRoom, FlushesRoom, KeepsRoomNames, LeavesOthers, LeavesWhere, StallsSoFar, both_flushed};

use backlog::Flushed;
use floor_rooms::{Hall, Room};
use nsq_base::Steps;
use nsq_outside::Folder;
use std::sync::ledger::Ledger;

/// Writes all that durable topics and their durable channels have in memory behind what is on disk, and saves: the messages that wait and those that
/// were taken, and each channel's copies, those in flight and deferred too. A fault keeps none of the others from being written; after one nothing is
/// claimed of what is on disk. Afterwards the hall says which names are kept, and nothing is claimed of the states that it stands for. It takes no
/// memory. Requires 16,777,242 bytes of `scratch`.
pub fn flush_all<F: Folder, L: Ledger>(
    hall: &mut Hall,
    folder: &mut F,
    scratch: &mut [u8],
    steps: &mut Steps<L>,
) -> Flushed
    requires sound { IsSound hall.old }
    requires scratch { 16777242 ≤ length scratch.old }
    ensures left { IsTrue F.tells_files → (s : State) → HoldsFor hall.old (F.files folder.old) s → LeavesWhere result s (F.files folder.new) }
    ensures others { IsTrue F.tells_files → LeavesOthers result (F.folder_faults folder.old) (F.folder_faults folder.new) hall.old (F.files folder.old) (F.files folder.new) }
    ensures kept { hall_kept hall.new ≡ hall_kept hall.old }
    ensures rest { hall.new ≡ record hall.old { rooms = hall.new.rooms } }
    ensures files { IsTrue F.tells_files → OnlyQueueFiles (F.files folder.old) (F.files folder.new) }
    ensures faults { F.folder_faults folder.old ≤ F.folder_faults folder.new }
    ensures cause { FlushFails (F.folder_faults folder.old) (F.folder_faults folder.new) result }
{
    let mut done = Flushed::Done;
    let count = hall.rooms.len();
    for i in 0..count {
        let room = flush_room(&mut hall.rooms[i], folder, scratch, steps);
        done = both_flushed(done, room);
    }
    done
}

// Writes all that a topic and its channels have in memory.
fn flush_room<F: Folder, L: Ledger>(
    room: &mut Room,
    folder: &mut F,
    scratch: &mut [u8],
    steps: &mut Steps<L>,
) -> Flushed
    requires ready { CanFlushRoom room.old }
    requires scratch { 16777242 ≤ length scratch.old }
    ensures flushes { IsTrue F.tells_files → FlushesRoom result (F.folder_faults folder.old) (F.folder_faults folder.new) room.old (F.files folder.old) (F.files folder.new) }
    ensures keeps { KeepsRoomNames room.old room.new }
    ensures files { IsTrue F.tells_files → OnlyQueueFiles (F.files folder.old) (F.files folder.new) }
    ensures faults { F.folder_faults folder.old ≤ F.folder_faults folder.new }
    ensures cause { FlushFails (F.folder_faults folder.old) (F.folder_faults folder.new) result }
{
    let stalls = flush_stalls(room, folder, scratch, steps);
    let own = room.queue.flush(folder, scratch);
    both_flushed(stalls, own)
}

// Writes all that a topic's channels have in memory.
fn flush_stalls<F: Folder, L: Ledger>(
    room: &mut Room,
    folder: &mut F,
    scratch: &mut [u8],
    steps: &mut Steps<L>,
) -> Flushed
    requires ready { CanFlushRoom room.old }
    requires scratch { 16777242 ≤ length scratch.old }
    ensures flushes { StallsSoFar F.tells_files (length room.old.stalls.items) room.old room.new result (F.files folder.old) (F.files folder.new) (F.folder_faults folder.old) (F.folder_faults folder.new) }
{
    let mut done = Flushed::Done;
    let count = room.stalls.len();
    for j in 0..count {
        let stall = room.stalls[j].channel.flush(folder, scratch, steps);
        done = both_flushed(done, stall);
    }
    done
}

// Two answers together: a fault where one of them is.
fn both_flushed(a: Flushed, b: Flushed) -> Flushed
    ensures { result ≡ both_flushed a b }
{
    match a {
        Flushed::Done => b,
        Flushed::Fault => Flushed::Fault,
    }
}
