ghost use Rattle.std.specs.Prelude.{◌≡◌, ◌≤◌, false, true, IsTrue};
ghost use Rattle.nsq_outside.specs.Causes.{DidFails};
ghost use Rattle.queue_files.specs.Replaced.{OnlyTwoChange, Replaces};
ghost use Rattle.path_image.specs.Data.{data_name, temp_name};
ghost use Rattle.names_file.specs.Texts.{kept_of};
ghost use Rattle.broker_history.specs.State.{State};
ghost use Rattle.floor_rooms.specs.Kept.{hall_kept};
ghost use Rattle.floor_rooms.specs.Standing.{HoldsFor};
ghost use Rattle.broker_floor.specs.Floors.{faults_of, files_of, flushed_of, hall_of, kit_of};
ghost use Rattle.broker_floor.specs.Closings.{KeepsNames, Leaves, MissesSome, NamesStay, OldOrNew, ShutChanges, ShutFails, ShutsDown, WhereClean, WhereShutWants, shut_end};

use crate::Floor;
use crate::path::saving::text_of;
use backlog::Flushed;
use broker_history::Entry;
use daemon_endings::ShutEnd;
use names_file::{NAMES, NAMES_TEMP};
use nsq_outside::{Clock, Did, Folder, Journal, Kit};
use std::alloc::Global;

/// Writes the messages that are left into the queues' files, then the file of the durable names, and gives the kit back. The messages take no memory.
/// Clock and journal are as they were.
///
/// After Clean an opening finds all that the run left, each message as often, and nothing else; where the run had the last epoch it finds that none is
/// left. A fault keeps nothing else from being written: after every answer no more queues were missed than the folder's count of faults rose, the names
/// counted as one more where they were missed too. The file of names has its old content or the new one, and after Memory it is as it was.
/// Requires that the floor wasn't flushed.
pub fn shut<F: Folder, C: Clock, J: Journal<Entry>>(
    alloc: Global,
    floor: Floor<F, C, J>,
) -> (ShutEnd, Kit<F, C, J>)
    requires unflushed { flushed_of floor ≡ false }
    ensures clock { result.1.clock ≡ (kit_of floor).clock }
    ensures journal { result.1.journal ≡ (kit_of floor).journal }
    ensures names { IsTrue F.tells_files → WhereClean result.0 (KeepsNames (F.files result.1.folder) (kept_of (hall_of floor).epoch (hall_kept (hall_of floor)))) }
    ensures left { IsTrue F.tells_files → (s : State) → HoldsFor (hall_of floor) (files_of floor) s → WhereClean result.0 (Leaves s (F.files result.1.folder)) }
    ensures queues { IsTrue F.tells_files → MissesSome result.0 (faults_of floor) (F.folder_faults result.1.folder) (hall_of floor) (files_of floor) (F.files result.1.folder) }
    ensures text { IsTrue F.tells_files → OldOrNew (files_of floor) (F.files result.1.folder) (kept_of (hall_of floor).epoch (hall_kept (hall_of floor))) }
    ensures memory { IsTrue F.tells_files → WhereShutWants result.0 (NamesStay (files_of floor) (F.files result.1.folder)) }
    ensures files { IsTrue F.tells_files → ShutChanges (files_of floor) (F.files result.1.folder) }
    ensures faults { faults_of floor ≤ F.folder_faults result.1.folder }
    ensures cause { ShutFails (hall_of floor).stuck (faults_of floor) (F.folder_faults result.1.folder) result.0 }
{
    let mut floor = floor;
    let end = write_down(alloc, &mut floor);
    (end, floor.end())
}

// Writes the messages that are left, then the names.
fn write_down<F: Folder, C: Clock, J: Journal<Entry>>(
    alloc: Global,
    floor: &mut Floor<F, C, J>,
) -> ShutEnd
    requires unflushed { flushed_of floor.old ≡ false }
    ensures shuts { ShutsDown F.tells_files result (hall_of floor.old) (files_of floor.old) (files_of floor.new) (faults_of floor.old) (faults_of floor.new) }
    ensures clock { (kit_of floor.new).clock ≡ (kit_of floor.old).clock }
    ensures journal { (kit_of floor.new).journal ≡ (kit_of floor.old).journal }
{
    // The names first, as long as the floor vouches that the file can keep them.
    let text = text_of(alloc, floor);
    let flushed = floor.flush();
    let Ok(text) = text else {
        return ShutEnd::Memory;
    };
    let stored = store_behind(floor, &text);
    end_of(flushed, stored)
}

// Writes the text of the names. Requires that the messages were written before.
fn store_behind<F: Folder, C: Clock, J: Journal<Entry>>(
    floor: &mut Floor<F, C, J>,
    text: &[u8],
) -> Did
    requires { flushed_of floor.old ≡ true }
    ensures content { IsTrue F.tells_files → Replaces (files_of floor.old) (files_of floor.new) data_name temp_name text.now result }
    ensures others { IsTrue F.tells_files → OnlyTwoChange (files_of floor.old) (files_of floor.new) data_name temp_name }
    ensures clock { (kit_of floor.new).clock ≡ (kit_of floor.old).clock }
    ensures journal { (kit_of floor.new).journal ≡ (kit_of floor.old).journal }
    ensures faults { faults_of floor.old ≤ faults_of floor.new }
    ensures cause { DidFails (faults_of floor.old) (faults_of floor.new) result }
{
    floor.store(NAMES, NAMES_TEMP, text)
}

// How a floor is shut whose messages were written so, and whose names were stored so.
fn end_of(flushed: Flushed, stored: Did) -> ShutEnd
    ensures { result ≡ shut_end flushed stored }
{
    match (flushed, stored) {
        (Flushed::Done, Did::Done) => ShutEnd::Clean,
        (Flushed::Fault, _) | (Flushed::Done, Did::Failed) => ShutEnd::Fault,
    }
}
