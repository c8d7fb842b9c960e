ghost use Rattle.std.specs.Prelude.{◌≡◌, ◌≤◌, false, IfOk, IsTrue};
ghost use Rattle.nsq_outside.specs.Files.{SameFiles};
ghost use Rattle.queue_files.specs.Replaced.{OnlyTwoChange};
ghost use Rattle.path_image.specs.Data.{data_name, temp_name};
ghost use Rattle.names_file.specs.Texts.{kept_of};
ghost use Rattle.broker_history.specs.State.{State};
ghost use Rattle.floor_rooms.specs.Kept.{hall_kept};
ghost use Rattle.floor_rooms.specs.Standing.{HoldsFor};
ghost use Rattle.broker_floor.specs.Floors.{faults_of, files_of, flushed_of, hall_of, held_of, kit_of};
ghost use Rattle.broker_floor.specs.Closings.{HeldBehind, IsTextOf, KeepsNames, OldOrNew, SaveFails, WhereSaved, WhereSaveWants};

use crate::Floor;
use broker_history::Entry;
use names_file::{LONGEST_NAMES, NAMES, NAMES_TEMP, write_names};
use nsq_core::Memory;
use nsq_outside::{Clock, Did, Folder, Journal};
use std::alloc::Global;

/// How saving the names ended.
#[derive(Clone, Copy)]
pub enum Saved {
    /// They are in the folder, durably.
    Done,
    /// The folder failed, and its count of faults rose in this call. The file has its old content or the new one.
    Fault,
    /// Want of memory for the text, or one of more than 16 MiB. No file changed.
    Memory,
}

/// Writes the file of the durable names as they are: the run's epoch, and the durable topics and channels with their pauses. At every moment the file has
/// its old content or the new one. Where that is done the floor notes that no name is unsaved; after another answer it still says what was to be saved.
/// Requires that the floor wasn't flushed.
pub fn save<F: Folder, C: Clock, J: Journal<Entry>>(
    alloc: Global,
    floor: &mut Floor<F, C, J>,
) -> Saved
    requires unflushed { flushed_of floor.old ≡ false }
    ensures names { IsTrue F.tells_files → WhereSaved result (KeepsNames (files_of floor.new) (kept_of (hall_of floor.old).epoch (hall_kept (hall_of floor.old)))) }
    ensures held { HeldBehind result (held_of floor.old) (held_of floor.new) }
    ensures stands { IsTrue F.tells_files → (s : State) → HoldsFor (hall_of floor.old) (files_of floor.old) s → HoldsFor (hall_of floor.new) (files_of floor.new) s }
    ensures text { IsTrue F.tells_files → OldOrNew (files_of floor.old) (files_of floor.new) (kept_of (hall_of floor.old).epoch (hall_kept (hall_of floor.old))) }
    ensures memory { IsTrue F.tells_files → WhereSaveWants result (SameFiles (files_of floor.old) (files_of floor.new)) }
    ensures others { IsTrue F.tells_files → OnlyTwoChange (files_of floor.old) (files_of floor.new) data_name temp_name }
    ensures clock { (kit_of floor.new).clock ≡ (kit_of floor.old).clock }
    ensures journal { (kit_of floor.new).journal ≡ (kit_of floor.old).journal }
    ensures faults { faults_of floor.old ≤ faults_of floor.new }
    ensures cause { SaveFails (faults_of floor.old) (faults_of floor.new) result }
{
    let Ok(text) = text_of(alloc, floor) else {
        return Saved::Memory;
    };
    match floor.store(NAMES, NAMES_TEMP, &text) {
        Did::Done => {
            floor.saved();
            Saved::Done
        }
        Did::Failed => Saved::Fault,
    }
}

// The text of the file of names, as they are. Want of memory is the only error, also for a text of more than 16 MiB.
pub(crate) fn text_of<F: Folder, C: Clock, J: Journal<Entry>>(
    alloc: Global,
    floor: &Floor<F, C, J>,
) -> Result<Vec<u8>, Memory>
    requires { flushed_of floor.now ≡ false }
    ensures { IfOk result (λ text. IsTextOf text.items (kept_of (hall_of floor.now).epoch (hall_kept (hall_of floor.now)))) }
{
    let kept = floor.kept(alloc)?;
    let mut text = Vec::new(alloc);
    write_names(alloc, floor.epoch(), &kept, &mut text)?;
    if text.len() > LONGEST_NAMES {
        return Err(Memory);
    }
    Ok(text)
}
