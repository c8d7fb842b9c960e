ghost use Rattle.std.specs.Prelude.{◌≡◌, ◌+◌, ◌^◌, ◌<◌, ◌≤◌, ℕ, Contains, IsTrue};
ghost use Rattle.nsq_outside.specs.Causes.{DidFails, DidCounts};
ghost use Rattle.queue_opening.specs.Tidied.{AsideStep, OnlyAsideChanges, AsideWhere, RemoveStep, RemovedWhere, OnlyRemovedChange, OnlyTidied, TidyWhere, IsPartlyTidy, WrittenWhere, OnlyWritten};
ghost use Rattle.queue_opening.specs.Planned.{IsPlan};

use crate::names::Names;
use crate::plan::Plan;
use nsq_outside::{Did, Folder};
use queue_files::QueueFiles;

/// Removes and sets aside what a plan says, and cuts the write file. Takes no memory.
pub fn tidy<F: Folder>(
    folder: &mut F,
    names: &mut Names,
    files: &mut QueueFiles,
    plan: &Plan,
) -> Did
    requires name { names.old ≡ files.old }
    requires plan { IsPlan plan.now }
    ensures name { files.new ≡ files.old }
    ensures tidy { IsTrue F.tells_files → TidyWhere files.old plan.now (F.files folder.old) (F.files folder.new) result }
    ensures partly { IsTrue F.tells_files → IsPartlyTidy files.old plan.now (F.files folder.old) (F.files folder.new) }
    ensures others { IsTrue F.tells_files → OnlyTidied files.old plan.now (F.files folder.old) (F.files folder.new) }
    ensures faults { F.folder_faults folder.old ≤ F.folder_faults folder.new }
    ensures cause { DidFails (F.folder_faults folder.old) (F.folder_faults folder.new) result }
    ensures exact { IsTrue F.counts_exactly → DidCounts (F.folder_faults folder.old) (F.folder_faults folder.new) result }
{
    match remove(folder, files, &plan.numbers, plan.below) {
        Did::Done => {}
        Did::Failed => return Did::Failed,
    }
    match set_aside(folder, names, &plan.numbers, plan.above) {
        Did::Done => {}
        Did::Failed => return Did::Failed,
    }
    match set_aside(folder, names, &plan.bad, 0) {
        Did::Done => {}
        Did::Failed => return Did::Failed,
    }
    files.cut(folder, plan.positions.write_file, plan.positions.write_at)
}

/// Saves a plan's list, and removes the files below its read file. Takes no memory.
pub fn write_down<F: Folder>(folder: &mut F, files: &mut QueueFiles, plan: &Plan) -> Did
    requires { IsPlan plan.now }
    ensures name { files.new ≡ files.old }
    ensures written { IsTrue F.tells_files → WrittenWhere files.old plan.now (F.files folder.old) (F.files folder.new) result }
    ensures others { IsTrue F.tells_files → OnlyWritten files.old plan.now (F.files folder.old) (F.files folder.new) }
    ensures faults { F.folder_faults folder.old ≤ F.folder_faults folder.new }
    ensures cause { DidFails (F.folder_faults folder.old) (F.folder_faults folder.new) result }
    ensures exact { IsTrue F.counts_exactly → DidCounts (F.folder_faults folder.old) (F.folder_faults folder.new) result }
{
    match files.save(folder, plan.depth, plan.positions) {
        Did::Done => {}
        Did::Failed => return Did::Failed,
    }
    remove(folder, files, &plan.numbers, plan.positions.read_file)
}

// Sets aside the data files of these numbers that aren't below `from`, one after the other, up to a failure.
fn set_aside<F: Folder>(folder: &mut F, names: &mut Names, numbers: &[u64], from: u64) -> Did
    ensures name { names.new ≡ names.old }
    ensures aside { IsTrue F.tells_files → AsideWhere names.old numbers.now from (F.files folder.old) (F.files folder.new) result }
    ensures others { IsTrue F.tells_files → OnlyAsideChanges names.old numbers.now from (F.files folder.old) (F.files folder.new) }
    ensures faults { F.folder_faults folder.old ≤ F.folder_faults folder.new }
    ensures cause { DidFails (F.folder_faults folder.old) (F.folder_faults folder.new) result }
    ensures exact { IsTrue F.counts_exactly → DidCounts (F.folder_faults folder.old) (F.folder_faults folder.new) result }
{
    for number in numbers {
        match set_aside_one(folder, names, *number, from) {
            Did::Done => {}
            Did::Failed => return Did::Failed,
        }
    }
    Did::Done
}

// Sets aside the data file of that number, unless that is below `from`.
fn set_aside_one<F: Folder>(folder: &mut F, names: &mut Names, number: u64, from: u64) -> Did
    ensures name { names.new ≡ names.old }
    ensures step { IsTrue F.tells_files → AsideStep names.old from number (F.files folder.old) (F.files folder.new) result }
    ensures faults { F.folder_faults folder.old ≤ F.folder_faults folder.new }
    ensures cause { DidFails (F.folder_faults folder.old) (F.folder_faults folder.new) result }
    ensures exact { IsTrue F.counts_exactly → DidCounts (F.folder_faults folder.old) (F.folder_faults folder.new) result }
{
    if number < from {
        return Did::Done;
    }
    names.set_aside(folder, number)
}

// Removes the data files of these numbers that are below `to`, one after the other, up to a failure.
fn remove<F: Folder>(folder: &mut F, files: &mut QueueFiles, numbers: &[u64], to: u64) -> Did
    requires { to ≤ 2 ^ 40 }
    ensures name { files.new ≡ files.old }
    ensures removed { IsTrue F.tells_files → RemovedWhere files.old numbers.now to (F.files folder.new) result }
    ensures others { IsTrue F.tells_files → OnlyRemovedChange files.old numbers.now to (F.files folder.old) (F.files folder.new) }
    ensures faults { F.folder_faults folder.old ≤ F.folder_faults folder.new }
    ensures cause { DidFails (F.folder_faults folder.old) (F.folder_faults folder.new) result }
    ensures exact { IsTrue F.counts_exactly → DidCounts (F.folder_faults folder.old) (F.folder_faults folder.new) result }
{
    for number in numbers {
        match remove_one(folder, files, *number, to) {
            Did::Done => {}
            Did::Failed => return Did::Failed,
        }
    }
    Did::Done
}

// Removes the data file of that number, where that is below `to`.
fn remove_one<F: Folder>(folder: &mut F, files: &mut QueueFiles, number: u64, to: u64) -> Did
    requires { to ≤ 2 ^ 40 }
    ensures name { files.new ≡ files.old }
    ensures step { IsTrue F.tells_files → RemoveStep files.old to number (F.files folder.old) (F.files folder.new) result }
    ensures faults { F.folder_faults folder.old ≤ F.folder_faults folder.new }
    ensures cause { DidFails (F.folder_faults folder.old) (F.folder_faults folder.new) result }
    ensures exact { IsTrue F.counts_exactly → DidCounts (F.folder_faults folder.old) (F.folder_faults folder.new) result }
{
    if number >= to {
        return Did::Done;
    }
    files.remove(folder, number, number + 1)
}
