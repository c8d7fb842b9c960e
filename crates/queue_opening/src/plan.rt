ghost use Rattle.std.specs.Prelude.{◌≡◌, ◌+◌, ◌^◌, ◌≤◌, ℕ, List, Contains, IsTrue, IfOk, IfErr, IfSome, OnOk};
ghost use Rattle.nsq_outside.specs.Files.{SameFiles};
ghost use Rattle.queue_image.specs.FileNames.{meta_file};
ghost use Rattle.queue_image.specs.Between.{content};
ghost use Rattle.queue_image.specs.Places.{IsOrdered, IsInRange};
ghost use Rattle.queue_opening.specs.Refusals.{OpenFails, OpenCounts, NotBadMeta};
ghost use Rattle.queue_opening.specs.Walked.{HasNumbers, WalkFits};
ghost use Rattle.queue_opening.specs.Planned.{SaysWhere, IsUsable, SpoiltWhere, HasNumbersOf, AddsNumber, FoundBetween, start_of, settled, IsSettled, PlansWith, PlansWithout, IsPlanned, IsPlan, FindsBadMeta};

use crate::Open;
use crate::walking::{Walk, walk_files};
use nsq_core::Memory;
use nsq_outside::{Folder, Length, Listing, ReadAt};
use queue_files::{QueueFiles, QueueOptions};
use queue_image::{LAST_FILE, Positions, file_names, read_meta};
use std::alloc::Global;

/// What an opening makes of a queue's files.
#[derive(Drop)]
pub struct Plan {
    /// The numbers of the data files that are there.
    pub numbers: Vec<u64>,
    /// Those from this one on are set aside.
    pub above: u64,
    /// Those below this one are removed.
    pub below: u64,
    /// The numbers of the bad ones, which are set aside.
    pub bad: Vec<u64>,
    /// How many records the list has.
    pub depth: u128,
    /// Where the queue reads and writes then.
    pub positions: Positions,
}

/// Finds the list of a queue, and what is to be done with its files. It changes no file.
pub fn make_plan<F: Folder>(
    alloc: Global,
    folder: &mut F,
    files: &mut QueueFiles,
    name: &str,
    options: &QueueOptions,
) -> Result<Plan, Open>
    requires { files.old ≡ name.now }
    ensures name { files.new ≡ files.old }
    ensures plan { IsTrue F.tells_files → IfOk result (λ plan. IsPlanned options.now.least options.now.limit (F.files folder.old) name.now plan) }
    ensures sound { IfOk result (λ plan. IsPlan plan) }
    ensures bad_meta { IsTrue F.tells_files → IfErr result (λ e. FindsBadMeta options.now.least options.now.limit (F.files folder.old) name.now e) }
    ensures same { IsTrue F.tells_files → SameFiles (F.files folder.old) (F.files folder.new) }
    ensures faults { F.folder_faults folder.old ≤ F.folder_faults folder.new }
    ensures cause { IfErr result (λ e. OpenFails (F.folder_faults folder.old) (F.folder_faults folder.new) e) }
    ensures exact { IsTrue F.counts_exactly → OpenCounts (F.folder_faults folder.old) (F.folder_faults folder.new) result }
{
    let Ok(meta) = file_names::meta_file(alloc, name) else {
        return Err(Open::Memory);
    };
    let found = match find_meta(folder, meta.as_str()) {
        Ok(found) => found,
        Err(why) => return Err(why),
    };
    let numbers = match list_numbers(alloc, folder, name) {
        Ok(numbers) => numbers,
        Err(why) => return Err(why),
    };
    match found {
        Some(positions) => with_metadata(alloc, folder, files, numbers, positions, options),
        None => Ok(without_metadata(alloc, numbers)),
    }
}

// Without metadata every data file is set aside, and the list is empty.
fn without_metadata(alloc: Global, numbers: Vec<u64>) -> Plan
    ensures numbers { result.numbers ≡ numbers }
    ensures plan { PlansWithout result }
    ensures sound { IsPlan result }
{
    Plan {
        numbers,
        above: 0,
        below: 0,
        bad: Vec::new(alloc),
        depth: 0,
        positions: start_of(0),
    }
}

// With metadata the list is what the walk finds from the read position to the write position.
fn with_metadata<F: Folder>(
    alloc: Global,
    folder: &mut F,
    files: &mut QueueFiles,
    numbers: Vec<u64>,
    positions: Positions,
    options: &QueueOptions,
) -> Result<Plan, Open>
    requires { IsUsable positions }
    ensures name { files.new ≡ files.old }
    ensures numbers { IfOk result (λ plan. plan.numbers.items ≡ numbers.items) }
    ensures plan { IsTrue F.tells_files → HasNumbers (F.files folder.old) files.old numbers.items → IfOk result (λ plan. PlansWith options.now.least options.now.limit (F.files folder.old) files.old plan positions) }
    ensures sound { IfOk result (λ plan. IsPlan plan) }
    ensures same { IsTrue F.tells_files → SameFiles (F.files folder.old) (F.files folder.new) }
    ensures faults { F.folder_faults folder.old ≤ F.folder_faults folder.new }
    ensures cause { IfErr result (λ e. OpenFails (F.folder_faults folder.old) (F.folder_faults folder.new) e) }
    ensures exact { IsTrue F.counts_exactly → OpenCounts (F.folder_faults folder.old) (F.folder_faults folder.new) result }
    ensures meta { IfErr result NotBadMeta }
{
    match walk_between(alloc, folder, files, &numbers, &positions, options) {
        Ok(found) => Ok(arranged(numbers, positions, found)),
        Err(why) => Err(why),
    }
}

// What is found between the positions.
fn walk_between<F: Folder>(
    alloc: Global,
    folder: &mut F,
    files: &mut QueueFiles,
    numbers: &[u64],
    positions: &Positions,
    options: &QueueOptions,
) -> Result<Walk, Open>
    requires { IsUsable positions.now }
    ensures name { files.new ≡ files.old }
    ensures meta { IfErr result NotBadMeta }
    ensures found { IsTrue F.tells_files → HasNumbers (F.files folder.old) files.old numbers.now → IfOk result (λ found. FoundBetween options.now.least options.now.limit positions.now (content (F.files folder.old) files.old) found.depth found.bad.items) }
    ensures fits { IfOk result (λ found. WalkFits positions.now found) }
    ensures same { IsTrue F.tells_files → SameFiles (F.files folder.old) (F.files folder.new) }
    ensures faults { F.folder_faults folder.old ≤ F.folder_faults folder.new }
    ensures cause { IfErr result (λ e. OpenFails (F.folder_faults folder.old) (F.folder_faults folder.new) e) }
    ensures exact { IsTrue F.counts_exactly → OpenCounts (F.folder_faults folder.old) (F.folder_faults folder.new) result }
{
    if positions.at_end() {
        return Ok(Walk {
            depth: 0,
            bad: Vec::new(alloc),
        });
    }
    walk_files(alloc, folder, files, numbers, positions, options)
}

// What is done with the files where this was found between the positions.
fn arranged(numbers: Vec<u64>, positions: Positions, found: Walk) -> Plan
    requires usable { IsUsable positions }
    requires fits { WalkFits positions found }
    ensures numbers { result.numbers ≡ numbers }
    ensures depth { result.depth ≡ found.depth }
    ensures bad { result.bad ≡ found.bad }
    ensures above { result.above ≡ positions.write_file + 1 }
    ensures below { result.below ≡ positions.read_file }
    ensures settles { IsSettled positions found.depth found.bad.items result.positions }
    ensures sound { IsPlan result }
{
    let settled = settle(positions, &found);
    Plan {
        numbers,
        above: positions.write_file + 1,
        below: positions.read_file,
        bad: found.bad,
        depth: found.depth,
        positions: settled,
    }
}

// Where a queue stands where this was found between the positions.
fn settle(positions: Positions, found: &Walk) -> Positions
    requires { positions.write_file ≤ 2 ^ 40 }
    ensures { IsSettled positions found.now.depth found.now.bad.items result }
{
    let read_bad = found.bad.contains(&positions.read_file);
    let write_bad = found.bad.contains(&positions.write_file);
    settled(positions, found.depth == 0, read_bad, write_bad)
}

// Where a queue stands once its bad files are set aside: writing goes on in a new file where the write file was bad, reading at the
// start of the read file where that was bad, and without a record both at the start of the write file.
fn settled(positions: Positions, none: bool, read_bad: bool, write_bad: bool) -> Positions
    requires { positions.write_file ≤ 2 ^ 40 }
    ensures { result ≡ settled positions none read_bad write_bad }
{
    let write_file = if write_bad {
        (positions.write_file + 1).min(LAST_FILE)
    } else {
        positions.write_file
    };
    if none {
        return start_of(write_file);
    }
    Positions {
        read_file: positions.read_file,
        read_at: if read_bad { 0 } else { positions.read_at },
        write_file,
        write_at: if write_bad { 0 } else { positions.write_at },
    }
}

// Both positions at the start of a file.
fn start_of(file: u64) -> Positions
    ensures { result ≡ start_of file }
{
    Positions {
        read_file: file,
        read_at: 0,
        write_file: file,
        write_at: 0,
    }
}

// How many bytes a metadata text has at most: five numbers of 40 digits, and a byte behind each.
const LONGEST: usize = 205;

// The positions that the metadata says; None where there is none.
fn find_meta<F: Folder>(folder: &mut F, file: &str) -> Result<Option<Positions>, Open>
    ensures found { IsTrue F.tells_files → IfOk result (λ found. SaysWhere (F.files folder.old file.now) found) }
    ensures usable { IfOk result (λ found. IfSome found (λ p. IsUsable p)) }
    ensures bad_meta { IsTrue F.tells_files → IfErr result (λ e. SpoiltWhere (F.files folder.old file.now) e) }
    ensures same { IsTrue F.tells_files → SameFiles (F.files folder.old) (F.files folder.new) }
    ensures faults { F.folder_faults folder.old ≤ F.folder_faults folder.new }
    ensures cause { IfErr result (λ e. OpenFails (F.folder_faults folder.old) (F.folder_faults folder.new) e) }
    ensures exact { IsTrue F.counts_exactly → OpenCounts (F.folder_faults folder.old) (F.folder_faults folder.new) result }
{
    match folder.len(file) {
        Length::Is(_) => {}
        Length::Absent => return Ok(None),
        Length::Failed => return Err(Open::Fault),
    }
    let mut text = [0; LONGEST + 1];
    let len = match folder.read_at(file, 0, &mut text) {
        ReadAt::Got(len) => len,
        ReadAt::Failed => return Err(Open::Fault),
    };
    if len > LONGEST {
        return Err(Open::BadMeta);
    }
    match read_meta(&text[..len]) {
        Some(positions) => Ok(Some(positions)),
        None => Err(Open::BadMeta),
    }
}

// The numbers of the data files of a queue that are there.
fn list_numbers<F: Folder>(alloc: Global, folder: &mut F, name: &str) -> Result<Vec<u64>, Open>
    ensures numbers { IsTrue F.tells_files → IfOk result (λ numbers. HasNumbers (F.files folder.old) name.now numbers.items) }
    ensures same { IsTrue F.tells_files → SameFiles (F.files folder.old) (F.files folder.new) }
    ensures faults { F.folder_faults folder.old ≤ F.folder_faults folder.new }
    ensures cause { IfErr result (λ e. OpenFails (F.folder_faults folder.old) (F.folder_faults folder.new) e) }
    ensures exact { IsTrue F.counts_exactly → OpenCounts (F.folder_faults folder.old) (F.folder_faults folder.new) result }
    ensures meta { IfErr result NotBadMeta }
{
    let Ok(beginning) = file_names::file_beginning(alloc, name) else {
        return Err(Open::Memory);
    };
    let mut names = Vec::new(alloc);
    match folder.list(alloc, beginning.as_str(), &mut names) {
        Listing::Done => {}
        Listing::Failed => return Err(Open::Fault),
        Listing::Memory => return Err(Open::Memory),
    }
    match numbers_in(alloc, name, &names) {
        Ok(numbers) => Ok(numbers),
        Err(Memory) => Err(Open::Memory),
    }
}

// The numbers of the data files of a queue among these files.
fn numbers_in(alloc: Global, name: &str, files: &[String]) -> Result<Vec<u64>, Memory>
    ensures { IfOk result (λ numbers. HasNumbersOf files.now name.now numbers.items) }
{
    let mut numbers = Vec::new(alloc);
    for file in files {
        add_number(alloc, name, file.as_str(), &mut numbers)?;
    }
    Ok(numbers)
}

// Adds the number of a file, where it is a data file of the queue.
fn add_number(alloc: Global, name: &str, file: &str, numbers: &mut Vec<u64>) -> Result<(), Memory>
    ensures { OnOk result (AddsNumber name.now file.now numbers.old.items numbers.new.items) }
{
    if let Some(number) = file_names::number_of(alloc, name, file.as_bytes())? {
        numbers.push(number)?;
    }
    Ok(())
}
