ghost use Rattle.std.specs.Prelude.{◌≡◌, ◌+◌, ◌∷◌, [], ◌++◌, ◌<◌, ◌≤◌, ℕ, List, length, take, drop, IsTrue, IfOk, IfErr, OnOk};
ghost use Rattle.std.specs.List.{slice_range};
ghost use Rattle.std.specs.Int.{w32, to_be_bytes};
ghost use Rattle.nsq_outside.specs.Files.{SameFiles};
ghost use Rattle.queue_image.specs.Between.{content};
ghost use Rattle.queue_image.specs.Places.{IsOrdered, IsInRange, IsBehind};
ghost use Rattle.queue_opening.specs.Refusals.{OpenFails, OpenCounts, NotBadMeta};
ghost use Rattle.queue_opening.specs.Walked.{SizeIs, SizeFails, SizeCounts, StandsAt, StandsWithin, StandFails, StandCounts, RowGives, RowWithin, GivesOf, GivesWithin, GivesFails, GivesCounts, IsNextIn, HasRoomFor, WalkAdds, WalksUpTo, WalkFits, HasNumbers};

use crate::Open;
use nsq_core::Memory;
use nsq_outside::{Folder, ReadAt};
use queue_files::{QueueFiles, QueueOptions, size_spelled};
use queue_image::Positions;
use std::alloc::Global;

/// The size of a record.
#[derive(Clone, Copy)]
pub enum Size {
    /// It is this.
    Is(u32),
    /// Fewer than four bytes are there.
    Short,
    /// The folder failed, and its count of faults rose in this call.
    Fault,
}

/// What stands at a place in a file.
#[derive(Clone, Copy)]
pub enum Stand {
    /// A record that ends at this place.
    Record(u64),
    /// No record.
    Damage,
    /// The folder failed, and its count of faults rose in this call.
    Fault,
}

/// What a file gives.
#[derive(Clone, Copy)]
pub enum Gives {
    /// So many records.
    Good(u64),
    /// Nothing, since it is bad.
    Bad,
    /// The folder failed, and its count of faults rose in this call.
    Fault,
}

/// What a walk over files found.
#[derive(Drop)]
pub struct Walk {
    /// How many records the good files have.
    pub depth: u128,
    /// The numbers of the bad files, lowest first.
    pub bad: Vec<u64>,
}

/// Walks over the files from the read file to the write file, by the sizes of their records alone. Numbers without a file between
/// those two are passed over at once.
pub fn walk_files<F: Folder>(
    alloc: Global,
    folder: &mut F,
    files: &mut QueueFiles,
    numbers: &[u64],
    positions: &Positions,
    options: &QueueOptions,
) -> Result<Walk, Open>
    requires order { IsOrdered positions.now }
    requires range { IsInRange positions.now }
    ensures name { files.new ≡ files.old }
    ensures walk { IsTrue F.tells_files → HasNumbers (F.files folder.old) files.old numbers.now → IfOk result (λ walk. WalksUpTo options.now.least options.now.limit positions.now (content (F.files folder.old) files.old) (positions.now.write_file + 1) walk.depth walk.bad.items) }
    ensures fits { IfOk result (λ walk. WalkFits positions.now walk) }
    ensures meta { IfErr result NotBadMeta }
    ensures same { IsTrue F.tells_files → SameFiles (F.files folder.old) (F.files folder.new) }
    ensures faults { F.folder_faults folder.old ≤ F.folder_faults folder.new }
    ensures cause { IfErr result (λ e. OpenFails (F.folder_faults folder.old) (F.folder_faults folder.new) e) }
    ensures exact { IsTrue F.counts_exactly → OpenCounts (F.folder_faults folder.old) (F.folder_faults folder.new) result }
{
    let mut walk = Walk {
        depth: 0,
        bad: Vec::new(alloc),
    };
    let mut number = positions.read_file;
    while number < positions.write_file {
        let gives = given_by(folder, files, number, positions, options);
        match walk.add(number, gives) {
            Ok(()) => {}
            Err(why) => return Err(why),
        }
        number = next_number(numbers, number + 1, positions.write_file);
    }
    let gives = given_by(folder, files, positions.write_file, positions, options);
    match walk.add(positions.write_file, gives) {
        Ok(()) => Ok(walk),
        Err(why) => Err(why),
    }
}

impl Walk {
    // Adds what the file of that number gives.
    fn add(&mut self, number: u64, gives: Gives) -> Result<(), Open>
        requires { HasRoomFor self.old.depth gives }
        ensures added { OnOk result (WalkAdds self.old self.new number gives) }
        ensures meta { IfErr result NotBadMeta }
        ensures cause { (before now : ℕ) → GivesFails before now gives → IfErr result (λ e. OpenFails before now e) }
        ensures exact { (before now : ℕ) → GivesCounts before now gives → OpenCounts before now result }
    {
        match gives {
            Gives::Good(count) => self.depth += count as u128,
            Gives::Bad => push(&mut self.bad, number)?,
            Gives::Fault => return Err(Open::Fault),
        }
        Ok(())
    }
}

// Puts a number behind the others.
fn push(numbers: &mut Vec<u64>, number: u64) -> Result<(), Memory>
    ensures { OnOk result (numbers.new.items ≡ numbers.old.items ++ number ∷ []) }
{
    numbers.push(number)?;
    Ok(())
}

// The least of the numbers from `from` on, or `last` where none is below it.
fn next_number(numbers: &[u64], from: u64, last: u64) -> u64
    ensures { IsNextIn numbers.now from last result }
{
    let mut next = last;
    for number in numbers {
        next = nearer(from, next, *number);
    }
    next
}

// The lesser of the two numbers, if the second isn't below `from`.
fn nearer(from: u64, next: u64, number: u64) -> u64
    ensures most { result ≤ next }
    ensures least { from ≤ next → from ≤ result }
    ensures number { from ≤ number → result ≤ number }
{
    if number >= from && number < next {
        number
    } else {
        next
    }
}

// What the file of that number gives.
fn given_by<F: Folder>(
    folder: &mut F,
    files: &mut QueueFiles,
    number: u64,
    positions: &Positions,
    options: &QueueOptions,
) -> Gives
    requires order { IsOrdered positions.now }
    requires range { IsInRange positions.now }
    ensures name { files.new ≡ files.old }
    ensures gives { IsTrue F.tells_files → GivesOf options.now.least options.now.limit positions.now number (content (F.files folder.old) files.old number) result }
    ensures within { GivesWithin positions.now number result }
    ensures same { IsTrue F.tells_files → SameFiles (F.files folder.old) (F.files folder.new) }
    ensures faults { F.folder_faults folder.old ≤ F.folder_faults folder.new }
    ensures cause { GivesFails (F.folder_faults folder.old) (F.folder_faults folder.new) result }
    ensures exact { IsTrue F.counts_exactly → GivesCounts (F.folder_faults folder.old) (F.folder_faults folder.new) result }
{
    let Some(len) = files.len(folder, number) else {
        return Gives::Fault;
    };
    let start = positions.start_in(number);
    let end = positions.end_in(number, len);
    if start > len {
        return Gives::Bad;
    }
    if end > len {
        return Gives::Bad;
    }
    count_row(folder, files, number, start, end, options)
}

// How many records stand in a row in a part of a file.
fn count_row<F: Folder>(
    folder: &mut F,
    files: &mut QueueFiles,
    number: u64,
    start: u64,
    end: u64,
    options: &QueueOptions,
) -> Gives
    requires { start ≤ end }
    ensures name { files.new ≡ files.old }
    ensures row { IsTrue F.tells_files → end ≤ length (content (F.files folder.old) files.old number) → RowGives options.now.least options.now.limit (slice_range (content (F.files folder.old) files.old number) start end) result }
    ensures within { RowWithin start end result }
    ensures same { IsTrue F.tells_files → SameFiles (F.files folder.old) (F.files folder.new) }
    ensures faults { F.folder_faults folder.old ≤ F.folder_faults folder.new }
    ensures cause { GivesFails (F.folder_faults folder.old) (F.folder_faults folder.new) result }
    ensures exact { IsTrue F.counts_exactly → GivesCounts (F.folder_faults folder.old) (F.folder_faults folder.new) result }
{
    let mut place = start;
    let mut count = 0;
    while place < end {
        match stand_at(folder, files, number, place, end, options) {
            Stand::Record(next) => {
                place = next;
                count += 1;
            }
            Stand::Damage => return Gives::Bad,
            Stand::Fault => return Gives::Fault,
        }
    }
    Gives::Good(count)
}

// What stands at a place in a file, of which the bytes up to `end` count.
fn stand_at<F: Folder>(
    folder: &mut F,
    files: &mut QueueFiles,
    number: u64,
    at: u64,
    end: u64,
    options: &QueueOptions,
) -> Stand
    requires { at < end }
    ensures name { files.new ≡ files.old }
    ensures stand { IsTrue F.tells_files → end ≤ length (content (F.files folder.old) files.old number) → StandsAt options.now.least options.now.limit (content (F.files folder.old) files.old number) at end result }
    ensures within { StandsWithin at end result }
    ensures same { IsTrue F.tells_files → SameFiles (F.files folder.old) (F.files folder.new) }
    ensures faults { F.folder_faults folder.old ≤ F.folder_faults folder.new }
    ensures cause { StandFails (F.folder_faults folder.old) (F.folder_faults folder.new) result }
    ensures exact { IsTrue F.counts_exactly → StandCounts (F.folder_faults folder.old) (F.folder_faults folder.new) result }
{
    if end - at < 4 {
        return Stand::Damage;
    }
    match size_at(folder, files, number, at) {
        Size::Is(size) => judge(size, at, end, options),
        Size::Short => Stand::Damage,
        Size::Fault => Stand::Fault,
    }
}

// What stands at a place where that size is read.
fn judge(size: u32, at: u64, end: u64, options: &QueueOptions) -> Stand
    requires { at + 4 ≤ end }
    ensures stand { (bytes : List ℕ) → to_be_bytes w32 size ≡ take 4 (drop at bytes) → end ≤ length bytes → StandsAt options.now.least options.now.limit bytes at end result }
    ensures within { StandsWithin at end result }
    ensures cause { (before now : ℕ) → StandFails before now result }
    ensures exact { (before : ℕ) → StandCounts before before result }
{
    if size < options.least {
        return Stand::Damage;
    }
    if size > options.limit {
        return Stand::Damage;
    }
    if size as u64 > end - at - 4 {
        return Stand::Damage;
    }
    Stand::Record(at + (4 + size as u64))
}

// The size at a place in a file.
fn size_at<F: Folder>(folder: &mut F, files: &mut QueueFiles, number: u64, at: u64) -> Size
    ensures name { files.new ≡ files.old }
    ensures size { IsTrue F.tells_files → SizeIs (drop at (content (F.files folder.old) files.old number)) result }
    ensures same { IsTrue F.tells_files → SameFiles (F.files folder.old) (F.files folder.new) }
    ensures faults { F.folder_faults folder.old ≤ F.folder_faults folder.new }
    ensures cause { SizeFails (F.folder_faults folder.old) (F.folder_faults folder.new) result }
    ensures exact { IsTrue F.counts_exactly → SizeCounts (F.folder_faults folder.old) (F.folder_faults folder.new) result }
{
    let mut size = [0; 4];
    match files.read_at(folder, number, at, &mut size) {
        ReadAt::Got(4) => {}
        ReadAt::Got(_) => return Size::Short,
        ReadAt::Failed => return Size::Fault,
    }
    Size::Is(size_spelled(&size))
}
