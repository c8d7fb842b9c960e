ghost use Rattle.std.specs.Prelude.{◌≡◌, ℕ, ◌≤◌, [], ◌∷◌, ◌++◌, Option, Some, unwrap_or, IfOk, OnOk};
ghost use Rattle.std.specs.Option.{option_copied};
ghost use Rattle.queue_image.specs.Places.{IsOrdered, IsInRange};
ghost use Rattle.queue_image.specs.Between.{content};
ghost use Rattle.queue_image.specs.Finds.{Records, IsFound};
ghost use Rattle.path_plain.specs.Folders.{files_of};
ghost use Rattle.path_plain.specs.Answered.{finding_of, Adds, WalksTo, PartIs, IsNextNumber};

use crate::NamedFile;
use nsq_base::{Bodies, Memory};
use queue_image::file_names::{data_file, meta_file, number_of};
use queue_image::{Positions, read_meta};
use queue_records::{Row, records_of};
use std::alloc::Global;

/// What an opening finds of a queue.
#[derive(Drop)]
pub enum Found {
    /// The metadata isn't in its grammar.
    BadMeta,
    /// The records of the good files.
    Records(Listing),
}

/// The records of a queue's good files, and which files are bad.
#[derive(Drop)]
pub struct Listing {
    /// The records' bodies, oldest first.
    pub bodies: Bodies,
    /// The numbers of the bad files, lowest first.
    pub bad: Vec<u64>,
}

impl Listing {
    /// No record and no bad file. Takes no memory.
    pub fn new(alloc: Global) -> Listing
        ensures bodies { result.bodies ≡ [] }
        ensures bad { result.bad.items ≡ [] }
    {
        Listing {
            bodies: Bodies::new(alloc),
            bad: Vec::new(alloc),
        }
    }

    // Adds what the next file gives.
    fn add(&mut self, number: u64, part: Part) -> Result<(), Memory>
        ensures { OnOk result (Adds self.old self.new number part) }
    {
        match part {
            Part::Good(more) => {
                for body in more.spend() {
                    self.bodies.push(body)?;
                }
            }
            Part::Bad => self.bad.push(number)?,
        }
        Ok(())
    }
}

/// What an opening finds of the queue of that name among the files: nothing without metadata, and else the records between the
/// metadata's positions, read by their sizes, without those of bad files. A record's size is from `least` to `limit`.
pub fn found_queue(
    alloc: Global,
    files: &[NamedFile],
    name: &str,
    least: u32,
    limit: u32,
) -> Result<Found, Memory>
    ensures { IfOk result (λ found. IsFound least limit (files_of files.now) name.now (finding_of found)) }
{
    let Some(text) = look_up(files, meta_file(alloc, name)?.as_str()) else {
        return Ok(nothing(alloc));
    };
    let Some(positions) = read_meta(text) else {
        return Ok(Found::BadMeta);
    };
    if positions.at_end() {
        return Ok(nothing(alloc));
    }
    walk(alloc, files, name, positions, least, limit)
}

/// The content of the first file of that name, or None where there is none.
pub fn look_up<'a>(files: &'a [NamedFile], name: &str) -> Option<&'a [u8]>
    ensures { option_copied result ≡ files_of files.now name.now }
{
    for file in files {
        if file.name.bytes() == name.as_bytes() {
            return Some(file.bytes.bytes());
        }
    }
    None
}

// The content of the first file of that name; a file that is absent counts as empty.
fn content_of<'a>(files: &'a [NamedFile], name: &str) -> &'a [u8]
    ensures { result.now ≡ unwrap_or (files_of files.now name.now) [] }
{
    match look_up(files, name) {
        Some(bytes) => bytes,
        None => &[],
    }
}

// An empty list, and no bad file.
fn nothing(alloc: Global) -> Found
    ensures { finding_of result ≡ Records [] [] }
{
    Found::Records(Listing::new(alloc))
}

// The walk over the files from the read file to the write file. Numbers without a file between those two are passed over at once.
fn walk(
    alloc: Global,
    files: &[NamedFile],
    name: &str,
    positions: Positions,
    least: u32,
    limit: u32,
) -> Result<Found, Memory>
    requires order { IsOrdered positions }
    requires range { IsInRange positions }
    ensures { IfOk result (λ found. WalksTo least limit positions (content (files_of files.now) name.now) found) }
{
    let mut listing = Listing::new(alloc);
    let mut number = positions.read_file;
    while number <= positions.write_file {
        let file = data_file(alloc, name, number)?;
        let bytes = content_of(files, file.as_str());
        let part = part_of(alloc, bytes, &positions, number, least, limit)?;
        listing.add(number, part)?;
        number = next_number(alloc, files, name, number + 1, positions.write_file)?;
    }
    Ok(Found::Records(listing))
}

/// What a file gives.
#[derive(Drop)]
pub enum Part {
    /// These bodies.
    Good(Bodies),
    /// Nothing, since it's bad.
    Bad,
}

// What the file of that number gives.
fn part_of(
    alloc: Global,
    bytes: &[u8],
    positions: &Positions,
    number: u64,
    least: u32,
    limit: u32,
) -> Result<Part, Memory>
    requires { IsOrdered positions.now }
    ensures { IfOk result (λ part. PartIs least limit positions.now number bytes.now part) }
{
    let len = bytes.len() as u64;
    let start = positions.start_in(number);
    let end = positions.end_in(number, len);
    if start > len || end > len {
        return Ok(Part::Bad);
    }
    match records_of(alloc, &bytes[start as usize..end as usize], least, limit)? {
        Row::Whole(bodies) => Ok(Part::Good(bodies)),
        Row::Damaged { .. } => Ok(Part::Bad),
    }
}

// The least number from `from` on that a data file of the queue has, or `last` where none below it has one; `from` where it is past `last`.
fn next_number(
    alloc: Global,
    files: &[NamedFile],
    name: &str,
    from: u64,
    last: u64,
) -> Result<u64, Memory>
    ensures { IfOk result (λ next. IsNextNumber (files_of files.now) name.now from last next) }
{
    let mut next = from.max(last);
    for file in files {
        let number = number_of(alloc, name, file.name.bytes())?;
        next = nearer(from, next, number);
    }
    Ok(next)
}

// The lesser of the two numbers, if there are two and the second isn't below `from`.
fn nearer(from: u64, next: u64, number: Option<u64>) -> u64
    ensures most { result ≤ next }
    ensures least { from ≤ next → from ≤ result }
    ensures number { (k : ℕ) → number ≡ Some k → from ≤ k → result ≤ k }
{
    match number {
        Some(number) if from <= number && number < next => number,
        _ => next,
    }
}
