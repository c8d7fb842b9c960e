ghost use Rattle.std.specs.Prelude.{◌≡◌, ◌+◌, ◌^◌, ◌<◌, ◌≤◌, IsTrue, IfOk, IfSome, IfNone, length};
ghost use Rattle.nsq_outside.specs.Causes.{Rose, DidFails, DidCounts};
ghost use Rattle.nsq_outside.specs.Files.{SameFiles, OnlyChanges, IsWithin, IsAmountAt, ReadsAt, IsReadWithin, ReadAtFails, ReadAtCounts, Cuts, Removes};
ghost use Rattle.queue_image.specs.Between.{content};
ghost use Rattle.queue_image.specs.FileNames.{data_file, meta_file, meta_temp};
ghost use Rattle.queue_image.specs.Metas.{meta_text};
ghost use Rattle.queue_files.specs.Replaced.{Replaces, OnlyTwoChange};
ghost use Rattle.queue_files.specs.FileCalls.{WritesRecord, WritesBoth, Gone, OnlyNumbersChange, RemovalFails, CountsNone};

use crate::data_name::DataName;
use crate::metadata;
use crate::replace::replace_file;
use nsq_core::Memory;
use nsq_outside::{Did, Folder, Length, ReadAt};
use queue_image::{Positions, file_names};
use std::alloc::Global;
use std::marker::Model;

/// The names of a queue's files, and room for what is written to them. It is seen as the queue's name.
#[derive(Drop)]
pub struct QueueFiles {
    // The data file that is written.
    data: DataName,
    // The data file that is read.
    read: DataName,
    meta: String,
    temp: String,
    // The metadata's text.
    text: Vec<u8>,
    // A short record with its size.
    short: Vec<u8>,
}

impl Model for QueueFiles {
    ghost use Rattle.std.specs.Prelude.{List, ℕ, ◌≡◌, ◌≤◌, string_bytes, vec_capacity};
    ghost use Rattle.queue_image.specs.FileNames.{meta_file, meta_temp};

    ghost Value = { List ℕ };

    ghost view = { λ f. f.data.name };

    ghost invariant = { λ f. (f.read.name ≡ f.data.name) × (string_bytes f.meta ≡ meta_file f.data.name) × (string_bytes f.temp ≡ meta_temp f.data.name) × (205 ≤ vec_capacity f.text) × (4100 ≤ vec_capacity f.short) };
}

// The most bytes of a record that is written at once.
const SHORT: usize = 4096;

impl QueueFiles {
    /// The files of the queue of a name. Makes all names and rooms.
    pub fn new(alloc: Global, name: &str) -> Result<QueueFiles, Memory>
        ensures { IfOk result (λ files. files ≡ name.now) }
    {
        Ok(QueueFiles {
            data: DataName::new(alloc, name)?,
            read: DataName::new(alloc, name)?,
            meta: file_names::meta_file(alloc, name)?,
            temp: file_names::meta_temp(alloc, name)?,
            text: Vec::with_capacity(alloc, metadata::ROOM)?,
            short: Vec::with_capacity(alloc, 4 + SHORT)?,
        })
    }

    /// Cuts a data file at a place.
    pub fn cut<F: Folder>(&mut self, folder: &mut F, number: u64, at: u64) -> Did
        ensures name { self.new ≡ self.old }
        ensures bytes { IsTrue F.tells_files → Cuts (F.files folder.old (data_file self.old number)) (F.files folder.new (data_file self.old number)) at result }
        ensures others { IsTrue F.tells_files → OnlyChanges (F.files folder.old) (F.files folder.new) (data_file self.old number) }
        ensures faults { F.folder_faults folder.old ≤ F.folder_faults folder.new }
        ensures cause { DidFails (F.folder_faults folder.old) (F.folder_faults folder.new) result }
        ensures exact { IsTrue F.counts_exactly → DidCounts (F.folder_faults folder.old) (F.folder_faults folder.new) result }
    {
        self.data.turn_to(number);
        folder.cut(self.data.as_str(), at)
    }

    /// Cuts a data file at a place, makes it durable, and empties the next one.
    pub fn roll<F: Folder>(&mut self, folder: &mut F, number: u64, at: u64) -> Did
        requires { number < 2 ^ 40 }
        ensures name { self.new ≡ self.old }
        ensures ended { IsTrue F.tells_files → Cuts (F.files folder.old (data_file self.old number)) (F.files folder.new (data_file self.old number)) at result }
        ensures next { IsTrue F.tells_files → Cuts (F.files folder.old (data_file self.old (number + 1))) (F.files folder.new (data_file self.old (number + 1))) 0 result }
        ensures others { IsTrue F.tells_files → OnlyTwoChange (F.files folder.old) (F.files folder.new) (data_file self.old number) (data_file self.old (number + 1)) }
        ensures faults { F.folder_faults folder.old ≤ F.folder_faults folder.new }
        ensures cause { DidFails (F.folder_faults folder.old) (F.folder_faults folder.new) result }
        ensures exact { IsTrue F.counts_exactly → DidCounts (F.folder_faults folder.old) (F.folder_faults folder.new) result }
    {
        match self.cut(folder, number, at) {
            Did::Done => {}
            Did::Failed => return Did::Failed,
        }
        match folder.sync(self.data.as_str()) {
            Did::Done => {}
            Did::Failed => return Did::Failed,
        }
        self.cut(folder, number + 1, 0)
    }

    /// Writes a record at a place in a data file: a short one at once, a long one as its size and then its bytes.
    pub fn write<F: Folder>(&mut self, folder: &mut F, number: u64, at: u64, bytes: &[u8]) -> Did
        requires place { at ≤ 2 ^ 62 }
        requires size { length bytes.now < 2 ^ 32 }
        ensures name { self.new ≡ self.old }
        ensures bytes { IsTrue F.tells_files → WritesRecord (F.files folder.old (data_file self.old number)) (F.files folder.new (data_file self.old number)) at bytes.now result }
        ensures limit { IsWithin (at + (4 + length bytes.now)) result }
        ensures others { IsTrue F.tells_files → OnlyChanges (F.files folder.old) (F.files folder.new) (data_file self.old number) }
        ensures faults { F.folder_faults folder.old ≤ F.folder_faults folder.new }
        ensures cause { DidFails (F.folder_faults folder.old) (F.folder_faults folder.new) result }
        ensures exact { IsTrue F.counts_exactly → DidCounts (F.folder_faults folder.old) (F.folder_faults folder.new) result }
    {
        self.data.turn_to(number);
        let size = (bytes.len() as u32).to_be_bytes();
        if bytes.len() > SHORT {
            return write_long(folder, self.data.as_str(), at, &size, bytes);
        }
        self.short.clear();
        let _ = self.short.extend_from_slice(&size);
        let _ = self.short.extend_from_slice(bytes);
        folder.write_at(self.data.as_str(), at, self.short.as_slice())
    }

    /// Reads the bytes of a data file from a place on, as many as fit and stand there.
    pub fn read_at<F: Folder>(
        &mut self,
        folder: &mut F,
        number: u64,
        at: u64,
        into: &mut [u8],
    ) -> ReadAt
        ensures name { self.new ≡ self.old }
        ensures amount { IsAmountAt result (length into.old) }
        ensures bytes { IsTrue F.tells_files → ReadsAt (F.files folder.old (data_file self.old number)) at into.old into.new result }
        ensures limit { IsReadWithin at result }
        ensures same { IsTrue F.tells_files → SameFiles (F.files folder.old) (F.files folder.new) }
        ensures faults { F.folder_faults folder.old ≤ F.folder_faults folder.new }
        ensures cause { ReadAtFails (F.folder_faults folder.old) (F.folder_faults folder.new) result }
        ensures exact { IsTrue F.counts_exactly → ReadAtCounts (F.folder_faults folder.old) (F.folder_faults folder.new) result }
    {
        self.read.turn_to(number);
        folder.read_at(self.read.as_str(), at, into)
    }

    /// The number of bytes of a data file; None where the folder fails. A file that is absent counts as empty.
    pub fn len<F: Folder>(&mut self, folder: &mut F, number: u64) -> Option<u64>
        ensures name { self.new ≡ self.old }
        ensures length { IsTrue F.tells_files → IfSome result (λ n. n ≡ length (content (F.files folder.old) self.old number)) }
        ensures limit { IfSome result (λ n. n ≤ 2 ^ 62) }
        ensures same { IsTrue F.tells_files → SameFiles (F.files folder.old) (F.files folder.new) }
        ensures faults { F.folder_faults folder.old ≤ F.folder_faults folder.new }
        ensures cause { IfNone result (Rose (F.folder_faults folder.old) (F.folder_faults folder.new)) }
        ensures exact { IsTrue F.counts_exactly → CountsNone (F.folder_faults folder.old) (F.folder_faults folder.new) result }
    {
        self.read.turn_to(number);
        match folder.len(self.read.as_str()) {
            Length::Is(n) => Some(n),
            Length::Absent => Some(0),
            Length::Failed => None,
        }
    }

    /// Makes the write file durable and writes the metadata, by way of its temporary.
    pub fn save<F: Folder>(&mut self, folder: &mut F, depth: u128, positions: Positions) -> Did
        ensures name { self.new ≡ self.old }
        ensures metadata { IsTrue F.tells_files → Replaces (F.files folder.old) (F.files folder.new) (meta_file self.old) (meta_temp self.old) (meta_text depth positions) result }
        ensures others { IsTrue F.tells_files → OnlyTwoChange (F.files folder.old) (F.files folder.new) (meta_file self.old) (meta_temp self.old) }
        ensures faults { F.folder_faults folder.old ≤ F.folder_faults folder.new }
        ensures cause { DidFails (F.folder_faults folder.old) (F.folder_faults folder.new) result }
        ensures exact { IsTrue F.counts_exactly → DidCounts (F.folder_faults folder.old) (F.folder_faults folder.new) result }
    {
        self.data.turn_to(positions.write_file);
        match folder.sync(self.data.as_str()) {
            Did::Done => {}
            Did::Failed => return Did::Failed,
        }
        metadata::write_text(&mut self.text, depth, positions);
        replace_file(
            folder,
            self.meta.as_str(),
            self.temp.as_str(),
            self.text.as_slice(),
        )
    }

    /// Removes the data files of the numbers from `from` on and below `to`. After a failure some may still be there.
    pub fn remove<F: Folder>(&mut self, folder: &mut F, from: u64, to: u64) -> Did
        requires { to ≤ 2 ^ 40 + 2 }
        ensures name { self.new ≡ self.old }
        ensures gone { IsTrue F.tells_files → Gone self.old (F.files folder.new) from to result }
        ensures tried { RemovalFails from to result }
        ensures others { IsTrue F.tells_files → OnlyNumbersChange self.old (F.files folder.old) (F.files folder.new) from to }
        ensures faults { F.folder_faults folder.old ≤ F.folder_faults folder.new }
        ensures cause { DidFails (F.folder_faults folder.old) (F.folder_faults folder.new) result }
        ensures exact { IsTrue F.counts_exactly → DidCounts (F.folder_faults folder.old) (F.folder_faults folder.new) result }
    {
        remove_each(folder, &mut self.data, from, to)
    }

    /// Removes the metadata.
    pub fn remove_metadata<F: Folder>(&mut self, folder: &mut F) -> Did
        ensures name { self.new ≡ self.old }
        ensures gone { IsTrue F.tells_files → Removes (F.files folder.old (meta_file self.old)) (F.files folder.new (meta_file self.old)) result }
        ensures others { IsTrue F.tells_files → OnlyChanges (F.files folder.old) (F.files folder.new) (meta_file self.old) }
        ensures faults { F.folder_faults folder.old ≤ F.folder_faults folder.new }
        ensures cause { DidFails (F.folder_faults folder.old) (F.folder_faults folder.new) result }
        ensures exact { IsTrue F.counts_exactly → DidCounts (F.folder_faults folder.old) (F.folder_faults folder.new) result }
    {
        folder.remove(self.meta.as_str())
    }
}

// Removes the data files of these numbers, one after the other, up to a failure.
fn remove_each<F: Folder>(folder: &mut F, file: &mut DataName, from: u64, to: u64) -> Did
    requires { to ≤ 2 ^ 40 + 2 }
    ensures name { file.new.name ≡ file.old.name }
    ensures gone { IsTrue F.tells_files → Gone file.old.name (F.files folder.new) from to result }
    ensures tried { RemovalFails from to result }
    ensures others { IsTrue F.tells_files → OnlyNumbersChange file.old.name (F.files folder.old) (F.files folder.new) from to }
    ensures faults { F.folder_faults folder.old ≤ F.folder_faults folder.new }
    ensures cause { DidFails (F.folder_faults folder.old) (F.folder_faults folder.new) result }
    ensures exact { IsTrue F.counts_exactly → DidCounts (F.folder_faults folder.old) (F.folder_faults folder.new) result }
{
    for number in from..to {
        file.turn_to(number);
        match folder.remove(file.as_str()) {
            Did::Done => {}
            Did::Failed => return Did::Failed,
        }
    }
    Did::Done
}

// Writes the size of a record at a place, and its bytes behind it.
fn write_long<F: Folder>(folder: &mut F, file: &str, at: u64, size: &[u8; 4], bytes: &[u8]) -> Did
    requires place { at ≤ 2 ^ 62 }
    ensures bytes { IsTrue F.tells_files → WritesBoth (F.files folder.old file.now) (F.files folder.new file.now) at size.now bytes.now result }
    ensures limit { IsWithin (at + (4 + length bytes.now)) result }
    ensures others { IsTrue F.tells_files → OnlyChanges (F.files folder.old) (F.files folder.new) file.now }
    ensures faults { F.folder_faults folder.old ≤ F.folder_faults folder.new }
    ensures cause { DidFails (F.folder_faults folder.old) (F.folder_faults folder.new) result }
    ensures exact { IsTrue F.counts_exactly → DidCounts (F.folder_faults folder.old) (F.folder_faults folder.new) result }
{
    match folder.write_at(file, at, size) {
        Did::Done => {}
        Did::Failed => return Did::Failed,
    }
    folder.write_at(file, at + 4, bytes)
}
