ghost use Rattle.std.specs.Prelude.{◌≡◌, ◌≢◌, ◌≤◌, ◌↔◌, ◌⊎◌, [], List, ℕ, IsTrue, true, false, IfOk, IfSome, IfNone, None, Option, option_map, OnErr, OnOk, IsOk};
ghost use Rattle.nsq_outside.specs.Causes.{Rose, DidFails, CountsFault, DidCounts};
ghost use Rattle.nsq_fakes.specs.MemFiles.{files_of, first_of, GrowsTo, MovesToNew};
ghost use Rattle.std.specs.List.{Any};
ghost use Rattle.nsq_fakes.specs.Failings.{count_of, Hits, CountsCall};

use crate::called::{Called, keep_call};
use crate::files;
use crate::folder_calls::{Counts, Failing, FolderCall};
use nsq_base::Memory;
use nsq_outside::{Did, Faults, Folder, Length, Listing, ReadAt};
use std::alloc::Global;
use std::collections::BTreeMap;

/// A folder in memory, some of whose calls fail. A call that fails changes nothing but the record and the counts of calls and
/// of faults.
///
/// Else a call fails only where a file has, or would get, more than 2^62 bytes, or where bytes are read past that place; or
/// for want of memory. That may meet a file that is made or grows, a name that is new, and each call, since the folder
/// keeps the calls that are made: one for which it finds no memory fails, and a listing answers `Memory` then.
#[derive(Drop)]
pub struct MemFolder {
    alloc: Global,
    files: BTreeMap<String, Vec<u8>>,
    fails: Vec<Failing>,
    counts: Counts,
    called: Vec<Called>,
    faults: Faults,
}

impl MemFolder {
    ghost use Rattle.nsq_fakes.specs.Made.{Joins};
    ghost use Rattle.nsq_fakes.specs.MemFolders.{counts_of, called_of, faults_of, IsRefused, IsUnkept};

    /// A folder with these files, of which these calls fail. Of several files with one name the first counts.
    pub fn new(
        alloc: Global,
        files: Vec<(String, Vec<u8>)>,
        fails: Vec<Failing>,
    ) -> Result<MemFolder, Memory>
        ensures files { IfOk result (λ folder. (name : List ℕ) → files_of folder.files name ≡ first_of files.items name) }
        ensures fails { IfOk result (λ folder. folder.fails ≡ fails) }
        ensures calls { IfOk result (λ folder. (call : FolderCall) → count_of folder.counts call ≡ 0) }
        ensures called { IfOk result (λ folder. called_of folder ≡ []) }
        ensures faults { IfOk result (λ folder. folder.faults.count ≡ 0) }
    {
        Ok(MemFolder {
            alloc,
            files: files::made_of(alloc, files)?,
            fails,
            counts: Counts::new(),
            called: Vec::new(alloc),
            faults: Faults::none(),
        })
    }

    /// The bytes of a file, where there is one. It counts as no call.
    pub fn file(&self, name: &str) -> Option<&[u8]>
        ensures { option_map (λ bytes. bytes.now) result ≡ files_of self.now.files name.now }
    {
        match self.files.get(name) {
            Some(bytes) => Some(bytes),
            None => None,
        }
    }

    /// The calls that were made, in order, those that failed too. One for which there was no memory is missing.
    pub fn called(&self) -> &[Called]
        ensures { result.now ≡ called_of self.now }
    {
        &self.called
    }

    /// How many calls failed; at most 2^64 - 1, where the count stops.
    pub fn faults(&self) -> u64
        ensures { result ≡ faults_of self.now }
    {
        self.faults.count
    }

    /// Keeps a call, and counts it. It fails where it is among those that fail, or there is no memory to keep it; then its
    /// fault is counted.
    fn fails(&mut self, call: FolderCall, name: &str, to: &str) -> bool
        requires { call ≢ FolderCall.Any }
        ensures refused { IsRefused self.old call → IsTrue result }
        ensures why { IsTrue result → IsRefused self.old call ⊎ IsUnkept self.old self.new }
        ensures called { Joins (called_of self.old) (called_of self.new) call name.now to.now (IsTrue result) }
        ensures counted { CountsCall (counts_of self.old) (counts_of self.new) call }
        ensures rest { self.new ≡ record self.old { called = self.new.called; counts = self.new.counts; faults = self.new.faults } }
        ensures rose { IsTrue result → Rose self.old.faults.count self.new.faults.count }
        ensures fault { CountsFault self.old.faults.count self.new.faults.count result }
        ensures faults { self.old.faults.count ≤ self.new.faults.count }
    {
        let is_kept = keep_call(self.alloc, &mut self.called, call, name, to).is_ok();
        if refuses(&mut self.counts, &self.fails, &mut self.faults, call) {
            return true;
        }
        if !is_kept {
            self.faults.add();
            return true;
        }
        false
    }
}

/// Counts a call, and a fault where it is among those that fail.
fn refuses(counts: &mut Counts, fails: &[Failing], faults: &mut Faults, call: FolderCall) -> bool
    requires { call ≢ FolderCall.Any }
    ensures refused { IsTrue result ↔ Any (Hits counts.old call) fails.now }
    ensures counted { CountsCall counts.old counts.new call }
    ensures rose { IsTrue result → Rose faults.old.count faults.new.count }
    ensures fault { CountsFault faults.old.count faults.new.count result }
    ensures faults { faults.old.count ≤ faults.new.count }
{
    if counts.count(fails, call) {
        faults.add();
        return true;
    }
    false
}

/// The answer of a change, which counts a fault where there was no room.
fn answer(faults: &mut Faults, outcome: Result<(), files::NoRoom>) -> Did
    ensures done { OnOk outcome (result ≡ Did.Done) }
    ensures failed { OnErr outcome (result ≡ Did.Failed) }
    ensures faults { faults.old.count ≤ faults.new.count }
    ensures cause { DidFails faults.old.count faults.new.count result }
    ensures counted { DidCounts faults.old.count faults.new.count result }
{
    match outcome {
        Ok(()) => Did::Done,
        Err(_) => {
            faults.add();
            Did::Failed
        }
    }
}

impl Folder for MemFolder {
    ghost use Rattle.std.specs.Prelude.{◌+◌, ◌^◌, ◌<◌, length, IsSomeAnd};
    ghost use Rattle.nsq_outside.specs.Files.{SameFiles, IsWithin, OnlyChanges, Lists, Appends, ListingFails, ListingCounts, HasLength, IsFileLength, LengthFails, LengthCounts, IsAmountAt, ReadsAt, IsReadWithin, ReadAtFails, ReadAtCounts, WritesAt, Cuts, Renames, Removes};
    ghost use Rattle.nsq_fakes.specs.Made.{Joins};
    ghost use Rattle.nsq_fakes.specs.MemFolders.{files_in, fails_of, counts_of, called_of, faults_of, IsRefused, IsUnkept, ReadsPast};

    ghost tells_files = { true };

    ghost files = { files_in };

    ghost folder_faults = { faults_of };

    ghost counts_exactly = { true };

    fn list(&mut self, alloc: Global, beginning: &str, names: &mut Vec<String>) -> Listing
        ensures names { Lists (files_in self.old) beginning.now names.old.items names.new.items result }
        ensures kept { Appends names.old.items names.new.items result }
        ensures same { SameFiles (files_in self.old) (files_in self.new) }
        ensures faults { faults_of self.old ≤ faults_of self.new }
        ensures cause { ListingFails (faults_of self.old) (faults_of self.new) result }
        ensures counted { ListingCounts (faults_of self.old) (faults_of self.new) result }
        ensures calls { CountsCall (counts_of self.old) (counts_of self.new) FolderCall.List }
        ensures called { Joins (called_of self.old) (called_of self.new) FolderCall.List [] [] (result ≢ Listing.Done) }
        ensures fails { fails_of self.new ≡ fails_of self.old }
        ensures refused { (result ≡ Listing.Failed) ↔ IsRefused self.old FolderCall.List }
    {
        let kept = keep_call(self.alloc, &mut self.called, FolderCall::List, "", "");
        if refuses(
            &mut self.counts,
            &self.fails,
            &mut self.faults,
            FolderCall::List,
        ) {
            return Listing::Failed;
        }
        if kept.is_err() {
            return Listing::Memory;
        }
        match files::append_names(alloc, &self.files, beginning, names) {
            Ok(()) => Listing::Done,
            Err(_) => Listing::Memory,
        }
    }

    fn len(&mut self, name: &str) -> Length
        ensures length { HasLength (files_in self.old name.now) result }
        ensures limit { IsFileLength result }
        ensures same { SameFiles (files_in self.old) (files_in self.new) }
        ensures faults { faults_of self.old ≤ faults_of self.new }
        ensures cause { LengthFails (faults_of self.old) (faults_of self.new) result }
        ensures counted { LengthCounts (faults_of self.old) (faults_of self.new) result }
        ensures calls { CountsCall (counts_of self.old) (counts_of self.new) FolderCall.Len }
        ensures called { Joins (called_of self.old) (called_of self.new) FolderCall.Len name.now [] (result ≡ Length.Failed) }
        ensures fails { fails_of self.new ≡ fails_of self.old }
        ensures refused { IsRefused self.old FolderCall.Len → result ≡ Length.Failed }
        ensures failed { result ≡ Length.Failed → IsRefused self.old FolderCall.Len ⊎ IsUnkept self.old self.new ⊎ IsSomeAnd (files_in self.old name.now) (λ bytes. 2 ^ 62 < length bytes) }
    {
        if self.fails(FolderCall::Len, name, "") {
            return Length::Failed;
        }
        match self.files.get(name) {
            Some(bytes) if bytes.len() as u64 <= files::LIMIT => Length::Is(bytes.len() as u64),
            Some(_) => {
                self.faults.add();
                Length::Failed
            }
            None => Length::Absent,
        }
    }

    fn read_at(&mut self, name: &str, at: u64, into: &mut [u8]) -> ReadAt
        ensures amount { IsAmountAt result (length into.old) }
        ensures bytes { ReadsAt (files_in self.old name.now) at into.old into.new result }
        ensures limit { IsReadWithin at result }
        ensures same { SameFiles (files_in self.old) (files_in self.new) }
        ensures faults { faults_of self.old ≤ faults_of self.new }
        ensures cause { ReadAtFails (faults_of self.old) (faults_of self.new) result }
        ensures counted { ReadAtCounts (faults_of self.old) (faults_of self.new) result }
        ensures calls { CountsCall (counts_of self.old) (counts_of self.new) FolderCall.ReadAt }
        ensures called { Joins (called_of self.old) (called_of self.new) FolderCall.ReadAt name.now [] (result ≡ ReadAt.Failed) }
        ensures fails { fails_of self.new ≡ fails_of self.old }
        ensures refused { IsRefused self.old FolderCall.ReadAt → result ≡ ReadAt.Failed }
        ensures failed { result ≡ ReadAt.Failed → IsRefused self.old FolderCall.ReadAt ⊎ IsUnkept self.old self.new ⊎ ReadsPast (files_in self.old name.now) at (length into.old) }
        ensures past { ReadsPast (files_in self.old name.now) at (length into.old) → result ≡ ReadAt.Failed }
    {
        if self.fails(FolderCall::ReadAt, name, "") {
            return ReadAt::Failed;
        }
        let bytes = files::bytes_at(&self.files, name);
        let count = files::amount_at(bytes, at, into.len());
        if count != 0 && at.saturating_add(count as u64) > files::LIMIT {
            self.faults.add();
            return ReadAt::Failed;
        }
        ReadAt::Got(files::copy_from_place(bytes, at, into))
    }

    fn write_at(&mut self, name: &str, at: u64, from: &[u8]) -> Did
        ensures bytes { WritesAt (files_in self.old name.now) (files_in self.new name.now) at from.now result }
        ensures limit { IsWithin (at + length from.now) result }
        ensures others { OnlyChanges (files_in self.old) (files_in self.new) name.now }
        ensures faults { faults_of self.old ≤ faults_of self.new }
        ensures cause { DidFails (faults_of self.old) (faults_of self.new) result }
        ensures counted { DidCounts (faults_of self.old) (faults_of self.new) result }
        ensures calls { CountsCall (counts_of self.old) (counts_of self.new) FolderCall.WriteAt }
        ensures called { Joins (called_of self.old) (called_of self.new) FolderCall.WriteAt name.now [] (result ≡ Did.Failed) }
        ensures fails { fails_of self.new ≡ fails_of self.old }
        ensures refused { IsRefused self.old FolderCall.WriteAt → result ≡ Did.Failed }
        ensures failed { result ≡ Did.Failed → SameFiles (files_in self.old) (files_in self.new) }
        ensures why { result ≡ Did.Failed → IsRefused self.old FolderCall.WriteAt ⊎ IsUnkept self.old self.new ⊎ GrowsTo (files_in self.old name.now) (at + length from.now) }
    {
        if self.fails(FolderCall::WriteAt, name, "") {
            return Did::Failed;
        }
        let outcome = files::write(self.alloc, &mut self.files, name, at, from);
        answer(&mut self.faults, outcome)
    }

    fn cut(&mut self, name: &str, to: u64) -> Did
        ensures bytes { Cuts (files_in self.old name.now) (files_in self.new name.now) to result }
        ensures limit { IsWithin to result }
        ensures others { OnlyChanges (files_in self.old) (files_in self.new) name.now }
        ensures faults { faults_of self.old ≤ faults_of self.new }
        ensures cause { DidFails (faults_of self.old) (faults_of self.new) result }
        ensures counted { DidCounts (faults_of self.old) (faults_of self.new) result }
        ensures calls { CountsCall (counts_of self.old) (counts_of self.new) FolderCall.Cut }
        ensures called { Joins (called_of self.old) (called_of self.new) FolderCall.Cut name.now [] (result ≡ Did.Failed) }
        ensures fails { fails_of self.new ≡ fails_of self.old }
        ensures refused { IsRefused self.old FolderCall.Cut → result ≡ Did.Failed }
        ensures failed { result ≡ Did.Failed → SameFiles (files_in self.old) (files_in self.new) }
        ensures why { result ≡ Did.Failed → IsRefused self.old FolderCall.Cut ⊎ IsUnkept self.old self.new ⊎ GrowsTo (files_in self.old name.now) to }
    {
        if self.fails(FolderCall::Cut, name, "") {
            return Did::Failed;
        }
        let outcome = files::cut(self.alloc, &mut self.files, name, to);
        answer(&mut self.faults, outcome)
    }

    fn sync(&mut self, name: &str) -> Did
        ensures same { SameFiles (files_in self.old) (files_in self.new) }
        ensures faults { faults_of self.old ≤ faults_of self.new }
        ensures cause { DidFails (faults_of self.old) (faults_of self.new) result }
        ensures counted { DidCounts (faults_of self.old) (faults_of self.new) result }
        ensures calls { CountsCall (counts_of self.old) (counts_of self.new) FolderCall.Sync }
        ensures called { Joins (called_of self.old) (called_of self.new) FolderCall.Sync name.now [] (result ≡ Did.Failed) }
        ensures fails { fails_of self.new ≡ fails_of self.old }
        ensures refused { IsRefused self.old FolderCall.Sync → result ≡ Did.Failed }
        ensures why { result ≡ Did.Failed → IsRefused self.old FolderCall.Sync ⊎ IsUnkept self.old self.new }
    {
        if self.fails(FolderCall::Sync, name, "") {
            return Did::Failed;
        }
        Did::Done
    }

    fn sync_names(&mut self) -> Did
        ensures same { SameFiles (files_in self.old) (files_in self.new) }
        ensures faults { faults_of self.old ≤ faults_of self.new }
        ensures cause { DidFails (faults_of self.old) (faults_of self.new) result }
        ensures counted { DidCounts (faults_of self.old) (faults_of self.new) result }
        ensures calls { CountsCall (counts_of self.old) (counts_of self.new) FolderCall.SyncNames }
        ensures called { Joins (called_of self.old) (called_of self.new) FolderCall.SyncNames [] [] (result ≡ Did.Failed) }
        ensures fails { fails_of self.new ≡ fails_of self.old }
        ensures refused { IsRefused self.old FolderCall.SyncNames → result ≡ Did.Failed }
        ensures why { result ≡ Did.Failed → IsRefused self.old FolderCall.SyncNames ⊎ IsUnkept self.old self.new }
    {
        if self.fails(FolderCall::SyncNames, "", "") {
            return Did::Failed;
        }
        Did::Done
    }

    fn rename(&mut self, from: &str, to: &str) -> Did
        ensures files { Renames (files_in self.old) (files_in self.new) from.now to.now result }
        ensures faults { faults_of self.old ≤ faults_of self.new }
        ensures cause { DidFails (faults_of self.old) (faults_of self.new) result }
        ensures counted { DidCounts (faults_of self.old) (faults_of self.new) result }
        ensures calls { CountsCall (counts_of self.old) (counts_of self.new) FolderCall.Rename }
        ensures called { Joins (called_of self.old) (called_of self.new) FolderCall.Rename from.now to.now (result ≡ Did.Failed) }
        ensures fails { fails_of self.new ≡ fails_of self.old }
        ensures refused { IsRefused self.old FolderCall.Rename → result ≡ Did.Failed }
        ensures failed { result ≡ Did.Failed → SameFiles (files_in self.old) (files_in self.new) }
        ensures why { result ≡ Did.Failed → IsRefused self.old FolderCall.Rename ⊎ IsUnkept self.old self.new ⊎ MovesToNew (files_in self.old) from.now to.now }
    {
        if self.fails(FolderCall::Rename, from, to) {
            return Did::Failed;
        }
        let outcome = files::rename(self.alloc, &mut self.files, from, to);
        answer(&mut self.faults, outcome)
    }

    fn remove(&mut self, name: &str) -> Did
        ensures bytes { Removes (files_in self.old name.now) (files_in self.new name.now) result }
        ensures others { OnlyChanges (files_in self.old) (files_in self.new) name.now }
        ensures faults { faults_of self.old ≤ faults_of self.new }
        ensures cause { DidFails (faults_of self.old) (faults_of self.new) result }
        ensures counted { DidCounts (faults_of self.old) (faults_of self.new) result }
        ensures calls { CountsCall (counts_of self.old) (counts_of self.new) FolderCall.Remove }
        ensures called { Joins (called_of self.old) (called_of self.new) FolderCall.Remove name.now [] (result ≡ Did.Failed) }
        ensures fails { fails_of self.new ≡ fails_of self.old }
        ensures refused { IsRefused self.old FolderCall.Remove → result ≡ Did.Failed }
        ensures why { result ≡ Did.Failed → IsRefused self.old FolderCall.Remove ⊎ IsUnkept self.old self.new }
        ensures failed { result ≡ Did.Failed → SameFiles (files_in self.old) (files_in self.new) }
    {
        if self.fails(FolderCall::Remove, name, "") {
            return Did::Failed;
        }
        files::remove(&mut self.files, name);
        Did::Done
    }

    ghost folder_faults_fit = { λ folder. folder.faults.fits };
}
