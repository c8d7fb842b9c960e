ghost use Rattle.std.specs.Prelude.{◌≡◌, ◌+◌, ◌^◌, ◌≤◌, ◌⊎◌, ℕ, List, OnOk, OnErr, None, true, false, IfOk, length, map, string_bytes};
ghost use Rattle.nsq_system.specs.Answers.{IsLengthOf, IsReadOf};
ghost use Rattle.nsq_system.specs.KnownNames.{Names, ArePart, AppendsBeginning};
ghost use Rattle.nsq_outside.specs.Causes.{DidFails, Rose, CountsFault, DidCounts};
ghost use Rattle.nsq_outside.specs.Files.{IsWithin, Appends, ListingFails, ListingCounts, IsFileLength, LengthFails, LengthCounts, IsAmountAt, IsReadWithin, ReadAtFails, ReadAtCounts};

use crate::answers::unless_absent;
use crate::open_files::OpenFiles;
use nsq_core::Memory;
use nsq_outside::{Did, Faults, Folder, Length, Listing, ReadAt};
use std::alloc::Global;
use std::io;
use std::io::ErrorKind;
use std::marker::Model;
use std::os::unix::fs::FileExt;
use std::rt::Files;

/// A folder on disk. It tells no content, and counts each error that it answers.
///
/// A few dozen files stay open; a file is closed when it is renamed or removed and after each error. A name with a slash, which
/// no file of the folder has, is an error. `list` gives regular files alone: sub-folders, symbolic links, and names that
/// aren't UTF-8 are left out. Where the folder itself is missing, a `list` that reads it and `sync_names` fail, and each file is
/// absent.
///
/// The folder is the process's own while it is open, and nobody else is to change it (nothing locks it). So `list`
/// reads the folder where the beginning is empty, or where the names aren't known yet, or no longer: after an error of a call
/// that makes, renames or removes a file, which may be done or undone, and after want of memory. By any other beginning it
/// looks the names up among those that it read, in step with the calls since, and asks the system nothing. What others add
/// or take away it shows after the next `list` with an empty beginning; and so long a name that was written or renamed here
/// counts as a regular file's. The names stay in memory.
///
/// A contract sees the count of its faults.
#[derive(Drop)]
pub struct DirFolder<R: Files> {
    files: OpenFiles<R>,
    faults: Faults,
}

impl<R: Files> Model for DirFolder<R> {
    ghost use Rattle.nsq_outside.specs.declared.faults.Faults.{Faults};

    ghost Value = { Faults };

    ghost view = { λ folder. folder.faults };
}

impl<R: Files + AllocGlobal + Clone + Drop> DirFolder<R>
where
    R::File: FileExt,
{
    /// The folder at a path. It asks nothing of the system: a missing folder shows at the first call.
    pub fn new(rt: R, alloc: Global, path: &str) -> Result<DirFolder<R>, Memory>
        ensures { IfOk result (λ folder. folder.count ≡ 0) }
    {
        Ok(DirFolder {
            files: OpenFiles::new(rt, alloc, path)?,
            faults: Faults::none(),
        })
    }

    /// Goes to the folder at another path. Without memory it stays.
    pub fn move_to(&mut self, path: &str) -> Result<(), Memory>
        ensures { self.new ≡ self.old }
    {
        self.files.move_to(path)
    }
}

impl<R: Files + AllocGlobal + Clone + Drop> Folder for DirFolder<R>
where
    R::File: FileExt,
{
    ghost tells_files = { false };

    ghost files = { λ _ _. None };

    ghost folder_faults = { λ folder. folder.count };

    ghost counts_exactly = { true };

    fn list(&mut self, alloc: Global, beginning: &str, names: &mut Vec<String>) -> Listing
        ensures kept { Appends names.old.items names.new.items result }
        ensures begin { AppendsBeginning beginning.now names.old.items names.new.items result }
        ensures faults { self.old.count ≤ self.new.count }
        ensures cause { ListingFails self.old.count self.new.count result }
        ensures counted { ListingCounts self.old.count self.new.count result }
    {
        let listed = self.files.names(alloc, beginning);
        append(&mut self.faults, names, listed)
    }

    fn len(&mut self, name: &str) -> Length
        ensures limit { IsFileLength result }
        ensures faults { self.old.count ≤ self.new.count }
        ensures cause { LengthFails self.old.count self.new.count result }
        ensures counted { LengthCounts self.old.count self.new.count result }
    {
        let outcome = self.files.len(name);
        measured(&mut self.faults, outcome)
    }

    fn read_at(&mut self, name: &str, at: u64, into: &mut [u8]) -> ReadAt
        ensures amount { IsAmountAt result (length into.old) }
        ensures limit { IsReadWithin at result }
        ensures faults { self.old.count ≤ self.new.count }
        ensures cause { ReadAtFails self.old.count self.new.count result }
        ensures counted { ReadAtCounts self.old.count self.new.count result }
    {
        let outcome = self.files.read_at(name, at, into);
        were_read(&mut self.faults, outcome)
    }

    fn write_at(&mut self, name: &str, at: u64, from: &[u8]) -> Did
        ensures limit { IsWithin (at + length from.now) result }
        ensures faults { self.old.count ≤ self.new.count }
        ensures cause { DidFails self.old.count self.new.count result }
        ensures counted { DidCounts self.old.count self.new.count result }
    {
        let outcome = self.files.write_at(name, at, from);
        answer(&mut self.faults, outcome)
    }

    fn cut(&mut self, name: &str, to: u64) -> Did
        ensures limit { IsWithin to result }
        ensures faults { self.old.count ≤ self.new.count }
        ensures cause { DidFails self.old.count self.new.count result }
        ensures counted { DidCounts self.old.count self.new.count result }
    {
        let outcome = self.files.cut(name, to);
        answer(&mut self.faults, outcome)
    }

    fn sync(&mut self, name: &str) -> Did
        ensures faults { self.old.count ≤ self.new.count }
        ensures cause { DidFails self.old.count self.new.count result }
        ensures counted { DidCounts self.old.count self.new.count result }
    {
        let outcome = self.files.sync(name);
        answer(&mut self.faults, unless_absent(outcome))
    }

    fn sync_names(&mut self) -> Did
        ensures faults { self.old.count ≤ self.new.count }
        ensures cause { DidFails self.old.count self.new.count result }
        ensures counted { DidCounts self.old.count self.new.count result }
    {
        let outcome = self.files.sync_names();
        answer(&mut self.faults, outcome)
    }

    fn rename(&mut self, from: &str, to: &str) -> Did
        ensures faults { self.old.count ≤ self.new.count }
        ensures cause { DidFails self.old.count self.new.count result }
        ensures counted { DidCounts self.old.count self.new.count result }
    {
        let outcome = self.files.rename(from, to);
        answer(&mut self.faults, unless_absent(outcome))
    }

    fn remove(&mut self, name: &str) -> Did
        ensures faults { self.old.count ≤ self.new.count }
        ensures cause { DidFails self.old.count self.new.count result }
        ensures counted { DidCounts self.old.count self.new.count result }
    {
        let outcome = self.files.remove(name);
        answer(&mut self.faults, unless_absent(outcome))
    }

    ghost folder_faults_fit = { λ folder. folder.fits };
}

/// Counts an error.
fn count(faults: &mut Faults)
    ensures rose { Rose faults.old.count faults.new.count }
    ensures counted { CountsFault faults.old.count faults.new.count true }
    ensures faults { faults.old.count ≤ faults.new.count }
{
    faults.add();
}

/// The answer of a call. An error is counted.
fn answer(faults: &mut Faults, outcome: io::Result<()>) -> Did
    ensures failed { OnErr outcome (result ≡ Did.Failed) }
    ensures done { OnOk outcome (result ≡ Did.Done) }
    ensures faults { faults.old.count ≤ faults.new.count }
    ensures cause { DidFails faults.old.count faults.new.count result }
    ensures counted { DidCounts faults.old.count faults.new.count result }
    ensures within { (end : ℕ) → OnOk outcome (end ≤ 2 ^ 62) → IsWithin end result }
{
    match outcome {
        Ok(()) => Did::Done,
        Err(_) => {
            count(faults);
            Did::Failed
        }
    }
}

/// Appends the names that were listed. An error that isn't want of memory is counted.
fn append(faults: &mut Faults, names: &mut Vec<String>, listed: io::Result<Vec<String>>) -> Listing
    ensures kept { Appends names.old.items names.new.items result }
    ensures begin { (known : Names) → (beginning : List ℕ) → IfOk listed (λ found. ArePart known beginning (map string_bytes found.items)) → AppendsBeginning beginning names.old.items names.new.items result }
    ensures faults { faults.old.count ≤ faults.new.count }
    ensures cause { ListingFails faults.old.count faults.new.count result }
    ensures counted { ListingCounts faults.old.count faults.new.count result }
{
    match listed {
        Ok(mut added) => match names.append(&mut added) {
            Ok(()) => Listing::Done,
            Err(_) => Listing::Memory,
        },
        Err(e) if e.kind() == ErrorKind::OutOfMemory => Listing::Memory,
        Err(_) => {
            count(faults);
            Listing::Failed
        }
    }
}

/// The answer to a call for a length. A file that isn't found is absent, and any other error is counted.
fn measured(faults: &mut Faults, outcome: io::Result<u64>) -> Length
    ensures means { IsLengthOf outcome result }
    ensures limit { IfOk outcome (λ n. n ≤ 2 ^ 62) → IsFileLength result }
    ensures faults { faults.old.count ≤ faults.new.count }
    ensures cause { LengthFails faults.old.count faults.new.count result }
    ensures counted { LengthCounts faults.old.count faults.new.count result }
{
    match outcome {
        Ok(length) => Length::Is(length),
        Err(error) if error.kind() == ErrorKind::NotFound => Length::Absent,
        Err(_) => {
            count(faults);
            Length::Failed
        }
    }
}

/// The answer to a call for bytes. A file that isn't found has none, and any other error is counted.
fn were_read(faults: &mut Faults, outcome: io::Result<usize>) -> ReadAt
    ensures means { IsReadOf outcome result }
    ensures amount { (most : ℕ) → IfOk outcome (λ n. n ≤ most) → IsAmountAt result most }
    ensures limit { (at : ℕ) → IfOk outcome (λ n. (n ≡ 0) ⊎ (at + n ≤ 2 ^ 62)) → IsReadWithin at result }
    ensures faults { faults.old.count ≤ faults.new.count }
    ensures cause { ReadAtFails faults.old.count faults.new.count result }
    ensures counted { ReadAtCounts faults.old.count faults.new.count result }
{
    match outcome {
        Ok(count) => ReadAt::Got(count),
        Err(error) if error.kind() == ErrorKind::NotFound => ReadAt::Got(0),
        Err(_) => {
            count(faults);
            ReadAt::Failed
        }
    }
}
