ghost use Rattle.std.specs.Prelude.{◌≡◌, ◌+◌, ◌-◌, ◌^◌, ◌≤◌, List, ℕ, Bool, IsTrue, Option, length};
ghost use Rattle.nsq_outside.specs.Causes.{DidFails, DidCounts};
ghost use Rattle.nsq_outside.specs.Files.{SameFiles, IsWithin, OnlyChanges, Lists, Appends, ListingFails, ListingCounts, HasLength, IsFileLength, LengthFails, LengthCounts, IsAmountAt, ReadsAt, IsReadWithin, ReadAtFails, ReadAtCounts, WritesAt, Cuts, Renames, Removes};

use crate::Did;
use std::alloc::Global;

/// The answer of `Folder::list`.
#[derive(Clone, Copy)]
pub enum Listing {
    /// The names were appended.
    Done,
    /// The folder failed, and its count of faults rose in this call.
    Failed,
    /// Want of memory.
    Memory,
}

/// The answer of `Folder::len`.
#[derive(Clone, Copy, PartialEq)]
pub enum Length {
    /// The file has so many bytes.
    Is(u64),
    /// There is no such file.
    Absent,
    /// The folder failed, and its count of faults rose in this call.
    Failed,
}

/// The answer of `Folder::read_at`.
#[derive(Clone, Copy)]
pub enum ReadAt {
    /// So many bytes stand at the start of the buffer.
    Got(usize),
    /// The folder failed, and its count of faults rose in this call.
    Failed,
}

/// A folder of files, each with a name and at most 2^62 bytes.
pub trait Folder {
    /// Whether values of this type tell their files.
    ghost tells_files: { Bool };

    /// The bytes of the file of a name, where there is one.
    ghost files: { Self → List ℕ → Option (List ℕ) };

    /// How often a call failed. It never falls.
    ghost folder_faults: { Self → ℕ };

    /// Whether values of this type count exactly: a call that answers `Failed` raises the count by one, up to 2^64 - 1,
    /// and any other call leaves it. Of a type that doesn't, a call may raise it too that doesn't answer so.
    ghost counts_exactly: { Bool };

    /// Appends the name of each file whose name begins with `beginning` once, in any order; of each file, where that is empty.
    /// After another answer than `Done` the names are as before.
    fn list(&mut self, alloc: Global, beginning: &str, names: &mut Vec<String>) -> Listing
        ensures names { IsTrue tells_files → Lists (files self.old) beginning.now names.old.items names.new.items result }
        ensures kept { Appends names.old.items names.new.items result }
        ensures same { IsTrue tells_files → SameFiles (files self.old) (files self.new) }
        ensures faults { folder_faults self.old ≤ folder_faults self.new }
        ensures cause { ListingFails (folder_faults self.old) (folder_faults self.new) result }
        ensures exact { IsTrue counts_exactly → ListingCounts (folder_faults self.old) (folder_faults self.new) result };

    /// The number of bytes of a file. It fails where there are more than 2^62.
    fn len(&mut self, name: &str) -> Length
        ensures length { IsTrue tells_files → HasLength (files self.old name.now) result }
        ensures limit { IsFileLength result }
        ensures same { IsTrue tells_files → SameFiles (files self.old) (files self.new) }
        ensures faults { folder_faults self.old ≤ folder_faults self.new }
        ensures cause { LengthFails (folder_faults self.old) (folder_faults self.new) result }
        ensures exact { IsTrue counts_exactly → LengthCounts (folder_faults self.old) (folder_faults self.new) result };

    /// Reads the bytes from the place `at` on into the start of `into`, as many as fit and stand there; 0 for an
    /// absent file. It fails where they would end past 2^62. After `Failed` a type that tells its files leaves the buffer as
    /// it was; of any other type its bytes may be any.
    fn read_at(&mut self, name: &str, at: u64, into: &mut [u8]) -> ReadAt
        ensures amount { IsAmountAt result (length into.old) }
        ensures bytes { IsTrue tells_files → ReadsAt (files self.old name.now) at into.old into.new result }
        ensures limit { IsReadWithin at result }
        ensures same { IsTrue tells_files → SameFiles (files self.old) (files self.new) }
        ensures faults { folder_faults self.old ≤ folder_faults self.new }
        ensures cause { ReadAtFails (folder_faults self.old) (folder_faults self.new) result }
        ensures exact { IsTrue counts_exactly → ReadAtCounts (folder_faults self.old) (folder_faults self.new) result };

    /// Writes bytes at a place, over what stands there and past the end. It creates an absent file, and fills a gap
    /// with zeros. Past 2^62 bytes it fails. After `Failed` the range, and what lies past the old end, up to 2^62, may hold any bytes.
    fn write_at(&mut self, name: &str, at: u64, from: &[u8]) -> Did
        ensures bytes { IsTrue tells_files → WritesAt (files self.old name.now) (files self.new name.now) at from.now result }
        ensures limit { IsWithin (at + length from.now) result }
        ensures others { IsTrue tells_files → OnlyChanges (files self.old) (files self.new) name.now }
        ensures faults { folder_faults self.old ≤ folder_faults self.new }
        ensures cause { DidFails (folder_faults self.old) (folder_faults self.new) result }
        ensures exact { IsTrue counts_exactly → DidCounts (folder_faults self.old) (folder_faults self.new) result };

    /// Gives a file its first `to` bytes, and zeros where it was shorter. It creates an absent file. Past 2^62 bytes it
    /// fails. After `Failed` it is done or undone.
    fn cut(&mut self, name: &str, to: u64) -> Did
        ensures bytes { IsTrue tells_files → Cuts (files self.old name.now) (files self.new name.now) to result }
        ensures limit { IsWithin to result }
        ensures others { IsTrue tells_files → OnlyChanges (files self.old) (files self.new) name.now }
        ensures faults { folder_faults self.old ≤ folder_faults self.new }
        ensures cause { DidFails (folder_faults self.old) (folder_faults self.new) result }
        ensures exact { IsTrue counts_exactly → DidCounts (folder_faults self.old) (folder_faults self.new) result };

    /// Makes the bytes of a file durable. It changes no content.
    fn sync(&mut self, name: &str) -> Did
        ensures same { IsTrue tells_files → SameFiles (files self.old) (files self.new) }
        ensures faults { folder_faults self.old ≤ folder_faults self.new }
        ensures cause { DidFails (folder_faults self.old) (folder_faults self.new) result }
        ensures exact { IsTrue counts_exactly → DidCounts (folder_faults self.old) (folder_faults self.new) result };

    /// Makes the names durable: what was created, renamed and removed. It changes no content.
    fn sync_names(&mut self) -> Did
        ensures same { IsTrue tells_files → SameFiles (files self.old) (files self.new) }
        ensures faults { folder_faults self.old ≤ folder_faults self.new }
        ensures cause { DidFails (folder_faults self.old) (folder_faults self.new) result }
        ensures exact { IsTrue counts_exactly → DidCounts (folder_faults self.old) (folder_faults self.new) result };

    /// Gives the file `from` the name `to`, in place of a file that has it. An absent `from` is `Done` and changes nothing.
    /// After `Failed` it is done or undone.
    fn rename(&mut self, from: &str, to: &str) -> Did
        ensures files { IsTrue tells_files → Renames (files self.old) (files self.new) from.now to.now result }
        ensures faults { folder_faults self.old ≤ folder_faults self.new }
        ensures cause { DidFails (folder_faults self.old) (folder_faults self.new) result }
        ensures exact { IsTrue counts_exactly → DidCounts (folder_faults self.old) (folder_faults self.new) result };

    /// Removes a file. An absent file is `Done`. After `Failed` it is done or undone.
    fn remove(&mut self, name: &str) -> Did
        ensures bytes { IsTrue tells_files → Removes (files self.old name.now) (files self.new name.now) result }
        ensures others { IsTrue tells_files → OnlyChanges (files self.old) (files self.new) name.now }
        ensures faults { folder_faults self.old ≤ folder_faults self.new }
        ensures cause { DidFails (folder_faults self.old) (folder_faults self.new) result }
        ensures exact { IsTrue counts_exactly → DidCounts (folder_faults self.old) (folder_faults self.new) result };

    /// The count of faults is at most 2^64 - 1.
    ghost folder_faults_fit: { (folder : Self) → folder_faults folder ≤ 2 ^ 64 - 1 };
}
