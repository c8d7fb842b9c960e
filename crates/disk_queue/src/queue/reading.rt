ghost use Rattle.std.specs.Prelude.{◌≡◌, ◌<◌, ◌≤◌, ◌+◌, ◌^◌, ◌↔◌, ℕ, List, length, drop, IfSome, IsTrue, IsSome, None};
ghost use Rattle.nsq_outside.specs.Files.{SameFiles};
ghost use Rattle.queue_image.specs.Between.{content};
ghost use Rattle.queue_image.specs.Places.{IsOrdered};
ghost use Rattle.queue_image.specs.Records.{IsSize};
ghost use Rattle.disk_queue.specs.Seen.{reading_at, behind, advanced, after_save, passed_over, IsEarly};
ghost use Rattle.disk_queue.specs.Holding.{Holds, SaveStands, OwnChange};
ghost use Rattle.disk_queue.specs.Answers.{NotDueWhere, SyncFails, SyncCounts, Saves, KeptWhereDone};
ghost use Rattle.disk_queue.specs.Parts.{IsSound, OnlySaveChanges};
ghost use Rattle.disk_queue.specs.Peeking.{BeginsWithSize, HeadIs, HeadEnds, HeadFails, HeadCounts, FindCounts, HeadFinds, TurnSeen, TurnFinds, PeekMakes};
ghost use Rattle.disk_queue.specs.declared.answers.Peek.TheVariants.{Damaged, Empty};
ghost use Rattle.disk_queue.specs.Reading.{left_of, Turns, PeekSeen, PeekSize, PeekReads, PeekGives, PeekFails, PeekCounts, TakeSeen, TakeKept, TakeSaves, TakeChanges, TakeFails, TakeCounts, stood, stood_taking, peek_of, bodies_taken};

use super::Queue;
use crate::{Peek, Sync, Take};
use nsq_outside::{Folder, ReadAt};
use queue_opening::size_spelled;

/// The reading side.
impl Queue {
    /// Reads the first record into the start of `into` and marks it. It stays the first of the list until `advance`. The read position
    /// moves on from the end of a file that is read out to the start of the next. Where no record can be read the file is passed over.
    pub fn peek<F: Folder>(&mut self, folder: &mut F, into: &mut [u8]) -> Peek
        requires { self.old.options.limit ≤ length into.old }
        ensures seen { PeekSeen self.old self.new result }
        ensures name { self.new.name ≡ self.old.name }
        ensures options { self.new.options ≡ self.old.options }
        ensures staged { self.new.staged ≡ self.old.staged }
        ensures size { PeekSize self.old.options.least self.old.options.limit result }
        ensures moves { IsTrue F.tells_files → Turns (content (F.files folder.old) self.old.name) self.old.positions (stood self.new.positions result) }
        ensures reads { IsTrue F.tells_files → PeekReads self.old.options.least self.old.options.limit (content (F.files folder.old) self.old.name) (stood self.new.positions result) into.new result }
        ensures first { IsTrue F.tells_files → (bodies waiting : List (List ℕ)) → Holds self.old (F.files folder.old) bodies waiting → PeekGives bodies into.new result }
        ensures list { IsTrue F.tells_files → (bodies waiting : List (List ℕ)) → Holds self.old (F.files folder.old) bodies waiting → Holds self.new (F.files folder.new) bodies waiting }
        ensures stands { IsTrue F.tells_files → SaveStands self.old (F.files folder.old) → SaveStands self.new (F.files folder.new) }
        ensures same { IsTrue F.tells_files → SameFiles (F.files folder.old) (F.files folder.new) }
        ensures faults { F.folder_faults folder.old ≤ F.folder_faults folder.new }
        ensures cause { PeekFails (F.folder_faults folder.old) (F.folder_faults folder.new) result }
        ensures exact { IsTrue F.counts_exactly → PeekCounts (F.folder_faults folder.old) (F.folder_faults folder.new) result }
    {
        self.unmark();
        let head = self.find(folder);
        self.answer(folder, head, into)
    }

    /// Takes the record that the last call, a peek, gave: the first of the list goes, whatever the answer. A save is made as in `commit`.
    pub fn advance<F: Folder>(&mut self, folder: &mut F) -> Sync
        requires { IsSome self.old.mark }
        ensures seen { self.new ≡ after_save (advanced self.old) result }
        ensures due { NotDueWhere (IsEarly (advanced self.old)) result }
        ensures list { IsTrue F.tells_files → (bodies waiting : List (List ℕ)) → Holds self.old (F.files folder.old) bodies waiting → Holds self.new (F.files folder.new) (drop 1 bodies) waiting }
        ensures kept { IsTrue F.tells_files → (bodies waiting : List (List ℕ)) → Holds self.old (F.files folder.old) bodies waiting → KeptWhereDone self.new (F.files folder.new) (drop 1 bodies) result }
        ensures stands { IsTrue F.tells_files → SaveStands self.old (F.files folder.old) → SaveStands self.new (F.files folder.new) }
        ensures metadata { IsTrue F.tells_files → Saves self.new (F.files folder.old) (F.files folder.new) result }
        ensures files { IsTrue F.tells_files → OnlySaveChanges self.old (F.files folder.old) (F.files folder.new) }
        ensures others { IsTrue F.tells_files → OwnChange self.old.name (F.files folder.old) (F.files folder.new) }
        ensures faults { F.folder_faults folder.old ≤ F.folder_faults folder.new }
        ensures cause { SyncFails (F.folder_faults folder.old) (F.folder_faults folder.new) result }
        ensures exact { IsTrue F.counts_exactly → SyncCounts (F.folder_faults folder.old) (F.folder_faults folder.new) result }
    {
        self.drop_first();
        if self.is_early() {
            return Sync::NotDue;
        }
        self.save(folder)
    }

    /// Takes the first record: it is read into the start of `into`, and goes from the list. A save is made as in `commit`.
    pub fn take<F: Folder>(&mut self, folder: &mut F, into: &mut [u8]) -> Take
        requires { self.old.options.limit ≤ length into.old }
        ensures seen { TakeSeen self.old self.new result }
        ensures name { self.new.name ≡ self.old.name }
        ensures options { self.new.options ≡ self.old.options }
        ensures staged { self.new.staged ≡ self.old.staged }
        ensures size { PeekSize self.old.options.least self.old.options.limit (peek_of result) }
        ensures moves { IsTrue F.tells_files → Turns (content (F.files folder.old) self.old.name) self.old.positions (stood_taking self.new.positions result) }
        ensures reads { IsTrue F.tells_files → PeekReads self.old.options.least self.old.options.limit (content (F.files folder.old) self.old.name) (stood_taking self.new.positions result) into.new (peek_of result) }
        ensures first { IsTrue F.tells_files → (bodies waiting : List (List ℕ)) → Holds self.old (F.files folder.old) bodies waiting → PeekGives bodies into.new (peek_of result) }
        ensures list { IsTrue F.tells_files → (bodies waiting : List (List ℕ)) → Holds self.old (F.files folder.old) bodies waiting → Holds self.new (F.files folder.new) (bodies_taken bodies result) waiting }
        ensures kept { IsTrue F.tells_files → (bodies waiting : List (List ℕ)) → Holds self.old (F.files folder.old) bodies waiting → TakeKept self.new (F.files folder.new) (bodies_taken bodies result) result }
        ensures stands { IsTrue F.tells_files → SaveStands self.old (F.files folder.old) → SaveStands self.new (F.files folder.new) }
        ensures metadata { IsTrue F.tells_files → TakeSaves self.new (F.files folder.old) (F.files folder.new) result }
        ensures files { IsTrue F.tells_files → TakeChanges self.old self.new (F.files folder.old) (F.files folder.new) }
        ensures others { IsTrue F.tells_files → OwnChange self.old.name (F.files folder.old) (F.files folder.new) }
        ensures faults { F.folder_faults folder.old ≤ F.folder_faults folder.new }
        ensures cause { TakeFails (F.folder_faults folder.old) (F.folder_faults folder.new) result }
        ensures exact { IsTrue F.counts_exactly → TakeCounts (F.folder_faults folder.old) (F.folder_faults folder.new) result }
    {
        let size = match self.peek(folder, into) {
            Peek::Got(size) => size,
            Peek::Empty => return Take::Empty,
            Peek::Fault => return Take::Fault,
            Peek::Damaged(file, place, size) => return Take::Damaged(file, place, size),
        };
        Take::Got(size, self.advance(folder))
    }
}

/// What stands where reading stands.
#[derive(Clone, Copy)]
pub enum Head {
    /// A record begins there, with this size.
    Size(u32),
    /// Fewer than four bytes are left.
    Short,
    /// The folder failed, and its count of faults rose in this call.
    Fault,
}

/// The parts of a peek.
impl Queue {
    // Goes past files that are read out, and reads the size of the record that stands there; None at the end of the list.
    fn find<F: Folder>(&mut self, folder: &mut F) -> Option<Head>
        requires { self.old.mark ≡ None }
        ensures seen { self.new ≡ reading_at self.old self.new.positions.read_file self.new.positions.read_at }
        ensures sound { IsSound self.new }
        ensures moves { IsTrue F.tells_files → Turns (content (F.files folder.old) self.old.name) self.old.positions self.new.positions }
        ensures finds { IsTrue F.tells_files → HeadFinds (content (F.files folder.old) self.old.name) self.new.positions result }
        ensures ends { IfSome result (HeadEnds self.new.positions.read_at) }
        ensures same { IsTrue F.tells_files → SameFiles (F.files folder.old) (F.files folder.new) }
        ensures faults { F.folder_faults folder.old ≤ F.folder_faults folder.new }
        ensures cause { IfSome result (HeadFails (F.folder_faults folder.old) (F.folder_faults folder.new)) }
        ensures exact { IsTrue F.counts_exactly → FindCounts (F.folder_faults folder.old) (F.folder_faults folder.new) result }
    {
        while self.positions.read_file < self.positions.write_file {
            match self.size_or_turn(folder) {
                Some(head) => return Some(head),
                None => {}
            }
        }
        self.last_size(folder)
    }

    // The size in a file below the write file; or None, and reading stands at the start of the next file where this one is read out.
    fn size_or_turn<F: Folder>(&mut self, folder: &mut F) -> Option<Head>
        requires earlier { self.old.positions.read_file < self.old.positions.write_file }
        requires unmarked { self.old.mark ≡ None }
        ensures seen { TurnSeen self.old self.new result }
        ensures sound { IsSound self.old }
        ensures finds { IsTrue F.tells_files → TurnFinds (content (F.files folder.old) self.old.name) self.old.positions result }
        ensures ends { IfSome result (HeadEnds self.old.positions.read_at) }
        ensures same { IsTrue F.tells_files → SameFiles (F.files folder.old) (F.files folder.new) }
        ensures faults { F.folder_faults folder.old ≤ F.folder_faults folder.new }
        ensures cause { IfSome result (HeadFails (F.folder_faults folder.old) (F.folder_faults folder.new)) }
        ensures exact { IsTrue F.counts_exactly → FindCounts (F.folder_faults folder.old) (F.folder_faults folder.new) result }
    {
        match self.size_here(folder) {
            Head::Size(size) => return Some(Head::Size(size)),
            Head::Short => {}
            Head::Fault => return Some(Head::Fault),
        }
        let Some(len) = self.files.len(folder, self.positions.read_file) else {
            return Some(Head::Fault);
        };
        if len != self.positions.read_at {
            return Some(Head::Short);
        }
        self.positions.read_file += 1;
        self.positions.read_at = 0;
        None
    }

    // The size in the write file, where the list ends at the write position; None at that place.
    fn last_size<F: Folder>(&mut self, folder: &mut F) -> Option<Head>
        requires { self.old.positions.write_file ≤ self.old.positions.read_file }
        ensures seen { self.new ≡ self.old }
        ensures sound { IsSound self.old }
        ensures finds { IsTrue F.tells_files → HeadFinds (content (F.files folder.old) self.old.name) self.old.positions result }
        ensures ends { IfSome result (HeadEnds self.old.positions.read_at) }
        ensures same { IsTrue F.tells_files → SameFiles (F.files folder.old) (F.files folder.new) }
        ensures faults { F.folder_faults folder.old ≤ F.folder_faults folder.new }
        ensures cause { IfSome result (HeadFails (F.folder_faults folder.old) (F.folder_faults folder.new)) }
        ensures exact { IsTrue F.counts_exactly → FindCounts (F.folder_faults folder.old) (F.folder_faults folder.new) result }
    {
        let left = self.positions.write_at - self.positions.read_at;
        if left == 0 {
            return None;
        }
        if left < 4 {
            return Some(Head::Short);
        }
        Some(self.size_here(folder))
    }

    // The size of the record at the read position.
    fn size_here<F: Folder>(&mut self, folder: &mut F) -> Head
        ensures seen { self.new ≡ self.old }
        ensures sound { IsSound self.old }
        ensures is { IsTrue F.tells_files → HeadIs (drop self.old.positions.read_at (content (F.files folder.old) self.old.name self.old.positions.read_file)) result }
        ensures ends { HeadEnds self.old.positions.read_at result }
        ensures same { IsTrue F.tells_files → SameFiles (F.files folder.old) (F.files folder.new) }
        ensures faults { F.folder_faults folder.old ≤ F.folder_faults folder.new }
        ensures cause { HeadFails (F.folder_faults folder.old) (F.folder_faults folder.new) result }
        ensures exact { IsTrue F.counts_exactly → HeadCounts (F.folder_faults folder.old) (F.folder_faults folder.new) result }
    {
        let mut size = [0; 4];
        match self.files.read_at(
            folder,
            self.positions.read_file,
            self.positions.read_at,
            &mut size,
        ) {
            ReadAt::Got(4) => {}
            ReadAt::Got(_) => return Head::Short,
            ReadAt::Failed => return Head::Fault,
        }
        Head::Size(size_spelled(&size))
    }

    // The answer of a peek to what stands where reading stands.
    fn answer<F: Folder>(&mut self, folder: &mut F, head: Option<Head>, into: &mut [u8]) -> Peek
        requires room { self.old.options.limit ≤ length into.old }
        requires place { IfSome head (HeadEnds self.old.positions.read_at) }
        ensures seen { PeekMakes self.old self.new result }
        ensures size { PeekSize self.old.options.least self.old.options.limit result }
        ensures reads { IsTrue F.tells_files → HeadFinds (content (F.files folder.old) self.old.name) self.old.positions head → PeekReads self.old.options.least self.old.options.limit (content (F.files folder.old) self.old.name) self.old.positions into.new result }
        ensures same { IsTrue F.tells_files → SameFiles (F.files folder.old) (F.files folder.new) }
        ensures faults { F.folder_faults folder.old ≤ F.folder_faults folder.new }
        ensures cause { (before : ℕ) → before ≤ F.folder_faults folder.old → IfSome head (HeadFails before (F.folder_faults folder.old)) → PeekFails before (F.folder_faults folder.new) result }
        ensures exact { IsTrue F.counts_exactly → (before : ℕ) → FindCounts before (F.folder_faults folder.old) head → PeekCounts before (F.folder_faults folder.new) result }
    {
        match head {
            Some(Head::Size(size)) => self.read(folder, size, into),
            Some(Head::Short) => self.pass_over(0),
            Some(Head::Fault) => Peek::Fault,
            None => self.end(),
        }
    }

    // Reads the record of that size, and marks it.
    fn read<F: Folder>(&mut self, folder: &mut F, size: u32, into: &mut [u8]) -> Peek
        requires room { self.old.options.limit ≤ length into.old }
        requires place { self.old.positions.read_at + 4 ≤ 2 ^ 62 }
        ensures seen { PeekMakes self.old self.new result }
        ensures size { PeekSize self.old.options.least self.old.options.limit result }
        ensures reads { IsTrue F.tells_files → BeginsWithSize (left_of self.old.positions (content (F.files folder.old) self.old.name self.old.positions.read_file)) size → PeekReads self.old.options.least self.old.options.limit (content (F.files folder.old) self.old.name) self.old.positions into.new result }
        ensures same { IsTrue F.tells_files → SameFiles (F.files folder.old) (F.files folder.new) }
        ensures faults { F.folder_faults folder.old ≤ F.folder_faults folder.new }
        ensures cause { PeekFails (F.folder_faults folder.old) (F.folder_faults folder.new) result }
        ensures exact { IsTrue F.counts_exactly → PeekCounts (F.folder_faults folder.old) (F.folder_faults folder.new) result }
    {
        if !self.takes(size) {
            return self.pass_over(size);
        }
        let body = &mut into[..size as usize];
        match self.files.read_at(
            folder,
            self.positions.read_file,
            self.positions.read_at + 4,
            body,
        ) {
            ReadAt::Got(n) => {
                if n < size as usize {
                    return self.pass_over(size);
                }
            }
            ReadAt::Failed => return Peek::Fault,
        }
        self.mark = Some(size);
        Peek::Got(size as usize)
    }

    // Whether the queue takes a record of that size, and it ends before the write position.
    fn takes(&self, size: u32) -> bool
        requires { self.now.positions.read_at + 4 ≤ 2 ^ 62 }
        ensures takes { IsTrue result ↔ (IsSize self.now.options.least self.now.options.limit size × IsOrdered (behind self.now.positions size)) }
        ensures sound { IsSound self.now }
    {
        size >= self.options.least
            && size <= self.options.limit
            && (self.positions.read_file < self.positions.write_file
                || self.positions.read_at + 4 + size as u64 <= self.positions.write_at)
    }

    // Passes over the file that is read, in which this size is read.
    fn pass_over(&mut self, size: u32) -> Peek
        ensures seen { self.new ≡ passed_over self.old }
        ensures answer { result ≡ Damaged self.old.positions.read_file self.old.positions.read_at size }
    {
        let damaged = Peek::Damaged(self.positions.read_file, self.positions.read_at, size);
        if self.positions.read_file < self.positions.write_file {
            self.positions.read_file += 1;
            self.positions.read_at = 0;
        } else {
            self.positions.read_at = self.positions.write_at;
            self.depth = 0;
        }
        self.mark = None;
        damaged
    }

    // Reading stands at the end of the list.
    fn end(&mut self) -> Peek
        ensures seen { self.new ≡ record (self.old) { depth = 0 } }
        ensures answer { result ≡ Empty }
    {
        self.depth = 0;
        Peek::Empty
    }

    // The marked record goes.
    fn drop_first(&mut self)
        requires { IsSome self.old.mark }
        ensures seen { self.new ≡ advanced self.old }
        ensures sound { IsSound self.old }
    {
        let size = self.mark.unwrap_or(0);
        self.positions.read_at += 4 + size as u64;
        self.depth = self.depth.saturating_sub(1);
        self.saved.since = self.saved.since.saturating_add(1);
        self.mark = None;
    }
}
