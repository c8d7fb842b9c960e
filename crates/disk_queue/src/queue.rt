ghost use Rattle.std.specs.Prelude.{◌≡◌, ◌+◌, ◌^◌, ◌<◌, ◌≤◌, ◌↔◌, ℕ, List, [], ◌++◌, length, unwrap_or, IsTrue, IfOk, IfSome, IfNone};
ghost use Rattle.nsq_outside.specs.Causes.{Rose, DidFails, DidCounts};
ghost use Rattle.nsq_outside.specs.Files.{Files};
ghost use Rattle.queue_image.specs.Places.{rolls};
ghost use Rattle.queue_image.specs.FileNames.{data_file, meta_file};
ghost use Rattle.disk_queue.specs.Seen.{fresh_queue, unmarked, forgotten, committed, after_stage, after_save, after_put, IsEarly, IsUnchanged};
ghost use Rattle.disk_queue.specs.Holding.{Holds, SaveStands, OwnChange};
ghost use Rattle.queue_image.specs.Metas.{IsIdle};
ghost use Rattle.disk_queue.specs.Answers.{waiting_after, bodies_after, StaysWhereTooLong, StageTooLong, PutTooLong, StageFails, StageCounts, SyncFails, SyncCounts, PutFails, PutCounts, NotDueWhere, PutDue, Saves, PutSaves, KeptWhereDone, FoundUnlessFailed, PutKept};
ghost use Rattle.queue_opening.specs.Replaced.{OnlyTwoChange};
ghost use Rattle.disk_queue.specs.Parts.{IsSound, OnlySaveChanges, Rewrites, PutChanges, PutWrites, StageWrites, WritesPlace, base_for, first_base, place_for};
ghost use Rattle.queue_opening.specs.FileCalls.{Gone, CountsNone};

mod emptying;
mod opening;
mod reading;

use crate::standing::{LastSave, Staged};
use crate::{Put, QueueOptions, Stage, Sync};
use nsq_core::Memory;
use nsq_outside::{Did, Folder};
use queue_image::{LAST_FILE, Positions};
use queue_opening::QueueFiles;
use std::alloc::Global;
use std::marker::Model;

/// A queue of records in the files of a folder, which each call is handed. It keeps positions alone, and no record.
///
/// A record is first staged, behind the list's end, and joins the list when it is committed.
#[derive(Drop)]
pub struct Queue {
    options: QueueOptions,
    // How many records the list has.
    depth: u128,
    positions: Positions,
    staged: Staged,
    saved: LastSave,
    // How many bytes the record has that a peek gave, where that is still the first one.
    mark: Option<u32>,
    // Whether the queue was opened, or a record was staged since it was made. Before that the file is cut where writing begins.
    begun: bool,
    files: QueueFiles,
}

impl Model for Queue {
    ghost use Rattle.disk_queue.specs.Seen.{Seen};
    ghost use Rattle.disk_queue.specs.Parts.{IsSound};

    ghost Value = { Seen };

    ghost view = { λ q. record { name = q.files; options = q.options; depth = q.depth; positions = q.positions; staged = q.staged; saved = q.saved; mark = q.mark; begun = q.begun } };

    ghost invariant = { λ q. IsSound (record { name = q.files; options = q.options; depth = q.depth; positions = q.positions; staged = q.staged; saved = q.saved; mark = q.mark; begun = q.begun }) };
}

impl Queue {
    /// An empty queue that begins at file 0, whatever the folder has. Makes all room that the other calls need.
    pub fn fresh(alloc: Global, name: &str, options: QueueOptions) -> Result<Queue, Memory>
        ensures seen { IfOk result (λ q. q ≡ fresh_queue name.now options) }
        ensures list { IfOk result (λ q. (files : Files) → Holds q files [] []) }
        ensures stands { IfOk result (λ q. (files : Files) → IsIdle (files (meta_file name.now)) → SaveStands q files) }
    {
        let start = Positions {
            read_file: 0,
            read_at: 0,
            write_file: 0,
            write_at: 0,
        };
        Ok(Queue {
            options,
            depth: 0,
            positions: start,
            staged: Staged {
                file: 0,
                at: 0,
                count: 0,
            },
            saved: LastSave {
                positions: start,
                finished: false,
                since: 0,
                failed: false,
            },
            mark: None,
            begun: false,
            files: QueueFiles::new(alloc, name)?,
        })
    }

    /// The number of records in the list: below 2^127, since places in the files bound it.
    pub fn depth(&self) -> u128
        ensures told { result ≡ self.now.depth }
        ensures fits { result < 2 ^ 127 }
    {
        self.depth
    }

    /// Writes a record behind the staged ones, in the next file where this one would grow too long. The record isn't in the list
    /// before it is committed. A refused one leaves what was staged.
    pub fn stage<F: Folder>(&mut self, folder: &mut F, bytes: &[u8]) -> Stage
        requires { self.old.options.least ≤ length bytes.now }
        ensures seen { self.new ≡ after_stage self.old (length bytes.now) result }
        ensures too_long { StageTooLong self.old.options.limit (length bytes.now) result }
        ensures list { IsTrue F.tells_files → (bodies waiting : List (List ℕ)) → Holds self.old (F.files folder.old) bodies waiting → Holds self.new (F.files folder.new) bodies (waiting_after waiting bytes.now result) }
        ensures stands { IsTrue F.tells_files → SaveStands self.old (F.files folder.old) → SaveStands self.new (F.files folder.new) }
        ensures written { IsTrue F.tells_files → StageWrites self.old (F.files folder.old) (F.files folder.new) bytes.now result }
        ensures refused { IsTrue F.tells_files → StaysWhereTooLong (F.files folder.old) (F.files folder.new) result }
        ensures metadata { IsTrue F.tells_files → F.files folder.new (meta_file self.old.name) ≡ F.files folder.old (meta_file self.old.name) }
        ensures files { IsTrue F.tells_files → OnlyTwoChange (F.files folder.old) (F.files folder.new) (data_file self.old.name self.old.staged.file) (data_file self.old.name (self.old.staged.file + 1)) }
        ensures others { IsTrue F.tells_files → OwnChange self.old.name (F.files folder.old) (F.files folder.new) }
        ensures faults { F.folder_faults folder.old ≤ F.folder_faults folder.new }
        ensures cause { StageFails (F.folder_faults folder.old) (F.folder_faults folder.new) result }
        ensures exact { IsTrue F.counts_exactly → StageCounts (F.folder_faults folder.old) (F.folder_faults folder.new) result }
    {
        let limit = self.limit();
        if bytes.len() > limit as usize {
            self.unmark();
            return Stage::TooLong(limit);
        }
        let Some(place) = self.place(folder, bytes.len()) else {
            self.unmark();
            return Stage::Fault;
        };
        self.write(folder, place, bytes)
    }

    /// The staged records join the list, in order, whatever the answer. A save is made where at least as many records as the options say
    /// were committed and advanced since the last one, or the file that is read or written is another than at the last one.
    pub fn commit<F: Folder>(&mut self, folder: &mut F) -> Sync
        ensures seen { self.new ≡ after_save (committed self.old) result }
        ensures due { NotDueWhere (IsEarly (committed self.old)) result }
        ensures list { IsTrue F.tells_files → (bodies waiting : List (List ℕ)) → Holds self.old (F.files folder.old) bodies waiting → Holds self.new (F.files folder.new) (bodies ++ waiting) [] }
        ensures kept { IsTrue F.tells_files → (bodies waiting : List (List ℕ)) → Holds self.old (F.files folder.old) bodies waiting → KeptWhereDone self.new (F.files folder.new) (bodies ++ waiting) result }
        ensures stands { IsTrue F.tells_files → SaveStands self.old (F.files folder.old) → SaveStands self.new (F.files folder.new) }
        ensures metadata { IsTrue F.tells_files → Saves self.new (F.files folder.old) (F.files folder.new) result }
        ensures written { IsTrue F.tells_files → F.files folder.new (data_file self.old.name self.old.staged.file) ≡ F.files folder.old (data_file self.old.name self.old.staged.file) }
        ensures files { IsTrue F.tells_files → OnlySaveChanges self.old (F.files folder.old) (F.files folder.new) }
        ensures others { IsTrue F.tells_files → OwnChange self.old.name (F.files folder.old) (F.files folder.new) }
        ensures faults { F.folder_faults folder.old ≤ F.folder_faults folder.new }
        ensures cause { SyncFails (F.folder_faults folder.old) (F.folder_faults folder.new) result }
        ensures exact { IsTrue F.counts_exactly → SyncCounts (F.folder_faults folder.old) (F.folder_faults folder.new) result }
    {
        self.join();
        if self.is_early() {
            return Sync::NotDue;
        }
        self.save(folder)
    }

    /// The staged records are dropped.
    pub fn forget(&mut self)
        ensures seen { self.new ≡ forgotten self.old }
        ensures list { (files : Files) (bodies waiting : List (List ℕ)) → Holds self.old files bodies waiting → Holds self.new files bodies [] }
        ensures stands { (files : Files) → SaveStands self.old files → SaveStands self.new files }
    {
        self.mark = None;
        self.staged = Staged {
            file: self.positions.write_file,
            at: self.positions.write_at,
            count: 0,
        };
    }

    /// Writes a record at the end of the list, and saves where that is due. A refused one leaves the list.
    pub fn put<F: Folder>(&mut self, folder: &mut F, bytes: &[u8]) -> Put
        requires size { self.old.options.least ≤ length bytes.now }
        requires none { self.old.staged.count ≡ 0 }
        ensures seen { self.new ≡ after_put self.old (length bytes.now) result }
        ensures name { self.new.name ≡ self.old.name }
        ensures options { self.new.options ≡ self.old.options }
        ensures none_now { self.new.staged.count ≡ 0 }
        ensures too_long { PutTooLong self.old.options.limit (length bytes.now) result }
        ensures due { PutDue self.old (length bytes.now) result }
        ensures list { IsTrue F.tells_files → (bodies : List (List ℕ)) → Holds self.old (F.files folder.old) bodies [] → Holds self.new (F.files folder.new) (bodies_after bodies bytes.now result) [] }
        ensures kept { IsTrue F.tells_files → (bodies : List (List ℕ)) → Holds self.old (F.files folder.old) bodies [] → PutKept self.new (F.files folder.new) (bodies_after bodies bytes.now result) result }
        ensures stands { IsTrue F.tells_files → SaveStands self.old (F.files folder.old) → SaveStands self.new (F.files folder.new) }
        ensures written { IsTrue F.tells_files → PutWrites self.old (F.files folder.old) (F.files folder.new) bytes.now result }
        ensures metadata { IsTrue F.tells_files → PutSaves self.new (F.files folder.old) (F.files folder.new) result }
        ensures files { IsTrue F.tells_files → PutChanges self.old (F.files folder.old) (F.files folder.new) result }
        ensures others { IsTrue F.tells_files → OwnChange self.old.name (F.files folder.old) (F.files folder.new) }
        ensures faults { F.folder_faults folder.old ≤ F.folder_faults folder.new }
        ensures cause { PutFails (F.folder_faults folder.old) (F.folder_faults folder.new) result }
        ensures exact { IsTrue F.counts_exactly → PutCounts (F.folder_faults folder.old) (F.folder_faults folder.new) result }
    {
        match self.stage(folder, bytes) {
            Stage::Staged => {}
            Stage::Fault => return Put::Fault,
            Stage::TooLong(limit) => return Put::TooLong(limit),
        }
        Put::Stored(self.commit(folder))
    }

    /// Saves, where anything changed since the last save or a save failed since it. The staged records stay staged: the metadata says
    /// the end of the list, and what stands behind it is none of an opening's.
    pub fn sync<F: Folder>(&mut self, folder: &mut F) -> Sync
        ensures seen { self.new ≡ after_save (unmarked self.old) result }
        ensures due { NotDueWhere (IsUnchanged self.old) result }
        ensures list { IsTrue F.tells_files → (bodies waiting : List (List ℕ)) → Holds self.old (F.files folder.old) bodies waiting → Holds self.new (F.files folder.new) bodies waiting }
        ensures kept { IsTrue F.tells_files → (bodies waiting : List (List ℕ)) → Holds self.old (F.files folder.old) bodies waiting → KeptWhereDone self.new (F.files folder.new) bodies result }
        ensures found { IsTrue F.tells_files → (bodies waiting : List (List ℕ)) → Holds self.old (F.files folder.old) bodies waiting → SaveStands self.old (F.files folder.old) → FoundUnlessFailed self.new (F.files folder.new) bodies result }
        ensures stands { IsTrue F.tells_files → SaveStands self.old (F.files folder.old) → SaveStands self.new (F.files folder.new) }
        ensures metadata { IsTrue F.tells_files → Saves self.new (F.files folder.old) (F.files folder.new) result }
        ensures files { IsTrue F.tells_files → OnlySaveChanges self.old (F.files folder.old) (F.files folder.new) }
        ensures others { IsTrue F.tells_files → OwnChange self.old.name (F.files folder.old) (F.files folder.new) }
        ensures faults { F.folder_faults folder.old ≤ F.folder_faults folder.new }
        ensures cause { SyncFails (F.folder_faults folder.old) (F.folder_faults folder.new) result }
        ensures exact { IsTrue F.counts_exactly → SyncCounts (F.folder_faults folder.old) (F.folder_faults folder.new) result }
    {
        self.unmark();
        if self.is_unchanged() {
            return Sync::NotDue;
        }
        self.save(folder)
    }
}

/// Where a record is written.
impl Queue {
    // The greatest number of bytes of a record.
    fn limit(&self) -> u32
        ensures limit { result ≡ self.now.options.limit }
        ensures sound { IsSound self.now }
    {
        self.options.limit
    }

    // The mark is dropped.
    fn unmark(&mut self)
        ensures { self.new ≡ unmarked self.old }
    {
        self.mark = None;
    }

    // Makes ready the place where a record of that many bytes is written, behind the staged ones or in the next file.
    fn place<F: Folder>(&mut self, folder: &mut F, size: usize) -> Option<Staged>
        ensures seen { self.new ≡ self.old }
        ensures end { IfSome result (λ place. place ≡ place_for self.old size) }
        ensures list { IsTrue F.tells_files → (bodies waiting : List (List ℕ)) → Holds self.old (F.files folder.old) bodies waiting → Holds self.old (F.files folder.new) bodies waiting }
        ensures ready { IsTrue F.tells_files → (bodies waiting : List (List ℕ)) → Holds self.old (F.files folder.old) bodies waiting → IfSome result (λ place. Holds (record (self.old) { staged = place }) (F.files folder.new) bodies waiting) }
        ensures base { IsTrue F.tells_files → IfSome result (λ place. unwrap_or (F.files folder.new (data_file self.old.name place.file)) [] ≡ base_for self.old (F.files folder.old) size) }
        ensures files { IsTrue F.tells_files → OnlyTwoChange (F.files folder.old) (F.files folder.new) (data_file self.old.name self.old.staged.file) (data_file self.old.name (self.old.staged.file + 1)) }
        ensures faults { F.folder_faults folder.old ≤ F.folder_faults folder.new }
        ensures cause { IfNone result (Rose (F.folder_faults folder.old) (F.folder_faults folder.new)) }
        ensures exact { IsTrue F.counts_exactly → CountsNone (F.folder_faults folder.old) (F.folder_faults folder.new) result }
    {
        if self.rolls(size) {
            return self.roll(folder);
        }
        self.begin(folder)
    }

    // Whether a record of that many bytes goes to the next file.
    fn rolls(&self, size: usize) -> bool
        ensures { result ≡ rolls self.now.options.max_bytes self.now.staged.file self.now.staged.at size }
    {
        self.staged.at > 0
            && (self.staged.at as u128) + 4 + (size as u128) > self.options.max_bytes as u128
            && self.staged.file < LAST_FILE
    }

    // Ends the file where writing stands, and begins the next one.
    fn roll<F: Folder>(&mut self, folder: &mut F) -> Option<Staged>
        requires { self.old.staged.file < 2 ^ 40 }
        ensures seen { self.new ≡ self.old }
        ensures end { IfSome result (λ place. place ≡ record { file = self.old.staged.file + 1; at = 0; count = self.old.staged.count }) }
        ensures list { IsTrue F.tells_files → (bodies waiting : List (List ℕ)) → Holds self.old (F.files folder.old) bodies waiting → Holds self.old (F.files folder.new) bodies waiting }
        ensures ready { IsTrue F.tells_files → (bodies waiting : List (List ℕ)) → Holds self.old (F.files folder.old) bodies waiting → IfSome result (λ place. Holds (record (self.old) { staged = place }) (F.files folder.new) bodies waiting) }
        ensures base { IsTrue F.tells_files → IfSome result (λ place. unwrap_or (F.files folder.new (data_file self.old.name place.file)) [] ≡ []) }
        ensures files { IsTrue F.tells_files → OnlyTwoChange (F.files folder.old) (F.files folder.new) (data_file self.old.name self.old.staged.file) (data_file self.old.name (self.old.staged.file + 1)) }
        ensures faults { F.folder_faults folder.old ≤ F.folder_faults folder.new }
        ensures cause { IfNone result (Rose (F.folder_faults folder.old) (F.folder_faults folder.new)) }
        ensures exact { IsTrue F.counts_exactly → CountsNone (F.folder_faults folder.old) (F.folder_faults folder.new) result }
    {
        match self.files.roll(folder, self.staged.file, self.staged.at) {
            Did::Done => {}
            Did::Failed => return None,
        }
        Some(Staged {
            file: self.staged.file + 1,
            at: 0,
            count: self.staged.count,
        })
    }

    // The end of the staged records. Before the first of them the file is cut there.
    fn begin<F: Folder>(&mut self, folder: &mut F) -> Option<Staged>
        ensures seen { self.new ≡ self.old }
        ensures end { IfSome result (λ place. place ≡ self.old.staged) }
        ensures list { IsTrue F.tells_files → (bodies waiting : List (List ℕ)) → Holds self.old (F.files folder.old) bodies waiting → Holds self.old (F.files folder.new) bodies waiting }
        ensures ready { IsTrue F.tells_files → (bodies waiting : List (List ℕ)) → Holds self.old (F.files folder.old) bodies waiting → IfSome result (λ place. Holds (record (self.old) { staged = place }) (F.files folder.new) bodies waiting) }
        ensures base { IsTrue F.tells_files → IfSome result (λ place. unwrap_or (F.files folder.new (data_file self.old.name place.file)) [] ≡ first_base self.old (F.files folder.old)) }
        ensures files { IsTrue F.tells_files → OnlyTwoChange (F.files folder.old) (F.files folder.new) (data_file self.old.name self.old.staged.file) (data_file self.old.name (self.old.staged.file + 1)) }
        ensures faults { F.folder_faults folder.old ≤ F.folder_faults folder.new }
        ensures cause { IfNone result (Rose (F.folder_faults folder.old) (F.folder_faults folder.new)) }
        ensures exact { IsTrue F.counts_exactly → CountsNone (F.folder_faults folder.old) (F.folder_faults folder.new) result }
    {
        if self.begun {
            return Some(self.staged);
        }
        match self.files.cut(folder, self.staged.file, self.staged.at) {
            Did::Done => {}
            Did::Failed => return None,
        }
        Some(self.staged)
    }

    // Writes a record at its place. The staged records end behind it then.
    fn write<F: Folder>(&mut self, folder: &mut F, place: Staged, bytes: &[u8]) -> Stage
        requires place { place ≡ place_for self.old (length bytes.now) }
        requires least { self.old.options.least ≤ length bytes.now }
        requires limit { length bytes.now ≤ self.old.options.limit }
        ensures seen { self.new ≡ after_stage self.old (length bytes.now) result }
        ensures limit { StageTooLong self.old.options.limit (length bytes.now) result }
        ensures list { IsTrue F.tells_files → (bodies waiting : List (List ℕ)) → Holds self.old (F.files folder.old) bodies waiting → Holds (record (self.old) { staged = place }) (F.files folder.old) bodies waiting → Holds self.new (F.files folder.new) bodies (waiting_after waiting bytes.now result) }
        ensures written { IsTrue F.tells_files → WritesPlace self.old (F.files folder.old) (F.files folder.new) place bytes.now result }
        ensures files { IsTrue F.tells_files → OnlyTwoChange (F.files folder.old) (F.files folder.new) (data_file self.old.name self.old.staged.file) (data_file self.old.name (self.old.staged.file + 1)) }
        ensures faults { F.folder_faults folder.old ≤ F.folder_faults folder.new }
        ensures cause { StageFails (F.folder_faults folder.old) (F.folder_faults folder.new) result }
        ensures exact { IsTrue F.counts_exactly → StageCounts (F.folder_faults folder.old) (F.folder_faults folder.new) result }
    {
        self.mark = None;
        match self.files.write(folder, place.file, place.at, bytes) {
            Did::Done => {}
            Did::Failed => return Stage::Fault,
        }
        self.staged = Staged {
            file: place.file,
            at: place.at + (4 + bytes.len() as u64),
            count: place.count + 1,
        };
        self.begun = true;
        Stage::Staged
    }
}

/// The save.
impl Queue {
    // The staged records join the list.
    fn join(&mut self)
        ensures { self.new ≡ committed self.old }
    {
        let since = self.saved.since as u128 + self.staged.count;
        self.depth += self.staged.count;
        self.positions.write_file = self.staged.file;
        self.positions.write_at = self.staged.at;
        self.staged.count = 0;
        self.saved.since = since.min(u64::MAX as u128) as u64;
        self.mark = None;
    }

    // Whether a commit or an advance needs no save.
    fn is_early(&self) -> bool
        ensures { IsTrue result ↔ IsEarly self.now }
    {
        self.saved.since < self.options.sync_every
            && self.positions.read_file == self.saved.positions.read_file
            && self.positions.write_file == self.saved.positions.write_file
    }

    // Whether nothing changed since the last save, and none failed since.
    fn is_unchanged(&self) -> bool
        ensures unchanged { IsTrue result ↔ IsUnchanged self.now }
        ensures sound { IsSound self.now }
    {
        self.saved.since == 0 && self.positions == self.saved.positions && !self.saved.failed
    }

    // Saves: the write file, the metadata, and then the files below the read file are removed.
    fn save<F: Folder>(&mut self, folder: &mut F) -> Sync
        ensures seen { self.new ≡ after_save self.old result }
        ensures due { NotDueWhere ⊥ result }
        ensures list { IsTrue F.tells_files → (bodies waiting : List (List ℕ)) → Holds self.old (F.files folder.old) bodies waiting → Holds self.new (F.files folder.new) bodies waiting }
        ensures stands { IsTrue F.tells_files → SaveStands self.old (F.files folder.old) → SaveStands self.new (F.files folder.new) }
        ensures kept { IsTrue F.tells_files → (bodies waiting : List (List ℕ)) → Holds self.old (F.files folder.old) bodies waiting → KeptWhereDone self.new (F.files folder.new) bodies result }
        ensures metadata { IsTrue F.tells_files → Saves self.new (F.files folder.old) (F.files folder.new) result }
        ensures written { IsTrue F.tells_files → F.files folder.new (data_file self.old.name self.old.positions.write_file) ≡ F.files folder.old (data_file self.old.name self.old.positions.write_file) }
        ensures files { IsTrue F.tells_files → OnlySaveChanges self.old (F.files folder.old) (F.files folder.new) }
        ensures others { IsTrue F.tells_files → OwnChange self.old.name (F.files folder.old) (F.files folder.new) }
        ensures faults { F.folder_faults folder.old ≤ F.folder_faults folder.new }
        ensures cause { SyncFails (F.folder_faults folder.old) (F.folder_faults folder.new) result }
        ensures exact { IsTrue F.counts_exactly → SyncCounts (F.folder_faults folder.old) (F.folder_faults folder.new) result }
    {
        match self.save_files(folder) {
            Did::Done => {}
            Did::Failed => {
                self.fail();
                return Sync::Failed;
            }
        }
        self.finish();
        Sync::Done
    }

    // A save failed.
    fn fail(&mut self)
        ensures { self.new ≡ after_save self.old Sync.Failed }
    {
        self.saved.failed = true;
    }

    // A save was made.
    fn finish(&mut self)
        ensures { self.new ≡ after_save self.old Sync.Done }
    {
        self.saved = LastSave {
            positions: self.positions,
            finished: true,
            since: 0,
            failed: false,
        };
    }

    // The folder's calls of a save.
    fn save_files<F: Folder>(&mut self, folder: &mut F) -> Did
        ensures seen { self.new ≡ self.old }
        ensures sound { IsSound self.old }
        ensures metadata { IsTrue F.tells_files → Rewrites self.old (F.files folder.old) (F.files folder.new) result }
        ensures removed { IsTrue F.tells_files → Gone self.old.name (F.files folder.new) self.old.saved.positions.read_file self.old.positions.read_file result }
        ensures files { IsTrue F.tells_files → OnlySaveChanges self.old (F.files folder.old) (F.files folder.new) }
        ensures faults { F.folder_faults folder.old ≤ F.folder_faults folder.new }
        ensures cause { DidFails (F.folder_faults folder.old) (F.folder_faults folder.new) result }
        ensures exact { IsTrue F.counts_exactly → DidCounts (F.folder_faults folder.old) (F.folder_faults folder.new) result }
    {
        match self.files.save(folder, self.depth, self.positions) {
            Did::Done => {}
            Did::Failed => return Did::Failed,
        }
        let first = self.saved.positions.read_file;
        self.files.remove(folder, first, self.positions.read_file)
    }
}
