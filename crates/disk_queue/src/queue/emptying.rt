ghost use Rattle.std.specs.Prelude.{◌≡◌, ◌+◌, ◌≤◌, ℕ, List, IsTrue};
ghost use Rattle.nsq_outside.specs.Causes.{DidFails, DidCounts};
ghost use Rattle.queue_image.specs.FileNames.{meta_file, meta_temp};
ghost use Rattle.queue_image.specs.Metas.{meta_text};
ghost use Rattle.queue_opening.specs.Replaced.{Replaces, OnlyTwoChange};
ghost use Rattle.disk_queue.specs.Seen.{emptied, ended};
ghost use Rattle.disk_queue.specs.Holding.{Holds, SaveStands, OwnChange};
ghost use Rattle.disk_queue.specs.Parts.{IsSound, OnlySaveChanges};
ghost use Rattle.queue_opening.specs.FileCalls.{Gone, OnlyNumbersChange, RemovalFails};
ghost use Rattle.disk_queue.specs.Emptying.{Deletes, EmptySeen, EmptyKept, EmptyFound, EmptySaves, EmptyFails, EmptyCounts, DeleteSeen, DeleteHolds, DeleteStands, DeleteSaves, DeleteFound, DeleteGone, DeleteOrder, DeleteFails, DeleteCounts, bodies_left};

use super::Queue;
use crate::{Deleted, Emptied};
use nsq_outside::{Did, Folder};
use queue_image::Positions;

/// Emptying.
impl Queue {
    /// Drops the list: the read position becomes the write position, and that is saved. The staged records stay staged. A removal of a
    /// file that fails after the metadata was written is tried at the next save.
    pub fn empty<F: Folder>(&mut self, folder: &mut F) -> Emptied
        ensures seen { EmptySeen self.old self.new result }
        ensures list { IsTrue F.tells_files → (bodies waiting : List (List ℕ)) → Holds self.old (F.files folder.old) bodies waiting → Holds self.new (F.files folder.new) (bodies_left bodies result) waiting }
        ensures kept { IsTrue F.tells_files → (bodies waiting : List (List ℕ)) → Holds self.old (F.files folder.old) bodies waiting → EmptyKept self.new (F.files folder.new) result }
        ensures found { IsTrue F.tells_files → EmptyFound self.old (F.files folder.new) result }
        ensures stands { IsTrue F.tells_files → SaveStands self.old (F.files folder.old) → SaveStands self.new (F.files folder.new) }
        ensures metadata { IsTrue F.tells_files → EmptySaves self.old (F.files folder.old) (F.files folder.new) result }
        ensures files { IsTrue F.tells_files → OnlySaveChanges (emptied self.old) (F.files folder.old) (F.files folder.new) }
        ensures others { IsTrue F.tells_files → OwnChange self.old.name (F.files folder.old) (F.files folder.new) }
        ensures faults { F.folder_faults folder.old ≤ F.folder_faults folder.new }
        ensures cause { EmptyFails (F.folder_faults folder.old) (F.folder_faults folder.new) self.new result }
        ensures exact { IsTrue F.counts_exactly → EmptyCounts (F.folder_faults folder.old) (F.folder_faults folder.new) self.old self.new result }
    {
        self.unmark();
        match self.write_empty(folder) {
            Did::Done => {}
            Did::Failed => {
                self.fail();
                return Emptied::Fault;
            }
        }
        self.drop_all();
        match self.remove_read(folder) {
            Did::Done => {}
            Did::Failed => {
                self.fail();
                return Emptied::Done;
            }
        }
        self.finish();
        Emptied::Done
    }

    /// Empties the queue and removes its data files, and then its metadata. After a removal that fails no other is tried: where a data file
    /// stays the metadata does too. What is left are files in which an opening finds nothing. Files that forgotten records began
    /// further on may stay too.
    pub fn delete<F: Folder>(self, folder: &mut F) -> Deleted
        ensures seen { DeleteSeen self result }
        ensures list { IsTrue F.tells_files → (bodies waiting : List (List ℕ)) → Holds self (F.files folder.old) bodies waiting → DeleteHolds (F.files folder.new) bodies waiting result }
        ensures stands { IsTrue F.tells_files → SaveStands self (F.files folder.old) → DeleteStands (F.files folder.new) result }
        ensures metadata { IsTrue F.tells_files → DeleteSaves self (F.files folder.old) (F.files folder.new) result }
        ensures found { IsTrue F.tells_files → DeleteFound self (F.files folder.new) result }
        ensures gone { IsTrue F.tells_files → SaveStands self (F.files folder.old) → DeleteGone self (F.files folder.new) (F.folder_faults folder.old) (F.folder_faults folder.new) result }
        ensures order { IsTrue F.tells_files → SaveStands self (F.files folder.old) → DeleteOrder self (F.files folder.new) result }
        ensures others { IsTrue F.tells_files → OwnChange self.name (F.files folder.old) (F.files folder.new) }
        ensures faults { F.folder_faults folder.old ≤ F.folder_faults folder.new }
        ensures cause { DeleteFails (F.folder_faults folder.old) (F.folder_faults folder.new) result }
        ensures exact { IsTrue F.counts_exactly → DeleteCounts (F.folder_faults folder.old) (F.folder_faults folder.new) result }
    {
        let mut queue = self;
        match queue.empty(folder) {
            Emptied::Done => {}
            Emptied::Fault => return Deleted::Fault(queue),
        }
        queue.remove_files(folder);
        Deleted::Done
    }
}

/// The parts of emptying and deleting.
impl Queue {
    // Makes the write file durable, and writes the metadata of the empty list.
    fn write_empty<F: Folder>(&mut self, folder: &mut F) -> Did
        ensures seen { self.new ≡ self.old }
        ensures sound { IsSound self.old }
        ensures metadata { IsTrue F.tells_files → Replaces (F.files folder.old) (F.files folder.new) (meta_file self.old.name) (meta_temp self.old.name) (meta_text 0 (ended self.old.positions)) result }
        ensures files { IsTrue F.tells_files → OnlyTwoChange (F.files folder.old) (F.files folder.new) (meta_file self.old.name) (meta_temp self.old.name) }
        ensures faults { F.folder_faults folder.old ≤ F.folder_faults folder.new }
        ensures cause { DidFails (F.folder_faults folder.old) (F.folder_faults folder.new) result }
        ensures exact { IsTrue F.counts_exactly → DidCounts (F.folder_faults folder.old) (F.folder_faults folder.new) result }
    {
        let end = Positions {
            read_file: self.positions.write_file,
            read_at: self.positions.write_at,
            write_file: self.positions.write_file,
            write_at: self.positions.write_at,
        };
        self.files.save(folder, 0, end)
    }

    // The list goes.
    fn drop_all(&mut self)
        ensures { self.new ≡ emptied self.old }
    {
        self.positions.read_file = self.positions.write_file;
        self.positions.read_at = self.positions.write_at;
        self.depth = 0;
        self.mark = None;
    }

    // Removes the data files from the one that was read at the last save up to the one that is read, without it.
    fn remove_read<F: Folder>(&mut self, folder: &mut F) -> Did
        ensures seen { self.new ≡ self.old }
        ensures removed { IsTrue F.tells_files → Gone self.old.name (F.files folder.new) self.old.saved.positions.read_file self.old.positions.read_file result }
        ensures tried { RemovalFails self.old.saved.positions.read_file self.old.positions.read_file result }
        ensures files { IsTrue F.tells_files → OnlyNumbersChange self.old.name (F.files folder.old) (F.files folder.new) self.old.saved.positions.read_file self.old.positions.read_file }
        ensures faults { F.folder_faults folder.old ≤ F.folder_faults folder.new }
        ensures cause { DidFails (F.folder_faults folder.old) (F.folder_faults folder.new) result }
        ensures exact { IsTrue F.counts_exactly → DidCounts (F.folder_faults folder.old) (F.folder_faults folder.new) result }
    {
        let first = self.saved.positions.read_file;
        self.files.remove(folder, first, self.positions.read_file)
    }

    // Removes the data files up to the one behind the staged end, which a refused record may have begun, and then the metadata, up to a
    // failure.
    fn remove_files<F: Folder>(&mut self, folder: &mut F)
        ensures sound { IsSound self.old }
        ensures exact { IsTrue F.counts_exactly → F.folder_faults folder.new ≤ F.folder_faults folder.old + 1 }
        ensures deletes { IsTrue F.tells_files → Deletes self.old (F.files folder.old) (F.files folder.new) (F.folder_faults folder.old) (F.folder_faults folder.new) }
        ensures faults { F.folder_faults folder.old ≤ F.folder_faults folder.new }
    {
        let first = self.saved.positions.read_file;
        match self.files.remove(folder, first, self.staged.file + 2) {
            Did::Done => {}
            Did::Failed => return,
        }
        let _ = self.files.remove_metadata(folder);
    }
}
