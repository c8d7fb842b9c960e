ghost use Rattle.std.specs.Prelude.{◌≡◌, ◌≤◌, ◌-◌, ◌++◌, List, All, length, take, drop, map, IsTrue, IsSome};
ghost use Rattle.nsq_outside.specs.Causes.{DidFails};
ghost use Rattle.circular_buffer.specs.Buffer.{buffer};
ghost use Rattle.disk_queue.specs.Answers.{SyncFails, SyncCounts};
ghost use Rattle.disk_queue.specs.Holding.{SaveStands, OwnChange};
ghost use Rattle.v2_frame.specs.declared.message.Message.{Message};
ghost use Rattle.backlog.specs.declared.backlog.Lent.TheVariants.{Nothing};
ghost use Rattle.backlog.specs.Seen.{FlushSeen, SyncSeen, EmptySeen, SameQueue, ForMessages, FitsLimit, Lengthens, WritesAll};
ghost use Rattle.backlog.specs.Lists.{HoldsAll, stored, OnDisk, Stands, DiskChanges, FlushFinds, SyncFinds, EmptyFinds, disk_flushed, disk_emptied};
ghost use Rattle.backlog.specs.Answers.{FlushFails, EmptyFails, EmptyCounts};
ghost use Rattle.backlog.specs.Deleting.{DeleteSeen, DeleteLists, DeleteStands, DeleteFinds, DeleteGone, DeleteFails, DeleteCounts};

use super::Backlog;
use crate::writing::write_record;
use crate::{Flushed, Gone};
use circular_buffer::HeapCircularBuffer;
use disk_queue::{Deleted, Emptied, Put, Queue, Sync};
use nsq_outside::{Did, Folder};
use v2_frame::Message;

/// Saving and emptying.
impl Backlog {
    /// Writes the ring's messages behind those on disk, in their order and without their delays, and saves. After a fault those that were
    /// written are on disk and the others in the ring still, and what is on disk is saved, unless a save failed. Each is written by way of
    /// `scratch`. Requires a durable one, that nothing is drawn, and 16,777,242 bytes of `scratch`.
    pub fn flush<F: Folder>(&mut self, folder: &mut F, scratch: &mut [u8]) -> Flushed
        requires durable { IsSome self.old.queue }
        requires nothing { self.old.lent ≡ Nothing }
        requires scratch { 16777242 ≤ length scratch.old }
        ensures nothing_now { self.new.lent ≡ Nothing }
        ensures queue { SameQueue self.old.queue self.new.queue }
        ensures seen { FlushSeen self.old self.new result }
        ensures list { IsTrue F.tells_files → (disk : List Message) → OnDisk self.old.queue (F.files folder.old) disk → OnDisk self.new.queue (F.files folder.new) (disk_flushed self.old self.new disk) }
        ensures found { IsTrue F.tells_files → (disk : List Message) → OnDisk self.old.queue (F.files folder.old) disk → Stands self.old.queue (F.files folder.old) → FlushFinds self.old (F.files folder.new) disk result }
        ensures stands { IsTrue F.tells_files → Stands self.old.queue (F.files folder.old) → Stands self.new.queue (F.files folder.new) }
        ensures others { IsTrue F.tells_files → DiskChanges self.old.queue (F.files folder.old) (F.files folder.new) }
        ensures faults { F.folder_faults folder.old ≤ F.folder_faults folder.new }
        ensures cause { FlushFails (F.folder_faults folder.old) (F.folder_faults folder.new) result }
    {
        let Some(queue) = &mut self.queue else {
            unreachable!()
        };
        let written = write_ring(&mut self.ring, queue, folder, scratch);
        match (written, queue.sync(folder)) {
            (Did::Done, Sync::NotDue | Sync::Done) => Flushed::Done,
            (Did::Done, Sync::Failed) | (Did::Failed, _) => Flushed::Fault,
        }
    }

    /// Saves what is on disk, as `Queue::sync`. It is never due where there is no disk. Requires that nothing is drawn.
    pub fn sync<F: Folder>(&mut self, folder: &mut F) -> Sync
        requires { self.old.lent ≡ Nothing }
        ensures nothing_now { self.new.lent ≡ Nothing }
        ensures queue { SameQueue self.old.queue self.new.queue }
        ensures seen { SyncSeen self.old.queue self.new.queue result }
        ensures rest { self.new ≡ record self.old { queue = self.new.queue } }
        ensures list { IsTrue F.tells_files → (disk : List Message) → OnDisk self.old.queue (F.files folder.old) disk → OnDisk self.new.queue (F.files folder.new) disk }
        ensures found { IsTrue F.tells_files → (disk : List Message) → OnDisk self.old.queue (F.files folder.old) disk → Stands self.old.queue (F.files folder.old) → SyncFinds self.new.queue (F.files folder.new) disk result }
        ensures stands { IsTrue F.tells_files → Stands self.old.queue (F.files folder.old) → Stands self.new.queue (F.files folder.new) }
        ensures others { IsTrue F.tells_files → DiskChanges self.old.queue (F.files folder.old) (F.files folder.new) }
        ensures faults { F.folder_faults folder.old ≤ F.folder_faults folder.new }
        ensures cause { SyncFails (F.folder_faults folder.old) (F.folder_faults folder.new) result }
        ensures exact { IsTrue F.counts_exactly → SyncCounts (F.folder_faults folder.old) (F.folder_faults folder.new) result }
    {
        match &mut self.queue {
            Some(queue) => queue.sync(folder),
            None => Sync::NotDue,
        }
    }

    /// Drops all messages; that the disk has none is saved. After a fault all are there still. Requires that
    /// nothing is drawn.
    pub fn empty<F: Folder>(&mut self, folder: &mut F) -> Emptied
        requires { self.old.lent ≡ Nothing }
        ensures nothing_now { self.new.lent ≡ Nothing }
        ensures queue { SameQueue self.old.queue self.new.queue }
        ensures seen { EmptySeen self.old self.new result }
        ensures list { IsTrue F.tells_files → (disk : List Message) → OnDisk self.old.queue (F.files folder.old) disk → OnDisk self.new.queue (F.files folder.new) (disk_emptied disk result) }
        ensures found { IsTrue F.tells_files → EmptyFinds self.old.queue (F.files folder.new) result }
        ensures stands { IsTrue F.tells_files → Stands self.old.queue (F.files folder.old) → Stands self.new.queue (F.files folder.new) }
        ensures others { IsTrue F.tells_files → DiskChanges self.old.queue (F.files folder.old) (F.files folder.new) }
        ensures faults { F.folder_faults folder.old ≤ F.folder_faults folder.new }
        ensures cause { EmptyFails (F.folder_faults folder.old) (F.folder_faults folder.new) self.new.queue result }
        ensures exact { IsTrue F.counts_exactly → EmptyCounts (F.folder_faults folder.old) (F.folder_faults folder.new) self.new.queue result }
    {
        if let Some(queue) = &mut self.queue {
            match queue.empty(folder) {
                Emptied::Done => {}
                Emptied::Fault => return Emptied::Fault,
            }
        }
        self.ring.clear();
        Emptied::Done
    }

    /// Drops all messages and removes the queue's files, as `Queue::delete`: where a removal fails files may stay, and an opening finds
    /// nothing in them. Requires that nothing is drawn.
    pub fn delete<F: Folder>(self, folder: &mut F) -> Gone
        requires { self.lent ≡ Nothing }
        ensures seen { DeleteSeen self result }
        ensures list { IsTrue F.tells_files → (disk : List Message) → OnDisk self.queue (F.files folder.old) disk → DeleteLists (F.files folder.new) disk result }
        ensures found { IsTrue F.tells_files → DeleteFinds self.queue (F.files folder.new) result }
        ensures gone { IsTrue F.tells_files → Stands self.queue (F.files folder.old) → DeleteGone self.queue (F.files folder.new) (F.folder_faults folder.old) (F.folder_faults folder.new) result }
        ensures stands { IsTrue F.tells_files → Stands self.queue (F.files folder.old) → DeleteStands (F.files folder.new) result }
        ensures others { IsTrue F.tells_files → DiskChanges self.queue (F.files folder.old) (F.files folder.new) }
        ensures faults { F.folder_faults folder.old ≤ F.folder_faults folder.new }
        ensures cause { DeleteFails (F.folder_faults folder.old) (F.folder_faults folder.new) result }
        ensures exact { IsTrue F.counts_exactly → DeleteCounts (F.folder_faults folder.old) (F.folder_faults folder.new) result }
    {
        let Backlog {
            alloc,
            ring,
            queue,
            lent,
        } = self;
        let Some(queue) = queue else {
            return Gone::Done;
        };
        match queue.delete(folder) {
            Deleted::Done => Gone::Done,
            Deleted::Fault(queue) => Gone::Fault(Backlog {
                alloc,
                ring,
                queue: Some(queue),
                lent,
            }),
        }
    }
}

// Moves the ring's messages behind the queue's list, from the first on. It ends at the first that the folder refuses.
fn write_ring<F: Folder>(
    ring: &mut HeapCircularBuffer<Message>,
    queue: &mut Queue,
    folder: &mut F,
    scratch: &mut [u8],
) -> Did
    requires options { ForMessages queue.old.options }
    requires none { queue.old.staged.count ≡ 0 }
    requires short { All FitsLimit ring.old.items }
    requires scratch { 16777242 ≤ length scratch.old }
    ensures within { length ring.new.items ≤ length ring.old.items }
    ensures ring { ring.new ≡ buffer (drop (length ring.old.items - length ring.new.items) ring.old.items) ring.old.capacity }
    ensures all { WritesAll ring.new.items result }
    ensures queue { Lengthens queue.old queue.new (length ring.old.items - length ring.new.items) }
    ensures none_now { queue.new.staged.count ≡ 0 }
    ensures list { IsTrue F.tells_files → (disk : List Message) → HoldsAll queue.old (F.files folder.old) disk → HoldsAll queue.new (F.files folder.new) (disk ++ map stored (take (length ring.old.items - length ring.new.items) ring.old.items)) }
    ensures stands { IsTrue F.tells_files → SaveStands queue.old (F.files folder.old) → SaveStands queue.new (F.files folder.new) }
    ensures others { IsTrue F.tells_files → OwnChange queue.old.name (F.files folder.old) (F.files folder.new) }
    ensures faults { F.folder_faults folder.old ≤ F.folder_faults folder.new }
    ensures cause { DidFails (F.folder_faults folder.old) (F.folder_faults folder.new) result }
{
    for _ in 0..ring.len() {
        let Some(message) = ring.front() else {
            break;
        };
        let size = write_record(message, scratch);
        match queue.put(folder, &scratch[..size]) {
            Put::Stored(_) => {}
            Put::Fault | Put::TooLong(_) => return Did::Failed,
        }
        let _written = ring.pop_front();
    }
    Did::Done
}
