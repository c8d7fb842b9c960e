ghost use Rattle.std.specs.Prelude.{◌≡◌, ◌≤◌, List, [], length, true, IsTrue, IsSome};
ghost use Rattle.nsq_base.specs.Name.{is_ephemeral};
ghost use Rattle.backlog.specs.QueueAnswers.{SyncFails, SyncCounts};
ghost use Rattle.v2_frame.specs.declared.message.Message.{Message};
ghost use Rattle.backlog.specs.Seen.{SyncSeen, EmptySeen, SameQueue};
ghost use Rattle.backlog.specs.Lists.{OnDisk, Stands, DiskChanges, SyncFinds, EmptyFinds};
ghost use Rattle.backlog.specs.Answers.{FlushFails, EmptyFails, EmptyCounts};
ghost use Rattle.backlog.specs.Deleting.{DeleteStands, DeleteFinds, DeleteGone, DeleteFails, DeleteCounts};
ghost use Rattle.backlog.specs.declared.answers.Flushed.TheVariants.{Done as FlushDone};
ghost use Rattle.broker_history.specs.State.{Topic as StateTopic};
ghost use Rattle.topic_core.specs.Seen.{IsSettled};
ghost use Rattle.topic_core.specs.Answers.{FlushFindsAll, DurableFindsAll, FlushesTopic, FlushesHead};
ghost use Rattle.topic_core.specs.Rows.{IsTopicOf, Becomes, Stays, FlushLeaves, emptied_where};
ghost use Rattle.topic_core.specs.Deleting.{DropSeen, DropStays, backlog_gone};

use super::TopicQueue;
use crate::DropTopic;
use backlog::{Emptied, Flushed, Gone, PutOne, Sync};
use nsq_outside::Folder;

/// Saving and emptying.
impl TopicQueue {
    /// Drops all messages that wait; that the disk has none is saved. A taken head stays, and stays owed. After a fault all wait still.
    /// Requires that nothing is drawn.
    pub fn empty<F: Folder>(&mut self, folder: &mut F) -> Emptied
        requires { IsSettled self.old }
        ensures settled_now { IsSettled self.new }
        ensures queue { SameQueue self.old.backlog.queue self.new.backlog.queue }
        ensures seen { self.new ≡ record self.old { backlog = self.new.backlog } }
        ensures backlog { EmptySeen self.old.backlog self.new.backlog result }
        ensures row { IsTrue F.tells_files → Becomes self.old (F.files folder.old) self.new (F.files folder.new) (emptied_where result) }
        ensures found { IsTrue F.tells_files → EmptyFinds self.old.backlog.queue (F.files folder.new) result }
        ensures stands { IsTrue F.tells_files → Stands self.old.backlog.queue (F.files folder.old) → Stands self.new.backlog.queue (F.files folder.new) }
        ensures others { IsTrue F.tells_files → DiskChanges self.old.backlog.queue (F.files folder.old) (F.files folder.new) }
        ensures faults { F.folder_faults folder.old ≤ F.folder_faults folder.new }
        ensures cause { EmptyFails (F.folder_faults folder.old) (F.folder_faults folder.new) self.new.backlog.queue result }
        ensures exact { IsTrue F.counts_exactly → EmptyCounts (F.folder_faults folder.old) (F.folder_faults folder.new) self.new.backlog.queue result }
    {
        self.backlog.empty(folder)
    }

    /// Saves what is on disk, as `Backlog::sync`. Requires that nothing is drawn.
    pub fn sync<F: Folder>(&mut self, folder: &mut F) -> Sync
        requires { IsSettled self.old }
        ensures settled_now { IsSettled self.new }
        ensures queue { SameQueue self.old.backlog.queue self.new.backlog.queue }
        ensures seen { self.new ≡ record self.old { backlog = record (self.old.backlog) { queue = self.new.backlog.queue } } }
        ensures backlog { SyncSeen self.old.backlog.queue self.new.backlog.queue result }
        ensures row { IsTrue F.tells_files → Stays self.old (F.files folder.old) self.new (F.files folder.new) }
        ensures found { IsTrue F.tells_files → (disk : List Message) → OnDisk self.old.backlog.queue (F.files folder.old) disk → Stands self.old.backlog.queue (F.files folder.old) → SyncFinds self.new.backlog.queue (F.files folder.new) disk result }
        ensures stands { IsTrue F.tells_files → Stands self.old.backlog.queue (F.files folder.old) → Stands self.new.backlog.queue (F.files folder.new) }
        ensures others { IsTrue F.tells_files → DiskChanges self.old.backlog.queue (F.files folder.old) (F.files folder.new) }
        ensures faults { F.folder_faults folder.old ≤ F.folder_faults folder.new }
        ensures cause { SyncFails (F.folder_faults folder.old) (F.folder_faults folder.new) result }
        ensures exact { IsTrue F.counts_exactly → SyncCounts (F.folder_faults folder.old) (F.folder_faults folder.new) result }
    {
        self.backlog.sync(folder)
    }

    /// Writes what a durable topic has in memory behind what is on disk, and saves: first the messages that wait, in their order, then a
    /// head that is owed, which is taken no more. Delays are not written. In an ephemeral topic nothing changes, and nothing fails. After a
    /// fault a part of them may be on disk. They are written by way of `scratch`. Requires that nothing is drawn, and 16,777,242
    /// bytes of `scratch`.
    pub fn flush<F: Folder>(&mut self, folder: &mut F, scratch: &mut [u8]) -> Flushed
        requires settled { IsSettled self.old }
        requires scratch { 16777242 ≤ length scratch.old }
        ensures settled_now { IsSettled self.new }
        ensures queue { SameQueue self.old.backlog.queue self.new.backlog.queue }
        ensures seen { FlushesTopic self.old self.new result }
        ensures ephemeral { is_ephemeral self.old.name ≡ true → (folder.new ≡ folder.old) × (result ≡ FlushDone) }
        ensures row { IsTrue F.tells_files → (t : StateTopic) → IsTopicOf self.old (F.files folder.old) t → Stands self.old.backlog.queue (F.files folder.old) → FlushLeaves (F.files folder.new) t result }
        ensures found { IsTrue F.tells_files → (disk : List Message) → OnDisk self.old.backlog.queue (F.files folder.old) disk → Stands self.old.backlog.queue (F.files folder.old) → DurableFindsAll self.old self.new (F.files folder.new) disk result }
        ensures stands { IsTrue F.tells_files → Stands self.old.backlog.queue (F.files folder.old) → Stands self.new.backlog.queue (F.files folder.new) }
        ensures others { IsTrue F.tells_files → DiskChanges self.old.backlog.queue (F.files folder.old) (F.files folder.new) }
        ensures faults { F.folder_faults folder.old ≤ F.folder_faults folder.new }
        ensures cause { FlushFails (F.folder_faults folder.old) (F.folder_faults folder.new) result }
    {
        if self.name.ephemeral() {
            return Flushed::Done;
        }
        match self.backlog.flush(folder, scratch) {
            Flushed::Done => {}
            Flushed::Fault => return Flushed::Fault,
        }
        if self.head.is_none() {
            return Flushed::Done;
        }
        self.flush_head(folder, scratch)
    }

    // Writes the head behind all others, none of which is in memory, and saves.
    fn flush_head<F: Folder>(&mut self, folder: &mut F, scratch: &mut [u8]) -> Flushed
        requires settled { IsSettled self.old }
        requires durable { IsSome self.old.backlog.queue }
        requires head { IsSome self.old.head }
        requires empty { self.old.backlog.ring ≡ [] }
        requires scratch { 16777242 ≤ length scratch.old }
        ensures settled_now { IsSettled self.new }
        ensures queue { SameQueue self.old.backlog.queue self.new.backlog.queue }
        ensures seen { FlushesHead self.old self.new result }
        ensures found { IsTrue F.tells_files → (disk : List Message) → OnDisk self.old.backlog.queue (F.files folder.old) disk → Stands self.old.backlog.queue (F.files folder.old) → FlushFindsAll self.old self.new (F.files folder.new) disk result }
        ensures stands { IsTrue F.tells_files → Stands self.old.backlog.queue (F.files folder.old) → Stands self.new.backlog.queue (F.files folder.new) }
        ensures others { IsTrue F.tells_files → DiskChanges self.old.backlog.queue (F.files folder.old) (F.files folder.new) }
        ensures faults { F.folder_faults folder.old ≤ F.folder_faults folder.new }
        ensures cause { FlushFails (F.folder_faults folder.old) (F.folder_faults folder.new) result }
    {
        let Some(head) = self.head.take() else {
            unreachable!()
        };
        match self.backlog.put(folder, scratch, head) {
            PutOne::Kept | PutOne::Spilled | PutOne::Dropped => {}
            PutOne::Fault(head) => {
                self.head = Some(head);
                return Flushed::Fault;
            }
        }
        self.owed.clear();
        self.backlog.flush(folder, scratch)
    }

    /// Drops all messages, and removes the files of the queue on disk, as `Backlog::delete`. A head is dropped too. Requires that nothing
    /// is drawn.
    pub fn delete<F: Folder>(self, folder: &mut F) -> DropTopic
        requires { IsSettled self }
        ensures seen { DropSeen self result }
        ensures row { IsTrue F.tells_files → DropStays self (F.files folder.old) (F.files folder.new) result }
        ensures found { IsTrue F.tells_files → DeleteFinds self.backlog.queue (F.files folder.new) (backlog_gone result) }
        ensures gone { IsTrue F.tells_files → Stands self.backlog.queue (F.files folder.old) → DeleteGone self.backlog.queue (F.files folder.new) (F.folder_faults folder.old) (F.folder_faults folder.new) (backlog_gone result) }
        ensures stands { IsTrue F.tells_files → Stands self.backlog.queue (F.files folder.old) → DeleteStands (F.files folder.new) (backlog_gone result) }
        ensures others { IsTrue F.tells_files → DiskChanges self.backlog.queue (F.files folder.old) (F.files folder.new) }
        ensures faults { F.folder_faults folder.old ≤ F.folder_faults folder.new }
        ensures cause { DeleteFails (F.folder_faults folder.old) (F.folder_faults folder.new) (backlog_gone result) }
        ensures exact { IsTrue F.counts_exactly → DeleteCounts (F.folder_faults folder.old) (F.folder_faults folder.new) (backlog_gone result) }
    {
        let TopicQueue {
            name,
            paused,
            message_count,
            backlog,
            head,
            owed,
        } = self;
        match backlog.delete(folder) {
            Gone::Done => DropTopic::Done,
            Gone::Fault(backlog) => DropTopic::Fault(TopicQueue {
                name,
                paused,
                message_count,
                backlog,
                head,
                owed,
            }),
        }
    }
}
