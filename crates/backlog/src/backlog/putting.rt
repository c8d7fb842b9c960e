ghost use Rattle.std.specs.Prelude.{◌≡◌, ◌≤◌, ◌+◌, ◌++◌, List, [], All, length, IsTrue};
ghost use Rattle.circular_buffer.specs.Buffer.{buffer};
ghost use Rattle.nsq_outside.specs.Causes.{DidFails};
ghost use Rattle.nsq_outside.specs.Files.{SameFiles};
ghost use Rattle.disk_queue.specs.Holding.{SaveStands, OwnChange};
ghost use Rattle.v2_frame.specs.declared.message.Message.{Message};
ghost use Rattle.backlog.specs.declared.backlog.Lent.TheVariants.{Nothing};
ghost use Rattle.backlog.specs.Seen.{FitsLimit, room, PutWhere, PutSeen, PutAllSeen, PutAllTakes, SameQueue, ForMessages, SpillSeen};
ghost use Rattle.backlog.specs.Lists.{OnDisk, Stands, DiskChanges, PutChanges, HoldsAll, disk_after, disk_after_all, disk_spilled};
ghost use Rattle.backlog.specs.Answers.{PutFails, PutCounts, PutAllFails};

use super::Backlog;
use crate::writing::write_record;
use crate::{PutAll, PutOne};
use circular_buffer::HeapCircularBuffer;
use disk_queue::{Put, Queue, Stage};
use nsq_outside::{Did, Folder};
use v2_frame::Message;

/// Putting.
impl Backlog {
    /// Puts a message in: at the ring's end, where it isn't full; else on disk, where the message loses its delay. Where there is no
    /// disk it is dropped. It is written by way of `scratch`. Requires that nothing is drawn, a body of at most 16,777,216 bytes, and
    /// 16,777,242 bytes of `scratch`.
    pub fn put<F: Folder>(&mut self, folder: &mut F, scratch: &mut [u8], message: Message) -> PutOne
        requires nothing { self.old.lent ≡ Nothing }
        requires short { FitsLimit message }
        requires scratch { 16777242 ≤ length scratch.old }
        ensures nothing_now { self.new.lent ≡ Nothing }
        ensures queue { SameQueue self.old.queue self.new.queue }
        ensures place { PutWhere self.old result }
        ensures seen { PutSeen self.old self.new message result }
        ensures list { IsTrue F.tells_files → (disk : List Message) → OnDisk self.old.queue (F.files folder.old) disk → OnDisk self.new.queue (F.files folder.new) (disk_after disk message result) }
        ensures stands { IsTrue F.tells_files → Stands self.old.queue (F.files folder.old) → Stands self.new.queue (F.files folder.new) }
        ensures others { IsTrue F.tells_files → PutChanges self.old.queue (F.files folder.old) (F.files folder.new) result }
        ensures faults { F.folder_faults folder.old ≤ F.folder_faults folder.new }
        ensures cause { PutFails (F.folder_faults folder.old) (F.folder_faults folder.new) result }
        ensures exact { IsTrue F.counts_exactly → PutCounts (F.folder_faults folder.old) (F.folder_faults folder.new) result }
    {
        let message = match self.ring.try_push_back(message) {
            Ok(()) => return PutOne::Kept,
            Err(message) => message,
        };
        let Some(queue) = &mut self.queue else {
            return PutOne::Dropped;
        };
        let size = write_record(&message, scratch);
        match queue.put(folder, &scratch[..size]) {
            Put::Stored(_) => PutOne::Spilled,
            Put::Fault | Put::TooLong(_) => PutOne::Fault(message),
        }
    }

    /// Puts all these messages in, in their order, as `put` does, or none: the ring takes the first, as far as it has room, and the others
    /// go to disk, or are dropped where there is none. After Done `messages` is empty, after Fault as it was. They are written by way of
    /// `scratch`. Requires that nothing is drawn, bodies of at most 16,777,216 bytes, and 16,777,242 bytes of `scratch`.
    pub fn put_all<F: Folder>(
        &mut self,
        folder: &mut F,
        scratch: &mut [u8],
        messages: &mut Vec<Message>,
    ) -> PutAll
        requires nothing { self.old.lent ≡ Nothing }
        requires short { All FitsLimit messages.old.items }
        requires scratch { 16777242 ≤ length scratch.old }
        ensures nothing_now { self.new.lent ≡ Nothing }
        ensures queue { SameQueue self.old.queue self.new.queue }
        ensures seen { PutAllSeen self.old self.new messages.old.items result }
        ensures taken { PutAllTakes messages.old.items messages.new.items result }
        ensures list { IsTrue F.tells_files → (disk : List Message) → OnDisk self.old.queue (F.files folder.old) disk → OnDisk self.new.queue (F.files folder.new) (disk_after_all self.old disk messages.old.items result) }
        ensures stands { IsTrue F.tells_files → Stands self.old.queue (F.files folder.old) → Stands self.new.queue (F.files folder.new) }
        ensures others { IsTrue F.tells_files → DiskChanges self.old.queue (F.files folder.old) (F.files folder.new) }
        ensures kept { IsTrue F.tells_files → length messages.old.items ≤ room self.old → SameFiles (F.files folder.old) (F.files folder.new) }
        ensures faults { F.folder_faults folder.old ≤ F.folder_faults folder.new }
        ensures cause { PutAllFails (F.folder_faults folder.old) (F.folder_faults folder.new) result }
    {
        let room = self.ring.capacity() - self.ring.len();
        if room < messages.len() {
            if let Some(queue) = &mut self.queue {
                match spill(queue, folder, scratch, &messages[room..]) {
                    Did::Done => {}
                    Did::Failed => return PutAll::Fault,
                }
            }
            messages.truncate(room);
        }
        keep(&mut self.ring, messages);
        PutAll::Done
    }
}

// Writes the messages behind the queue's list, in their order, or none of them.
fn spill<F: Folder>(
    queue: &mut Queue,
    folder: &mut F,
    scratch: &mut [u8],
    messages: &[Message],
) -> Did
    requires options { ForMessages queue.old.options }
    requires none { queue.old.staged.count ≡ 0 }
    requires short { All FitsLimit messages.now }
    requires scratch { 16777242 ≤ length scratch.old }
    ensures seen { SpillSeen queue.old queue.new messages.now result }
    ensures none_now { queue.new.staged.count ≡ 0 }
    ensures list { IsTrue F.tells_files → (disk : List Message) → HoldsAll queue.old (F.files folder.old) disk → HoldsAll queue.new (F.files folder.new) (disk_spilled disk messages.now result) }
    ensures stands { IsTrue F.tells_files → SaveStands queue.old (F.files folder.old) → SaveStands queue.new (F.files folder.new) }
    ensures others { IsTrue F.tells_files → OwnChange queue.old.name (F.files folder.old) (F.files folder.new) }
    ensures faults { F.folder_faults folder.old ≤ F.folder_faults folder.new }
    ensures cause { DidFails (F.folder_faults folder.old) (F.folder_faults folder.new) result }
{
    for message in messages {
        let size = write_record(message, scratch);
        match queue.stage(folder, &scratch[..size]) {
            Stage::Staged => {}
            Stage::Fault | Stage::TooLong(_) => {
                queue.forget();
                return Did::Failed;
            }
        }
    }
    // A save that fails was counted, and is made again later.
    let _sync = queue.commit(folder);
    Did::Done
}

// Moves the messages into the ring, in their order. It has room for all.
fn keep(ring: &mut HeapCircularBuffer<Message>, messages: &mut Vec<Message>)
    requires { length ring.old.items + length messages.old.items ≤ ring.old.capacity }
    ensures kept { ring.new ≡ buffer (ring.old.items ++ messages.old.items) ring.old.capacity }
    ensures taken { messages.new.items ≡ [] }
{
    messages.reverse();
    for _ in 0..messages.len() {
        if let Some(message) = messages.pop() {
            ring.push_back(message);
        }
    }
}
