ghost use Rattle.std.specs.Prelude.{◌≡◌, ◌≤◌, All, length, IsTrue};
ghost use Rattle.nsq_outside.specs.Files.{SameFiles};
ghost use Rattle.backlog.specs.Seen.{FitsLimit, room, PutAllTakes, SameQueue};
ghost use Rattle.backlog.specs.Lists.{Stands, DiskChanges};
ghost use Rattle.backlog.specs.Answers.{PutAllFails};
ghost use Rattle.topic_core.specs.Seen.{IsSettled};
ghost use Rattle.topic_core.specs.Answers.{PutsAll};
ghost use Rattle.topic_core.specs.Rows.{Becomes, put_where};

use super::TopicQueue;
use backlog::PutAll;
use nsq_outside::Folder;
use v2_frame::Message;

/// Putting.
impl TopicQueue {
    /// Puts all these messages in, in their order, or none. What finds `mem_queue_size` messages in memory goes to disk, where it loses
    /// its delay; in an ephemeral topic it is dropped, and not counted. After Done `messages` is empty, after Fault all are in it, as they
    /// were. They are written by way of `scratch`. Requires that nothing is drawn, bodies of at most 16,777,216 bytes, and 16,777,242
    /// bytes of `scratch`.
    pub fn put_all<F: Folder>(
        &mut self,
        folder: &mut F,
        scratch: &mut [u8],
        messages: &mut Vec<Message>,
    ) -> PutAll
        requires settled { IsSettled self.old }
        requires short { All FitsLimit messages.old.items }
        requires scratch { 16777242 ≤ length scratch.old }
        ensures settled_now { IsSettled self.new }
        ensures queue { SameQueue self.old.backlog.queue self.new.backlog.queue }
        ensures seen { PutsAll self.old self.new messages.old.items result }
        ensures taken { PutAllTakes messages.old.items messages.new.items result }
        ensures row { IsTrue F.tells_files → Becomes self.old (F.files folder.old) self.new (F.files folder.new) (put_where self.old.backlog.capacity messages.old.items result) }
        ensures stands { IsTrue F.tells_files → Stands self.old.backlog.queue (F.files folder.old) → Stands self.new.backlog.queue (F.files folder.new) }
        ensures others { IsTrue F.tells_files → DiskChanges self.old.backlog.queue (F.files folder.old) (F.files folder.new) }
        ensures kept { IsTrue F.tells_files → length messages.old.items ≤ room self.old.backlog → SameFiles (F.files folder.old) (F.files folder.new) }
        ensures faults { F.folder_faults folder.old ≤ F.folder_faults folder.new }
        ensures cause { PutAllFails (F.folder_faults folder.old) (F.folder_faults folder.new) result }
    {
        let arriving = messages.len() as u64;
        let before = self.backlog.depths().ring;
        match self.backlog.put_all(folder, scratch, messages) {
            PutAll::Done => {
                let kept = if self.name.ephemeral() {
                    self.backlog.depths().ring - before
                } else {
                    arriving
                };
                self.message_count = self.message_count.saturating_add(kept);
                PutAll::Done
            }
            PutAll::Fault => PutAll::Fault,
        }
    }
}
