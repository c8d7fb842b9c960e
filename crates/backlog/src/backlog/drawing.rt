ghost use Rattle.std.specs.Prelude.{◌≡◌, ◌≢◌, ◌≤◌, ◌++◌, ◌∷◌, ℕ, List, [], length, IsTrue};
ghost use Rattle.nsq_outside.specs.Files.{SameFiles};
ghost use Rattle.v2_frame.specs.declared.message.Message.{Message};
ghost use Rattle.backlog.specs.declared.backlog.Lent.TheVariants.{Nothing, OfRing, OfDisk};
ghost use Rattle.backlog.specs.Seen.{FitsLimit, DrawSeen, DrawLends, DrawsShort, SettleSeen, undone, SameQueue};
ghost use Rattle.backlog.specs.Lists.{OnDisk, Stands, DiskChanges, DrawGives, SettlesFirst, list_with, disk_settled};
ghost use Rattle.backlog.specs.Answers.{DrawFails, DrawCounts};

use super::{Backlog, Lent};
use crate::Drawn;
use disk_queue::Peek;
use nsq_outside::Folder;
use v2_frame::{Message, Taken};

/// Drawing.
impl Backlog {
    /// Gives the first message: that of the ring itself, or one that is read from disk by way of `scratch`, which has no delay and takes
    /// memory. It stays the first of the list until `settle` takes it or `undo` puts it back; no call but `depths` may come before. Requires
    /// that nothing is drawn, and 16,777,242 bytes of `scratch`.
    pub fn draw<F: Folder>(&mut self, folder: &mut F, scratch: &mut [u8]) -> Drawn
        requires nothing { self.old.lent ≡ Nothing }
        requires scratch { 16777242 ≤ length scratch.old }
        ensures lent { DrawLends self.new.lent result }
        ensures queue { SameQueue self.old.queue self.new.queue }
        ensures seen { DrawSeen self.old self.new result }
        ensures short { DrawsShort result }
        ensures first { IsTrue F.tells_files → (disk : List Message) → OnDisk self.old.queue (F.files folder.old) disk → DrawGives self.old self.new disk result }
        ensures list { IsTrue F.tells_files → (disk : List Message) → OnDisk self.old.queue (F.files folder.old) disk → OnDisk self.new.queue (F.files folder.new) disk }
        ensures stands { IsTrue F.tells_files → Stands self.old.queue (F.files folder.old) → Stands self.new.queue (F.files folder.new) }
        ensures same { IsTrue F.tells_files → SameFiles (F.files folder.old) (F.files folder.new) }
        ensures faults { F.folder_faults folder.old ≤ F.folder_faults folder.new }
        ensures cause { DrawFails (F.folder_faults folder.old) (F.folder_faults folder.new) result }
        ensures exact { IsTrue F.counts_exactly → DrawCounts (F.folder_faults folder.old) (F.folder_faults folder.new) result }
    {
        if let Some(message) = self.ring.pop_front() {
            self.lent = Lent::OfRing;
            return Drawn::Got(message);
        }
        let Some(queue) = &mut self.queue else {
            return Drawn::Empty;
        };
        let size = match queue.peek(folder, scratch) {
            Peek::Got(size) => size,
            Peek::Empty => return Drawn::Empty,
            Peek::Fault => return Drawn::Fault,
            Peek::Damaged(_, _, _) => return Drawn::Damaged,
        };
        match Message::take(self.alloc, &scratch[..size]) {
            Taken::Whole(message) => {
                // What `bytes` promises: that an id has 16 bytes.
                let _ = message.id.bytes();
                self.lent = Lent::OfDisk;
                Drawn::Got(message)
            }
            Taken::Memory => Drawn::Memory,
            Taken::Short => unreachable!(),
        }
    }

    /// The message that was drawn goes. Where it was on disk, a save is made as in `Queue::commit`; one that fails has no answer and stays
    /// due. Requires that a message is drawn.
    pub fn settle<F: Folder>(&mut self, folder: &mut F)
        requires { self.old.lent ≢ Nothing }
        ensures nothing_now { self.new.lent ≡ Nothing }
        ensures queue { SameQueue self.old.queue self.new.queue }
        ensures seen { SettleSeen self.old.lent self.old self.new }
        ensures first { (disk : List Message) → SettlesFirst self.old self.new disk }
        ensures list { IsTrue F.tells_files → (disk : List Message) → OnDisk self.old.queue (F.files folder.old) disk → OnDisk self.new.queue (F.files folder.new) (disk_settled self.old.lent disk) }
        ensures stands { IsTrue F.tells_files → Stands self.old.queue (F.files folder.old) → Stands self.new.queue (F.files folder.new) }
        ensures others { IsTrue F.tells_files → DiskChanges self.old.queue (F.files folder.old) (F.files folder.new) }
        ensures of_ring { IsTrue F.tells_files → self.old.lent ≡ OfRing → SameFiles (F.files folder.old) (F.files folder.new) }
        ensures faults { F.folder_faults folder.old ≤ F.folder_faults folder.new }
    {
        if let Lent::OfDisk = self.lent {
            if let Some(queue) = &mut self.queue {
                let _sync = queue.advance(folder);
            }
        }
        self.lent = Lent::Nothing;
    }

    /// Puts the drawn message back. Where it left the ring, `message` is its first; where it is on disk, that stays the first and `message`
    /// is dropped. It should be the one that `draw` gave; required are only that one is drawn, and a body of at most 16,777,216 bytes.
    pub fn undo(&mut self, message: Message)
        requires drawn { self.old.lent ≢ Nothing }
        requires short { FitsLimit message }
        ensures nothing_now { self.new.lent ≡ Nothing }
        ensures queue { self.new.queue ≡ self.old.queue }
        ensures seen { self.new ≡ undone self.old message }
        ensures first { (disk : List Message) → self.new.ring ++ disk ≡ list_with self.old message disk }
    {
        if let Lent::OfRing = self.lent {
            self.ring.push_front(message);
        }
        self.lent = Lent::Nothing;
    }
}
