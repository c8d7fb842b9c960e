ghost use Rattle.std.specs.Prelude.{◌≡◌, ◌≢◌, ◌≤◌, [], List, true, length, IsTrue, IsSome, IfSome, Some, None, option_map};
ghost use Rattle.nsq_outside.specs.Files.{Files, SameFiles};
ghost use Rattle.backlog.specs.Seen.{SameQueue, SettleSeen, FitsLimit, undone};
ghost use Rattle.backlog.specs.Lists.{Stands, DiskChanges};
ghost use Rattle.backlog.specs.declared.backlog.Lent.TheVariants.{OfRing};
ghost use Rattle.broker_history.specs.State.{Topic as StateTopic};
ghost use Rattle.broker_history.specs.Topics.{owed_no_more, is_owed};
ghost use Rattle.topic_core.specs.Seen.{IsDrawn, IsSettled, with_message};
ghost use Rattle.topic_core.specs.Answers.{HeadSeen, HeadLends, HeadFails, HeadCounts};
ghost use Rattle.topic_core.specs.Rows.{IsTopicOf, Becomes, Stays, HeadGives, TakesHead, Took, MayTake, paid_in};

use super::TopicQueue;
use crate::Head;
use backlog::Drawn;
use nsq_base::Chan;
use nsq_outside::Folder;
use owed_channels::owe_to_all;
use v2_frame::Message;

/// Taking, and what is owed.
impl TopicQueue {
    /// Draws the first message that waits, as `Backlog::draw`: it becomes the head, owed to these channels, and still waits until
    /// `settle_head` takes it or `undo_head` puts it back. Room for the channels is made before anything moves, and no other call needs
    /// more. After another answer than Ready there is no head. Requires that there is none, at least one channel, and 16,777,242 bytes of
    /// `scratch`.
    pub fn take_head<F: Folder>(
        &mut self,
        folder: &mut F,
        scratch: &mut [u8],
        channels: &[Chan],
    ) -> Head
        requires none { self.old.head ≡ None }
        requires channels { channels.now ≢ [] }
        requires scratch { 16777242 ≤ length scratch.old }
        ensures drawn { HeadLends self.new result }
        ensures queue { SameQueue self.old.backlog.queue self.new.backlog.queue }
        ensures seen { HeadSeen self.old self.new channels.now result }
        ensures row { IsTrue F.tells_files → Stays self.old (F.files folder.old) self.new (F.files folder.new) }
        ensures gives { IsTrue F.tells_files → (t : StateTopic) → IsTopicOf self.old (F.files folder.old) t → HeadGives t result }
        ensures stands { IsTrue F.tells_files → Stands self.old.backlog.queue (F.files folder.old) → Stands self.new.backlog.queue (F.files folder.new) }
        ensures same { IsTrue F.tells_files → SameFiles (F.files folder.old) (F.files folder.new) }
        ensures faults { F.folder_faults folder.old ≤ F.folder_faults folder.new }
        ensures cause { HeadFails (F.folder_faults folder.old) (F.folder_faults folder.new) result }
        ensures exact { IsTrue F.counts_exactly → HeadCounts (F.folder_faults folder.old) (F.folder_faults folder.new) result }
    {
        if self.is_empty() {
            return Head::Empty;
        }
        let Ok(()) = self.owed.reserve(channels.len()) else {
            return Head::Memory;
        };
        match self.backlog.draw(folder, scratch) {
            Drawn::Got(message) => {
                owe_to_all(&mut self.owed, channels);
                self.head = Some(message);
                Head::Ready
            }
            Drawn::Empty => Head::Empty,
            Drawn::Fault => Head::Fault,
            Drawn::Damaged => Head::Damaged,
            Drawn::Memory => Head::Memory,
        }
    }

    /// Takes the head: it waits no more. A save that fails has no answer and stays due. Requires that it is drawn.
    pub fn settle_head<F: Folder>(&mut self, folder: &mut F)
        requires { IsDrawn self.old }
        ensures settled_now { IsSettled self.new }
        ensures queue { SameQueue self.old.backlog.queue self.new.backlog.queue }
        ensures seen { self.new ≡ record self.old { backlog = self.new.backlog } }
        ensures backlog { SettleSeen self.old.backlog.lent self.old.backlog self.new.backlog }
        ensures left { IsTrue F.tells_files → (t : StateTopic) → IsTopicOf self.old (F.files folder.old) t → IfSome self.old.head (λ head. TakesHead head self.new (F.files folder.new) t) }
        ensures row { IsTrue F.tells_files → (t : StateTopic) → IsTopicOf self.old (F.files folder.old) t → IfSome self.old.head (λ head. MayTake head t → Took head self.new (F.files folder.new) t) }
        ensures stands { IsTrue F.tells_files → Stands self.old.backlog.queue (F.files folder.old) → Stands self.new.backlog.queue (F.files folder.new) }
        ensures others { IsTrue F.tells_files → DiskChanges self.old.backlog.queue (F.files folder.old) (F.files folder.new) }
        ensures of_ring { IsTrue F.tells_files → self.old.backlog.lent ≡ OfRing → SameFiles (F.files folder.old) (F.files folder.new) }
        ensures faults { F.folder_faults folder.old ≤ F.folder_faults folder.new }
    {
        self.backlog.settle(folder);
    }

    /// Puts the head back: it waits as the first again, and nothing is owed. Requires that it is drawn.
    pub fn undo_head(&mut self)
        requires { IsDrawn self.old }
        ensures settled_now { IsSettled self.new }
        ensures queue { self.new.backlog.queue ≡ self.old.backlog.queue }
        ensures seen { IfSome self.old.head (λ head. self.new ≡ record self.old { backlog = undone self.old.backlog head.message; head = None }) }
        ensures row { (files : Files) → Stays self.old files self.new files }
    {
        let Some(message) = self.head.take() else {
            unreachable!()
        };
        self.owed.clear();
        self.backlog.undo(message);
    }

    /// Exchanges the head's message with this one, so that it can be lent without a copy of its body. Requires a head, and a body of at
    /// most 16,777,216 bytes.
    pub fn swap_head(&mut self, message: &mut Message)
        requires head { IsSome self.old.head }
        requires short { FitsLimit message.old }
        ensures out { option_map (λ head. head.message) self.old.head ≡ Some message.new }
        ensures into { self.new ≡ record self.old { head = with_message message.old self.old.head } }
        ensures short_now { FitsLimit message.new }
    {
        let Some(head) = &mut self.head else {
            unreachable!()
        };
        std::mem::swap(head, message);
    }

    /// The channel got its copy: it is owed none any more, and with the last owed channel the head goes. Requires that it is owed one,
    /// and that nothing is drawn.
    pub fn paid(&mut self, channel: Chan)
        requires settled { IsSettled self.old }
        requires owed { is_owed self.old.head channel ≡ true }
        ensures seen { self.new ≡ record self.old { head = owed_no_more self.old.head channel } }
        ensures row { (files : Files) → Becomes self.old files self.new files (paid_in channel) }
    {
        self.forget_channel(channel);
    }

    /// The channel is gone, and owed nothing: as `paid`, where it was owed a copy. Requires that nothing is drawn.
    pub fn forget_channel(&mut self, channel: Chan)
        requires { IsSettled self.old }
        ensures seen { self.new ≡ record self.old { head = owed_no_more self.old.head channel } }
        ensures row { (files : Files) → Becomes self.old files self.new files (paid_in channel) }
    {
        self.owed.retain(|owed| *owed != channel);
        if self.owed.is_empty() {
            let_go(&mut self.head);
        }
    }
}

// Drops the head.
fn let_go(head: &mut Option<Message>)
    ensures { head.new ≡ None }
{
    *head = None;
}
