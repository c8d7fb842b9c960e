ghost use Rattle.std.specs.Prelude.{◌≡◌, All, IfOk, IfSome, IsSome, IsTrue, OnErr, OnOk, Some, false, true};
ghost use Rattle.nsq_base.specs.Names.{IsAscendingBy};
ghost use Rattle.backlog.specs.Seen.{FitsLimit};
ghost use Rattle.broker_history.specs.declared.entry.Act.TheVariants as acts;
ghost use Rattle.topic_core.specs.Seen.{owed_of};
ghost use Rattle.floor_rooms.specs.Rooms.{channel_name, stall_in};
ghost use Rattle.floor_moves.specs.Moves.{entry_at};
ghost use Rattle.floor_moves.specs.Copying.{copied_of, IsOwedFirst, OwesNext};

use crate::Place;
use broker_history::{Act, Entry};
use floor_rooms::Room;
use nsq_base::{Chan, Memory, Topic};
use nsq_outside::Journal;
use std::alloc::Global;
use v2_frame::Message;

/// A channel that is owed a copy of the message that its topic took.
#[derive(Clone, Copy)]
pub struct Owed {
    /// The topic's name.
    pub topic: Topic,
    /// The channel's name.
    pub channel: Chan,
    /// The channel's place in the topic.
    pub stall: usize,
}

impl Owed {
    /// The place of the channel in a hall, whose topic stands at this place there.
    pub(crate) fn place(&self, room: usize) -> Place
        ensures { result ≡ record { room = room; stall = self.now.stall } }
    {
        Place {
            room,
            stall: self.stall,
        }
    }

    /// The channel's name.
    pub(crate) fn channel(&self) -> Chan
        ensures { result ≡ self.now.channel }
    {
        self.channel
    }
}

/// The first channel that is owed a copy of what the topic took.
pub(crate) fn first_owed(room: &Room) -> Owed
    requires order { IsAscendingBy channel_name room.now.stalls.items }
    requires owed { All (λ name. IsSome (stall_in room.now.stalls.items name)) (owed_of room.now.queue.head) }
    requires head { OwesNext room.now }
    ensures { IsOwedFirst room.now result }
{
    let channel = room.queue.owed()[0];
    let Some(stall) = room.stall_place(channel) else {
        unreachable!()
    };
    Owed {
        topic: room.name(),
        channel,
        stall,
    }
}

/// Keeps the entry aside of a channel that gets its copy of what the topic took: the copy goes into it, and comes back. Want of memory is the only
/// error.
pub(crate) fn announce_copy<J: Journal<Entry>>(
    room: &Room,
    alloc: Global,
    at: u64,
    owed: Owed,
    journal: &mut J,
) -> Result<Message, Memory>
    requires head { OwesNext room.now }
    requires calm { J.is_aside journal.old ≡ false }
    ensures same { IfOk result (λ m. IfSome room.now.queue.head (λ head. m ≡ head.message)) }
    ensures short { IfOk result FitsLimit }
    ensures aside { OnOk result (J.is_aside journal.new ≡ true) }
    ensures kept { IfOk result (λ m. IsTrue J.tells_notes → J.kept journal.new ≡ Some (entry_at at (acts.Copied owed.topic owed.channel m))) }
    ensures err { OnErr result (J.is_aside journal.new ≡ false) }
    ensures notes { IsTrue J.tells_notes → J.notes journal.new ≡ J.notes journal.old }
{
    let message = copy_head(room, alloc)?;
    let act = Act::Copied(owed.topic, owed.channel, message);
    let entry = Entry { conn: 0, at, act };
    let ready = journal.ready(&entry);
    let message = message_of(entry);
    ready?;
    Ok(message)
}

// A copy of the message that the topic took.
fn copy_head(room: &Room, alloc: Global) -> Result<Message, Memory>
    requires { OwesNext room.now }
    ensures same { IfOk result (λ m. IfSome room.now.queue.head (λ head. m ≡ head.message)) }
    ensures short { IfOk result FitsLimit }
{
    let Some(message) = room.queue.head() else {
        unreachable!()
    };
    message.copy(alloc)
}

// The message of the move.
fn message_of(entry: Entry) -> Message
    requires { IsSome (copied_of entry.act) }
    ensures { copied_of entry.act ≡ Some result }
{
    let Entry {
        conn: _,
        at: _,
        act,
    } = entry;
    let Act::Copied(_, _, message) = act else {
        unreachable!()
    };
    message
}
