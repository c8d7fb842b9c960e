ghost use Rattle.std.specs.Prelude.{◌≡◌, ◌<◌, ◌≤◌, ◌^◌, HoldsAt, IfOk, IsSome, IsTrue, OnErr, OnOk, Some, false, length, ℕ, true};
ghost use Rattle.nsq_outside.specs.Files.{Files};
ghost use Rattle.backlog.specs.Seen.{FitsLimit};
ghost use Rattle.broker_history.specs.Reply.{message_frame};
ghost use Rattle.broker_history.specs.declared.entry.Act.TheVariants as acts;
ghost use Rattle.channel_core.specs.declared.answers.Next.TheVariants as next;
ghost use Rattle.broker_history.specs.declared.call.Call.TheVariants as calls;
ghost use Rattle.floor_rooms.specs.ClientPlaces.{AreInOrder};
ghost use Rattle.floor_rooms.specs.Changes.{OnlyQueueFiles};
ghost use Rattle.floor_rooms.specs.Rooms.{client_in};
ghost use Rattle.floor_rooms.specs.Sound.{IsSound};
ghost use Rattle.floor_rooms.specs.declared.hall.Hall.{Hall as Holding};
ghost use Rattle.floor_acts.specs.Replies.{IsShortFrame};
ghost use Rattle.floor_moves.specs.Moves.{sight};
ghost use Rattle.floor_acts.specs.Sending.{HasDrawn, IsToSend};
ghost use Rattle.floor_turns.specs.Acting.{Acts};
ghost use Rattle.floor_turns.specs.Drawing.{IsServedAt, entry_of, sent_of};

use broker_history::{Act, Entry, Turned};
use floor_acts::{message_frame, settle_sent, undo_sent};
use floor_moves::Place;
use floor_rooms::{Hall, place_of};
use nsq_base::{Memory, Steps};
use nsq_outside::{End, Folder, Journal};
use std::alloc::Global;
use std::sync::ledger::Ledger;
use v2_frame::{Frame, Message};

/// Sends the message that was drawn of the channel at this place to the client of this number, and notes that: all that wants memory comes first, and
/// without it the message is put back. Requires the place of that drawing.
pub(crate) fn send<F: Folder, J: Journal<Entry>, L: Ledger>(
    hall: &mut Hall,
    number: u64,
    place: Place,
    message: Message,
    folder: &mut F,
    journal: &mut J,
    steps: &mut Steps<L>,
) -> Turned
    requires order { AreInOrder hall.old.clients.items }
    requires client { IsSome (client_in hall.old.clients.items number) }
    requires room { place.room < length hall.old.rooms.items }
    requires stall { HoldsAt (λ r. place.stall < length r.stalls.items) hall.old.rooms.items place.room }
    requires drawn { HoldsAt (λ r. HoldsAt (IsToSend hall.old.moment number message) r.stalls.items place.stall) hall.old.rooms.items place.room }
    requires short { FitsLimit message }
    requires moment { hall.old.moment ≤ 2 ^ 62 }
    requires calm { J.is_aside journal.old ≡ false }
    ensures acts { (before : Holding) (old : Files) (faults : ℕ) → HasDrawn F.tells_files place.room place.stall number (next.Send message) old (F.files folder.old) faults (F.folder_faults folder.old) before hall.old → IsSound before → before.stopped ≡ false → IsServedAt before number place → Acts J.tells_notes F.tells_files number calls.Next result (sight before (J.notes journal.old) old faults) (sight hall.new (J.notes journal.new) (F.files folder.new) (F.folder_faults folder.new)) }
    ensures sound { (before : Holding) (old : Files) (faults : ℕ) → HasDrawn F.tells_files place.room place.stall number (next.Send message) old (F.files folder.old) faults (F.folder_faults folder.old) before hall.old → IsSound hall.new }
    ensures files { (before : Holding) (old : Files) (faults : ℕ) → HasDrawn F.tells_files place.room place.stall number (next.Send message) old (F.files folder.old) faults (F.folder_faults folder.old) before hall.old → IsTrue F.tells_files → OnlyQueueFiles (F.files folder.old) (F.files folder.new) }
    ensures calm { J.is_aside journal.new ≡ false }
{
    let Ok(k) = place_of(&hall.clients, number) else {
        unreachable!()
    };
    let (message, ready) = announce_sent(journal, hall.alloc, number, hall.moment, message);
    let Ok(frame) = ready else {
        undo_sent(hall, place.room, place.stall, message);
        return Turned::Memory;
    };
    settle_sent(hall, k, place.room, place.stall, message, folder, steps);
    journal.note(End::Done);
    Turned::Send(frame)
}

// Makes the frame of a message that is to be sent to the client of this number, and keeps the entry aside, into which the message goes and from which
// it comes back. Want of memory is the only error.
fn announce_sent<J: Journal<Entry>>(
    journal: &mut J,
    alloc: Global,
    number: u64,
    at: u64,
    message: Message,
) -> (Message, Result<Frame, Memory>)
    requires short { FitsLimit message }
    requires calm { J.is_aside journal.old ≡ false }
    ensures same { result.0 ≡ message }
    ensures frame { IfOk result.1 (λ frame. frame ≡ message_frame message) }
    ensures short { IfOk result.1 IsShortFrame }
    ensures aside { OnOk result.1 (J.is_aside journal.new ≡ true) }
    ensures kept { OnOk result.1 (IsTrue J.tells_notes → J.kept journal.new ≡ Some (entry_of number at (acts.Sent message))) }
    ensures err { OnErr result.1 (J.is_aside journal.new ≡ false) }
    ensures notes { IsTrue J.tells_notes → J.notes journal.new ≡ J.notes journal.old }
{
    let Ok(frame) = message_frame(alloc, &message) else {
        return (message, Err(Memory));
    };
    let (act, ready) = lend(journal, number, at, Act::Sent(message));
    let message = message_of(act);
    let Ok(()) = ready else {
        return (message, Err(Memory));
    };
    (message, Ok(frame))
}

/// Keeps the entry of an act of the client of this number aside, and gives the act back: `note` appends the entry then. Want of memory is the only error.
pub(crate) fn lend<J: Journal<Entry>>(
    journal: &mut J,
    number: u64,
    at: u64,
    act: Act,
) -> (Act, Result<(), Memory>)
    requires { J.is_aside journal.old ≡ false }
    ensures same { result.0 ≡ act }
    ensures aside { OnOk result.1 (J.is_aside journal.new ≡ true) }
    ensures kept { OnOk result.1 (IsTrue J.tells_notes → J.kept journal.new ≡ Some (entry_of number at act)) }
    ensures err { OnErr result.1 (J.is_aside journal.new ≡ false) }
    ensures notes { IsTrue J.tells_notes → J.notes journal.new ≡ J.notes journal.old }
{
    let entry = Entry {
        conn: number,
        at,
        act,
    };
    let ready = journal.ready(&entry);
    let Entry {
        conn: _,
        at: _,
        act,
    } = entry;
    (act, ready)
}

// The message of the act.
fn message_of(act: Act) -> Message
    requires { IsSome (sent_of act) }
    ensures { sent_of act ≡ Some result }
{
    let Act::Sent(message) = act else {
        unreachable!()
    };
    message
}
