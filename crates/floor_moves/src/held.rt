ghost use Rattle.std.specs.Prelude.{◌≡◌, ◌^◌, ◌<◌, ◌≤◌, HoldsAt, IsTrue, OnErr, OnOk, false, length};
ghost use Rattle.floor_rooms.specs.Changes.{AtStall, OnlyQueueFiles};
ghost use Rattle.channel_core.specs.Drawing.{IsHeld};
ghost use Rattle.floor_rooms.specs.Sound.{IsSound};
ghost use Rattle.floor_moves.specs.Due.{HasStallAt};
ghost use Rattle.floor_moves.specs.Holding.{HasHeld, IsActOf, IsDrawnFrom, IsHeldAt, SettlesHeld, UndoesHeld};
ghost use Rattle.floor_moves.specs.Moves.{sight, Keeps, Notes, NothingNoted, Sight};

use crate::Place;
use crate::noting::announce;
use broker_history::{Act, Entry};
use floor_rooms::Hall;
use nsq_base::{Memory, MsgId, Steps};
use nsq_outside::{End, Folder, Journal};
use std::sync::ledger::Ledger;

/// Holds the copy of this id back that came up in the channel at this place as `Channel::next` answered Held: it is deferred, and that is noted. Want of
/// memory puts it back. Requires that the channel was marked before that `next`.
pub fn hold_back<F: Folder, J: Journal<Entry>, L: Ledger>(
    hall: &mut Hall,
    place: Place,
    id: MsgId,
    folder: &mut F,
    journal: &mut J,
    steps: &mut Steps<L>,
) -> Result<(), Memory>
    requires held { HasStallAt place.room place.stall (HasHeld id hall.old.moment) hall.old.rooms.items }
    requires moment { hall.old.moment ≤ 2 ^ 62 }
    requires calm { J.is_aside journal.old ≡ false }
    ensures moves { (before : Sight) → IsDrawnFrom F.tells_files place id before (sight hall.old (J.notes journal.old) (F.files folder.old) (F.folder_faults folder.old)) → before.hall.stopped ≡ false → OnOk result (Notes J.tells_notes F.tells_files (IsHeldAt place id before.hall) before (sight hall.new (J.notes journal.new) (F.files folder.new) (F.folder_faults folder.new))) }
    ensures rests { (before : Sight) → IsDrawnFrom F.tells_files place id before (sight hall.old (J.notes journal.old) (F.files folder.old) (F.folder_faults folder.old)) → OnErr result (NothingNoted J.tells_notes F.tells_files before (sight hall.new (J.notes journal.new) (F.files folder.new) (F.folder_faults folder.new))) }
    ensures sound { (before : Sight) → IsDrawnFrom F.tells_files place id before (sight hall.old (J.notes journal.old) (F.files folder.old) (F.folder_faults folder.old)) → IsSound hall.new }
    ensures keeps { (before : Sight) → IsDrawnFrom F.tells_files place id before (sight hall.old (J.notes journal.old) (F.files folder.old) (F.folder_faults folder.old)) → Keeps before.hall hall.new }
    ensures files { (before : Sight) → IsDrawnFrom F.tells_files place id before (sight hall.old (J.notes journal.old) (F.files folder.old) (F.folder_faults folder.old)) → IsTrue F.tells_files → OnlyQueueFiles before.files (F.files folder.new) }
    ensures calm { J.is_aside journal.new ≡ false }
    ensures stays { Keeps hall.old hall.new }
{
    let Ok(()) = announce(journal, hall.moment, held_act(hall, place, id)) else {
        undo_held(hall, place);
        hall.settle_stall(place.room, place.stall);
        return Err(Memory);
    };
    settle_held(hall, place, folder, steps);
    hall.settle_stall(place.room, place.stall);
    journal.note(End::Done);
    Ok(())
}

// The move.
fn held_act(hall: &Hall, place: Place, id: MsgId) -> Act
    requires { HasStallAt place.room place.stall (HasHeld id hall.now.moment) hall.now.rooms.items }
    ensures { IsActOf place id hall.now.rooms.items result }
{
    let room = &hall.rooms[place.room];
    let channel = &room.stalls[place.stall].channel;
    Act::HeldBack(room.queue.name(), channel.name(), id)
}

// Defers the copy.
fn settle_held<F: Folder, L: Ledger>(
    hall: &mut Hall,
    place: Place,
    folder: &mut F,
    steps: &mut Steps<L>,
)
    requires room { place.room < length hall.old.rooms.items }
    requires stall { HoldsAt (λ r. place.stall < length r.stalls.items) hall.old.rooms.items place.room }
    requires held { HoldsAt (λ r. HoldsAt (λ s. IsHeld hall.old.moment s.channel.drawn) r.stalls.items place.stall) hall.old.rooms.items place.room }
    requires moment { hall.old.moment ≤ 2 ^ 62 }
    ensures rest { hall.new ≡ record hall.old { rooms = hall.new.rooms } }
    ensures stall { AtStall place.room place.stall (SettlesHeld F.tells_files hall.old.moment (F.files folder.old) (F.files folder.new) (F.folder_faults folder.old) (F.folder_faults folder.new)) hall.old.rooms.items hall.new.rooms.items }
{
    let now = hall.moment;
    hall.rooms[place.room].stalls[place.stall]
        .channel
        .settle_held(folder, now, steps);
}

// Puts the copy back.
fn undo_held(hall: &mut Hall, place: Place)
    requires room { place.room < length hall.old.rooms.items }
    requires stall { HoldsAt (λ r. place.stall < length r.stalls.items) hall.old.rooms.items place.room }
    requires held { HoldsAt (λ r. HoldsAt (λ s. IsHeld hall.old.moment s.channel.drawn) r.stalls.items place.stall) hall.old.rooms.items place.room }
    ensures rest { hall.new ≡ record hall.old { rooms = hall.new.rooms } }
    ensures stall { AtStall place.room place.stall UndoesHeld hall.old.rooms.items hall.new.rooms.items }
{
    hall.rooms[place.room].stalls[place.stall]
        .channel
        .undo_held();
}
