ghost use Rattle.std.specs.Prelude.{◌≡◌, ◌<◌, ◌≤◌, HoldsAt, IsTrue, List, length, ℕ};
ghost use Rattle.nsq_outside.specs.Causes.{Rose};
ghost use Rattle.backlog.specs.Seen.{FitsLimit};
ghost use Rattle.floor_rooms.specs.Changes.{AtRoom, AtStall, OnlyQueueFiles};
ghost use Rattle.floor_rooms.specs.Sound.{IsSound};
ghost use Rattle.floor_moves.specs.Moves.{Keeps};
ghost use Rattle.floor_moves.specs.Copying.{bounded, made_of, GiveFails, Gives, IsNamedAt, KeepsQueue, OffersStall};

use crate::{Made, Place};
use channel_core::Offer;
use floor_rooms::Hall;
use nsq_base::Steps;
use nsq_outside::Folder;
use std::sync::ledger::Ledger;
use v2_frame::Message;

/// The longest delay that any options allow, in nanoseconds: 8760 hours.
const LONGEST_DELAY: u64 = 31_536_000_000_000_000;

/// The channel at this place gets a copy of the message, deferred where that has a delay: by no more than any options allow. After Stuck, which is a
/// disk fault, and after want of memory the channel is as it was.
pub(crate) fn give<F: Folder, L: Ledger>(
    hall: &mut Hall,
    place: Place,
    folder: &mut F,
    scratch: &mut [u8],
    message: Message,
    steps: &mut Steps<L>,
) -> Made
    requires sound { IsSound hall.old }
    requires room { place.room < length hall.old.rooms.items }
    requires stall { HoldsAt (λ r. place.stall < length r.stalls.items) hall.old.rooms.items place.room }
    requires short { FitsLimit message }
    requires scratch { 16777242 ≤ length scratch.old }
    ensures gives { (topic channel : List ℕ) → IsNamedAt hall.old.rooms.items place topic channel → IsTrue F.tells_files → Gives hall.old.moment topic channel (bounded message) hall.old (F.files folder.old) hall.new (F.files folder.new) result }
    ensures sound { IsSound hall.new }
    ensures room { AtRoom place.room KeepsQueue hall.old.rooms.items hall.new.rooms.items }
    ensures keeps { Keeps hall.old hall.new }
    ensures files { IsTrue F.tells_files → OnlyQueueFiles (F.files folder.old) (F.files folder.new) }
    ensures faults { F.folder_faults folder.old ≤ F.folder_faults folder.new }
    ensures cause { GiveFails (F.folder_faults folder.old) (F.folder_faults folder.new) result }
{
    hall.mark_stall(place.room, place.stall);
    let made = offer(hall, place, folder, scratch, message, steps);
    hall.settle_stall(place.room, place.stall);
    made
}

// One call of the channel's.
fn offer<F: Folder, L: Ledger>(
    hall: &mut Hall,
    place: Place,
    folder: &mut F,
    scratch: &mut [u8],
    message: Message,
    steps: &mut Steps<L>,
) -> Made
    requires sound { IsSound hall.old }
    requires room { place.room < length hall.old.rooms.items }
    requires stall { HoldsAt (λ r. place.stall < length r.stalls.items) hall.old.rooms.items place.room }
    requires short { FitsLimit message }
    requires scratch { 16777242 ≤ length scratch.old }
    ensures rest { hall.new ≡ record hall.old { rooms = hall.new.rooms } }
    ensures stall { AtStall place.room place.stall (OffersStall F.tells_files hall.old.moment (bounded message) result (F.files folder.old) (F.files folder.new) (F.folder_faults folder.old) (F.folder_faults folder.new)) hall.old.rooms.items hall.new.rooms.items }
{
    let now = hall.moment;
    let message = bound(message);
    let offered = hall.rooms[place.room].stalls[place.stall]
        .channel
        .offer(folder, scratch, message, now, steps);
    made_of(offered)
}

// The message with no longer a delay than any options allow.
fn bound(message: Message) -> Message
    ensures { result ≡ bounded message }
{
    let delay = message.delay.min(LONGEST_DELAY);
    Message { delay, ..message }
}

// How it ended.
fn made_of(offered: Offer) -> Made
    ensures { result ≡ made_of offered }
{
    match offered {
        Offer::Done => Made::Done,
        Offer::Fault(_) => Made::Stuck,
        Offer::Memory(_) => Made::Memory,
    }
}
