ghost use Rattle.std.specs.Prelude.{◌≡◌, ◌<◌, ◌≤◌, ◌^◌, HoldsAt, IsSome, IsTrue, false, length, min, ℕ, List};
ghost use Rattle.nsq_outside.specs.Files.{Files};
ghost use Rattle.v2_frame.specs.declared.command.Command.TheVariants.{Fin, Touch};
ghost use Rattle.broker_history.specs.State.{counted};
ghost use Rattle.broker_history.specs.Channels.{Finishes, MovesLive, Touches};
ghost use Rattle.broker_history.specs.Step.{spoke};
ghost use Rattle.channel_copies.specs.Clients.{client_of};
ghost use Rattle.channel_core.specs.Answers.{IsYours, RequeueFails};
ghost use Rattle.channel_core.specs.Drawing.{timeout_of};
ghost use Rattle.floor_rooms.specs.Changes.{AtStall, KeepsRooms, OnlyQueueFiles};
ghost use Rattle.floor_rooms.specs.Sound.{IsSound};
ghost use Rattle.floor_acts.specs.Acts.{ChangesAt, DoesAt, FliesAt, RequeuesAt, gave_back};
ghost use Rattle.floor_acts.specs.Flights.{FliesStall, GivesBackStall};

use crate::clients::speak;
use crate::spots::{Spot, spot_of};
use channel_core::Requeue;
use floor_rooms::Hall;
use nsq_base::{MsgId, Steps};
use nsq_outside::Folder;
use std::sync::ledger::Ledger;

/// The client at a place finishes the copy of this id that is in flight with it.
pub fn finish<L: Ledger>(hall: &mut Hall, k: usize, id: MsgId, steps: &mut Steps<L>)
    requires sound { IsSound hall.old }
    requires client { k < length hall.old.clients.items }
    requires flies { FliesAt k id hall.old }
    ensures rest { hall.new ≡ record hall.old { clients = hall.new.clients; rooms = hall.new.rooms; quiet_until = hall.new.quiet_until } }
    ensures clients { ChangesAt k (λ c. record (spoke hall.old.moment c) { finish_count = counted c.finish_count }) hall.old.clients.items hall.new.clients.items }
    ensures sound { IsSound hall.new }
    ensures told { (files : Files) → DoesAt k (Fin id) false hall.old files hall.new files }
    ensures keeps { KeepsRooms hall.old.moment hall.old.rooms.items hall.new.rooms.items }
{
    let number = hall.clients[k].number();
    let Some(spot) = spot_of(hall, k) else {
        unreachable!()
    };
    speak(hall, k);
    finish_at(hall, spot, number, id, steps);
    hall.settle_stall(spot.room, spot.stall);
    hall.clients[k].finish();
}

/// The client at a place asks for more time for the copy of this id that is in flight with it.
pub fn touch<L: Ledger>(hall: &mut Hall, k: usize, id: MsgId, steps: &mut Steps<L>)
    requires sound { IsSound hall.old }
    requires client { k < length hall.old.clients.items }
    requires flies { FliesAt k id hall.old }
    ensures rest { hall.new ≡ record hall.old { clients = hall.new.clients; rooms = hall.new.rooms; quiet_until = hall.new.quiet_until } }
    ensures clients { ChangesAt k (spoke hall.old.moment) hall.old.clients.items hall.new.clients.items }
    ensures sound { IsSound hall.new }
    ensures told { (files : Files) → DoesAt k (Touch id) false hall.old files hall.new files }
    ensures keeps { KeepsRooms hall.old.moment hall.old.rooms.items hall.new.rooms.items }
{
    let number = hall.clients[k].number();
    let Some(spot) = spot_of(hall, k) else {
        unreachable!()
    };
    speak(hall, k);
    touch_at(hall, spot, number, id, steps);
    hall.settle_stall(spot.room, spot.stall);
}

/// The client at a place gives the copy of this id back that is in flight with it: at once where the delay is 0, and else it is deferred from now on. A
/// disk fault leaves the copy with the client, and then the client only spoke. Requires a delay, in nanoseconds, that is at most the longest one of the
/// options, and 16,777,242 bytes of `scratch`.
pub fn requeue<F: Folder, L: Ledger>(
    hall: &mut Hall,
    k: usize,
    id: MsgId,
    delay: u64,
    folder: &mut F,
    scratch: &mut [u8],
    steps: &mut Steps<L>,
) -> Requeue
    requires sound { IsSound hall.old }
    requires client { k < length hall.old.clients.items }
    requires flies { FliesAt k id hall.old }
    requires delay { delay ≤ hall.old.options.max_req_timeout }
    requires scratch { 16777242 ≤ length scratch.old }
    ensures rest { hall.new ≡ record hall.old { clients = hall.new.clients; rooms = hall.new.rooms; quiet_until = hall.new.quiet_until; unsaved_from = min hall.old.unsaved_from hall.old.moment } }
    ensures clients { ChangesAt k (λ c. gave_back result (spoke hall.old.moment c)) hall.old.clients.items hall.new.clients.items }
    ensures sound { IsSound hall.new }
    ensures told { IsTrue F.tells_files → RequeuesAt k id delay hall.old (F.files folder.old) hall.new (F.files folder.new) result }
    ensures keeps { KeepsRooms hall.old.moment hall.old.rooms.items hall.new.rooms.items }
    ensures files { IsTrue F.tells_files → OnlyQueueFiles (F.files folder.old) (F.files folder.new) }
    ensures faults { F.folder_faults folder.old ≤ F.folder_faults folder.new }
    ensures cause { RequeueFails delay (F.folder_faults folder.old) (F.folder_faults folder.new) result }
{
    let number = hall.clients[k].number();
    let Some(spot) = spot_of(hall, k) else {
        unreachable!()
    };
    speak(hall, k);
    hall.mark_stall(spot.room, spot.stall);
    let answer = give_back_at(hall, spot, number, id, delay, folder, scratch, steps);
    hall.settle_stall(spot.room, spot.stall);
    match answer {
        Requeue::Done => {
            hall.clients[k].give_back();
            Requeue::Done
        }
        Requeue::Fault => Requeue::Fault,
    }
}

// The copy is finished.
fn finish_at<L: Ledger>(hall: &mut Hall, spot: Spot, number: u64, id: MsgId, steps: &mut Steps<L>)
    requires sound { IsSound hall.old }
    requires room { spot.room < length hall.old.rooms.items }
    requires stall { HoldsAt (λ r. spot.stall < length r.stalls.items) hall.old.rooms.items spot.room }
    requires yours { HoldsAt (λ r. HoldsAt (λ s. IsYours number id s.channel) r.stalls.items spot.stall) hall.old.rooms.items spot.room }
    ensures rest { hall.new ≡ record hall.old { rooms = hall.new.rooms } }
    ensures stall { AtStall spot.room spot.stall (FliesStall (λ a. Finishes MovesLive number id)) hall.old.rooms.items hall.new.rooms.items }
{
    hall.rooms[spot.room].stalls[spot.stall]
        .channel
        .finish(number, id, steps);
}

// The copy is due later.
fn touch_at<L: Ledger>(hall: &mut Hall, spot: Spot, number: u64, id: MsgId, steps: &mut Steps<L>)
    requires sound { IsSound hall.old }
    requires room { spot.room < length hall.old.rooms.items }
    requires stall { HoldsAt (λ r. spot.stall < length r.stalls.items) hall.old.rooms.items spot.room }
    requires client { HoldsAt (λ r. HoldsAt (λ s. IsSome (client_of s.channel.clients number)) r.stalls.items spot.stall) hall.old.rooms.items spot.room }
    requires yours { HoldsAt (λ r. HoldsAt (λ s. IsYours number id s.channel) r.stalls.items spot.stall) hall.old.rooms.items spot.room }
    ensures rest { hall.new ≡ record hall.old { rooms = hall.new.rooms } }
    ensures stall { AtStall spot.room spot.stall (FliesStall (λ a. Touches MovesLive number id hall.old.moment (timeout_of number a.channel) a.channel.about.max_msg_timeout)) hall.old.rooms.items hall.new.rooms.items }
{
    let now = hall.moment;
    hall.rooms[spot.room].stalls[spot.stall]
        .channel
        .touch(number, id, now, steps);
}

// The copy is given back.
fn give_back_at<F: Folder, L: Ledger>(
    hall: &mut Hall,
    spot: Spot,
    number: u64,
    id: MsgId,
    delay: u64,
    folder: &mut F,
    scratch: &mut [u8],
    steps: &mut Steps<L>,
) -> Requeue
    requires sound { IsSound hall.old }
    requires room { spot.room < length hall.old.rooms.items }
    requires stall { HoldsAt (λ r. spot.stall < length r.stalls.items) hall.old.rooms.items spot.room }
    requires yours { HoldsAt (λ r. HoldsAt (λ s. IsYours number id s.channel) r.stalls.items spot.stall) hall.old.rooms.items spot.room }
    requires delay { delay ≤ 2 ^ 62 }
    requires scratch { 16777242 ≤ length scratch.old }
    ensures rest { hall.new ≡ record hall.old { rooms = hall.new.rooms } }
    ensures stall { AtStall spot.room spot.stall (GivesBackStall F.tells_files number id hall.old.moment delay result (F.files folder.old) (F.files folder.new) (F.folder_faults folder.old) (F.folder_faults folder.new)) hall.old.rooms.items hall.new.rooms.items }
{
    let now = hall.moment;
    hall.rooms[spot.room].stalls[spot.stall]
        .channel
        .requeue(folder, scratch, number, id, delay, now, steps)
}
