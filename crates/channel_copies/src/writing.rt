ghost use Rattle.std.specs.Prelude.{◌≡◌, ◌∷◌, ◌≤◌, [], length, IsSome};
ghost use Rattle.backlog.specs.declared.backlog.Lent.TheVariants.{Nothing};
ghost use Rattle.backlog.specs.Seen.{FitsLimit};
ghost use Rattle.backlog.specs.Answers.{FlushFails};
ghost use Rattle.channel_copies.specs.Flights.{CostsCalls};
ghost use Rattle.channel_copies.specs.Putting.{KeepsDisk, around};
ghost use Rattle.channel_copies.specs.Storing.{LeftWhere, StoresWhere, deferred_messages, flying_messages};

use crate::{Deferred, Flights, put_back};
use backlog::{Backlog, Flushed, PutOne};
use nsq_base::Steps;
use nsq_outside::Folder;
use std::sync::ledger::Ledger;
use v2_frame::Message;

/// Writes the messages of all copies in flight behind those that wait, by due moment. The backlog's ring holds so many. It takes no memory. After
/// a fault some are left, and the one that the folder refused is lost. Requires a durable backlog of which nothing is drawn, and 16,777,242
/// bytes of `scratch`.
pub fn write_flights<F: Folder, L: Ledger>(
    flights: &mut Flights,
    backlog: &mut Backlog,
    ring: u64,
    folder: &mut F,
    scratch: &mut [u8],
    steps: &mut Steps<L>,
) -> Flushed
    requires durable { IsSome backlog.old.queue }
    requires nothing { backlog.old.lent ≡ Nothing }
    requires scratch { 16777242 ≤ length scratch.old }
    ensures left { LeftWhere flights.old.flights flights.new.flights result }
    ensures nothing_now { backlog.new.lent ≡ Nothing }
    ensures capacity { backlog.new.capacity ≡ backlog.old.capacity }
    ensures stores { StoresWhere F.tells_files (flying_messages flights.old.flights) (around backlog.old (F.files folder.old) (F.folder_faults folder.old)) (around backlog.new (F.files folder.new) (F.folder_faults folder.new)) result }
    ensures disk { KeepsDisk F.tells_files (around backlog.old (F.files folder.old) (F.folder_faults folder.old)) (around backlog.new (F.files folder.new) (F.folder_faults folder.new)) }
    ensures cause { FlushFails (F.folder_faults folder.old) (F.folder_faults folder.new) result }
    ensures steps { CostsCalls (length flights.old.flights) (length flights.old.flights) steps.old steps.new }
{
    while let Some(flight) = flights.pop(steps) {
        match write_one(backlog, ring, folder, scratch, flight.message) {
            Flushed::Done => {}
            Flushed::Fault => return Flushed::Fault,
        }
    }
    Flushed::Done
}

/// Writes the messages of all deferred copies behind those that wait, as `write_flights`.
pub fn write_deferred<F: Folder, L: Ledger>(
    deferred: &mut Deferred,
    backlog: &mut Backlog,
    ring: u64,
    folder: &mut F,
    scratch: &mut [u8],
    steps: &mut Steps<L>,
) -> Flushed
    requires durable { IsSome backlog.old.queue }
    requires nothing { backlog.old.lent ≡ Nothing }
    requires scratch { 16777242 ≤ length scratch.old }
    ensures left { LeftWhere deferred.old.waiting deferred.new.waiting result }
    ensures nothing_now { backlog.new.lent ≡ Nothing }
    ensures capacity { backlog.new.capacity ≡ backlog.old.capacity }
    ensures stores { StoresWhere F.tells_files (deferred_messages deferred.old.waiting) (around backlog.old (F.files folder.old) (F.folder_faults folder.old)) (around backlog.new (F.files folder.new) (F.folder_faults folder.new)) result }
    ensures disk { KeepsDisk F.tells_files (around backlog.old (F.files folder.old) (F.folder_faults folder.old)) (around backlog.new (F.files folder.new) (F.folder_faults folder.new)) }
    ensures cause { FlushFails (F.folder_faults folder.old) (F.folder_faults folder.new) result }
    ensures steps { CostsCalls (length deferred.old.waiting) (length deferred.old.waiting) steps.old steps.new }
{
    while let Some(message) = deferred.pop(steps) {
        match write_one(backlog, ring, folder, scratch, message) {
            Flushed::Done => {}
            Flushed::Fault => return Flushed::Fault,
        }
    }
    Flushed::Done
}

// Puts a message behind all that waits. What fills the ring goes to disk first, so that the order is kept.
fn write_one<F: Folder>(
    backlog: &mut Backlog,
    ring: u64,
    folder: &mut F,
    scratch: &mut [u8],
    message: Message,
) -> Flushed
    requires durable { IsSome backlog.old.queue }
    requires nothing { backlog.old.lent ≡ Nothing }
    requires short { FitsLimit message }
    requires scratch { 16777242 ≤ length scratch.old }
    ensures nothing_now { backlog.new.lent ≡ Nothing }
    ensures capacity { backlog.new.capacity ≡ backlog.old.capacity }
    ensures stores { StoresWhere F.tells_files (message ∷ []) (around backlog.old (F.files folder.old) (F.folder_faults folder.old)) (around backlog.new (F.files folder.new) (F.folder_faults folder.new)) result }
    ensures disk { KeepsDisk F.tells_files (around backlog.old (F.files folder.old) (F.folder_faults folder.old)) (around backlog.new (F.files folder.new) (F.folder_faults folder.new)) }
    ensures cause { FlushFails (F.folder_faults folder.old) (F.folder_faults folder.new) result }
{
    match make_room(backlog, ring, folder, scratch) {
        Flushed::Done => {}
        Flushed::Fault => return Flushed::Fault,
    }
    match put_back(backlog, folder, scratch, message) {
        PutOne::Kept | PutOne::Dropped | PutOne::Spilled => Flushed::Done,
        PutOne::Fault(_) => Flushed::Fault,
    }
}

// Writes what is in the ring where that is full. A ring for none has nothing to write.
fn make_room<F: Folder>(
    backlog: &mut Backlog,
    ring: u64,
    folder: &mut F,
    scratch: &mut [u8],
) -> Flushed
    requires durable { IsSome backlog.old.queue }
    requires nothing { backlog.old.lent ≡ Nothing }
    requires scratch { 16777242 ≤ length scratch.old }
    ensures nothing_now { backlog.new.lent ≡ Nothing }
    ensures capacity { backlog.new.capacity ≡ backlog.old.capacity }
    ensures stores { StoresWhere F.tells_files [] (around backlog.old (F.files folder.old) (F.folder_faults folder.old)) (around backlog.new (F.files folder.new) (F.folder_faults folder.new)) result }
    ensures disk { KeepsDisk F.tells_files (around backlog.old (F.files folder.old) (F.folder_faults folder.old)) (around backlog.new (F.files folder.new) (F.folder_faults folder.new)) }
    ensures cause { FlushFails (F.folder_faults folder.old) (F.folder_faults folder.new) result }
{
    if backlog.depths().ring < ring.max(1) {
        return Flushed::Done;
    }
    backlog.flush(folder, scratch)
}
