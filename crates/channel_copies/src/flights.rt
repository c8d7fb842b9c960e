ghost use Rattle.std.specs.Prelude.{◌≡◌, ◌+◌, ◌*◌, ◌^◌, ◌≤◌, ◌<◌, [], length, OnOk, IfNone, IfSome, option_copied, option_map};
ghost use Rattle.std.specs.Bool.{MatchBool};
ghost use Rattle.backlog.specs.declared.backlog.Lent.TheVariants.{Nothing};
ghost use Rattle.backlog.specs.Seen.{FitsLimit};
ghost use Rattle.channel_copies.specs.Flights.{Finds, Leaves, MovesBack, Prolongs, CostsCalls, first_due, flights_of_id, flights_with, soonest};
ghost use Rattle.channel_copies.specs.Putting.{around};

use crate::flight::Flight;
use crate::putting::{Back, put_back};
use crate::tally::{count_down, count_up};
use backlog::{Backlog, PutOne};
use due_heap::{DueHeap, Key};
use flight_rules::forget;
use nsq_base::{Memory, MsgId, Steps};
use nsq_outside::Folder;
use std::alloc::Global;
use std::collections::HashMap;
use std::marker::Model;
use std::sync::ledger::Ledger;
use v2_frame::Message;

/// Copies in flight, at most one of each id.
#[derive(Drop)]
pub struct Flights {
    heap: DueHeap<Flight>,
    keys: HashMap<MsgId, Key>,
    // How many each client has that has one.
    held: HashMap<u64, usize>,
}

impl Model for Flights {
    ghost use Rattle.std.specs.Prelude.{min, nat_eq};
    ghost use Rattle.std.specs.Cmp.Lexicographic.{pointwise};
    ghost use Rattle.std.specs.HashMap.{get, spare};
    ghost use Rattle.channel_copies.specs.Flights.{Flying};
    ghost use Rattle.channel_copies.specs.Index.{items_of, IsKept};
    ghost use Rattle.channel_copies.specs.Tally.{tally};

    ghost Value = { Flying };

    ghost view = { λ f. record {
      flights = items_of f.heap.entries;
      spare = min (min f.heap.spare (spare f.keys)) (spare f.held);
    } };

    ghost invariant = { λ f. IsKept f.heap.entries (get (pointwise nat_eq) f.keys) (tally f.held) };
}

impl Flights {
    /// No copies. Takes no memory.
    pub fn new(alloc: Global) -> Flights
        ensures { result.flights ≡ [] }
    {
        Flights {
            heap: DueHeap::new(alloc),
            keys: HashMap::new(alloc),
            held: HashMap::new(alloc),
        }
    }

    /// How many there are.
    pub fn len(&self) -> usize
        ensures { result ≡ length self.now.flights }
    {
        self.heap.len()
    }

    /// Makes room for one more. After Memory nothing is lost.
    pub fn reserve(&mut self) -> Result<(), Memory>
        ensures room { OnOk result (1 ≤ self.new.spare) }
        ensures spare { self.old.spare ≤ self.new.spare }
        ensures rest { self.new.flights ≡ self.old.flights }
    {
        self.heap.reserve(1)?;
        self.keys.reserve(1)?;
        self.held.reserve(1)?;
        Ok(())
    }

    /// How many are in flight with this client.
    pub fn count(&self, client: u64) -> usize
        ensures { result ≡ flights_with client self.now.flights }
    {
        self.held.get(&client).copied().unwrap_or(0)
    }

    /// The copy of this id, if it is in flight.
    pub fn get(&self, id: MsgId) -> Option<&Flight>
        ensures { Finds id self.now.flights (option_copied result) }
    {
        let Some(key) = self.keys.get(&id) else {
            return None;
        };
        self.heap.get(*key)
    }

    /// Whether a copy of this id is in flight.
    pub fn has(&self, id: MsgId) -> bool
        ensures { MatchBool result (flights_of_id id self.now.flights ≡ 1) (flights_of_id id self.now.flights ≡ 0) }
    {
        match self.get(id) {
            None => false,
            Some(_) => true,
        }
    }

    /// The copy that is due soonest, where it is due by `now`; of several that are due at one moment the one that came first.
    pub fn first_due(&self, now: u64) -> Option<&Flight>
        ensures { option_copied result ≡ first_due now self.now.flights }
    {
        let Some((due, key)) = self.heap.first() else {
            return None;
        };
        if now < due {
            return None;
        }
        self.heap.get(key)
    }

    /// When the copy is due that is due soonest. None exactly where there is none.
    pub fn next_due(&self) -> Option<u64>
        ensures { result ≡ option_map (λ f. f.due) (soonest (λ f. f.due) self.now.flights) }
    {
        match self.heap.first() {
            Some((due, _)) => Some(due),
            None => None,
        }
    }

    /// Puts a copy in. It takes no memory. Requires room, a body of at most 16,777,216 bytes, and that no copy of its id is in flight.
    pub fn put<L: Ledger>(&mut self, flight: Flight, steps: &mut Steps<L>)
        requires room { 1 ≤ self.old.spare }
        requires new { flights_of_id flight.message.id self.old.flights ≡ 0 }
        requires short { FitsLimit flight.message }
        requires sent { flight.sent ≤ 2 ^ 62 }
        ensures joins { Leaves flight self.new.flights self.old.flights }
        ensures spare { self.old.spare ≤ self.new.spare + 1 }
        ensures steps { CostsCalls 1 (length self.old.flights) steps.old steps.new }
    {
        let id = flight.id();
        let client = flight.client;
        let due = flight.due;
        let key = self.heap.insert(due, flight, steps);
        let _put: Result<_, _> = self.keys.insert(id, key);
        let _few = self.heap.len();
        count_up(&mut self.held, client);
    }

    /// Takes out the copy of this id.
    pub fn take<L: Ledger>(&mut self, id: MsgId, steps: &mut Steps<L>) -> Flight
        requires { 0 < flights_of_id id self.old.flights }
        ensures id { result.message.id ≡ id }
        ensures short { FitsLimit result.message }
        ensures leaves { Leaves result self.old.flights self.new.flights }
        ensures none { flights_of_id id self.new.flights ≡ 0 }
        ensures steps { CostsCalls 1 (length self.old.flights) steps.old steps.new }
    {
        let key = self.keys.remove(&id).unwrap();
        let flight = self.heap.remove(key, steps);
        count_down(&mut self.held, flight.client);
        flight
    }

    /// Takes out the copy that is due soonest. None exactly where there is none.
    pub fn pop<L: Ledger>(&mut self, steps: &mut Steps<L>) -> Option<Flight>
        ensures none { IfNone result (self.old.flights ≡ []) }
        ensures none_stays { IfNone result (self.new ≡ self.old) }
        ensures none_free { IfNone result (steps.new ≡ steps.old) }
        ensures short { IfSome result (λ f. FitsLimit f.message) }
        ensures leaves { IfSome result (λ f. Leaves f self.old.flights self.new.flights) }
        ensures steps { CostsCalls 1 (length self.old.flights) steps.old steps.new }
    {
        let Some((_, key)) = self.heap.first() else {
            return None;
        };
        let flight = self.heap.remove(key, steps);
        forget(&mut self.keys, &flight.message.id);
        count_down(&mut self.held, flight.client);
        Some(flight)
    }

    /// Gives the copy of this id another due moment: `until`, but no later than `most` after its sending. It takes no memory.
    pub fn touch<L: Ledger>(&mut self, id: MsgId, until: u64, most: u64, steps: &mut Steps<L>)
        requires there { 0 < flights_of_id id self.old.flights }
        requires most { most ≤ 2 ^ 62 }
        ensures prolongs { Prolongs id until most self.old.flights self.new.flights }
        ensures steps { CostsCalls 2 (length self.old.flights) steps.old steps.new }
    {
        let key = *self.keys.get(&id).unwrap();
        let mut flight = self.heap.remove(key, steps);
        let due = until.min(flight.sent + most);
        flight.due = due;
        let key = self.heap.insert(due, flight, steps);
        let _put: Result<_, _> = self.keys.insert(id, key);
    }

    /// Moves the message of this id into the backlog, which may drop it. Where the folder fails the copy stays in flight. It takes no memory.
    /// Requires of the backlog what `Backlog::put` does.
    pub fn move_back<F: Folder, L: Ledger>(
        &mut self,
        id: MsgId,
        backlog: &mut Backlog,
        folder: &mut F,
        scratch: &mut [u8],
        steps: &mut Steps<L>,
    ) -> Back
        requires there { 0 < flights_of_id id self.old.flights }
        requires nothing { backlog.old.lent ≡ Nothing }
        requires scratch { 16777242 ≤ length scratch.old }
        ensures moves { MovesBack F.tells_files id self.old.flights self.new.flights (around backlog.old (F.files folder.old) (F.folder_faults folder.old)) (around backlog.new (F.files folder.new) (F.folder_faults folder.new)) result }
        ensures steps { CostsCalls 2 (length self.old.flights) steps.old steps.new }
    {
        let key = *self.keys.get(&id).unwrap();
        let Flight {
            message,
            client,
            due,
            sent,
        } = self.heap.remove(key, steps);
        match put_back(backlog, folder, scratch, message) {
            PutOne::Kept | PutOne::Dropped | PutOne::Spilled => {
                forget(&mut self.keys, &id);
                count_down(&mut self.held, client);
                Back::Done
            }
            PutOne::Fault(message) => {
                let flight = Flight {
                    message,
                    client,
                    due,
                    sent,
                };
                let key = self.heap.insert(due, flight, steps);
                let _put: Result<_, _> = self.keys.insert(id, key);
                Back::Fault
            }
        }
    }
}
