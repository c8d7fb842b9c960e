ghost use Rattle.std.specs.Prelude.{◌≡◌, ◌+◌, ◌≤◌, ◌<◌, ℕ, [], length, OnOk, IfNone, IfSome, option_copied, option_map};
ghost use Rattle.backlog.specs.declared.backlog.Lent.TheVariants.{Nothing};
ghost use Rattle.backlog.specs.Seen.{FitsLimit};
ghost use Rattle.channel_copies.specs.Flights.{CostsCalls, Leaves};
ghost use Rattle.channel_copies.specs.Deferred.{Waiting, MovesFirst, RoomAfter, first_waiting, soonest_waiting};
ghost use Rattle.channel_copies.specs.Putting.{around};

use crate::putting::{Back, put_back};
use backlog::{Backlog, PutOne};
use due_heap::DueHeap;
use nsq_base::{Memory, Steps};
use nsq_outside::Folder;
use std::alloc::Global;
use std::marker::Model;
use std::sync::ledger::Ledger;
use v2_frame::Message;

/// Copies that wait, each until a moment of its own.
#[derive(Drop)]
pub struct Deferred {
    heap: DueHeap<Message>,
}

impl Model for Deferred {
    ghost use Rattle.channel_copies.specs.Deferred.{Deferring, AreShort, waiting_of};

    ghost Value = { Deferring };

    ghost view = { λ d. record { waiting = waiting_of d.heap.entries; spare = d.heap.spare } };

    ghost invariant = { λ d. AreShort d.heap.entries };
}

impl Deferred {
    /// No copies. Takes no memory.
    pub fn new(alloc: Global) -> Deferred
        ensures { result.waiting ≡ [] }
    {
        Deferred {
            heap: DueHeap::new(alloc),
        }
    }

    /// How many there are.
    pub fn len(&self) -> usize
        ensures { result ≡ length self.now.waiting }
    {
        self.heap.len()
    }

    /// Makes room for so many more. After Memory nothing is lost.
    pub fn reserve(&mut self, more: usize) -> Result<(), Memory>
        ensures room { OnOk result (more ≤ self.new.spare) }
        ensures spare { self.old.spare ≤ self.new.spare }
        ensures rest { self.new.waiting ≡ self.old.waiting }
    {
        self.heap.reserve(more)
    }

    /// Puts a copy in. It takes no memory. Requires room, and a body of at most 16,777,216 bytes.
    pub fn put<L: Ledger>(&mut self, due: u64, message: Message, steps: &mut Steps<L>)
        requires room { 1 ≤ self.old.spare }
        requires short { FitsLimit message }
        ensures joins { Leaves (record { due = due; message = message }) self.new.waiting self.old.waiting }
        ensures spare { self.old.spare ≤ self.new.spare + 1 }
        ensures steps { CostsCalls 1 (length self.old.waiting) steps.old steps.new }
    {
        let _ = self.heap.insert(due, message, steps);
    }

    /// The copy that is due soonest, where it is due by `now`; of several that are due at one moment the one that came first.
    pub fn first_due(&self, now: u64) -> Option<&Message>
        ensures { option_copied result ≡ option_map (λ w. w.message) (first_waiting now self.now.waiting) }
    {
        let Some((due, key)) = self.heap.first() else {
            return None;
        };
        if now < due {
            return None;
        }
        self.heap.get(key)
    }

    /// When the copy is due that is due soonest. None exactly where there is none.
    pub fn next_due(&self) -> Option<u64>
        ensures { result ≡ option_map (λ w. w.due) (soonest_waiting self.now.waiting) }
    {
        match self.heap.first() {
            Some((due, _)) => Some(due),
            None => None,
        }
    }

    /// Takes out the copy that is due soonest. None exactly where there is none.
    pub fn pop<L: Ledger>(&mut self, steps: &mut Steps<L>) -> Option<Message>
        ensures none { IfNone result (self.old.waiting ≡ []) }
        ensures none_stays { IfNone result (self.new ≡ self.old) }
        ensures none_free { IfNone result (steps.new ≡ steps.old) }
        ensures short { IfSome result FitsLimit }
        ensures leaves { IfSome result (λ m. (due : ℕ) × Leaves (record { due = due; message = m }) self.old.waiting self.new.waiting) }
        ensures steps { CostsCalls 1 (length self.old.waiting) steps.old steps.new }
    {
        let Some((_, key)) = self.heap.first() else {
            return None;
        };
        Some(self.heap.remove(key, steps))
    }

    /// Moves the message of the copy that is due soonest into the backlog, which may drop it. Where the folder fails the copy waits as before.
    /// It takes no memory. Requires that there is one, and of the backlog what `Backlog::put` does.
    pub fn move_back<F: Folder, L: Ledger>(
        &mut self,
        backlog: &mut Backlog,
        folder: &mut F,
        scratch: &mut [u8],
        steps: &mut Steps<L>,
    ) -> Back
        requires there { 0 < length self.old.waiting }
        requires nothing { backlog.old.lent ≡ Nothing }
        requires scratch { 16777242 ≤ length scratch.old }
        ensures moves { MovesFirst F.tells_files self.old.waiting self.new.waiting (around backlog.old (F.files folder.old) (F.folder_faults folder.old)) (around backlog.new (F.files folder.new) (F.folder_faults folder.new)) result }
        ensures spare { RoomAfter self.old.spare self.new.spare result }
        ensures steps { CostsCalls 2 (length self.old.waiting) steps.old steps.new }
    {
        let (due, _) = self.heap.first().unwrap();
        let message = self.heap.pop_due(due, steps).unwrap();
        match put_back(backlog, folder, scratch, message) {
            PutOne::Kept | PutOne::Dropped | PutOne::Spilled => Back::Done,
            PutOne::Fault(message) => {
                let _ = self.heap.insert(due, message, steps);
                Back::Fault
            }
        }
    }
}
