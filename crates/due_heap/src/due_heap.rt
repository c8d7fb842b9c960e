ghost use Rattle.std.specs.Prelude.{◌≡◌, ℕ, ◌+◌, ◌-◌, ◌^◌, ◌<◌, ◌≤◌, [], ◌∷◌, ◌++◌, length, min, All, Some, None, IsSome, IsOk, OnOk, IfSome, IfNone, OnSome, option_map, option_copied};
ghost use Rattle.due_heap.specs.Heap.{FewSteps, OthersStay, TakesFirst, TakesOut, entry_of, first_due, number_of, without};

use crate::key::Key;
use crate::node::Node;
use crate::order::{attach, detach};
use crate::slots::{Held, fill, find, make_slots, vacate};
use nsq_base::{Memory, Steps};
use std::alloc::Global;
use std::marker::Model;
use std::sync::ledger::Ledger;

/// Items that wait, each until a due moment of its own.
///
/// A moment is any number of any unit, as long as all are of one. Of items that are due at one moment the one inserted earliest
/// comes first, where they were inserted before the heap's 2^64-th insertion.
#[derive(Drop)]
pub struct DueHeap<T> {
    // The first `count` are the heap. Behind them stand the slots that are free.
    order: Vec<Node>,
    // Where the node of each slot stands in `order`.
    places: Vec<usize>,
    // The items, each in its slot.
    slots: Vec<Option<Held<T>>>,
    count: usize,
    // How many insertions were made, up to the greatest number.
    made: u64,
}

impl<T> Model for DueHeap<T> {
    ghost use Rattle.std.specs.Prelude.{◌-◌, length};
    ghost use Rattle.due_heap.specs.Heap.{Heap, heap_code};

    ghost Value = { Heap T };

    ghost coded = { heap_code T.code };

    ghost use Rattle.due_heap.specs.Layout.{listed, IsSound};

    ghost view = { λ h. record {
      entries = listed 0 h.slots.items;
      made = h.made;
      spare = length h.order.items - h.count;
    } };

    ghost invariant = { λ h. IsSound h.order.items h.places.items h.slots.items h.count h.made };
}

impl<T> DueHeap<T> {
    /// A heap of no items. Takes no memory.
    pub fn new(alloc: Global) -> DueHeap<T>
        ensures entries { result.entries ≡ [] }
        ensures made { result.made ≡ 0 }
    {
        DueHeap {
            order: Vec::new(alloc),
            places: Vec::new(alloc),
            slots: Vec::new(alloc),
            count: 0,
            made: 0,
        }
    }

    /// How many items there are.
    pub fn len(&self) -> usize
        ensures { result ≡ length self.now.entries }
    {
        self.count
    }

    /// Makes room, so that `n` more items go in without memory. After Memory nothing is lost, neither items nor room.
    ///
    /// All the room that it makes is written at once, so its time grows with that, and the insertions that follow are short.
    pub fn reserve(&mut self, n: usize) -> Result<(), Memory>
        ensures room { OnOk result (n ≤ self.new.spare) }
        ensures enough { n ≤ self.old.spare → IsOk result }
        ensures spare { self.old.spare ≤ self.new.spare }
        ensures rest { self.new ≡ record self.old { spare = self.new.spare } }
    {
        let more = n.saturating_sub(self.order.len() - self.count);
        self.order.reserve(more)?;
        self.places.reserve(more)?;
        self.slots.reserve(more)?;
        make_slots(&mut self.order, &mut self.places, &mut self.slots, more);
        Ok(())
    }

    /// Puts an item in, and gives the key that reaches it until it is taken out.
    ///
    /// It takes no memory, and at most one of the spare room. At most 2d + 2 steps are counted, where d is the greatest number
    /// with 2^d at most one more than the items before.
    pub fn insert<L: Ledger>(&mut self, due: u64, item: T, steps: &mut Steps<L>) -> Key
        requires { 0 < self.old.spare }
        ensures number { number_of result ≡ self.old.made }
        ensures made { self.new.made ≡ min (self.old.made + 1) (2 ^ 64 - 1) }
        ensures fresh { entry_of result self.old.entries ≡ None }
        ensures live { entry_of result self.new.entries ≡ Some (record { key = result; due = due; item = item }) }
        ensures rest { without result self.new.entries ≡ self.old.entries }
        ensures one { TakesOut (record { key = result; due = due; item = item }) self.new.entries self.old.entries }
        ensures others { OthersStay result self.old.entries self.new.entries }
        ensures last { self.old.made < 2 ^ 64 - 1 → self.new.entries ≡ self.old.entries ++ record { key = result; due = due; item = item } ∷ [] }
        ensures spare { self.old.spare ≤ self.new.spare + 1 }
        ensures steps { FewSteps (length self.old.entries) steps.old steps.new }
    {
        let place = self.count;
        let number = self.made;
        let slot = self.order[place].slot;
        // The slot first: its memory may be far, and the heap is put in order while it comes.
        fill(&mut self.slots, slot, Held { due, number, item });
        let node = Node { due, number, slot };
        attach(&mut self.order, &mut self.places, place, node, steps);
        self.count = place + 1;
        self.made = number.saturating_add(1);
        Key { slot, number }
    }

    /// Takes an item out by its key, which is dead from then on. At most 2d + 2 steps are counted, as by `insert`.
    pub fn remove<L: Ledger>(&mut self, key: Key, steps: &mut Steps<L>) -> T
        requires { IsSome (entry_of key self.old.entries) }
        ensures item { option_map (λ e. e.item) (entry_of key self.old.entries) ≡ Some result }
        ensures rest { self.new.entries ≡ without key self.old.entries }
        ensures one { (due : ℕ) × TakesOut (record { key = key; due = due; item = result }) self.old.entries self.new.entries }
        ensures dead { entry_of key self.new.entries ≡ None }
        ensures others { OthersStay key self.old.entries self.new.entries }
        ensures made { self.new.made ≡ self.old.made }
        ensures spare { self.old.spare + 1 ≤ self.new.spare }
        ensures steps { FewSteps (length self.old.entries) steps.old steps.new }
    {
        // The slot first, as in `insert`.
        let held = vacate(&mut self.slots, key.slot);
        let place = self.places[key.slot];
        let last = self.count - 1;
        detach(&mut self.order, &mut self.places, last, place, steps);
        self.count = last;
        held.item
    }

    /// The least due moment, and the key of the item that is due then, of several the one inserted earliest. None where there is
    /// no item.
    pub fn first(&self) -> Option<(u64, Key)>
        ensures is { result ≡ option_map (λ e. (e.due, e.key)) (first_due self.now.entries) }
        ensures live { IfSome result (λ first. entry_of first.1 self.now.entries ≡ first_due self.now.entries) }
    {
        if self.count == 0 {
            return None;
        }
        let node = self.order[0];
        let key = Key {
            slot: node.slot,
            number: node.number,
        };
        Some((node.due, key))
    }

    /// The item of a key. None exactly where the key isn't live.
    pub fn get(&self, key: Key) -> Option<&T>
        ensures { option_copied result ≡ option_map (λ e. e.item) (entry_of key self.now.entries) }
    {
        find(&self.slots, key)
    }

    /// Takes out the first item, where it is due by `now`. None exactly where no item is, and then nothing changes. At most
    /// 2d + 2 steps are counted, as by `insert`.
    pub fn pop_due<L: Ledger>(&mut self, now: u64, steps: &mut Steps<L>) -> Option<T>
        ensures none { IfNone result (All (λ e. now < e.due) self.old.entries) }
        ensures none_stays { IfNone result (self.new ≡ self.old) }
        ensures first { IfSome result (λ item. TakesFirst now self.old.entries self.new.entries item) }
        ensures made { self.new.made ≡ self.old.made }
        ensures spare { OnSome result (self.old.spare + 1 ≤ self.new.spare) }
        ensures steps { FewSteps (length self.old.entries) steps.old steps.new }
    {
        let (due, key) = self.first()?;
        if now < due {
            return None;
        }
        Some(self.remove(key, steps))
    }
}
