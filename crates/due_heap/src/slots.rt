ghost use Rattle.std.specs.Prelude.{◌≡◌, ◌+◌, ◌<◌, ◌≤◌, length, vec_capacity, slice_index_or, slice_set, Some, None, IsSome, option_copied};
ghost use Rattle.due_heap.specs.Layout.{SlotsAdded, item_at};

use crate::key::Key;
use crate::node::Node;
use std::mem;

/// An item in its slot, with what its place in the heap knows too.
#[derive(Drop)]
pub(crate) struct Held<T> {
    pub(crate) due: u64,
    pub(crate) number: u64,
    pub(crate) item: T,
}

// Adds a free slot behind all others. It takes no memory.
fn make_slot<T>(order: &mut Vec<Node>, places: &mut Vec<usize>, slots: &mut Vec<Option<Held<T>>>)
    requires order_room { length order.old.items < vec_capacity order.old }
    requires places_room { length order.old.items < vec_capacity places.old }
    requires slots_room { length order.old.items < vec_capacity slots.old }
    requires places_length { length places.old.items ≡ length order.old.items }
    requires slots_length { length slots.old.items ≡ length order.old.items }
    ensures added { SlotsAdded 1 order.old.items places.old.items slots.old.items order.new.items places.new.items slots.new.items }
    ensures order_stays { vec_capacity order.new ≡ vec_capacity order.old }
    ensures places_stays { vec_capacity places.new ≡ vec_capacity places.old }
    ensures slots_stays { vec_capacity slots.new ≡ vec_capacity slots.old }
{
    let slot = order.len();
    order.push_reserved(Node {
        due: 0,
        number: 0,
        slot,
    });
    places.push_reserved(slot);
    slots.push_reserved(None);
}

// Adds so many free slots behind all others. It takes no memory.
pub(crate) fn make_slots<T>(
    order: &mut Vec<Node>,
    places: &mut Vec<usize>,
    slots: &mut Vec<Option<Held<T>>>,
    more: usize,
)
    requires order_room { length order.old.items + more ≤ vec_capacity order.old }
    requires places_room { length order.old.items + more ≤ vec_capacity places.old }
    requires slots_room { length order.old.items + more ≤ vec_capacity slots.old }
    requires places_length { length places.old.items ≡ length order.old.items }
    requires slots_length { length slots.old.items ≡ length order.old.items }
    ensures { SlotsAdded more order.old.items places.old.items slots.old.items order.new.items places.new.items slots.new.items }
{
    let mut added = 0;
    while added < more {
        make_slot(order, places, slots);
        added += 1;
    }
}

// Puts an item into a free slot.
pub(crate) fn fill<T>(slots: &mut [Option<Held<T>>], slot: usize, held: Held<T>)
    requires range { slot < length slots.old }
    requires free { slice_index_or slots.old slot None ≡ None }
    ensures { slots.new ≡ slice_set slots.old slot (Some held) }
{
    match mem::replace(&mut slots[slot], Some(held)) {
        None => {}
        Some(_) => unreachable!(),
    }
}

// Takes the item out of a slot.
pub(crate) fn vacate<T>(slots: &mut [Option<Held<T>>], slot: usize) -> Held<T>
    requires range { slot < length slots.old }
    requires taken { IsSome (slice_index_or slots.old slot None) }
    ensures held { slice_index_or slots.old slot None ≡ Some result }
    ensures rest { slots.new ≡ slice_set slots.old slot None }
{
    match mem::replace(&mut slots[slot], None) {
        Some(held) => held,
        None => unreachable!(),
    }
}

// The item of a key.
pub(crate) fn find<T>(slots: &[Option<Held<T>>], key: Key) -> Option<&T>
    ensures { option_copied result ≡ item_at slots.now key }
{
    let Some(held) = slots.get(key.slot)? else {
        return None;
    };
    if held.number == key.number {
        Some(&held.item)
    } else {
        None
    }
}
