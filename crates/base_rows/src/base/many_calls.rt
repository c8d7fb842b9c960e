ghost use Rattle.std.specs.Prelude.{◌≡◌, ◌<◌};

use crate::check;
use due_heap::{DueHeap, Key};
use nsq_base::Steps;
use std::alloc::Global;
use std::marker::Brand;
use std::sync::ledger::{Blank, Ledger};

// An item of the plain list: its due moment, its key and the item.
#[derive(Clone, Copy)]
struct Plain {
    due: u64,
    key: Key,
    item: u64,
}

// A heap beside a plain list of the same items.
#[derive(Drop)]
struct Both {
    heap: DueHeap<u64>,
    plain: Vec<Plain>,
}

// Where the first item stands that is least due, and when it is.
fn first_of(plain: &[Plain]) -> Option<(usize, u64)> {
    let mut first: Option<(usize, u64)> = None;
    for (i, entry) in plain.iter().enumerate() {
        match first {
            Some((_, due)) if due <= entry.due => {}
            _ => first = Some((i, entry.due)),
        }
    }
    first
}

// The next of a sequence of numbers that look random.
fn next(seed: &mut u64) -> u64 {
    *seed = seed
        .wrapping_mul(6364136223846793005)
        .wrapping_add(1442695040888963407);
    *seed >> 33
}

// Puts an item into both, where there is memory.
fn put<L: Ledger>(both: &mut Both, due: u64, item: u64, steps: &mut Steps<L>) -> bool {
    if both.heap.reserve(1).is_err() || both.plain.reserve(1).is_err() {
        return false;
    }
    let key = both.heap.insert(due, item, steps);
    both.plain.push_reserved(Plain { due, key, item });
    true
}

// Pops what is due from the plain list.
fn pop_due(plain: &mut Vec<Plain>, now: u64) -> Option<Plain> {
    match first_of(plain) {
        Some((i, due)) if i < plain.len() && due <= now => Some(plain.remove(i)),
        _ => None,
    }
}

// Pops what is due from both, and says whether it is the same.
fn pops_the_same<L: Ledger>(both: &mut Both, now: u64, steps: &mut Steps<L>) -> bool {
    let popped = both.heap.pop_due(now, steps);
    match pop_due(&mut both.plain, now) {
        Some(entry) => popped == Some(entry.item) && both.heap.get(entry.key).is_none(),
        None => popped.is_none(),
    }
}

// Takes one item out of both, and says whether it is the same.
fn removes_the_same<L: Ledger>(both: &mut Both, which: u64, steps: &mut Steps<L>) -> bool {
    if both.plain.is_empty() {
        return true;
    }
    let entry = both.plain.remove(which as usize % both.plain.len());
    if both.heap.get(entry.key).is_none() {
        return false;
    }
    both.heap.remove(entry.key, steps) == entry.item && both.heap.get(entry.key).is_none()
}

// Whether both have the same first item, and one more.
fn are_the_same(both: &Both, which: u64) -> bool {
    let Some((i, _)) = first_of(&both.plain) else {
        return both.heap.first().is_none();
    };
    if i >= both.plain.len() {
        return false;
    }
    let first = both.plain[i];
    let other = both.plain[which as usize % both.plain.len()];
    both.heap.first() == Some((first.due, first.key))
        && both.heap.get(other.key) == Some(&other.item)
}

// Makes the next call on both, and says whether they answer the same.
fn answers_the_same<L: Ledger>(
    both: &mut Both,
    item: u64,
    seed: &mut u64,
    steps: &mut Steps<L>,
) -> bool {
    let due = next(seed) % 64;
    let same = match next(seed) % 5 {
        2 => pops_the_same(both, due / 4, steps),
        4 => removes_the_same(both, next(seed), steps),
        _ => put(both, due, item, steps),
    };
    same && (both.plain.len() <= 200 || pops_the_same(both, 64, steps))
}

// How many of so many calls a new heap and a new list answer the same.
fn calls_the_same<L: Ledger>(alloc: Global, blank: Blank, calls: u64) -> u64
    requires name { blank.name ≡ L.name }
    requires parts { blank.parts ≡ L.parts }
    requires some { 0 < L.parts }
{
    let mut steps: Steps<L> = Steps::new(blank);
    let mut both = Both {
        heap: DueHeap::new(alloc),
        plain: Vec::new(alloc),
    };
    let mut seed = 1;
    let mut same = 0u64;
    for item in 0..calls {
        let answers = answers_the_same(&mut both, item, &mut seed, &mut steps);
        if answers && are_the_same(&both, next(&mut seed)) {
            same = same.saturating_add(1);
        }
    }
    same
}

#[test]
fn many_calls_answer_as_a_plain_list_does(rt: HostRuntime) {
    let same = calls_the_same::<Brand>(rt.alloc(), Blank::new(1), 20_000);
    check(&rt, same == 20_000, "many calls");
}
