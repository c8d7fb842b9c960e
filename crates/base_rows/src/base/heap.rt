//! Rows of a heap whose items own memory: a name, and calls with a `;` between them, each with what it must answer. An item that was put in is
//! named by how many were put in before it.
//!
//! - `reserve COUNT`: room is made for so many more. `insert DUE ITEM`: one more is put in, which is due at a moment.
//! - `first DUE WHICH`: the least due moment, and which item is due then; or `first none`.
//! - `get WHICH ITEM`: what an item is, or `none`. `remove WHICH ITEM`: an item is taken out. `pop NOW ITEM`: what is due by a moment is popped,
//!   or `none`.
//! - `insert-latest-first COUNT`: items are put in that are due at so many moments from 1 on, the latest first. `pop-in-order COUNT`: they are
//!   popped in the order of their moments, each at its own and none before. `tick`: a step is counted.

ghost use Rattle.std.specs.Prelude.{◌≡◌, ◌<◌};

use crate::same;
use crate::text::{check_row, cut, number_of, rows_of, text_of};
use due_heap::{DueHeap, Key};
use nsq_base::{Body, Steps};
use std::alloc::Global;
use std::marker::Brand;
use std::process::Abort;
use std::sync::ledger::{Blank, Ledger};

static ROWS: &[u8] = b"\
two steps counted|tick;tick~\
the least due comes first, of several the one put in earliest|first none;reserve 3;insert 5 A;insert 3 B;insert 5 C;first 3 1;get 0 A;pop 4 B;\
pop 4 none;get 1 none;first 5 0;pop 5 A;remove 2 C;first none;get 2 none~\
items of several bytes come out as they were|insert 2 later;insert 1 sooner;pop 9 sooner;first 2 0;get 0 later~\
a thousand items come out in order|insert-latest-first 1000;pop-in-order 1000;first none~\
";

// A heap, and the keys of the items that were put in.
#[derive(Drop)]
struct Made {
    heap: DueHeap<Body>,
    keys: Vec<Key>,
}

// Makes room for one item, and puts it in, where there is memory.
fn insert<L: Ledger>(
    alloc: Global,
    made: &mut Made,
    due: u64,
    item: &[u8],
    steps: &mut Steps<L>,
) -> bool {
    if made.heap.reserve(1).is_err() || made.keys.reserve(1).is_err() {
        return false;
    }
    let Ok(item) = Body::copy(alloc, item) else {
        return false;
    };
    let key = made.heap.insert(due, item, steps);
    made.keys.push_reserved(key);
    true
}

// Whether the item is this one, or None where there must be none.
fn is_item(found: Option<&Body>, want: Option<&[u8]>) -> bool {
    match found {
        None => want.is_none(),
        Some(found) => match want {
            None => false,
            Some(bytes) => same(found.bytes(), bytes),
        },
    }
}

// Whether the item with the least due moment is this one, or there is none.
fn is_first(rt: &impl Abort, made: &Made, want: &'static [u8]) -> bool {
    let Some((due, key)) = made.heap.first() else {
        return same(want, b"none");
    };
    if same(want, b"none") {
        return false;
    }
    let (moment, which) = cut(want, b' ');
    let which = which_of(rt, which);
    number_of(rt, moment) == due && which < made.keys.len() && made.keys[which] == key
}

// Which item these digits say.
fn which_of(rt: &impl Abort, digits: &'static [u8]) -> usize {
    number_of(rt, digits) as usize
}

// An item, or none.
fn item_of(text: &'static [u8]) -> Option<&'static [u8]> {
    if same(text, b"none") {
        None
    } else {
        Some(text)
    }
}

// Whether what is due by a moment is this.
fn pops<L: Ledger>(
    heap: &mut DueHeap<Body>,
    now: u64,
    want: Option<&[u8]>,
    steps: &mut Steps<L>,
) -> bool {
    match heap.pop_due(now, steps) {
        None => want.is_none(),
        Some(found) => is_item(Some(&found), want),
    }
}

// Whether this item is as it must be.
fn gets(made: &Made, which: usize, want: Option<&[u8]>) -> bool {
    which < made.keys.len() && is_item(made.heap.get(made.keys[which]), want)
}

// Whether this item, taken out, is as it must be.
fn removes<L: Ledger>(made: &mut Made, which: usize, want: &[u8], steps: &mut Steps<L>) -> bool {
    if which >= made.keys.len() {
        return false;
    }
    let key = made.keys[which];
    if made.heap.get(key).is_none() {
        return false;
    }
    same(made.heap.remove(key, steps).bytes(), want)
}

fn insert_latest_first<L: Ledger>(
    alloc: Global,
    made: &mut Made,
    count: u64,
    steps: &mut Steps<L>,
) -> bool {
    for before in 0..count {
        let due = count - before;
        if !insert(alloc, made, due, &due.to_be_bytes(), steps) {
            return false;
        }
    }
    true
}

fn pops_in_order<L: Ledger>(heap: &mut DueHeap<Body>, count: u64, steps: &mut Steps<L>) -> bool {
    for before in 0..count {
        if !pops(heap, before, None, steps) {
            return false;
        }
        let due = before + 1;
        if !pops(heap, due, Some(&due.to_be_bytes()), steps) {
            return false;
        }
    }
    true
}

// Makes the call, and says whether it answers as it must.
fn answers<R: Abort, L: Ledger>(
    rt: &R,
    alloc: Global,
    made: &mut Made,
    call: &'static [u8],
    steps: &mut Steps<L>,
) -> bool {
    let (what, rest) = cut(call, b' ');
    let (number, item) = cut(rest, b' ');
    match text_of(rt, what) {
        "tick" => {
            steps.tick();
            true
        }
        "first" => is_first(rt, made, rest),
        "reserve" => made.heap.reserve(which_of(rt, number)).is_ok(),
        "insert" => insert(alloc, made, number_of(rt, number), item, steps),
        _ => takes(rt, alloc, made, call, steps),
    }
}

// The same of the other calls.
fn takes<R: Abort, L: Ledger>(
    rt: &R,
    alloc: Global,
    made: &mut Made,
    call: &'static [u8],
    steps: &mut Steps<L>,
) -> bool {
    let (what, rest) = cut(call, b' ');
    let (digits, item) = cut(rest, b' ');
    let number = number_of(rt, digits);
    match text_of(rt, what) {
        "get" => gets(made, which_of(rt, digits), item_of(item)),
        "remove" => removes(made, which_of(rt, digits), item, steps),
        "pop" => pops(&mut made.heap, number, item_of(item), steps),
        "insert-latest-first" => insert_latest_first(alloc, made, number, steps),
        "pop-in-order" => pops_in_order(&mut made.heap, number, steps),
        _ => false,
    }
}

// Whether each call answers as it must, up to the first that doesn't.
fn holds<R: Abort, L: Ledger>(
    rt: &R,
    alloc: Global,
    row: &'static [u8],
    steps: &mut Steps<L>,
) -> bool {
    let (_, calls) = cut(row, b'|');
    let mut made = Made {
        heap: DueHeap::new(alloc),
        keys: Vec::new(alloc),
    };
    let mut all = true;
    for call in &rows_of(rt, alloc, calls, b';') {
        all = all && answers(rt, alloc, &mut made, call, steps);
    }
    all
}

// Checks each row.
fn check_rows<R: Abort, L: Ledger>(rt: &R, alloc: Global, blank: Blank)
    requires name { blank.name ≡ L.name }
    requires parts { blank.parts ≡ L.parts }
    requires some { 0 < L.parts }
{
    let mut steps: Steps<L> = Steps::new(blank);
    for row in &rows_of(rt, alloc, ROWS, b'~') {
        let (name, _) = cut(row, b'|');
        check_row(rt, holds(rt, alloc, row, &mut steps), name);
    }
}

#[test]
fn rows(rt: HostRuntime) {
    check_rows::<HostRuntime, Brand>(&rt, rt.alloc(), Blank::new(1));
}
