use crate::same;
use crate::text::{check_row, cut, rows_of};
use nsq_base::{Bodies, Body, Pair, Pairs};
use std::alloc::Global;
use std::process::Abort;

// A name, and words: bodies that are put into a list, those that are added once the list was taken apart, and all of them.
static ROWS: &[u8] = b"\
nothing|||~\
one field|t||t~\
two bodies and one more|one two|three|one two three~\
";

// Whether the list has these bodies.
fn has_bodies(bodies: &Bodies, want: &[&[u8]]) -> bool {
    if bodies.count() != want.len() {
        return false;
    }
    let mut all = true;
    for i in 0..want.len() {
        all = all && same(bodies.get(i).bytes(), want[i]);
    }
    all
}

// Whether the list has these bodies, and its copies too.
fn are_bodies(rt: &impl Abort, alloc: Global, bodies: &Bodies, want: &[&[u8]]) -> bool {
    let copy = bodies.copy(alloc).expect(rt, "memory");
    has_bodies(&copy, want) && copy.as_slice().len() == want.len() && has_bodies(bodies, want)
}

// A body that is copied, or made of a list.
fn body_of(rt: &impl Abort, alloc: Global, copied: bool, bytes: &[u8]) -> Body {
    if copied {
        return Body::copy(alloc, bytes).expect(rt, "memory");
    }
    Body::of(bytes.to_vec(alloc).expect(rt, "memory"))
}

// Adds bodies: each second one is made of a list.
fn add_bodies(rt: &impl Abort, alloc: Global, bodies: &mut Bodies, more: &[&[u8]]) {
    for (i, bytes) in more.iter().enumerate() {
        let body = body_of(rt, alloc, i % 2 == 0, bytes);
        bodies.push(body).expect(rt, "memory");
    }
}

// Whether the last body, taken out of the list, has the row's last bytes.
fn is_last(bodies: Bodies, want: &[&[u8]]) -> bool {
    let mut items = bodies.spend();
    match items.pop() {
        None => want.is_empty(),
        Some(last) => match want.last() {
            None => false,
            Some(bytes) => same(&last.spend(), bytes),
        },
    }
}

fn holds_of_bodies(
    rt: &impl Abort,
    alloc: Global,
    put: &[&[u8]],
    then: &[&[u8]],
    whole: &[&[u8]],
) -> bool {
    let mut bodies = Bodies::new(alloc);
    add_bodies(rt, alloc, &mut bodies, put);
    let first = are_bodies(rt, alloc, &bodies, put);
    let mut bodies = Bodies::of(bodies.spend());
    add_bodies(rt, alloc, &mut bodies, then);
    first && are_bodies(rt, alloc, &bodies, whole) && is_last(bodies, whole)
}

// Whether the list has pairs of these names and values.
fn has_pairs(pairs: &Pairs, want: &[&[u8]]) -> bool {
    if pairs.count() != want.len() {
        return false;
    }
    let mut all = true;
    for i in 0..want.len() {
        let pair = pairs.get(i);
        all = all && same(pair.name.bytes(), b"topic") && same(pair.value.bytes(), want[i]);
    }
    all
}

// Whether the list has pairs of these names and values, and its copies too.
fn are_pairs(rt: &impl Abort, alloc: Global, pairs: &Pairs, want: &[&[u8]]) -> bool {
    let copy = pairs.copy(alloc).expect(rt, "memory");
    has_pairs(&copy, want) && copy.as_slice().len() == want.len() && has_pairs(pairs, want)
}

fn add_pairs(rt: &impl Abort, alloc: Global, pairs: &mut Pairs, more: &[&[u8]]) {
    for bytes in more {
        let name = Body::copy(alloc, b"topic").expect(rt, "memory");
        let value = Body::copy(alloc, bytes).expect(rt, "memory");
        pairs.push(Pair { name, value }).expect(rt, "memory");
    }
}

fn holds_of_pairs(
    rt: &impl Abort,
    alloc: Global,
    put: &[&[u8]],
    then: &[&[u8]],
    whole: &[&[u8]],
) -> bool {
    let mut pairs = Pairs::new(alloc);
    add_pairs(rt, alloc, &mut pairs, put);
    let first = are_pairs(rt, alloc, &pairs, put);
    let mut pairs = Pairs::of(pairs.spend());
    add_pairs(rt, alloc, &mut pairs, then);
    first && are_pairs(rt, alloc, &pairs, whole)
}

fn holds(rt: &impl Abort, alloc: Global, row: &'static [u8]) -> bool {
    let (_, rest) = cut(row, b'|');
    let (put, rest) = cut(rest, b'|');
    let (then, whole) = cut(rest, b'|');
    let put = rows_of(rt, alloc, put, b' ');
    let then = rows_of(rt, alloc, then, b' ');
    let whole = rows_of(rt, alloc, whole, b' ');
    holds_of_bodies(rt, alloc, &put, &then, &whole)
        && holds_of_pairs(rt, alloc, &put, &then, &whole)
}

#[test]
fn rows(rt: HostRuntime) {
    for row in &rows_of(&rt, rt.alloc(), ROWS, b'~') {
        let (name, _) = cut(row, b'|');
        check_row(&rt, holds(&rt, rt.alloc(), row), name);
    }
}
