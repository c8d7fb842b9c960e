//! Lists and bytes that grow, and how they are compared. What wants memory is asked for once more where memory was wanting, so that the rows hold too where one
//! allocation fails, whichever it is.

use std::alloc::Global;
use std::process::Abort;

/// Whether these are the same bytes.
pub fn same(one: &[u8], other: &[u8]) -> bool {
    one == other
}

/// Adds an item.
pub fn push<T: Drop>(rt: &impl Abort, list: &mut Vec<T>, item: T) {
    match list.reserve(1) {
        Ok(()) => list.push_reserved(item),
        Err(_) => {
            list.reserve(1).expect(rt, "memory");
            list.push_reserved(item);
        }
    }
}

/// Adds bytes.
pub fn put(rt: &impl Abort, out: &mut Vec<u8>, bytes: &[u8]) {
    if out.extend_from_slice(bytes).is_err() {
        out.extend_from_slice(bytes).expect(rt, "memory");
    }
}

/// These bytes.
pub fn copied(rt: &impl Abort, alloc: Global, bytes: &[u8]) -> Vec<u8> {
    let mut copy = Vec::new(alloc);
    put(rt, &mut copy, bytes);
    copy
}
