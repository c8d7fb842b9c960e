use crate::parts::{Part, part_of, put_part};
use broker_history::{Act, Entry};
use nsq_base::Memory;
use nsq_outside::End;
use std::alloc::Global;

/// What the entries of a connection are in its conversation, in order: of those that name it and aren't common.
pub fn own(
    alloc: Global,
    number: u64,
    history: &[(Entry, End)],
) -> Result<Vec<(Part<'_>, End)>, Memory> {
    let mut own = Vec::new(alloc);
    put_own(&mut own, number, history)?;
    Ok(own)
}

// Adds what the entries of a connection are in its conversation.
fn put_own<'a>(
    own: &mut Vec<(Part<'a>, End)>,
    number: u64,
    history: &'a [(Entry, End)],
) -> Result<(), Memory> {
    for (entry, end) in history {
        if let Some(part) = own_part(number, entry) {
            put_part(own, part, *end)?;
        }
    }
    Ok(())
}

// What the entry is in the conversation of a connection, where it is one of its own: no move, nor the daemon's Stuck, nor a Ticked, which
// name the daemon and stand in turns of any connection.
fn own_part(number: u64, entry: &Entry) -> Option<Part<'_>> {
    if entry.conn != number {
        return None;
    }
    match part_of(&entry.act) {
        Part::Common => None,
        part => Some(part),
    }
}

/// Whether a Stop stands before the Gone of the connection of this number; without a Gone none does.
pub fn stops_before_gone(number: u64, history: &[(Entry, End)]) -> bool {
    let mut stopped = false;
    for (entry, _) in history {
        if is_stop(&entry.act) {
            stopped = true;
        } else if entry.conn == number && is_gone(&entry.act) {
            return stopped;
        }
    }
    false
}

// Whether the act is a Stop.
fn is_stop(act: &Act) -> bool {
    match part_of(act) {
        Part::Stop => true,
        _ => false,
    }
}

// Whether the act is a Gone.
fn is_gone(act: &Act) -> bool {
    match part_of(act) {
        Part::Gone => true,
        _ => false,
    }
}
