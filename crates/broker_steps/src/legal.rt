use crate::allowed::is_allowed;
use crate::before::is_paid;
use broker_acts::acted;
use broker_history::Entry;
use broker_state::State;
use nsq_base::Memory;
use nsq_outside::End;
use std::alloc::Global;

/// The states to which an entry with this end may lead from a state (`Step`); none where it may not stand behind it. What stands before the
/// entry isn't judged here. Want of memory is the only error. It has no contract: it is a second reading of the definitions by hand.
pub fn step(alloc: Global, state: &State, entry: &Entry, end: End) -> Result<Vec<State>, Memory> {
    if entry.at < state.moment || entry.at > 1 << 62 {
        return Ok(Vec::new(alloc));
    }
    if !is_allowed(alloc, state, entry, end)? {
        return Ok(Vec::new(alloc));
    }
    let mut states = acted(alloc, state, entry, end)?;
    set_moment(&mut states, entry.at);
    Ok(states)
}

// Moves states to another moment.
fn set_moment(states: &mut Vec<State>, at: u64) {
    for state in states {
        state.moment = at;
    }
}

/// The states to which a legal history leads from a start (`Legal`); none where the history isn't legal (`IsIllegal`). Want of memory is the
/// only error. It has no contract: it is a second reading of the definitions by hand.
pub fn led_to(
    alloc: Global,
    start: &State,
    history: &[(Entry, End)],
) -> Result<Vec<State>, Memory> {
    let mut states = one(alloc, start)?;
    for i in 0..history.len() {
        let (entry, end) = &history[i];
        states = stepped(alloc, &states, &history[..i], entry, *end)?;
    }
    Ok(states)
}

// A copy of a state, alone in a list.
fn one(alloc: Global, state: &State) -> Result<Vec<State>, Memory> {
    let mut states = Vec::with_capacity(alloc, 1)?;
    states.push_reserved(state.copy(alloc)?);
    Ok(states)
}

// The states to which an entry with its end leads from these, to which the history before it led.
fn stepped(
    alloc: Global,
    states: &[State],
    history: &[(Entry, End)],
    entry: &Entry,
    end: End,
) -> Result<Vec<State>, Memory> {
    let mut next = Vec::new(alloc);
    for state in states {
        if is_paid(history, state, entry) {
            put_all(&mut next, step(alloc, state, entry, end))?;
        }
    }
    Ok(next)
}

// Adds states that were made, where memory didn't want.
fn put_all(states: &mut Vec<State>, made: Result<Vec<State>, Memory>) -> Result<(), Memory> {
    let mut made = made?;
    states.append(&mut made)?;
    Ok(())
}
