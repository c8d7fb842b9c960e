//! The states of the whole broker that are possible.

use broker_history::Entry;
use broker_state::{ChannelState, MessageCopy, Place, State};
use broker_steps::step;
use nsq_outside::End;
use std::alloc::Global;
use std::process::Abort;
use v2_frame::Message;

/// The states that are possible after what happened so far, as the plain program says; alike ones stand here once.
#[derive(Drop)]
pub struct Possible {
    alloc: Global,
    pub states: Vec<State>,
}

impl Possible {
    /// This state alone.
    pub fn only(rt: &impl Abort, alloc: Global, state: State) -> Possible {
        Possible {
            alloc,
            states: alone(rt, alloc, state),
        }
    }

    /// An entry was made. Whether a step leads on by it from one of the states.
    pub fn goes(&mut self, rt: &impl Abort, entry: Entry, end: End) -> bool {
        let states = led_from(rt, self.alloc, &self.states, &entry, end);
        self.turn_to(states);
        let_go(entry);
        !self.states.is_empty()
    }

    /// This state alone is possible from now on.
    pub fn restart(&mut self, rt: &impl Abort, state: State) {
        self.turn_to(alone(rt, self.alloc, state));
    }

    // These states are possible from now on.
    fn turn_to(&mut self, states: Vec<State>) {
        let_states_go(std::mem::replace(&mut self.states, states));
    }

    /// Hands the states out, and has none then.
    pub fn take(&mut self) -> Vec<State> {
        std::mem::replace(&mut self.states, Vec::new(self.alloc))
    }

    /// An entry could have been made, and wasn't. Whether a step would lead on by it from one of the states: those stay.
    pub fn may(&mut self, rt: &impl Abort, entry: Entry, end: End) -> bool {
        for state in self.take() {
            let leads = leads_on(rt, self.alloc, &state, &entry, end);
            keep_if(rt, &mut self.states, leads, state);
        }
        let_go(entry);
        !self.states.is_empty()
    }
}

/// Keeps the state among these, where that is so.
pub fn keep_if(rt: &impl Abort, states: &mut Vec<State>, so: bool, state: State) {
    if so {
        states.push(state).expect(rt, "memory");
    }
}

fn let_go(_entry: Entry) {}

/// Takes states apart, once for all that held some.
pub fn let_states_go(_states: Vec<State>) {}

// A list of this state alone.
fn alone(rt: &impl Abort, alloc: Global, state: State) -> Vec<State> {
    let mut states = Vec::new(alloc);
    states.push(state).expect(rt, "memory");
    states
}

// The states that an entry leads to from these.
fn led_from(
    rt: &impl Abort,
    alloc: Global,
    states: &[State],
    entry: &Entry,
    end: End,
) -> Vec<State> {
    let mut led = Vec::new(alloc);
    for state in states {
        let next = step(alloc, state, entry, end).expect(rt, "memory");
        add_new(rt, &mut led, next);
    }
    led
}

// Adds each of these states that isn't like one that is there.
fn add_new(rt: &impl Abort, led: &mut Vec<State>, states: Vec<State>) {
    for next in states {
        let new = !is_among(led, &next);
        keep_if(rt, led, new, next);
    }
}

// Whether an entry leads on from this state.
fn leads_on(rt: &impl Abort, alloc: Global, state: &State, entry: &Entry, end: End) -> bool {
    let led = step(alloc, state, entry, end).expect(rt, "memory");
    let leads_on = !led.is_empty();
    let_states_go(led);
    leads_on
}

// Whether one of these states is like another to which the same entries led.
fn is_among(states: &[State], state: &State) -> bool {
    for other in states {
        if are_alike(other, state) {
            return true;
        }
    }
    false
}

// Whether the channels of two states to which the same entries led have the same copies, in whatever order.
fn are_alike(a: &State, b: &State) -> bool {
    for (i, one) in a.topics.iter().enumerate() {
        if i < b.topics.len() && !are_channels_alike(&one.channels, &b.topics[i].channels) {
            return false;
        }
    }
    true
}

// Whether the channels of a topic in two such states have the same copies.
fn are_channels_alike(a: &[ChannelState], b: &[ChannelState]) -> bool {
    for (i, one) in a.iter().enumerate() {
        if i < b.len() && !have_same_copies(one, &b[i]) {
            return false;
        }
    }
    true
}

// Whether two channels have the same copies, in whatever order.
fn have_same_copies(a: &ChannelState, b: &ChannelState) -> bool {
    for copy in &a.copies {
        if times(copy, &a.copies) != times(copy, &b.copies) {
            return false;
        }
    }
    a.copies.len() == b.copies.len()
}

// How often a copy stands among others.
fn times(copy: &MessageCopy, others: &[MessageCopy]) -> u64 {
    let mut count: u64 = 0;
    for other in others {
        if told_of(copy.place) == told_of(other.place)
            && is_message(&copy.message, &other.message)
        {
            count = count.saturating_add(1);
        }
    }
    count
}

// Which place it is, with which client, when it is due, and since when.
fn told_of(place: Place) -> (u64, u64, u128, u64) {
    match place {
        Place::Queued => (0, 0, 0, 0),
        Place::InFlight { client, due, sent } => (1, client, due, sent),
        Place::Deferred { due } => (2, 0, due, 0),
        Place::Finished => (3, 0, 0, 0),
        Place::Emptied => (4, 0, 0, 0),
        Place::Dropped => (5, 0, 0, 0),
    }
}

/// Whether two messages are the same, with their delays.
pub fn is_message(a: &Message, b: &Message) -> bool {
    a.stamp == b.stamp
        && a.attempts == b.attempts
        && a.id == b.id
        && a.delay == b.delay
        && a.body.bytes() == b.body.bytes()
}
