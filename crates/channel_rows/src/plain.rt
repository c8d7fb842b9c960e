//! A channel as one plain list of copies, by the rules of the floor alone.

use crate::calls::{Answer, Call, Came, Does, Who};
use crate::dice::LISTED;
use crate::runs::{HELD, LONGEST, Run};
use crate::stage::{FIRST_TIME, SECOND_TIME};
use channel_core::{Channel, Look};
use nsq_base::MsgId;
use std::alloc::Global;
use std::process::Abort;

// Where a copy is.
#[derive(Clone, Copy)]
enum Place {
    Queued,
    // With a client, until a moment, and since one.
    InFlight(Who, u64, u64),
    // Until a moment.
    Deferred(u64),
}

// A copy: its id, the attempts made, and where it is.
#[derive(Clone, Copy)]
struct Kept {
    id: MsgId,
    attempts: u16,
    place: Place,
}

/// A channel. Its copies stand in the order in which they came to their places.
#[derive(Drop)]
pub struct Plain {
    run: Run,
    paused: bool,
    first_ready: u32,
    second_ready: u32,
    copies: Vec<Kept>,
    joined: u64,
    requeued: u64,
    timed_out: u64,
}

/// What there is.
impl Plain {
    /// A new channel of this run.
    pub fn new(alloc: Global, run: &Run) -> Plain {
        Plain {
            run: *run,
            paused: false,
            first_ready: 0,
            second_ready: 0,
            copies: Vec::new(alloc),
            joined: 0,
            requeued: 0,
            timed_out: 0,
        }
    }

    /// Whether calls of the channel on its folder may fail.
    pub fn may_fail(&self) -> bool {
        self.run.fails && !self.run.ephemeral
    }

    /// Whether two copies of this id are there.
    pub fn has_two(&self, id: MsgId) -> bool {
        let mut count: u64 = 0;
        for copy in &self.copies {
            if copy.id == id {
                count = count.saturating_add(1);
            }
        }
        count >= 2
    }

    // How many are queued, in flight and deferred.
    fn places(&self) -> (u64, u64, u64) {
        let mut queued: u64 = 0;
        let mut in_flight: u64 = 0;
        let mut deferred: u64 = 0;
        for copy in &self.copies {
            match copy.place {
                Place::Queued => queued = queued.saturating_add(1),
                Place::InFlight(_, _, _) => in_flight = in_flight.saturating_add(1),
                Place::Deferred(_) => deferred = deferred.saturating_add(1),
            }
        }
        (queued, in_flight, deferred)
    }

    // Whether so many queued copies on disk are as many as may be, of so many.
    fn may_be_behind(&self, queued: u64, on_disk: u128) -> bool {
        if self.run.ephemeral {
            return on_disk == 0;
        }
        u128::from(queued.saturating_sub(self.run.memory)) <= on_disk
            && on_disk <= u128::from(queued)
    }

    // How many copies are in flight with the client.
    fn flying(&self, who: Who) -> u64 {
        let mut flying: u64 = 0;
        for copy in &self.copies {
            if let Place::InFlight(with, _, _) = copy.place {
                if with == who {
                    flying = flying.saturating_add(1);
                }
            }
        }
        flying
    }

    // Whether the client may have one more in flight.
    fn has_credit(&self, who: Who) -> bool {
        let ready = match who {
            Who::First => self.first_ready,
            Who::Second => self.second_ready,
        };
        self.flying(who) < u64::from(ready)
    }

    // Whether the client may be sent a copy, if there is one.
    fn is_open(&self, who: Who) -> bool {
        !self.paused && self.has_credit(who)
    }

    // What a client is told of the copies of this id.
    fn look(&self, who: Who, id: MsgId) -> Look {
        match self.flying_at(id) {
            Some((_, with, _)) if with == who => Look::Yours,
            Some(_) => Look::NotYours,
            None => Look::NotInFlight,
        }
    }

    // Where the copy of this id is in flight, with whom, and since when.
    fn flying_at(&self, id: MsgId) -> Option<(usize, Who, u64)> {
        for (i, copy) in self.copies.iter().enumerate() {
            if let Place::InFlight(with, _, sent) = copy.place {
                if copy.id == id {
                    return Some((i, with, sent));
                }
            }
        }
        None
    }

    // Where a queued copy of this id stands, one attempt before these where some are given.
    fn queued_at(&self, id: MsgId, attempts: Option<u16>) -> Option<usize> {
        for (i, copy) in self.copies.iter().enumerate() {
            let fits = match attempts {
                None => true,
                Some(attempts) => copy.attempts.saturating_add(1) == attempts,
            };
            if fits && matches!(copy.place, Place::Queued) && copy.id == id {
                return Some(i);
            }
        }
        None
    }

    // When the next copy is due.
    fn next_due(&self) -> Option<u64> {
        let mut next = None;
        for copy in &self.copies {
            if let Place::InFlight(_, due, _) | Place::Deferred(due) = copy.place {
                next = match next {
                    Some(soonest) if soonest <= due => next,
                    _ => Some(due),
                };
            }
        }
        next
    }

    // Where the copy stands that is due first: of those in flight, or else of the deferred ones.
    fn first_due(&self, now: u64) -> Option<usize> {
        let mut flying = None;
        let mut waiting = None;
        for (i, copy) in self.copies.iter().enumerate() {
            match copy.place {
                Place::Queued => {}
                Place::InFlight(_, due, _) => flying = sooner(flying, i, due, now),
                Place::Deferred(due) => waiting = sooner(waiting, i, due, now),
            }
        }
        match (flying, waiting) {
            (Some((i, _)), _) | (None, Some((i, _))) => Some(i),
            (None, None) => None,
        }
    }

    /// Whether the channel tells what the list says.
    pub fn tells(&self, channel: &Channel) -> bool {
        self.counts(channel)
            && self.flies_in(channel, Who::First)
            && self.flies_in(channel, Who::Second)
    }

    // Whether the channel counts what the list says.
    fn counts(&self, channel: &Channel) -> bool {
        let counts = channel.counts();
        let (queued, in_flight, deferred) = self.places();
        channel.next_due() == self.next_due()
            && counts.depth == u128::from(queued)
            && self.may_be_behind(queued, counts.backend_depth)
            && counts.in_flight_count == in_flight
            && counts.deferred_count == deferred
            && counts.message_count == self.joined
            && counts.requeue_count == self.requeued
            && counts.timeout_count == self.timed_out
    }

    // Whether the channel tells of this client and each copy what the list says.
    fn flies_in(&self, channel: &Channel, who: Who) -> bool {
        let client = who.client();
        if channel.in_flight(client) != self.flying(who) {
            return false;
        }
        for number in 0..LISTED {
            let id = MsgId::make(1, number);
            if channel.look(client, id) != self.look(who, id) {
                return false;
            }
        }
        true
    }
}

/// What happens.
impl Plain {
    /// Whether a call is answered so, as the list says. The list is then as it is behind that call.
    pub fn answers(&mut self, rt: &impl Abort, call: &Call, answer: &Answer) -> bool {
        match call.does {
            Does::Offer => self.was_offered(rt, call, answer.came),
            Does::Give => self.was_given(rt, call, answer),
            Does::Finish | Does::Touch | Does::Requeue => self.was_settled(rt, call, answer.came),
            Does::Move => self.has_moved(rt, call.at, answer),
            _ => self.was_done(call, answer.came),
        }
    }

    // A message joins, or a fault keeps it off.
    fn was_offered(&mut self, rt: &impl Abort, call: &Call, came: Came) -> bool {
        match came {
            Came::Done => {
                if self.put(rt, call.id, 0, call.delay, call.at) {
                    self.joined = self.joined.saturating_add(1);
                }
                true
            }
            Came::Fault => self.run.fails && call.delay == 0,
            Came::Memory | Came::Wanting => panic!(rt; "memory"),
            _ => false,
        }
    }

    fn was_given(&mut self, rt: &impl Abort, call: &Call, answer: &Answer) -> bool {
        match answer.came {
            Came::Sent => {
                answer.copy.stamp == 7
                    && answer.copy.letter == Some(b'm')
                    && self.sends(rt, call, answer.copy.id, answer.copy.attempts)
            }
            Came::Held => self.holds_back(rt, call, answer.copy.id),
            Came::Memory => panic!(rt; "memory"),
            came => self.is_why(call.who, came),
        }
    }

    // Whether a queued copy of this id, one attempt before these, could be sent to the client. Then it is, where the call is on.
    fn sends(&mut self, rt: &impl Abort, call: &Call, id: MsgId, attempts: u16) -> bool {
        if !self.is_open(call.who) || self.flying_at(id).is_some() {
            return false;
        }
        let Some(i) = self.queued_at(id, Some(attempts)) else {
            return false;
        };
        if call.on && self.take_at(i).is_some() {
            let due = call.at.saturating_add(time_of(call.who));
            self.fly(rt, call.who, id, attempts, due, call.at);
        }
        true
    }

    // Whether a queued copy of this id has to be held back from the client. Then it is, where the call is on.
    fn holds_back(&mut self, rt: &impl Abort, call: &Call, id: MsgId) -> bool {
        if !self.is_open(call.who) || self.flying_at(id).is_none() {
            return false;
        }
        let Some(i) = self.queued_at(id, None) else {
            return false;
        };
        if call.on {
            if let Some(copy) = self.take_at(i) {
                let _kept = self.put(rt, copy.id, copy.attempts, HELD, call.at);
            }
        }
        true
    }

    // Whether this is why the client is given nothing.
    fn is_why(&self, who: Who, came: Came) -> bool {
        match came {
            Came::NoCredit => !self.has_credit(who),
            Came::Paused => self.has_credit(who) && self.paused,
            Came::NoneQueued => self.is_open(who) && self.places().0 == 0,
            Came::Fault => self.may_fail() && self.is_open(who) && self.places().0 != 0,
            _ => false,
        }
    }

    // Whether the client has the copy in flight. Then it is finished, gets more time or is given back, or a fault keeps it, and it comes to its place anew.
    fn was_settled(&mut self, rt: &impl Abort, call: &Call, came: Came) -> bool {
        let Some((i, with, sent)) = self.flying_at(call.id) else {
            return matches!(came, Came::NotYours);
        };
        if with != call.who {
            return matches!(came, Came::NotYours);
        }
        let Some(copy) = self.take_at(i) else {
            return false;
        };
        match came {
            Came::Done => {
                self.settle(rt, call, copy, sent);
                true
            }
            Came::Fault => {
                self.copies.push(copy).expect(rt, "memory");
                self.run.fails && call.delay == 0
            }
            _ => false,
        }
    }

    fn settle(&mut self, rt: &impl Abort, call: &Call, copy: Kept, sent: u64) {
        match call.does {
            Does::Finish => {}
            Does::Touch => {
                let due = call
                    .at
                    .saturating_add(time_of(call.who))
                    .min(sent.saturating_add(LONGEST));
                self.fly(rt, call.who, copy.id, copy.attempts, due, sent);
            }
            _ => {
                let _kept = self.put(rt, copy.id, copy.attempts, call.delay, call.at);
                self.requeued = self.requeued.saturating_add(1);
            }
        }
    }

    // Whether the copy that is due first has this id and is where it was said to be. Then it is put back, or a fault keeps it, and it comes to its
    // place anew.
    fn has_moved(&mut self, rt: &impl Abort, now: u64, answer: &Answer) -> bool {
        let Some(i) = self.first_due(now) else {
            return matches!(answer.came, Came::Nothing);
        };
        let Some(copy) = self.take_at(i) else {
            return false;
        };
        let right = match answer.came {
            Came::TimedOut => matches!(copy.place, Place::InFlight(_, _, _)),
            Came::CameDue => matches!(copy.place, Place::Deferred(_)),
            Came::Stays => self.run.fails,
            _ => false,
        };
        self.put_due(rt, copy, now, answer.came);
        right && copy.id == answer.copy.id
    }

    fn put_due(&mut self, rt: &impl Abort, copy: Kept, now: u64, came: Came) {
        if matches!(came, Came::Stays) {
            self.copies.push(copy).expect(rt, "memory");
            return;
        }
        let _kept = self.put(rt, copy.id, copy.attempts, 0, now);
        if matches!(came, Came::TimedOut) {
            self.timed_out = self.timed_out.saturating_add(1);
        }
    }

    // A call that moves no single copy.
    fn was_done(&mut self, call: &Call, came: Came) -> bool {
        match came {
            Came::Done => self.does(call),
            Came::NotDue => matches!(call.does, Does::Sync),
            Came::Fault => self.may_fail(),
            _ => false,
        }
    }

    fn does(&mut self, call: &Call) -> bool {
        match call.does {
            Does::Ready => match call.who {
                Who::First => self.first_ready = call.count,
                Who::Second => self.second_ready = call.count,
            },
            Does::Pause => self.paused = call.on,
            Does::ComeAgain => self.second_ready = 0,
            Does::Sync => return !self.run.ephemeral,
            Does::Empty => self.copies.clear(),
            Does::Delete => self.delete(),
            _ => return false,
        }
        true
    }

    /// What a stop and a start leave: all copies are queued, and nothing is counted.
    pub fn restart(&mut self) {
        for copy in &mut self.copies {
            copy.place = Place::Queued;
        }
        self.paused = false;
        self.first_ready = 0;
        self.second_ready = 0;
        self.joined = 0;
        self.requeued = 0;
        self.timed_out = 0;
    }

    /// What a deletion leaves.
    pub fn delete(&mut self) {
        self.copies.clear();
        self.restart();
    }

    // A copy of this id and attempts is with the client from now on, until it is due.
    fn fly(&mut self, rt: &impl Abort, who: Who, id: MsgId, attempts: u16, due: u64, sent: u64) {
        let copy = Kept {
            id,
            attempts,
            place: Place::InFlight(who, due, sent),
        };
        self.copies.push(copy).expect(rt, "memory");
    }

    // Puts a copy where it waits; false where it is dropped.
    fn put(&mut self, rt: &impl Abort, id: MsgId, attempts: u16, delay: u64, now: u64) -> bool {
        let place = if delay != 0 {
            Place::Deferred(now.saturating_add(delay))
        } else if self.run.ephemeral && self.run.memory <= self.places().0 {
            return false;
        } else {
            Place::Queued
        };
        let copy = Kept {
            id,
            attempts,
            place,
        };
        self.copies.push(copy).expect(rt, "memory");
        true
    }

    fn take_at(&mut self, i: usize) -> Option<Kept> {
        if i >= self.copies.len() {
            return None;
        }
        Some(self.copies.remove(i))
    }
}

// How long a client has for a message.
fn time_of(who: Who) -> u64 {
    match who {
        Who::First => FIRST_TIME,
        Who::Second => SECOND_TIME,
    }
}

// The place and the due moment of what is due sooner.
fn sooner(first: Option<(usize, u64)>, i: usize, due: u64, now: u64) -> Option<(usize, u64)> {
    if now < due {
        return first;
    }
    match first {
        Some((_, soonest)) if soonest <= due => first,
        _ => Some((i, due)),
    }
}
