ghost use Rattle.std.specs.Prelude.{◌≡◌, ◌&&◌, count_by, IfOk};
ghost use Rattle.std.specs.Str.{bytes_eq};
ghost use Rattle.broker_history.specs.State as state;
ghost use Rattle.broker_state.specs.Places.{place_of};
ghost use Rattle.broker_state.specs.Tests.{passes};

use crate::growing::{Copied, copy_each};
use crate::place::Place;
use crate::texts::same;
use nsq_base::{Memory, MsgId};
use std::alloc::Global;
use std::marker::Model;
use v2_frame::Message;

/// A channel's copy of a message, whose delay is spent, and so is 0.
#[derive(Drop)]
pub struct MessageCopy {
    /// The message.
    pub message: Message,
    /// Where the copy is.
    pub place: Place,
}

impl Model for MessageCopy {
    ghost use Rattle.broker_history.specs.State.{Copy};
    ghost use Rattle.broker_state.specs.Places.{place_of};

    ghost Value = { Copy };

    ghost view = { λ c. record { message = c.message; place = place_of c.place } };
}

impl Copied for MessageCopy {
    fn copied(&self, alloc: Global) -> Result<MessageCopy, Memory> {
        self.copy(alloc)
    }
}

impl MessageCopy {
    /// A copy of it. Want of memory is the only error.
    pub fn copy(&self, alloc: Global) -> Result<MessageCopy, Memory>
        ensures { IfOk result (λ copy. copy ≡ self.now) }
    {
        self.at(alloc, self.place)
    }

    /// The same message at another place. Want of memory is the only error.
    pub fn at(&self, alloc: Global, place: Place) -> Result<MessageCopy, Memory>
        ensures { IfOk result (λ copy. copy ≡ record self.now { place = place_of place }) }
    {
        Ok(MessageCopy {
            message: self.message.copy(alloc)?,
            place,
        })
    }

    /// Whether its message has this id.
    pub fn is_of(&self, id: &MsgId) -> bool
        ensures { result ≡ bytes_eq id.now self.now.message.id }
    {
        same(id.bytes(), self.message.id.bytes())
    }

    // Whether its place passes the test, and its message has this id.
    fn passes_of(&self, test: Test, id: &MsgId) -> bool
        ensures { result ≡ (passes test self.now.place && bytes_eq id.now self.now.message.id) }
    {
        test.passes(self.place) && self.is_of(id)
    }
}

// What is asked of a copy's place.
#[derive(Clone, Copy)]
pub(crate) enum Test {
    Queued,
    InFlight,
    Deferred,
    With(u64),
}

impl Test {
    // Whether a place passes it.
    fn passes(self, place: Place) -> bool
        ensures { result ≡ passes self (place_of place) }
    {
        match self {
            Test::Queued => place.is_queued(),
            Test::InFlight => place.is_in_flight(),
            Test::Deferred => place.is_deferred(),
            Test::With(number) => place.is_with(number),
        }
    }
}

// How many copies' places pass the test.
fn count(copies: &[MessageCopy], test: Test) -> usize
    ensures { result ≡ count_by (λ (x : state.Copy). passes test x.place) copies.now }
{
    let mut count = 0;
    for copy in copies {
        if test.passes(copy.place) {
            count += 1;
        }
    }
    count
}

// How many of the copies of this id have places that pass the test.
fn count_of(copies: &[MessageCopy], test: Test, id: &MsgId) -> usize
    ensures { result ≡ count_by (λ (x : state.Copy). passes test x.place && bytes_eq id.now x.message.id) copies.now }
{
    let mut count = 0;
    for copy in copies {
        if copy.passes_of(test, id) {
            count += 1;
        }
    }
    count
}

/// How many copies wait to be sent.
pub fn queued(copies: &[MessageCopy]) -> usize
    ensures { result ≡ state.queued copies.now }
{
    count(copies, Test::Queued)
}

/// How many copies are in flight.
pub fn in_flight(copies: &[MessageCopy]) -> usize
    ensures { result ≡ state.in_flight copies.now }
{
    count(copies, Test::InFlight)
}

/// How many copies are deferred.
pub fn deferred(copies: &[MessageCopy]) -> usize
    ensures { result ≡ state.deferred copies.now }
{
    count(copies, Test::Deferred)
}

/// How many copies are in flight with a client.
pub fn flying(number: u64, copies: &[MessageCopy]) -> usize
    ensures { result ≡ state.flying number copies.now }
{
    count(copies, Test::With(number))
}

/// How many copies of an id are in flight.
pub fn flying_of(id: &MsgId, copies: &[MessageCopy]) -> usize
    ensures { result ≡ state.flying_of id.now copies.now }
{
    count_of(copies, Test::InFlight, id)
}

/// How many copies of an id are in flight with a client.
pub fn flying_with(number: u64, id: &MsgId, copies: &[MessageCopy]) -> usize
    ensures { result ≡ state.flying_with number id.now copies.now }
{
    count_of(copies, Test::With(number), id)
}

/// Copies of copies. Want of memory is the only error.
pub fn copy_all(alloc: Global, copies: &[MessageCopy]) -> Result<Vec<MessageCopy>, Memory>
    ensures { IfOk result (λ all. all.items ≡ copies.now) }
{
    copy_each(alloc, copies)
}
