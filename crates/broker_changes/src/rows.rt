ghost use Rattle.std.specs.Prelude.{◌≡◌, ◌↔◌, IfOk, IsTrue};
ghost use Rattle.broker_history.specs.State.{IsSame, raised};
ghost use Rattle.broker_state.specs.Places.{place_of};
ghost use Rattle.broker_changes.specs.Rows.{sent_at};

use broker_state::{ChannelState, MessageCopy, Place};
use nsq_base::{Memory, MsgId};
use std::alloc::Global;
use v2_frame::Message;

// What makes one copy of a channel another (`IsFinished` to `IsHeldBack`). Moments and spans are in nanoseconds.
#[derive(Clone, Copy)]
pub(crate) enum Row {
    // A copy in flight with the client is finished.
    Finished(u64, MsgId),
    // A copy in flight with the client is due after a time from a moment on, and no later than so long after it was sent.
    Touched(u64, MsgId, u64, u64, u64),
    // A copy in flight with the client goes to a place.
    GivenBack(u64, MsgId, Place),
    // A copy in flight, with whomever, was due at a moment, and goes to a place.
    TimedOut(MsgId, u64, Place),
    // A deferred copy was due at a moment, and goes to a place.
    CameDue(MsgId, u64, Place),
    // A queued copy is deferred until a moment.
    HeldBack(MsgId, u128),
}

// What becomes of a copy.
#[derive(Clone, Copy)]
enum Change {
    // It gets one more attempt, and goes to a place.
    Raised(Place),
    // It goes to a place.
    Moved(Place),
}

// The channels that one copy's becoming another by the row makes of this one (`Moves`): one for each copy that may.
pub(crate) fn moved(
    alloc: Global,
    channel: &ChannelState,
    row: &Row,
) -> Result<Vec<ChannelState>, Memory> {
    let copies = channel.copies.as_slice();
    let mut made = Vec::new(alloc);
    for i in 0..copies.len() {
        match change_by(&copies[i], row) {
            Some(change) => put_made(&mut made, with_changed(alloc, channel, i, change))?,
            None => {}
        }
    }
    Ok(made)
}

// The channels that a queued copy's becoming this message with one more attempt, in flight, makes of this one (`Moves` by `IsSent`).
pub(crate) fn sent(
    alloc: Global,
    channel: &ChannelState,
    message: &Message,
    in_flight: Place,
) -> Result<Vec<ChannelState>, Memory> {
    let copies = channel.copies.as_slice();
    let mut made = Vec::new(alloc);
    for i in 0..copies.len() {
        if is_sent(&copies[i], message) {
            let change = Change::Raised(in_flight);
            put_made(&mut made, with_changed(alloc, channel, i, change))?;
        }
    }
    Ok(made)
}

// Whether the copy is queued, and becomes this message with one more attempt.
fn is_sent(copy: &MessageCopy, message: &Message) -> bool {
    copy.place.is_queued() && is_raised(&copy.message, message)
}

// The channel whose copy at a place is changed.
fn with_changed(
    alloc: Global,
    channel: &ChannelState,
    i: usize,
    change: Change,
) -> Result<ChannelState, Memory> {
    let copies = copies_with(alloc, &channel.copies, i, change)?;
    Ok(channel.with_copies(copies))
}

// The copies, of which the one at a place is changed.
fn copies_with(
    alloc: Global,
    copies: &[MessageCopy],
    i: usize,
    change: Change,
) -> Result<Vec<MessageCopy>, Memory> {
    let mut all = Vec::new(alloc);
    for j in 0..copies.len() {
        put_made(&mut all, changed_if(alloc, &copies[j], i == j, change))?;
    }
    Ok(all)
}

// The copy, changed where it is chosen.
fn changed_if(
    alloc: Global,
    copy: &MessageCopy,
    is_chosen: bool,
    change: Change,
) -> Result<MessageCopy, Memory> {
    if is_chosen {
        changed(alloc, copy, change)
    } else {
        copy.copy(alloc)
    }
}

// The copy after a change.
fn changed(alloc: Global, copy: &MessageCopy, change: Change) -> Result<MessageCopy, Memory> {
    match change {
        Change::Raised(place) => Ok(MessageCopy {
            message: raised(alloc, &copy.message)?,
            place,
        }),
        Change::Moved(place) => copy.at(alloc, place),
    }
}

// What becomes of the copy by the row; None where the row isn't one of this copy.
fn change_by(copy: &MessageCopy, row: &Row) -> Option<Change> {
    match row {
        Row::Finished(client, id) => given_back(copy, *client, id, Place::Finished),
        Row::Touched(client, id, at, timeout, most) => {
            touched(copy, *client, id, *at, *timeout, *most)
        }
        Row::GivenBack(client, id, place) => given_back(copy, *client, id, *place),
        Row::TimedOut(id, at, back) => timed_out(copy, id, *at, *back),
        Row::CameDue(id, at, back) => came_due(copy, id, *at, *back),
        Row::HeldBack(id, until) => held_back(copy, id, *until),
    }
}

// The move to a place, where it is one.
fn moved_if(is_one: bool, place: Place) -> Option<Change> {
    if is_one {
        Some(Change::Moved(place))
    } else {
        None
    }
}

// Whether one message is the other with one more attempt, but for their delays.
fn is_raised(message: &Message, more: &Message) -> bool {
    message.stamp == more.stamp
        && message.attempts.saturating_add(1) == more.attempts
        && same(message.id.bytes(), more.id.bytes())
        && same(message.body.bytes(), more.body.bytes())
}

// A copy in flight with the client is due after the client's time from now on, and no later than so long after it was sent.
fn touched(
    copy: &MessageCopy,
    client: u64,
    id: &MsgId,
    at: u64,
    timeout: u64,
    most: u64,
) -> Option<Change> {
    let Some(sent) = sent_at(copy.place, client) else {
        return None;
    };
    let wanted = u128::from(at) + u128::from(timeout);
    let last = u128::from(sent) + u128::from(most);
    let due = wanted.min(last);
    moved_if(copy.is_of(id), Place::InFlight { client, due, sent })
}

// The moment at which a copy was sent that is in flight with the client.
fn sent_at(place: Place, number: u64) -> Option<u64>
    ensures { result ≡ sent_at number (place_of place) }
{
    match place {
        Place::InFlight { client, sent, .. } => if client == number { Some(sent) } else { None },
        _ => None,
    }
}

// A copy in flight with the client goes to a place.
fn given_back(copy: &MessageCopy, client: u64, id: &MsgId, place: Place) -> Option<Change> {
    moved_if(copy.place.is_with(client) && copy.is_of(id), place)
}

// A copy in flight was due.
fn timed_out(copy: &MessageCopy, id: &MsgId, at: u64, back: Place) -> Option<Change> {
    let place = copy.place;
    moved_if(
        place.is_in_flight() && place.is_due(at) && copy.is_of(id),
        back,
    )
}

// A deferred copy was due.
fn came_due(copy: &MessageCopy, id: &MsgId, at: u64, back: Place) -> Option<Change> {
    let place = copy.place;
    moved_if(
        place.is_deferred() && place.is_due(at) && copy.is_of(id),
        back,
    )
}

// A queued copy is deferred.
fn held_back(copy: &MessageCopy, id: &MsgId, until: u128) -> Option<Change> {
    moved_if(
        copy.place.is_queued() && copy.is_of(id),
        Place::Deferred { due: until },
    )
}

// A message after one more attempt; there are 65535 at most.
fn raised(alloc: Global, message: &Message) -> Result<Message, Memory>
    ensures { IfOk result (λ more. more ≡ raised message.now) }
{
    let mut raised = message.copy(alloc)?;
    raised.attempts = raised.attempts.saturating_add(1);
    Ok(raised)
}

// Whether two messages are the same (`IsSame`): all but their delays are.
pub(crate) fn is_same(a: &Message, b: &Message) -> bool
    ensures { IsTrue result ↔ IsSame a.now b.now }
{
    a.stamp == b.stamp
        && a.attempts == b.attempts
        && same(a.id.bytes(), b.id.bytes())
        && same(a.body.bytes(), b.body.bytes())
}

// Adds one that was made behind a list, where memory didn't want. It goes with the refusal where memory is wanting.
pub(crate) fn put_made<T: Drop>(list: &mut Vec<T>, made: Result<T, Memory>) -> Result<(), Memory> {
    list.push(made?)?;
    Ok(())
}

// Removes the one at a place of a list, if one stands there.
pub(crate) fn remove_at<T: Drop>(list: &mut Vec<T>, place: usize) {
    if place < list.len() {
        drop(list.remove(place));
    }
}

// What was changed in place, where memory didn't want.
pub(crate) fn if_done<T: Drop>(changed: T, done: Result<(), Memory>) -> Result<T, Memory> {
    done?;
    Ok(changed)
}

// Whether two texts are equal.
pub(crate) fn same(one: &[u8], other: &[u8]) -> bool
    ensures { IsTrue result ↔ (one.now ≡ other.now) }
{
    one == other
}
