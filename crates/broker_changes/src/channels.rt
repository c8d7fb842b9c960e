ghost use Rattle.std.specs.Prelude.{◌≡◌};
ghost use Rattle.broker_history.specs.State as state;
ghost use Rattle.broker_history.specs.Channels as rows;
ghost use Rattle.broker_state.specs.Places.{place_of};
ghost use Rattle.broker_changes.specs.Rooms.{room_of};

use crate::rows::{Row, moved, put_made, sent};
use broker_state::{ChannelState, MessageCopy, Place, copy_all, flying, flying_of, queued};
use nsq_base::{Memory, MsgId};
use std::alloc::Global;
use v2_frame::Message;

/// How much room a channel has (`Room`).
#[derive(Clone, Copy)]
pub struct Room {
    /// Whether it is ephemeral.
    pub ephemeral: bool,
    /// How many copies find room in memory.
    pub mem: u64,
}

// Where a copy goes that is put back, where so many are queued already.
fn put_back(ephemeral: bool, mem: u64, queued: u64) -> Place
    ensures { place_of result ≡ rows.put_back ephemeral mem queued }
{
    if ephemeral && mem <= queued {
        Place::Dropped
    } else {
        Place::Queued
    }
}

// Where a copy goes that is to wait for so long from this moment on: back at once where it isn't to wait.
fn put_off(at: u64, delay: u64, back: Place) -> Place
    ensures { place_of result ≡ rows.put_off at delay (place_of back) }
{
    if delay == 0 {
        back
    } else {
        Place::Deferred {
            due: u128::from(at) + u128::from(delay),
        }
    }
}

/// A count after one more; it stays at 2^64 - 1.
pub fn counted(count: u64) -> u64
    ensures { result ≡ state.counted count }
{
    count.saturating_add(1)
}

// Where a copy of this channel goes that is put back now.
fn back_in(room: Room, channel: &ChannelState) -> Place
    ensures { place_of result ≡ rows.back_in (room_of room) channel.now }
{
    put_back(room.ephemeral, room.mem, queued(&channel.copies) as u64)
}

/// The channels that a message's being sent to a client, at a moment and for its time, makes of one (`Sends`): one for each copy that it
/// may be of. Want of memory is the only error, here and below.
pub fn sends(
    alloc: Global,
    channel: &ChannelState,
    client: u64,
    at: u64,
    timeout: u64,
    message: &Message,
) -> Result<Vec<ChannelState>, Memory> {
    let in_flight = Place::InFlight {
        client,
        due: u128::from(at) + u128::from(timeout),
        sent: at,
    };
    sent(alloc, channel, message, in_flight)
}

/// The channels that FIN makes of one (`Finishes`).
pub fn finishes(
    alloc: Global,
    channel: &ChannelState,
    client: u64,
    id: &MsgId,
) -> Result<Vec<ChannelState>, Memory> {
    moved(alloc, channel, &Row::Finished(client, *id))
}

/// The channels that TOUCH makes of one (`Touches`): the copy is due after the client's time, and no later than `most` after it was sent.
pub fn touches(
    alloc: Global,
    channel: &ChannelState,
    client: u64,
    id: &MsgId,
    at: u64,
    timeout: u64,
    most: u64,
) -> Result<Vec<ChannelState>, Memory> {
    let row = Row::Touched(client, *id, at, timeout, most);
    moved(alloc, channel, &row)
}

/// The channels that REQ makes of one (`GivesBack`), which is counted: the copy goes back at once, or after a delay.
pub fn gives_back(
    alloc: Global,
    channel: &ChannelState,
    room: Room,
    client: u64,
    id: &MsgId,
    at: u64,
    delay: u64,
) -> Result<Vec<ChannelState>, Memory> {
    let place = put_off(at, delay, back_in(room, channel));
    let mut counting = channel.copy(alloc)?;
    counting.requeue_count = counted(channel.requeue_count);
    moved(alloc, &counting, &Row::GivenBack(client, *id, place))
}

/// The channels that TimedOut makes of one (`TimesOut`), which is counted.
pub fn times_out(
    alloc: Global,
    channel: &ChannelState,
    room: Room,
    id: &MsgId,
    at: u64,
) -> Result<Vec<ChannelState>, Memory> {
    let back = back_in(room, channel);
    let mut counting = channel.copy(alloc)?;
    counting.timeout_count = counted(channel.timeout_count);
    moved(alloc, &counting, &Row::TimedOut(*id, at, back))
}

/// The channels that CameDue makes of one (`ComesDue`).
pub fn comes_due(
    alloc: Global,
    channel: &ChannelState,
    room: Room,
    id: &MsgId,
    at: u64,
) -> Result<Vec<ChannelState>, Memory> {
    let back = back_in(room, channel);
    moved(alloc, channel, &Row::CameDue(*id, at, back))
}

/// The channels that HeldBack makes of one (`HoldsBack`): a queued copy whose id is in flight is deferred until a moment.
pub fn holds_back(
    alloc: Global,
    channel: &ChannelState,
    id: &MsgId,
    until: u128,
) -> Result<Vec<ChannelState>, Memory> {
    if flying_of(id, &channel.copies) == 0 {
        return Ok(Vec::new(alloc));
    }
    moved(alloc, channel, &Row::HeldBack(*id, until))
}

// What Copied makes of it (`Gets`): a copy of the message joins, deferred where the message has a delay, which counts from now on.
pub(crate) fn gets(
    alloc: Global,
    channel: &ChannelState,
    room: Room,
    at: u64,
    message: &Message,
) -> Result<ChannelState, Memory> {
    let place = put_off(at, message.delay, back_in(room, channel));
    let mut copies = copy_all(alloc, &channel.copies)?;
    put_made(&mut copies, copy_at(alloc, message, place))?;
    let mut got = channel.with_copies(copies);
    if !is_dropped(place) {
        got.message_count = counted(got.message_count);
    }
    Ok(got)
}

// A copy of the message at a place, its delay spent.
fn copy_at(alloc: Global, message: &Message, place: Place) -> Result<MessageCopy, Memory> {
    let mut message = message.copy(alloc)?;
    message.delay = 0;
    Ok(MessageCopy { message, place })
}

// Whether it was dropped.
fn is_dropped(place: Place) -> bool {
    match place {
        Place::Dropped => true,
        _ => false,
    }
}

// Empties a channel of these copies (`emptied_all`): each that wasn't done with is now.
pub(crate) fn empty(copies: &mut Vec<MessageCopy>) {
    for copy in copies {
        if copy.place.is_live() {
            copy.place = Place::Emptied;
        }
    }
}

/// Whether a client that asked for so many messages may be sent one, as far as the channel goes (`has_credit`).
pub fn has_credit(ready: u64, client: u64, channel: &ChannelState) -> bool {
    if channel.paused {
        return false;
    }
    (flying(client, &channel.copies) as u64) < ready
}

/// Whether some queued copy's id isn't in flight in the channel (`can_send`).
pub fn can_send(copies: &[MessageCopy]) -> bool {
    for copy in copies {
        if copy.place.is_queued() && flying_of(&copy.message.id, copies) == 0 {
            return true;
        }
    }
    false
}

// Whether a copy in flight or deferred was due.
pub(crate) fn has_due(at: u64, copies: &[MessageCopy]) -> bool {
    for copy in copies {
        if copy.place.is_due(at) {
            return true;
        }
    }
    false
}
