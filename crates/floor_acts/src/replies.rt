ghost use Rattle.std.specs.Prelude.{◌≡◌, ◌≤◌, if◌then◌else◌, codes, length, IfOk};
ghost use Rattle.broker_history.specs.State.{is_fresh, is_subscribed};
ghost use Rattle.broker_history.specs.Reply.{delayed_reply, flight_reply, ok_frame, publish_reply, ready_reply, response, wrong_state};
ghost use Rattle.floor_acts.specs.Replies.{IsShort, IsShortFrame};

use crate::frames::{error, frame, ok_frame, wrong_state};
use crate::numbers::{are_left, is_count_to, is_span_to};
use floor_rooms::Client;
use nsq_base::{Bodies, Memory, Options};
use std::alloc::Global;
use v2_frame::{Frame, FrameKind};

// The reply to SUB.
pub(crate) fn subscribe_reply(alloc: Global, client: &Client) -> Result<Frame, Memory>
    ensures value { IfOk result (λ frame. frame ≡ (if is_fresh client.now.phase then ok_frame else wrong_state)) }
    ensures short { IfOk result IsShortFrame }
{
    if client.is_fresh() {
        ok_frame(alloc)
    } else {
        wrong_state(alloc)
    }
}

// The reply to CLS.
pub(crate) fn close_reply(alloc: Global, client: &Client) -> Result<Frame, Memory>
    ensures value { IfOk result (λ frame. frame ≡ (if is_subscribed client.now.phase then response (codes "CLOSE_WAIT") else wrong_state)) }
    ensures short { IfOk result IsShortFrame }
{
    if client.is_subscribed() {
        frame(alloc, FrameKind::Response, b"CLOSE_WAIT")
    } else {
        wrong_state(alloc)
    }
}

// The reply to a publish of so many messages, where so many ids were used.
pub(crate) fn publish_reply(
    alloc: Global,
    used: u64,
    word: &[u8],
    count: u64,
) -> Result<Frame, Memory>
    requires { length word.now ≤ 100 }
    ensures value { IfOk result (λ frame. frame ≡ publish_reply used word.now count) }
    ensures short { IfOk result IsShortFrame }
{
    if are_left(used, count) {
        ok_frame(alloc)
    } else {
        error(alloc, word, b" ids spent")
    }
}

// The reply to MPUB.
pub(crate) fn batch_reply(alloc: Global, used: u64, bodies: &Bodies) -> Result<Frame, Memory>
    ensures value { IfOk result (λ frame. frame ≡ publish_reply used (codes "E_MPUB_FAILED") (length bodies.now)) }
    ensures short { IfOk result IsShortFrame }
{
    let count = bodies.count() as u64;
    publish_reply(alloc, used, b"E_MPUB_FAILED", count)
}

// The reply to DPUB.
pub(crate) fn delayed_reply(
    alloc: Global,
    options: &Options,
    used: u64,
    delay: i64,
) -> Result<Frame, Memory>
    ensures value { IfOk result (λ frame. frame ≡ delayed_reply options.now used delay) }
    ensures short { IfOk result IsShortFrame }
{
    if is_span_to(options.max_req_timeout, delay) {
        publish_reply(alloc, used, b"E_DPUB_FAILED", 1)
    } else {
        error(alloc, b"E_INVALID", b" bad delay")
    }
}

// The reply to RDY.
pub(crate) fn ready_reply(
    alloc: Global,
    options: &Options,
    client: &Client,
    count: i64,
) -> Result<Option<Frame>, Memory>
    ensures value { IfOk result (λ reply. reply ≡ ready_reply options.now client.now.phase count) }
    ensures short { IfOk result IsShort }
{
    if client.is_fresh() {
        return Ok(Some(wrong_state(alloc)?));
    }
    if !client.is_subscribed() {
        return Ok(None);
    }
    if is_count_to(options.max_rdy_count, count) {
        return Ok(None);
    }
    Ok(Some(error(alloc, b"E_INVALID", b" bad count")?))
}

// The reply to a command on a message.
pub(crate) fn flight_reply(
    alloc: Global,
    client: &Client,
    word: &[u8],
    flies: bool,
) -> Result<Option<Frame>, Memory>
    requires { length word.now ≤ 100 }
    ensures value { IfOk result (λ reply. reply ≡ flight_reply client.now.phase word.now flies) }
    ensures short { IfOk result IsShort }
{
    if client.is_fresh() {
        return Ok(Some(wrong_state(alloc)?));
    }
    if flies {
        return Ok(None);
    }
    Ok(Some(error(alloc, word, b" message not in flight")?))
}
