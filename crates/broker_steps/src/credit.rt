use broker_changes::channels::{can_send, has_credit};
use broker_state::{ChannelState, Client, Phase, State};

// Whether so many spans of time passed since a moment.
fn have_passed(since: u64, span: u64, times: u64, at: u64) -> bool {
    u128::from(since) + u128::from(times) * u128::from(span) <= u128::from(at)
}

// Whether the client was silent (`is_silent`) for two heartbeat intervals: since its last command, or else since it began.
pub(crate) fn is_silent(at: u64, client: &Client) -> bool {
    match client.heartbeat {
        None => false,
        Some(interval) => have_passed(client.last_command, interval, 2, at),
    }
}

// Whether a heartbeat is due to the client (`is_beat_due`).
pub(crate) fn is_beat_due(at: u64, client: &Client) -> bool {
    match client.heartbeat {
        None => false,
        Some(interval) => have_passed(client.beat_from, interval, 1, at),
    }
}

// Whether the client's channel was deleted.
pub(crate) fn is_lost(client: &Client) -> bool {
    client.phase == Phase::Lost
}

// Whether neither the client's channel is gone, nor it was silent, nor a heartbeat is due (`is_quiet`).
fn is_quiet(at: u64, client: &Client) -> bool {
    if is_lost(client) {
        return false;
    }
    if is_silent(at, client) {
        return false;
    }
    !is_beat_due(at, client)
}

// Whether the client may get a message of its channel (`may_get`), as far as client and channel go.
fn may_get(client: &Client, channel: Option<&ChannelState>) -> bool {
    match channel {
        None => false,
        Some(channel) => {
            client.phase == Phase::Subscribed && has_credit(client.ready, client.number, channel)
        }
    }
}

// Whether there is a message that it may get (`has_message`).
fn has_message(channel: Option<&ChannelState>) -> bool {
    match channel {
        None => false,
        Some(channel) => can_send(&channel.copies),
    }
}

// Whether a client may be sent a message (`MayBeSent`), whatever stands in its channel.
pub(crate) fn may_be_sent(state: &State, at: u64, client: &Client) -> bool {
    if !is_quiet(at, client) {
        return false;
    }
    may_get(client, state.client_channel(&client.route))
}

// Whether nothing is to be sent to a client (`IsIdle`).
pub(crate) fn is_idle(state: &State, at: u64, client: &Client) -> bool {
    if !is_quiet(at, client) {
        return false;
    }
    if !may_get(client, state.client_channel(&client.route)) {
        return true;
    }
    !has_message(state.client_channel(&client.route))
}
