ghost use Rattle.std.specs.Prelude.{◌≡◌, ◌≤◌, ◌*◌, max, IfSome};
ghost use Rattle.nsq_base.specs.Time.{millisecond};
ghost use Rattle.serde_json.specs.Data.{Members, object};
ghost use Rattle.serde_json.specs.View.{view};
ghost use Rattle.broker_history.specs.Identify.{default_heartbeat, has_numbers, heartbeat_in, is_heartbeat, is_rate, is_span, is_timeout, timeout_in};
ghost use Rattle.negotiation.specs.Parts.{times_in, where_true};

use crate::members::number_in;
use nsq_base::Options;
use serde_json::Value;

// A millisecond in nanoseconds.
pub(crate) const MILLISECOND: u64 = 1_000_000;

// The time between two heartbeats that a client has where it asks for none, in nanoseconds.
const HEARTBEAT: u64 = 30_000_000_000;

// What a client said of times, in nanoseconds.
#[derive(Clone, Copy)]
pub(crate) struct Times {
    // The time between two heartbeats; None where they are off.
    pub heartbeat: Option<u64>,
    // How long it has for a message.
    pub timeout: u64,
}

// The times, where each member that must be a number is one, in its range.
pub(crate) fn times_in(options: &Options, value: &Value) -> Option<Times>
    ensures value { (ms : Members) → view value.now ≡ object ms → result ≡ where_true (has_numbers options.now ms) (times_in options.now ms) }
    ensures heartbeat { IfSome result (λ times. IfSome times.heartbeat (λ span. span ≤ options.now.max_heartbeat_interval)) }
    ensures timeout { IfSome result (λ times. times.timeout ≤ max options.now.msg_timeout options.now.max_msg_timeout) }
{
    let Some(heartbeat) = heartbeat_of(options, number_in(value, "heartbeat_interval")) else {
        return None;
    };
    let Some(timeout) = timeout_of(options, number_in(value, "msg_timeout")) else {
        return None;
    };
    if !is_rate(number_in(value, "sample_rate")) {
        return None;
    }
    if number_in(value, "output_buffer_size").is_none() {
        return None;
    }
    if number_in(value, "output_buffer_timeout").is_none() {
        return None;
    }
    if number_in(value, "deflate_level").is_none() {
        return None;
    }
    Some(Times { heartbeat, timeout })
}

// The time between two heartbeats by a number of milliseconds, and None within where they are off; None where it may be none.
fn heartbeat_of(options: &Options, number: Option<i128>) -> Option<Option<u64>>
    ensures value { result ≡ where_true (is_heartbeat options.now number) (heartbeat_in options.now number) }
    ensures most { IfSome result (λ heartbeat. IfSome heartbeat (λ span. span ≤ options.now.max_heartbeat_interval)) }
{
    let Some(ms) = number else {
        return None;
    };
    if ms == -1 {
        return Some(None);
    }
    if ms < 0 {
        return None;
    }
    if ms == 0 {
        return Some(Some(default_heartbeat(options)));
    }
    match span_of(options.max_heartbeat_interval, ms as u128) {
        Some(span) => Some(Some(span)),
        None => None,
    }
}

// How long a client has for a message, by a number of milliseconds; None where it may be none.
fn timeout_of(options: &Options, number: Option<i128>) -> Option<u64>
    ensures value { result ≡ where_true (is_timeout options.now number) (timeout_in options.now number) }
    ensures most { IfSome result (λ span. span ≤ max options.now.msg_timeout options.now.max_msg_timeout) }
{
    let Some(ms) = number else {
        return None;
    };
    if ms < 0 {
        return None;
    }
    if ms == 0 {
        return Some(options.msg_timeout);
    }
    span_of(options.max_msg_timeout, ms as u128)
}

// The time between two heartbeats of a client that asks for none of its own.
fn default_heartbeat(options: &Options) -> u64
    ensures { result ≡ default_heartbeat options.now }
{
    HEARTBEAT.min(options.max_heartbeat_interval)
}

// So many milliseconds, where they are a second at least, and this span at most.
fn span_of(most: u64, ms: u128) -> Option<u64>
    ensures value { result ≡ where_true (is_span most ms) (ms * millisecond) }
    ensures most { IfSome result (λ span. span ≤ most) }
{
    if ms < 1_000 {
        return None;
    }
    let Some(span) = ms.checked_mul(1_000_000) else {
        return None;
    };
    if u128::from(most) < span {
        return None;
    }
    Some(span as u64)
}

// Whether a client may ask for this part of the messages, in percent.
fn is_rate(number: Option<i128>) -> bool
    ensures { result ≡ is_rate number }
{
    match number {
        None => false,
        Some(rate) => 0 <= rate && rate <= 99,
    }
}
