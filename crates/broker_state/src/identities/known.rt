use super::{accepts, number_in};
use nsq_base::{Body, Memory, Options};
use serde_json::Value;
use std::alloc::Global;

// A millisecond in nanoseconds.
const MILLISECOND: u64 = 1_000_000;

// The longest heartbeat interval of a client that asks for none of its own.
const HEARTBEAT: u64 = 30_000_000_000;

/// What a client said of itself (`Identity`). Spans are in nanoseconds.
#[derive(Drop)]
pub struct Identity {
    /// Its text, empty where it said nothing.
    pub client_id: Body,
    /// Its text, empty where it said nothing.
    pub hostname: Body,
    /// Its text, empty where it said nothing.
    pub user_agent: Body,
    /// Its heartbeat interval, unless that is off.
    pub heartbeat: Option<u64>,
    /// How long it has for a message.
    pub timeout: u64,
}

/// What a client says of itself with a body (`identity_of`); None where the body is refused. Want of memory is the only error. It has no
/// contract: it is a second reading of the definition by hand.
pub fn identity_of(
    alloc: Global,
    options: &Options,
    body: &[u8],
) -> Result<Option<Identity>, Memory> {
    match Value::from_slice(alloc, body) {
        Ok(value) => identity_in(alloc, options, &value),
        Err(error) => if error.is_memory() {
            Err(Memory)
        } else {
            Ok(None)
        },
    }
}

// What it says by the value of its JSON.
fn identity_in(
    alloc: Global,
    options: &Options,
    value: &Value,
) -> Result<Option<Identity>, Memory> {
    if value.is_object() && accepts(options, value) {
        Ok(Some(said_in(alloc, options, value)?))
    } else {
        Ok(None)
    }
}

// What it says by an object that is accepted.
fn said_in(alloc: Global, options: &Options, value: &Value) -> Result<Identity, Memory> {
    let client_id = text_in(alloc, value, "client_id")?;
    let hostname = text_in(alloc, value, "hostname")?;
    let user_agent = text_in(alloc, value, "user_agent")?;
    Ok(with_texts(options, value, client_id, hostname, user_agent))
}

// What it says besides these texts.
fn with_texts(
    options: &Options,
    value: &Value,
    client_id: Body,
    hostname: Body,
    user_agent: Body,
) -> Identity {
    Identity {
        client_id,
        hostname,
        user_agent,
        heartbeat: heartbeat_in(options, number_in(value, "heartbeat_interval")),
        timeout: timeout_in(options, number_in(value, "msg_timeout")),
    }
}

// The text that a member is, empty where it is none.
fn text_in(alloc: Global, value: &Value, key: &str) -> Result<Body, Memory> {
    Body::copy(alloc, text_of(value.get(key)).as_bytes())
}

// The text of a member, empty where it is none.
fn text_of(member: Option<&Value>) -> &str {
    match member {
        Some(member) => match member.as_str() {
            Some(text) => text,
            None => "",
        },
        None => "",
    }
}

/// The heartbeat interval of a client that asks for none of its own, in nanoseconds (`default_heartbeat`).
pub fn default_heartbeat(options: &Options) -> u64 {
    options.max_heartbeat_interval.min(HEARTBEAT)
}

// The heartbeat interval that a client asks for, None where it is to be off.
fn heartbeat_in(options: &Options, number: Option<i128>) -> Option<u64> {
    let Some(ms) = number else {
        return Some(default_heartbeat(options));
    };
    if ms < 0 {
        return None;
    }
    if ms == 0 {
        return Some(default_heartbeat(options));
    }
    Some(span_of(ms as u128))
}

// How long a client asks to have for a message.
fn timeout_in(options: &Options, number: Option<i128>) -> u64 {
    match number {
        None => options.msg_timeout,
        Some(ms) => if ms <= 0 {
            options.msg_timeout
        } else {
            span_of(ms as u128)
        },
    }
}

// So many milliseconds, at most 2^64 - 1 nanoseconds.
fn span_of(ms: u128) -> u64 {
    let span = ms.saturating_mul(u128::from(MILLISECOND));
    if span > u128::from(u64::MAX) {
        return u64::MAX;
    }
    span as u64
}
