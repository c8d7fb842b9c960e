ghost use Rattle.std.specs.Prelude.{◌≡◌, IfOk, IfSome, option_and_then, option_map};
ghost use Rattle.serde_json.specs.Data.{Members, object};
ghost use Rattle.serde_json.specs.Find.{as_object};
ghost use Rattle.serde_json.specs.View.{view};
ghost use Rattle.broker_history.specs.Identify.{accepted, has_flags, has_texts, identity_of};
ghost use Rattle.negotiation.specs.Parts.{negotiates_in, texts_in, where_true};
ghost use Rattle.negotiation.specs.Said.{said, IsTimely};

use crate::members::{flag_in, is_flag, text_in};
use crate::times::times_in;
use nsq_base::{Body, Memory, Options};
use serde_json::Value;
use std::alloc::Global;

/// What a client said of itself with IDENTIFY. What it didn't say is as without IDENTIFY.
#[derive(Drop)]
pub struct Identity {
    /// The name that it goes by, in UTF-8; empty where it gave none.
    pub client_id: Body,
    /// The name of its machine, in UTF-8; empty where it gave none.
    pub hostname: Body,
    /// The name of its program, in UTF-8; empty where it gave none.
    pub user_agent: Body,
    /// Whether it wants to be answered in JSON.
    pub negotiates: bool,
    /// The time between two heartbeats in nanoseconds, at most the longest one of the options; None where they are off.
    pub heartbeat: Option<u64>,
    /// How long it has for a message, in nanoseconds, at most the longest time of the options.
    pub timeout: u64,
}

/// Reads the body of an IDENTIFY, an object in JSON; None where it is refused: it isn't such an object in UTF-8, it nests more
/// than 127 deep, or a member is of another kind than it must be or out of its range. Unknown members are ignored, a null one
/// counts as absent, and of a member that is given twice the last one counts. Times are at most the longest that the options
/// have. Want of memory is the only error.
pub fn read_identity(
    alloc: Global,
    options: &Options,
    body: &[u8],
) -> Result<Option<Identity>, Memory>
    ensures value { IfOk result (λ found. option_map said found ≡ identity_of options.now body.now) }
    ensures timely { IfOk result (λ found. IfSome found (IsTimely options.now)) }
{
    match Value::from_slice(alloc, body) {
        Ok(value) => identity_in(alloc, options, &value),
        Err(error) => {
            if error.is_memory() {
                Err(Memory)
            } else {
                Ok(None)
            }
        }
    }
}

// What a client said, by the value of its JSON.
fn identity_in(alloc: Global, options: &Options, value: &Value) -> Result<Option<Identity>, Memory>
    ensures value { IfOk result (λ found. option_map said found ≡ option_and_then (accepted options.now) (as_object (view value.now))) }
    ensures timely { IfOk result (λ found. IfSome found (IsTimely options.now)) }
{
    if !value.is_object() {
        return Ok(None);
    }
    let Some(negotiates) = negotiates_in(value) else {
        return Ok(None);
    };
    let Some(times) = times_in(options, value) else {
        return Ok(None);
    };
    let Some(texts) = texts_in(alloc, value)? else {
        return Ok(None);
    };
    Ok(Some(Identity {
        client_id: texts.client_id,
        hostname: texts.hostname,
        user_agent: texts.user_agent,
        negotiates,
        heartbeat: times.heartbeat,
        timeout: times.timeout,
    }))
}

// The truth value that counts, where each member that must be one is one.
fn negotiates_in(value: &Value) -> Option<bool>
    ensures { (ms : Members) → view value.now ≡ object ms → result ≡ where_true (has_flags ms) (negotiates_in ms) }
{
    if !is_flag(value, "feature_negotiation") {
        return None;
    }
    if !is_flag(value, "tls_v1") {
        return None;
    }
    if !is_flag(value, "snappy") {
        return None;
    }
    if !is_flag(value, "deflate") {
        return None;
    }
    Some(flag_in(value, "feature_negotiation"))
}

// A client's texts.
#[derive(Drop)]
struct Texts {
    client_id: Body,
    hostname: Body,
    user_agent: Body,
}

// The texts, where each member that must be one is one.
fn texts_in(alloc: Global, value: &Value) -> Result<Option<Texts>, Memory>
    ensures { IfOk result (λ texts. (ms : Members) → view value.now ≡ object ms → texts ≡ where_true (has_texts ms) (texts_in ms)) }
{
    let Some(client_id) = text_in(alloc, value, "client_id")? else {
        return Ok(None);
    };
    let Some(hostname) = text_in(alloc, value, "hostname")? else {
        return Ok(None);
    };
    let Some(user_agent) = text_in(alloc, value, "user_agent")? else {
        return Ok(None);
    };
    Ok(Some(Texts {
        client_id,
        hostname,
        user_agent,
    }))
}
