ghost use Rattle.std.specs.Prelude.{◌≡◌, IfOk};
ghost use Rattle.serde_json.specs.Find.{get};
ghost use Rattle.serde_json.specs.View.{view};
ghost use Rattle.broker_history.specs.Identify.{flag_in, is_flag, is_text, number_in, text_in};
ghost use Rattle.negotiation.specs.Parts.{where_true};

use nsq_base::{Body, Memory};
use serde_json::Value;
use std::alloc::Global;

// The text that a member is, empty where it is absent; None where it is anything else.
pub(crate) fn text_in(alloc: Global, value: &Value, key: &str) -> Result<Option<Body>, Memory>
    ensures { IfOk result (λ text. text ≡ where_true (is_text (get key.now (view value.now))) (text_in (get key.now (view value.now)))) }
{
    let Some(member) = value.get(key) else {
        return Ok(Some(Body::of(Vec::new(alloc))));
    };
    if member.is_null() {
        return Ok(Some(Body::of(Vec::new(alloc))));
    }
    match member.as_str() {
        Some(text) => Ok(Some(Body::copy(alloc, text.as_bytes())?)),
        None => Ok(None),
    }
}

// Whether a member is a truth value, or absent.
pub(crate) fn is_flag(value: &Value, key: &str) -> bool
    ensures { result ≡ is_flag (get key.now (view value.now)) }
{
    match value.get(key) {
        None => true,
        Some(member) => member.is_null() || member.is_boolean(),
    }
}

// The truth value that a member is, false where it is none.
pub(crate) fn flag_in(value: &Value, key: &str) -> bool
    ensures { result ≡ flag_in (get key.now (view value.now)) }
{
    match value.get(key) {
        None => false,
        Some(member) => member.as_bool().unwrap_or(false),
    }
}

// The whole number of 64 bits that a member is, with a sign or without, and 0 where it is absent; None where it is anything else.
pub(crate) fn number_in(value: &Value, key: &str) -> Option<i128>
    ensures { result ≡ number_in (get key.now (view value.now)) }
{
    let Some(member) = value.get(key) else {
        return Some(0);
    };
    if member.is_null() {
        return Some(0);
    }
    match member.as_u64() {
        Some(n) => Some(i128::from(n)),
        None => match member.as_i64() {
            Some(z) => Some(i128::from(z)),
            None => None,
        },
    }
}
