ghost use Rattle.std.specs.Prelude.{◌≡◌, ◌++◌, codes, decimal, IfOk, OnOk, option_and_then};
ghost use Rattle.serde_json.specs.Data.{Members, object};
ghost use Rattle.serde_json.specs.Find.{get, as_object};
ghost use Rattle.serde_json.specs.View.{view};
ghost use Rattle.broker_history.specs.Identify.{accepted, accepts, flag_in, has_flags, has_numbers, has_texts, identity_of, is_flag, is_heartbeat, is_rate, is_span, is_text, is_timeout, number_in};
ghost use Rattle.broker_history.specs.Reply.{error, identified, response};
ghost use Rattle.broker_state.specs.Features.{features_by, timeout_ms};

mod known;

use crate::replies::{frame, ok_frame};
use itoa::Buffer;
pub use known::{Identity, default_heartbeat, identity_of};
use nsq_base::{Body, Memory, Options};
use serde_json::Value;
use std::alloc::Global;
use v2_frame::{Frame, FrameKind};

// A millisecond in nanoseconds.
const MILLISECOND: u64 = 1_000_000;

// The reply to IDENTIFY of a client that may give it.
pub(crate) fn identified(alloc: Global, options: &Options, body: &[u8]) -> Result<Frame, Memory>
    ensures { IfOk result (λ frame. frame ≡ identified options.now (identity_of options.now body.now)) }
{
    match Value::from_slice(alloc, body) {
        Ok(value) => answer(alloc, options, &value),
        Err(error) => {
            if error.is_memory() {
                Err(Memory)
            } else {
                bad_json(alloc)
            }
        }
    }
}

// The reply to what a client said, by the value of its JSON.
fn answer(alloc: Global, options: &Options, value: &Value) -> Result<Frame, Memory>
    ensures { IfOk result (λ frame. frame ≡ identified options.now (option_and_then (accepted options.now) (as_object (view value.now)))) }
{
    if !value.is_object() {
        return bad_json(alloc);
    }
    if !accepts(options, value) {
        return bad_json(alloc);
    }
    if !flag_in(value, "feature_negotiation") {
        return ok_frame(alloc);
    }
    let timeout = timeout_in(options, number_in(value, "msg_timeout"));
    features(alloc, options, timeout)
}

// What this daemon does and doesn't do, for a client that has so many milliseconds for a message.
fn features(alloc: Global, options: &Options, timeout: u128) -> Result<Frame, Memory>
    ensures { IfOk result (λ frame. frame ≡ response (features_by options.now timeout)) }
{
    let mut text = Vec::new(alloc);
    put_number(
        &mut text,
        br#"{"auth_required":false,"deflate":false,"deflate_level":0,"max_deflate_level":0,"max_msg_timeout":"#,
        u128::from(options.max_msg_timeout / MILLISECOND),
    )?;
    put_number(
        &mut text,
        br#","max_rdy_count":"#,
        u128::from(options.max_rdy_count),
    )?;
    put_number(&mut text, br#","msg_timeout":"#, timeout)?;
    text.extend_from_slice(
        br#","sample_rate":0,"snappy":false,"tls_v1":false,"version":"1.0.0"}"#,
    )?;
    Ok(Frame {
        kind: FrameKind::Response,
        body: Body::of(text),
    })
}

// Adds a number behind its name.
fn put_number(text: &mut Vec<u8>, name: &[u8], number: u128) -> Result<(), Memory>
    ensures { OnOk result (text.new.items ≡ (text.old.items ++ name.now) ++ decimal number) }
{
    let mut digits = Buffer::new();
    text.extend_from_slice(name)?;
    text.extend_from_slice(digits.format(number).as_bytes())?;
    Ok(())
}

// The error of a body that isn't what IDENTIFY takes.
fn bad_json(alloc: Global) -> Result<Frame, Memory>
    ensures { IfOk result (λ frame. frame ≡ error (codes "E_BAD_BODY bad JSON")) }
{
    frame(alloc, FrameKind::Error, b"E_BAD_BODY bad JSON")
}

// Whether each member is of its kind and in its range.
fn accepts(options: &Options, value: &Value) -> bool
    ensures { (ms : Members) → view value.now ≡ object ms → result ≡ accepts options.now ms }
{
    if !has_texts(value) {
        return false;
    }
    if !has_flags(value) {
        return false;
    }
    has_numbers(options, value)
}

// Whether each text is one.
fn has_texts(value: &Value) -> bool
    ensures { (ms : Members) → view value.now ≡ object ms → result ≡ has_texts ms }
{
    if !is_text(value, "client_id") {
        return false;
    }
    if !is_text(value, "hostname") {
        return false;
    }
    is_text(value, "user_agent")
}

// Whether each truth value is one.
fn has_flags(value: &Value) -> bool
    ensures { (ms : Members) → view value.now ≡ object ms → result ≡ has_flags ms }
{
    if !is_flag(value, "feature_negotiation") {
        return false;
    }
    if !is_flag(value, "tls_v1") {
        return false;
    }
    if !is_flag(value, "snappy") {
        return false;
    }
    is_flag(value, "deflate")
}

// Whether each number is one, in its range.
fn has_numbers(options: &Options, value: &Value) -> bool
    ensures { (ms : Members) → view value.now ≡ object ms → result ≡ has_numbers options.now ms }
{
    if !is_heartbeat(options, number_in(value, "heartbeat_interval")) {
        return false;
    }
    if !is_timeout(options, number_in(value, "msg_timeout")) {
        return false;
    }
    if !is_rate(number_in(value, "sample_rate")) {
        return false;
    }
    if number_in(value, "output_buffer_size").is_none() {
        return false;
    }
    if number_in(value, "output_buffer_timeout").is_none() {
        return false;
    }
    number_in(value, "deflate_level").is_some()
}

// Whether a member is a text, or absent.
fn is_text(value: &Value, key: &str) -> bool
    ensures { result ≡ is_text (get key.now (view value.now)) }
{
    match value.get(key) {
        None => true,
        Some(member) => member.is_null() || member.is_string(),
    }
}

// Whether a member is a truth value, or absent.
fn is_flag(value: &Value, key: &str) -> bool
    ensures { result ≡ is_flag (get key.now (view value.now)) }
{
    match value.get(key) {
        None => true,
        Some(member) => member.is_null() || member.is_boolean(),
    }
}

// The truth value that a member is, false where it is none.
fn flag_in(value: &Value, key: &str) -> bool
    ensures { result ≡ flag_in (get key.now (view value.now)) }
{
    match value.get(key) {
        None => false,
        Some(member) => member.as_bool().unwrap_or(false),
    }
}

// The whole number of 64 bits that a member is, 0 where it is absent.
fn number_in(value: &Value, key: &str) -> Option<i128>
    ensures { result ≡ number_in (get key.now (view value.now)) }
{
    let Some(member) = value.get(key) else {
        return Some(0);
    };
    if member.is_null() {
        return Some(0);
    }
    match member.as_u64() {
        Some(n) => Some(i128::from(n)),
        None => match member.as_i64() {
            Some(z) => Some(i128::from(z)),
            None => None,
        },
    }
}

// Whether so many milliseconds are a second at least, and this duration at most.
fn is_span(most: u64, ms: u128) -> bool
    ensures { result ≡ is_span most ms }
{
    match ms.checked_mul(1_000_000) {
        Some(span) => 1_000 <= ms && span <= u128::from(most),
        None => false,
    }
}

// Whether this may be a heartbeat interval.
fn is_heartbeat(options: &Options, number: Option<i128>) -> bool
    ensures { result ≡ is_heartbeat options.now number }
{
    match number {
        None => false,
        Some(ms) => {
            if ms < 0 {
                return ms == -1;
            }
            ms == 0 || is_span(options.max_heartbeat_interval, ms as u128)
        }
    }
}

// Whether this may be a time for a message.
fn is_timeout(options: &Options, number: Option<i128>) -> bool
    ensures { result ≡ is_timeout options.now number }
{
    match number {
        None => false,
        Some(ms) => {
            if ms < 0 {
                return false;
            }
            ms == 0 || is_span(options.max_msg_timeout, ms as u128)
        }
    }
}

// Whether this may be a rate.
fn is_rate(number: Option<i128>) -> bool
    ensures { result ≡ is_rate number }
{
    match number {
        None => false,
        Some(rate) => 0 <= rate && rate <= 99,
    }
}

// How many milliseconds a client has for a message, where it may say so.
fn timeout_in(options: &Options, number: Option<i128>) -> u128
    ensures { result ≡ timeout_ms options.now number }
{
    let without = u128::from(options.msg_timeout / MILLISECOND);
    match number {
        None => without,
        Some(ms) => if ms <= 0 { without } else { ms as u128 },
    }
}
