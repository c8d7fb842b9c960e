ghost use Rattle.std.specs.Prelude.{◌≡◌, ◌<◌, ◌/◌, ◌^◌, length, codes, IfOk, option_map};
ghost use Rattle.broker_history.specs.Reply.{identified};
ghost use Rattle.negotiation.specs.Said.{said};
ghost use Rattle.negotiation.specs.Features.{features_by};

use crate::identity::Identity;
use crate::times::MILLISECOND;
use itoa::Buffer;
use nsq_base::{Body, Memory, Options};
use std::alloc::Global;
use v2_frame::{Frame, FrameKind};

// The text of an answer in JSON has no more bytes: three numbers of up to 20 digits stand in it.
const LONGEST: usize = 256;

/// The reply to IDENTIFY, by what was read from its body: an error where that was refused, else `OK`, or in JSON what this daemon
/// does and doesn't do. Its body has fewer than 2^31 bytes. Want of memory is the only error.
pub fn identify_reply(
    alloc: Global,
    options: &Options,
    found: Option<&Identity>,
) -> Result<Frame, Memory>
    ensures value { IfOk result (λ frame. frame ≡ identified options.now (option_map (λ i. said i.now) found.entry)) }
    ensures short { IfOk result (λ frame. length frame.body < 2 ^ 31) }
{
    let Some(identity) = found else {
        return frame(alloc, FrameKind::Error, b"E_BAD_BODY bad JSON");
    };
    if !identity.negotiates {
        return frame(alloc, FrameKind::Response, b"OK");
    }
    let text = features(alloc, options, identity.timeout / MILLISECOND)?;
    Ok(Frame {
        kind: FrameKind::Response,
        body: Body::of(text),
    })
}

// What this daemon does and doesn't do, in JSON, for a client that has so many milliseconds for a message.
fn features(alloc: Global, options: &Options, timeout: u64) -> Result<Vec<u8>, Memory>
    ensures text { IfOk result (λ text. text.items ≡ features_by options.now timeout) }
    ensures short { IfOk result (λ text. length text.items < 2 ^ 31) }
{
    let mut text = started(alloc)?;
    let mut digits = Buffer::new();
    text.extend_from_slice(
        digits
            .format(options.max_msg_timeout / MILLISECOND)
            .as_bytes(),
    )?;
    text.extend_from_slice(br#","max_rdy_count":"#)?;
    text.extend_from_slice(digits.format(options.max_rdy_count).as_bytes())?;
    text.extend_from_slice(br#","msg_timeout":"#)?;
    text.extend_from_slice(digits.format(timeout).as_bytes())?;
    text.extend_from_slice(
        br#","sample_rate":0,"snappy":false,"tls_v1":false,"version":"1.0.0"}"#,
    )?;
    Ok(text)
}

// The text up to its first number, with room for the whole of it.
fn started(alloc: Global) -> Result<Vec<u8>, Memory>
    ensures { IfOk result (λ text. text.items ≡ codes "{\"auth_required\":false,\"deflate\":false,\"deflate_level\":0,\"max_deflate_level\":0,\"max_msg_timeout\":") }
{
    let mut text = Vec::new(alloc);
    text.reserve(LONGEST)?;
    text.extend_from_slice(
        br#"{"auth_required":false,"deflate":false,"deflate_level":0,"max_deflate_level":0,"max_msg_timeout":"#,
    )?;
    Ok(text)
}

// A frame of a kind and a text, of fewer than 2^31 bytes.
fn frame(alloc: Global, kind: FrameKind, text: &[u8]) -> Result<Frame, Memory>
    requires { length text.now < 2 ^ 31 }
    ensures value { IfOk result (λ frame. frame ≡ record { kind = kind; body = text.now }) }
    ensures short { IfOk result (λ frame. length frame.body < 2 ^ 31) }
{
    let body = Body::copy(alloc, text)?;
    Ok(Frame { kind, body })
}
