ghost use Rattle.std.specs.Prelude.{◌≡◌, ◌+◌, ◌<◌, ◌≤◌, IfOk, MatchOption, length, drop, option_map};
ghost use Rattle.std.specs.Result.{result_err};
ghost use Rattle.http_calls.specs.Messages.{message_in, lines_in, batch_in, messages_in, is_binary, message_size_in, size_at, messages_of};

use crate::Refusal;
use crate::argument::argument;
use crate::bytes::same;
use http_wire::Request;
use nsq_base::{Bodies, Body, Memory, Options};
use std::alloc::Global;

/// The messages of a request, or why they are none. Want of memory is the only error.
pub(crate) fn messages_of(
    alloc: Global,
    options: &Options,
    request: &Request,
) -> Result<Result<Bodies, Refusal>, Memory>
    ensures { IfOk result (λ messages. messages ≡ messages_of options.now request.now) }
{
    let most = options.max_msg_size;
    if is_binary(argument(request, b"binary")) {
        batch_in(alloc, most, request.body.bytes())
    } else {
        lines_in(alloc, most, request.body.bytes())
    }
}

/// Whether a body is a batch as MPUB has it, by this argument.
fn is_binary(argument: Option<&[u8]>) -> bool
    ensures { result ≡ is_binary (option_map (λ value. value.now) argument.entry) }
{
    match argument {
        None => false,
        Some(value) => !same(value, b"false") && !same(value, b"0"),
    }
}

/// Whether a body is one message: why it is none.
pub(crate) fn message_refusal(most: u32, body: &[u8]) -> Option<Refusal>
    ensures { result ≡ result_err (message_in most body.now) }
{
    if body.is_empty() {
        return Some(Refusal::MsgEmpty);
    }
    if body.len() > most as usize {
        return Some(Refusal::MsgTooBig);
    }
    None
}

/// The lines of a body that aren't empty, each a message.
fn lines_in(alloc: Global, most: u32, body: &[u8]) -> Result<Result<Bodies, Refusal>, Memory>
    ensures { IfOk result (λ lines. lines ≡ lines_in most body.now) }
{
    let mut lines = Bodies::new(alloc);
    'lines: for line in body.split(|byte| *byte == b'\n') {
        if line.is_empty() {
            continue;
        }
        if line.len() > most as usize {
            return Ok(Err(Refusal::MsgTooBig));
        }
        lines.push(Body::copy(alloc, line)?)?;
    }
    if lines.count() == 0 {
        return Ok(Err(Refusal::MsgEmpty));
    }
    Ok(Ok(lines))
}

/// The messages of a batch as MPUB has it: a count, and each message behind its size.
fn batch_in(alloc: Global, most: u32, body: &[u8]) -> Result<Result<Bodies, Refusal>, Memory>
    ensures { IfOk result (λ messages. messages ≡ batch_in most body.now) }
{
    let Some((count, rest)) = size_of(body) else {
        return Ok(Err(Refusal::BadBody));
    };
    if count == 0 {
        return Ok(Err(Refusal::BadBody));
    }
    messages_in(alloc, most, count as usize, rest)
}

/// So many messages, each behind its size, and nothing behind them.
fn messages_in(
    alloc: Global,
    most: u32,
    count: usize,
    bytes: &[u8],
) -> Result<Result<Bodies, Refusal>, Memory>
    ensures { IfOk result (λ messages. messages ≡ messages_in most count bytes.now) }
{
    let mut messages = Bodies::new(alloc);
    let mut at = 0;
    'messages: while messages.count() < count {
        let size = match message_size(most, &bytes[at..]) {
            Ok(size) => size,
            Err(refusal) => return Ok(Err(refusal)),
        };
        let message = Body::copy(alloc, &bytes[at + 4..at + 4 + size])?;
        messages.push(message)?;
        at += 4 + size;
    }
    if at < bytes.len() {
        return Ok(Err(Refusal::BadBody));
    }
    Ok(Ok(messages))
}

/// The size of the message at the front of the bytes, which is whole there.
fn message_size(most: u32, bytes: &[u8]) -> Result<usize, Refusal>
    ensures value { result ≡ message_size_in most bytes.now }
    ensures whole { IfOk result (λ size. 4 + size ≤ length bytes.now) }
{
    let Some((size, rest)) = size_of(bytes) else {
        return Err(Refusal::BadBody);
    };
    if size == 0 || size > most {
        return Err(Refusal::BadMessage);
    }
    let size = size as usize;
    if rest.len() < size {
        return Err(Refusal::BadBody);
    }
    Ok(size)
}

/// The size in the first four bytes, and what stands behind them, or None where there are fewer.
fn size_of(bytes: &[u8]) -> Option<(u32, &[u8])>
    ensures { MatchOption result (length bytes.now < 4) (λ found. (4 ≤ length bytes.now) × (found.0 ≡ size_at bytes.now) × (found.1.now ≡ drop 4 bytes.now)) }
{
    let Some((front, rest)) = bytes.split_first_chunk::<4>() else {
        return None;
    };
    Some((u32::from_be_bytes(*front), rest))
}
