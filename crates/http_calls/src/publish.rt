ghost use Rattle.std.specs.Prelude.{◌≡◌, IfOk, Ok, [], ◌∷◌};
ghost use Rattle.broker_history.specs.declared.ask.Ask.TheVariants as ask;
ghost use Rattle.http_calls.specs.Calls.{asks, publish_in, publish_many_in};

use crate::HttpCall;
use crate::argument::{argument, topic_in};
use crate::batch::{message_refusal, messages_of};
use crate::delay::delay_in;
use broker_history::Ask;
use http_wire::Request;
use nsq_base::{Bodies, Body, Memory, Options, Topic};
use std::alloc::Global;
use std::mem;

/// What `/pub` asks. The body is taken out of the request. Want of memory is the only error.
pub(crate) fn publish(
    alloc: Global,
    options: &Options,
    request: &mut Request,
) -> Result<HttpCall, Memory>
    ensures { IfOk result (λ call. call ≡ asks (publish_in options.now request.old)) }
{
    let topic = match topic_in(request) {
        Ok(topic) => topic,
        Err(refusal) => return Ok(HttpCall::Refused(refusal)),
    };
    if let Some(refusal) = message_refusal(options.max_msg_size, request.body.bytes()) {
        return Ok(HttpCall::Refused(refusal));
    }
    let delay = match delay_in(options, argument(request, b"defer")) {
        Ok(delay) => delay,
        Err(refusal) => return Ok(HttpCall::Refused(refusal)),
    };
    let body = mem::replace(&mut request.body, Body::of(Vec::new(alloc)));
    one_message(alloc, topic, delay, body)
}

/// A publish of this message. Want of memory is the only error.
fn one_message(alloc: Global, topic: Topic, delay: u64, body: Body) -> Result<HttpCall, Memory>
    ensures { IfOk result (λ call. call ≡ asks (Ok (ask.Publish topic delay (body ∷ [])))) }
{
    let mut messages = Bodies::new(alloc);
    messages.push(body)?;
    Ok(HttpCall::Asks(Ask::Publish(topic, delay, messages)))
}

/// What `/mpub` asks. Want of memory is the only error.
pub(crate) fn publish_many(
    alloc: Global,
    options: &Options,
    request: &Request,
) -> Result<HttpCall, Memory>
    ensures { IfOk result (λ call. call ≡ asks (publish_many_in options.now request.now)) }
{
    let topic = match topic_in(request) {
        Ok(topic) => topic,
        Err(refusal) => return Ok(HttpCall::Refused(refusal)),
    };
    match messages_of(alloc, options, request)? {
        Ok(messages) => Ok(HttpCall::Asks(Ask::Publish(topic, 0, messages))),
        Err(refusal) => Ok(HttpCall::Refused(refusal)),
    }
}
