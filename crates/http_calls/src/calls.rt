ghost use Rattle.std.specs.Prelude.{◌≡◌, IfOk, codes};
ghost use Rattle.nsq_base.specs.Options.{IsInRange};
ghost use Rattle.http_calls.specs.declared.call.HttpCall.TheVariants.{Answered};
ghost use Rattle.http_calls.specs.Answers.{text_answer, json_answer};
ghost use Rattle.http_calls.specs.Calls.{asks, is_served, called, call_for, CanBeAsked, HasStatus};
ghost use Rattle.http_calls.specs.Info.{info_text};

use crate::answer::{json_answer, text_answer};
use crate::bytes::same;
use crate::info::info_text;
use crate::publish::{publish, publish_many};
use crate::route::{Route, route_of};
use crate::verbs::{on_channel_in, on_topic_in, stats_in};
use crate::{HttpCall, Refusal};
use broker_history::Ask;
use http_wire::Request;
use nsq_base::{Memory, Options};
use std::alloc::Global;

/// What a request is by itself, to a daemon with these options that began at this moment, in nanoseconds. Its path is judged first,
/// then its method, then what each call says, in that order. A body that is published whole is moved. Want of memory is the only
/// error.
pub fn call_of(
    alloc: Global,
    options: &Options,
    began: u64,
    request: Request,
) -> Result<HttpCall, Memory>
    requires { IsInRange options.now }
    ensures value { IfOk result (λ call. call ≡ call_for options.now began request) }
    ensures can_be_asked { IfOk result CanBeAsked }
    ensures status { IfOk result HasStatus }
{
    let mut request = request;
    judged(alloc, options, began, &mut request)
}

/// The same of a request that is lent, whose body may be taken out of it.
fn judged(
    alloc: Global,
    options: &Options,
    began: u64,
    request: &mut Request,
) -> Result<HttpCall, Memory>
    requires { IsInRange options.now }
    ensures { IfOk result (λ call. call ≡ call_for options.now began request.old) }
{
    let Some(route) = route_of(request.path.bytes()) else {
        return Ok(HttpCall::Refused(Refusal::NotFound));
    };
    if !is_served(options, route) {
        return Ok(HttpCall::Refused(Refusal::NotFound));
    }
    if !same(request.method.bytes(), route.method()) {
        return Ok(HttpCall::Refused(Refusal::MethodNotAllowed));
    }
    called(alloc, options, began, route, request)
}

/// Whether the call is served: a stop only where the options say so.
fn is_served(options: &Options, route: Route) -> bool
    ensures { result ≡ is_served options.now route }
{
    match route {
        Route::Stop => options.http_stop,
        _ => true,
    }
}

/// What a request of this call is. A body that is published whole is taken out of it.
fn called(
    alloc: Global,
    options: &Options,
    began: u64,
    route: Route,
    request: &mut Request,
) -> Result<HttpCall, Memory>
    requires { IsInRange options.now }
    ensures { IfOk result (λ call. call ≡ called options.now began request.old route) }
{
    match route {
        Route::Ping => answer_ping(alloc),
        Route::Info => answer_info(alloc, options, began),
        Route::Stats => Ok(asks(stats_in(request))),
        Route::Publish => publish(alloc, options, request),
        Route::PublishMany => publish_many(alloc, options, request),
        Route::OnTopic(verb) => Ok(asks(on_topic_in(verb, request))),
        Route::OnChannel(verb) => Ok(asks(on_channel_in(verb, request))),
        Route::Stop => Ok(HttpCall::Stops),
    }
}

/// The answer of `/ping`.
fn answer_ping(alloc: Global) -> Result<HttpCall, Memory>
    ensures { IfOk result (λ call. call ≡ Answered (text_answer (codes "OK"))) }
{
    let answer = text_answer(alloc, b"OK")?;
    Ok(HttpCall::Answered(answer))
}

/// The answer of `/info`.
fn answer_info(alloc: Global, options: &Options, began: u64) -> Result<HttpCall, Memory>
    requires { IsInRange options.now }
    ensures { IfOk result (λ call. call ≡ Answered (json_answer (info_text options.now began))) }
{
    let text = info_text(alloc, options, began)?;
    Ok(HttpCall::Answered(json_answer(text)))
}

/// What is asked, unless it is refused.
fn asks(judged: Result<Ask, Refusal>) -> HttpCall
    ensures { result ≡ asks judged }
{
    match judged {
        Ok(ask) => HttpCall::Asks(ask),
        Err(refusal) => HttpCall::Refused(refusal),
    }
}
