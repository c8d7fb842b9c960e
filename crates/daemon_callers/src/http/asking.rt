ghost use Rattle.std.specs.Prelude.{◌≡◌, ℕ, [], IfOk, IsTrue};
ghost use Rattle.nsq_base.specs.Options.{IsInRange};
ghost use Rattle.broker_history.specs.Entries.{own};
ghost use Rattle.broker_history.specs.Calls.{CanAsk};
ghost use Rattle.http_wire.specs.Answer.{IsStatus};
ghost use Rattle.http_calls.specs.declared.call.HttpCall.TheVariants as call;
ghost use Rattle.http_calls.specs.Calls.{call_for};
ghost use Rattle.daemon_callers.specs.Responses.{RespondsTo};

use crate::http::turns::{ask, stop};
use broker_history::{Ask, Desk};
use http_asked::told_answer;
use http_calls::{HttpAnswer, HttpCall, call_of, publishes, stop_answer};
use http_wire::Request;
use nsq_base::{Memory, Options};
use std::alloc::Global;
use std::sync::Wait;

/// The answer of a whole request, once what it asks was taken to the desk. Want of memory is the only error.
pub(crate) fn respond<R: Wait, D: Desk>(
    rt: &R,
    alloc: Global,
    number: u64,
    desk: &mut D,
    options: &Options,
    began: u64,
    request: Request,
) -> Result<HttpAnswer, Memory>
    requires number { number ≡ D.number desk.old }
    requires options { IsInRange options.now }
    ensures responds { IsTrue D.tells → own number (D.seen desk.old) ≡ [] → RespondsTo began (call_for options.now began request) number (D.seen desk.new) result }
    ensures status { IfOk result (λ answer. IsStatus answer.status) }
    ensures number { D.number desk.new ≡ D.number desk.old }
    ensures wanted { D.wanted desk.new ≡ D.wanted desk.old }
    ensures leads { D.leads desk.old desk.new }
{
    let call = call_of(alloc, options, began, request)?;
    match call {
        HttpCall::Refused(refusal) => refusal.answer(alloc),
        HttpCall::Answered(answer) => Ok(answer),
        HttpCall::Asks(ask) => respond_to_ask(rt, alloc, number, desk, began, ask),
        HttpCall::Stops => respond_to_stop(rt, alloc, number, desk),
    }
}

/// The answer of what is asked.
fn respond_to_ask<R: Wait, D: Desk>(
    rt: &R,
    alloc: Global,
    number: u64,
    desk: &mut D,
    began: u64,
    asked: Ask,
) -> Result<HttpAnswer, Memory>
    requires number { number ≡ D.number desk.old }
    requires can { CanAsk asked }
    ensures responds { IsTrue D.tells → own number (D.seen desk.old) ≡ [] → RespondsTo began (call.Asks asked) number (D.seen desk.new) result }
    ensures status { IfOk result (λ answer. IsStatus answer.status) }
    ensures number { D.number desk.new ≡ D.number desk.old }
    ensures wanted { D.wanted desk.new ≡ D.wanted desk.old }
    ensures leads { D.leads desk.old desk.new }
{
    let publish = publishes(&asked);
    let told = ask(rt, alloc, number, desk, asked)?;
    told_answer(alloc, publish, began, told)
}

/// The answer of a stop.
fn respond_to_stop<R: Wait, D: Desk>(
    rt: &R,
    alloc: Global,
    number: u64,
    desk: &mut D,
) -> Result<HttpAnswer, Memory>
    requires number { number ≡ D.number desk.old }
    ensures responds { (began : ℕ) → IsTrue D.tells → own number (D.seen desk.old) ≡ [] → RespondsTo began call.Stops number (D.seen desk.new) result }
    ensures status { IfOk result (λ answer. IsStatus answer.status) }
    ensures number { D.number desk.new ≡ D.number desk.old }
    ensures wanted { D.wanted desk.new ≡ D.wanted desk.old }
    ensures leads { D.leads desk.old desk.new }
{
    stop(rt, alloc, number, desk)?;
    stop_answer(alloc)
}
