ghost use Rattle.std.specs.Prelude.{◌≡◌, IfOk};
ghost use Rattle.http_wire.specs.Answer.{IsStatus};
ghost use Rattle.http_calls.specs.Stats.{stats_bytes};
ghost use Rattle.http_calls.specs.Answers.{text_answer, json_answer, done_answer, stop_answer, publishes, answer_for};

use crate::{Refusal, stats_text};
use broker_history::{Ask, Said, Stats};
use nsq_base::{Body, Memory};
use std::alloc::Global;

/// An answer, before it is written.
#[derive(Drop)]
pub struct HttpAnswer {
    /// Its status.
    pub status: u16,
    /// Whether its body is JSON, and not plain text.
    pub json: bool,
    /// Its body.
    pub body: Body,
}

/// Whether it is a publish that is asked: what is done is answered `OK` then, and else by an empty text.
pub fn publishes(ask: &Ask) -> bool
    ensures { result ≡ publishes ask.now }
{
    matches!(ask, Ask::Publish(_, _, _))
}

/// How a daemon that began at this moment, in nanoseconds, answers by what is said to what was asked. Want of memory is the only
/// error.
pub fn answer_to(
    alloc: Global,
    publish: bool,
    began: u64,
    said: &Said,
) -> Result<HttpAnswer, Memory>
    ensures value { IfOk result (λ answer. answer ≡ answer_for publish began said.now) }
    ensures status { IfOk result (λ answer. IsStatus answer.status) }
{
    match said {
        Said::Done => done_answer(alloc, publish),
        Said::NoTopic => Refusal::TopicNotFound.answer(alloc),
        Said::NoChannel => Refusal::ChannelNotFound.answer(alloc),
        Said::Ids => Refusal::IdsSpent.answer(alloc),
        Said::Disk => Refusal::DiskFault.answer(alloc),
        Said::Stats(stats) => stats_answer(alloc, began, stats),
    }
}

/// How a stop is answered, also one behind another. Want of memory is the only error.
pub fn stop_answer(alloc: Global) -> Result<HttpAnswer, Memory>
    ensures value { IfOk result (λ answer. answer ≡ stop_answer) }
    ensures status { IfOk result (λ answer. IsStatus answer.status) }
{
    text_answer(alloc, b"OK")
}

/// How it is answered that what was asked is done.
fn done_answer(alloc: Global, publish: bool) -> Result<HttpAnswer, Memory>
    ensures value { IfOk result (λ answer. answer ≡ done_answer publish) }
    ensures status { IfOk result (λ answer. IsStatus answer.status) }
{
    if publish {
        return text_answer(alloc, b"OK");
    }
    text_answer(alloc, b"")
}

/// The answer that has the statistics.
fn stats_answer(alloc: Global, began: u64, stats: &Stats) -> Result<HttpAnswer, Memory>
    ensures value { IfOk result (λ answer. answer ≡ json_answer (stats_bytes began stats.now)) }
    ensures status { IfOk result (λ answer. IsStatus answer.status) }
{
    let mut text = Vec::new(alloc);
    stats_text(alloc, stats, began, &mut text)?;
    Ok(json_answer(Body::of(text)))
}

/// An answer 200 in plain text.
pub(crate) fn text_answer(alloc: Global, text: &[u8]) -> Result<HttpAnswer, Memory>
    ensures value { IfOk result (λ answer. answer ≡ text_answer text.now) }
    ensures status { IfOk result (λ answer. IsStatus answer.status) }
{
    let body = Body::copy(alloc, text)?;
    Ok(HttpAnswer {
        status: 200,
        json: false,
        body,
    })
}

/// An answer 200 in JSON.
pub(crate) fn json_answer(body: Body) -> HttpAnswer
    ensures value { result ≡ json_answer body }
    ensures status { IsStatus result.status }
{
    HttpAnswer {
        status: 200,
        json: true,
        body,
    }
}
