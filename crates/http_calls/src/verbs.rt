ghost use Rattle.std.specs.Prelude.{◌≡◌, is_ok, option_map};
ghost use Rattle.http_calls.specs.Calls.{ask_of, on_topic_in, on_channel_in, format_in, stats_in};

use crate::Refusal;
use crate::argument::{argument, names_in, optional_names_in, topic_in};
use crate::bytes::same;
use crate::route::Verb;
use broker_history::Ask;
use http_wire::Request;
use nsq_base::{Chan, Topic};

/// What `/stats` asks.
pub(crate) fn stats_in(request: &Request) -> Result<Ask, Refusal>
    ensures { result ≡ stats_in request.now }
{
    if !is_json(argument(request, b"format")) {
        return Err(Refusal::InvalidFormat);
    }
    let (topic, channel) = optional_names_in(request)?;
    Ok(Ask::Stats(topic, channel))
}

/// Whether the format of the statistics is given and is JSON.
fn is_json(format: Option<&[u8]>) -> bool
    ensures { result ≡ is_ok (format_in (option_map (λ value. value.now) format.entry)) }
{
    match format {
        Some(format) => same(format, b"json"),
        None => false,
    }
}

/// What `/topic/..` asks.
pub(crate) fn on_topic_in(verb: Verb, request: &Request) -> Result<Ask, Refusal>
    ensures { result ≡ on_topic_in verb request.now }
{
    let topic = topic_in(request)?;
    Ok(ask_of(verb, topic, None))
}

/// What `/channel/..` asks.
pub(crate) fn on_channel_in(verb: Verb, request: &Request) -> Result<Ask, Refusal>
    ensures { result ≡ on_channel_in verb request.now }
{
    let (topic, channel) = names_in(request)?;
    Ok(ask_of(verb, topic, Some(channel)))
}

/// What is asked by a verb of a topic, or of a channel of it.
fn ask_of(verb: Verb, topic: Topic, channel: Option<Chan>) -> Ask
    ensures { result ≡ ask_of verb topic channel }
{
    match verb {
        Verb::Create => Ask::Create(topic, channel),
        Verb::Delete => Ask::Delete(topic, channel),
        Verb::Empty => Ask::Empty(topic, channel),
        Verb::Pause => Ask::Pause(topic, channel),
        Verb::Unpause => Ask::Unpause(topic, channel),
    }
}
