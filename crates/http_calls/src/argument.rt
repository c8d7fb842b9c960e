ghost use Rattle.std.specs.Prelude.{◌≡◌, if◌then◌else◌, Some, None, option_map};
ghost use Rattle.http_calls.specs.Arguments.{argument_of, is_name, name_in, optional_name_in, topic_in, names_in, optional_names_in};
ghost use Rattle.http_calls.specs.declared.refusal.Refusal.TheVariants as refusal;

use crate::Refusal;
use http_wire::Request;
use nsq_base::{Chan, Topic};

/// The value of the first pair of this name, or None exactly where no pair has it.
pub(crate) fn argument<'a>(request: &'a Request, name: &[u8]) -> Option<&'a [u8]>
    ensures { option_map (λ value. value.now) result ≡ argument_of request.now name.now }
{
    request.argument(name)
}

/// The topic of this name, or None exactly where the bytes are no name.
fn read_topic(bytes: &[u8]) -> Option<Topic>
    ensures { result ≡ (if is_name bytes.now then Some bytes.now else None) }
{
    Topic::read(bytes)
}

/// The channel of this name, or None exactly where the bytes are no name.
fn read_channel(bytes: &[u8]) -> Option<Chan>
    ensures { result ≡ (if is_name bytes.now then Some bytes.now else None) }
{
    Chan::read(bytes)
}

/// A topic that has to be given.
fn topic_of(bytes: Option<&[u8]>, invalid: Refusal) -> Result<Topic, Refusal>
    ensures { result ≡ name_in refusal.MissingTopic invalid (option_map (λ value. value.now) bytes.entry) }
{
    let Some(bytes) = bytes else {
        return Err(Refusal::MissingTopic);
    };
    match read_topic(bytes) {
        Some(topic) => Ok(topic),
        None => Err(invalid),
    }
}

/// A channel that has to be given.
fn channel_of(bytes: Option<&[u8]>) -> Result<Chan, Refusal>
    ensures { result ≡ name_in refusal.MissingChannel refusal.InvalidArgChannel (option_map (λ value. value.now) bytes.entry) }
{
    let Some(bytes) = bytes else {
        return Err(Refusal::MissingChannel);
    };
    match read_channel(bytes) {
        Some(channel) => Ok(channel),
        None => Err(Refusal::InvalidArgChannel),
    }
}

/// A topic that may be given.
fn optional_topic(bytes: Option<&[u8]>) -> Result<Option<Topic>, Refusal>
    ensures { result ≡ optional_name_in refusal.InvalidArgTopic (option_map (λ value. value.now) bytes.entry) }
{
    let Some(bytes) = bytes else {
        return Ok(None);
    };
    match read_topic(bytes) {
        Some(topic) => Ok(Some(topic)),
        None => Err(Refusal::InvalidArgTopic),
    }
}

/// A channel that may be given.
fn optional_channel(bytes: Option<&[u8]>) -> Result<Option<Chan>, Refusal>
    ensures { result ≡ optional_name_in refusal.InvalidArgChannel (option_map (λ value. value.now) bytes.entry) }
{
    let Some(bytes) = bytes else {
        return Ok(None);
    };
    match read_channel(bytes) {
        Some(channel) => Ok(Some(channel)),
        None => Err(Refusal::InvalidArgChannel),
    }
}

/// The topic, in a call that takes no channel.
pub(crate) fn topic_in(request: &Request) -> Result<Topic, Refusal>
    ensures { result ≡ topic_in request.now }
{
    topic_of(argument(request, b"topic"), Refusal::InvalidTopic)
}

/// The topic and the channel, in a call that takes both.
pub(crate) fn names_in(request: &Request) -> Result<(Topic, Chan), Refusal>
    ensures { result ≡ names_in request.now }
{
    let topic = topic_of(argument(request, b"topic"), Refusal::InvalidArgTopic)?;
    let channel = channel_of(argument(request, b"channel"))?;
    Ok((topic, channel))
}

/// The topic and the channel, in a call that takes them where they are given.
pub(crate) fn optional_names_in(request: &Request) -> Result<(Option<Topic>, Option<Chan>), Refusal>
    ensures { result ≡ optional_names_in request.now }
{
    let topic = optional_topic(argument(request, b"topic"))?;
    let channel = optional_channel(argument(request, b"channel"))?;
    Ok((topic, channel))
}
