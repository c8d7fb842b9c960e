ghost use Rattle.std.specs.Prelude.{◌≡◌, IfOk};
ghost use Rattle.http_wire.specs.Answer.{IsStatus};
ghost use Rattle.http_calls.specs.Refusals.{status_of, text_of, refused_answer, refused_by};

use crate::HttpAnswer;
use http_wire::GotRequest;
use nsq_base::{Body, Memory};
use std::alloc::Global;

/// Why a request isn't carried out. Each is answered by a status and by `{"message":"CODE"}` in JSON.
#[derive(Clone, Copy)]
pub enum Refusal {
    /// 400 `BAD_REQUEST`: the bytes are no request.
    BadRequest,
    /// 411 `LENGTH_REQUIRED`: the body comes in another form than as many bytes as the head says.
    LengthRequired,
    /// 413 `BODY_TOO_BIG`: the body is longer than any body may be.
    BodyTooBig,
    /// 404 `NOT_FOUND`: the path names no call.
    NotFound,
    /// 405 `METHOD_NOT_ALLOWED`: the call has another method.
    MethodNotAllowed,
    /// 503 `OUT_OF_MEMORY`: want of memory.
    OutOfMemory,
    /// 503 `STOPPING`: the daemon stops.
    Stopping,
    /// 400 `INVALID_FORMAT`: statistics are told in JSON alone.
    InvalidFormat,
    /// 400 `MISSING_ARG_TOPIC`: no topic is named.
    MissingTopic,
    /// 400 `INVALID_TOPIC`: the topic is no name, in a call that takes no channel.
    InvalidTopic,
    /// 400 `INVALID_ARG_TOPIC`: the topic is no name, in a call that takes a channel.
    InvalidArgTopic,
    /// 400 `MISSING_ARG_CHANNEL`: no channel is named.
    MissingChannel,
    /// 400 `INVALID_ARG_CHANNEL`: the channel is no name.
    InvalidArgChannel,
    /// 400 `MSG_EMPTY`: there is no message.
    MsgEmpty,
    /// 413 `MSG_TOO_BIG`: a message is longer than any may be.
    MsgTooBig,
    /// 400 `INVALID_DEFER`: the delay is no number, or isn't in its range.
    InvalidDefer,
    /// 413 `BAD_MESSAGE`: in a binary batch the size of a message is 0, or longer than any message may be.
    BadMessage,
    /// 413 `BAD_BODY`: a binary batch isn't one.
    BadBody,
    /// 404 `TOPIC_NOT_FOUND`: there is no such topic.
    TopicNotFound,
    /// 404 `CHANNEL_NOT_FOUND`: there is no such channel.
    ChannelNotFound,
    /// 503 `IDS_SPENT`: the run has no further ids.
    IdsSpent,
    /// 500 `DISK_FAULT`: a disk fault kept it from being done.
    DiskFault,
}

impl Refusal {
    /// The status of its answer.
    pub fn status(self) -> u16
        ensures value { result ≡ status_of self }
        ensures is_status { IsStatus result }
    {
        match self {
            Refusal::BadRequest
            | Refusal::InvalidFormat
            | Refusal::MissingTopic
            | Refusal::InvalidTopic
            | Refusal::InvalidArgTopic
            | Refusal::MissingChannel
            | Refusal::InvalidArgChannel
            | Refusal::MsgEmpty
            | Refusal::InvalidDefer => 400,
            Refusal::NotFound | Refusal::TopicNotFound | Refusal::ChannelNotFound => 404,
            Refusal::MethodNotAllowed => 405,
            Refusal::LengthRequired => 411,
            Refusal::BodyTooBig | Refusal::MsgTooBig | Refusal::BadMessage | Refusal::BadBody =>
                413,
            Refusal::DiskFault => 500,
            Refusal::OutOfMemory | Refusal::Stopping | Refusal::IdsSpent => 503,
        }
    }

    /// The body of its answer, in JSON.
    pub fn text(self) -> &'static [u8]
        ensures { result.now ≡ text_of self }
    {
        match self {
            Refusal::BadRequest => br#"{"message":"BAD_REQUEST"}"#,
            Refusal::LengthRequired => br#"{"message":"LENGTH_REQUIRED"}"#,
            Refusal::BodyTooBig => br#"{"message":"BODY_TOO_BIG"}"#,
            Refusal::NotFound => br#"{"message":"NOT_FOUND"}"#,
            Refusal::MethodNotAllowed => br#"{"message":"METHOD_NOT_ALLOWED"}"#,
            Refusal::OutOfMemory => br#"{"message":"OUT_OF_MEMORY"}"#,
            Refusal::Stopping => br#"{"message":"STOPPING"}"#,
            Refusal::InvalidFormat => br#"{"message":"INVALID_FORMAT"}"#,
            Refusal::MissingTopic => br#"{"message":"MISSING_ARG_TOPIC"}"#,
            Refusal::InvalidTopic => br#"{"message":"INVALID_TOPIC"}"#,
            Refusal::InvalidArgTopic => br#"{"message":"INVALID_ARG_TOPIC"}"#,
            Refusal::MissingChannel => br#"{"message":"MISSING_ARG_CHANNEL"}"#,
            Refusal::InvalidArgChannel => br#"{"message":"INVALID_ARG_CHANNEL"}"#,
            Refusal::MsgEmpty => br#"{"message":"MSG_EMPTY"}"#,
            Refusal::MsgTooBig => br#"{"message":"MSG_TOO_BIG"}"#,
            Refusal::InvalidDefer => br#"{"message":"INVALID_DEFER"}"#,
            Refusal::BadMessage => br#"{"message":"BAD_MESSAGE"}"#,
            Refusal::BadBody => br#"{"message":"BAD_BODY"}"#,
            Refusal::TopicNotFound => br#"{"message":"TOPIC_NOT_FOUND"}"#,
            Refusal::ChannelNotFound => br#"{"message":"CHANNEL_NOT_FOUND"}"#,
            Refusal::IdsSpent => br#"{"message":"IDS_SPENT"}"#,
            Refusal::DiskFault => br#"{"message":"DISK_FAULT"}"#,
        }
    }

    /// Its answer. Want of memory is the only error.
    pub fn answer(self, alloc: Global) -> Result<HttpAnswer, Memory>
        ensures value { IfOk result (λ answer. answer ≡ refused_answer self) }
        ensures status { IfOk result (λ answer. IsStatus answer.status) }
    {
        let body = Body::copy(alloc, self.text())?;
        Ok(HttpAnswer {
            status: self.status(),
            json: true,
            body,
        })
    }
}

/// Why what a reader gives is no request, or None where it is one, or not yet, or where memory was wanting for it.
pub fn refusal_of(got: &GotRequest) -> Option<Refusal>
    ensures { result ≡ refused_by got.now }
{
    match got {
        GotRequest::Whole(_) | GotRequest::More | GotRequest::Memory => None,
        GotRequest::BadHead => Some(Refusal::BadRequest),
        GotRequest::NoLength => Some(Refusal::LengthRequired),
        GotRequest::TooBig => Some(Refusal::BodyTooBig),
    }
}
