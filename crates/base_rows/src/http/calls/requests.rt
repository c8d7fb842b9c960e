//! Whether a request is by itself what its row says: its name, the bytes of the request, and either an answer's status, form and
//! body, or what is asked: `stop`, `publish` with a topic, a delay in nanoseconds and each message behind its length, or a word
//! with a topic and a channel, where `*` stands for none.

use crate::same;
use crate::text::{check_row, cut};
use broker_history::Ask;
use http_calls::{HttpAnswer, HttpCall, call_of, refusal_of};
use http_wire::{GotRequest, RequestReader};
use nsq_base::{Body, Chan, Options, Topic};
use std::alloc::Global;
use std::process::Abort;

/// What a reader gives for the bytes.
fn got_of(rt: &impl Abort, alloc: Global, limit: u32, bytes: &[u8]) -> GotRequest {
    let mut reader = RequestReader::new(alloc, limit).expect(rt, "memory");
    reader.feed(bytes).expect(rt, "memory");
    reader.next()
}

/// An answer's text.
pub(crate) fn text_of_answer(rt: &impl Abort, alloc: Global, answer: &HttpAnswer) -> Vec<u8> {
    let form = if answer.json { "json" } else { "text" };
    let mut text = format!(in alloc; "{} {} ", answer.status, form)
        .expect(rt, "memory")
        .into_bytes();
    text.extend_from_slice(answer.body.bytes())
        .expect(rt, "memory");
    text
}

/// The text of a publish.
fn text_of_publish(
    rt: &impl Abort,
    alloc: Global,
    topic: &Topic,
    delay: u64,
    bodies: &[Body],
) -> Vec<u8> {
    let mut text = format!(in alloc; "publish {} {}", topic.as_str(), delay)
        .expect(rt, "memory")
        .into_bytes();
    for body in bodies {
        let length = format!(in alloc; " {}:", body.bytes().len()).expect(rt, "memory");
        text.extend_from_slice(length.as_bytes())
            .expect(rt, "memory");
        text.extend_from_slice(body.bytes()).expect(rt, "memory");
    }
    text
}

/// The text of something that is asked of a topic and a channel.
fn text_of_word(
    rt: &impl Abort,
    alloc: Global,
    word: &str,
    topic: Option<&Topic>,
    channel: &Option<Chan>,
) -> Vec<u8> {
    let topic = match topic {
        Some(topic) => topic.as_str(),
        None => "*",
    };
    let channel = match channel {
        Some(channel) => channel.as_str(),
        None => "*",
    };
    format!(in alloc; "{word} {topic} {channel}")
        .expect(rt, "memory")
        .into_bytes()
}

/// The text of what is asked.
fn text_of_ask(rt: &impl Abort, alloc: Global, ask: &Ask) -> Vec<u8> {
    match ask {
        Ask::Publish(topic, delay, bodies) => {
            text_of_publish(rt, alloc, topic, *delay, bodies.as_slice())
        }
        Ask::Stats(topic, channel) => text_of_word(rt, alloc, "stats", topic.as_ref(), channel),
        Ask::Create(topic, channel) => text_of_word(rt, alloc, "create", Some(topic), channel),
        Ask::Delete(topic, channel) => text_of_word(rt, alloc, "delete", Some(topic), channel),
        Ask::Empty(topic, channel) => text_of_word(rt, alloc, "empty", Some(topic), channel),
        Ask::Pause(topic, channel) => text_of_word(rt, alloc, "pause", Some(topic), channel),
        Ask::Unpause(topic, channel) => text_of_word(rt, alloc, "unpause", Some(topic), channel),
    }
}

/// The text of what a request is.
fn text_of_call(rt: &impl Abort, alloc: Global, call: &HttpCall) -> Vec<u8> {
    match call {
        HttpCall::Refused(refusal) => {
            let answer = refusal.answer(alloc).expect(rt, "memory");
            text_of_answer(rt, alloc, &answer)
        }
        HttpCall::Answered(answer) => text_of_answer(rt, alloc, answer),
        HttpCall::Asks(ask) => text_of_ask(rt, alloc, ask),
        HttpCall::Stops => b"stop".to_vec(alloc).expect(rt, "memory"),
    }
}

/// What a request is, where it was got.
fn call_of_got(rt: &impl Abort, alloc: Global, options: &Options, got: GotRequest) -> HttpCall {
    if let Some(refusal) = refusal_of(&got) {
        return HttpCall::Refused(refusal);
    }
    match got {
        GotRequest::Whole(request) if options.in_range() => {
            call_of(alloc, options, 3_900_000_000, request).expect(rt, "memory")
        }
        _ => panic!(rt; "no request"),
    }
}

/// What a request is to a daemon that began 3.9 seconds after the clock's first moment: a message has at most 8 bytes, a delay at
/// most an hour, and a stop is served or not.
fn call_of_bytes(rt: &impl Abort, alloc: Global, stops: bool, bytes: &[u8]) -> HttpCall {
    let mut options = Options::defaults(alloc).expect(rt, "memory");
    options.max_msg_size = 8;
    options.http_stop = stops;
    let got = got_of(rt, alloc, options.max_body_size, bytes);
    call_of_got(rt, alloc, &options, got)
}

/// Checks a row.
pub(crate) fn check_call(rt: &impl Abort, alloc: Global, stops: bool, row: &'static [u8]) {
    let (name, rest) = cut(row, b'|');
    let (bytes, wanted) = cut(rest, b'|');
    let call = call_of_bytes(rt, alloc, stops, bytes);
    let text = text_of_call(rt, alloc, &call);
    let_go(call);
    check_row(rt, same(&text, wanted), name);
}

/// Takes what a request is apart.
fn let_go(_call: HttpCall) {}
