use crate::output::same;
use nsq_base::{Bodies, Body};
use v2_frame::Command;

// What a command says, but for the bodies of a batch: its place among the commands, and as many names, texts and numbers as it has.
#[derive(Clone, Copy)]
struct Words<'a> {
    verb: u8,
    name: &'a [u8],
    text: &'a [u8],
    number: i64,
}

/// Whether two commands are equal.
pub fn same_command(a: &Command, b: &Command) -> bool {
    is_said(said(a), said(b)) && same_bodies(bodies_of(a), bodies_of(b))
}

// Whether both say the same.
fn is_said(a: Words<'_>, b: Words<'_>) -> bool {
    a.verb == b.verb && a.number == b.number && same(a.name, b.name) && same(a.text, b.text)
}

// What a command says.
fn said(command: &Command) -> Words<'_> {
    match command {
        Command::Identify(body) => of(0, b"", body.bytes(), 0),
        Command::Sub(topic, channel) => of(1, topic.bytes(), channel.bytes(), 0),
        Command::Pub(topic, body) => of(2, topic.bytes(), body.bytes(), 0),
        Command::Mpub(topic, _) => of(3, topic.bytes(), b"", 0),
        Command::Dpub(topic, delay, body) => of(4, topic.bytes(), body.bytes(), *delay),
        Command::Rdy(count) => of(5, b"", b"", *count),
        Command::Fin(id) => of(6, id.bytes(), b"", 0),
        Command::Req(id, delay) => of(7, id.bytes(), b"", *delay),
        Command::Touch(id) => of(8, id.bytes(), b"", 0),
        Command::Cls => of(9, b"", b"", 0),
        Command::Nop => of(10, b"", b"", 0),
    }
}

// A verb, a name, a text and a number.
fn of<'a>(verb: u8, name: &'a [u8], text: &'a [u8], number: i64) -> Words<'a> {
    Words {
        verb,
        name,
        text,
        number,
    }
}

// The bodies of a batch.
fn bodies_of(command: &Command) -> Option<&Bodies> {
    match command {
        Command::Mpub(_, bodies) => Some(bodies),
        _ => None,
    }
}

// Whether both are equal lists of bodies, or none.
fn same_bodies(a: Option<&Bodies>, b: Option<&Bodies>) -> bool {
    match (a, b) {
        (Some(a), Some(b)) => are_same(a.as_slice(), b.as_slice()),
        (None, None) => true,
        _ => false,
    }
}

// Whether both are equal lists.
fn are_same(a: &[Body], b: &[Body]) -> bool {
    let mut all = a.len() == b.len();
    for (one, other) in a.iter().zip(b) {
        all &= same(one.bytes(), other.bytes());
    }
    all
}
