ghost use Rattle.std.specs.Prelude.{◌≡◌, MatchResult, Some};
ghost use Rattle.v2_frame.specs.Heading.{Sub};
ghost use Rattle.v2_frame.specs.Judging.{sizing_of};
ghost use Rattle.v2_frame.specs.Parts.{seen_heading, sized_heading, IsStart, HasBadName};

use crate::heading::Heading;
use crate::{Command, FaultKind, Limits};
use nsq_base::{Chan, Topic};

/// A command whose line has come.
#[derive(Drop)]
pub(crate) enum Start {
    /// The whole command: nothing stands behind its line.
    Alone(Command),
    /// A size and so many bytes stand behind the line.
    Sized(Sized),
}

/// A command that has a size and so many bytes behind its line.
#[derive(Drop)]
pub(crate) enum Sized {
    /// `IDENTIFY`
    Identify,
    /// `PUB` with its topic
    Pub(Topic),
    /// `MPUB` with its topic
    Mpub(Topic),
    /// `DPUB` with its topic and its delay
    Dpub(Topic, i64),
}

/// Judges the names of a heading: BadTopic where its topic is no name, BadChannel where its topic is one and its channel
/// isn't.
pub(crate) fn start_of(heading: Heading<'_>) -> Result<Start, FaultKind>
    ensures { MatchResult result (λ start. IsStart (seen_heading heading.entry) start) (λ kind. HasBadName (seen_heading heading.entry) kind) }
{
    match heading {
        Heading::Identify => Ok(Start::Sized(Sized::Identify)),
        Heading::Sub(topic, channel) => sub_of(topic, channel),
        Heading::Pub(topic) => match Topic::read(topic) {
            Some(topic) => Ok(Start::Sized(Sized::Pub(topic))),
            None => Err(FaultKind::BadTopic),
        },
        Heading::Mpub(topic) => match Topic::read(topic) {
            Some(topic) => Ok(Start::Sized(Sized::Mpub(topic))),
            None => Err(FaultKind::BadTopic),
        },
        Heading::Dpub(topic, delay) => match Topic::read(topic) {
            Some(topic) => Ok(Start::Sized(Sized::Dpub(topic, delay))),
            None => Err(FaultKind::BadTopic),
        },
        Heading::Rdy(count) => Ok(Start::Alone(Command::Rdy(count))),
        Heading::Fin(id) => Ok(Start::Alone(Command::Fin(id))),
        Heading::Req(id, delay) => Ok(Start::Alone(Command::Req(id, delay))),
        Heading::Touch(id) => Ok(Start::Alone(Command::Touch(id))),
        Heading::Cls => Ok(Start::Alone(Command::Cls)),
        Heading::Nop => Ok(Start::Alone(Command::Nop)),
    }
}

/// Judges the names of a `SUB`.
fn sub_of(topic: &[u8], channel: &[u8]) -> Result<Start, FaultKind>
    ensures { MatchResult result (λ start. IsStart (Sub topic.now channel.now) start) (λ kind. HasBadName (Sub topic.now channel.now) kind) }
{
    let Some(topic) = Topic::read(topic) else {
        return Err(FaultKind::BadTopic);
    };
    let Some(channel) = Chan::read(channel) else {
        return Err(FaultKind::BadChannel);
    };
    Ok(Start::Alone(Command::Sub(topic, channel)))
}

impl Sized {
    /// The greatest size of what stands behind the line, and the fault that another size is.
    pub(crate) fn sizing(&self, limits: Limits) -> (u32, FaultKind)
        ensures { sizing_of limits (sized_heading self.now) ≡ Some (record { most = result.0; wrong = result.1 }) }
    {
        match self {
            Sized::Identify | Sized::Mpub(_) => (limits.body, FaultKind::BadBody),
            Sized::Pub(_) | Sized::Dpub(_, _) => (limits.msg, FaultKind::BadSize),
        }
    }
}
