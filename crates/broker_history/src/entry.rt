ghost use Rattle.std.specs.Prelude.{◌≡◌, IfOk};
ghost use Rattle.broker_history.specs.declared.entry.Act.TheVariants.{Did, Refused, Sent, Asked, Listed, Took, Copied};

use crate::{Ask, Said};
use nsq_base::{Chan, Memory, MsgId, Names, Topic};
use nsq_outside::Twin;
use std::alloc::Global;
use v2_frame::{Command, Fault, Frame, Message};

/// What was done.
#[derive(Drop)]
pub enum Act {
    /// A connection began.
    Began,
    /// A whole command of a connection was taken, with its reply if it has one. Where the entry ended with a disk fault, the
    /// client got the disk fault's error in place of this reply.
    Did(Command, Option<Frame>),
    /// A connection's bytes had a fault, which was answered with this frame.
    Refused(Fault, Frame),
    /// A message was sent to the client.
    Sent(Message),
    /// A heartbeat was sent to the client.
    Beat,
    /// There was nothing to send to the client.
    Idle,
    /// The client was silent for too long.
    Silent,
    /// The client's channel was deleted.
    Dropped,
    /// A connection ended.
    Gone,
    /// Something was asked over HTTP, and this was said. Where the entry ended with a disk fault, the disk fault was said in
    /// place of it.
    Asked(Ask, Said),
    /// The names of all topics and channels were listed.
    Listed(Names),
    /// The daemon looked at its clock.
    Ticked,
    /// The daemon stopped taking commands.
    Stop,
    /// A move: a topic took a message, which is owed to the channels that are listed.
    Took(Topic, Message, Names),
    /// A move: a channel got its copy of the message that its topic took.
    Copied(Topic, Chan, Message),
    /// A move: a copy in flight was due, and is put back.
    TimedOut(Topic, Chan, MsgId),
    /// A move: a deferred copy was due, and is put back.
    CameDue(Topic, Chan, MsgId),
    /// A move: a copy whose id is in flight came up, and is deferred.
    HeldBack(Topic, Chan, MsgId),
    /// A disk fault kept a topic from taking a message, or a client from getting one of its channel.
    Stuck(Topic, Option<Chan>),
}

/// One thing that happened.
#[derive(Drop)]
pub struct Entry {
    /// The connection's number, from 1 on. 0 is the daemon itself.
    pub conn: u64,
    /// The moment, in nanoseconds.
    pub at: u64,
    /// What was done.
    pub act: Act,
}

impl Twin for Act {
    fn twin(&self, alloc: Global) -> Result<Act, Memory> {
        match self {
            Act::Did(command, reply) => did_twin(alloc, command, reply),
            Act::Refused(fault, frame) => refused_twin(alloc, *fault, frame),
            Act::Sent(message) => sent_twin(alloc, message),
            Act::Asked(ask, said) => asked_twin(alloc, ask, said),
            Act::Listed(names) => listed_twin(alloc, names),
            Act::Took(topic, message, names) => took_twin(alloc, *topic, message, names),
            Act::Copied(topic, channel, message) => copied_twin(alloc, *topic, *channel, message),
            Act::TimedOut(topic, channel, id) => Ok(Act::TimedOut(*topic, *channel, *id)),
            Act::CameDue(topic, channel, id) => Ok(Act::CameDue(*topic, *channel, *id)),
            Act::HeldBack(topic, channel, id) => Ok(Act::HeldBack(*topic, *channel, *id)),
            Act::Stuck(topic, channel) => Ok(Act::Stuck(*topic, *channel)),
            Act::Began => Ok(Act::Began),
            Act::Beat => Ok(Act::Beat),
            Act::Idle => Ok(Act::Idle),
            Act::Silent => Ok(Act::Silent),
            Act::Dropped => Ok(Act::Dropped),
            Act::Gone => Ok(Act::Gone),
            Act::Ticked => Ok(Act::Ticked),
            Act::Stop => Ok(Act::Stop),
        }
    }
}

impl Twin for Entry {
    fn twin(&self, alloc: Global) -> Result<Entry, Memory> {
        Ok(Entry {
            conn: self.conn,
            at: self.at,
            act: self.act.twin(alloc)?,
        })
    }
}

// A copy of a reply, if there is one.
fn copy_reply(alloc: Global, reply: &Option<Frame>) -> Result<Option<Frame>, Memory>
    ensures { IfOk result (λ copy. copy ≡ reply.now) }
{
    match reply {
        Some(frame) => Ok(Some(frame.copy(alloc)?)),
        None => Ok(None),
    }
}

fn did_twin(alloc: Global, command: &Command, reply: &Option<Frame>) -> Result<Act, Memory>
    ensures { IfOk result (λ t. t ≡ Did command.now reply.now) }
{
    let reply = copy_reply(alloc, reply)?;
    Ok(Act::Did(command.copy(alloc)?, reply))
}

fn refused_twin(alloc: Global, fault: Fault, frame: &Frame) -> Result<Act, Memory>
    ensures { IfOk result (λ t. t ≡ Refused fault frame.now) }
{
    Ok(Act::Refused(fault, frame.copy(alloc)?))
}

fn sent_twin(alloc: Global, message: &Message) -> Result<Act, Memory>
    ensures { IfOk result (λ t. t ≡ Sent message.now) }
{
    Ok(Act::Sent(message.copy(alloc)?))
}

fn asked_twin(alloc: Global, ask: &Ask, said: &Said) -> Result<Act, Memory>
    ensures { IfOk result (λ t. t ≡ Asked ask.now said.now) }
{
    let said = said.twin(alloc)?;
    Ok(Act::Asked(ask.twin(alloc)?, said))
}

fn listed_twin(alloc: Global, names: &Names) -> Result<Act, Memory>
    ensures { IfOk result (λ t. t ≡ Listed names.now) }
{
    Ok(Act::Listed(names.copy(alloc)?))
}

fn took_twin(alloc: Global, topic: Topic, message: &Message, names: &Names) -> Result<Act, Memory>
    ensures { IfOk result (λ t. t ≡ Took topic message.now names.now) }
{
    let names = names.copy(alloc)?;
    Ok(Act::Took(topic, message.copy(alloc)?, names))
}

fn copied_twin(alloc: Global, topic: Topic, channel: Chan, message: &Message) -> Result<Act, Memory>
    ensures { IfOk result (λ t. t ≡ Copied topic channel message.now) }
{
    Ok(Act::Copied(topic, channel, message.copy(alloc)?))
}
