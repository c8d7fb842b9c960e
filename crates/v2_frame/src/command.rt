ghost use Rattle.std.specs.Prelude.{◌≡◌, IfOk};

use nsq_base::{Bodies, Body, Chan, Memory, MsgId, Topic};
use std::alloc::Global;

/// A command of a client (nsq.io, TCP Protocol Spec): a line of words parted by single spaces, and behind it for some of
/// them a size of 4 bytes, most significant first, and so many bytes.
#[derive(Drop)]
pub enum Command {
    /// `IDENTIFY`, then a size and a JSON text that says what the client is.
    Identify(Body),
    /// `SUB topic channel`: take messages of this channel from now on.
    Sub(Topic, Chan),
    /// `PUB topic`, then a size and the message's body.
    Pub(Topic, Body),
    /// `MPUB topic`, then the size of all that follows, the count of the messages in 4 bytes, and each message's body behind
    /// its size.
    Mpub(Topic, Bodies),
    /// `DPUB topic number`, then a size and the message's body. The number is the delay in milliseconds.
    Dpub(Topic, i64, Body),
    /// `RDY number`: so many messages may be in flight. `RDY` alone is 1.
    Rdy(i64),
    /// `FIN id`: the message was handled.
    Fin(MsgId),
    /// `REQ id number`: the message is to come again, after so many milliseconds.
    Req(MsgId, i64),
    /// `TOUCH id`: the client needs more time for the message.
    Touch(MsgId),
    /// `CLS`: no further messages are wanted.
    Cls,
    /// `NOP`: nothing, as an answer to a heartbeat.
    Nop,
}

impl Command {
    /// A command that equals this one. Want of memory is the only error.
    pub fn copy(&self, alloc: Global) -> Result<Command, Memory>
        ensures { IfOk result (λ command. command ≡ self.now) }
    {
        match self {
            Command::Identify(body) => Ok(Command::Identify(Body::copy(alloc, body.bytes())?)),
            Command::Sub(topic, channel) => Ok(Command::Sub(*topic, *channel)),
            Command::Pub(topic, body) => {
                Ok(Command::Pub(*topic, Body::copy(alloc, body.bytes())?))
            }
            Command::Mpub(topic, bodies) => Ok(Command::Mpub(*topic, bodies.copy(alloc)?)),
            Command::Dpub(topic, delay, body) => {
                let body = Body::copy(alloc, body.bytes())?;
                Ok(Command::Dpub(*topic, *delay, body))
            }
            Command::Rdy(count) => Ok(Command::Rdy(*count)),
            Command::Fin(id) => Ok(Command::Fin(*id)),
            Command::Req(id, delay) => Ok(Command::Req(*id, *delay)),
            Command::Touch(id) => Ok(Command::Touch(*id)),
            Command::Cls => Ok(Command::Cls),
            Command::Nop => Ok(Command::Nop),
        }
    }
}
