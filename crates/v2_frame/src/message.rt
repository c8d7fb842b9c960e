ghost use Rattle.std.specs.Prelude.{◌≡◌, ◌+◌, ◌≤◌, ◌++◌, length, drop, IfOk};
ghost use Rattle.v2_frame.specs.Written.{message_bytes};
ghost use Rattle.v2_frame.specs.Messages.{IsTaken};

use nsq_base::{Body, Memory, MsgId};
use std::alloc::Global;

/// How many bytes stand before a message's body.
const HEAD: usize = 26;

/// A message (nsq.io, TCP Protocol Spec). On the wire and on disk it is the timestamp in 8 bytes, the attempts in 2, the id
/// in 16, and the body; numbers have their most significant byte first. The delay isn't written.
#[derive(Drop)]
pub struct Message {
    /// The moment of its publishing, in nanoseconds.
    pub stamp: u64,
    /// How often it was sent.
    pub attempts: u16,
    /// Its id.
    pub id: MsgId,
    /// Its body.
    pub body: Body,
    /// How long it is held back once it comes to a channel, in nanoseconds.
    pub delay: u64,
}

/// What bytes are as a message.
#[derive(Drop)]
pub enum Taken {
    /// The message that they are.
    Whole(Message),
    /// Fewer than the 26 bytes that stand before a body.
    Short,
    /// There is no memory for the body.
    Memory,
}

impl Message {
    /// Writes the message to the front of `into`, and returns how many bytes it has: 26 and those of its body. What stands
    /// behind them stays. It requires that so many bytes fit.
    pub fn put(&self, into: &mut [u8]) -> usize
        requires { 26 + length self.now.body ≤ length into.old }
        ensures size { result ≡ 26 + length self.now.body }
        ensures bytes { into.new ≡ message_bytes self.now ++ drop (26 + length self.now.body) into.old }
    {
        let body = self.body.bytes();
        let end = HEAD + body.len();
        into[..8].copy_from_slice(&self.stamp.to_be_bytes());
        into[8..10].copy_from_slice(&self.attempts.to_be_bytes());
        into[10..HEAD].copy_from_slice(self.id.bytes());
        into[HEAD..end].copy_from_slice(body);
        end
    }

    /// The message that the bytes are, with no delay: all behind the first 26 is its body, which is copied.
    pub fn take(alloc: Global, bytes: &[u8]) -> Taken
        ensures { IsTaken bytes.now result }
    {
        let Some((stamp, rest)) = bytes.split_first_chunk::<8>() else {
            return Taken::Short;
        };
        let Some((attempts, rest)) = rest.split_first_chunk::<2>() else {
            return Taken::Short;
        };
        if rest.len() < 16 {
            return Taken::Short;
        }
        let (id, body) = rest.split_at(16);
        let Some(id) = MsgId::read(id) else {
            return Taken::Short;
        };
        let Ok(body) = Body::copy(alloc, body) else {
            return Taken::Memory;
        };
        Taken::Whole(Message {
            stamp: u64::from_be_bytes(*stamp),
            attempts: u16::from_be_bytes(*attempts),
            id,
            body,
            delay: 0,
        })
    }

    /// A message that equals this one. Want of memory is the only error.
    pub fn copy(&self, alloc: Global) -> Result<Message, Memory>
        ensures { IfOk result (λ message. message ≡ self.now) }
    {
        let body = Body::copy(alloc, self.body.bytes())?;
        Ok(Message {
            stamp: self.stamp,
            attempts: self.attempts,
            id: self.id,
            body,
            delay: self.delay,
        })
    }
}
