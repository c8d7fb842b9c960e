// A connection whose last bytes were sent.
ghost use Rattle.std.specs.Prelude.{◌<◌, length};
ghost use Rattle.nsq_outside.specs.Streams.{IsAmountRead};

use super::socket::Socket;
use crate::outbox::Outbox;
use crate::talker::{Talker, hear_out};
use mio::unix::SourceFd;
use mio::{Events, Poll};
use nsq_outside::Read;
use std::time::Duration;

/// How long a wait for the peer is while it is heard out, in milliseconds.
const WAIT: u64 = 1;

/// How long a peer that may be in the middle of a request is waited for, in milliseconds.
const PATIENCE: u64 = 200;

/// A connection whose last bytes were sent, and that is to be closed.
#[derive(Drop)]
pub(super) struct Closing {
    outbox: Outbox<Socket>,
    poll: Poll,
    events: Events,
    // Whether the peer may be in the middle of sending, with nothing of it here yet.
    may_send: bool,
}

impl Closing {
    pub(super) fn new(
        outbox: Outbox<Socket>,
        poll: Poll,
        events: Events,
        may_send: bool,
    ) -> Closing {
        Closing {
            outbox,
            poll,
            events,
            may_send,
        }
    }

    /// Ends what is sent. Where bytes of the peer are unread it hears the peer out, before the stream is closed by a drop: the
    /// system would answer them by a reset, in which the peer may lose what was sent last.
    pub(super) fn finish(&mut self) {
        if self.outbox.is_broken() || self.outbox.writer().finish().is_err() {
            return;
        }
        if self.is_unread() {
            // What comes doesn't cut a wait short any more, so that the time of all waits is known without a clock.
            let descriptor = self.outbox.writer().descriptor();
            let _ = self.poll.registry().deregister(&mut SourceFd(&descriptor));
            hear_out(self);
        }
    }

    /// Whether bytes of the peer are there. A peer that may be in the middle of sending is waited for until it sends or ends.
    fn is_unread(&mut self) -> bool {
        match self.drop_some() {
            Read::Nothing if self.may_send => {
                let _ = self
                    .poll
                    .poll(&mut self.events, Some(Duration::from_millis(PATIENCE)));
                is_some(self.drop_some())
            }
            answer => is_some(answer),
        }
    }

    /// Drops some of the peer's bytes, if any are there.
    fn drop_some(&self) -> Read {
        self.outbox.writer().receive(&mut [0u8; 64])
    }
}

/// Whether bytes came.
fn is_some(answer: Read) -> bool {
    match answer {
        Read::Got(_) => true,
        Read::Nothing | Read::End | Read::Failed => false,
    }
}

impl Talker for Closing {
    ghost reads = { λ _. 0 };

    ghost waits = { λ _. 0 };

    fn read(&mut self, into: &mut [u8]) -> Read {
        self.outbox.writer().receive(into)
    }

    fn wait(&mut self) {
        // A wait that fails is over at once, and counts.
        let _ = self
            .poll
            .poll(&mut self.events, Some(Duration::from_millis(WAIT)));
    }
}
