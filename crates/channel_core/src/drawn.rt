ghost use Rattle.std.specs.Prelude.{◌≡◌};
ghost use Rattle.channel_core.specs.Drawn.{attempts_of, held_of};

use nsq_base::MsgId;
use v2_frame::Message;

/// A copy that was drawn, and is to be sent.
#[derive(Clone, Copy)]
pub struct Sending {
    /// The number of the client that it is for.
    pub client: u64,
    /// Its id.
    pub id: MsgId,
    /// How often it was sent before.
    pub attempts: u16,
    /// The moment of the drawing.
    pub now: u64,
}

/// What was drawn last, where it isn't settled yet.
#[derive(Drop)]
pub enum Drawn {
    /// Nothing.
    Nothing,
    /// A copy that `sent` puts in flight, or `unsend` puts back. The caller has its message.
    ToSend(Sending),
    /// A copy whose id is in flight, which `settle_held` defers, or `undo_held` puts back; and the moment of the drawing.
    ToHold(Message, u64),
}

impl Drawn {
    // The message that is to be held back, where there is one.
    pub(crate) fn held(self) -> Option<Message>
        ensures { result ≡ held_of self }
    {
        match self {
            Drawn::ToHold(message, _) => Some(message),
            Drawn::Nothing | Drawn::ToSend(_) => None,
        }
    }

    // How often a message to be sent was sent before; these attempts where none is to be sent.
    pub(crate) fn attempts_before(&self, attempts: u16) -> u16
        ensures { result ≡ attempts_of self.now attempts }
    {
        match self {
            Drawn::ToSend(sending) => sending.attempts,
            Drawn::Nothing | Drawn::ToHold(_, _) => attempts,
        }
    }
}
