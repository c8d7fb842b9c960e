ghost use Rattle.std.specs.Prelude.{◌≡◌};

use nsq_base::MsgId;
use v2_frame::Message;

/// A copy in flight.
#[derive(Drop)]
pub struct Flight {
    /// What was sent, with the attempts made.
    pub message: Message,
    /// The number of the client that it is with.
    pub client: u64,
    /// The moment from which on it is due back, in nanoseconds.
    pub due: u64,
    /// The moment of its sending, in nanoseconds: at most 2^62.
    pub sent: u64,
}

impl Flight {
    /// The message's id.
    pub(crate) fn id(&self) -> MsgId
        ensures { result ≡ self.now.message.id }
    {
        self.message.id
    }
}
