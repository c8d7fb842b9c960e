/// What is wrong in a V2 stream.
#[derive(Clone, Copy, PartialEq)]
pub enum FaultKind {
    /// The stream doesn't begin with the four bytes `  V2`.
    BadMagic,
    /// A line has more than 16,384 bytes before its line end.
    LineTooLong,
    /// A line is no command: an unknown word, a wrong number of words, an empty word, or a number or an id that is none.
    BadWord,
    /// A command's topic is no name.
    BadTopic,
    /// A command's channel is no name.
    BadChannel,
    /// The size of a message, also of one in an `MPUB`, is 0 or above the greatest one.
    BadSize,
    /// The size of an `IDENTIFY` or of an `MPUB` is 0 or above the greatest one, or an `MPUB` has no count, a count of 0, too
    /// few bytes for its messages, or bytes behind the last one.
    BadBody,
}

impl FaultKind {
    ghost use Rattle.std.specs.Prelude.{◌≡◌};
    ghost use Rattle.v2_frame.specs.Written.{fault_text};

    /// The error text that a daemon answers to the fault.
    pub fn text(self) -> &'static [u8]
        ensures { result.now ≡ fault_text self }
    {
        match self {
            FaultKind::BadMagic => b"E_BAD_PROTOCOL",
            FaultKind::LineTooLong => b"E_INVALID line too long",
            FaultKind::BadWord => b"E_INVALID bad command",
            FaultKind::BadTopic => b"E_BAD_TOPIC bad topic name",
            FaultKind::BadChannel => b"E_BAD_CHANNEL bad channel name",
            FaultKind::BadSize => b"E_BAD_MESSAGE bad size",
            FaultKind::BadBody => b"E_BAD_BODY bad body",
        }
    }
}

/// A fault of a stream. Nothing behind it is read.
#[derive(Clone, Copy, PartialEq)]
pub struct Fault {
    /// What is wrong.
    pub kind: FaultKind,
    /// The place of the first byte of the field at fault, counted from 0 at the stream's first byte, and at most 2^63.
    pub at: u64,
}

/// The greatest sizes that a stream's reader takes, in bytes.
#[derive(Clone, Copy)]
pub struct Limits {
    /// The greatest size of a message's body.
    pub msg: u32,
    /// The greatest size of what stands behind the line of an `IDENTIFY` or an `MPUB`.
    pub body: u32,
}

/// What stands behind the commands of a stream.
#[derive(Clone, Copy, PartialEq)]
pub enum Rest {
    /// Nothing, or the beginning of a command in which no fault can be told yet.
    Unfinished,
    /// The stream's fault.
    Faulty(Fault),
}
