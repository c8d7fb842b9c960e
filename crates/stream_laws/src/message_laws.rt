ghost use Rattle.v2_frame.specs.Messages.{MessageBytesAreOne};

/// Messages of equal bytes are equal but for their delays. So what `Message::put` wrote is read again by `Message::take`, with
/// no delay. It does nothing: its contract is the law.
pub fn message_bytes_are_one()
    ensures { MessageBytesAreOne }
{}
