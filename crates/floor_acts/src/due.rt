/// What a client that is ready for it is to be sent.
#[derive(Clone, Copy)]
pub enum NextDue {
    /// Its channel was deleted.
    Dropped,
    /// It was silent for too long.
    Silent,
    /// A heartbeat.
    Beat,
    /// Nothing: it has no channel, or gets no more messages.
    Nothing,
    /// A message of the channel at these places of the hall, if it may get one.
    Message(usize, usize),
}
