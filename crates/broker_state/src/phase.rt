/// What a client may do.
#[derive(Clone, Copy, PartialEq, Eq)]
pub enum Phase {
    /// It has no channel yet.
    Fresh,
    /// It gets messages.
    Subscribed,
    /// It gets no more of them.
    Closing,
    /// Its channel was deleted.
    Lost,
}
