use crate::TopicQueue;

/// The answer of `TopicQueue::take_head`.
#[derive(Clone, Copy, PartialEq)]
pub enum Head {
    /// The first message that waits is drawn. `settle_head` takes it, `undo_head` puts it back.
    Ready,
    /// None waits.
    Empty,
    /// The folder failed, and its count of faults rose in this call.
    Fault,
    /// Where the first message on disk should be no record stands. The file is passed over.
    Damaged,
    /// Want of memory for the owed channels, or for the message, which is on disk and stays there.
    Memory,
}

/// The answer of `TopicQueue::delete`.
#[derive(Drop)]
pub enum DropTopic {
    /// All its messages are gone, and an opening finds none. Files may be left where a removal failed.
    Done,
    /// The folder failed, and its count of faults rose in this call. The topic's queue, with all its messages.
    Fault(TopicQueue),
}
