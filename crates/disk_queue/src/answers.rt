use crate::Queue;

/// The answer of `Queue::stage`.
#[derive(Clone, Copy, PartialEq)]
pub enum Stage {
    /// The record is staged.
    Staged,
    /// The folder failed, and its count of faults rose in this call.
    Fault,
    /// The record has more bytes than this limit.
    TooLong(u32),
}

/// The answer of a call that may save.
#[derive(Clone, Copy, PartialEq)]
pub enum Sync {
    /// No save was due.
    NotDue,
    /// A save was made.
    Done,
    /// The folder failed in the save, and its count of faults rose in this call. The list is as it is without a save, and the save
    /// stays due.
    Failed,
}

/// The answer of `Queue::put`.
#[derive(Clone, Copy, PartialEq)]
pub enum Put {
    /// The record is in the list; and whether that was saved.
    Stored(Sync),
    /// The folder failed, and its count of faults rose in this call.
    Fault,
    /// The record has more bytes than this limit.
    TooLong(u32),
}

/// The answer of `Queue::peek`.
#[derive(Clone, Copy, PartialEq)]
pub enum Peek {
    /// The first record has so many bytes, which stand at the start of the buffer.
    Got(usize),
    /// The list is empty.
    Empty,
    /// The folder failed, and its count of faults rose in this call.
    Fault,
    /// In the file of this number no record stands at this place, and this size is read there: 0 where fewer than four bytes are left.
    /// The file is passed over.
    Damaged(u64, u64, u32),
}

/// The answer of `Queue::take`.
#[derive(Clone, Copy, PartialEq)]
pub enum Take {
    /// The first record had so many bytes, which stand at the start of the buffer, and is taken; and whether that was saved.
    Got(usize, Sync),
    /// The list is empty.
    Empty,
    /// The folder failed, and its count of faults rose in this call.
    Fault,
    /// As the answer of `Queue::peek`.
    Damaged(u64, u64, u32),
}

/// The answer of `Queue::empty`.
#[derive(Clone, Copy, PartialEq)]
pub enum Emptied {
    /// The list is empty, and that is saved. Files that were read may still be there where their removal failed; the next save tries
    /// that again.
    Done,
    /// The folder failed, and its count of faults rose in this call. The list is as before.
    Fault,
}

/// The answer of `Queue::delete`.
#[derive(Drop)]
pub enum Deleted {
    /// An opening finds nothing. The queue's files are gone, but for data files that forgotten records began behind the next one and,
    /// where a removal failed, for that file and those that were to go after it: behind the first failure no removal is tried.
    Done,
    /// The folder failed, and its count of faults rose in this call. The queue, with the list as before.
    Fault(Queue),
}
