/// How a topic's deletion ended.
#[derive(Clone, Copy)]
pub enum Deleted {
    /// It is gone, with its channels and all their messages.
    Done,
    /// The folder failed, and its count of faults rose in this call, behind so many channels, which are gone, the first ones in byte order of their
    /// names. All else is as it was.
    Fault(u64),
}
