/// How a deletion ended.
#[derive(Clone, Copy)]
pub enum Lost {
    /// It is gone, with its messages.
    Done,
    /// The folder failed, and its count of faults rose in this call. All is as it was.
    Fault,
}
