/// The answer of a call that is carried out or fails.
#[derive(Clone, Copy, PartialEq)]
pub enum Did {
    /// It was carried out.
    Done,
    /// It failed, and the count of faults of the object that was asked rose in this call.
    Failed,
}
