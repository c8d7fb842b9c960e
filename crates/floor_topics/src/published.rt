/// How a publish ended.
#[derive(Clone, Copy)]
pub enum Published {
    /// Its messages were put, and each used an id.
    Done,
    /// The folder failed, and its count of faults rose in this call. No message was put, no id was used, and no topic was made.
    Fault,
}
