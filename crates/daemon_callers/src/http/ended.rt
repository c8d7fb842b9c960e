/// How an HTTP connection ended.
#[derive(Clone, Copy)]
pub enum EndedHttp {
    /// The answer was written whole.
    Answered,
    /// The source answered the end before any byte.
    EndOfInput,
    /// The source answered the end behind a byte at least, while the request was neither whole nor refused.
    Cut,
    /// The daemon stops, and the request was neither whole nor refused.
    Closed,
    /// A read failed.
    ReadFault,
    /// A write failed.
    WriteFault,
    /// Memory was wanting.
    Memory,
}
