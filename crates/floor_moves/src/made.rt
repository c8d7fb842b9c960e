/// How a move ended.
#[derive(Clone, Copy)]
pub enum Made {
    /// It was made, and noted.
    Done,
    /// A disk fault kept it off, which was noted.
    Stuck,
    /// Memory was wanting, and nothing was done.
    Memory,
}
