/// What a queue is told at its making.
#[derive(Clone, Copy)]
pub struct QueueOptions {
    /// The greatest number of bytes of a data file that has more than one record; but the file of the greatest number, 2^40, takes
    /// all that follow.
    pub max_bytes: u64,
    /// After how many records, committed and advanced, a save is due.
    pub sync_every: u64,
    /// The least number of bytes of a record.
    pub least: u32,
    /// The greatest number of bytes of a record.
    pub limit: u32,
}
