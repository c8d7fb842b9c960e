use queue_image::Positions;

/// The records behind the list that aren't in it yet.
#[derive(Clone, Copy)]
pub struct Staged {
    /// The number of the file where they end.
    pub file: u64,
    /// The place in it behind the last of them.
    pub at: u64,
    /// How many there are.
    pub count: u128,
}

/// What is known of the last save.
#[derive(Clone, Copy)]
pub struct LastSave {
    /// The positions that the last finished save wrote; before the first one those of the queue's making.
    pub positions: Positions,
    /// Whether a save was ever finished.
    pub finished: bool,
    /// How many records were committed and advanced since, as far as 64 bits count.
    pub since: u64,
    /// Whether a save failed since.
    pub failed: bool,
}
