/// How the loop over the callers ended.
#[derive(Clone, Copy)]
pub enum LoopEnd {
    /// Nobody will call any more, or as many called as there are numbers.
    Halted,
    /// The listeners failed, and their count of faults rose.
    Failed,
    /// The daemon had stopped.
    Stopped,
    /// Want of memory for a tick.
    Memory,
}

/// How a floor was shut.
#[derive(Clone, Copy)]
pub enum ShutEnd {
    /// All that was left is in the folder, durably: the messages and the names.
    Clean,
    /// The folder failed: its count of faults rose in this call, or a disk fault had kept the Stop's turn from paying all that was owed.
    Fault,
    /// Want of memory for the text of the file of names, or one of more than 16 MiB. The messages were written, as far as the folder let them.
    Memory,
}

/// Why a folder wasn't opened.
#[derive(Clone, Copy)]
pub enum Why {
    /// The file of names, or the metadata of a queue that it lists, isn't in its grammar.
    BadData,
    /// The last run had the last epoch.
    EpochSpent,
    /// The folder failed, and its count of faults rose in this call.
    Fault,
    /// Want of memory.
    Memory,
}
