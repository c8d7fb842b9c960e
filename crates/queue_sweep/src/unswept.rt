use thiserror::Error;

/// Why not all files of unlisted queues were set aside. Those that were set aside stay so, and another call goes on with the rest.
#[derive(Clone, Copy, Debug, Error)]
pub enum Unswept {
    /// The folder failed, and its count of faults rose in this call.
    #[error("disk fault")]
    Fault,
    /// Want of memory.
    #[error("out of memory")]
    Memory,
}
