use crate::{Command, Fault};

/// What a reader gives.
#[derive(Drop)]
pub enum Got {
    /// The next command.
    Whole(Command),
    /// No whole command is there yet, and no fault: feed a further piece.
    More,
    /// The stream's fault. The reader gives it from now on, whatever it is fed.
    Fault(Fault),
    /// Memory is wanting for what stands behind the line of the next command. Nothing is lost: ask again.
    Memory,
}

/// How far a reader has come.
#[derive(Clone, Copy)]
pub(crate) enum Stage {
    /// The magic isn't read yet.
    Opening,
    /// The magic is read.
    Commands,
    /// A fault was found.
    Failed(Fault),
}
