ghost use Rattle.std.specs.Prelude.{◌≡◌};
ghost use Rattle.daemon_endings.specs.Endings.{ending_of, refusal_of};

use crate::ends::{LoopEnd, ShutEnd, Why};

/// How a run that serves ended.
#[derive(Clone, Copy)]
pub enum ServeEnd {
    /// A clean stop.
    Clean,
    /// The file of names in the data path, or the metadata of a queue that it lists, isn't in its grammar.
    BadData,
    /// No further epoch is left for ids.
    EpochSpent,
    /// The folder failed while it was opened.
    OpeningFault,
    /// The folder failed at the stop.
    StopFault,
    /// The listeners failed, at the start or behind the last caller.
    AcceptFailed,
    /// Want of memory.
    Memory,
}

/// How a run ends: of want of memory, a fault of the folder at the stop and a fault of the listeners the first counts.
pub fn ending_after(looped: LoopEnd, stopped: bool, shutting: ShutEnd) -> ServeEnd
    ensures { result ≡ ending_of looped stopped shutting }
{
    if !stopped {
        return ServeEnd::Memory;
    }
    match (looped, shutting) {
        (LoopEnd::Memory, _) | (_, ShutEnd::Memory) => ServeEnd::Memory,
        (_, ShutEnd::Fault) => ServeEnd::StopFault,
        (LoopEnd::Failed, ShutEnd::Clean) => ServeEnd::AcceptFailed,
        (LoopEnd::Halted | LoopEnd::Stopped, ShutEnd::Clean) => ServeEnd::Clean,
    }
}

/// How a run ends whose folder wasn't opened.
pub fn refusal(why: Why) -> ServeEnd
    ensures { result ≡ refusal_of why }
{
    match why {
        Why::BadData => ServeEnd::BadData,
        Why::EpochSpent => ServeEnd::EpochSpent,
        Why::Fault => ServeEnd::OpeningFault,
        Why::Memory => ServeEnd::Memory,
    }
}
