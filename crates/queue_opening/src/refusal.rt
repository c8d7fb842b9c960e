ghost use Rattle.std.specs.Prelude.{◌≡◌};
ghost use Rattle.queue_opening.specs.declared.refusal.Open.TheVariants.{Memory};

use nsq_core::Memory;
use thiserror::Error;

/// Why a queue wasn't opened.
#[derive(Clone, Copy, Debug, Error)]
pub enum Open {
    /// The folder failed, and its count of faults rose in this call. Another opening finds the same list.
    #[error("disk fault")]
    Fault,
    /// The metadata isn't in its grammar.
    #[error("bad metadata")]
    BadMeta,
    /// Want of memory.
    #[error("out of memory")]
    Memory,
}

impl From<Memory> for Open {
    ghost from_gives = { λ _ e. e ≡ Memory };

    fn from(_error: Memory) -> Open {
        Open::Memory
    }
}
