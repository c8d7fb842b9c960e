ghost use Rattle.std.specs.Prelude.{◌≡◌, length};
ghost use Rattle.broker_history.specs.Talk.{longest_piece};

use nsq_core::Memory;
use std::alloc::Global;

/// The most bytes that one read takes.
const LONGEST_PIECE: usize = 16_384;

/// The buffers of a connection, which are used again and again.
#[derive(Drop)]
pub(crate) struct Buffers {
    /// Where a piece is read.
    pub piece: Vec<u8>,
    /// Where a frame is made.
    pub out: Vec<u8>,
    ghost whole: { length piece.items ≡ longest_piece },
}

/// New buffers. Want of memory is the only error.
pub(crate) fn new_buffers(alloc: Global) -> Result<Buffers, Memory> {
    Ok(Buffers {
        piece: vec![in alloc; 0u8; LONGEST_PIECE]?,
        out: Vec::new(alloc),
    })
}
