ghost use Rattle.std.specs.Prelude.{◌≡◌, length, IsTrue, false};
ghost use Rattle.floor_serving.specs.Scenes.{IsTied};

use crate::sound::SoundHall;
use broker_history::Entry;
use nsq_outside::{Clock, Folder, Journal};

/// A daemon's topics, channels and clients with its folder, its clock and its journal. One turn is one event of the history, behind the moves that were
/// due before it.
#[derive(Drop)]
pub struct Floor<F: Folder, C: Clock, J: Journal<Entry>> {
    pub(crate) folder: F,
    pub(crate) clock: C,
    pub(crate) journal: J,
    pub(crate) held: SoundHall,
    // Room for the longest message, as it is written to a queue.
    pub(crate) scratch: Vec<u8>,
    ghost calm: { J.is_aside journal ≡ false },
    ghost tied: { IsTrue J.tells_notes → IsTied held.hall (J.notes journal) },
    ghost room: { length scratch.items ≡ 16777242 },
}
