ghost use Rattle.std.specs.Prelude.{◌≡◌, IsTrue};
ghost use Rattle.broker_history.specs.Entries.{own};
ghost use Rattle.daemon_tick.specs.Ticks.{IsTicked, ticked_of};

use broker_history::{Call, Turned, Turner};
use std::alloc::Global;

/// How a tick was answered.
#[derive(Clone, Copy)]
pub enum Ticked {
    /// It was made.
    Quiet,
    /// The daemon has stopped.
    Stopping,
    /// Want of memory.
    Memory,
}

/// Takes the daemon's turn that begins a round: what is due is moved, and queues that weren't saved for the sync timeout are saved. A tick that was made
/// is noted, and none of the daemon's own entries with it; where it is answered that the daemon stops, a Stop stands in the history.
pub fn tick<T: Turner>(alloc: Global, floor: &mut T) -> Ticked
    ensures leads { T.leads 0 floor.old floor.new }
    ensures nothing { IsTrue T.tells → own 0 (T.notes floor.new) ≡ own 0 (T.notes floor.old) }
    ensures noted { IsTrue T.tells → IsTicked result (T.notes floor.old) (T.notes floor.new) }
{
    let turned = floor.take_turn(alloc, 0, Call::Tick);
    answer_of(&turned)
}

/// How a tick was answered.
fn answer_of(turned: &Turned) -> Ticked
    ensures { result ≡ ticked_of turned.now }
{
    if matches!(turned, Turned::Quiet) {
        return Ticked::Quiet;
    }
    if matches!(turned, Turned::Stopping) {
        return Ticked::Stopping;
    }
    Ticked::Memory
}
