ghost use Rattle.std.specs.Prelude.{◌≡◌, true, IsTrue};
ghost use Rattle.broker_history.specs.Entries.{has_stop, own};
ghost use Rattle.daemon_callers.specs.Stops.{says_stopping, AddsStop};

use crate::letting::let_go;
use broker_history::{Call, Turned, Turner};
use std::alloc::Global;

/// Notes the Stop of the daemon. Where memory is wanting it is tried once more. Whether it was noted.
pub fn stop<T: Turner>(alloc: Global, floor: &mut T) -> bool
    ensures leads { T.leads 0 floor.old floor.new }
    ensures adds { IsTrue T.tells → AddsStop (own 0 (T.notes floor.old)) (own 0 (T.notes floor.new)) result }
    ensures noted { result ≡ true → IsTrue T.tells → has_stop (T.notes floor.new) ≡ true }
{
    if stop_once(alloc, floor) {
        return true;
    }
    stop_once(alloc, floor)
}

/// Takes one turn for the Stop. Whether the daemon stops.
fn stop_once<T: Turner>(alloc: Global, floor: &mut T) -> bool
    ensures leads { T.leads 0 floor.old floor.new }
    ensures adds { IsTrue T.tells → AddsStop (own 0 (T.notes floor.old)) (own 0 (T.notes floor.new)) result }
    ensures noted { result ≡ true → IsTrue T.tells → has_stop (T.notes floor.new) ≡ true }
{
    let turned = floor.take_turn(alloc, 0, Call::Stop);
    let stopping = is_stopping(&turned);
    let_go(turned);
    stopping
}

/// Whether a turn's answer is that the daemon stops.
fn is_stopping(turned: &Turned) -> bool
    ensures { result ≡ says_stopping turned.now }
{
    matches!(turned, Turned::Stopping)
}
