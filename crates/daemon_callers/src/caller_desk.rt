ghost use Rattle.std.specs.Prelude.{◌<◌, ◌↔◌, IsTrue};
ghost use Rattle.nsq_outside.specs.Causes.{CountsFault};
ghost use Rattle.broker_history.specs.Answers.{stays_for_memory};
ghost use Rattle.broker_history.specs.declared.turned.Turned.TheVariants.{Memory};

use broker_history::{Call, Desk, FloorDesk, Turned, Turner};
use std::alloc::Global;
use std::sync::Wait;

/// A caller's desk at a floor that nobody else uses meanwhile. Where memory was wanting for noting that the caller is gone it takes no further turn, and
/// answers that memory is wanting: so the caller stands in the history from then on.
#[derive(Drop)]
pub(crate) struct CallerDesk<'a, T: Turner> {
    /// The desk at which the turns are taken.
    pub(crate) desk: FloorDesk<'a, T>,
}

impl<'a, T: Turner> Desk for CallerDesk<'a, T> {
    ghost use Rattle.std.specs.Prelude.{◌≡◌, refl};
    ghost use Rattle.broker_history.specs.Composed.{steps_join};
    ghost use Rattle.daemon_callers.specs.Desks.{StaysThere};

    ghost tells = { T.tells };

    ghost number = { λ d. d.desk.number };

    ghost seen = { λ d. T.notes d.desk.floor.now };

    ghost wanted = { λ d. d.desk.wanted };

    ghost leads = { λ a b. (((b.desk.number ≡ a.desk.number) × (b.desk.floor.ghost_name ≡ a.desk.floor.ghost_name)) × T.leads a.desk.number a.desk.floor.now b.desk.floor.now)
        × (StaysThere T.tells a.desk.number a.desk.wanted (T.notes a.desk.floor.now) → StaysThere T.tells b.desk.number b.desk.wanted (T.notes b.desk.floor.now)) };

    ghost stays = { λ d. (((refl, refl), T.stays d.desk.number d.desk.floor.now), λ there. there) };

    ghost goes_on = { λ a b c p q. (
      steps_join T.leads a.desk.number b.desk.number c.desk.number a.desk.floor.ghost_name b.desk.floor.ghost_name c.desk.floor.ghost_name a.desk.floor.now b.desk.floor.now c.desk.floor.now
          (T.goes_on a.desk.number a.desk.floor.now b.desk.floor.now c.desk.floor.now) p.0 q.0,
      λ there. q.1 (p.1 there),
    ) };

    fn turn<R: Wait>(&mut self, rt: &R, alloc: Global, conn: u64, call: Call) -> Turned {
        if has_wanted(self.desk.wanted) {
            self.desk.wanted = wanted_again(self.desk.wanted, &call);
            return Turned::Memory;
        }
        self.desk.turn(rt, alloc, conn, call)
    }
}

// Whether memory was wanting for noting that the caller is gone.
fn has_wanted(wanted: u64) -> bool
    ensures { IsTrue result ↔ (0 < wanted) }
{
    wanted > 0
}

// The count of goings for which memory was wanting, where it is wanting for this call too.
fn wanted_again(wanted: u64, call: &Call) -> u64
    ensures { CountsFault wanted result (stays_for_memory call.now Memory) }
{
    if matches!(call, Call::Gone) {
        wanted.saturating_add(1)
    } else {
        wanted
    }
}
