ghost use Rattle.std.specs.Prelude.{◌≡◌, ◌≢◌, ◌&&◌, ℕ, Bool, IsTrue};
ghost use Rattle.nsq_outside.specs.Causes.{CountsFault};
ghost use Rattle.broker_history.specs.Entries.{History, own};
ghost use Rattle.broker_history.specs.Calls.{CanCall, MayCall};
ghost use Rattle.broker_history.specs.Answers.{Adds, Grows, IsAnswerTo, IsShortAnswer, StopsSeen, TicksNoted, goes, stays_for_memory, wants_memory};
ghost use Rattle.broker_history.specs.declared.turned.Turned.TheVariants.{Strange};

use crate::{Call, Turned};
use std::alloc::Global;
use std::sync::Wait;

/// One connection's side of a floor: where it takes its turns.
pub trait Desk {
    /// Whether values of this type tell the list that they have seen.
    ghost tells: { Bool };

    /// The number of its connection. 0 is the daemon itself.
    ghost number: { Self → ℕ };

    /// The history as far as it has seen it. Its own entries are those of its number in it that aren't common.
    ghost seen: { Self → History };

    /// How often memory was wanting for noting that its connection is gone, at most 2^64 - 1.
    ghost wanted: { Self → ℕ };

    /// Which of its states may become which.
    ghost leads: { Self → Self → Type 0 };

    /// Takes a turn, which may wait for others. Its connection may make this call where its own entries allow it. The answer is
    /// that of the act that joined these. Memory, Strange, Stopping after a Stop, and an answer to a tick add nothing to them.
    fn turn<R: Wait>(&mut self, rt: &R, alloc: Global, conn: u64, call: Call) -> Turned
        requires number { conn ≡ number self.old }
        requires can { CanCall call }
        requires may { IsTrue tells → MayCall conn (own conn (seen self.old)) call }
        ensures number { number self.new ≡ number self.old }
        ensures grows { IsTrue tells → Grows (seen self.old) (seen self.new) }
        ensures adds { IsTrue tells → Adds conn (own conn (seen self.old)) (own conn (seen self.new)) call result }
        ensures stopping { IsTrue tells → StopsSeen (seen self.new) result }
        ensures told { IsTrue tells → result ≢ Strange }
        ensures answer { IsAnswerTo call result }
        ensures short { IsShortAnswer result }
        ensures wanted { CountsFault (wanted self.old) (wanted self.new) (stays_for_memory call result) }
        ensures leads { leads self.old self.new };

    /// A state may become itself.
    ghost stays: { (d : Self) → leads d d };

    /// Two such steps are one.
    ghost goes_on: { (a b c : Self) → leads a b → leads b c → leads a c };
}

/// What takes the turns of all connections, one after another: a floor.
pub trait Turner {
    /// Whether values of this type tell the history.
    ghost tells: { Bool };

    /// The history.
    ghost notes: { Self → History };

    /// What turns of a number may lead to.
    ghost leads: { ℕ → Self → Self → Type 0 };

    /// Takes a turn of this number. Its connection may make this call where its own entries allow it. The answer is that of the
    /// act that was noted. Memory and Strange note no act. A tick that is answered Quiet was noted.
    fn take_turn(&mut self, alloc: Global, conn: u64, call: Call) -> Turned
        requires can { CanCall call }
        requires may { IsTrue tells → MayCall conn (own conn (notes self.old)) call }
        ensures grows { IsTrue tells → Grows (notes self.old) (notes self.new) }
        ensures adds { IsTrue tells → Adds conn (own conn (notes self.old)) (own conn (notes self.new)) call result }
        ensures stopping { IsTrue tells → StopsSeen (notes self.new) result }
        ensures ticked { IsTrue tells → TicksNoted result call (notes self.old) (notes self.new) }
        ensures told { IsTrue tells → result ≢ Strange }
        ensures answer { IsAnswerTo call result }
        ensures short { IsShortAnswer result }
        ensures leads { leads conn self.old self.new };

    /// A state may become itself.
    ghost stays: { (n : ℕ) (f : Self) → leads n f f };

    /// Two such steps are one.
    ghost goes_on: { (n : ℕ) (a b c : Self) → leads n a b → leads n b c → leads n a c };
}

/// A desk of a number at a floor that nobody else uses meanwhile: it has seen the floor's whole history.
#[derive(Drop)]
pub struct FloorDesk<'a, T: Turner> {
    /// The floor.
    pub floor: &'a mut T,
    /// The number of its connection.
    pub number: u64,
    /// How often memory was wanting for noting that its connection is gone, at most 2^64 - 1.
    pub wanted: u64,
}

impl<'a, T: Turner> Desk for FloorDesk<'a, T> {
    ghost use Rattle.std.specs.Prelude.{◌≡◌, refl};
    ghost use Rattle.broker_history.specs.Composed.{steps_join};

    ghost tells = { T.tells };

    ghost number = { λ d. d.number };

    ghost seen = { λ d. T.notes d.floor.now };

    ghost wanted = { λ d. d.wanted };

    ghost leads = { λ a b. ((b.number ≡ a.number) × (b.floor.ghost_name ≡ a.floor.ghost_name)) × T.leads a.number a.floor.now b.floor.now };

    ghost stays = { λ d. ((refl, refl), T.stays d.number d.floor.now) };

    ghost goes_on = { λ a b c p q. steps_join T.leads a.number b.number c.number a.floor.ghost_name b.floor.ghost_name c.floor.ghost_name a.floor.now b.floor.now c.floor.now (T.goes_on a.number a.floor.now b.floor.now c.floor.now) p q };

    fn turn<R: Wait>(&mut self, _rt: &R, alloc: Global, _conn: u64, call: Call) -> Turned {
        let going = is_going(&call);
        let answer = self.floor.take_turn(alloc, self.number, call);
        self.wanted = wanted_after(self.wanted, going, &answer);
        answer
    }
}

// Whether the connection is to go.
fn is_going(call: &Call) -> bool
    ensures { result ≡ goes call.now }
{
    matches!(call, Call::Gone)
}

// The count of goings for which memory was wanting, after one more turn.
fn wanted_after(wanted: u64, going: bool, answer: &Turned) -> u64
    ensures { CountsFault wanted result (going && wants_memory answer.now) }
{
    if going && matches!(answer, Turned::Memory) {
        wanted.saturating_add(1)
    } else {
        wanted
    }
}
