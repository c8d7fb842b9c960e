ghost use Rattle.std.specs.Prelude.{◌≡◌, ◌≢◌, ◌<◌, IsTrue, false};
ghost use Rattle.broker_history.specs.Entries.{own};
ghost use Rattle.broker_history.specs.Answers.{Adds, Grows, IsAnswerTo, IsShortAnswer, StopsSeen};
ghost use Rattle.broker_history.specs.Calls.{CanCall, MayCall};
ghost use Rattle.broker_history.specs.declared.turned.Turned.TheVariants.{Strange};
ghost use Rattle.floor_serving.specs.Timely.{TicksTimely};
ghost use Rattle.floor_serving.specs.Turns.{IsTurn};
ghost use Rattle.broker_floor.specs.Floors.{faults_of, flushed_of, hall_of, notes_of, scene_of};

use crate::Floor;
use broker_history::{Call, Entry, Turned, Turner};
use nsq_outside::{Clock, Folder, Journal};
use std::alloc::Global;
use std::marker::Brand;
use std::sync::ledger::{Blank, Ledger};

impl<F: Folder, C: Clock, J: Journal<Entry>> Floor<F, C, J> {
    /// Takes a turn of this number: it reads the clock once, moves what is due, 64 moves at most unless a Stop is called for, and makes the act of the call,
    /// which its answer tells; after a tick that is answered Quiet it saves the queues whose saving is due. A call that doesn't fit its number is Strange, and
    /// one that a Stop keeps off is answered Stopping: neither moves anything. After Memory the moves that were made stand, and no act was made. Requires that
    /// the floor wasn't flushed.
    pub fn turn(&mut self, alloc: Global, number: u64, call: Call) -> Turned
        requires unflushed { flushed_of self.old ≡ false }
        requires can { CanCall call }
        requires may { IsTrue J.tells_notes → MayCall number (own number (notes_of self.old)) call }
        ensures unflushed { flushed_of self.new ≡ false }
        ensures turn { IsTurn J.tells_notes F.tells_files C.tells_readings number call result (scene_of self.old) (scene_of self.new) }
        ensures timely { TicksTimely call result (hall_of self.new) (faults_of self.old) (faults_of self.new) }
        ensures grows { IsTrue J.tells_notes → Grows (notes_of self.old) (notes_of self.new) }
        ensures adds { IsTrue J.tells_notes → Adds number (own number (notes_of self.old)) (own number (notes_of self.new)) call result }
        ensures stopping { IsTrue J.tells_notes → StopsSeen (notes_of self.new) result }
        ensures told { IsTrue J.tells_notes → result ≢ Strange }
        ensures answer { IsAnswerTo call result }
        ensures short { IsShortAnswer result }
    {
        self.turn_in::<Brand>(Blank::new(1), alloc, number, call)
    }

    // The same, with steps of heaps counted in a ledger.
    fn turn_in<L: Ledger>(&mut self, blank: Blank, alloc: Global, number: u64, call: Call) -> Turned
        requires name { blank.name ≡ L.name }
        requires parts { blank.parts ≡ L.parts }
        requires some { 0 < L.parts }
        requires unflushed { flushed_of self.old ≡ false }
        requires can { CanCall call }
        requires may { IsTrue J.tells_notes → MayCall number (own number (notes_of self.old)) call }
        ensures unflushed { flushed_of self.new ≡ false }
        ensures turn { IsTurn J.tells_notes F.tells_files C.tells_readings number call result (scene_of self.old) (scene_of self.new) }
    {
        let reading = self.clock.now();
        self.held.pass(reading);
        self.held.turn::<F, J, L>(
            blank,
            alloc,
            number,
            call,
            &mut self.folder,
            &mut self.scratch,
            &mut self.journal,
        )
    }
}

impl<F: Folder, C: Clock, J: Journal<Entry>> Turner for Floor<F, C, J> {
    ghost use Rattle.std.proofs.Common.{◌≡◌, ◌∙◌, refl};
    ghost use Rattle.floor_serving.specs.Leads.{Leads};
    ghost use Rattle.floor_turns.proofs.Following.{leads_follow, leads_stay};
    ghost use Rattle.broker_floor.specs.Floors.{flushed_of, notes_of, scene_of};

    ghost tells = { J.tells_notes };

    ghost notes = { λ f. notes_of f };

    ghost leads = { λ n a b. (flushed_of b ≡ flushed_of a) × Leads J.tells_notes F.tells_files C.tells_readings n (scene_of a) (scene_of b) };

    ghost stays = { λ n f. (refl, leads_stay _ _ _ _ _) };

    ghost goes_on = { λ n a b c p q. (q.0 ∙ p.0, leads_follow _ _ _ _ _ _ _ p.1 q.1) };

    fn take_turn(&mut self, alloc: Global, conn: u64, call: Call) -> Turned {
        if self.held.is_flushed() {
            let_go(call);
            return Turned::Memory;
        }
        self.turn(alloc, conn, call)
    }
}

// Lets go of a call that isn't made.
fn let_go(_call: Call) {}
