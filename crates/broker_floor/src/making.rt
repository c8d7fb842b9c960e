ghost use Rattle.std.specs.Prelude.{◌≡◌, ◌+◌, ◌<◌, ◌^◌, ℕ, [], length, IsTrue, false, IfOk, IfErr};
ghost use Rattle.nsq_base.specs.Options.{IsInRange};
ghost use Rattle.nsq_outside.specs.Files.{Files};
ghost use Rattle.broker_history.specs.Moments.{moment_of};
ghost use Rattle.floor_rooms.specs.Made.{IsEmptyHall, IsUnused, empty_state};
ghost use Rattle.floor_rooms.specs.Standing.{HoldsFor, StandsFor};
ghost use Rattle.broker_floor.specs.Floors.{coming_of, flushed_of, hall_of, kit_of};

use crate::Floor;
use crate::sound::SoundHall;
use broker_history::Entry;
use floor_rooms::Hall;
use nsq_base::{Memory, Options};
use nsq_outside::{Clock, Folder, Journal, Kit};
use std::alloc::Global;

/// The bytes of the longest message, as it is written to a queue.
const LONGEST: usize = 16_777_242;

impl<F: Folder, C: Clock, J: Journal<Entry>> Floor<F, C, J> {
    /// A floor of this run's epoch that holds nothing yet. It reads the clock once. Want of memory is the only error: then the clock isn't read. Requires an
    /// epoch below 2^24, options in their ranges, and a journal with nothing aside whose list, where it is told, is empty.
    pub fn new(
        alloc: Global,
        kit: Kit<F, C, J>,
        options: &Options,
        epoch: u32,
    ) -> Result<Floor<F, C, J>, Kit<F, C, J>>
        requires epoch { epoch < 2 ^ 24 }
        requires options { IsInRange options.now }
        requires aside { J.is_aside kit.journal ≡ false }
        requires empty { IsTrue J.tells_notes → J.notes kit.journal ≡ [] }
        ensures hall { IfOk result (λ floor. IsEmptyHall options.now epoch (hall_of floor).moment (hall_of floor)) }
        ensures unflushed { IfOk result (λ floor. flushed_of floor ≡ false) }
        ensures opens { (files : Files) → IfOk result (λ floor. StandsFor (hall_of floor) files (empty_state options.now epoch (hall_of floor).moment)) }
        ensures stands { (files : Files) → IsUnused files → IfOk result (λ floor. HoldsFor (hall_of floor) files (empty_state options.now epoch (hall_of floor).moment)) }
        ensures moment { IfOk result (λ floor. IsTrue C.tells_readings → (hall_of floor).moment ≡ moment_of (C.coming kit.clock) 1) }
        ensures coming { IfOk result (λ floor. IsTrue C.tells_readings → ((n : ℕ) → coming_of floor n ≡ C.coming kit.clock (n + 1))) }
        ensures folder { IfOk result (λ floor. (kit_of floor).folder ≡ kit.folder) }
        ensures journal { IfOk result (λ floor. (kit_of floor).journal ≡ kit.journal) }
        ensures err { IfErr result (λ back. (back.folder ≡ kit.folder) × (back.clock ≡ kit.clock) × (back.journal ≡ kit.journal)) }
    {
        let Ok(scratch) = zeros(alloc, LONGEST) else {
            return Err(kit);
        };
        let Ok(options) = options.copy(alloc) else {
            return Err(kit);
        };
        let Kit {
            folder,
            mut clock,
            journal,
        } = kit;
        let held = SoundHall::new(Hall::new(alloc, options, epoch, clock.now()));
        Ok(Floor {
            folder,
            clock,
            journal,
            held,
            scratch,
        })
    }

    /// The folder, the clock and the journal.
    pub fn end(self) -> Kit<F, C, J>
        ensures folder { result.folder ≡ (kit_of self).folder }
        ensures clock { result.clock ≡ (kit_of self).clock }
        ensures journal { result.journal ≡ (kit_of self).journal }
        ensures aside { J.is_aside result.journal ≡ false }
    {
        let Floor {
            folder,
            clock,
            journal,
            held,
            scratch: _scratch,
        } = self;
        held.end();
        Kit {
            folder,
            clock,
            journal,
        }
    }
}

// So many zeros.
fn zeros(alloc: Global, count: usize) -> Result<Vec<u8>, Memory>
    ensures { IfOk result (λ zeros. length zeros.items ≡ count) }
{
    Ok(vec![in alloc; 0u8; count]?)
}
