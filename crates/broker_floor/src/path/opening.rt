ghost use Rattle.std.specs.Prelude.{◌≡◌, ◌+◌, ◌≤◌, ℕ, IfErr, IfOk, IsTrue, [], false};
ghost use Rattle.nsq_base.specs.Options.{IsInRange};
ghost use Rattle.path_image.specs.Found.{Finding, Found, IsFound, Names};
ghost use Rattle.broker_history.specs.Found.{start};
ghost use Rattle.broker_history.specs.Moments.{moment_of};
ghost use Rattle.floor_rooms.specs.Standing.{HoldsFor};
ghost use Rattle.broker_floor.specs.Floors.{coming_of, faults_of, files_of, hall_of, held_of, kit_of};
ghost use Rattle.broker_floor.specs.Opening.{FindsAgain, HaveBytes, IsNamesFinding, IsOpenedHall, IsWhy, OnlyOpeningFiles, Raises};

use crate::Floor;
use crate::path::filling::fill;
use crate::path::reading::prepare;
use broker_history::Entry;
use daemon_endings::Why;
use nsq_base::Options;
use nsq_outside::{Clock, Folder, Journal, Kit};
use std::alloc::Global;

/// A folder that wasn't opened: why, and the kit back.
pub struct Refused<F: Folder, C: Clock, J: Journal<Entry>> {
    /// Why.
    pub why: Why,
    /// The kit.
    pub kit: Kit<F, C, J>,
}

/// Opens a folder for a run. It reads the file of names, where there is one, sets the files aside of queues that the file doesn't list, makes a floor with the
/// topics and channels that it lists, each with the messages of its queue, and writes the file with this run's epoch, which is one above the last run's,
/// durably. The clock is read once. A file of names of more than 16 MiB is bad; want of memory is answered too where a longer one would have to be written.
///
/// Where it succeeds, names with the messages of their queues were there to be found, and the floor stands for them. Of a record it reads the size alone: that
/// each body is the bytes of a message holds where the numbers in the files are bytes.
///
/// After a refusal an opening finds what it would have found before, or the same with the next epoch, and the kit's journal is as it was. Files that were set
/// aside stay so. The journal has no entry, and none aside; the options are in their ranges.
pub fn open<F: Folder, C: Clock, J: Journal<Entry>>(
    alloc: Global,
    kit: Kit<F, C, J>,
    options: &Options,
) -> Result<Floor<F, C, J>, Refused<F, C, J>>
    requires options { IsInRange options.now }
    requires aside { J.is_aside kit.journal ≡ false }
    requires empty { IsTrue J.tells_notes → J.notes kit.journal ≡ [] }
    ensures found { IfOk result (λ floor. IsTrue F.tells_files → (f : Finding) → IsFound (F.files kit.folder) f → IsNamesFinding f) }
    ensures finds { IfOk result (λ floor. IsTrue F.tells_files → HaveBytes (F.files kit.folder) → (found : Found) × IsFound (F.files kit.folder) (Names found)) }
    ensures stands { IfOk result (λ floor. IsTrue F.tells_files → (found : Found) → IsFound (F.files kit.folder) (Names found) → HoldsFor (hall_of floor) (files_of floor) (start found options.now (hall_of floor).moment)) }
    ensures raised { IfOk result (λ floor. IsTrue F.tells_files → Raises (F.files kit.folder) (files_of floor) (hall_of floor).epoch) }
    ensures hall { IfOk result (λ floor. IsOpenedHall options.now (held_of floor)) }
    ensures moment { IfOk result (λ floor. IsTrue C.tells_readings → (hall_of floor).moment ≡ moment_of (C.coming kit.clock) 1) }
    ensures coming { IfOk result (λ floor. IsTrue C.tells_readings → ((n : ℕ) → coming_of floor n ≡ C.coming kit.clock (n + 1))) }
    ensures journal { IfOk result (λ floor. (kit_of floor).journal ≡ kit.journal) }
    ensures faults { IfOk result (λ floor. F.folder_faults kit.folder ≤ faults_of floor) }
    ensures files { IfOk result (λ floor. IsTrue F.tells_files → OnlyOpeningFiles (F.files kit.folder) (files_of floor)) }
    ensures why { IfErr result (λ refused. IsWhy refused.why F.tells_files (F.files kit.folder) (F.files refused.kit.folder) (F.folder_faults kit.folder) (F.folder_faults refused.kit.folder)) }
    ensures again { IfErr result (λ refused. IsTrue F.tells_files → FindsAgain (F.files kit.folder) (F.files refused.kit.folder)) }
    ensures back { IfErr result (λ refused. refused.kit.journal ≡ kit.journal) }
    ensures refused_faults { IfErr result (λ refused. F.folder_faults kit.folder ≤ F.folder_faults refused.kit.folder) }
    ensures refused_files { IfErr result (λ refused. IsTrue F.tells_files → OnlyOpeningFiles (F.files kit.folder) (F.files refused.kit.folder)) }
{
    let Kit {
        mut folder,
        clock,
        journal,
    } = kit;
    let prepared = prepare(alloc, &mut folder);
    let kit = Kit {
        folder,
        clock,
        journal,
    };
    let names = match prepared {
        Ok(names) => names,
        Err(why) => return Err(Refused { why, kit }),
    };
    let mut floor = match Floor::new(alloc, kit, options, names.epoch + 1) {
        Ok(floor) => floor,
        Err(kit) => {
            let why = Why::Memory;
            return Err(Refused { why, kit });
        }
    };
    match fill(alloc, &mut floor, &names.topics) {
        Ok(()) => Ok(floor),
        Err(why) => {
            let kit = floor.end();
            Err(Refused { why, kit })
        }
    }
}
