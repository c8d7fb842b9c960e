ghost use Rattle.std.specs.Prelude.{◌≡◌, ◌≤◌, IsTrue, false, length};
ghost use Rattle.broker_history.specs.declared.call.Call.TheVariants as calls;
ghost use Rattle.floor_rooms.specs.Changes.{OnlyQueueFiles};
ghost use Rattle.floor_rooms.specs.Sound.{IsSound};
ghost use Rattle.floor_acts.specs.Plans.{DrawsAt};
ghost use Rattle.floor_moves.specs.Moves.{sight};
ghost use Rattle.floor_turns.specs.Acting.{Acts};
ghost use Rattle.floor_turns.specs.Drawing.{IsServedAt, Rounds};

use crate::noting::{rest, stick};
use crate::sending::send;
use broker_history::{Entry, Turned};
use channel_core::Next;
use floor_moves::{Place, hold_back};
use floor_rooms::Hall;
use nsq_base::{MsgId, Steps};
use nsq_outside::{Folder, Journal};
use std::sync::ledger::Ledger;

// How one drawing of a channel's first message ended.
enum Round {
    // The message's id is in flight: it was held back, which was noted.
    HeldBack,
    // The client's call is answered so.
    Answered(Turned),
}

/// Sends the client of this number, which is quiet, the first message of the channel at this place that it may get. Copies whose id is in flight are held
/// back before it. Where there is none, or it may get none, the answer is Idle; so it is where a disk fault keeps the message off, which is noted. After
/// Memory what was held back stays so, and nothing else was done. Requires 16,777,242 bytes of `scratch`.
pub fn draw<F: Folder, J: Journal<Entry>, L: Ledger>(
    hall: &mut Hall,
    number: u64,
    place: Place,
    folder: &mut F,
    scratch: &mut [u8],
    journal: &mut J,
    steps: &mut Steps<L>,
) -> Turned
    requires sound { IsSound hall.old }
    requires running { hall.old.stopped ≡ false }
    requires draws { DrawsAt hall.old number place.room place.stall }
    requires calm { J.is_aside journal.old ≡ false }
    requires scratch { 16777242 ≤ length scratch.old }
    ensures acts { Acts J.tells_notes F.tells_files number calls.Next result (sight hall.old (J.notes journal.old) (F.files folder.old) (F.folder_faults folder.old)) (sight hall.new (J.notes journal.new) (F.files folder.new) (F.folder_faults folder.new)) }
    ensures sound { IsSound hall.new }
    ensures calm { J.is_aside journal.new ≡ false }
    ensures files { IsTrue F.tells_files → OnlyQueueFiles (F.files folder.old) (F.files folder.new) }
{
    for _ in 0..u64::MAX {
        match draw_next(hall, number, place, folder, scratch, journal, steps) {
            Round::HeldBack => {}
            Round::Answered(answer) => return answer,
        }
    }
    Turned::Memory
}

// Draws the first message of the channel: it is sent, or held back; or there is none for the client.
fn draw_next<F: Folder, J: Journal<Entry>, L: Ledger>(
    hall: &mut Hall,
    number: u64,
    place: Place,
    folder: &mut F,
    scratch: &mut [u8],
    journal: &mut J,
    steps: &mut Steps<L>,
) -> Round
    requires sound { IsSound hall.old }
    requires running { hall.old.stopped ≡ false }
    requires serves { IsServedAt hall.old number place }
    requires calm { J.is_aside journal.old ≡ false }
    requires scratch { 16777242 ≤ length scratch.old }
    ensures rounds { Rounds J.tells_notes F.tells_files number (sight hall.old (J.notes journal.old) (F.files folder.old) (F.folder_faults folder.old)) (sight hall.new (J.notes journal.new) (F.files folder.new) (F.folder_faults folder.new)) result }
    ensures sound { IsSound hall.new }
    ensures calm { J.is_aside journal.new ≡ false }
    ensures files { IsTrue F.tells_files → OnlyQueueFiles (F.files folder.old) (F.files folder.new) }
{
    match floor_acts::draw(hall, place.room, place.stall, number, folder, scratch) {
        Next::Send(message) => {
            Round::Answered(send(hall, number, place, message, folder, journal, steps))
        }
        Next::Held(id) => match hold_back(hall, place, id, folder, journal, steps) {
            Ok(()) => Round::HeldBack,
            Err(_) => Round::Answered(Turned::Memory),
        },
        Next::NoCredit => Round::Answered(rest(hall, number, journal)),
        Next::Paused => Round::Answered(rest(hall, number, journal)),
        Next::NoneQueued => Round::Answered(rest(hall, number, journal)),
        Next::Fault => Round::Answered(stick(hall, number, place, journal)),
        Next::Damaged => Round::Answered(stick(hall, number, place, journal)),
        Next::Memory => Round::Answered(Turned::Memory),
    }
}
