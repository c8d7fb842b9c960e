ghost use Rattle.std.specs.Prelude.{◌≡◌, ◌<◌, HoldsAt, false, length};
ghost use Rattle.nsq_outside.specs.declared.journal.End.TheVariants as ends;
ghost use Rattle.broker_history.specs.declared.entry.Act.TheVariants as acts;
ghost use Rattle.floor_turns.specs.Acting.{IsNoted};
ghost use Rattle.floor_turns.specs.Drawing.{IsIdleBy, SticksAt, entry_of};

use crate::sending::lend;
use broker_history::{Act, Entry, Turned};
use floor_moves::Place;
use floor_rooms::Hall;
use nsq_outside::{End, Journal};

/// Notes that there is nothing to send to the client of this number. Want of memory notes nothing.
pub(crate) fn rest<J: Journal<Entry>>(hall: &Hall, number: u64, journal: &mut J) -> Turned
    requires calm { J.is_aside journal.old ≡ false }
    ensures noted { IsIdleBy J.tells_notes (entry_of number hall.now.moment acts.Idle, ends.Done) (J.notes journal.old) (J.notes journal.new) result }
    ensures calm { J.is_aside journal.new ≡ false }
{
    let (act, answer) = note_idle(journal, number, hall.moment, Act::Idle, End::Done);
    let Act::Idle = act else { unreachable!() };
    answer
}

/// Notes that a disk fault kept the client of this number from a message of the channel at this place. Want of memory notes nothing.
pub(crate) fn stick<J: Journal<Entry>>(
    hall: &Hall,
    number: u64,
    place: Place,
    journal: &mut J,
) -> Turned
    requires room { place.room < length hall.now.rooms.items }
    requires stall { HoldsAt (λ r. place.stall < length r.stalls.items) hall.now.rooms.items place.room }
    requires calm { J.is_aside journal.old ≡ false }
    ensures noted { SticksAt J.tells_notes number place hall.now (J.notes journal.old) (J.notes journal.new) result }
    ensures calm { J.is_aside journal.new ≡ false }
{
    let room = &hall.rooms[place.room];
    let channel = &room.stalls[place.stall].channel;
    let act = Act::Stuck(room.queue.name(), Some(channel.name()));
    let (act, answer) = note_idle(journal, number, hall.moment, act, End::Faulted(0));
    let Act::Stuck(_, _) = act else {
        unreachable!()
    };
    answer
}

// Notes an act of the client of this number with its end, gives it back, and answers that the client is to be sent nothing. Want of memory notes nothing.
fn note_idle<J: Journal<Entry>>(
    journal: &mut J,
    number: u64,
    at: u64,
    act: Act,
    end: End,
) -> (Act, Turned)
    requires calm { J.is_aside journal.old ≡ false }
    requires end { IsNoted end }
    ensures same { result.0 ≡ act }
    ensures noted { IsIdleBy J.tells_notes (entry_of number at act, end) (J.notes journal.old) (J.notes journal.new) result.1 }
    ensures calm { J.is_aside journal.new ≡ false }
{
    let (act, ready) = lend(journal, number, at, act);
    let Ok(()) = ready else {
        return (act, Turned::Memory);
    };
    journal.note(end);
    (act, Turned::Idle)
}
