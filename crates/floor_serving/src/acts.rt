ghost use Rattle.std.specs.Prelude.{◌≡◌, Bool, ℕ, None, is_some, true};
ghost use Rattle.nsq_outside.specs.Files.{Files};
ghost use Rattle.broker_history.specs.declared.entry.Act.TheVariants.{Beat, Began, Gone, Stop};
ghost use Rattle.nsq_outside.specs.declared.journal.End.TheVariants as end;
ghost use Rattle.floor_rooms.specs.Rooms.{client_in};
ghost use Rattle.floor_rooms.specs.Sound.{IsSound};
ghost use Rattle.floor_turns.specs.Acting.{answer_of};
ghost use Rattle.floor_serving.specs.Carrying.{CarriesOut, IsLeft, basis};

use crate::carried::Carried;
use broker_history::{Act, Turned};
use floor_calls::{beat, beat_frame, begin, gone, stop};
use floor_rooms::Hall;
use nsq_base::Memory;
use nsq_outside::{End, Folder};

// A client of this number begins.
pub(crate) fn carry_begin(hall: &mut Hall, number: u64) -> Result<Carried, Memory>
    requires sound { IsSound hall.old }
    requires new { client_in hall.old.clients.items number ≡ None }
    ensures { (tells : Bool) (files : Files) (faults : ℕ) → CarriesOut tells number Began (basis hall.old files faults) (basis hall.new files faults) result }
{
    match begin(hall, number) {
        Ok(()) => Ok(done(Turned::Begun)),
        Err(_) => Err(Memory),
    }
}

// A heartbeat is sent to the client of this number.
pub(crate) fn carry_beat(hall: &mut Hall, number: u64) -> Result<Carried, Memory>
    requires sound { IsSound hall.old }
    requires there { is_some (client_in hall.old.clients.items number) ≡ true }
    ensures { (tells : Bool) (files : Files) (faults : ℕ) → CarriesOut tells number Beat (basis hall.old files faults) (basis hall.new files faults) result }
{
    let Ok(frame) = beat_frame(hall.alloc) else {
        return Err(Memory);
    };
    let Some(k) = hall.client_place(number) else {
        unreachable!()
    };
    beat(hall, k);
    Ok(done(Turned::Send(frame)))
}

// The client of this number is gone.
pub(crate) fn carry_gone<F: Folder>(
    hall: &mut Hall,
    number: u64,
    folder: &mut F,
) -> Result<Carried, Memory>
    requires sound { IsSound hall.old }
    requires there { is_some (client_in hall.old.clients.items number) ≡ true }
    ensures { CarriesOut F.tells_files number Gone (basis hall.old (F.files folder.old) (F.folder_faults folder.old)) (basis hall.new (F.files folder.new) (F.folder_faults folder.new)) result }
{
    let Some(k) = hall.client_place(number) else {
        unreachable!()
    };
    match gone(hall, k, folder) {
        Ok(()) => Ok(done(Turned::Ended)),
        Err(_) => Err(Memory),
    }
}

// The Stop is noted.
pub(crate) fn carry_stop(hall: &mut Hall) -> Result<Carried, Memory>
    requires { IsSound hall.old }
    ensures { (tells : Bool) (number : ℕ) (files : Files) (faults : ℕ) → CarriesOut tells number Stop (basis hall.old files faults) (basis hall.new files faults) result }
{
    stop(hall);
    Ok(done(Turned::Stopping))
}

// An act that changes nothing is answered.
pub(crate) fn leave(at: u64, act: Act) -> Carried
    requires { IsLeft act }
    ensures end { result.end ≡ end.Done }
    ensures answer { result.answer ≡ answer_of at act end.Done }
{
    match act {
        Act::Refused(_, frame) => done(Turned::Reply(frame, true)),
        Act::Idle => done(Turned::Idle),
        Act::Silent => done(Turned::Silent),
        Act::Dropped => done(Turned::Deleted),
        Act::Listed(names) => done(Turned::Listed(names, at)),
        Act::Ticked => done(Turned::Quiet),
        _ => unreachable!(),
    }
}

// It was carried out, and is answered so.
fn done(answer: Turned) -> Carried
    ensures { result ≡ record { end = end.Done; answer = answer } }
{
    Carried {
        end: End::Done,
        answer,
    }
}
