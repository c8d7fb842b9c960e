ghost use Rattle.std.specs.Prelude.{◌≡◌, ◌≤◌, IsTrue, IfOk, OnErr, OnOk, Option, Some, false, true, length};
ghost use Rattle.floor_rooms.specs.Changes.{OnlyQueueFiles};
ghost use Rattle.floor_rooms.specs.Sound.{IsSound};
ghost use Rattle.floor_turns.specs.Moves.{sight};
ghost use Rattle.broker_history.specs.declared.call.Call.{Call};
ghost use Rattle.floor_turns.specs.Acting.{Acts, IsPlanned, IsPlannedFor, conn_of};
ghost use Rattle.negotiation.specs.declared.identity.Identity.{Identity};
ghost use Rattle.floor_serving.specs.Carrying.{CarriesOut, IsNoCommand, basis};

use crate::acts::{carry_beat, carry_begin, carry_gone, carry_stop, leave};
use crate::asked::carry_asked;
use crate::carried::Carried;
use crate::commands::carry_command;
use broker_history::{Act, Entry, Turned};
use floor_calls::Planned;
use floor_rooms::Hall;
use negotiation::Identity;
use nsq_base::{Memory, Steps};
use nsq_outside::{End, Folder, Journal};
use std::sync::ledger::Ledger;

// Carries an act of a connection of this number out, to which a call leads in this hall: the hall stands for what the definitions make of each state that
// it stood for. What a disk fault keeps off ends so, and nothing more of it is done than its end says. After Memory, the only error, all is as it was.
// Requires 16,777,242 bytes of `scratch`.
fn carry_out<F: Folder, L: Ledger>(
    hall: &mut Hall,
    number: u64,
    act: Act,
    said: Option<Identity>,
    folder: &mut F,
    scratch: &mut [u8],
    steps: &mut Steps<L>,
) -> Result<Carried, Memory>
    requires sound { IsSound hall.old }
    requires plan { IsPlanned hall.old number act said }
    requires scratch { 16777242 ≤ length scratch.old }
    ensures { CarriesOut F.tells_files number act (basis hall.old (F.files folder.old) (F.folder_faults folder.old)) (basis hall.new (F.files folder.new) (F.folder_faults folder.new)) result }
{
    match act {
        Act::Did(command, reply) => {
            carry_command(hall, number, command, reply, said, folder, scratch, steps)
        }
        act => {
            drop(said);
            carry_other(hall, number, act, folder, scratch)
        }
    }
}

// The same of an act that is no command.
fn carry_other<F: Folder>(
    hall: &mut Hall,
    number: u64,
    act: Act,
    folder: &mut F,
    scratch: &mut [u8],
) -> Result<Carried, Memory>
    requires sound { IsSound hall.old }
    requires plan { (said : Option Identity) × IsPlanned hall.old number act said }
    requires other { IsNoCommand act }
    requires scratch { 16777242 ≤ length scratch.old }
    ensures { CarriesOut F.tells_files number act (basis hall.old (F.files folder.old) (F.folder_faults folder.old)) (basis hall.new (F.files folder.new) (F.folder_faults folder.new)) result }
{
    match act {
        Act::Began => carry_begin(hall, number),
        Act::Beat => carry_beat(hall, number),
        Act::Gone => carry_gone(hall, number, folder),
        Act::Asked(ask, answer) => carry_asked(hall, ask, answer, folder, scratch),
        Act::Stop => carry_stop(hall),
        act => Ok(leave(hall.moment, act)),
    }
}

// Makes the act of a call of this number: it is kept aside, carried out, and noted with its end. After Memory nothing is noted, and all is as it was.
// Requires 16,777,242 bytes of `scratch`.
pub(crate) fn make_act<F: Folder, J: Journal<Entry>, L: Ledger>(
    hall: &mut Hall,
    number: u64,
    planned: Planned,
    folder: &mut F,
    scratch: &mut [u8],
    journal: &mut J,
    steps: &mut Steps<L>,
) -> Turned
    requires sound { IsSound hall.old }
    requires plan { IsPlanned hall.old number planned.act planned.said }
    requires calm { J.is_aside journal.old ≡ false }
    requires scratch { 16777242 ≤ length scratch.old }
    ensures acts { (c : Call) → IsPlannedFor hall.old number c planned.act → Acts J.tells_notes F.tells_files number c result (sight hall.old (J.notes journal.old) (F.files folder.old) (F.folder_faults folder.old)) (sight hall.new (J.notes journal.new) (F.files folder.new) (F.folder_faults folder.new)) }
    ensures sound { IsSound hall.new }
    ensures calm { J.is_aside journal.new ≡ false }
    ensures files { IsTrue F.tells_files → OnlyQueueFiles (F.files folder.old) (F.files folder.new) }
{
    let Planned { act, said } = planned;
    let conn = conn_of(&act, number);
    let Ok(act) = announce_act(journal, conn, hall.moment, act) else {
        drop(said);
        return Turned::Memory;
    };
    match carry_out(hall, conn, act, said, folder, scratch, steps) {
        Ok(carried) => {
            let Carried { end, answer } = carried;
            journal.note(end);
            answer
        }
        Err(_) => {
            journal.note(End::Skip);
            Turned::Memory
        }
    }
}

// Whose entry the act is.
fn conn_of(act: &Act, number: u64) -> u64
    ensures { result ≡ conn_of act.now number }
{
    if matches!(act, Act::Ticked) {
        return 0;
    }
    number
}

// Keeps the entry of an act aside, and gives the act back: `note` appends the entry then. Want of memory is the only error.
fn announce_act<J: Journal<Entry>>(
    journal: &mut J,
    conn: u64,
    at: u64,
    act: Act,
) -> Result<Act, Memory>
    requires { J.is_aside journal.old ≡ false }
    ensures same { IfOk result (λ back. back ≡ act) }
    ensures aside { OnOk result (J.is_aside journal.new ≡ true) }
    ensures kept { OnOk result (IsTrue J.tells_notes → J.kept journal.new ≡ Some (record { conn = conn; at = at; act = act })) }
    ensures err { OnErr result (J.is_aside journal.new ≡ false) }
    ensures notes { IsTrue J.tells_notes → J.notes journal.new ≡ J.notes journal.old }
{
    let entry = Entry { conn, at, act };
    match journal.ready(&entry) {
        Ok(()) => Ok(entry.act),
        Err(_) => {
            drop(entry);
            Err(Memory)
        }
    }
}
