ghost use Rattle.std.specs.Prelude.{◌≡◌, ◌&&◌, ◌≤◌, IsTrue, false, not, true, length};
ghost use Rattle.broker_history.specs.Entries.{History};
ghost use Rattle.broker_history.specs.Calls.{CanCall};
ghost use Rattle.broker_history.specs.declared.call.Call.{Call as AnyCall};
ghost use Rattle.floor_rooms.specs.Changes.{OnlyQueueFiles};
ghost use Rattle.floor_rooms.specs.Sound.{IsSound};
ghost use Rattle.floor_calls.specs.Plans.{Serves};
ghost use Rattle.floor_turns.specs.Moves.{sight, Keeps};
ghost use Rattle.floor_turns.specs.Acting.{Acts};
ghost use Rattle.floor_turns.specs.Timely.{TicksTimely};
ghost use Rattle.floor_turns.specs.Turning.{PaysFor, Settles, TakesTurn, ends_at_stop, is_enough, is_stopping, is_stuck_stop, most_for};
ghost use Rattle.floor_serving.specs.Ticks.{is_saving, is_ticking};

use crate::acting::make_act;
use broker_history::{Call, Entry, Turned};
use floor_calls::{Plan, is_strange, plan_call};
use floor_rooms::Hall;
use floor_turns::{Paid, Place, draw, pay, sync_all};
use nsq_base::Steps;
use nsq_outside::{Folder, Journal};
use std::alloc::Global;
use std::sync::ledger::Ledger;

/// Takes a turn of this number at the hall's moment: what is due is moved, 64 moves at most unless a Stop is called for, and the call makes its act, which
/// the answer tells; a tick that is answered Quiet then saves the queues whose saving is due. A call that doesn't fit its number is Strange, and one that a
/// Stop keeps off is answered Stopping: neither moves anything. After Memory the moves that were made stand, and no act was made. Requires 16,777,242 bytes
/// of `scratch`.
pub fn turn_at<F: Folder, J: Journal<Entry>, L: Ledger>(
    hall: &mut Hall,
    alloc: Global,
    number: u64,
    call: Call,
    folder: &mut F,
    scratch: &mut [u8],
    journal: &mut J,
    steps: &mut Steps<L>,
) -> Turned
    requires sound { IsSound hall.old }
    requires can { CanCall call }
    requires calm { J.is_aside journal.old ≡ false }
    requires scratch { 16777242 ≤ length scratch.old }
    ensures turn { TakesTurn J.tells_notes F.tells_files number call result (sight hall.old (J.notes journal.old) (F.files folder.old) (F.folder_faults folder.old)) (sight hall.new (J.notes journal.new) (F.files folder.new) (F.folder_faults folder.new)) }
    ensures sound { IsSound hall.new }
    ensures calm { J.is_aside journal.new ≡ false }
    ensures files { IsTrue F.tells_files → OnlyQueueFiles (F.files folder.old) (F.files folder.new) }
{
    if is_strange(hall, number, &call) {
        let_go(call);
        return Turned::Strange;
    }
    if is_stopped(hall, &call) {
        let_go(call);
        return Turned::Stopping;
    }
    let stopping = is_stopping(&call);
    let ticking = is_ticking(&call);
    let paid = pay_first(hall, stopping, folder, scratch, journal, steps);
    if lacks(paid, stopping) {
        let_go(call);
        return Turned::Memory;
    }
    let answer = serve(hall, alloc, number, call, folder, scratch, journal, steps);
    settle(hall, ticking, paid, &answer, folder);
    answer
}

// Lets go of a call that makes no act.
fn let_go(_call: Call) {}

// Whether a Stop was noted that keeps the call from all else.
fn is_stopped(hall: &Hall, call: &Call) -> bool
    ensures { result ≡ (hall.now.stopped && ends_at_stop call.now) }
{
    if !hall.stopped {
        return false;
    }
    match call {
        Call::Begin | Call::Gone | Call::Names => false,
        Call::Command(_) => true,
        Call::Bad(_) => true,
        Call::Next => true,
        Call::Ask(_) => true,
        Call::Tick => true,
        Call::Stop => true,
    }
}

// Whether a call is for a Stop.
fn is_stopping(call: &Call) -> bool
    ensures { result ≡ is_stopping call.now }
{
    matches!(call, Call::Stop)
}

// Whether a call is a tick.
fn is_ticking(call: &Call) -> bool
    ensures { result ≡ is_ticking call.now }
{
    matches!(call, Call::Tick)
}

// How many moves are made at most before an act.
fn most_for(stopping: bool) -> u64
    ensures { result ≡ most_for stopping }
{
    if stopping {
        return u64::MAX;
    }
    64
}

// Whether too little was paid for an act: memory was wanting, or a Stop had more to pay.
fn lacks(paid: Paid, stopping: bool) -> bool
    ensures { result ≡ not (is_enough paid stopping) }
{
    match paid {
        Paid::Clear => false,
        Paid::Most => stopping,
        Paid::Stuck => false,
        Paid::Wants => true,
    }
}

// Whether a disk fault kept the Stop's turn from paying all, as it did before, or as it did now where the Stop was noted.
fn is_stuck_stop(before: bool, paid: Paid, answer: &Turned) -> bool
    ensures { result ≡ is_stuck_stop before paid answer.now }
{
    if before {
        return true;
    }
    if !matches!(paid, Paid::Stuck) {
        return false;
    }
    matches!(answer, Turned::Stopping)
}

// Whether a turn saves the queues whose saving is due.
fn is_saving(ticking: bool, answer: &Turned) -> bool
    ensures { result ≡ is_saving ticking answer.now }
{
    if !ticking {
        return false;
    }
    matches!(answer, Turned::Quiet)
}

// Makes the moves that stand before a call's act; behind a Stop none is due.
fn pay_first<F: Folder, J: Journal<Entry>, L: Ledger>(
    hall: &mut Hall,
    stopping: bool,
    folder: &mut F,
    scratch: &mut [u8],
    journal: &mut J,
    steps: &mut Steps<L>,
) -> Paid
    requires sound { IsSound hall.old }
    requires once { stopping ≡ true → hall.old.stopped ≡ false }
    requires calm { J.is_aside journal.old ≡ false }
    requires scratch { 16777242 ≤ length scratch.old }
    ensures pays { PaysFor J.tells_notes F.tells_files stopping (sight hall.old (J.notes journal.old) (F.files folder.old) (F.folder_faults folder.old)) (sight hall.new (J.notes journal.new) (F.files folder.new) (F.folder_faults folder.new)) result }
    ensures sound { IsSound hall.new }
    ensures calm { J.is_aside journal.new ≡ false }
    ensures keeps { Keeps hall.old hall.new }
    ensures files { IsTrue F.tells_files → OnlyQueueFiles (F.files folder.old) (F.files folder.new) }
{
    if hall.stopped {
        return Paid::Clear;
    }
    pay(hall, most_for(stopping), folder, scratch, journal, steps)
}

// Makes the act of a call that fits its number and that no Stop keeps off.
fn serve<F: Folder, J: Journal<Entry>, L: Ledger>(
    hall: &mut Hall,
    alloc: Global,
    number: u64,
    call: Call,
    folder: &mut F,
    scratch: &mut [u8],
    journal: &mut J,
    steps: &mut Steps<L>,
) -> Turned
    requires sound { IsSound hall.old }
    requires can { CanCall call }
    requires serves { Serves hall.old number call }
    requires calm { J.is_aside journal.old ≡ false }
    requires scratch { 16777242 ≤ length scratch.old }
    ensures acts { Acts J.tells_notes F.tells_files number call result (sight hall.old (J.notes journal.old) (F.files folder.old) (F.folder_faults folder.old)) (sight hall.new (J.notes journal.new) (F.files folder.new) (F.folder_faults folder.new)) }
    ensures sound { IsSound hall.new }
    ensures calm { J.is_aside journal.new ≡ false }
    ensures files { IsTrue F.tells_files → OnlyQueueFiles (F.files folder.old) (F.files folder.new) }
{
    match plan_call(hall, alloc, number, call) {
        Err(_) => Turned::Memory,
        Ok(Plan::Act(planned)) => make_act(hall, number, planned, folder, scratch, journal, steps),
        Ok(Plan::Draw(room, stall)) => {
            let place = Place { room, stall };
            draw(hall, number, place, folder, scratch, journal, steps)
        }
    }
}

// What a turn leaves behind its act: that a disk fault kept the Stop's turn from paying all is kept, and a tick saves the queues whose saving is due.
fn settle<F: Folder>(hall: &mut Hall, ticking: bool, paid: Paid, answer: &Turned, folder: &mut F)
    requires { IsSound hall.old }
    ensures settles { (noted : History) → Settles F.tells_files (sight hall.old noted (F.files folder.old) (F.folder_faults folder.old)) (sight hall.new noted (F.files folder.new) (F.folder_faults folder.new)) }
    ensures stuck { hall.new.stuck ≡ is_stuck_stop hall.old.stuck paid answer.now }
    ensures timely { (c : AnyCall) → is_ticking c ≡ ticking → TicksTimely c answer.now hall.new (F.folder_faults folder.old) (F.folder_faults folder.new) }
    ensures sound { IsSound hall.new }
    ensures files { IsTrue F.tells_files → OnlyQueueFiles (F.files folder.old) (F.files folder.new) }
{
    hall.stuck = is_stuck_stop(hall.stuck, paid, answer);
    if !is_saving(ticking, answer) {
        return;
    }
    sync_all(hall, folder);
}
