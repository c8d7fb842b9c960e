ghost use Rattle.std.specs.Prelude.{◌≡◌, [], IsTrue, false};
ghost use Rattle.nsq_base.specs.Options.{IsInRange};
ghost use Rattle.nsq_outside.specs.Causes.{Rose};
ghost use Rattle.nsq_outside.specs.Hosts.{OnlyAcceptFaults};
ghost use Rattle.broker_floor.specs.Floors.{flushed_of, kit_of, notes_of, scene_of};
ghost use Rattle.daemon_main.specs.Going.{Went};
ghost use Rattle.daemon_main.specs.Rounds.{LoopsOver};
ghost use Rattle.daemon_callers.specs.Served.{views, AllTell, ListenersFailedLast};
ghost use Rattle.daemon_endings.specs.declared.ends.LoopEnd.TheVariants.{Failed};

use broker_floor::{Floor, save};
use broker_history::Entry;
use daemon_callers::serve_caller;
use daemon_endings::LoopEnd;
use daemon_tick::{Ticked, tick};
use nsq_base::Options;
use nsq_outside::{Accept, Clock, Folder, Host, Journal};
use std::alloc::Global;
use std::sync::Wait;

/// Serves the callers, one after another, each under its number, from 1 on, and hands each one back.
///
/// Each round begins with a tick, by which what is due is moved and queues are saved that weren't for the sync timeout. Behind an accept that gives a
/// caller, or none for now, the file of names is saved where names changed; where that fails it is tried again behind the next such one. Behind an accept
/// that fails, or says that nobody will call any more, nothing is saved: the floor is to be stopped and shut.
///
/// A caller's Stop ends the loop: the next round's tick is answered that the daemon stops.
///
/// The floor wasn't flushed, and its journal has no entry yet; the options are in their ranges. `began` is the moment of the opening, in nanoseconds.
pub fn serve_callers<R: Wait, H: Host<Entry>>(
    rt: &R,
    alloc: Global,
    options: &Options,
    began: u64,
    host: &mut H,
    floor: &mut Floor<H::Folder, H::Clock, H::Journal>,
) -> LoopEnd
    requires options { IsInRange options.now }
    requires unflushed { flushed_of floor.old ≡ false }
    requires empty { IsTrue H.Journal.tells_notes → notes_of floor.old ≡ [] }
    ensures unflushed { flushed_of floor.new ≡ false }
    ensures over { LoopsOver (AllTell H.tells H.Conn.tells_pieces H.Conn.tells_written H.Journal.tells_notes) H.tells H.Journal.tells_notes H.Folder.tells_files H.Clock.tells_readings
        (views H.Conn.pieces H.Conn.left H.Conn.ended H.Conn.written H.Conn.read_faults H.Conn.write_faults) options.now began result (H.state host.old).accept_faults (H.state host.new).accept_faults
        (scene_of floor.old) (scene_of floor.new)
        (H.content host.old) (H.content host.new) }
    ensures state { OnlyAcceptFaults (H.state host.old) (H.state host.new) }
    ensures cause { result ≡ Failed → Rose (H.state host.old).accept_faults (H.state host.new).accept_faults }
    ensures listeners { IsTrue H.tells → result ≡ Failed → ListenersFailedLast H.state H.content host.old host.new }
{
    let mut number: u64 = 0;
    'callers: for _ in rt.forever() {
        if number == u64::MAX {
            return LoopEnd::Halted;
        }
        match tick(alloc, floor) {
            Ticked::Quiet => {}
            Ticked::Stopping => return LoopEnd::Stopped,
            Ticked::Memory => return LoopEnd::Memory,
        }
        match host.accept(rt) {
            Accept::Caller(kind, conn) => {
                let mut conn = conn;
                number += 1;
                save_changed(alloc, floor);
                serve_caller(rt, alloc, options, began, kind, &mut conn, floor, number);
                host.done(number, conn);
            }
            Accept::Nothing => save_changed(alloc, floor),
            Accept::Halt => return LoopEnd::Halted,
            Accept::Failed => return LoopEnd::Failed,
        }
    }
    unreachable!()
}

/// Saves the file of names where names changed. A saving that fails is tried again later: the names are still said to be unsaved.
fn save_changed<F: Folder, C: Clock, J: Journal<Entry>>(alloc: Global, floor: &mut Floor<F, C, J>)
    requires unflushed { flushed_of floor.old ≡ false }
    ensures unflushed { flushed_of floor.new ≡ false }
    ensures went { Went J.tells_notes F.tells_files C.tells_readings (scene_of floor.old) (scene_of floor.new) }
    ensures journal { (kit_of floor.new).journal ≡ (kit_of floor.old).journal }
{
    if floor.changed() {
        let _saved = save(alloc, floor);
    }
}
