ghost use Rattle.std.specs.Prelude.{◌≡◌, [], false, IsSome, IsTrue};
ghost use Rattle.nsq_base.specs.Options.{IsInRange};
ghost use Rattle.nsq_base.specs.Text.{IsText};
ghost use Rattle.nsq_outside.specs.Causes.{DidFails};
ghost use Rattle.nsq_outside.specs.Hosts.{OnlyAcceptFaults, Starts};
ghost use Rattle.broker_floor.specs.Floors.{flushed_of, notes_of, scene_of};
ghost use Rattle.broker_floor.specs.Opening.{HaveBytes};
ghost use Rattle.daemon_callers.specs.Served.{AllTell, ListenersFailedLast, OnlyCallersChange, views};
ghost use Rattle.daemon_endings.specs.Endings.{status_of};
ghost use Rattle.daemon_main.specs.Asked.{HasAsked};
ghost use Rattle.daemon_main.specs.Endings.{IsCaused, IsComplete};
ghost use Rattle.daemon_main.specs.Parts.{KeepsFaults, RunsOn};
ghost use Rattle.daemon_main.specs.Runs.{HasWorked, Runs};
ghost use Rattle.daemon_main.specs.Sights.{AllTold, Both, counts_of, sight};
ghost use Rattle.daemon_endings.specs.declared.serving.ServeEnd.TheVariants.{AcceptFailed};

use crate::callers::serve_callers;
use crate::watched::Watched;
use broker_floor::{Floor, Refused, open, shut};
use broker_history::Entry;
use daemon_callers::stop;
use daemon_endings::{ServeEnd, ending_after, refusal};
use nsq_base::{Body, Options};
use nsq_outside::{Did, Host, Kit};
use std::alloc::Global;
use std::str;
use std::sync::Wait;

/// Serves with these options, each in its range: it starts the host at their addresses and data path, opens that, serves the callers, one after another, until
/// nobody calls any more or a caller stops it over HTTP, stops, and shuts the data path. The host's kit is at home, and is again at the end.
///
/// The end `AcceptFailed` comes only where the count of the listeners' faults rose in the start or behind the last caller: a fault behind which
/// further callers came is no cause of it.
pub fn serve<R: Wait, H: Host<Entry>>(
    rt: &R,
    alloc: Global,
    options: &Options,
    host: &mut H,
) -> ServeEnd
    requires home { IsSome (H.state host.old).kit }
    requires options { IsInRange options.now }
    ensures home { IsSome (H.state host.new).kit }
    ensures asked { IsTrue H.tells → HasAsked options.now (status_of result) (H.content host.old) (H.content host.new) }
    ensures lines { IsTrue H.tells → (H.content host.new).lines ≡ (H.content host.old).lines }
    ensures faults { KeepsFaults (H.state host.old) (H.state host.new) }
    ensures cause { Both (⟦<H as Watched>⟧.sight host.old) (⟦<H as Watched>⟧.sight host.new) (λ old new. IsCaused result H.Folder.tells_files H.Journal.tells_notes old.files old.counts new.counts) }
    ensures complete { IsTrue H.Folder.tells_files → IsTrue H.Journal.tells_notes → Both (⟦<H as Watched>⟧.sight host.old) (⟦<H as Watched>⟧.sight host.new) (λ old new. HaveBytes old.files → IsComplete result old.files old.counts new.counts) }
    ensures run { ⟦<H as Watched>⟧.told → Both (⟦<H as Watched>⟧.sight host.old) (⟦<H as Watched>⟧.sight host.new) (Runs ⟦<H as Watched>⟧.seen options.now result) }
    ensures listeners { IsTrue H.tells → result ≡ AcceptFailed → ListenersFailedLast H.state H.content host.old host.new }
{
    match start(rt, options, host) {
        Did::Failed => ServeEnd::AcceptFailed,
        Did::Done => {
            let kit = host.lend();
            let (ending, kit) = work(rt, alloc, options, host, kit);
            host.restore(kit);
            ending
        }
    }
}

/// Starts the host with the addresses and the data path of the options.
fn start<R: Wait, H: Host<Entry>>(rt: &R, options: &Options, host: &mut H) -> Did
    requires options { IsInRange options.now }
    ensures state { OnlyAcceptFaults (H.state host.old) (H.state host.new) }
    ensures cause { DidFails (H.state host.old).accept_faults (H.state host.new).accept_faults result }
    ensures content { IsTrue H.tells → Starts (H.content host.old) (H.content host.new) options.now.tcp_address options.now.http_address options.now.data_path result }
{
    let tcp = text_of(&options.tcp_address);
    let http = text_of(&options.http_address);
    let path = text_of(&options.data_path);
    host.start(rt, tcp, http, path)
}

/// A text of the options.
fn text_of(text: &Body) -> &str
    requires { IsText text.now }
    ensures { result.now ≡ text.now }
{
    match str::from_utf8(text.bytes()) {
        Ok(text) => text,
        Err(_) => unreachable!(),
    }
}

/// Opens the data path, serves the callers and stops. It gives the kit back.
fn work<R: Wait, H: Host<Entry>>(
    rt: &R,
    alloc: Global,
    options: &Options,
    host: &mut H,
    kit: Kit<H::Folder, H::Clock, H::Journal>,
) -> (ServeEnd, Kit<H::Folder, H::Clock, H::Journal>)
    requires options { IsInRange options.now }
    requires aside { H.Journal.is_aside kit.journal ≡ false }
    requires empty { IsTrue H.Journal.tells_notes → H.Journal.notes kit.journal ≡ [] }
    ensures worked { AllTold H.tells H.Conn.tells_pieces H.Conn.tells_written H.Journal.tells_notes H.Folder.tells_files H.Clock.tells_readings → HaveBytes (H.Folder.files kit.folder)
        → HasWorked (views H.Conn.pieces H.Conn.left H.Conn.ended H.Conn.written H.Conn.read_faults H.Conn.write_faults) options.now result.0
        (sight H.Journal.notes H.Folder.files H.Clock.coming H.Folder.folder_faults kit (H.state host.old) (H.content host.old)) (sight H.Journal.notes H.Folder.files H.Clock.coming H.Folder.folder_faults result.1 (H.state host.new) (H.content host.new)) }
    ensures rest { IsTrue H.tells → OnlyCallersChange (H.content host.old) (H.content host.new) }
    ensures state { OnlyAcceptFaults (H.state host.old) (H.state host.new) }
    ensures cause { IsCaused result.0 H.Folder.tells_files H.Journal.tells_notes (H.Folder.files kit.folder) (counts_of H.Folder.folder_faults kit.folder (H.state host.old)) (counts_of H.Folder.folder_faults result.1.folder (H.state host.new)) }
    ensures listeners { IsTrue H.tells → result.0 ≡ AcceptFailed → ListenersFailedLast H.state H.content host.old host.new }
{
    match open(alloc, kit, options) {
        Ok(floor) => {
            let began = floor.began();
            run(rt, alloc, options, began, host, floor)
        }
        Err(refused) => {
            let Refused { why, kit } = refused;
            (refusal(why), kit)
        }
    }
}

/// Serves the callers at an opened floor, stops it and shuts it. `began` is the moment of the opening, in nanoseconds.
fn run<R: Wait, H: Host<Entry>>(
    rt: &R,
    alloc: Global,
    options: &Options,
    began: u64,
    host: &mut H,
    floor: Floor<H::Folder, H::Clock, H::Journal>,
) -> (ServeEnd, Kit<H::Folder, H::Clock, H::Journal>)
    requires options { IsInRange options.now }
    requires unflushed { flushed_of floor ≡ false }
    requires empty { IsTrue H.Journal.tells_notes → notes_of floor ≡ [] }
    ensures runs { RunsOn (AllTell H.tells H.Conn.tells_pieces H.Conn.tells_written H.Journal.tells_notes) H.tells H.Journal.tells_notes H.Folder.tells_files H.Clock.tells_readings
        (views H.Conn.pieces H.Conn.left H.Conn.ended H.Conn.written H.Conn.read_faults H.Conn.write_faults) options.now began result.0 (H.state host.old).accept_faults (H.state host.new).accept_faults
        (scene_of floor) (H.Folder.files result.1.folder) (H.Journal.notes result.1.journal) (H.Clock.coming result.1.clock) (H.Folder.folder_faults result.1.folder) (H.content host.old) (H.content host.new) }
    ensures rest { IsTrue H.tells → OnlyCallersChange (H.content host.old) (H.content host.new) }
    ensures state { OnlyAcceptFaults (H.state host.old) (H.state host.new) }
    ensures listeners { IsTrue H.tells → result.0 ≡ AcceptFailed → ListenersFailedLast H.state H.content host.old host.new }
{
    let mut floor = floor;
    let looped = serve_callers(rt, alloc, options, began, host, &mut floor);
    let stopped = stop(alloc, &mut floor);
    let (shutting, kit) = shut(alloc, floor);
    (ending_after(looped, stopped, shutting), kit)
}
