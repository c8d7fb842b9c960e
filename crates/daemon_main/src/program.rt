ghost use Rattle.std.specs.Prelude.{◌≡◌, ◌⊎◌, ◌≤◌, ◌^◌, IfOk, IsSome, IsTrue, map, string_bytes};
ghost use Rattle.nsq_base.specs.Options.{IsInRange};
ghost use Rattle.nsq_base.specs.declared.options.Options.{Options as SaidOptions};
ghost use Rattle.nsq_outside.specs.Causes.{Rose};
ghost use Rattle.nsq_outside.specs.Hosts.{OnlyPrintFaults, OnlyTellFaults};
ghost use Rattle.daemon_endings.specs.Statuses.{line_of, status_of};
ghost use Rattle.daemon_callers.specs.Served.{ListenersFailedLast};
ghost use Rattle.daemon_main.specs.Sights.{Both};
ghost use Rattle.daemon_main.specs.Doing.{CanDo, Does, DrillsSo, Obeys};
ghost use Rattle.daemon_main.specs.DrillTexts.{ShowsDrill, drill_text};
ghost use Rattle.daemon_main.specs.ProgramEndings.{TellsLine};
ghost use Rattle.daemon_main.specs.Programs.{IsAsked, IsPlainRun, StaysHome};
ghost use Rattle.nsqd_words.specs.Requests.{Asks, IsUnknown, SaysOptions};

use crate::drill_run::{Drilled, drill};
use crate::{Watched, serve};
use broker_history::Entry;
use daemon_endings::{Ending, line, print, status};
use nsq_base::Memory;
use nsq_outside::Host;
use nsqd_words::{
    Request, options_are_known, options_are_one, other_requests_are_known, read_words,
    requests_exclude_each_other,
};
use std::alloc::Global;
use std::sync::Wait;

/// Does all that the program does: it reads the words, the program's name first, and serves with the options that they say until nobody calls any more, or
/// prints what they ask for. It tells the line that goes with its ending, and returns its status:
///
/// | status | comes | line |
/// |---|---|---|
/// | 0 | a clean stop; what was asked for was printed | none |
/// | 1 | exactly where the words aren't right | `nsqd: bad options` |
/// | 2 | the data path's files aren't in their grammar; no further epoch is left; the folder failed while it was opened | `nsqd: data path: bad data`, `ids spent`, `disk fault` |
/// | 3 | the folder failed at the stop | `nsqd: stop: disk fault` |
/// | 4 | the listeners failed, at the start or behind the last caller | `nsqd: accept failed` |
/// | 5 | want of memory | `nsqd: out of memory` |
/// | 6 | standard output failed | `nsqd: output fault` |
pub fn nsqd_run<R: Wait, H: Host<Entry>>(
    rt: &R,
    alloc: Global,
    words: &[String],
    host: &mut H,
) -> u8
    requires { IsSome (H.state host.old).kit }
    ensures home { IsSome (H.state host.new).kit }
    ensures unknown { result ≡ 1 → IsUnknown (map string_bytes words.now) }
    ensures bad { IsUnknown (map string_bytes words.now) → (result ≡ 1) ⊎ (result ≡ 5) }
    ensures serves { (o : SaidOptions) → SaysOptions (map string_bytes words.now) o → IsInRange o
        → Both (⟦<H as Watched>⟧.sight host.old) (⟦<H as Watched>⟧.sight host.new) (IsPlainRun ⟦<H as Watched>⟧.told H.tells H.Folder.tells_files H.Journal.tells_notes ⟦<H as Watched>⟧.seen o result) }
    ensures output { result ≡ 6 → Rose (H.state host.old).print_faults (H.state host.new).print_faults }
    ensures prints { IsAsked H.tells (map string_bytes words.now) result (H.content host.old).printed (H.content host.new).printed (H.state host.old).print_faults (H.state host.new).print_faults }
    ensures stays { ((o : SaidOptions) → SaysOptions (map string_bytes words.now) o → IsInRange o → ⊥)
        → StaysHome H.tells (map string_bytes words.now) result (H.state host.old) (H.state host.new) (H.content host.old) (H.content host.new) }
    ensures listeners { IsTrue H.tells → result ≡ 4 → ListenersFailedLast H.state H.content host.old host.new }
{
    // Laws: what words ask for excludes all else.
    options_are_known();
    options_are_one();
    other_requests_are_known();
    requests_exclude_each_other();
    let ending = obey(rt, alloc, words, host);
    close(rt, host, ending)
}

/// Does what the words ask for.
fn obey<R: Wait, H: Host<Entry>>(rt: &R, alloc: Global, words: &[String], host: &mut H) -> Ending
    requires { IsSome (H.state host.old).kit }
    ensures home { IsSome (H.state host.new).kit }
    ensures obeys { Obeys ⟦<H as Watched>⟧.told H.tells H.Folder.tells_files H.Journal.tells_notes ⟦<H as Watched>⟧.seen (H.state host.old) (H.state host.new) (H.content host.old) (H.content host.new)
        (⟦<H as Watched>⟧.sight host.old) (⟦<H as Watched>⟧.sight host.new) (Asks (map string_bytes words.now)) result }
    ensures listeners { IsTrue H.tells → status_of result ≡ 4 → ListenersFailedLast H.state H.content host.old host.new }
{
    match read_words(alloc, words) {
        Ok(request) => {
            let ending = carry_out(rt, alloc, &request, host);
            let_go(request);
            ending
        }
        Err(_) => Ending::Memory,
    }
}

/// Lets go of what was asked for.
fn let_go(_request: Request) {}

/// Does what is asked for.
fn carry_out<R: Wait, H: Host<Entry>>(
    rt: &R,
    alloc: Global,
    request: &Request,
    host: &mut H,
) -> Ending
    requires home { IsSome (H.state host.old).kit }
    requires can { CanDo request.now }
    ensures home { IsSome (H.state host.new).kit }
    ensures does { Does ⟦<H as Watched>⟧.told H.tells H.Folder.tells_files H.Journal.tells_notes ⟦<H as Watched>⟧.seen (H.state host.old) (H.state host.new) (H.content host.old) (H.content host.new)
        (⟦<H as Watched>⟧.sight host.old) (⟦<H as Watched>⟧.sight host.new) request.now result }
    ensures listeners { IsTrue H.tells → status_of result ≡ 4 → ListenersFailedLast H.state H.content host.old host.new }
{
    match request {
        Request::Serve(options) => Ending::Served(serve(rt, alloc, options, host)),
        Request::Drill(seed, count) => print_drill(rt, alloc, *seed, *count, host),
        Request::Help(text) => print(rt, host, text.as_bytes()),
        Request::Version(text) => print(rt, host, text.as_bytes()),
        Request::Unknown => Ending::BadOptions,
    }
}

/// Runs a drill and prints what it counted.
fn print_drill<R: Wait, H: Host<Entry>>(
    rt: &R,
    alloc: Global,
    seed: u64,
    count: u64,
    host: &mut H,
) -> Ending
    requires seed { seed ≤ 2 ^ 59 }
    requires count { count ≤ 100000 }
    ensures drills { DrillsSo H.tells (H.state host.old) (H.state host.new) (H.content host.old) (H.content host.new) seed count result }
    ensures state { OnlyPrintFaults (H.state host.old) (H.state host.new) }
    ensures unserved { status_of result ≡ 4 → ⊥ }
{
    match drilled_text(rt, alloc, seed, count) {
        Ok(text) => print(rt, host, text.as_bytes()),
        Err(_) => Ending::Memory,
    }
}

/// What a drill counted, as it is printed.
fn drilled_text<R: Wait>(rt: &R, alloc: Global, seed: u64, count: u64) -> Result<String, Memory>
    requires seed { seed ≤ 2 ^ 59 }
    requires count { count ≤ 100000 }
    ensures { IfOk result (λ text. ShowsDrill seed count (string_bytes text)) }
{
    let drilled = drill(rt, alloc, seed, count)?;
    let text = text_of(alloc, &drilled);
    drop(drilled);
    text
}

/// The four numbers of a drill, each on a line.
fn text_of(alloc: Global, drilled: &Drilled) -> Result<String, Memory>
    ensures { IfOk result (λ text. string_bytes text ≡ drill_text drilled.now) }
{
    Ok(format!(in alloc;
        "published {}\nsent {}\nfinished {}\nleft {}\n",
        drilled.published, drilled.sent, drilled.finished, drilled.left
    )?)
}

/// Tells the line of an ending, where one is, and returns its status.
pub fn close<R: Wait, H: Host<Entry>>(rt: &R, host: &mut H, ending: Ending) -> u8
    ensures status { result ≡ status_of ending }
    ensures state { OnlyTellFaults (H.state host.old) (H.state host.new) }
    ensures content { IsTrue H.tells → TellsLine (line_of ending) (H.content host.old) (H.content host.new) (H.state host.old).tell_faults (H.state host.new).tell_faults }
{
    tell_line(rt, host, ending);
    status(ending)
}

/// Tells the line of an ending, where one is.
fn tell_line<R: Wait, H: Host<Entry>>(rt: &R, host: &mut H, ending: Ending)
    ensures state { OnlyTellFaults (H.state host.old) (H.state host.new) }
    ensures content { IsTrue H.tells → TellsLine (line_of ending) (H.content host.old) (H.content host.new) (H.state host.old).tell_faults (H.state host.new).tell_faults }
{
    match line(ending) {
        Some(text) => host.tell(rt, text),
        None => {}
    }
}
