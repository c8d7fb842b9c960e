ghost use Rattle.std.specs.Prelude.{◌≡◌, [], true, IsTrue};
ghost use Rattle.broker_history.specs.Entries.{own, has_stop};
ghost use Rattle.broker_history.specs.Calls.{CanAsk};
ghost use Rattle.broker_history.specs.Answers.{wants_memory};
ghost use Rattle.daemon_callers.specs.Exchange.{ListsBehindStop};
ghost use Rattle.daemon_callers.specs.Noted.{lists_names, says_stopping, ListsNames, TicksTo, AsksTo, StopsTo};

use crate::letting::let_go;
use broker_history::{Ask, Call, Desk, Turned};
use http_asked::Asked;
use nsq_base::Memory;
use std::alloc::Global;
use std::sync::Wait;

/// What a tick came to.
#[derive(Clone, Copy)]
pub(crate) enum Ticked {
    /// The connection goes on.
    Goes,
    /// The daemon stops, and the names were listed.
    Closed,
    /// Want of memory.
    Memory,
}

/// Lists the names of all topics and channels. Want of memory is the only error: then nothing was noted.
fn list_names<R: Wait, D: Desk>(
    rt: &R,
    alloc: Global,
    number: u64,
    desk: &mut D,
) -> Result<(), Memory>
    requires number { number ≡ D.number desk.old }
    ensures listed { IsTrue D.tells → ListsNames (own number (D.seen desk.old)) (own number (D.seen desk.new)) result }
    ensures behind { IsTrue D.tells → has_stop (D.seen desk.old) ≡ true → ListsBehindStop number (D.seen desk.old) → ListsBehindStop number (D.seen desk.new) }
    ensures number { D.number desk.new ≡ D.number desk.old }
    ensures wanted { D.wanted desk.new ≡ D.wanted desk.old }
    ensures leads { D.leads desk.old desk.new }
{
    let turned = desk.turn(rt, alloc, number, Call::Names);
    let listing = is_listing(&turned);
    let_go(turned);
    if !listing {
        return Err(Memory);
    }
    Ok(())
}

/// Makes a tick. Where the daemon stops, the names are listed.
pub(crate) fn tick<R: Wait, D: Desk>(rt: &R, alloc: Global, number: u64, desk: &mut D) -> Ticked
    requires number { number ≡ D.number desk.old }
    ensures ticks { IsTrue D.tells → own number (D.seen desk.old) ≡ [] → TicksTo number (D.seen desk.new) result }
    ensures number { D.number desk.new ≡ D.number desk.old }
    ensures wanted { D.wanted desk.new ≡ D.wanted desk.old }
    ensures leads { D.leads desk.old desk.new }
{
    let turned = desk.turn(rt, alloc, number, Call::Tick);
    let wanting = is_wanting(&turned);
    let stopping = is_stopping(&turned);
    let_go(turned);
    if wanting {
        return Ticked::Memory;
    }
    if !stopping {
        return Ticked::Goes;
    }
    match list_names(rt, alloc, number, desk) {
        Ok(()) => Ticked::Closed,
        Err(_) => Ticked::Memory,
    }
}

/// Asks this, and says what is said to it. Where the daemon stops, the names are listed. Want of memory is the only error: then nothing
/// was noted.
pub(crate) fn ask<R: Wait, D: Desk>(
    rt: &R,
    alloc: Global,
    number: u64,
    desk: &mut D,
    ask: Ask,
) -> Result<Asked, Memory>
    requires number { number ≡ D.number desk.old }
    requires can { CanAsk ask }
    ensures asks { IsTrue D.tells → own number (D.seen desk.old) ≡ [] → AsksTo ask number (D.seen desk.new) result }
    ensures number { D.number desk.new ≡ D.number desk.old }
    ensures wanted { D.wanted desk.new ≡ D.wanted desk.old }
    ensures leads { D.leads desk.old desk.new }
{
    match desk.turn(rt, alloc, number, Call::Ask(ask)) {
        Turned::Said(said) => Ok(Asked::Said(said)),
        Turned::Stopping => {
            list_names(rt, alloc, number, desk)?;
            Ok(Asked::Stopping)
        }
        _ => Err(Memory),
    }
}

/// Stops the daemon, unless it stops already, and lists the names. Want of memory is the only error: then nothing was noted, or the Stop
/// alone.
pub(crate) fn stop<R: Wait, D: Desk>(
    rt: &R,
    alloc: Global,
    number: u64,
    desk: &mut D,
) -> Result<(), Memory>
    requires number { number ≡ D.number desk.old }
    ensures stops { IsTrue D.tells → own number (D.seen desk.old) ≡ [] → StopsTo number (D.seen desk.new) result }
    ensures number { D.number desk.new ≡ D.number desk.old }
    ensures wanted { D.wanted desk.new ≡ D.wanted desk.old }
    ensures leads { D.leads desk.old desk.new }
{
    let turned = desk.turn(rt, alloc, number, Call::Stop);
    let stopping = is_stopping(&turned);
    let_go(turned);
    if !stopping {
        return Err(Memory);
    }
    list_names(rt, alloc, number, desk)
}

/// Whether a turn answers that the names were listed.
fn is_listing(turned: &Turned) -> bool
    ensures { result ≡ lists_names turned.now }
{
    matches!(turned, Turned::Listed(_, _))
}

/// Whether a turn answers that the daemon stops.
fn is_stopping(turned: &Turned) -> bool
    ensures { result ≡ says_stopping turned.now }
{
    matches!(turned, Turned::Stopping)
}

/// Whether a turn answers that memory is wanting.
fn is_wanting(turned: &Turned) -> bool
    ensures { result ≡ wants_memory turned.now }
{
    matches!(turned, Turned::Memory)
}
