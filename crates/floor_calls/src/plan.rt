ghost use Rattle.std.specs.Prelude.{◌≡◌, IfOk, IsSome, Ok, false, is_some};
ghost use Rattle.broker_history.specs.declared.call.Call.TheVariants as call;
ghost use Rattle.floor_acts.specs.declared.plan.Plan.TheVariants as leads;
ghost use Rattle.floor_rooms.specs.Rooms.{client_in};
ghost use Rattle.floor_rooms.specs.Sound.{IsSound};
ghost use Rattle.floor_acts.specs.Plans.{IsAllowedPlan, IsPlanOf, IsShortPlan, KnowsPlan, Serves, is_strange};

use crate::asked::said_to;
use crate::due::next_due_to;
use crate::listed::names;
use broker_history::{Act, Ask, Call};
use floor_acts::{NextDue, Plan, Planned, find_client, refusal, reply_to};
use floor_rooms::{Client, Hall};
use nsq_base::Memory;
use std::alloc::Global;
use v2_frame::{Command, Fault};

/// Whether a call doesn't fit its number: the client of that number isn't there, or the one that is to begin is.
pub fn is_strange(hall: &Hall, number: u64, call: &Call) -> bool
    requires { IsSound hall.now }
    ensures { result ≡ is_strange call.now (is_some (client_in hall.now.clients.items number)) }
{
    let there = find_client(hall, number).is_some();
    match call {
        Call::Begin => there,
        Call::Command(_) => !there,
        Call::Bad(_) => !there,
        Call::Next => !there,
        Call::Gone => !there,
        Call::Ask(_) => false,
        Call::Names => false,
        Call::Tick => false,
        Call::Stop => false,
    }
}

/// What a call of this number leads to, where it isn't strange and no Stop keeps it from an act. Want of memory is the only error.
pub fn plan_call(hall: &Hall, alloc: Global, number: u64, call: Call) -> Result<Plan, Memory>
    requires sound { IsSound hall.now }
    requires serves { Serves hall.now number call }
    ensures shape { IfOk result (IsPlanOf hall.now number call) }
    ensures stands { IfOk result (IsAllowedPlan hall.now number call) }
    ensures knows { IfOk result (KnowsPlan hall.now.options) }
    ensures short { IfOk result IsShortPlan }
{
    match call {
        Call::Begin => certain(Act::Began),
        Call::Command(command) => plan_command(hall, alloc, number, command),
        Call::Bad(fault) => plan_refusal(hall, alloc, number, fault),
        Call::Next => Ok(plan_next(hall, number)),
        Call::Gone => certain(Act::Gone),
        Call::Ask(ask) => plan_asked(hall, alloc, number, ask),
        Call::Names => plan_names(hall, alloc, number),
        Call::Tick => certain(Act::Ticked),
        Call::Stop => certain(Act::Stop),
    }
}

// An act of which nothing was said.
fn plain(act: Act) -> Plan
    ensures { result ≡ leads.Act (record { act = act; said = None }) }
{
    Plan::Act(Planned { act, said: None })
}

// The same where memory might have been wanting.
fn certain(act: Act) -> Result<Plan, Memory>
    ensures { result ≡ Ok (leads.Act (record { act = act; said = None })) }
{
    Ok(plain(act))
}

// The client of this number, which is there.
fn client_of(hall: &Hall, number: u64) -> &Client
    requires sound { IsSound hall.now }
    requires there { IsSome (client_in hall.now.clients.items number) }
    ensures { client_in hall.now.clients.items number ≡ Some result.now }
{
    let Some(client) = find_client(hall, number) else {
        unreachable!()
    };
    client
}

// What a command leads to.
fn plan_command(hall: &Hall, alloc: Global, number: u64, command: Command) -> Result<Plan, Memory>
    requires sound { IsSound hall.now }
    requires there { IsSome (client_in hall.now.clients.items number) }
    requires running { hall.now.stopped ≡ false }
    ensures shape { IfOk result (IsPlanOf hall.now number (call.Command command)) }
    ensures stands { IfOk result (IsAllowedPlan hall.now number (call.Command command)) }
    ensures knows { IfOk result (KnowsPlan hall.now.options) }
    ensures short { IfOk result IsShortPlan }
{
    let client = client_of(hall, number);
    if client.is_lost() {
        let_command_go(command);
        return certain(Act::Dropped);
    }
    match reply_to(hall, alloc, client, &command) {
        Ok(replied) => Ok(Plan::Act(Planned {
            act: Act::Did(command, replied.reply),
            said: replied.said,
        })),
        Err(memory) => {
            let_command_go(command);
            Err(memory)
        }
    }
}

// A command goes here, where nothing else is held beside it.
fn let_command_go(_command: Command) {}

// What a fault in a client's bytes leads to.
fn plan_refusal(hall: &Hall, alloc: Global, number: u64, fault: Fault) -> Result<Plan, Memory>
    requires sound { IsSound hall.now }
    requires there { IsSome (client_in hall.now.clients.items number) }
    requires running { hall.now.stopped ≡ false }
    ensures shape { IfOk result (IsPlanOf hall.now number (call.Bad fault)) }
    ensures stands { IfOk result (IsAllowedPlan hall.now number (call.Bad fault)) }
    ensures knows { IfOk result (KnowsPlan hall.now.options) }
    ensures short { IfOk result IsShortPlan }
{
    let _client = client_of(hall, number);
    let frame = refusal(alloc, fault)?;
    certain(Act::Refused(fault, frame))
}

// What is to be sent to a client that is ready for it.
fn plan_next(hall: &Hall, number: u64) -> Plan
    requires sound { IsSound hall.now }
    requires there { IsSome (client_in hall.now.clients.items number) }
    requires running { hall.now.stopped ≡ false }
    ensures shape { IsPlanOf hall.now number call.Next result }
    ensures stands { IsAllowedPlan hall.now number call.Next result }
    ensures knows { KnowsPlan hall.now.options result }
    ensures short { IsShortPlan result }
{
    let client = client_of(hall, number);
    match next_due_to(hall, client) {
        NextDue::Dropped => plain(Act::Dropped),
        NextDue::Silent => plain(Act::Silent),
        NextDue::Beat => plain(Act::Beat),
        NextDue::Nothing => plain(Act::Idle),
        NextDue::Message(i, j) => Plan::Draw(i, j),
    }
}

// What something that is asked over HTTP leads to.
fn plan_asked(hall: &Hall, alloc: Global, number: u64, ask: Ask) -> Result<Plan, Memory>
    requires sound { IsSound hall.now }
    requires running { hall.now.stopped ≡ false }
    ensures shape { IfOk result (IsPlanOf hall.now number (call.Ask ask)) }
    ensures stands { IfOk result (IsAllowedPlan hall.now number (call.Ask ask)) }
    ensures knows { IfOk result (KnowsPlan hall.now.options) }
    ensures short { IfOk result IsShortPlan }
{
    match said_to(hall, alloc, &ask) {
        Ok(said) => certain(Act::Asked(ask, said)),
        Err(memory) => {
            let_ask_go(ask);
            Err(memory)
        }
    }
}

// What was asked goes here, where nothing else is held beside it.
fn let_ask_go(_ask: Ask) {}

// What the asking for names leads to.
fn plan_names(hall: &Hall, alloc: Global, number: u64) -> Result<Plan, Memory>
    requires { IsSound hall.now }
    ensures shape { IfOk result (IsPlanOf hall.now number call.Names) }
    ensures stands { IfOk result (IsAllowedPlan hall.now number call.Names) }
    ensures knows { IfOk result (KnowsPlan hall.now.options) }
    ensures short { IfOk result IsShortPlan }
{
    let names = names(hall, alloc)?;
    certain(Act::Listed(names))
}
