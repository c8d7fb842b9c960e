ghost use Rattle.std.specs.Prelude.{◌≡◌, ◌≤◌, ◌<◌, Bool, ℕ, IsTrue, length};
ghost use Rattle.nsq_outside.specs.Files.{Files};
ghost use Rattle.v2_frame.specs.declared.command.Command.TheVariants as command;
ghost use Rattle.broker_history.specs.declared.entry.Act.TheVariants.{Did};
ghost use Rattle.floor_rooms.specs.Sound.{IsSound};
ghost use Rattle.floor_turns.specs.Acting.{IsPlanned};
ghost use Rattle.floor_serving.specs.Carrying.{CarriesOut, basis};
ghost use Rattle.floor_serving.specs.Commands.{CarriesCommand, IsAccepted, IsLine, IsNoIdentify, KnowsSaid};

use crate::carried::Carried;
use crate::commanded::Commanded;
use crate::flights::requeue_own;
use crate::publishing::{publish_as, publish_delayed, publish_one};
use crate::replied::{is_error, kept_off, replied};
use crate::spans::count_of;
use floor_calls::{close, finish, identify, set_ready, speak, subscribe, touch};
use floor_rooms::Hall;
use negotiation::Identity;
use nsq_base::{Body, Chan, Memory, Steps, Topic};
use nsq_outside::Folder;
use std::sync::ledger::Ledger;
use v2_frame::{Command, Frame};

/// Carries a command of the client of this number out, which has this reply: one that is refused changes nothing but when the client spoke last. After
/// Memory, the only error, all is as it was. Requires 16,777,242 bytes of `scratch`.
pub(crate) fn carry_command<F: Folder, L: Ledger>(
    hall: &mut Hall,
    number: u64,
    command: Command,
    reply: Option<Frame>,
    said: Option<Identity>,
    folder: &mut F,
    scratch: &mut [u8],
    steps: &mut Steps<L>,
) -> Result<Carried, Memory>
    requires sound { IsSound hall.old }
    requires plan { IsPlanned hall.old number (Did command reply) said }
    requires scratch { 16777242 ≤ length scratch.old }
    ensures { CarriesOut F.tells_files number (Did command reply) (basis hall.old (F.files folder.old) (F.folder_faults folder.old)) (basis hall.new (F.files folder.new) (F.folder_faults folder.new)) result }
{
    let Some(k) = hall.client_place(number) else {
        unreachable!()
    };
    if is_error(&reply) {
        let_go(command, said);
        speak(hall, k);
        return Ok(replied(reply));
    }
    match do_command(hall, k, command, said, folder, scratch, steps) {
        Ok(Commanded::Done) => Ok(replied(reply)),
        Ok(Commanded::Fault(frame)) => {
            drop(reply);
            Ok(kept_off(frame))
        }
        Err(_) => {
            drop(reply);
            Err(Memory)
        }
    }
}

// Lets go of a command that is refused, and of what it said.
fn let_go(command: Command, said: Option<Identity>) {
    drop(command);
    drop(said);
}

// Does what a command of the client at a place says, whose reply is no error.
fn do_command<F: Folder, L: Ledger>(
    hall: &mut Hall,
    k: usize,
    command: Command,
    said: Option<Identity>,
    folder: &mut F,
    scratch: &mut [u8],
    steps: &mut Steps<L>,
) -> Result<Commanded, Memory>
    requires sound { IsSound hall.old }
    requires accepted { IsAccepted hall.old k command }
    requires said { KnowsSaid hall.old.options command said }
    requires scratch { 16777242 ≤ length scratch.old }
    ensures { CarriesCommand F.tells_files k command (basis hall.old (F.files folder.old) (F.folder_faults folder.old)) (basis hall.new (F.files folder.new) (F.folder_faults folder.new)) result }
{
    match command {
        Command::Identify(body) => introduce(hall, k, body, said),
        command => {
            drop(said);
            do_other(hall, k, command, folder, scratch, steps)
        }
    }
}

// The same of any command but IDENTIFY.
fn do_other<F: Folder, L: Ledger>(
    hall: &mut Hall,
    k: usize,
    command: Command,
    folder: &mut F,
    scratch: &mut [u8],
    steps: &mut Steps<L>,
) -> Result<Commanded, Memory>
    requires sound { IsSound hall.old }
    requires accepted { IsAccepted hall.old k command }
    requires other { IsNoIdentify command }
    requires scratch { 16777242 ≤ length scratch.old }
    ensures { CarriesCommand F.tells_files k command (basis hall.old (F.files folder.old) (F.folder_faults folder.old)) (basis hall.new (F.files folder.new) (F.folder_faults folder.new)) result }
{
    match command {
        Command::Pub(topic, body) => publish_one(hall, k, topic, body, folder, scratch),
        Command::Mpub(topic, bodies) => {
            let bodies = bodies.spend();
            publish_as(hall, k, topic, 0, bodies, b"E_MPUB_FAILED", folder, scratch)
        }
        Command::Dpub(topic, delay, body) => {
            publish_delayed(hall, k, topic, delay, body, folder, scratch)
        }
        command => {
            let ended = do_line(hall, k, &command, folder, scratch, steps);
            drop(command);
            ended
        }
    }
}

// The same of a command that is a line alone.
fn do_line<F: Folder, L: Ledger>(
    hall: &mut Hall,
    k: usize,
    command: &Command,
    folder: &mut F,
    scratch: &mut [u8],
    steps: &mut Steps<L>,
) -> Result<Commanded, Memory>
    requires sound { IsSound hall.old }
    requires accepted { IsAccepted hall.old k command.now }
    requires line { IsLine command.now }
    requires scratch { 16777242 ≤ length scratch.old }
    ensures { CarriesCommand F.tells_files k command.now (basis hall.old (F.files folder.old) (F.folder_faults folder.old)) (basis hall.new (F.files folder.new) (F.folder_faults folder.new)) result }
{
    match command {
        Command::Sub(topic, channel) => join(hall, k, *topic, *channel),
        Command::Rdy(count) => ready(hall, k, *count),
        Command::Fin(id) => {
            finish(hall, k, *id, steps);
            Ok(Commanded::Done)
        }
        Command::Req(id, delay) => requeue_own(hall, k, *id, *delay, folder, scratch, steps),
        Command::Touch(id) => {
            touch(hall, k, *id, steps);
            Ok(Commanded::Done)
        }
        Command::Cls => {
            close(hall, k);
            Ok(Commanded::Done)
        }
        Command::Nop => nothing(hall, k),
        _ => unreachable!(),
    }
}

// IDENTIFY of the client at a place, which said this of itself.
fn introduce(
    hall: &mut Hall,
    k: usize,
    body: Body,
    said: Option<Identity>,
) -> Result<Commanded, Memory>
    requires sound { IsSound hall.old }
    requires accepted { IsAccepted hall.old k (command.Identify body) }
    requires said { KnowsSaid hall.old.options (command.Identify body) said }
    ensures { (tells : Bool) (files : Files) (faults : ℕ) → CarriesCommand tells k (command.Identify body) (basis hall.old files faults) (basis hall.new files faults) result }
{
    let _ = body;
    let Some(identity) = said else { unreachable!() };
    hall.clients[k].fresh_has_none();
    identify(hall, k, identity);
    Ok(Commanded::Done)
}

// SUB of the client at a place.
fn join(hall: &mut Hall, k: usize, topic: Topic, channel: Chan) -> Result<Commanded, Memory>
    requires sound { IsSound hall.old }
    requires accepted { IsAccepted hall.old k (command.Sub topic channel) }
    ensures { (tells : Bool) (files : Files) (faults : ℕ) → CarriesCommand tells k (command.Sub topic channel) (basis hall.old files faults) (basis hall.new files faults) result }
{
    hall.clients[k].fresh_has_none();
    match subscribe(hall, k, topic, channel) {
        Ok(()) => Ok(Commanded::Done),
        Err(_) => Err(Memory),
    }
}

// RDY of the client at a place.
fn ready(hall: &mut Hall, k: usize, count: i64) -> Result<Commanded, Memory>
    requires sound { IsSound hall.old }
    requires accepted { IsAccepted hall.old k (command.Rdy count) }
    ensures { (tells : Bool) (files : Files) (faults : ℕ) → CarriesCommand tells k (command.Rdy count) (basis hall.old files faults) (basis hall.new files faults) result }
{
    set_ready(hall, k, count_of(count));
    Ok(Commanded::Done)
}

// NOP of the client at a place.
fn nothing(hall: &mut Hall, k: usize) -> Result<Commanded, Memory>
    requires sound { IsSound hall.old }
    requires accepted { IsAccepted hall.old k command.Nop }
    ensures { (tells : Bool) (files : Files) (faults : ℕ) → CarriesCommand tells k command.Nop (basis hall.old files faults) (basis hall.new files faults) result }
{
    speak(hall, k);
    Ok(Commanded::Done)
}
