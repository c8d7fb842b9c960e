//! A floor that answers by a script.
ghost use Rattle.std.specs.Prelude.{◌<◌, length};
ghost use Rattle.v2_frame.specs.declared.command.Command.{Command};
ghost use Rattle.v2_frame.specs.declared.fault.Fault.{Fault};
ghost use Rattle.broker_history.specs.Answers.{IsShortAnswer, IsAnswerTo};
ghost use Rattle.broker_history.specs.declared.call.Call.TheVariants as call;

use super::trace::Trace;
use broker_history::{Call, Turned, Turner};
use nsq_base::{Body, Memory};
use std::alloc::Global;
use streams_plain::command_text;
use v2_frame::{Frame, FrameKind};

/// A floor that answers each call by the next letter of its script, and keeps a letter for each call.
///
/// The letters of answers: `b` Begun, `o` the reply OK, `k` the reply CLOSE_WAIT, `e` an error that closes, `f` an error that leaves
/// the connection open, `q` Quiet, `d` Deleted, `s` Stopping, `m` a message, `h` a heartbeat, `i` Idle, `l` Silent, `g` Ended, `x`
/// Strange. Any other letter, one that isn't an answer to its call, and the script's end are Memory. Messages are numbered from 0
/// on, by the byte that is their body.
///
/// The letters of calls: `b` Begin, `c` Command, `f` Bad, `n` Next, `g` Gone, `a` all others.
#[derive(Drop)]
pub struct ScriptedFloor<'a> {
    /// The letters of the answers, one for each call.
    pub script: Vec<u8>,
    /// The number of calls that were made.
    pub made: usize,
    /// From the call of this number on the daemon has stopped.
    pub stops: usize,
    /// The number of the next message.
    pub number: u8,
    /// How the first command that came prints.
    pub command: Option<String>,
    /// Where the letters of calls are kept.
    pub trace: &'a Trace,
}

impl Turner for ScriptedFloor<'_> {
    ghost use Rattle.std.specs.Prelude.{false, []};

    ghost tells = { false };

    ghost notes = { λ _. [] };

    ghost leads = { λ _ _ _. Unit {0} };

    ghost stays = { λ _ _. tt };

    ghost goes_on = { λ _ _ _ _ _ _. tt };

    fn take_turn(&mut self, alloc: Global, _conn: u64, call: Call) -> Turned {
        let letter = self.next_letter(alloc, &call);
        let number = self.next_number(&call, letter);
        let turned = answered(alloc, &call, letter, number);
        drop(call);
        turned
    }
}

impl ScriptedFloor<'_> {
    /// Keeps the letter of a call, and gives that of its answer.
    fn next_letter(&mut self, alloc: Global, call: &Call) -> u8 {
        self.trace.note(letter_of(call));
        let at = self.made;
        self.made = at.saturating_add(1);
        if keep_first(alloc, &mut self.command, call).is_err() {
            return b'-';
        }
        if at >= self.stops && sees_stop(call) {
            return b's';
        }
        self.script.get(at).copied().unwrap_or(b'-')
    }

    /// The number of the next message, which is used up where the call is for one and the answer's letter is a message's.
    fn next_number(&mut self, call: &Call, letter: u8) -> u8 {
        let number = self.number;
        if letter == b'm' && is_next(call) {
            self.number = number.wrapping_add(1);
        }
        number
    }
}

/// Keeps how the first command that came prints.
fn keep_first(alloc: Global, kept: &mut Option<String>, call: &Call) -> Result<(), Memory> {
    if kept.is_none() {
        *kept = text_of(alloc, call)?;
    }
    Ok(())
}

/// How the call's command prints, if it is one.
fn text_of(alloc: Global, call: &Call) -> Result<Option<String>, Memory> {
    match call {
        Call::Command(command) => Ok(Some(command_text(alloc, command)?)),
        _ => Ok(None),
    }
}

/// Whether the call is answered that the daemon stops where it has.
fn sees_stop(call: &Call) -> bool {
    matches!(call, Call::Command(_) | Call::Bad(_) | Call::Next)
}

/// Whether the call is for what is to be sent.
fn is_next(call: &Call) -> bool {
    matches!(call, Call::Next)
}

fn letter_of(call: &Call) -> u8 {
    match call {
        Call::Begin => b'b',
        Call::Command(_) => b'c',
        Call::Bad(_) => b'f',
        Call::Next => b'n',
        Call::Gone => b'g',
        _ => b'a',
    }
}

/// The answer of a letter to a call; a message is of this number.
fn answered(alloc: Global, call: &Call, letter: u8, number: u8) -> Turned
    ensures answer { IsAnswerTo call.now result }
    ensures short { IsShortAnswer result }
{
    match call {
        Call::Begin => to_begin(letter),
        Call::Command(_) => to_command(alloc, letter),
        Call::Bad(_) => to_bad(alloc, letter),
        Call::Next => to_next(alloc, letter, number),
        Call::Gone => to_gone(letter),
        _ => Turned::Memory,
    }
}

fn to_begin(letter: u8) -> Turned
    ensures answer { IsAnswerTo call.Begin result }
    ensures short { IsShortAnswer result }
{
    match letter {
        b'b' => Turned::Begun,
        b'x' => Turned::Strange,
        _ => Turned::Memory,
    }
}

fn to_command(alloc: Global, letter: u8) -> Turned
    ensures answer { (command : Command) → IsAnswerTo (call.Command command) result }
    ensures short { IsShortAnswer result }
{
    match letter {
        b'o' => replied(alloc, FrameKind::Response, b"OK", false),
        b'k' => replied(alloc, FrameKind::Response, b"CLOSE_WAIT", false),
        b'e' => replied(alloc, FrameKind::Error, b"E_INVALID no", true),
        b'f' => replied(alloc, FrameKind::Error, b"E_FIN_FAILED no", false),
        b'q' => Turned::Quiet,
        b'd' => Turned::Deleted,
        b's' => Turned::Stopping,
        b'x' => Turned::Strange,
        _ => Turned::Memory,
    }
}

fn to_bad(alloc: Global, letter: u8) -> Turned
    ensures answer { (fault : Fault) → IsAnswerTo (call.Bad fault) result }
    ensures short { IsShortAnswer result }
{
    match letter {
        b'e' => match Body::copy(alloc, b"E_INVALID no") {
            Ok(body) => Turned::Reply(
                Frame {
                    kind: FrameKind::Error,
                    body,
                },
                true,
            ),
            Err(_) => Turned::Memory,
        },
        b's' => Turned::Stopping,
        b'x' => Turned::Strange,
        _ => Turned::Memory,
    }
}

fn to_next(alloc: Global, letter: u8, number: u8) -> Turned
    ensures answer { IsAnswerTo call.Next result }
    ensures short { IsShortAnswer result }
{
    match letter {
        b'm' => message(alloc, number),
        b'h' => pushed(alloc, FrameKind::Response, b"_heartbeat_"),
        b'i' => Turned::Idle,
        b'l' => Turned::Silent,
        b'd' => Turned::Deleted,
        b's' => Turned::Stopping,
        b'x' => Turned::Strange,
        _ => Turned::Memory,
    }
}

fn to_gone(letter: u8) -> Turned
    ensures answer { IsAnswerTo call.Gone result }
    ensures short { IsShortAnswer result }
{
    match letter {
        b'g' => Turned::Ended,
        b'x' => Turned::Strange,
        _ => Turned::Memory,
    }
}

/// The reply of a short text.
fn replied(alloc: Global, kind: FrameKind, text: &[u8], closing: bool) -> Turned
    requires { length text.now < 100 }
    ensures answer { (command : Command) → IsAnswerTo (call.Command command) result }
    ensures short { IsShortAnswer result }
{
    match Body::copy(alloc, text) {
        Ok(body) => Turned::Reply(Frame { kind, body }, closing),
        Err(_) => Turned::Memory,
    }
}

/// The message of this number.
fn message(alloc: Global, number: u8) -> Turned
    ensures answer { IsAnswerTo call.Next result }
    ensures short { IsShortAnswer result }
{
    let mut text = *b"12345678aaiiiiiiiiiiiiiiii?";
    text[26] = number;
    pushed(alloc, FrameKind::Message, &text)
}

/// A short text that is to be sent.
fn pushed(alloc: Global, kind: FrameKind, text: &[u8]) -> Turned
    requires { length text.now < 100 }
    ensures answer { IsAnswerTo call.Next result }
    ensures short { IsShortAnswer result }
{
    match Body::copy(alloc, text) {
        Ok(body) => Turned::Send(Frame { kind, body }),
        Err(_) => Turned::Memory,
    }
}
