ghost use Rattle.std.specs.Prelude.{◌≡◌, ◌^◌, ◌<◌, IfSome};
ghost use Rattle.v2_client.specs.Writing.{CanWrite};

use crate::same;
use crate::text::{check_row, cut, rows_of};
use std::alloc::Global;
use std::process::Abort;
use streams_plain::command_text;
use v2_client::write_command;
use v2_frame::{Command, Found, Limits, judge_front};

const LIMITS: Limits = Limits { msg: 5, body: 100 };

// A name, a spelling of a command, the command as it prints, and its canonical spelling.
static ROWS: &[u8] = b"\
IDENTIFY|IDENTIFY\n\0\0\0\x02{}|Identify(Body { bytes: [123, 125] })|IDENTIFY\n\0\0\0\x02{}~\
PUB with a carriage return|PUB t\r\n\0\0\0\x02hi|Pub(Topic { name: \"t\" }, Body { bytes: [104, 105] })|PUB t\n\0\0\0\x02hi~\
DPUB with a minus sign and a leading zero|DPUB t -07\n\0\0\0\x01d|Dpub(Topic { name: \"t\" }, -7, Body { bytes: [100] })|DPUB t -7\n\0\0\0\x01d~\
MPUB of two bodies|MPUB t\n\0\0\0\x0f\0\0\0\x02\0\0\0\x01a\0\0\0\x02bc|Mpub(Topic { name: \"t\" }, Bodies { items: [Body { bytes: [97] }, Body { bytes: [98, 99] }] })|MPUB t\n\0\0\0\x0f\0\0\0\x02\0\0\0\x01a\0\0\0\x02bc~\
SUB|SUB t c\n|Sub(Topic { name: \"t\" }, Chan { name: \"c\" })|SUB t c\n~\
RDY|RDY 1\n|Rdy(1)|RDY 1\n~\
RDY without its number|RDY\n|Rdy(1)|RDY 1\n~\
RDY of 18 digits|RDY -123456789012345678\n|Rdy(-123456789012345678)|RDY -123456789012345678\n~\
RDY of minus zero|RDY -000\n|Rdy(0)|RDY 0\n~\
FIN|FIN 0000010000000000\n|Fin(MsgId { bytes: [48, 48, 48, 48, 48, 49, 48, 48, 48, 48, 48, 48, 48, 48, 48, 48] })|FIN 0000010000000000\n~\
REQ|REQ 0000010000000000 100\n|Req(MsgId { bytes: [48, 48, 48, 48, 48, 49, 48, 48, 48, 48, 48, 48, 48, 48, 48, 48] }, 100)|REQ 0000010000000000 100\n~\
TOUCH|TOUCH 0000010000000000\n|Touch(MsgId { bytes: [48, 48, 48, 48, 48, 49, 48, 48, 48, 48, 48, 48, 48, 48, 48, 48] })|TOUCH 0000010000000000\n~\
CLS|CLS\n|Cls|CLS\n~\
NOP|NOP\n|Nop|NOP\n~\
";

// The command that the bytes spell, where they spell one and nothing stands behind it.
fn command_of(rt: &impl Abort, alloc: Global, bytes: &[u8]) -> Option<Command>
    ensures { IfSome result CanWrite }
{
    match judge_front(alloc, LIMITS, bytes).expect(rt, "memory") {
        Found::Whole(command, taken) if taken == bytes.len() => Some(command),
        _ => None,
    }
}

// Whether the command prints as this.
fn prints(alloc: Global, command: &Command, want: &[u8]) -> bool {
    match command_text(alloc, command) {
        Ok(text) => same(text.as_bytes(), want),
        Err(_) => false,
    }
}

// Whether the command is written behind what is there as its canonical spelling.
fn is_written(alloc: Global, command: &Command, canonical: &[u8]) -> bool
    requires { CanWrite command.now }
{
    let Ok(mut out) = b"  V2".to_vec(alloc) else {
        return false;
    };
    let done = write_command(alloc, command, &mut out).is_ok();
    match out.strip_prefix(b"  V2") {
        Some(written) => done & same(written, canonical),
        None => false,
    }
}

// Whether the command that is spelled prints as the row says, and is written as it says.
fn holds(rt: &impl Abort, alloc: Global, row: &'static [u8]) -> bool {
    let (_, rest) = cut(row, b'|');
    let (spelled, rest) = cut(rest, b'|');
    let (prints_as, canonical) = cut(rest, b'|');
    match command_of(rt, alloc, spelled) {
        Some(command) => {
            is_written(alloc, &command, canonical) & prints(alloc, &command, prints_as)
        }
        None => false,
    }
}

#[test]
fn rows(rt: HostRuntime) {
    for row in &rows_of(&rt, rt.alloc(), ROWS, b'~') {
        let (name, _) = cut(row, b'|');
        check_row(&rt, holds(&rt, rt.alloc(), row), name);
    }
}
