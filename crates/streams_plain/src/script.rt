ghost use Rattle.std.specs.Prelude.{◌≡◌, IfOk, min};
ghost use Rattle.v2_frame.specs.Script.{IsScript, told_place};

use nsq_base::Memory;
use std::alloc::Global;
use v2_frame::{Command, Fault, FaultKind, Found, Limits, Rest, judge_front};

/// The four bytes that a stream begins with.
const MAGIC: &[u8] = b"  V2";

/// The place from which on faults are told as at this place.
const LAST_PLACE: u64 = 1 << 63;

/// The script of all bytes of a stream so far: the commands that stand in a row behind the magic, and what stands behind
/// them. Want of memory is the only error. It looks at whole lists and copies each body; a reader of pieces gives the same.
pub fn script_of(
    alloc: Global,
    limits: Limits,
    bytes: &[u8],
) -> Result<(Vec<Command>, Rest), Memory>
    ensures { IfOk result (λ found. IsScript limits bytes.now found.0.items found.1) }
{
    let mut commands = Vec::new(alloc);
    if bytes.len() < MAGIC.len() {
        return Ok((commands, Rest::Unfinished));
    }
    if &bytes[..MAGIC.len()] != MAGIC {
        let kind = FaultKind::BadMagic;
        return Ok((commands, Rest::Faulty(Fault { kind, at: 0 })));
    }
    let mut start = MAGIC.len();
    'commands: loop {
        match judge_front(alloc, limits, &bytes[start..])? {
            Found::Whole(command, taken) => {
                commands.push(command)?;
                start += taken;
            }
            Found::Faulty(kind, at) => {
                let at = told_place((start + at) as u64);
                return Ok((commands, Rest::Faulty(Fault { kind, at })));
            }
            Found::Unfinished => return Ok((commands, Rest::Unfinished)),
        }
    }
}

// The place as it is told.
fn told_place(at: u64) -> u64
    ensures { result ≡ told_place at }
{
    at.min(LAST_PLACE)
}
