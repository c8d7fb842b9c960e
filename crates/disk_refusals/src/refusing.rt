ghost use Rattle.std.specs.Prelude.{◌≡◌, ◌<◌, ◌^◌, ◌≤◌, IfErr, IfOk, MatchOption, false, length, true};
ghost use Rattle.broker_history.specs.Reply.{disk_fault};

use nsq_base::{Body, Memory};
use std::alloc::Global;
use v2_frame::{Frame, FrameKind};

/// The error that a disk fault kept off what a command of this word does. Want of memory is the only error.
pub fn disk_fault(alloc: Global, word: &[u8]) -> Result<Frame, Memory>
    requires { length word.now ≤ 100 }
    ensures value { IfOk result (λ frame. frame ≡ disk_fault word.now) }
    ensures short { IfOk result (λ frame. length frame.body < 2 ^ 31) }
{
    let mut bytes = Vec::from_slice(alloc, word)?;
    bytes.extend_from_slice(b" disk fault")?;
    Ok(Frame {
        kind: FrameKind::Error,
        body: Body::of(bytes),
    })
}

/// What the client is refused with whose publish of this word ended so: nothing where its messages were put, and that error where a disk fault
/// kept them off. Only then memory may be wanting.
pub fn publish_refusal(alloc: Global, word: &[u8], put: bool) -> Result<Option<Frame>, Memory>
    requires { length word.now ≤ 100 }
    ensures value { IfOk result (λ refusal. MatchOption refusal (put ≡ true) (λ frame. (put ≡ false) × (frame ≡ disk_fault word.now) × (length frame.body < 2 ^ 31))) }
    ensures memory { IfErr result (λ e. put ≡ false) }
{
    if put {
        return Ok(None);
    }
    let frame = disk_fault(alloc, word)?;
    Ok(Some(frame))
}
