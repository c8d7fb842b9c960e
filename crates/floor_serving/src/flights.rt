ghost use Rattle.std.specs.Prelude.{◌≡◌, ◌≤◌, IfOk, Some, codes, length};
ghost use Rattle.v2_frame.specs.declared.command.Command.TheVariants as command;
ghost use Rattle.broker_history.specs.Reply.{disk_fault};
ghost use Rattle.floor_rooms.specs.Sound.{IsSound};
ghost use Rattle.floor_calls.specs.Replies.{IsShort};
ghost use Rattle.floor_serving.specs.Carrying.{basis};
ghost use Rattle.floor_serving.specs.Commands.{CarriesCommand, IsAccepted};

use crate::commanded::Commanded;
use crate::spans::span_of;
use channel_core::Requeue;
use disk_refusals::disk_fault;
use floor_calls::requeue;
use floor_rooms::Hall;
use nsq_base::{Memory, MsgId, Steps};
use nsq_outside::Folder;
use std::alloc::Global;
use std::sync::ledger::Ledger;
use v2_frame::Frame;

// REQ of the client at a place, with a delay in milliseconds. A disk fault keeps it off, and then the client only spoke.
pub(crate) fn requeue_own<F: Folder, L: Ledger>(
    hall: &mut Hall,
    k: usize,
    id: MsgId,
    delay: i64,
    folder: &mut F,
    scratch: &mut [u8],
    steps: &mut Steps<L>,
) -> Result<Commanded, Memory>
    requires sound { IsSound hall.old }
    requires accepted { IsAccepted hall.old k (command.Req id delay) }
    requires scratch { 16777242 ≤ length scratch.old }
    ensures { CarriesCommand F.tells_files k (command.Req id delay) (basis hall.old (F.files folder.old) (F.folder_faults folder.old)) (basis hall.new (F.files folder.new) (F.folder_faults folder.new)) result }
{
    let span = span_of(delay, hall.options.max_req_timeout);
    let Ok(refusal) = refusal_at(hall.alloc, span) else {
        return Err(Memory);
    };
    match requeue(hall, k, id, span, folder, scratch, steps) {
        Requeue::Done => {
            drop(refusal);
            Ok(Commanded::Done)
        }
        Requeue::Fault => {
            let Some(frame) = refusal else { unreachable!() };
            Ok(Commanded::Fault(frame))
        }
    }
}

// What is answered where a disk fault keeps a message from being given back with this delay, which it does only at once.
fn refusal_at(alloc: Global, delay: u64) -> Result<Option<Frame>, Memory>
    ensures value { IfOk result (λ refusal. delay ≡ 0 → refusal ≡ Some (disk_fault (codes "E_REQ_FAILED"))) }
    ensures short { IfOk result IsShort }
{
    if delay != 0 {
        return Ok(None);
    }
    Ok(Some(disk_fault(alloc, b"E_REQ_FAILED")?))
}
