ghost use Rattle.backlog.specs.Seen.{FitsLimit};

use nsq_base::{Body, MsgId};
use std::alloc::Global;
use v2_frame::Message;

/// A message to stand in the place of one that is lent.
pub(crate) fn blank(alloc: Global) -> Message
    ensures { FitsLimit result }
{
    Message {
        stamp: 0,
        attempts: 0,
        id: MsgId::make(0, 0),
        body: Body::of(Vec::new(alloc)),
        delay: 0,
    }
}
