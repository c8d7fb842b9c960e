ghost use Rattle.std.specs.Prelude.{◌≡◌, ◌+◌, ◌≤◌, ◌<◌, ◌^◌, IfOk, length};
ghost use Rattle.floor_topics.specs.Publishing.{messages_of};

use floor_rooms::Hall;
use nsq_base::{Body, Memory, MsgId};
use v2_frame::Message;

// The messages of these bodies, in order, as they are published now: with the ids from the first one on that wasn't used. The bodies move into
// them. Want of memory is the only error.
pub(crate) fn messages_of(
    hall: &Hall,
    delay: u64,
    bodies: Vec<Body>,
) -> Result<Vec<Message>, Memory>
    requires epoch { hall.now.epoch < 2 ^ 24 }
    requires ids { hall.now.ids_used + length bodies.items ≤ 2 ^ 40 }
    ensures { IfOk result (λ ms. ms.items ≡ messages_of hall.now.epoch hall.now.ids_used hall.now.moment delay bodies.items) }
{
    let mut messages = Vec::with_capacity(hall.alloc, bodies.len())?;
    let mut number = hall.ids_used;
    for body in bodies {
        messages.push(Message {
            stamp: hall.moment,
            attempts: 0,
            id: MsgId::make(hall.epoch, number),
            body,
            delay,
        })?;
        number += 1;
    }
    Ok(messages)
}
