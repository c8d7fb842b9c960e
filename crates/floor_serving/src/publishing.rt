ghost use Rattle.std.specs.Prelude.{◌≡◌, ◌∷◌, [], ◌+◌, ◌≤◌, ◌<◌, ◌^◌, All, IfOk, IsTrue, length, MatchBool};
ghost use Rattle.v2_frame.specs.declared.command.Command.{Command};
ghost use Rattle.v2_frame.specs.declared.command.Command.TheVariants as command;
ghost use Rattle.broker_history.specs.Reply.{span_of};
ghost use Rattle.floor_calls.specs.Published.TheVariants as published_so;
ghost use Rattle.floor_rooms.specs.Sound.{IsSound};
ghost use Rattle.floor_rooms.specs.Standing.{longest_delay};
ghost use Rattle.floor_serving.specs.Carrying.{basis};
ghost use Rattle.floor_serving.specs.Commands.{CarriesCommand, IsAccepted, IsPublish};

use crate::commanded::Commanded;
use crate::spans::span_of;
use disk_refusals::publish_refusal;
use floor_calls::{Published, publish, speak};
use floor_rooms::Hall;
use nsq_base::{Body, Memory, Topic};
use nsq_outside::Folder;
use std::alloc::Global;

// PUB of the client at a place. A disk fault keeps it off, and then the client only spoke.
pub(crate) fn publish_one<F: Folder>(
    hall: &mut Hall,
    k: usize,
    topic: Topic,
    body: Body,
    folder: &mut F,
    scratch: &mut [u8],
) -> Result<Commanded, Memory>
    requires sound { IsSound hall.old }
    requires accepted { IsAccepted hall.old k (command.Pub topic body) }
    requires scratch { 16777242 ≤ length scratch.old }
    ensures { CarriesCommand F.tells_files k (command.Pub topic body) (basis hall.old (F.files folder.old) (F.folder_faults folder.old)) (basis hall.new (F.files folder.new) (F.folder_faults folder.new)) result }
{
    let Ok(bodies) = one(hall.alloc, body) else {
        return Err(Memory);
    };
    publish_as(hall, k, topic, 0, bodies, b"E_PUB_FAILED", folder, scratch)
}

// DPUB of the client at a place, with a delay in milliseconds. A disk fault keeps it off, and then the client only spoke.
pub(crate) fn publish_delayed<F: Folder>(
    hall: &mut Hall,
    k: usize,
    topic: Topic,
    delay: i64,
    body: Body,
    folder: &mut F,
    scratch: &mut [u8],
) -> Result<Commanded, Memory>
    requires sound { IsSound hall.old }
    requires accepted { IsAccepted hall.old k (command.Dpub topic delay body) }
    requires scratch { 16777242 ≤ length scratch.old }
    ensures { CarriesCommand F.tells_files k (command.Dpub topic delay body) (basis hall.old (F.files folder.old) (F.folder_faults folder.old)) (basis hall.new (F.files folder.new) (F.folder_faults folder.new)) result }
{
    let Ok(bodies) = one(hall.alloc, body) else {
        return Err(Memory);
    };
    let delay = span_of(delay, hall.options.max_req_timeout);
    publish_as(
        hall,
        k,
        topic,
        delay,
        bodies,
        b"E_DPUB_FAILED",
        folder,
        scratch,
    )
}

// A list of one body. Want of memory is the only error.
fn one(alloc: Global, body: Body) -> Result<Vec<Body>, Memory>
    ensures { IfOk result (λ bodies. bodies.items ≡ body ∷ []) }
{
    let mut bodies = Vec::with_capacity(alloc, 1)?;
    bodies.push_reserved(body);
    Ok(bodies)
}

// The client at a place publishes these bodies, with a delay in nanoseconds. A disk fault keeps that off, and then the client only spoke; it is told
// by this word.
pub(crate) fn publish_as<F: Folder>(
    hall: &mut Hall,
    k: usize,
    topic: Topic,
    delay: u64,
    bodies: Vec<Body>,
    word: &[u8],
    folder: &mut F,
    scratch: &mut [u8],
) -> Result<Commanded, Memory>
    requires sound { IsSound hall.old }
    requires client { k < length hall.old.clients.items }
    requires ids { hall.old.ids_used + length bodies.items ≤ 2 ^ 40 }
    requires short { All (λ body. length body ≤ 16777216) bodies.items }
    requires delay { delay ≤ longest_delay }
    requires word { length word.now ≤ 100 }
    requires scratch { 16777242 ≤ length scratch.old }
    ensures { (c : Command) → IsPublish c topic delay bodies.items word.now → CarriesCommand F.tells_files k c (basis hall.old (F.files folder.old) (F.folder_faults folder.old)) (basis hall.new (F.files folder.new) (F.folder_faults folder.new)) result }
{
    let Ok(published) = publish(hall, topic, delay, bodies, folder, scratch) else {
        return Err(Memory);
    };
    let Ok(refusal) = publish_refusal(hall.alloc, word, is_put(published)) else {
        return Err(Memory);
    };
    speak(hall, k);
    match refusal {
        None => Ok(Commanded::Done),
        Some(frame) => Ok(Commanded::Fault(frame)),
    }
}

// Whether the messages were put.
fn is_put(published: Published) -> bool
    ensures { MatchBool result (published ≡ published_so.Done) (published ≡ published_so.Fault) }
{
    matches!(published, Published::Done)
}
