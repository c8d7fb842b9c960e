ghost use Rattle.std.specs.Prelude.{◌≡◌, ◌≤◌, IsTrue, length, ℕ};
ghost use Rattle.broker_history.specs.declared.entry.Act.TheVariants.{Asked};
ghost use Rattle.broker_history.specs.declared.ask.Ask.TheVariants as ask;
ghost use Rattle.broker_history.specs.Calls.{CanAsk};
ghost use Rattle.floor_rooms.specs.Sound.{IsSound};
ghost use Rattle.floor_serving.specs.Carrying.{CarriesOut, basis};
ghost use Rattle.floor_serving.specs.Asks.{CarriesAsk};

use crate::carried::Carried;
use crate::replied::is_done;
use crate::requests::{
    serve_creation, serve_deletion, serve_emptying, serve_nothing, serve_pause, serve_publish,
};
use crate::served::Served;
use broker_history::{Ask, Said, Turned};
use floor_rooms::Hall;
use nsq_base::Memory;
use nsq_outside::{End, Folder};

/// Does what is asked where this is said to be done, and answers what is said. After Memory, the only error, all is as it was. Requires 16,777,242 bytes
/// of `scratch`.
pub(crate) fn carry_asked<F: Folder>(
    hall: &mut Hall,
    ask: Ask,
    said: Said,
    folder: &mut F,
    scratch: &mut [u8],
) -> Result<Carried, Memory>
    requires sound { IsSound hall.old }
    requires can { CanAsk ask }
    requires scratch { 16777242 ≤ length scratch.old }
    ensures { (number : ℕ) → CarriesOut F.tells_files number (Asked ask said) (basis hall.old (F.files folder.old) (F.folder_faults folder.old)) (basis hall.new (F.files folder.new) (F.folder_faults folder.new)) result }
{
    if !is_done(&said) {
        drop(ask);
        return Ok(Carried {
            end: End::Done,
            answer: Turned::Said(said),
        });
    }
    match do_ask(hall, ask, folder, scratch) {
        Ok(Served::Done) => Ok(Carried {
            end: End::Done,
            answer: Turned::Said(said),
        }),
        Ok(Served::Fault(count)) => {
            drop(said);
            Ok(Carried {
                end: End::Faulted(count),
                answer: Turned::Said(Said::Disk),
            })
        }
        Err(_) => {
            drop(said);
            Err(Memory)
        }
    }
}

// Does what is asked, where it is said to be done.
fn do_ask<F: Folder>(
    hall: &mut Hall,
    ask: Ask,
    folder: &mut F,
    scratch: &mut [u8],
) -> Result<Served, Memory>
    requires sound { IsSound hall.old }
    requires can { CanAsk ask }
    requires scratch { 16777242 ≤ length scratch.old }
    ensures { CarriesAsk F.tells_files ask (basis hall.old (F.files folder.old) (F.folder_faults folder.old)) (basis hall.new (F.files folder.new) (F.folder_faults folder.new)) result }
{
    match ask {
        Ask::Publish(topic, delay, bodies) => {
            serve_publish(hall, topic, delay, bodies, folder, scratch)
        }
        Ask::Stats(topic, channel) => serve_nothing(hall, topic, channel),
        Ask::Create(topic, channel) => serve_creation(hall, topic, channel),
        Ask::Delete(topic, channel) => serve_deletion(hall, topic, channel, folder),
        Ask::Empty(topic, channel) => serve_emptying(hall, topic, channel, folder),
        Ask::Pause(topic, channel) => serve_pause(hall, topic, channel, true),
        Ask::Unpause(topic, channel) => serve_pause(hall, topic, channel, false),
    }
}
