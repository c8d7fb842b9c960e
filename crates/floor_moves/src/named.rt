ghost use Rattle.std.specs.Prelude.{◌≡◌, IfOk, IfSome, OnErr, OnOk};
ghost use Rattle.nsq_base.specs.Names.{IsAscendingBy};
ghost use Rattle.floor_rooms.specs.Rooms.{channel_name};
ghost use Rattle.floor_moves.specs.Taking.{named, names_of};

use floor_rooms::Room;
use nsq_base::{Memory, Names};
use std::alloc::Global;

/// Makes the list of a topic's name with its channels' names, where it isn't at hand. After Memory the topic is as before.
pub(crate) fn fill_names(room: &mut Room, alloc: Global) -> Result<(), Memory>
    requires order { IsAscendingBy channel_name room.old.stalls.items }
    requires names { IfSome room.old.names (λ names. names ≡ names_of room.old) }
    ensures named { OnOk result (room.new ≡ named room.old) }
    ensures refused { OnErr result (room.new ≡ room.old) }
{
    if room.names.is_some() {
        return Ok(());
    }
    room.names = Some(list_names(room, alloc)?);
    Ok(())
}

// The topic's name with its channels' names.
fn list_names(room: &Room, alloc: Global) -> Result<Names, Memory>
    requires { IsAscendingBy channel_name room.now.stalls.items }
    ensures { IfOk result (λ names. names ≡ names_of room.now) }
{
    let topic = room.name();
    let mut names = Names::new(alloc);
    names.add(topic)?;
    'stalls: for stall in &room.stalls {
        names.add_channel(topic, stall.name())?;
    }
    Ok(names)
}
