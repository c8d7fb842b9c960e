ghost use Rattle.std.specs.Prelude.{◌≡◌, ◌∷◌, ◌++◌, [], All, IfOk, OnOk, true};
ghost use Rattle.nsq_base.specs.Names.{IsAscendingBy, is_before, topic_of};
ghost use Rattle.nsq_outside.specs.Files.{Files};
ghost use Rattle.broker_history.specs.State.{State, names_of};
ghost use Rattle.floor_rooms.specs.Rooms.{channel_name, hall_names, stall_names, topic_name};
ghost use Rattle.floor_rooms.specs.Sound.{IsSound};
ghost use Rattle.floor_rooms.specs.Standing.{HoldsFor};

use floor_rooms::{Hall, Room};
use nsq_base::{Memory, Names};
use std::alloc::Global;

/// The names of all topics and channels. Want of memory is the only error.
pub fn names(hall: &Hall, alloc: Global) -> Result<Names, Memory>
    requires { IsSound hall.now }
    ensures value { IfOk result (λ names. names ≡ hall_names hall.now) }
    ensures told { IfOk result (λ names. (files : Files) (s : State) → HoldsFor hall.now files s → names ≡ names_of s) }
{
    let mut names = Names::new(alloc);
    'rooms: for room in &hall.rooms {
        add_room(&mut names, room)?;
    }
    Ok(names)
}

// Adds a topic with its channels behind all others.
fn add_room(names: &mut Names, room: &Room) -> Result<(), Memory>
    requires last { All (λ e. is_before (topic_of e) (topic_name room.now) ≡ true) names.old }
    requires order { IsAscendingBy channel_name room.now.stalls.items }
    ensures { OnOk result (names.new ≡ names.old ++ (topic_name room.now, stall_names room.now) ∷ []) }
{
    let topic = room.name();
    names.add(topic)?;
    'stalls: for stall in &room.stalls {
        names.add_channel(topic, stall.name())?;
    }
    Ok(())
}
