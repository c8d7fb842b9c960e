ghost use Rattle.std.specs.Prelude.{◌≡◌, OnErr, OnOk};
ghost use Rattle.nsq_outside.specs.Files.{Files};
ghost use Rattle.broker_history.specs.Changes.{made};
ghost use Rattle.floor_rooms.specs.Changes.{KeepsSince};
ghost use Rattle.floor_rooms.specs.Kept.{NamesTold};
ghost use Rattle.floor_rooms.specs.Sound.{IsSound};
ghost use Rattle.floor_rooms.specs.Standing.{Carries};

use floor_rooms::Hall;
use nsq_base::{Chan, Memory, Topic};

/// Makes the topic of this name, and with a channel's name that channel in it, where they aren't there. After Memory, the only error, all is as it was.
pub fn create(hall: &mut Hall, topic: Topic, channel: Option<Chan>) -> Result<(), Memory>
    requires { IsSound hall.old }
    ensures made { (files : Files) → OnOk result (Carries hall.old files hall.new files (λ s t. t ≡ made s topic channel)) }
    ensures stays { (files : Files) → OnErr result (Carries hall.old files hall.new files (λ s t. t ≡ s)) }
    ensures rest { hall.new ≡ record hall.old { rooms = hall.new.rooms; pending = hall.new.pending; unsaved_names = hall.new.unsaved_names } }
    ensures sound { IsSound hall.new }
    ensures names { NamesTold hall.old hall.new }
    ensures since { KeepsSince hall.old.moment hall.old.rooms.items hall.new.rooms.items }
{
    match channel {
        None => {
            hall.make_room(topic)?;
            Ok(())
        }
        Some(channel) => hall.make_stall(topic, channel),
    }
}
