ghost use Rattle.std.specs.Prelude.{◌≡◌, Some, slice_get};
ghost use Rattle.nsq_outside.specs.Files.{Files};
ghost use Rattle.floor_rooms.specs.Changes.{AtRoom};
ghost use Rattle.floor_rooms.specs.Rooms.{topic_name};
ghost use Rattle.floor_rooms.specs.Sound.{IsSound};
ghost use Rattle.floor_rooms.specs.declared.room.Room.{Room as RoomSeen};
ghost use Rattle.floor_moves.specs.Moves.{Keeps};
ghost use Rattle.floor_moves.specs.Copying.{Owes, PaysRoom, PaysTopic};
ghost use Rattle.floor_moves.specs.Taking.{HasRoomAt};

use floor_rooms::Hall;
use nsq_base::Chan;

/// The channel of this name is owed no copy any more of the message that the topic at this place took: with the last one that goes.
pub(crate) fn pay(hall: &mut Hall, i: usize, channel: Chan)
    requires sound { IsSound hall.old }
    requires owes { HasRoomAt i (Owes channel) hall.old.rooms.items }
    ensures rest { hall.new ≡ record hall.old { rooms = hall.new.rooms } }
    ensures room { AtRoom i (PaysRoom channel) hall.old.rooms.items hall.new.rooms.items }
    ensures stands { (room : RoomSeen) → slice_get hall.old.rooms.items i ≡ Some room → (files : Files) → PaysTopic (topic_name room) channel hall.old hall.new files }
    ensures sound { IsSound hall.new }
    ensures keeps { Keeps hall.old hall.new }
{
    hall.rooms[i].queue.paid(channel);
}
