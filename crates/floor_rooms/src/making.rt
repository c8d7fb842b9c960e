ghost use Rattle.std.specs.Prelude.{◌≡◌, ◌<◌, ◌||◌, IfOk, OnErr, OnOk, not, vec_capacity, vec_len};
ghost use Rattle.std.specs.VecDeque.{deque_capacity, deque_len};
ghost use Rattle.nsq_base.specs.Name.{is_ephemeral};
ghost use Rattle.nsq_base.specs.Places.{BelongsAt};
ghost use Rattle.nsq_outside.specs.Files.{Files};
ghost use Rattle.broker_history.specs.State.{State, new_topic};
ghost use Rattle.broker_history.specs.Changes.{made_topic};
ghost use Rattle.floor_rooms.specs.Changes.{KeepsSince};
ghost use Rattle.floor_rooms.specs.Kept.{NamesTold};
ghost use Rattle.floor_rooms.specs.Made.{BeginsIdle, IsFreshRoom, IsUnmade, MakesRoom};
ghost use Rattle.floor_rooms.specs.Places.{IsThere};
ghost use Rattle.floor_rooms.specs.Rooms.{put_room, topic_name};
ghost use Rattle.floor_rooms.specs.Sound.{IsSound};
ghost use Rattle.floor_rooms.specs.Standing.{Carries, HoldsFor, IsRoomOf};

use crate::room::put_in;
use crate::{Hall, Room};
use nsq_base::{Memory, Topic};
use topic_core::TopicQueue;

/// Topics that are made.
impl Hall {
    /// A topic of this name as it is made, which isn't in the hall. Want of memory is the only error.
    pub fn free_room(&self, topic: Topic) -> Result<Room, Memory>
        ensures room { IfOk result (IsFreshRoom topic self.now.options) }
        ensures stands { IfOk result (λ r. (files : Files) → BeginsIdle files topic → IsRoomOf files r (new_topic topic)) }
    {
        let _ = topic.bytes();
        let queue = TopicQueue::fresh(self.alloc, topic, &self.options)?;
        Ok(Room::of(queue, Vec::new(self.alloc)))
    }

    /// Makes room for one more topic, also among those that may have something to take or to pay. After Memory too the hall is as before.
    pub fn reserve_room(&mut self) -> Result<(), Memory>
        ensures rest { self.new ≡ record self.old { rooms = self.new.rooms; pending = self.new.pending } }
        ensures rooms { self.new.rooms.items ≡ self.old.rooms.items }
        ensures pending { self.new.pending.items ≡ self.old.pending.items }
        ensures space { OnOk result (vec_len self.new.rooms < vec_capacity self.new.rooms) }
        ensures list { OnOk result (deque_len self.new.pending < deque_capacity self.new.pending) }
        ensures sound { IsSound self.old → IsSound self.new }
        ensures stands { (files : Files) (s : State) → HoldsFor self.old files s → HoldsFor self.new files s }
    {
        self.rooms.reserve(1)?;
        self.pending.reserve(1)?;
        Ok(())
    }

    /// Puts a topic in at the place where it belongs. Takes no memory. Requires that there is room for one more.
    pub fn add_room(&mut self, i: usize, room: Room)
        requires place { BelongsAt topic_name self.old.rooms.items (topic_name room) i }
        requires space { vec_len self.old.rooms < vec_capacity self.old.rooms }
        ensures rest { self.new ≡ record self.old { rooms = self.new.rooms; unsaved_names = self.old.unsaved_names || not (is_ephemeral (topic_name room)) } }
        ensures rooms { self.new.rooms.items ≡ put_room self.old.rooms.items room }
    {
        if !room.name().ephemeral() {
            self.unsaved_names = true;
        }
        put_in(&mut self.rooms, i, room);
    }

    /// Makes the topic of this name, unless it is there, and answers where it stands. After Memory the hall is as before.
    pub fn make_room(&mut self, topic: Topic) -> Result<usize, Memory>
        requires { IsSound self.old }
        ensures there { IfOk result (IsThere topic_name self.new.rooms.items topic) }
        ensures rest { self.new ≡ record self.old { rooms = self.new.rooms; pending = self.new.pending; unsaved_names = self.new.unsaved_names } }
        ensures pending { self.new.pending.items ≡ self.old.pending.items }
        ensures made { OnOk result (MakesRoom topic self.old self.new) }
        ensures refused { OnErr result (IsUnmade self.old self.new) }
        ensures names { NamesTold self.old self.new }
        ensures since { KeepsSince self.old.moment self.old.rooms.items self.new.rooms.items }
        ensures sound { IsSound self.new }
        ensures stands { (files : Files) → OnOk result (Carries self.old files self.new files (λ s t. t ≡ made_topic s topic)) }
        ensures stays { (files : Files) → OnErr result (Carries self.old files self.new files (λ s t. t ≡ s)) }
    {
        match self.place_of(topic) {
            Ok(i) => Ok(i),
            Err(i) => {
                self.reserve_room()?;
                let room = self.free_room(topic)?;
                self.add_room(i, room);
                Ok(i)
            }
        }
    }
}
