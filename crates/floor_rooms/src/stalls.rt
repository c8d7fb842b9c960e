ghost use Rattle.std.specs.Prelude.{◌≡◌, ◌<◌, ◌||◌, HoldsAt, IfOk, IsSome, OnErr, OnOk, length, not, vec_capacity, vec_len};
ghost use Rattle.std.specs.VecDeque.{deque_capacity, deque_len};
ghost use Rattle.nsq_base.specs.Options.{IsInRange};
ghost use Rattle.nsq_base.specs.Places.{BelongsAt, StandsAt};
ghost use Rattle.nsq_outside.specs.Files.{Files};
ghost use Rattle.broker_history.specs.State.{State, is_ephemeral_channel, new_channel, new_topic, with_channel};
ghost use Rattle.broker_history.specs.Changes.{made_channel};
ghost use Rattle.floor_rooms.specs.Changes.{AtRoom, KeepsSince};
ghost use Rattle.floor_rooms.specs.Kept.{NamesTold};
ghost use Rattle.floor_rooms.specs.Made.{AddsStall, BeginsIdle, ChannelBeginsIdle, IsFreshStall, IsRoomWith, SameStalls};
ghost use Rattle.floor_rooms.specs.Rooms.{channel_name, stall_at, topic_name};
ghost use Rattle.floor_rooms.specs.Sound.{IsSound};
ghost use Rattle.floor_rooms.specs.Standing.{Carries, HoldsFor, IsRoomOf, IsStallOf};

use crate::{Hall, Room, Stall};
use channel_core::Channel;
use nsq_base::{Chan, Memory, Topic};
use topic_core::TopicQueue;

/// Channels that are made.
impl Hall {
    /// A channel of this topic as it is made, which isn't in the hall. Want of memory is the only error. Requires options in their ranges.
    pub fn free_stall(&self, topic: Topic, channel: Chan) -> Result<Stall, Memory>
        requires { IsInRange self.now.options }
        ensures stall { IfOk result (IsFreshStall topic channel self.now.options) }
        ensures stands { IfOk result (λ s. (files : Files) → ChannelBeginsIdle files topic channel → IsStallOf files s (new_channel channel)) }
    {
        let _ = channel.bytes();
        Ok(Stall {
            channel: Channel::fresh(self.alloc, topic, channel, &self.options)?,
            since: None,
            members: Vec::new(self.alloc),
        })
    }

    /// Makes room for one more channel in a topic, and for its name among the topics that may have something to take or to pay. After Memory
    /// too the hall is as before.
    pub fn reserve_stall(&mut self, i: usize) -> Result<(), Memory>
        requires { i < length self.old.rooms.items }
        ensures rest { self.new ≡ record self.old { rooms = self.new.rooms; pending = self.new.pending } }
        ensures room { AtRoom i SameStalls self.old.rooms.items self.new.rooms.items }
        ensures pending { self.new.pending.items ≡ self.old.pending.items }
        ensures space { OnOk result (HoldsAt (λ r. vec_len r.stalls < vec_capacity r.stalls) self.new.rooms.items i) }
        ensures list { OnOk result (deque_len self.new.pending < deque_capacity self.new.pending) }
        ensures sound { IsSound self.old → IsSound self.new }
        ensures stands { (files : Files) (s : State) → HoldsFor self.old files s → HoldsFor self.new files s }
    {
        let room = &mut self.rooms[i];
        room.stalls.reserve(1)?;
        self.pending.reserve(1)?;
        Ok(())
    }

    /// Puts a channel into a topic at the place where it belongs; the topic stands among those that may have something to take or to pay from
    /// then on. Takes no memory. Requires that there is room for both.
    pub fn add_stall(&mut self, i: usize, j: usize, stall: Stall)
        requires room { i < length self.old.rooms.items }
        requires place { HoldsAt (λ r. BelongsAt channel_name r.stalls.items (channel_name stall) j) self.old.rooms.items i }
        requires space { HoldsAt (λ r. vec_len r.stalls < vec_capacity r.stalls) self.old.rooms.items i }
        requires list { deque_len self.old.pending < deque_capacity self.old.pending }
        ensures rest { self.new ≡ record self.old { rooms = self.new.rooms; pending = self.new.pending; unsaved_names = self.new.unsaved_names } }
        ensures room { AtRoom i (AddsStall stall self.old.pending.items self.new.pending.items) self.old.rooms.items self.new.rooms.items }
        ensures unsaved { HoldsAt (λ r. self.new.unsaved_names ≡ (self.old.unsaved_names || not (is_ephemeral_channel (topic_name r) (channel_name stall)))) self.old.rooms.items i }
    {
        self.list_room(i);
        let room = &mut self.rooms[i];
        self.unsaved_names = also_durable(self.unsaved_names, room.name(), stall.name());
        room.add(j, stall);
    }

    /// Makes the channel of this name in the topic of this name, and the topic, where they aren't there. After Memory the hall is as before.
    pub fn make_stall(&mut self, topic: Topic, channel: Chan) -> Result<(), Memory>
        requires { IsSound self.old }
        ensures rest { self.new ≡ record self.old { rooms = self.new.rooms; pending = self.new.pending; unsaved_names = self.new.unsaved_names } }
        ensures there { OnOk result (IsSome (stall_at self.new.rooms.items topic channel)) }
        ensures names { NamesTold self.old self.new }
        ensures since { KeepsSince self.old.moment self.old.rooms.items self.new.rooms.items }
        ensures sound { IsSound self.new }
        ensures stands { (files : Files) → OnOk result (Carries self.old files self.new files (λ s t. t ≡ made_channel s topic channel)) }
        ensures stays { (files : Files) → OnErr result (Carries self.old files self.new files (λ s t. t ≡ s)) }
    {
        match self.place_of(topic) {
            Ok(i) => match self.rooms[i].place_of(channel) {
                Ok(_) => Ok(()),
                Err(j) => self.grow(i, j, topic, channel),
            },
            Err(i) => self.make_both(i, topic, channel),
        }
    }

    // Makes a channel at the place where it belongs in its topic. After Memory the hall is as before.
    fn grow(&mut self, i: usize, j: usize, topic: Topic, channel: Chan) -> Result<(), Memory>
        requires sound { IsSound self.old }
        requires there { StandsAt topic_name self.old.rooms.items topic i }
        requires place { HoldsAt (λ r. BelongsAt channel_name r.stalls.items channel j) self.old.rooms.items i }
        ensures rest { self.new ≡ record self.old { rooms = self.new.rooms; pending = self.new.pending; unsaved_names = self.new.unsaved_names } }
        ensures there { OnOk result (IsSome (stall_at self.new.rooms.items topic channel)) }
        ensures names { NamesTold self.old self.new }
        ensures since { KeepsSince self.old.moment self.old.rooms.items self.new.rooms.items }
        ensures sound { IsSound self.new }
        ensures stands { (files : Files) → OnOk result (Carries self.old files self.new files (λ s t. t ≡ made_channel s topic channel)) }
        ensures stays { (files : Files) → OnErr result (Carries self.old files self.new files (λ s t. t ≡ s)) }
    {
        self.reserve_stall(i)?;
        let stall = self.free_stall(topic, channel)?;
        self.add_stall(i, j, stall);
        Ok(())
    }

    // Makes a topic with a channel at the place where it belongs. After Memory the hall is as before.
    fn make_both(&mut self, i: usize, topic: Topic, channel: Chan) -> Result<(), Memory>
        requires sound { IsSound self.old }
        requires place { BelongsAt topic_name self.old.rooms.items topic i }
        ensures rest { self.new ≡ record self.old { rooms = self.new.rooms; pending = self.new.pending; unsaved_names = self.new.unsaved_names } }
        ensures there { OnOk result (IsSome (stall_at self.new.rooms.items topic channel)) }
        ensures names { NamesTold self.old self.new }
        ensures since { KeepsSince self.old.moment self.old.rooms.items self.new.rooms.items }
        ensures sound { IsSound self.new }
        ensures stands { (files : Files) → OnOk result (Carries self.old files self.new files (λ s t. t ≡ made_channel s topic channel)) }
        ensures stays { (files : Files) → OnErr result (Carries self.old files self.new files (λ s t. t ≡ s)) }
    {
        self.reserve_room()?;
        let room = self.room_with(topic, channel)?;
        self.add_room(i, room);
        Ok(())
    }

    // A topic of this name with a channel as both are made. Want of memory is the only error.
    fn room_with(&self, topic: Topic, channel: Chan) -> Result<Room, Memory>
        requires { IsInRange self.now.options }
        ensures room { IfOk result (IsRoomWith topic channel self.now.options) }
        ensures stands { IfOk result (λ r. (files : Files) → BeginsIdle files topic → ChannelBeginsIdle files topic channel → IsRoomOf files r (with_channel (new_topic topic) (new_channel channel))) }
    {
        let _ = topic.bytes();
        let mut stalls = Vec::with_capacity(self.alloc, 1)?;
        stalls.push_reserved(self.free_stall(topic, channel)?);
        let queue = TopicQueue::fresh(self.alloc, topic, &self.options)?;
        Ok(Room::of(queue, stalls))
    }
}

// Whether names are unsaved, also where a channel of this name was made.
fn also_durable(unsaved: bool, topic: Topic, channel: Chan) -> bool
    ensures { result ≡ (unsaved || not (is_ephemeral_channel topic channel)) }
{
    if unsaved {
        return true;
    }
    if topic.ephemeral() {
        return false;
    }
    !channel.ephemeral()
}
