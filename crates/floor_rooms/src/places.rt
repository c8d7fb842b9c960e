ghost use Rattle.std.specs.Prelude.{◌<◌, HoldsAt, length};
ghost use Rattle.nsq_base.specs.Places.{IsPlaceOf};
ghost use Rattle.floor_rooms.specs.Places.{IsClientPlace, IsPlace};
ghost use Rattle.floor_rooms.specs.Rooms.{channel_name, topic_name};
ghost use Rattle.floor_rooms.specs.Sound.{IsSound};

use crate::{Hall, place_of};
use nsq_base::{Chan, Topic};

/// Where things stand.
impl Hall {
    /// Where the client of this number stands; None exactly where there is none.
    pub fn client_place(&self, number: u64) -> Option<usize>
        requires { IsSound self.now }
        ensures { IsClientPlace self.now.clients.items number result }
    {
        match place_of(&self.clients, number) {
            Ok(k) => Some(k),
            Err(_) => None,
        }
    }

    /// Where the topic of this name stands, or else where it belongs.
    pub fn place_of(&self, topic: Topic) -> Result<usize, usize>
        requires { IsSound self.now }
        ensures { IsPlaceOf topic_name self.now.rooms.items topic result }
    {
        self.rooms.binary_search_by_key(&topic, |room| room.name())
    }

    /// Where the topic of this name stands; None exactly where there is none.
    pub fn room_place(&self, topic: Topic) -> Option<usize>
        requires { IsSound self.now }
        ensures { IsPlace topic_name self.now.rooms.items topic result }
    {
        match self.place_of(topic) {
            Ok(i) => Some(i),
            Err(_) => None,
        }
    }

    /// Where the channel of this name stands in the topic at a place; None exactly where there is none.
    pub fn stall_place(&self, i: usize, channel: Chan) -> Option<usize>
        requires sound { IsSound self.now }
        requires room { i < length self.now.rooms.items }
        ensures { HoldsAt (λ r. IsPlace channel_name r.stalls.items channel result) self.now.rooms.items i }
    {
        self.rooms[i].stall_place(channel)
    }
}
