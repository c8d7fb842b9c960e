ghost use Rattle.std.specs.Prelude.{◌≡◌, ◌≤◌, ◌<◌, false, None, length, vec_capacity, vec_len};
ghost use Rattle.std.specs.List.{insert};
ghost use Rattle.nsq_base.specs.Names.{IsAscendingBy};
ghost use Rattle.nsq_base.specs.Places.{BelongsAt, IsPlaceOf};
ghost use Rattle.floor_rooms.specs.Places.{IsPlace};
ghost use Rattle.floor_rooms.specs.Rooms.{channel_name, put_stall, topic_name};
ghost use Rattle.floor_rooms.specs.Sound.{rests};

use crate::Stall;
use nsq_base::{Chan, Names, Topic};
use topic_core::TopicQueue;

/// A topic with its channels.
#[derive(Drop)]
pub struct Room {
    /// Its messages.
    pub queue: TopicQueue,
    /// The moment since which its queue on disk may be unsaved; None where it is saved.
    pub since: Option<u64>,
    /// Whether it stands among the topics that may have something to take or to pay.
    pub listed: bool,
    /// Its name with its channels' names, as an entry of a message that is taken lists them; None where its channels changed since.
    pub names: Option<Names>,
    /// Its channels, in byte order of their names.
    pub stalls: Vec<Stall>,
}

impl Room {
    // A topic with these messages and channels as it is made.
    pub(crate) fn of(queue: TopicQueue, stalls: Vec<Stall>) -> Room
        ensures { result ≡ record { queue = queue; since = None; listed = false; names = None; stalls = stalls } }
    {
        Room {
            queue,
            since: None,
            listed: false,
            names: None,
            stalls,
        }
    }

    /// The topic's name.
    pub fn name(&self) -> Topic
        ensures { result ≡ topic_name self.now }
    {
        self.queue.name()
    }

    /// Where the channel of this name stands, or else where it belongs. Requires that its channels are in byte order.
    pub fn place_of(&self, channel: Chan) -> Result<usize, usize>
        requires { IsAscendingBy channel_name self.now.stalls.items }
        ensures { IsPlaceOf channel_name self.now.stalls.items channel result }
    {
        self.stalls
            .binary_search_by_key(&channel, |stall| stall.name())
    }

    /// Where the channel of this name stands; None exactly where there is none. Requires that its channels are in byte order.
    pub fn stall_place(&self, channel: Chan) -> Option<usize>
        requires { IsAscendingBy channel_name self.now.stalls.items }
        ensures { IsPlace channel_name self.now.stalls.items channel result }
    {
        match self.place_of(channel) {
            Ok(j) => Some(j),
            Err(_) => None,
        }
    }

    // Puts a channel in at the place where it belongs. Requires that there is room for one more.
    pub(crate) fn add(&mut self, j: usize, stall: Stall)
        requires place { BelongsAt channel_name self.old.stalls.items (channel_name stall) j }
        requires space { vec_len self.old.stalls < vec_capacity self.old.stalls }
        ensures rest { self.new ≡ record self.old { names = None; stalls = self.new.stalls } }
        ensures stalls { self.new.stalls.items ≡ put_stall self.old.stalls.items stall }
    {
        self.names = None;
        put_in(&mut self.stalls, j, stall);
    }

    /// Whether it has nothing to take and nothing to pay: it took no message, and it is paused, has no channel or has none waiting.
    pub fn rests(&self) -> bool
        ensures { result ≡ rests self.now }
    {
        if self.queue.head().is_some() {
            return false;
        }
        if self.queue.is_paused() {
            return true;
        }
        if self.stalls.is_empty() {
            return true;
        }
        let depths = self.queue.depths();
        if depths.ring != 0 {
            return false;
        }
        depths.disk == 0
    }
}

// Puts an item in at a place. It knows nothing of its items, so that its proof opens none. Requires that there is room for one more.
pub(crate) fn put_in<T: Drop>(items: &mut Vec<T>, i: usize, item: T)
    requires place { i ≤ length items.old.items }
    requires space { vec_len items.old < vec_capacity items.old }
    ensures { items.new.items ≡ insert items.old.items i item }
{
    let Ok(()) = items.insert(i, item) else {
        unreachable!()
    };
}
