ghost use Rattle.std.specs.Prelude.{◌≡◌, ◌<◌, ◌≤◌, true, HoldsAt, length, min};
ghost use Rattle.std.specs.VecDeque.{deque_capacity, deque_len};
ghost use Rattle.nsq_outside.specs.Files.{Files};
ghost use Rattle.broker_history.specs.State.{State};
ghost use Rattle.floor_rooms.specs.Changes.{AtRoom, AtStall, Touches, listed_with, marked};
ghost use Rattle.floor_rooms.specs.Rooms.{topic_name};
ghost use Rattle.floor_rooms.specs.Sound.{IsQuietUntil, IsSound};
ghost use Rattle.floor_rooms.specs.Standing.{HoldsFor};
ghost use Rattle.floor_rooms.specs.declared.hall.Hall.{Hall as Holding};

use crate::Hall;

/// The facts that spare a turn its walks.
impl Hall {
    /// The topic's queue may be unsaved from now on, where it was saved: to be called before a call that may change it.
    pub fn mark_room(&mut self, i: usize)
        requires sound { IsSound self.old }
        requires room { i < length self.old.rooms.items }
        ensures rest { self.new ≡ record self.old { rooms = self.new.rooms; unsaved_from = min self.old.unsaved_from self.old.moment } }
        ensures room { AtRoom i (λ a b. b ≡ record a { since = marked a.since self.old.moment }) self.old.rooms.items self.new.rooms.items }
        ensures sound { IsSound self.new }
        ensures stands { (files : Files) (s : State) → HoldsFor self.old files s → HoldsFor self.new files s }
    {
        let moment = self.moment;
        self.unsaved_from = self.unsaved_from.min(moment);
        let room = &mut self.rooms[i];
        room.since = marked(room.since, moment);
    }

    /// The queue of a channel may be unsaved from now on, where it was saved: to be called before a call that may change it.
    pub fn mark_stall(&mut self, i: usize, j: usize)
        requires sound { IsSound self.old }
        requires room { i < length self.old.rooms.items }
        requires stall { HoldsAt (λ r. j < length r.stalls.items) self.old.rooms.items i }
        ensures rest { self.new ≡ record self.old { rooms = self.new.rooms; unsaved_from = min self.old.unsaved_from self.old.moment } }
        ensures stall { AtStall i j (λ a b. b ≡ record a { since = marked a.since self.old.moment }) self.old.rooms.items self.new.rooms.items }
        ensures sound { IsSound self.new }
        ensures stands { (files : Files) (s : State) → HoldsFor self.old files s → HoldsFor self.new files s }
    {
        let moment = self.moment;
        self.unsaved_from = self.unsaved_from.min(moment);
        let stall = &mut self.rooms[i].stalls[j];
        stall.since = marked(stall.since, moment);
    }

    /// No copy of the channel is due before the moment before which none is due at all: to be called after the last call that changed the
    /// channel. The hall is sound then, if it was before those calls.
    pub fn settle_stall(&mut self, i: usize, j: usize)
        requires room { i < length self.old.rooms.items }
        requires stall { HoldsAt (λ r. j < length r.stalls.items) self.old.rooms.items i }
        ensures rest { self.new ≡ record self.old { quiet_until = self.new.quiet_until } }
        ensures earlier { self.new.quiet_until ≤ self.old.quiet_until }
        ensures quiet { HoldsAt (λ r. HoldsAt (λ s. IsQuietUntil self.new.quiet_until s.channel) r.stalls.items j) self.new.rooms.items i }
        ensures sound { (before : Holding) → Touches i j before self.old → IsSound self.new }
        ensures stands { (files : Files) (s : State) → HoldsFor self.old files s → HoldsFor self.new files s }
    {
        let due = self.rooms[i].stalls[j].channel.next_due();
        if let Some(moment) = due {
            self.quiet_until = self.quiet_until.min(moment);
        }
    }

    /// The topic stands among those that may have something to take or to pay, once. Takes no memory. Requires that there is room for one more
    /// of them, also where it stands there already.
    pub fn list_room(&mut self, i: usize)
        requires room { i < length self.old.rooms.items }
        requires space { deque_len self.old.pending < deque_capacity self.old.pending }
        ensures rest { self.new ≡ record self.old { rooms = self.new.rooms; pending = self.new.pending } }
        ensures room { AtRoom i (λ a b. (b ≡ record a { listed = true }) × (self.new.pending.items ≡ listed_with self.old.pending.items a.listed (topic_name a))) self.old.rooms.items self.new.rooms.items }
        ensures sound { IsSound self.old → IsSound self.new }
        ensures stands { (files : Files) (s : State) → HoldsFor self.old files s → HoldsFor self.new files s }
    {
        let room = &mut self.rooms[i];
        if room.listed {
            return;
        }
        room.listed = true;
        let name = room.name();
        self.pending.push_back_reserved(name);
    }
}

// Since when a queue may be unsaved, where it may be from this moment on.
fn marked(since: Option<u64>, at: u64) -> Option<u64>
    ensures { result ≡ marked since at }
{
    match since {
        Some(moment) => Some(moment),
        None => Some(at),
    }
}
