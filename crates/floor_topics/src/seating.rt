ghost use Rattle.std.specs.Prelude.{◌≡◌, ◌<◌, HoldsAt, length};
ghost use Rattle.std.specs.VecDeque.{deque_capacity, deque_len};
ghost use Rattle.nsq_outside.specs.Files.{Files};
ghost use Rattle.broker_history.specs.State.{without_client};
ghost use Rattle.floor_rooms.specs.Changes.{KeepsSince};
ghost use Rattle.floor_rooms.specs.Kept.{NamesTold};
ghost use Rattle.floor_rooms.specs.Sound.{IsSound};
ghost use Rattle.floor_rooms.specs.Standing.{Carries};
ghost use Rattle.floor_topics.specs.Seating.{IsSeatOf};

use crate::items::drop_at;
use crate::seats::leave_in;
use floor_rooms::Hall;

/// The client at a place goes, and isn't one of its channel's clients any more, where it has a channel: its copies in flight stay there until
/// they are due, and the topic stands among those that may have something to take or to pay. Takes no memory. Requires that there is room for
/// one more of those.
pub fn part(hall: &mut Hall, k: usize)
    requires sound { IsSound hall.old }
    requires client { k < length hall.old.clients.items }
    requires space { deque_len hall.old.pending < deque_capacity hall.old.pending }
    ensures rest { hall.new ≡ record hall.old { rooms = hall.new.rooms; clients = hall.new.clients; pending = hall.new.pending } }
    ensures clients { HoldsAt (λ c. hall.new.clients.items ≡ without_client hall.old.clients.items c.number) hall.old.clients.items k }
    ensures sound { IsSound hall.new }
    ensures stands { (files : Files) → HoldsAt (λ c. Carries hall.old files hall.new files (λ u t. t ≡ record u { clients = without_client u.clients c.number })) hall.old.clients.items k }
    ensures names { NamesTold hall.old hall.new }
    ensures since { KeepsSince hall.old.moment hall.old.rooms.items hall.new.rooms.items }
{
    match seat_of(hall, k) {
        None => {
            drop_at(&mut hall.clients, k);
        }
        Some(places) => {
            let number = hall.clients[k].number();
            leave_in(&mut hall.rooms[places.0].stalls[places.1], number);
            drop_at(&mut hall.clients, k);
            hall.list_room(places.0);
        }
    }
}

// Where the channel of the client at a place stands: None where it has none.
fn seat_of(hall: &Hall, k: usize) -> Option<(usize, usize)>
    requires sound { IsSound hall.now }
    requires client { k < length hall.now.clients.items }
    ensures { HoldsAt (λ c. IsSeatOf hall.now.rooms.items c result) hall.now.clients.items k }
{
    let Some(names) = hall.clients[k].channel() else {
        return None;
    };
    let Some(i) = hall.room_place(names.0) else {
        return None;
    };
    let Some(j) = hall.stall_place(i, names.1) else {
        return None;
    };
    Some((i, j))
}
