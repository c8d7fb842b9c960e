ghost use Rattle.std.specs.Prelude.{◌<◌, HoldsAt, length};
ghost use Rattle.floor_rooms.specs.Seen.{held_channel};
ghost use Rattle.floor_rooms.specs.Sound.{IsSound};
ghost use Rattle.floor_acts.specs.Spots.{IsSpotFor, IsSpotOf};

use floor_rooms::Hall;

/// Where a channel stands in a hall.
#[derive(Clone, Copy)]
pub struct Spot {
    /// Its topic's place.
    pub room: usize,
    /// Its own place in its topic.
    pub stall: usize,
}

// Where the channel of the client at a place stands; None exactly where the client has none.
pub(crate) fn spot_of(hall: &Hall, k: usize) -> Option<Spot>
    requires sound { IsSound hall.now }
    requires client { k < length hall.now.clients.items }
    ensures { HoldsAt (λ c. IsSpotOf hall.now.rooms.items (held_channel c.phase c.route) result) hall.now.clients.items k }
{
    let Some(names) = hall.clients[k].channel() else {
        return None;
    };
    let Some(i) = hall.room_place(names.0) else {
        return None;
    };
    let Some(j) = hall.stall_place(i, names.1) else {
        return None;
    };
    Some(Spot { room: i, stall: j })
}

// Where the channel stands whose messages the client at a place gets; None where it gets none.
pub(crate) fn spot_for(hall: &Hall, k: usize) -> Option<Spot>
    requires sound { IsSound hall.now }
    requires client { k < length hall.now.clients.items }
    ensures { HoldsAt (λ c. IsSpotFor hall.now.rooms.items c result) hall.now.clients.items k }
{
    if hall.clients[k].is_subscribed() {
        return spot_of(hall, k);
    }
    None
}
