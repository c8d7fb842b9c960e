ghost use Rattle.std.specs.Prelude.{◌≡◌, ◌<◌, ◌≤◌, ◌^◌, length};
ghost use Rattle.nsq_outside.specs.Files.{Files};
ghost use Rattle.broker_history.specs.State.{State};
ghost use Rattle.floor_rooms.specs.Sound.{IsSound};
ghost use Rattle.floor_rooms.specs.Standing.{HoldsFor};
ghost use Rattle.floor_moves.specs.Due.{has_come, sooner, DueFound, RoomsSearched, StallsSearched};

use floor_rooms::{Hall, Room, Stall};

/// Where a channel stands: the place of its topic in the hall, and its own in the topic.
#[derive(Clone, Copy)]
pub struct Place {
    /// The topic's place.
    pub room: usize,
    /// The channel's place.
    pub stall: usize,
}

/// A channel of which a copy is due at the hall's moment, whichever; where there is none, the hall knows until when that stays so. The search begins
/// at the topic at this place, for speed alone.
pub fn find_due(hall: &mut Hall, from: usize) -> Option<Place>
    requires { IsSound hall.old }
    ensures found { DueFound hall.old.moment hall.new.quiet_until hall.new.rooms.items result }
    ensures rest { hall.new ≡ record hall.old { quiet_until = hall.new.quiet_until } }
    ensures sound { IsSound hall.new }
    ensures stands { (files : Files) (s : State) → HoldsFor hall.old files s → HoldsFor hall.new files s }
{
    let now = hall.moment;
    let count = hall.rooms.len();
    let from = from.min(count);
    let behind = match search_rooms(&hall.rooms, from, count, now) {
        Ok(place) => return Some(place),
        Err(soonest) => soonest,
    };
    let before = match search_rooms(&hall.rooms, 0, from, now) {
        Ok(place) => return Some(place),
        Err(soonest) => soonest,
    };
    hall.quiet_until = behind.min(before);
    None
}

// Looks through the channels of the topics from a place up to another.
fn search_rooms(rooms: &[Room], low: usize, high: usize, now: u64) -> Result<Place, u64>
    requires now { now ≤ 2 ^ 62 }
    requires low { low ≤ high }
    requires high { high ≤ length rooms.now }
    ensures { RoomsSearched now rooms.now low high result }
{
    let mut soonest = u64::MAX;
    for i in low..high {
        let due = match search_stalls(&rooms[i].stalls, now) {
            Ok(stall) => return Ok(Place { room: i, stall }),
            Err(due) => due,
        };
        soonest = soonest.min(due);
    }
    Err(soonest)
}

// Looks through channels: a place where a copy is due, or else the moment before which none is.
fn search_stalls(stalls: &[Stall], now: u64) -> Result<usize, u64>
    requires { now ≤ 2 ^ 62 }
    ensures { StallsSearched now stalls.now result }
{
    let mut soonest = u64::MAX;
    for (j, stall) in stalls.iter().enumerate() {
        let due = stall.channel.next_due();
        if has_come(due, now) {
            return Ok(j);
        }
        soonest = sooner(soonest, due);
    }
    Err(soonest)
}

// Whether a moment has come.
fn has_come(due: Option<u64>, now: u64) -> bool
    ensures { result ≡ has_come due now }
{
    match due {
        None => false,
        Some(moment) => moment <= now,
    }
}

// The sooner of a moment and another one, where there is one.
fn sooner(soonest: u64, due: Option<u64>) -> u64
    ensures { result ≡ sooner soonest due }
{
    match due {
        None => soonest,
        Some(moment) => soonest.min(moment),
    }
}
