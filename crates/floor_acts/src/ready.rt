ghost use Rattle.std.specs.Prelude.{◌≡◌, ◌<◌, HoldsAt, IsSome, None, false, length, ℤ};
ghost use Rattle.nsq_outside.specs.Files.{Files};
ghost use Rattle.v2_frame.specs.declared.command.Command.TheVariants.{Rdy};
ghost use Rattle.broker_history.specs.State.{with_client};
ghost use Rattle.channel_copies.specs.Clients.{client_of};
ghost use Rattle.broker_history.specs.Reply.{count_of};
ghost use Rattle.broker_history.specs.Step.{ready_for, spoke};
ghost use Rattle.floor_rooms.specs.Changes.{AtStall, KeepsRooms};
ghost use Rattle.floor_rooms.specs.Sound.{IsSound};
ghost use Rattle.floor_rooms.specs.Standing.{Carries};
ghost use Rattle.floor_acts.specs.Acts.{ChangesAt, DoesAt};
ghost use Rattle.floor_acts.specs.Flights.{ReadiesStall};
ghost use Rattle.floor_acts.specs.Spots.{GetsOf, IsSpotFor};

use crate::clients::speak;
use crate::spots::{Spot, spot_for};
use floor_rooms::Hall;

/// The client at a place asks for so many messages in flight, which one that is closing does in vain.
pub fn set_ready(hall: &mut Hall, k: usize, count: u32)
    requires sound { IsSound hall.old }
    requires client { k < length hall.old.clients.items }
    ensures rest { hall.new ≡ record hall.old { clients = hall.new.clients; rooms = hall.new.rooms } }
    ensures clients { ChangesAt k (λ c. record (spoke hall.old.moment c) { ready = ready_for c.phase count c.ready }) hall.old.clients.items hall.new.clients.items }
    ensures sound { IsSound hall.new }
    ensures told { (files : Files) (n : ℤ) → count_of n ≡ count → DoesAt k (Rdy n) false hall.old files hall.new files }
    ensures keeps { KeepsRooms hall.old.moment hall.old.rooms.items hall.new.rooms.items }
{
    speak(hall, k);
    match spot_for(hall, k) {
        Some(spot) => ready_both(hall, k, spot, count),
        None => ready_alone(hall, k, count),
    }
}

// The same of a client that gets messages, in its channel too.
fn ready_both(hall: &mut Hall, k: usize, spot: Spot, count: u32)
    requires sound { IsSound hall.old }
    requires client { k < length hall.old.clients.items }
    requires gets { HoldsAt (λ c. GetsOf hall.old.rooms.items spot c) hall.old.clients.items k }
    ensures rest { hall.new ≡ record hall.old { clients = hall.new.clients; rooms = hall.new.rooms } }
    ensures clients { ChangesAt k (λ c. record c { ready = ready_for c.phase count c.ready }) hall.old.clients.items hall.new.clients.items }
    ensures sound { IsSound hall.new }
    ensures told { (files : Files) → HoldsAt (λ c. Carries hall.old files hall.new files (λ s t. t ≡ with_client s (record c { ready = ready_for c.phase count c.ready }))) hall.old.clients.items k }
    ensures keeps { KeepsRooms hall.old.moment hall.old.rooms.items hall.new.rooms.items }
{
    let number = hall.clients[k].number();
    ready_at(hall, spot, number, count);
    hall.clients[k].set_ready(count);
}

// The same of a client that gets none.
fn ready_alone(hall: &mut Hall, k: usize, count: u32)
    requires sound { IsSound hall.old }
    requires client { k < length hall.old.clients.items }
    requires none { HoldsAt (λ c. IsSpotFor hall.old.rooms.items c None) hall.old.clients.items k }
    ensures rest { hall.new ≡ record hall.old { clients = hall.new.clients } }
    ensures clients { ChangesAt k (λ c. record c { ready = ready_for c.phase count c.ready }) hall.old.clients.items hall.new.clients.items }
    ensures sound { IsSound hall.new }
    ensures told { (files : Files) → HoldsAt (λ c. Carries hall.old files hall.new files (λ s t. t ≡ with_client s (record c { ready = ready_for c.phase count c.ready }))) hall.old.clients.items k }
{
    hall.clients[k].set_ready(count);
}

// The channel's part.
fn ready_at(hall: &mut Hall, spot: Spot, number: u64, count: u32)
    requires room { spot.room < length hall.old.rooms.items }
    requires stall { HoldsAt (λ r. spot.stall < length r.stalls.items) hall.old.rooms.items spot.room }
    requires client { HoldsAt (λ r. HoldsAt (λ s. IsSome (client_of s.channel.clients number)) r.stalls.items spot.stall) hall.old.rooms.items spot.room }
    ensures rest { hall.new ≡ record hall.old { rooms = hall.new.rooms } }
    ensures stall { AtStall spot.room spot.stall (ReadiesStall number count) hall.old.rooms.items hall.new.rooms.items }
{
    hall.rooms[spot.room].stalls[spot.stall]
        .channel
        .ready(number, count);
}
