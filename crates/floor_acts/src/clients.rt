ghost use Rattle.std.specs.Prelude.{◌≡◌, ◌<◌, None, OnErr, OnOk, Some, false, true, length, HoldsAt, List, ℕ};
ghost use Rattle.nsq_outside.specs.Files.{Files};
ghost use Rattle.v2_frame.specs.declared.command.Command.{Command};
ghost use Rattle.v2_frame.specs.declared.command.Command.TheVariants.{Cls, Identify, Nop};
ghost use Rattle.negotiation.specs.Said.{said, IsTimely};
ghost use Rattle.broker_history.specs.State.{Client as StateClient, Closing, is_subscribed, put_client};
ghost use Rattle.broker_history.specs.Changes.{at_client};
ghost use Rattle.broker_history.specs.Identify.{identity_of};
ghost use Rattle.broker_history.specs.Step.{begun, known_as, new_client, spoke};
ghost use Rattle.floor_rooms.specs.Seen.{held_channel};
ghost use Rattle.floor_rooms.specs.Rooms.{client_in};
ghost use Rattle.floor_rooms.specs.Sound.{IsSound};
ghost use Rattle.floor_rooms.specs.Standing.{Carries};
ghost use Rattle.floor_acts.specs.Acts.{ChangesAt, DoesAt};

use floor_rooms::{Client, Hall, place_of};
use negotiation::Identity;
use nsq_base::Memory;

/// The Stop was noted.
pub fn stop(hall: &mut Hall)
    requires { IsSound hall.old }
    ensures rest { hall.new ≡ record hall.old { stopped = true } }
    ensures sound { IsSound hall.new }
    ensures told { (files : Files) → Carries hall.old files hall.new files (λ s t. t ≡ record s { stopped = true }) }
{
    hall.stopped = true;
}

/// A client begins. After Memory the hall is as before. Requires that no client has its number.
pub fn begin(hall: &mut Hall, number: u64) -> Result<(), Memory>
    requires sound { IsSound hall.old }
    requires new { client_in hall.old.clients.items number ≡ None }
    ensures rest { hall.new ≡ record hall.old { clients = hall.new.clients } }
    ensures clients { OnOk result (hall.new.clients.items ≡ put_client hall.old.clients.items (new_client hall.old.options hall.old.moment number)) }
    ensures same { OnErr result (hall.new.clients.items ≡ hall.old.clients.items) }
    ensures sound { IsSound hall.new }
    ensures told { (files : Files) → OnOk result (Carries hall.old files hall.new files (λ s t. t ≡ begun s hall.old.moment number)) }
    ensures stays { (files : Files) → OnErr result (Carries hall.old files hall.new files (λ s t. t ≡ s)) }
{
    hall.clients.reserve(1)?;
    let Err(k) = place_of(&hall.clients, number) else {
        unreachable!()
    };
    let client = Client::new(hall.alloc, &hall.options, number, hall.moment);
    let Ok(()) = hall.clients.insert(k, client) else {
        unreachable!()
    };
    Ok(())
}

/// A heartbeat is sent to the client at a place, from which the next one counts.
pub fn beat(hall: &mut Hall, k: usize)
    requires sound { IsSound hall.old }
    requires client { k < length hall.old.clients.items }
    ensures rest { hall.new ≡ record hall.old { clients = hall.new.clients } }
    ensures clients { ChangesAt k (λ c. record c { beat_from = hall.old.moment }) hall.old.clients.items hall.new.clients.items }
    ensures sound { IsSound hall.new }
    ensures told { (files : Files) → HoldsAt (λ c. Carries hall.old files hall.new files (λ s t. t ≡ at_client (λ (d : StateClient). record d { beat_from = hall.old.moment }) s c.number)) hall.old.clients.items k }
{
    let at = hall.moment;
    hall.clients[k].beat(at);
}

/// The client at a place gave a command that is refused, or that a disk fault keeps off, or a NOP: it spoke at the hall's moment, and nothing else.
pub fn speak(hall: &mut Hall, k: usize)
    requires sound { IsSound hall.old }
    requires client { k < length hall.old.clients.items }
    ensures rest { hall.new ≡ record hall.old { clients = hall.new.clients } }
    ensures clients { ChangesAt k (spoke hall.old.moment) hall.old.clients.items hall.new.clients.items }
    ensures sound { IsSound hall.new }
    ensures told { (files : Files) (command : Command) → DoesAt k command true hall.old files hall.new files }
    ensures nop { (files : Files) → DoesAt k Nop false hall.old files hall.new files }
{
    let at = hall.moment;
    hall.clients[k].speak(at);
}

/// The client at a place said this of itself with an IDENTIFY that is accepted. Requires that the client has no channel, and times that the options
/// allow.
pub fn identify(hall: &mut Hall, k: usize, identity: Identity)
    requires sound { IsSound hall.old }
    requires client { k < length hall.old.clients.items }
    requires none { HoldsAt (λ c. held_channel c.phase c.route ≡ None) hall.old.clients.items k }
    requires timely { IsTimely hall.old.options identity }
    ensures rest { hall.new ≡ record hall.old { clients = hall.new.clients } }
    ensures clients { ChangesAt k (λ c. known_as hall.old.moment (said identity) (spoke hall.old.moment c)) hall.old.clients.items hall.new.clients.items }
    ensures sound { IsSound hall.new }
    ensures told { (files : Files) (body : List ℕ) → identity_of hall.old.options body ≡ Some (said identity) → DoesAt k (Identify body) false hall.old files hall.new files }
{
    let at = hall.moment;
    speak(hall, k);
    let Identity {
        client_id,
        hostname,
        user_agent,
        negotiates: _,
        heartbeat,
        timeout,
    } = identity;
    hall.clients[k].introduce(at, heartbeat, timeout, client_id, hostname, user_agent);
}

/// The client at a place closes: it gets no more messages, and its channel keeps it until it goes. Requires that it gets some.
pub fn close(hall: &mut Hall, k: usize)
    requires sound { IsSound hall.old }
    requires client { k < length hall.old.clients.items }
    requires subscribed { HoldsAt (λ c. is_subscribed c.phase ≡ true) hall.old.clients.items k }
    ensures rest { hall.new ≡ record hall.old { clients = hall.new.clients } }
    ensures clients { ChangesAt k (λ c. record (spoke hall.old.moment c) { phase = Closing }) hall.old.clients.items hall.new.clients.items }
    ensures sound { IsSound hall.new }
    ensures told { (files : Files) → DoesAt k Cls false hall.old files hall.new files }
{
    speak(hall, k);
    hall.clients[k].close();
}
