ghost use Rattle.std.specs.Prelude.{◌≡◌, ◌≤◌, ◌^◌, true, false, nat_eq, None, OnErr, OnOk, Some};
ghost use Rattle.std.specs.List.{list_any};
ghost use Rattle.std.specs.Prelude.{IsSome};
ghost use Rattle.channel_copies.specs.Clients.{client_of};
ghost use Rattle.floor_topics.specs.Seating.{AreAscending, IsNumberPlace, SameSeats, Seats};

use floor_rooms::Stall;
use nsq_base::Memory;

/// The client of this number is one of the channel's from now on, and asks for no copy yet. After Memory, the only error, it has the clients that it had.
/// Requires that the client isn't one of them, and a timeout, in nanoseconds, that is at most 2^62.
pub fn seat_in(stall: &mut Stall, number: u64, timeout: u64) -> Result<(), Memory>
    requires new { client_of stall.old.channel.clients number ≡ None }
    requires absent { list_any (nat_eq number) stall.old.members.items ≡ false }
    requires order { AreAscending stall.old.members.items }
    requires timeout { timeout ≤ 2 ^ 62 }
    ensures seats { OnOk result (Seats number (Some (record { timeout = timeout; ready = 0 })) stall.old stall.new) }
    ensures refused { OnErr result (SameSeats stall.old stall.new) }
{
    stall.members.reserve(1)?;
    stall.channel.subscribe(number, timeout)?;
    if let Err(p) = number_place(&stall.members, number) {
        let Ok(()) = stall.members.insert(p, number) else {
            unreachable!()
        };
    }
    Ok(())
}

// The client of this number isn't one of the channel's any more. Its copies stay in flight until they are due.
pub(crate) fn leave_in(stall: &mut Stall, number: u64)
    requires there { IsSome (client_of stall.old.channel.clients number) }
    requires listed { list_any (nat_eq number) stall.old.members.items ≡ true }
    requires order { AreAscending stall.old.members.items }
    ensures { Seats number None stall.old stall.new }
{
    stall.channel.leave(number);
    if let Ok(p) = number_place(&stall.members, number) {
        let _ = stall.members.remove(p);
    }
}

// Where a number stands among ascending ones, or else where it belongs.
fn number_place(numbers: &[u64], number: u64) -> Result<usize, usize>
    requires { AreAscending numbers.now }
    ensures { IsNumberPlace numbers.now number result }
{
    numbers.binary_search(&number)
}
