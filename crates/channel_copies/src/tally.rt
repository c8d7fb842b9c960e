ghost use Rattle.std.specs.Prelude.{◌≡◌, ◌+◌, ◌^◌, ◌<◌, ◌≤◌, ℕ, ◌==◌};
ghost use Rattle.std.specs.HashMap.{spare};
ghost use Rattle.broker_history.specs.Channels.{one};
ghost use Rattle.channel_copies.specs.Tally.{tally};

use std::collections::HashMap;

// One more for this client. It takes no memory where there is room.
pub(crate) fn count_up(held: &mut HashMap<u64, usize>, client: u64)
    requires room { 1 ≤ spare held.old }
    requires few { tally held.old client + 1 < 2 ^ 64 }
    ensures counts { (k : ℕ) → tally held.new k ≡ tally held.old k + one (client == k) }
    ensures spare { spare held.old ≤ spare held.new + 1 }
{
    let n = held.get(&client).copied().unwrap_or(0);
    let _put: Result<_, _> = held.insert(client, n + 1);
}

// One less for this client. It takes no memory, and keeps no place for a client that has none.
pub(crate) fn count_down(held: &mut HashMap<u64, usize>, client: u64)
    requires some { 1 ≤ tally held.old client }
    ensures counts { (k : ℕ) → tally held.old k ≡ tally held.new k + one (client == k) }
{
    let n = held.get(&client).copied().unwrap_or(0);
    if n == 1 {
        let _ = held.remove(&client);
    } else {
        let _put: Result<_, _> = held.insert(client, n - 1);
    }
}
