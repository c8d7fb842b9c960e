ghost use Rattle.std.specs.Prelude.{◌≡◌, ◌^◌, ◌≤◌, [], Some, None, IsSome, OnOk, OnErr};
ghost use Rattle.channel_copies.specs.Clients.{PutsClient, client_of, now_ready};

use nsq_base::Memory;
use std::alloc::Global;
use std::collections::HashMap;
use std::marker::Model;

/// What a subscribed client asked for.
#[derive(Clone, Copy)]
pub struct Client {
    /// How long it has for a message, in nanoseconds: at most 2^62.
    pub timeout: u64,
    /// How many copies it may have in flight.
    pub ready: u32,
}

/// The clients that are subscribed to a channel, by the numbers of their connections.
#[derive(Drop)]
pub struct Clients {
    clients: HashMap<u64, Client>,
}

impl Model for Clients {
    ghost use Rattle.std.specs.Prelude.{ℕ, List};
    ghost use Rattle.channel_copies.specs.declared.clients.Client.{Client};
    ghost use Rattle.channel_copies.specs.Clients.{AreTimed};

    ghost Value = { List (ℕ × Client) };

    ghost view = { λ c. c.clients.entries };

    ghost invariant = { λ c. AreTimed c.clients.entries };
}

impl Clients {
    /// No client. Takes no memory.
    pub fn new(alloc: Global) -> Clients
        ensures { result ≡ [] }
    {
        Clients {
            clients: HashMap::new(alloc),
        }
    }

    /// Adds a client, which may have no copy in flight yet. After Memory all is as it was.
    pub fn subscribe(&mut self, client: u64, timeout: u64) -> Result<(), Memory>
        requires timeout { timeout ≤ 2 ^ 62 }
        ensures put { OnOk result (PutsClient client (Some (record { timeout = timeout; ready = 0 })) self.old self.new) }
        ensures refused { OnErr result (self.new ≡ self.old) }
    {
        self.clients.insert(client, Client { timeout, ready: 0 })?;
        Ok(())
    }

    /// Takes a client out.
    pub fn leave(&mut self, client: u64)
        ensures { PutsClient client None self.old self.new }
    {
        let _ = self.clients.remove(&client);
    }

    /// Sets how many copies a client may have in flight.
    pub fn ready(&mut self, client: u64, count: u32)
        requires { IsSome (client_of self.old client) }
        ensures { PutsClient client (now_ready count (client_of self.old client)) self.old self.new }
    {
        let timeout = self.get(client).timeout;
        let _put: Result<_, _> = self.clients.insert(
            client,
            Client {
                timeout,
                ready: count,
            },
        );
    }

    /// What a client asked for.
    pub fn get(&self, client: u64) -> Client
        requires { IsSome (client_of self.now client) }
        ensures value { client_of self.now client ≡ Some result }
        ensures timeout { result.timeout ≤ 2 ^ 62 }
    {
        *self.clients.get(&client).unwrap()
    }
}
