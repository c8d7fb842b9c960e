ghost use Rattle.std.specs.Prelude.{◌≡◌};
ghost use Rattle.broker_history.specs.State as state;
ghost use Rattle.broker_state.specs.Places.{place_of};

/// Where a copy is. Moments are in nanoseconds.
#[derive(Clone, Copy)]
pub enum Place {
    /// It waits to be sent.
    Queued,
    /// It is in flight.
    InFlight {
        /// The number of the client's connection.
        client: u64,
        /// The moment until which the client has it.
        due: u128,
        /// The moment at which it was sent.
        sent: u64,
    },
    /// It is held back.
    Deferred {
        /// The moment until which it is.
        due: u128,
    },
    /// Its client finished it.
    Finished,
    /// It was emptied out of its channel.
    Emptied,
    /// It was dropped for want of room.
    Dropped,
}

impl Place {
    /// Whether it waits to be sent.
    pub fn is_queued(self) -> bool
        ensures { result ≡ state.is_queued (place_of self) }
    {
        match self {
            Place::Queued => true,
            _ => false,
        }
    }

    /// Whether it is in flight.
    pub fn is_in_flight(self) -> bool
        ensures { result ≡ state.is_in_flight (place_of self) }
    {
        match self {
            Place::InFlight { .. } => true,
            _ => false,
        }
    }

    /// Whether it is in flight with this client.
    pub fn is_with(self, number: u64) -> bool
        ensures { result ≡ state.is_with number (place_of self) }
    {
        match self {
            Place::InFlight { client, .. } => client == number,
            _ => false,
        }
    }

    /// Whether it is deferred.
    pub fn is_deferred(self) -> bool
        ensures { result ≡ state.is_deferred (place_of self) }
    {
        match self {
            Place::Deferred { .. } => true,
            _ => false,
        }
    }

    /// Whether the copy isn't done with.
    pub fn is_live(self) -> bool
        ensures { result ≡ state.is_live (place_of self) }
    {
        match self {
            Place::Queued | Place::InFlight { .. } | Place::Deferred { .. } => true,
            Place::Finished | Place::Emptied | Place::Dropped => false,
        }
    }

    /// Whether it is in flight or deferred until a moment that has come.
    pub fn is_due(self, at: u64) -> bool
        ensures { result ≡ state.is_due at (place_of self) }
    {
        match self {
            Place::InFlight { due, .. } => due <= u128::from(at),
            Place::Deferred { due } => due <= u128::from(at),
            _ => false,
        }
    }
}
