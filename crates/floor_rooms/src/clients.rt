ghost use Rattle.floor_rooms.specs.ClientPlaces.{AreInOrder, IsPlaceOf};

use crate::Client;

/// Where the client of this number stands among clients in the order of their numbers, or else where it belongs.
pub fn place_of(clients: &[Client], number: u64) -> Result<usize, usize>
    requires { AreInOrder clients.now }
    ensures { IsPlaceOf clients.now number result }
{
    clients.binary_search_by_key(&number, |client| client.number())
}
