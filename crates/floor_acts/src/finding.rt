ghost use Rattle.std.specs.Prelude.{◌≡◌, option_copied};
ghost use Rattle.floor_rooms.specs.Rooms.{client_in, room_in, stall_at};
ghost use Rattle.floor_rooms.specs.Sound.{IsSound};
ghost use Rattle.floor_acts.specs.Replies.{flies_in, stall_of};

use channel_core::Look;
use floor_rooms::{Client, Hall, Room, Stall};
use nsq_base::{Chan, MsgId, Topic};

/// The client of this number, where there is one.
pub fn find_client(hall: &Hall, number: u64) -> Option<&Client>
    requires { IsSound hall.now }
    ensures { option_copied result ≡ client_in hall.now.clients.items number }
{
    let Some(k) = hall.client_place(number) else {
        return None;
    };
    Some(&hall.clients[k])
}

/// The topic of this name, where there is one.
pub fn find_room(hall: &Hall, topic: Topic) -> Option<&Room>
    requires { IsSound hall.now }
    ensures { option_copied result ≡ room_in hall.now.rooms.items topic }
{
    let Some(i) = hall.room_place(topic) else {
        return None;
    };
    Some(&hall.rooms[i])
}

/// The channel of these names, where there is one.
pub fn find_stall(hall: &Hall, topic: Topic, channel: Chan) -> Option<&Stall>
    requires { IsSound hall.now }
    ensures { option_copied result ≡ stall_at hall.now.rooms.items topic channel }
{
    let Some(i) = hall.room_place(topic) else {
        return None;
    };
    let Some(j) = hall.stall_place(i, channel) else {
        return None;
    };
    Some(&hall.rooms[i].stalls[j])
}

/// The channel of a client, where it has one that is there.
pub fn stall_of<'a>(hall: &'a Hall, client: &Client) -> Option<&'a Stall>
    requires { IsSound hall.now }
    ensures { option_copied result ≡ stall_of hall.now client.now }
{
    let Some(names) = client.channel() else {
        return None;
    };
    find_stall(hall, names.0, names.1)
}

/// Whether a copy of this id is in flight with the client.
pub fn flies(hall: &Hall, client: &Client, id: MsgId) -> bool
    requires { IsSound hall.now }
    ensures { result ≡ flies_in hall.now client.now id }
{
    let Some(stall) = stall_of(hall, client) else {
        return false;
    };
    match stall.channel.look(client.number(), id) {
        Look::Yours => true,
        Look::NotYours => false,
        Look::NotInFlight => false,
    }
}
