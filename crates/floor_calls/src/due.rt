ghost use Rattle.floor_rooms.specs.Sound.{IsSound};
ghost use Rattle.floor_acts.specs.Dues.{IsDueTo};

use floor_acts::NextDue;
use floor_rooms::{Client, Hall};

/// What is to be sent to this client at the hall's moment, as far as its channel's copies don't decide: the first that holds.
pub fn next_due_to(hall: &Hall, client: &Client) -> NextDue
    requires { IsSound hall.now }
    ensures { IsDueTo hall.now client.now result }
{
    if client.is_lost() {
        return NextDue::Dropped;
    }
    if client.is_silent(hall.moment) {
        return NextDue::Silent;
    }
    if client.is_beat_due(hall.moment) {
        return NextDue::Beat;
    }
    if !client.is_subscribed() {
        return NextDue::Nothing;
    }
    let Some(names) = client.channel() else {
        return NextDue::Nothing;
    };
    let Some(i) = hall.room_place(names.0) else {
        return NextDue::Nothing;
    };
    let Some(j) = hall.stall_place(i, names.1) else {
        return NextDue::Nothing;
    };
    NextDue::Message(i, j)
}
