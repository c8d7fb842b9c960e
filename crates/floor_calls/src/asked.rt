ghost use Rattle.std.specs.Prelude.{◌≡◌, if◌then◌else◌, length, IfOk};
ghost use Rattle.nsq_outside.specs.Files.{Files};
ghost use Rattle.broker_history.specs.State.{State, topic_of};
ghost use Rattle.broker_history.specs.Reply.{are_left, has_ids};
ghost use Rattle.broker_history.specs.Said.{Says, said_made, said_of};
ghost use Rattle.broker_history.specs.declared.ask.Said.TheVariants.{Done, Ids};
ghost use Rattle.floor_rooms.specs.Rooms.{room_in};
ghost use Rattle.floor_rooms.specs.Sound.{IsSound};
ghost use Rattle.floor_rooms.specs.Standing.{HoldsFor};
ghost use Rattle.floor_calls.specs.Asked.{found_where, made_where};

use crate::told::stats;
use broker_history::{Ask, Said};
use floor_acts::{are_left, find_room, find_stall};
use floor_rooms::Hall;
use nsq_base::{Bodies, Chan, Memory, Topic};
use std::alloc::Global;

/// What is said to what is asked, where no disk fault keeps it from being done. Want of memory is the only error.
pub fn said_to(hall: &Hall, alloc: Global, ask: &Ask) -> Result<Said, Memory>
    requires { IsSound hall.now }
    ensures { IfOk result (λ said. (files : Files) (s : State) → HoldsFor hall.now files s → Says s ask.now said) }
{
    match ask {
        Ask::Publish(_, _, bodies) => Ok(said_published(hall, bodies)),
        Ask::Stats(topic, channel) => {
            let told = stats(hall, alloc, *topic, *channel)?;
            Ok(Said::Stats(told))
        }
        Ask::Create(topic, channel) => Ok(said_made(hall, *topic, *channel)),
        Ask::Delete(topic, channel) => Ok(said_of(hall, *topic, *channel)),
        Ask::Empty(topic, channel) => Ok(said_of(hall, *topic, *channel)),
        Ask::Pause(topic, channel) => Ok(said_of(hall, *topic, *channel)),
        Ask::Unpause(topic, channel) => Ok(said_of(hall, *topic, *channel)),
    }
}

// What is said to a publish of these messages.
fn said_published(hall: &Hall, bodies: &Bodies) -> Said
    ensures { (files : Files) (s : State) → HoldsFor hall.now files s → result ≡ (if has_ids s (length bodies.now) then Done else Ids) }
{
    let count = bodies.count() as u64;
    left_said(hall.ids_used, count)
}

// What is said to a publish of so many messages, where so many ids were used.
fn left_said(used: u64, count: u64) -> Said
    ensures { result ≡ (if are_left used count then Done else Ids) }
{
    if are_left(used, count) {
        Said::Done
    } else {
        Said::Ids
    }
}

// What is said where a topic is to be made, or a channel of a topic that has to be there.
fn said_made(hall: &Hall, topic: Topic, channel: Option<Chan>) -> Said
    requires { IsSound hall.now }
    ensures { (files : Files) (s : State) → HoldsFor hall.now files s → result ≡ said_made (topic_of s topic) channel }
{
    made_where(hall, topic, channel)
}

// The same, by what the hall has.
fn made_where(hall: &Hall, topic: Topic, channel: Option<Chan>) -> Said
    requires { IsSound hall.now }
    ensures { result ≡ made_where (room_in hall.now.rooms.items topic) channel }
{
    if channel.is_none() {
        return Said::Done;
    }
    if find_room(hall, topic).is_none() {
        return Said::NoTopic;
    }
    Said::Done
}

// What is said where a topic, or a channel of it, has to be there.
fn said_of(hall: &Hall, topic: Topic, channel: Option<Chan>) -> Said
    requires { IsSound hall.now }
    ensures { (files : Files) (s : State) → HoldsFor hall.now files s → result ≡ said_of (topic_of s topic) channel }
{
    found_where(hall, topic, channel)
}

// The same, by what the hall has.
fn found_where(hall: &Hall, topic: Topic, channel: Option<Chan>) -> Said
    requires { IsSound hall.now }
    ensures { result ≡ found_where (room_in hall.now.rooms.items topic) channel }
{
    if find_room(hall, topic).is_none() {
        return Said::NoTopic;
    }
    let Some(channel) = channel else {
        return Said::Done;
    };
    if find_stall(hall, topic, channel).is_none() {
        return Said::NoChannel;
    }
    Said::Done
}
