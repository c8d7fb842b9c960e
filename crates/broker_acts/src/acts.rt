use crate::commands::{did, only, publish, sent};
use crate::moves::{if_done, moved_or, one_made, put_made, same};
use broker_changes::state::{deleted, deleted_first, emptied, gone, made, set_paused};
use broker_history::{Act, Ask, Entry, Said};
use broker_state::{Client, Phase, State, default_heartbeat};
use nsq_base::{Body, Memory};
use nsq_outside::End;
use std::alloc::Global;
use v2_frame::{Frame, FrameKind};

/// The states that the act of an entry with this end leads to (`DoesAct`), at the old moment. Want of memory is the only error. It has no
/// contract: it is a second reading of the definitions by hand.
pub fn acted(alloc: Global, state: &State, entry: &Entry, end: End) -> Result<Vec<State>, Memory> {
    by_act(alloc, state, entry.at, entry.conn, &entry.act, end)
}

// The same of an act at a moment, of the connection of this number.
fn by_act(
    alloc: Global,
    state: &State,
    at: u64,
    number: u64,
    act: &Act,
    end: End,
) -> Result<Vec<State>, Memory> {
    match act {
        Act::Began => one_made(alloc, begun(alloc, state, at, number)),
        Act::Did(command, given) => {
            did(alloc, state, at, number, command, is_kept_off(given, end))
        }
        Act::Sent(message) => sent(alloc, state, at, number, message),
        Act::Beat => beaten(alloc, state, at, number),
        Act::Gone => one_made(alloc, left(alloc, state, number)),
        Act::Asked(ask, said) => asked(alloc, state, at, ask, said, end),
        Act::Stop => one_made(alloc, stopped(alloc, state)),
        _ => by_move(alloc, state, at, act, end),
    }
}

// The state after a client went.
fn left(alloc: Global, state: &State, number: u64) -> Result<State, Memory> {
    gone(alloc, state.copy(alloc)?, number)
}

// The state after a stop.
fn stopped(alloc: Global, state: &State) -> Result<State, Memory> {
    let mut state = state.copy(alloc)?;
    state.stopped = true;
    Ok(state)
}

// The states that a move leads to (`DoesMoveTo`): one that met a disk fault changes nothing, nor does any other act.
fn by_move(
    alloc: Global,
    state: &State,
    at: u64,
    act: &Act,
    end: End,
) -> Result<Vec<State>, Memory> {
    match end {
        End::Done => moved_or(alloc, state, at, act, true),
        End::Faulted(_) | End::Skip => same(alloc, state),
    }
}

// The state with a client that began (`begun`): its heartbeat is on, and its time for a message is the option's.
fn begun(alloc: Global, state: &State, at: u64, number: u64) -> Result<State, Memory> {
    let state = with_begun(alloc, state, number)?;
    let client = fresh(alloc, &state, at, number);
    state.with_client(alloc, client)
}

// The state in which a connection of this number began.
fn with_begun(alloc: Global, state: &State, number: u64) -> Result<State, Memory> {
    let mut state = state.copy(alloc)?;
    let put = put_made(&mut state.began, Ok(number));
    if_done(state, put)
}

// A client that began.
fn fresh(alloc: Global, state: &State, at: u64, number: u64) -> Client {
    Client {
        number,
        phase: Phase::Fresh,
        route: None,
        ready: 0,
        heartbeat: Some(default_heartbeat(&state.options)),
        timeout: state.options.msg_timeout,
        client_id: Body::of(Vec::new(alloc)),
        hostname: Body::of(Vec::new(alloc)),
        user_agent: Body::of(Vec::new(alloc)),
        last_command: at,
        beat_from: at,
        finish_count: 0,
        message_count: 0,
        requeue_count: 0,
    }
}

// The state after a heartbeat.
fn beaten(alloc: Global, state: &State, at: u64, number: u64) -> Result<Vec<State>, Memory> {
    match state.client_of(number) {
        Some(client) => only(alloc, state, beating(alloc, client, at)),
        None => same(alloc, state),
    }
}

// A client that was sent a heartbeat, from which its next one counts.
fn beating(alloc: Global, client: &Client, at: u64) -> Result<Client, Memory> {
    let mut client = client.copy(alloc)?;
    client.beat_from = at;
    Ok(client)
}

// Whether a command with this reply and end is kept from being carried out (`is_kept_off`): it was refused, or met a disk fault.
fn is_kept_off(reply: &Option<Frame>, end: End) -> bool {
    match end {
        End::Done => is_error(reply),
        End::Faulted(_) | End::Skip => true,
    }
}

// Whether an answer is an error.
fn is_error(reply: &Option<Frame>) -> bool {
    match reply {
        None => false,
        Some(frame) => frame.kind == FrameKind::Error,
    }
}

// The states that something asked leads to (`asked_state`); every answer but that it was done changes nothing, and a disk fault leaves of a topic's
// deletion the channels that were deleted.
fn asked(
    alloc: Global,
    state: &State,
    at: u64,
    ask: &Ask,
    said: &Said,
    end: End,
) -> Result<Vec<State>, Memory> {
    match end {
        End::Done => if says_done(said) {
            carried_out(alloc, state, at, ask)
        } else {
            same(alloc, state)
        },
        End::Faulted(count) => broken_off(alloc, state, ask, count),
        End::Skip => same(alloc, state),
    }
}

// The states after something was asked and done.
fn carried_out(alloc: Global, state: &State, at: u64, ask: &Ask) -> Result<Vec<State>, Memory> {
    match ask {
        Ask::Publish(topic, delay, bodies) => {
            publish(alloc, state, at, *delay, topic, bodies.as_slice())
        }
        _ => one_made(alloc, changed(alloc, state, ask)),
    }
}

// The state after something was asked and done that is no publish.
fn changed(alloc: Global, state: &State, ask: &Ask) -> Result<State, Memory> {
    becomes(alloc, state.copy(alloc)?, ask)
}

// What the state becomes after something was asked and done that is no publish.
fn becomes(alloc: Global, state: State, ask: &Ask) -> Result<State, Memory> {
    match ask {
        Ask::Publish(_, _, _) | Ask::Stats(_, _) => Ok(state),
        Ask::Create(topic, channel) => made(alloc, state, topic, channel),
        Ask::Delete(topic, channel) => deleted(alloc, state, topic, channel),
        Ask::Empty(topic, channel) => emptied(alloc, state, topic, channel),
        Ask::Pause(topic, channel) => set_paused(alloc, state, true, topic, channel),
        Ask::Unpause(topic, channel) => set_paused(alloc, state, false, topic, channel),
    }
}

// What a disk fault leaves of what was asked: of a topic's deletion the channels that were deleted.
fn broken_off(alloc: Global, state: &State, ask: &Ask, count: u64) -> Result<Vec<State>, Memory> {
    match ask {
        Ask::Delete(topic, None) => {
            one_made(
                alloc,
                deleted_first(alloc, state.copy(alloc)?, topic, count),
            )
        }
        _ => same(alloc, state),
    }
}

/// Whether it says that it was done. It has no contract either.
pub fn says_done(said: &Said) -> bool {
    match said {
        Said::Done => true,
        _ => false,
    }
}
