//! States in words.
//!
//! A state has its epoch, how many ids were used and how much finds room in memory; behind `clients:` its clients, and behind `topics:` its topics,
//! both with a `;` between them.
//!
//! - A client has its number, phase, topic, channel, RDY and counts (finished, sent, given back), and its id. It said that its host is `h` and its
//!   agent `u`.
//! - A topic has its name, whether it is `paused` or `on`, its count, behind `waiting` the messages that wait, behind `taken` the one that it took, if
//!   any, which is owed to nobody in particular, and behind each `/` a channel.
//! - A channel has its name, whether it is `paused` or `on`, its counts (joined, given back, timed out), and its copies with a `,` between them.
//! - A copy has its place, its message, and `in-flight` its client and the moment when it is due, or `deferred` this moment.
//! - A message of moment 0 is its letter and its attempts: `a` has the first id of the first run, `b` the second one.

use crate::commands::phase_of;
use crate::made::{channel, copy, cut, halves, is, number, part, put, topic, unknown};
use broker_state::{
    ChannelState, Client, MessageCopy, Place, Route, State, TakenMessage, TopicState, Waiting,
};
use nsq_base::{MsgId, Options};
use std::alloc::Global;
use std::process::Abort;
use v2_frame::Message;

/// A message of moment 0: its number among the ids of the first run, its attempts and the letter that is its body.
#[derive(Clone, Copy)]
pub struct Sent {
    pub number: u64,
    pub attempts: u16,
    pub letter: u8,
}

/// The message of a letter and the number of its attempts.
pub fn sent_of(rt: &impl Abort, word: &str) -> Sent {
    match word.as_bytes() {
        [letter, attempts] => Sent {
            number: u64::from(letter.wrapping_sub(b'a')),
            attempts: u16::from(attempts.wrapping_sub(b'0')),
            letter: *letter,
        },
        _ => unknown(rt, word),
    }
}

fn message(rt: &impl Abort, alloc: Global, word: &str) -> Message {
    let sent = sent_of(rt, word);
    Message {
        stamp: 0,
        attempts: sent.attempts,
        id: MsgId::make(1, sent.number.min(255)),
        body: copy(rt, alloc, &[sent.letter]),
        delay: 0,
    }
}

/// The state.
pub fn state(rt: &impl Abort, alloc: Global, given: &str) -> State {
    let (own, rest) = part(rt, given, "clients:");
    let (clients, topics) = part(rt, rest, "topics:");
    let (epoch, own) = cut(own);
    let (used, memory) = cut(own);
    let mut options = Options::defaults(alloc).expect(rt, "memory");
    options.mem_queue_size = number(rt, memory.trim());
    State {
        options,
        epoch: epoch.parse::<u32>().expect(rt, "an epoch").min(255),
        ids_used: number(rt, used),
        moment: 0,
        stopped: false,
        began: Vec::new(alloc),
        clients: clients_of(rt, alloc, clients),
        topics: topics_of(rt, alloc, topics),
    }
}

fn clients_of(rt: &impl Abort, alloc: Global, given: &str) -> Vec<Client> {
    let mut clients = Vec::new(alloc);
    for one in given.trim().split_terminator(';') {
        put(rt, &mut clients, client_of(rt, alloc, one.trim()));
    }
    clients
}

fn topics_of(rt: &impl Abort, alloc: Global, given: &str) -> Vec<TopicState> {
    let mut topics = Vec::new(alloc);
    for one in given.trim().split_terminator(';') {
        put(rt, &mut topics, topic_of(rt, alloc, one.trim()));
    }
    topics
}

fn client_of(rt: &impl Abort, alloc: Global, given: &str) -> Client {
    let (own, rest) = cut(given);
    let (phase, rest) = cut(rest);
    let (named, rest) = cut(rest);
    let (of, rest) = cut(rest);
    let (ready, rest) = cut(rest);
    let (finished, rest) = cut(rest);
    let (sent, rest) = cut(rest);
    let (requeued, client_id) = cut(rest);
    let route = Route {
        topic: topic(rt, named),
        channel: channel(rt, of),
    };
    Client {
        number: number(rt, own),
        phase: phase_of(rt, phase),
        route: Some(route),
        ready: number(rt, ready),
        heartbeat: None,
        timeout: 60_000_000_000,
        client_id: copy(rt, alloc, client_id.as_bytes()),
        hostname: copy(rt, alloc, b"h"),
        user_agent: copy(rt, alloc, b"u"),
        last_command: 0,
        beat_from: 0,
        finish_count: number(rt, finished),
        message_count: number(rt, sent),
        requeue_count: number(rt, requeued),
    }
}

fn topic_of(rt: &impl Abort, alloc: Global, given: &str) -> TopicState {
    let (own, channels) = halves(given, "/");
    let (own, messages) = part(rt, own, " waiting");
    let (waiting, taken) = part(rt, messages, "taken");
    let (name, rest) = cut(own);
    let (paused, count) = cut(rest);
    TopicState {
        name: topic(rt, name),
        paused: is_paused(rt, paused),
        message_count: number(rt, count),
        waiting: waiting_of(rt, alloc, waiting),
        taken: taken_of(rt, alloc, taken.trim()),
        channels: channels_of(rt, alloc, channels),
    }
}

fn is_paused(rt: &impl Abort, word: &str) -> bool {
    if is(word, "paused") {
        true
    } else if is(word, "on") {
        false
    } else {
        unknown(rt, word)
    }
}

fn waiting_of(rt: &impl Abort, alloc: Global, given: &str) -> Vec<Waiting> {
    let mut waiting = Vec::new(alloc);
    for word in given.split(' ') {
        if !word.is_empty() {
            let message = message(rt, alloc, word);
            put(
                rt,
                &mut waiting,
                Waiting {
                    message,
                    loose: false,
                },
            );
        }
    }
    waiting
}

fn taken_of(rt: &impl Abort, alloc: Global, word: &str) -> Option<TakenMessage> {
    if word.is_empty() {
        None
    } else {
        Some(TakenMessage {
            message: message(rt, alloc, word),
            owed: Vec::new(alloc),
        })
    }
}

fn channels_of(rt: &impl Abort, alloc: Global, given: &str) -> Vec<ChannelState> {
    let mut channels = Vec::new(alloc);
    for one in given.trim().split_terminator('/') {
        put(rt, &mut channels, channel_of(rt, alloc, one.trim()));
    }
    channels
}

fn channel_of(rt: &impl Abort, alloc: Global, given: &str) -> ChannelState {
    let (name, rest) = cut(given);
    let (paused, rest) = cut(rest);
    let (joined, rest) = cut(rest);
    let (requeued, rest) = cut(rest);
    let (timed_out, copies) = cut(rest);
    ChannelState {
        name: channel(rt, name),
        paused: is_paused(rt, paused),
        message_count: number(rt, joined),
        requeue_count: number(rt, requeued),
        timeout_count: number(rt, timed_out),
        copies: copies_of(rt, alloc, copies),
    }
}

fn copies_of(rt: &impl Abort, alloc: Global, given: &str) -> Vec<MessageCopy> {
    let mut copies = Vec::new(alloc);
    for one in given.split_terminator(',') {
        put(rt, &mut copies, copy_of(rt, alloc, one.trim()));
    }
    copies
}

fn copy_of(rt: &impl Abort, alloc: Global, given: &str) -> MessageCopy {
    let (place, rest) = cut(given);
    let (word, rest) = cut(rest);
    MessageCopy {
        message: message(rt, alloc, word),
        place: place_of(rt, place, rest),
    }
}

fn place_of(rt: &impl Abort, word: &str, rest: &str) -> Place {
    match word {
        "queued" => Place::Queued,
        "in-flight" => {
            let (client, due) = cut(rest);
            Place::InFlight {
                client: number(rt, client),
                due: u128::from(number(rt, due)),
                sent: 0,
            }
        }
        "deferred" => Place::Deferred {
            due: u128::from(number(rt, rest)),
        },
        "finished" => Place::Finished,
        "emptied" => Place::Emptied,
        "dropped" => Place::Dropped,
        _ => unknown(rt, word),
    }
}
