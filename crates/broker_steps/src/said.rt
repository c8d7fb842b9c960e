use crate::stats::tells;
use broker_history::{Ask, Said};
use broker_state::{State, TopicState, are_left};
use nsq_base::{Chan, Topic};

// What is said to what is asked, but for statistics.
#[derive(Clone, Copy, PartialEq, Eq)]
enum Word {
    // It was done.
    Done,
    // There is no such topic.
    NoTopic,
    // There is no such channel.
    NoChannel,
    // The run has no further ids.
    Ids,
}

/// Whether this may be said to what is asked in this state (`Says`). Of statistics all is fixed but the split of a depth into memory and
/// disk, which is free within its bounds; the disk's refusal is never said by this. It has no contract: it is a second reading of the
/// definitions by hand.
pub fn may_say(state: &State, ask: &Ask, said: &Said) -> bool {
    match ask {
        Ask::Publish(_, _, bodies) => {
            is_word(said, said_published(state.ids_used, bodies.count() as u64))
        }
        Ask::Stats(topic, channel) => is_told(state, topic, channel, said),
        Ask::Create(topic, channel) => is_word(said, said_made(state.topic_of(topic), channel)),
        Ask::Delete(topic, channel) => is_word(said, said_of(state.topic_of(topic), channel)),
        Ask::Empty(topic, channel) => is_word(said, said_of(state.topic_of(topic), channel)),
        Ask::Pause(topic, channel) => is_word(said, said_of(state.topic_of(topic), channel)),
        Ask::Unpause(topic, channel) => is_word(said, said_of(state.topic_of(topic), channel)),
    }
}

// Whether these are statistics of the topic that is asked for or of all, and in each of the channel that is asked for or of all.
fn is_told(state: &State, topic: &Option<Topic>, channel: &Option<Chan>, said: &Said) -> bool {
    match said {
        Said::Stats(stats) => tells(state, topic, channel, stats.topics.as_slice()),
        _ => false,
    }
}

// Whether this is what is said.
fn is_word(said: &Said, word: Word) -> bool {
    match said {
        Said::Done => word == Word::Done,
        Said::NoTopic => word == Word::NoTopic,
        Said::NoChannel => word == Word::NoChannel,
        Said::Ids => word == Word::Ids,
        Said::Disk | Said::Stats(_) => false,
    }
}

// What is said to a publish of so many messages, where so many ids were used.
fn said_published(used: u64, count: u64) -> Word {
    if are_left(used, count) {
        Word::Done
    } else {
        Word::Ids
    }
}

// What is said where a topic is to be made, or a channel of a topic that has to be there (`said_made`).
fn said_made(topic: Option<&TopicState>, channel: &Option<Chan>) -> Word {
    if channel.is_some() && topic.is_none() {
        Word::NoTopic
    } else {
        Word::Done
    }
}

// What is said where a topic, or a channel of it, has to be there (`said_of`).
fn said_of(topic: Option<&TopicState>, channel: &Option<Chan>) -> Word {
    match topic {
        None => Word::NoTopic,
        Some(topic) => said_in(topic, channel),
    }
}

// The same of a topic that is there (`said_in`).
fn said_in(topic: &TopicState, channel: &Option<Chan>) -> Word {
    match channel {
        None => Word::Done,
        Some(channel) => if topic.channel_of(channel).is_some() {
            Word::Done
        } else {
            Word::NoChannel
        },
    }
}
