//! Statistics of one state: what is told of it, and what isn't.
//!
//! A row is a text: its name, whether that may be told or may not, the topic and the channel that are asked for, and what is told.

use crate::made::{cut, let_state_go, part};
use crate::state::given::state;
use crate::stats::stats;
use broker_history::{Ask, Said};
use broker_steps::may_say;
use nsq_base::{Chan, Topic};
use std::alloc::Global;
use std::process::Abort;

mod rows;

/// In the channel `busy` are two queued copies, one in flight with each of two clients, one deferred, and one each that is done with.
const GIVEN: &str = "1 20 1
    clients: 7 Subscribed t busy 3 2 4 1 seven; 8 Lost t busy 2 0 0 0 eight; 9 Closing t busy 1 0 1 0 nine
    topics: t on 9 waiting a1 a1 a1 taken a1
        / busy on 7 1 2 queued a1, queued a1, in-flight a1 7 9, in-flight a1 9 9, deferred a1 9, finished a1, emptied a1, dropped a1
        / empty paused 0 0 0 / x#ephemeral on 1 0 0 queued a1;
        u#ephemeral paused 2 waiting a1 taken / y on 1 0 0 queued a1";

/// Whether this may be told of the state where that topic and that channel are asked for, none where a `*` takes its name's place.
fn may_tell(rt: &impl Abort, alloc: Global, asked: &str, told: &str) -> bool {
    let (topic, channel) = cut(asked);
    let state = state(rt, alloc, GIVEN);
    let ask = Ask::Stats(
        Topic::read(topic.as_bytes()),
        Chan::read(channel.as_bytes()),
    );
    let said = Said::Stats(stats(rt, alloc, told));
    let may = may_say(&state, &ask, &said);
    let_state_go(state);
    may
}

fn holds(rt: &impl Abort, alloc: Global, row: &str) -> bool {
    let (_, rest) = part(rt, row, "\n");
    let (label, rest) = part(rt, rest, "told for ");
    let (asked, told) = part(rt, rest, ":");
    may_tell(rt, alloc, asked, told) == label.trim().is_empty()
}
