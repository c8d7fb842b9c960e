//! What is said to what is asked, but for statistics.
//!
//! A row is a text: its name, how many ids were used, what is asked, and behind `=>` the one thing that is said to it. The topic `t` is there, with
//! the channel `c`, and no other.

use crate::commands::{ask_of, said_of};
use crate::made::{check, cut, is, let_state_go, part, used_of, words};
use crate::state::given::state;
use broker_history::Ask;
use broker_state::State;
use broker_steps::may_say;
use std::alloc::Global;
use std::process::Abort;

/// All that may be said.
static WORDS: [&'static str; 5] = ["done", "no topic", "no channel", "ids", "disk"];

const GIVEN: &str = "1 0 10000 clients: topics: t on 0 waiting taken / c on 0 0 0";

static ROWS: &'static str = "
a publish to a topic that isn't there
        no ids: publish u 0 x => done

a publish with the last id
        all ids but 1: publish u 0 x => done

a publish of two with one id left
        all ids but 1: publish u 0 x 2 => ids

a publish where all ids were used
        all ids but 0: publish u 0 x => ids

a topic is made
        no ids: create u => done

a topic is made that is there
        no ids: create t => done

a channel is made of a topic that isn't there
        no ids: create u c => no topic

a channel is made
        no ids: create t d => done

a topic is deleted
        no ids: delete t => done

a topic that isn't there is deleted
        no ids: delete u => no topic

a channel is deleted
        no ids: delete t c => done

a channel that isn't there is deleted
        no ids: delete t d => no channel

a channel of a topic that isn't there is deleted
        no ids: delete u c => no topic

a topic that isn't there is emptied
        no ids: empty u => no topic

a channel that isn't there is emptied
        no ids: empty t d => no channel

a channel is emptied
        no ids: empty t c => done

a topic is paused
        no ids: pause t => done

a channel that isn't there is paused
        no ids: pause t d => no channel

the pause of a topic that isn't there is ended
        no ids: unpause u => no topic

the pause of a channel is ended
        no ids: unpause t c => done

the pause of a channel that isn't there is ended
        no ids: unpause t d => no channel
";

/// Whether this is said to it, and nothing else is.
fn says(rt: &impl Abort, state: &State, ask: &Ask, said: &str) -> bool {
    for word in &WORDS {
        if may_say(state, ask, &said_of(rt, word)) != is(word, said) {
            return false;
        }
    }
    true
}

fn holds(rt: &impl Abort, alloc: Global, row: &str) -> bool {
    let (_, rest) = part(rt, row, "\n");
    let (used, rest) = part(rt, rest, ": ");
    let (asks, said) = part(rt, rest, " => ");
    let mut state = state(rt, alloc, GIVEN);
    state.ids_used = used_of(rt, used);
    let (word, rest) = cut(asks);
    let ask = ask_of(rt, alloc, word, words(rest));
    let says = says(rt, &state, &ask, said);
    let_state_go(state);
    says
}

#[test]
fn rows(rt: HostRuntime) {
    for row in ROWS.trim().split("\n\n") {
        check(&rt, holds(&rt, rt.alloc(), row), row);
    }
}
