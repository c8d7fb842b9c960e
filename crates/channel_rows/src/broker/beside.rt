//! The plain program beside a channel or a topic's queue: what happens to the whole of it.

use crate::broker::entries::asked;
use crate::broker::files::next_run;
use crate::broker::possible::{Possible, keep_if, let_states_go};
use crate::broker::starting::with_clients;
use broker_history::Ask;
use broker_state::State;
use nsq_base::{Chan, Options, Topic};
use nsq_fakes::MemFolder;
use nsq_outside::End;
use std::alloc::Global;
use std::process::Abort;

/// The states that are possible beside a channel or a topic's queue.
#[derive(Drop)]
pub struct Beside {
    pub alloc: Global,
    pub options: Options,
    pub topic: Topic,
    /// The channel; beside a topic's queue one that isn't there.
    pub name: Chan,
    /// The channel, if it is beside one.
    pub of: Option<Chan>,
    /// Whether calls of the folder fail.
    pub fails: bool,
    pub possible: Possible,
}

/// Takes it apart, once for all that held one.
pub fn let_go(_beside: Beside) {}

impl Beside {
    /// Whether calls on the folder may fail.
    pub fn may_fail(&self) -> bool {
        self.fails && !self.topic.ephemeral() && !self.name.ephemeral()
    }

    /// Something is asked and done, or a fault keeps it from being done.
    pub fn asks(&mut self, rt: &impl Abort, at: u64, ask: Ask, done: bool) -> bool {
        let goes = self.possible.goes(rt, asked(at, ask), end_of(done));
        goes && (done || self.may_fail())
    }

    /// Whether it may be paused, or not any more.
    pub fn pauses(&mut self, rt: &impl Abort, at: u64, on: bool) -> bool {
        let ask = if on {
            Ask::Pause(self.topic, self.of)
        } else {
            Ask::Unpause(self.topic, self.of)
        };
        self.asks(rt, at, ask, true)
    }

    /// Whether all that waits may be emptied out, or a fault may keep that from being done.
    pub fn empties(&mut self, rt: &impl Abort, at: u64, done: bool) -> bool {
        self.asks(rt, at, Ask::Empty(self.topic, self.of), done)
    }

    /// Whether it may be deleted, or a fault may keep that from being done.
    pub fn deletes(&mut self, rt: &impl Abort, at: u64, done: bool) -> bool {
        self.asks(rt, at, Ask::Delete(self.topic, self.of), done)
    }

    /// Whether the folder's files have all that is left in a possible state. Then the state is the one in which the next run begins, with both
    /// clients of a channel.
    pub fn begins(&mut self, rt: &impl Abort, folder: &mut MemFolder) -> bool {
        let states = self.possible.take();
        for state in &states {
            if let Some(next) = next_run(rt, self.alloc, folder, state, &self.options) {
                let begun = self.joined(rt, next);
                keep_if(rt, &mut self.possible.states, true, begun);
            }
        }
        let_states_go(states);
        !self.possible.states.is_empty()
    }

    // The state with both clients of the channel, if there is one.
    fn joined(&self, rt: &impl Abort, state: State) -> State {
        match self.of {
            Some(name) => with_clients(rt, self.alloc, state, self.topic, name),
            None => state,
        }
    }
}

/// How something ended that was done, or that a fault kept off.
pub fn end_of(done: bool) -> End {
    if done { End::Done } else { End::Faulted(0) }
}
