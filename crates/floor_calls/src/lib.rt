//! What a call on a floor comes to, and the clients that it brings and takes away.
//!
//! Plans, over a hall that stays as it is, come before anything is changed: the act that a call leads to, what is said to what is asked over HTTP, the statistics,
//! the names of all topics and channels, and what of them is kept on disk. Each answer is the definition's, for every state that the hall stands for. Want of memory
//! is the only error. `floor_acts`' `specs/Plans.antt` says which act a call leads to, its `specs/Dues.antt` what a client is to be sent; `specs/Stats.antt` says what
//! is told of a hall's parts.
//!
//! Clients come to channels of the hall and go from them: each function says which states of `broker_history` the hall stands for afterwards, and what it leaves of
//! names that are saved and of marks.
//!
//! It hands on the other changes that a command asks for, of `floor_acts` and `floor_topics`, and the plans, replies and frames of `floor_acts`: who carries
//! commands out names this crate alone.
#![tactic(auto)]

mod asked;
mod due;
mod durable;
mod going;
mod listed;
mod plan;
mod subscribing;
mod told;

pub use asked::said_to;
pub use due::next_due_to;
pub use durable::kept;
pub use floor_acts::{
    Plan, Planned, are_left, beat, beat_frame, begin, close, closes, finish, identify, requeue,
    set_ready, speak, stop, touch,
};
pub use floor_topics::{
    Deleted, Lost, Published, create, delete_channel, delete_topic, empty_channel, empty_topic,
    pause, pause_channel, publish,
};
pub use going::gone;
pub use listed::names;
pub use plan::{is_strange, plan_call};
pub use subscribing::subscribe;
pub use told::stats;
