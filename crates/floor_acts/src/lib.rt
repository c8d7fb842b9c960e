//! What clients' commands come to on the floor, and the replies to them.
//!
//! A reply is found over a hall that stays as it is, and is the definition's of its name, for every state that the hall stands for; want of memory is
//! its only error. What a command makes of a hall, and what is sent to clients, is each one change of it, which stands for the definitions' change of
//! each state that the hall stood for.
//!
//! `specs/Acts.antt` says what a command of the client at a place makes of a hall, `specs/Replies.antt` what is replied.
//!
//! It says too what a plan is, the act that a call leads to, which `floor_calls` makes: `specs/Plans.antt`, and `specs/Dues.antt` of what a client is to be
//! sent. They stand here since a turn's definitions name them, and need none of what makes a plan.
#![tactic(auto)]

mod clients;
mod command;
mod due;
mod finding;
mod flights;
mod frames;
mod numbers;
mod plan;
mod ready;
mod replies;
mod sending;
mod spots;

pub use clients::{beat, begin, close, identify, speak, stop};
pub use command::{Replied, disk_reply, reply_to};
pub use due::NextDue;
pub use finding::{find_client, find_room, find_stall, flies, stall_of};
pub use flights::{finish, requeue, touch};
pub use frames::{beat_frame, closes, message_frame, refusal};
pub use numbers::are_left;
pub use plan::{Plan, Planned};
pub use ready::set_ready;
pub use sending::{draw, settle_sent, undo_sent};
