//! A turn at a floor's hall, at the hall's moment: what is due is moved, then the call makes its act, which the answer tells. An act is kept aside, carried
//! out, and noted with its end.
//!
//! Commands and what is asked over HTTP are carried out by what clients, topics and channels of a hall are changed by, each with how it ended and its answer.
//!
//! `specs/Carrying.antt` says what carrying an act out makes of a hall, `specs/Commands.antt` and `specs/Asks.antt` what a command and what is asked do,
//! `floor_turns`' `specs/Turning.antt` what such a turn does.
//!
//! It hands on what `floor_turns` says of such turns, the names that are kept, and what a flush leaves.
// An owned value that an exit has no use for goes by `drop`, which is proved once for its type. Left to the scope's end it is taken apart anew at each such
// exit, beside the hall, the folder and all else that is held there: this took a third of the check of what carries acts out.
#![tactic(auto)]

mod acting;
mod acts;
mod asked;
mod carried;
mod commanded;
mod commands;
mod flights;
mod publishing;
mod replied;
mod requests;
mod served;
mod serving;
mod spans;

pub use floor_calls::{kept, names};
pub use floor_turns::flush_all;
pub use serving::turn_at;
