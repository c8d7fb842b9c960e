//! One value that many threads take in turns, one at a time. The value has a list that only grows, and a pass knows a front of it.
//!
//! `take` waits for the turn and hands the value out, `give` takes it back. What `take` gives begins with all that the pass has
//! seen, and has no other entries of the pass's number than those that the pass appended itself. `close` gives the value back once
//! all passes were joined. Taking and giving need no memory. That a waiting thread gets its turn is no promise.
#![tactic(auto)]

mod pass;
mod plays;
mod shelf;
mod stands;
mod steps;
mod turns;
mod turnstile;
mod view;

pub use pass::{Held, Pass};
pub use stands::Stands;
pub use turnstile::Turnstile;
pub use view::{Joined, View};
