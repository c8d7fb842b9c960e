//! One V2 connection, from its first byte to its end, in rounds: frames out for what is to be sent, a piece in, a turn of the desk
//! for each command that the piece completes, and its reply out.

mod buffers;
mod commands;
mod output;
mod round;
mod serve;

pub use serve::serve_v2;
