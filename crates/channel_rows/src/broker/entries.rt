//! What happens, as entries of the broker's history.

use broker_history::{Act, Ask, Entry, Said};
use broker_state::{Phase, reply};
use nsq_base::Options;
use std::alloc::Global;
use std::process::Abort;
use v2_frame::Command;

// The connection that asks over HTTP.
const ASKING: u64 = 9;

/// The daemon, in place of a client.
pub const DAEMON: u64 = 0;

/// An act of a client or the daemon.
pub fn entry(conn: u64, at: u64, act: Act) -> Entry {
    Entry { conn, at, act }
}

/// Something that is asked and done.
pub fn asked(at: u64, ask: Ask) -> Entry {
    Entry {
        conn: ASKING,
        at,
        act: Act::Asked(ask, Said::Done),
    }
}

/// A command of a client that has subscribed, with its reply: the message that the command names is in flight with it or isn't.
pub fn commanded(
    rt: &impl Abort,
    alloc: Global,
    options: &Options,
    conn: u64,
    at: u64,
    command: Command,
    flies: bool,
) -> Entry {
    let given = reply(alloc, options, 0, Phase::Subscribed, flies, &command).expect(rt, "memory");
    Entry {
        conn,
        at,
        act: Act::Did(command, given),
    }
}
