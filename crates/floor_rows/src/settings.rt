//! Options of which some aren't the defaults.

ghost use Rattle.nsq_base.specs.Options.{IsInRange};

use nsq_base::Options;
use std::alloc::Global;
use std::process::Abort;

/// The options of a run that aren't always the defaults.
#[derive(Clone, Copy)]
pub struct Setting {
    /// How many messages a topic or a channel keeps in memory.
    pub memory: u64,
    /// How long a client has for a message, in nanoseconds.
    pub timeout: u64,
    /// How long a queue may be unsaved, in nanoseconds.
    pub unsaved: u64,
}

/// The defaults.
pub const DEFAULTS: Setting = Setting {
    memory: 10_000,
    timeout: 60_000_000_000,
    unsaved: 2_000_000_000,
};

/// The options of a setting.
pub fn options_of(rt: &impl Abort, alloc: Global, setting: &Setting) -> Options
    ensures { IsInRange result }
{
    let mut options = Options::defaults(alloc).expect(rt, "memory");
    options.mem_queue_size = setting.memory;
    options.msg_timeout = setting.timeout;
    options.sync_timeout = setting.unsaved;
    assert!(rt; options.in_range(), "options that none has");
    options
}
