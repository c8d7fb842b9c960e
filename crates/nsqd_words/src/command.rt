ghost use Rattle.std.specs.Prelude.{◌≡◌, ◌++◌, ◌∷◌, [], IfOk, Some, false, length, map};
ghost use Rattle.clap.specs.Simple.{new_rule};
ghost use Rattle.clap.specs.Words.{app_of, rule_of};
ghost use Rattle.nsqd_words.specs.Command.{AreArgs, bare_app, flag_rule, nsqd_app, option_names, option_rule, stop_flag};

use clap::{Arg, ArgAction, Command};
use std::alloc::{AllocError, Global};

// The options that take a value, each with its help.
static OPTIONS: [(&str, &str); 15] = [
    (
        "tcp-address",
        "where clients are listened for, HOST:PORT [default: 0.0.0.0:4150]",
    ),
    (
        "http-address",
        "where HTTP requests are listened for, HOST:PORT [default: 0.0.0.0:4151]",
    ),
    (
        "broadcast-address",
        "the address that /info tells, 1 to 65536 bytes [default: 127.0.0.1]",
    ),
    ("data-path", "the folder of the queue files [default: .]"),
    (
        "mem-queue-size",
        "messages of a topic or a channel that stay in memory, 0 to 1000000 [default: 10000]",
    ),
    (
        "max-bytes-per-file",
        "bytes of a queue file before the next one is begun, 1 to 2^40 [default: 104857600]",
    ),
    (
        "sync-every",
        "records after which a queue is saved, 1 to 1000000000 [default: 2500]",
    ),
    (
        "max-msg-size",
        "most bytes of a message, 1 to 16777216 [default: 1048576]",
    ),
    (
        "max-body-size",
        "most bytes of a command's body, 1 to 268435456 [default: 5242880]",
    ),
    (
        "max-rdy-count",
        "most messages in flight to a client, 1 to 100000 [default: 2500]",
    ),
    (
        "sync-timeout",
        "time after which a queue is saved, as 1m30s or 250ms, 1ms to 8760h [default: 2s]",
    ),
    (
        "msg-timeout",
        "time that a client has for a message, 1ms to --max-msg-timeout [default: 60s]",
    ),
    (
        "max-msg-timeout",
        "most time that a client may ask for, 1ms to 8760h [default: 15m]",
    ),
    (
        "max-req-timeout",
        "longest delay of a message, 1ms to 8760h [default: 1h]",
    ),
    (
        "max-heartbeat-interval",
        "longest time between two heartbeats, 1s to 8760h [default: 60s]",
    ),
];

/// The command `nsqd`, with all its options and its flag.
pub(crate) fn nsqd_command<'a>(alloc: Global) -> Result<Command<'a>, AllocError>
    ensures { IfOk result (λ command. app_of command ≡ nsqd_app) }
{
    let list = all_args(alloc, options())?;
    bare_command(alloc).args(list)
}

// The command without an option.
fn bare_command<'a>(alloc: Global) -> Command<'a>
    ensures { app_of result ≡ bare_app }
{
    Command::new(alloc, "nsqd").version("1.0.0").about(
        "The NSQ daemon: it takes messages, and delivers them to those who subscribed. `nsqd drill SEED COUNT` runs a drill.",
    )
}

// The options that take a value, each with its help.
fn options() -> &'static [(&'static str, &'static str)]
    ensures { map (λ option. option.0.now) result.now ≡ option_names }
{
    &OPTIONS
}

// These options, each with its help, and behind them the flag. Each option takes one value, the flag none.
fn all_args<'a>(alloc: Global, options: &[(&'a str, &'a str)]) -> Result<Vec<Arg<'a>>, AllocError>
    requires { length options.now ≡ 15 }
    ensures { IfOk result (λ list. AreArgs list.items (map (λ option. option_rule option.0.now) options.now ++ flag_rule stop_flag ∷ [])) }
{
    let mut list = Vec::with_capacity(alloc, 16)?;
    for option in options {
        list.push_reserved(new_arg(alloc, option.0, option.1, ArgAction::Set));
    }
    let stop = new_arg(
        alloc,
        "http-stop",
        "POST /stop over HTTP stops the daemon [default: off]",
        ArgAction::SetTrue,
    );
    list.push_reserved(stop);
    Ok(list)
}

// One option or flag.
fn new_arg<'a>(alloc: Global, name: &'a str, help: &'a str, action: ArgAction) -> Arg<'a>
    ensures rule { rule_of result ≡ record (new_rule name.entry.now) { long = Some name.entry.now; action = Some action } }
    ensures own { result.global ≡ false }
{
    Arg::new(alloc, name).long(name).action(action).help(help)
}
