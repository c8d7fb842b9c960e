ghost use Rattle.std.specs.Prelude.{◌≡◌, IfOk};
ghost use Rattle.std.specs.String.{string_bytes};
ghost use Rattle.backlog.specs.Seen.{ForMessages};
ghost use Rattle.backlog.specs.declared.backlog.Lent.TheVariants.{Nothing};
ghost use Rattle.broker_history.specs.State.{is_ephemeral_channel};
ghost use Rattle.channel_core.specs.Kept.{IsBacklogOf};
ghost use Rattle.channel_core.specs.Made.{FitsRun, about_of, made_channel, queue_options};
ghost use Rattle.channel_core.specs.Seen.{queue_name};

use super::Channel;
use crate::{About, Drawn};
use backlog::{Backlog, QueueOptions};
use channel_copies::{Clients, Deferred, Flights};
use nsq_base::{Chan, Memory, Options, Topic};
use std::alloc::Global;

impl Channel {
    // A channel with what is in this backlog, and no client.
    pub(super) fn of(
        alloc: Global,
        topic: Topic,
        name: Chan,
        options: &Options,
        backlog: Backlog,
    ) -> Channel
        requires times { FitsRun options.now }
        requires named { IsBacklogOf (about_of topic name options.now) backlog }
        requires nothing { backlog.lent ≡ Nothing }
        ensures { result ≡ record (made_channel topic name options.now backlog) { spare = result.spare; deferred_spare = result.deferred_spare } }
    {
        Channel {
            alloc,
            about: About {
                topic,
                name,
                mem_queue_size: options.mem_queue_size,
                msg_timeout: options.msg_timeout,
                max_msg_timeout: options.max_msg_timeout,
            },
            paused: false,
            message_count: 0,
            requeue_count: 0,
            timeout_count: 0,
            backlog,
            flights: Flights::new(alloc),
            clients: Clients::new(alloc),
            deferred: Deferred::new(alloc),
            drawn: Drawn::Nothing,
        }
    }
}

// Whether a channel is ephemeral, itself or with its topic: then nothing of it is on disk.
pub(super) fn is_ephemeral(topic: Topic, name: Chan) -> bool
    ensures { result ≡ is_ephemeral_channel topic name }
{
    if topic.ephemeral() {
        return true;
    }
    name.ephemeral()
}

// The name of a channel's queue.
pub(super) fn queue_name(alloc: Global, topic: Topic, name: Chan) -> Result<String, Memory>
    ensures { IfOk result (λ text. string_bytes text ≡ queue_name topic name) }
{
    let mut text = String::new(alloc);
    text.push_str(topic.as_str())?;
    text.push_str(":")?;
    text.push_str(name.as_str())?;
    Ok(text)
}

// The options of a channel's queue.
pub(super) fn backlog_options(options: &Options) -> QueueOptions
    ensures is { result ≡ queue_options options.now }
    ensures fit { ForMessages result }
{
    QueueOptions {
        max_bytes: options.max_bytes_per_file,
        sync_every: options.sync_every,
        least: 26,
        limit: 16_777_242,
    }
}
