ghost use Rattle.std.specs.Prelude.{◌≡◌, ◌++◌, OnOk, OnErr};
ghost use Rattle.http_calls.specs.Stats.{stats_bytes};
ghost use Rattle.http_calls.specs.Tokens.{stats_tokens};

use crate::list::put_list;
use crate::members::{put_count, put_name};
use broker_history::Stats;
use json::Writer;
use nsq_base::{Memory, time};
use std::alloc::{AllocError, Global};
use std::mem;

/// Appends the statistics in JSON (nsq.io, nsqd, `/stats`) of a daemon that was opened at the moment `began`, in nanoseconds:
/// without spaces, members in byte order of their names, topics, channels and clients as they are given. Want of memory is the
/// only error: then `out` is as before. Nothing is allocated but the growth of `out`, and copies of texts that aren't UTF-8.
pub fn stats_text(alloc: Global, stats: &Stats, began: u64, out: &mut Vec<u8>) -> Result<(), Memory>
    ensures ok { OnOk result (out.new.items ≡ out.old.items ++ stats_bytes began stats.now) }
    ensures err { OnErr result (out.new.items ≡ out.old.items) }
{
    let before = out.len();
    let mut page = Writer::new(mem::replace(out, Vec::new(alloc)));
    let done = put_stats(alloc, stats, began / time::SECOND, &mut page);
    *out = page.into_inner();
    if done.is_err() {
        out.truncate(before);
        return Err(Memory);
    }
    Ok(())
}

/// Writes the whole, of a daemon that was opened at this second.
fn put_stats(alloc: Global, stats: &Stats, start: u64, page: &mut Writer) -> Result<(), AllocError>
    ensures ok { OnOk result (page.new.tokens ≡ page.old.tokens ++ stats_tokens start stats.now) }
    ensures before { page.new.before ≡ page.old.before }
{
    page.begin_object()?;
    put_name(page, "health", "OK")?;
    put_count(page, "start_time", start)?;
    put_list(alloc, page, "topics", stats.topics.as_slice())?;
    put_name(page, "version", "1.0.0")?;
    page.end_object()
}
