ghost use Rattle.std.specs.Prelude.{◌≡◌, ◌^◌, IfOk, MatchOption, OnOk};
ghost use Rattle.clap.specs.Words.{found_of, rows_of};
ghost use Rattle.nsq_base.specs.Options.{IsInRange, default_options};
ghost use Rattle.nsqd_words.specs.Command.{is_from_words};
ghost use Rattle.nsqd_words.specs.Numbers.{FindsBelow};
ghost use Rattle.nsqd_words.specs.Parts.{FindsOptions, FindsSizes, FindsTimes, with_sizes, with_stop, with_texts, with_times};
ghost use Rattle.nsqd_words.specs.Saying.{SaysDuration, SaysFlag, SaysNumber, SaysText, SaysTexts};

use crate::{read_duration, read_number};
use clap::ArgMatches;
use clap::parser::ValueSource;
use nsq_base::time::{HOUR, MINUTE, SECOND};
use nsq_base::{Bodies, Body, Memory, Options};
use std::alloc::Global;

// The options that are texts.
#[derive(Drop)]
struct Texts {
    tcp_address: Body,
    http_address: Body,
    broadcast_address: Body,
    data_path: Body,
}

// The options that are sizes and counts.
#[derive(Clone, Copy)]
struct Sizes {
    mem_queue_size: u64,
    max_bytes_per_file: u64,
    sync_every: u64,
    max_msg_size: u32,
    max_body_size: u32,
    max_rdy_count: u32,
}

// The options that are durations.
#[derive(Clone, Copy)]
struct Times {
    sync_timeout: u64,
    msg_timeout: u64,
    max_msg_timeout: u64,
    max_req_timeout: u64,
    max_heartbeat_interval: u64,
}

/// The options that clap's matches say, each in its range. None where those that they say aren't in their ranges.
pub(crate) fn read_options(
    alloc: Global,
    matches: &ArgMatches<'_>,
) -> Result<Option<Options>, Memory>
    ensures { IfOk result (FindsOptions (rows_of (found_of matches.now))) }
{
    let Some(sizes) = read_sizes(matches) else {
        return Ok(None);
    };
    let Some(times) = read_times(matches) else {
        return Ok(None);
    };
    let texts = read_texts(alloc, matches)?;
    let http_stop = flag(matches, "http-stop");
    Ok(in_range(put_together(alloc, texts, sizes, times, http_stop)))
}

// Options of these parts.
fn put_together(alloc: Global, texts: Texts, sizes: Sizes, times: Times, http_stop: bool) -> Options
    ensures { result ≡ with_stop (with_times (with_sizes (with_texts default_options texts) sizes) times) http_stop }
{
    Options {
        tcp_address: texts.tcp_address,
        http_address: texts.http_address,
        broadcast_address: texts.broadcast_address,
        lookupd_tcp_address: Bodies::new(alloc),
        data_path: texts.data_path,
        mem_queue_size: sizes.mem_queue_size,
        max_bytes_per_file: sizes.max_bytes_per_file,
        sync_every: sizes.sync_every,
        sync_timeout: times.sync_timeout,
        msg_timeout: times.msg_timeout,
        max_msg_timeout: times.max_msg_timeout,
        max_msg_size: sizes.max_msg_size,
        max_body_size: sizes.max_body_size,
        max_req_timeout: times.max_req_timeout,
        max_rdy_count: sizes.max_rdy_count,
        max_heartbeat_interval: times.max_heartbeat_interval,
        http_stop,
    }
}

// The options, where each is in its range.
fn in_range(options: Options) -> Option<Options>
    ensures { MatchOption result (IsInRange options → ⊥) (λ o. (o ≡ options) × IsInRange options) }
{
    if options.in_range() {
        Some(options)
    } else {
        None
    }
}

// The options that are texts, in their ranges or not.
fn read_texts(alloc: Global, matches: &ArgMatches<'_>) -> Result<Texts, Memory>
    ensures { IfOk result (λ texts. SaysTexts (rows_of (found_of matches.now)) (with_texts default_options texts)) }
{
    let mut texts = no_texts(alloc);
    match put_texts(alloc, matches, &mut texts) {
        Ok(()) => Ok(texts),
        Err(_) => {
            drop(texts);
            Err(Memory)
        }
    }
}

// Texts that are empty yet.
fn no_texts(alloc: Global) -> Texts {
    Texts {
        tcp_address: Body::of(Vec::new(alloc)),
        http_address: Body::of(Vec::new(alloc)),
        broadcast_address: Body::of(Vec::new(alloc)),
        data_path: Body::of(Vec::new(alloc)),
    }
}

// Puts the options that are texts in their places. Want of memory is the only error.
fn put_texts(alloc: Global, matches: &ArgMatches<'_>, texts: &mut Texts) -> Result<(), Memory>
    ensures { OnOk result (SaysTexts (rows_of (found_of matches.now)) (with_texts default_options texts.new)) }
{
    put_text(
        alloc,
        matches,
        "tcp-address",
        "0.0.0.0:4150",
        &mut texts.tcp_address,
    )?;
    put_text(
        alloc,
        matches,
        "http-address",
        "0.0.0.0:4151",
        &mut texts.http_address,
    )?;
    put_text(
        alloc,
        matches,
        "broadcast-address",
        "127.0.0.1",
        &mut texts.broadcast_address,
    )?;
    put_text(alloc, matches, "data-path", ".", &mut texts.data_path)?;
    Ok(())
}

// Puts the text that is said for an option, or its default, in its place. Want of memory is the only error.
fn put_text(
    alloc: Global,
    matches: &ArgMatches<'_>,
    name: &str,
    default: &str,
    place: &mut Body,
) -> Result<(), Memory>
    ensures { OnOk result (SaysText (rows_of (found_of matches.now)) name.now default.now place.new) }
{
    *place = text(alloc, matches, name, default)?;
    Ok(())
}

// The options that are sizes and counts.
fn read_sizes(matches: &ArgMatches<'_>) -> Option<Sizes>
    ensures { FindsSizes (rows_of (found_of matches.now)) result }
{
    let Some(mem_queue_size) = number(matches, "mem-queue-size", 10_000) else {
        return None;
    };
    let Some(max_bytes_per_file) = number(matches, "max-bytes-per-file", 104_857_600) else {
        return None;
    };
    let Some(sync_every) = number(matches, "sync-every", 2_500) else {
        return None;
    };
    let Some(max_msg_size) = small_number(matches, "max-msg-size", 1_048_576) else {
        return None;
    };
    let Some(max_body_size) = small_number(matches, "max-body-size", 5_242_880) else {
        return None;
    };
    let Some(max_rdy_count) = small_number(matches, "max-rdy-count", 2_500) else {
        return None;
    };
    Some(Sizes {
        mem_queue_size,
        max_bytes_per_file,
        sync_every,
        max_msg_size,
        max_body_size,
        max_rdy_count,
    })
}

// The options that are durations.
fn read_times(matches: &ArgMatches<'_>) -> Option<Times>
    ensures { FindsTimes (rows_of (found_of matches.now)) result }
{
    let Some(sync_timeout) = duration(matches, "sync-timeout", 2 * SECOND) else {
        return None;
    };
    let Some(msg_timeout) = duration(matches, "msg-timeout", 60 * SECOND) else {
        return None;
    };
    let Some(max_msg_timeout) = duration(matches, "max-msg-timeout", 15 * MINUTE) else {
        return None;
    };
    let Some(max_req_timeout) = duration(matches, "max-req-timeout", HOUR) else {
        return None;
    };
    let Some(max_heartbeat_interval) = duration(matches, "max-heartbeat-interval", 60 * SECOND)
    else {
        return None;
    };
    Some(Times {
        sync_timeout,
        msg_timeout,
        max_msg_timeout,
        max_req_timeout,
        max_heartbeat_interval,
    })
}

// The text that is said for an option, or its default.
fn text(alloc: Global, matches: &ArgMatches<'_>, name: &str, default: &str) -> Result<Body, Memory>
    ensures { IfOk result (SaysText (rows_of (found_of matches.now)) name.now default.now) }
{
    match matches.get_str(name) {
        Some(text) => Body::copy(alloc, text.as_bytes()),
        None => Body::copy(alloc, default.as_bytes()),
    }
}

// The number that is said for an option, or its default.
fn number(matches: &ArgMatches<'_>, name: &str, default: u64) -> Option<u64>
    ensures { FindsBelow (2 ^ 64) (SaysNumber (rows_of (found_of matches.now)) name.now default) result }
{
    match matches.get_str(name) {
        Some(text) => read_number(text.as_bytes()),
        None => Some(default),
    }
}

// The same of a number that fits 32 bits.
fn small_number(matches: &ArgMatches<'_>, name: &str, default: u32) -> Option<u32>
    ensures { FindsBelow (2 ^ 32) (SaysNumber (rows_of (found_of matches.now)) name.now default) result }
{
    match number(matches, name, u64::from(default)) {
        Some(n) if n <= 0xffff_ffff => Some(n as u32),
        _ => None,
    }
}

// The duration that is said for an option, or its default, in nanoseconds.
fn duration(matches: &ArgMatches<'_>, name: &str, default: u64) -> Option<u64>
    ensures { FindsBelow (2 ^ 64) (SaysDuration (rows_of (found_of matches.now)) name.now default) result }
{
    match matches.get_str(name) {
        Some(text) => read_duration(text.as_bytes()),
        None => Some(default),
    }
}

// Whether the words give a flag.
fn flag(matches: &ArgMatches<'_>, name: &str) -> bool
    ensures { SaysFlag (rows_of (found_of matches.now)) name.now result }
{
    is_from_words(matches.value_source(name))
}

// Whether a value came from the words, and is no default.
fn is_from_words(source: Option<ValueSource>) -> bool
    ensures { result ≡ is_from_words source }
{
    match source {
        Some(ValueSource::CommandLine) => true,
        Some(ValueSource::DefaultValue) | None => false,
    }
}
