//! What words ask for, as a text.

use crate::texts::{put, same};
use itoa::Buffer;
use nsq_base::{Body, Options};
use nsqd_words::{Request, read_words};
use std::alloc::Global;
use std::process::Abort;

/// What words ask for, as a text: `drill SEED COUNT`, `help`, `version`, `unknown`, or `serve` and behind it each option that isn't at
/// its default, as `NAME=VALUE`, durations in nanoseconds, and the flag as its name.
pub fn told(rt: &impl Abort, alloc: Global, words: &[String]) -> Vec<u8> {
    let request = read_words(alloc, words).expect(rt, "memory");
    let mut text = Vec::new(alloc);
    tell(rt, alloc, &mut text, &request);
    drop(request);
    text
}

// Adds what a request asks for.
fn tell(rt: &impl Abort, alloc: Global, text: &mut Vec<u8>, request: &Request) {
    match request {
        Request::Serve(options) => tell_options(rt, alloc, text, options),
        Request::Drill(seed, count) => tell_drill(rt, text, *seed, *count),
        Request::Help(help) => put(rt, text, help_told(help.as_str())),
        Request::Version(version) => put(rt, text, version_told(version.as_str())),
        Request::Unknown => put(rt, text, b"unknown"),
    }
}

fn tell_drill(rt: &impl Abort, text: &mut Vec<u8>, seed: u64, count: u64) {
    put(rt, text, b"drill");
    append_number(rt, text, " ", seed);
    append_number(rt, text, " ", count);
}

// What help has to speak of: each option, and the flag.
static NAMED: &'static str =
    "Usage: nsqd|--mem-queue-size|--max-bytes-per-file|--sync-every|--max-msg-size|--max-body-size|--max-rdy-count|--sync-timeout|--msg-timeout|--max-msg-timeout|--max-req-timeout|--max-heartbeat-interval|--tcp-address|--http-address|--broadcast-address|--data-path|--http-stop";

fn help_told(text: &str) -> &'static [u8] {
    for name in NAMED.split('|') {
        if !text.contains(name) {
            return b"another help";
        }
    }
    b"help"
}

fn version_told(text: &str) -> &'static [u8] {
    if same(text.as_bytes(), b"nsqd 1.0.0\n") {
        b"version"
    } else {
        b"another version"
    }
}

fn tell_options(rt: &impl Abort, alloc: Global, text: &mut Vec<u8>, options: &Options) {
    let defaults = Options::defaults(alloc).expect(rt, "memory");
    put(rt, text, b"serve");
    append_texts(rt, text, options, &defaults);
    append_sizes(rt, text, options, &defaults);
    append_times(rt, text, options, &defaults);
    if options.http_stop {
        put(rt, text, b" http-stop");
    }
    // No word says these yet.
    if options.lookupd_tcp_address.count() != defaults.lookupd_tcp_address.count() {
        put(rt, text, b" rest");
    }
    drop(defaults);
}

fn append_texts(rt: &impl Abort, text: &mut Vec<u8>, is: &Options, was: &Options) {
    append_text(rt, text, " tcp-address=", &is.tcp_address, &was.tcp_address);
    append_text(
        rt,
        text,
        " http-address=",
        &is.http_address,
        &was.http_address,
    );
    let (address, usual) = (&is.broadcast_address, &was.broadcast_address);
    append_text(rt, text, " broadcast-address=", address, usual);
    append_text(rt, text, " data-path=", &is.data_path, &was.data_path);
}

// Adds a text that isn't at its default.
fn append_text(rt: &impl Abort, text: &mut Vec<u8>, name: &str, value: &Body, default: &Body) {
    if !same(value.bytes(), default.bytes()) {
        put(rt, text, name.as_bytes());
        put(rt, text, value.bytes());
    }
}

fn append_sizes(rt: &impl Abort, text: &mut Vec<u8>, is: &Options, was: &Options) {
    let (size, usual) = (u64::from(is.max_msg_size), u64::from(was.max_msg_size));
    let (body, usually) = (u64::from(is.max_body_size), u64::from(was.max_body_size));
    let (count, most) = (u64::from(is.max_rdy_count), u64::from(was.max_rdy_count));
    append_changed(
        rt,
        text,
        " mem-queue-size=",
        is.mem_queue_size,
        was.mem_queue_size,
    );
    append_changed(
        rt,
        text,
        " max-bytes-per-file=",
        is.max_bytes_per_file,
        was.max_bytes_per_file,
    );
    append_changed(rt, text, " sync-every=", is.sync_every, was.sync_every);
    append_changed(rt, text, " max-msg-size=", size, usual);
    append_changed(rt, text, " max-body-size=", body, usually);
    append_changed(rt, text, " max-rdy-count=", count, most);
}

fn append_times(rt: &impl Abort, text: &mut Vec<u8>, is: &Options, was: &Options) {
    let (beat, usual) = (is.max_heartbeat_interval, was.max_heartbeat_interval);
    append_changed(
        rt,
        text,
        " sync-timeout=",
        is.sync_timeout,
        was.sync_timeout,
    );
    append_changed(rt, text, " msg-timeout=", is.msg_timeout, was.msg_timeout);
    append_changed(
        rt,
        text,
        " max-msg-timeout=",
        is.max_msg_timeout,
        was.max_msg_timeout,
    );
    append_changed(
        rt,
        text,
        " max-req-timeout=",
        is.max_req_timeout,
        was.max_req_timeout,
    );
    append_changed(rt, text, " max-heartbeat-interval=", beat, usual);
}

// Adds a number that isn't at its default.
fn append_changed(rt: &impl Abort, text: &mut Vec<u8>, name: &str, value: u64, default: u64) {
    if value != default {
        append_number(rt, text, name, value);
    }
}

fn append_number(rt: &impl Abort, text: &mut Vec<u8>, name: &str, value: u64) {
    let mut digits = Buffer::new();
    put(rt, text, name.as_bytes());
    put(rt, text, digits.format(value).as_bytes());
}
