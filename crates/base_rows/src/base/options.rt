//! Rows of the options: a name, options that are given, one after another, in place of the defaults, with a `;` between them, whether they are
//! the `default` all the same or `other`, and whether each has a value `in range` or one is `out of range`. Times are in nanoseconds.

use crate::same;
use crate::text::{check_row, cut, number_in, rows_of, says, word_in};
use nsq_base::{Body, Options};
use std::alloc::Global;
use std::process::Abort;

static ROWS: &[u8] = b"\
none given||default|in range~\
the defaults given|tcp-address 0.0.0.0:4150;http-address 0.0.0.0:4151;broadcast-address 127.0.0.1;data-path .;mem-queue-size 10000;sync-every 2500;sync-timeout 2000000000;\
msg-timeout 60000000000;max-msg-timeout 900000000000;max-msg-size 1048576;max-body-size 5242880;max-req-timeout 3600000000000;max-rdy-count 2500;http-stop false|default|in range~\
a message timeout as long as the longest|msg-timeout 900000000000|other|in range~\
a message timeout above the longest|msg-timeout 900000000000;max-msg-timeout 1000000000|other|out of range~\
a data path that is no UTF-8|data-path \xff|other|out of range~\
an address without a port|tcp-address 0.0.0.0:|other|out of range~\
a stop over HTTP|http-stop true|other|in range~\
";

// Puts a text in the place of another one. False where memory is wanting.
fn put(alloc: Global, place: &mut Body, text: &[u8]) -> bool {
    let Ok(text) = Body::copy(alloc, text) else {
        return false;
    };
    *place = text;
    true
}

// Puts what a word says in its place. False where nobody knows the word.
fn put_word(place: &mut bool, word: &[u8]) -> bool {
    *place = same(word, b"true");
    says(word, *place, b"true", b"false")
}

// Gives an option. False where nobody knows it, or where it can't have this value.
fn give(alloc: Global, options: &mut Options, word: &str, value: &'static [u8]) -> bool {
    match word {
        "tcp-address" => put(alloc, &mut options.tcp_address, value),
        "http-address" => put(alloc, &mut options.http_address, value),
        "broadcast-address" => put(alloc, &mut options.broadcast_address, value),
        "data-path" => put(alloc, &mut options.data_path, value),
        "http-stop" => put_word(&mut options.http_stop, value),
        _ => give_digits(options, word, value),
    }
}

// Gives an option that is a number.
fn give_digits(options: &mut Options, word: &str, digits: &'static [u8]) -> bool {
    match number_in(digits) {
        Some(number) => give_number(options, word, number),
        None => false,
    }
}

fn give_number(options: &mut Options, word: &str, number: u64) -> bool {
    match word {
        "mem-queue-size" => options.mem_queue_size = number,
        "sync-every" => options.sync_every = number,
        "sync-timeout" => options.sync_timeout = number,
        "msg-timeout" => options.msg_timeout = number,
        "max-msg-timeout" => options.max_msg_timeout = number,
        "max-req-timeout" => options.max_req_timeout = number,
        _ => return give_small(options, word, number),
    }
    true
}

fn give_small(options: &mut Options, word: &str, number: u64) -> bool {
    let Ok(number) = u32::try_from(number) else {
        return false;
    };
    match word {
        "max-msg-size" => options.max_msg_size = number,
        "max-body-size" => options.max_body_size = number,
        "max-rdy-count" => options.max_rdy_count = number,
        _ => return false,
    }
    true
}

// Gives each of these options, one after another.
fn give_each(alloc: Global, options: &mut Options, given: &[&'static [u8]]) -> bool {
    let mut all = true;
    for it in given {
        let (word, value) = cut(it, b' ');
        all = all && give(alloc, options, word_in(word), value);
    }
    all
}

// The options that are numbers.
fn numbers_of(options: &Options) -> [u64; 11] {
    [
        options.mem_queue_size,
        options.max_bytes_per_file,
        options.sync_every,
        options.sync_timeout,
        options.msg_timeout,
        options.max_msg_timeout,
        u64::from(options.max_msg_size),
        u64::from(options.max_body_size),
        options.max_req_timeout,
        u64::from(options.max_rdy_count),
        options.max_heartbeat_interval,
    ]
}

// Whether the options that are texts are the defaults'. These tell no lookup daemon.
fn are_texts(options: &Options, defaults: &Options) -> bool {
    same(options.tcp_address.bytes(), defaults.tcp_address.bytes())
        && same(options.http_address.bytes(), defaults.http_address.bytes())
        && same(
            options.broadcast_address.bytes(),
            defaults.broadcast_address.bytes(),
        )
        && same(options.data_path.bytes(), defaults.data_path.bytes())
        && options.lookupd_tcp_address.count() == 0
}

// Whether the options are the defaults.
fn are_defaults(options: &Options, defaults: &Options) -> bool {
    are_texts(options, defaults)
        && numbers_of(options) == numbers_of(defaults)
        && options.http_stop == defaults.http_stop
}

// Whether the options are what the words say beside the defaults.
fn are(options: &Options, defaults: &Options, words: &'static [u8]) -> bool {
    let (default, range) = cut(words, b'|');
    says(
        default,
        are_defaults(options, defaults),
        b"default",
        b"other",
    ) && says(range, options.in_range(), b"in range", b"out of range")
}

// Whether a copy of the defaults, with what is given in their place, is what the words say.
fn is_copy(
    alloc: Global,
    defaults: &Options,
    given: &[&'static [u8]],
    words: &'static [u8],
) -> bool {
    match defaults.copy(alloc) {
        Ok(mut options) => {
            give_each(alloc, &mut options, given) && are(&options, defaults, words)
        }
        Err(_) => false,
    }
}

// Whether the defaults, with what is given in their place, are what the words say.
fn is_given(alloc: Global, given: &[&'static [u8]], words: &'static [u8]) -> bool {
    match Options::defaults(alloc) {
        Ok(defaults) => is_copy(alloc, &defaults, given, words),
        Err(_) => false,
    }
}

fn holds(rt: &impl Abort, alloc: Global, row: &'static [u8]) -> bool {
    let (_, rest) = cut(row, b'|');
    let (given, words) = cut(rest, b'|');
    is_given(alloc, &rows_of(rt, alloc, given, b';'), words)
}

#[test]
fn rows(rt: HostRuntime) {
    for row in &rows_of(&rt, rt.alloc(), ROWS, b'~') {
        let (name, _) = cut(row, b'|');
        check_row(&rt, holds(&rt, rt.alloc(), row), name);
    }
}
