//! The options of a run, and its words.

ghost use Rattle.nsq_base.specs.Options.{IsInRange};

use crate::texts::{cut, number, unknown};
use nsq_base::Options;
use std::alloc::Global;
use std::process::Abort;

/// The default options but for what lines say behind `option`: how many messages a topic or a channel keeps in `memory`; a message's `timeout`, and how long a
/// queue may be `unsaved`, both in nanoseconds; and that the daemon `stops` when it is asked to over HTTP.
pub fn options_of(rt: &impl Abort, alloc: Global, lines: &str) -> Options
    ensures { IsInRange result }
{
    let mut options = Options::defaults(alloc).expect(rt, "memory");
    for line in lines.split('\n') {
        match cut(line) {
            ("option", words) => set(rt, &mut options, words),
            _ => {}
        }
    }
    assert!(rt; options.in_range(), "options that none has");
    options
}

// This is said of an option.
fn set(rt: &impl Abort, options: &mut Options, words: &str) {
    match cut(words) {
        ("memory", count) => options.mem_queue_size = number(rt, count),
        ("timeout", time) => options.msg_timeout = number(rt, time),
        ("unsaved", time) => options.sync_timeout = number(rt, time),
        ("stops", "") => options.http_stop = true,
        _ => unknown(rt, words),
    }
}

/// The words of a command line: the program's name, and these, with a space between them.
pub fn words_of(rt: &impl Abort, alloc: Global, further: &str) -> Vec<String> {
    let mut words = Vec::new(alloc);
    push_word(rt, alloc, &mut words, "nsqd");
    add_words(rt, alloc, &mut words, further);
    words
}

/// Adds words, with a space between them.
pub fn add_words(rt: &impl Abort, alloc: Global, words: &mut Vec<String>, further: &str) {
    for word in further.split(' ') {
        push_word(rt, alloc, words, word);
    }
}

/// Adds a word.
pub fn push_word(rt: &impl Abort, alloc: Global, words: &mut Vec<String>, word: &str) {
    let word = String::from_str(alloc, word).expect(rt, "memory");
    words.push(word).expect(rt, "memory");
}
