//! Words that are made: none at all, and long texts.

use crate::setting::words_of;
use crate::texts::{check, same};
use crate::words::told::told;
use nsqd_words::{Request, read_words};
use std::alloc::Global;
use std::process::Abort;

// The word of a broadcast address of so many bytes.
fn address_of(rt: &impl Abort, alloc: Global, length: usize) -> String {
    let mut word = String::from_str(alloc, "--broadcast-address=").expect(rt, "memory");
    for _ in 0..length {
        word.push('a').expect(rt, "memory");
    }
    word
}

// Whether a broadcast address of so many bytes is served.
fn is_served(rt: &impl Abort, alloc: Global, length: usize) -> bool {
    let word = address_of(rt, alloc, length);
    let words = words_of(rt, alloc, word.as_str());
    let request = read_words(alloc, &words).expect(rt, "memory");
    let is_served = matches!(&request, Request::Serve(_));
    drop(request);
    is_served
}

#[test]
fn made(rt: HostRuntime) {
    let alloc = rt.alloc();
    check(
        &rt,
        same(&told(&rt, alloc, &[]), b"serve"),
        "no words at all, not even the program's name",
    );
    check(&rt, is_served(&rt, alloc, 65_536), "the longest address");
    check(
        &rt,
        !is_served(&rt, alloc, 65_537),
        "an address of a byte more",
    );
}
