//! Texts that are made: bytes that aren't UTF-8, nesting, long texts, and many names.
//!
//! A row is a line: its name, a text, and behind `=>` what is written of it, as in the other lines. A text nests one deeper than its lists, for
//! the object itself, and the longest one has 16 MiB.

use crate::check;
use crate::path::names::add;
use crate::path::read_names::held::is_read;
use crate::path::read_names::read::holds;
use crate::text::part;
use itoa::Buffer;
use std::alloc::Global;
use std::process::Abort;

static ROWS: &'static str = r#"
a byte that begins nothing: {"a":"+byte 255+"} => bad
a letter without its end: {"topics":[{"name":"+byte 195+"}]} => bad
a byte behind the object: {}+byte 255 => bad
a byte alone: byte 128 => bad
125 lists: {"unknown":+125*[+125*]+} => nothing
126 lists: {"unknown":+126*[+126*]+} => nothing
127 lists: {"unknown":+127*[+127*]+} => bad
128 lists: {"unknown":+128*[+128*]+} => bad
the longest text: {}+blanks 16777214 => nothing
a byte more: {}+blanks 16777215 => bad
"#;

// The text of so many topics, whose names are numbers of six digits from 100000 on: as it is written, or in the other order.
fn many(rt: &impl Abort, alloc: Global, count: u32, falling: bool) -> Vec<u8> {
    let mut text = Vec::new(alloc);
    add(rt, &mut text, r#"{"id_epoch":0,"topics":["#);
    for place in 0..count {
        let number = if falling { count - 1 - place } else { place };
        if place > 0 {
            add(rt, &mut text, ",");
        }
        add_topic(rt, &mut text, 100_000u32.wrapping_add(number));
    }
    add(rt, &mut text, r#"],"version":"1.0.0"}"#);
    text
}

fn add_topic(rt: &impl Abort, text: &mut Vec<u8>, number: u32) {
    let mut digits = Buffer::new();
    add(rt, text, r#"{"channels":[],"name":""#);
    add(rt, text, digits.format(number));
    add(rt, text, r#"","paused":false}"#);
}

#[test]
fn rows(rt: HostRuntime) {
    let alloc = rt.alloc();
    for row in ROWS.trim().split('\n') {
        let (_, line) = part(&rt, row, ": ");
        check(&rt, holds(&rt, alloc, line), row);
    }
    let falling = many(&rt, alloc, 10_000, true);
    let rising = many(&rt, alloc, 10_000, false);
    check(
        &rt,
        is_read(&rt, alloc, &falling, &rising),
        "ten thousand topics",
    );
}
