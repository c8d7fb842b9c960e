//! Whether a row holds.

use crate::setting::add_words;
use crate::texts::same;
use crate::words::told::told;
use std::alloc::Global;
use std::process::Abort;

/// Whether a row holds. It is a line `WORDS => ASKED`: words with a space between them, and what they ask for, as `told` has it.
pub fn holds(rt: &impl Abort, alloc: Global, row: &str) -> bool {
    match row.split_once(" => ") {
        Some((words, asked)) => asks(rt, alloc, words, asked),
        None => false,
    }
}

// Whether the words of a line ask for this.
fn asks(rt: &impl Abort, alloc: Global, line: &str, asked: &str) -> bool {
    let mut words = Vec::new(alloc);
    add_words(rt, alloc, &mut words, line);
    same(&told(rt, alloc, &words), asked.as_bytes())
}
