//! Rows of queues on disk, of backlogs, of a topic's queue and of a data path: worked examples of their files and of their calls, and
//! random calls beside a plain list. It has nothing but tests.
#![tactic(auto)]

#[cfg(test)]
use std::process::Abort;

#[cfg(test)]
mod faults;
#[cfg(test)]
mod folders;
#[cfg(test)]
mod image;
#[cfg(test)]
mod opening;
#[cfg(test)]
mod order;
#[cfg(test)]
mod path;
#[cfg(test)]
mod plain;
#[cfg(test)]
mod reading;
#[cfg(test)]
mod room;
#[cfg(test)]
mod script;
#[cfg(test)]
mod stand;
#[cfg(test)]
mod text;
#[cfg(test)]
mod topic;
#[cfg(test)]
mod waiting;
#[cfg(test)]
mod writing;

// Whether the bytes are the same.
#[cfg(test)]
pub(crate) fn same(one: &[u8], other: &[u8]) -> bool {
    one == other
}

// Whether the words are the same.
#[cfg(test)]
pub(crate) fn is(one: &str, other: &str) -> bool {
    one == other
}

// Stops the test where the row of that name doesn't hold.
#[cfg(test)]
pub(crate) fn check(rt: &impl Abort, holds: bool, name: &str) {
    assert!(rt; holds, "{}", name);
}
