//! Rows of what stands by itself below the broker: the outside, by its fakes in memory and by its adapters over real sockets, files and the
//! system's clock; base types, the V2 stream, IDENTIFY, HTTP and the turnstile. A row has its name, what goes in and what must come out.
//! There is nothing here but tests, so that a row is only ever proved here.
#![tactic(auto)]

#[cfg(test)]
mod base;
#[cfg(test)]
mod fakes;
#[cfg(test)]
mod files;
#[cfg(test)]
mod folder_steps;
#[cfg(test)]
mod http;
#[cfg(test)]
mod identify;
#[cfg(test)]
mod sockets;
#[cfg(test)]
mod stream;
#[cfg(test)]
mod text;
#[cfg(test)]
mod turnstiles;
#[cfg(test)]
mod words;

#[cfg(test)]
use std::process::Abort;

/// Whether the bytes are the same.
#[cfg(test)]
pub(crate) fn same(one: &[u8], other: &[u8]) -> bool {
    one == other
}

/// Ends the run where a row doesn't hold, and names it.
#[cfg(test)]
pub(crate) fn check(rt: &impl Abort, holds: bool, name: &str) {
    assert!(rt; holds, "{}", name);
}
