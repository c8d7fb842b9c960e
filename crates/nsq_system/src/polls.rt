use mio::{Events, Poll};
use std::alloc::Global;
use std::io;
use std::net::Net;

/// A poll, and room for so many of the events that it tells at once.
pub fn new_poll<N: Net>(rt: &N, alloc: Global, most: usize) -> io::Result<(Poll, Events)> {
    let poll = Poll::new(rt)?;
    Ok((poll, Events::with_capacity(alloc, most)?))
}
