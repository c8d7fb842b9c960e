ghost use Rattle.std.specs.Prelude.{◌≡◌, ◌++◌, [], ℕ, List, IsOkAnd, OnOk, OnErr};
ghost use Rattle.http_wire.specs.Finding.{Finds};
ghost use Rattle.http_wire.specs.Reading.{Gives};
ghost use Rattle.http_wire.specs.Remembering.{Waits};

use crate::GotRequest;
use crate::found::{Found, find};
use crate::search::{LONGEST_HEAD, Search, find_end};
use nsq_base::Memory;
use std::alloc::Global;
use std::marker::Model;

/// A reader of the first request of a connection, whose bytes come in pieces. It keeps all that it is fed and asks for no more
/// memory than that, whatever length a head announces. It looks for the end of the head once at each byte, and reads the head
/// again only where the body came behind it in a further piece. Whoever reads stops feeding once something else than More was
/// given: then no more is kept than a head, a body within the limit, and a piece.
#[derive(Drop)]
pub struct RequestReader {
    alloc: Global,
    limit: u32,
    // All bytes that were fed, in their order.
    bytes: Vec<u8>,
    // How far the end of the head was searched for.
    search: Search,
    // How many bytes have to be there before anything more is found, so that a head isn't read again for each piece of a body.
    needed: usize,
}

impl Model for RequestReader {
    ghost use Rattle.http_wire.specs.Reading.{Fed};
    ghost use Rattle.http_wire.specs.Remembering.{Remembers};

    ghost Value = { Fed };

    ghost view = { λ r. record { limit = r.limit; bytes = r.bytes.items } };

    ghost invariant = { λ r. Remembers r.limit r.bytes.items r.search r.needed };
}

impl RequestReader {
    /// A reader of a connection of which nothing has come yet, for bodies of at most so many bytes. Takes no memory, and never
    /// fails.
    pub fn new(alloc: Global, limit: u32) -> Result<RequestReader, Memory>
        ensures { IsOkAnd result (λ reader. reader ≡ record { limit = limit; bytes = [] }) }
    {
        Ok(RequestReader {
            alloc,
            limit,
            bytes: Vec::new(alloc),
            search: Search::new(),
            needed: 0,
        })
    }

    /// Takes a further piece. After Memory the reader is as before, and the piece can be fed again.
    pub fn feed(&mut self, piece: &[u8]) -> Result<(), Memory>
        ensures ok { OnOk result (self.new ≡ record self.old { bytes = self.old.bytes ++ piece.now }) }
        ensures err { OnErr result (self.new ≡ self.old) }
    {
        self.bytes.extend_from_slice(piece)?;
        Ok(())
    }

    /// The request that all bytes fed so far are, whatever the pieces were, or that more has to be fed for it, or why there is
    /// none. A refusal and a request that is whole are given again at each further call. Memory comes only where the request is
    /// whole.
    pub fn next(&mut self) -> GotRequest
        ensures given { Gives self.old.limit self.old.bytes result }
        ensures same { self.new ≡ self.old }
    {
        if self.bytes.len() < self.needed {
            return GotRequest::More;
        }
        let (search, end) = find_end(&self.bytes, self.search);
        self.search = search;
        let Some(end) = end else {
            if self.bytes.len() < LONGEST_HEAD {
                return GotRequest::More;
            }
            return GotRequest::BadHead;
        };
        let found = find(self.alloc, self.limit, &self.bytes, end);
        given(found, &mut self.needed)
    }
}

/// What is given for what was found. How many bytes a body needs that isn't whole is kept.
fn given(found: Found, needed: &mut usize) -> GotRequest
    ensures given { (limit : ℕ) (bytes : List ℕ) → Finds limit bytes found → Gives limit bytes result }
    ensures waits { (limit : ℕ) (bytes : List ℕ) → Finds limit bytes found → Waits limit bytes needed.old → Waits limit bytes needed.new }
{
    match found {
        Found::Whole(request) => GotRequest::Whole(request),
        Found::Open(more) => {
            *needed = more;
            GotRequest::More
        }
        Found::BadHead => GotRequest::BadHead,
        Found::NoLength => GotRequest::NoLength,
        Found::TooBig => GotRequest::TooBig,
        Found::Memory => GotRequest::Memory,
    }
}
