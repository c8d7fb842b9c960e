use crate::same;
use http_wire::{GotRequest, Request, RequestReader};
use nsq_base::Pairs;
use std::alloc::Global;
use streams_plain::{Plain, request_of};

/// Whether the two say the same.
fn is_same(one: &Plain, other: &Plain) -> bool {
    match (one, other) {
        (Plain::Whole(one), Plain::Whole(other)) => is_same_request(one, other),
        (Plain::Unfinished, Plain::Unfinished)
        | (Plain::BadHead, Plain::BadHead)
        | (Plain::NoLength, Plain::NoLength)
        | (Plain::TooBig, Plain::TooBig) => true,
        _ => false,
    }
}

fn is_same_request(one: &Request, other: &Request) -> bool {
    same(one.method.bytes(), other.method.bytes())
        && same(one.path.bytes(), other.path.bytes())
        && are_same_pairs(&one.query, &other.query)
        && same(one.body.bytes(), other.body.bytes())
}

fn are_same_pairs(one: &Pairs, other: &Pairs) -> bool {
    let mut all = one.count() == other.count();
    for (one, other) in one.as_slice().iter().zip(other.as_slice()) {
        all &= same(one.name.bytes(), other.name.bytes())
            && same(one.value.bytes(), other.value.bytes());
    }
    all
}

/// How many bytes a row may have to be cut at each place.
const SHORT: usize = 700;

/// How far apart the cuts of a longer row are, but for those near its end.
const STEP: usize = 1021;

/// What the reader gives now, where there is memory.
fn next(reader: &mut RequestReader) -> Option<Plain> {
    match reader.next() {
        GotRequest::Whole(request) => Some(Plain::Whole(request)),
        GotRequest::More => Some(Plain::Unfinished),
        GotRequest::BadHead => Some(Plain::BadHead),
        GotRequest::NoLength => Some(Plain::NoLength),
        GotRequest::TooBig => Some(Plain::TooBig),
        GotRequest::Memory => None,
    }
}

/// Whether a row of so many bytes is cut at the place.
fn is_cut(length: usize, place: usize) -> bool {
    length <= SHORT || place % STEP == 0 || place.saturating_add(6) >= length
}

/// Whether there is memory for what the reader gives now.
fn is_asked(reader: &mut RequestReader) -> bool {
    let got = reader.next();
    let is_asked = !matches!(got, GotRequest::Memory);
    drop(got);
    is_asked
}

/// Whether the reader gives this now.
fn gives(reader: &mut RequestReader, wanted: &Plain) -> bool {
    match next(reader) {
        Some(plain) => is_same(&plain, wanted),
        None => false,
    }
}

/// Whether the reader gives now what the plain program does for these bytes.
fn gives_plain(alloc: Global, limit: u32, reader: &mut RequestReader, bytes: &[u8]) -> bool {
    match request_of(alloc, limit, bytes) {
        Ok(plain) => gives(reader, &plain),
        Err(_) => false,
    }
}

/// Whether there is memory for a further piece.
fn feeds(reader: &mut RequestReader, piece: &[u8]) -> bool {
    reader.feed(piece).is_ok()
}

/// Whether the reader gives what the plain program does for the first piece, and what is wanted for both, twice, and also
/// behind further bytes where it isn't unfinished.
fn gives_two(
    alloc: Global,
    limit: u32,
    reader: &mut RequestReader,
    pieces: (&[u8], &[u8]),
    wanted: &Plain,
) -> bool {
    let (one, two) = pieces;
    let first = feeds(reader, one) & gives_plain(alloc, limit, reader, one);
    let both = feeds(reader, two) & gives(reader, wanted) & gives(reader, wanted);
    let more = feeds(reader, b"\r\n\r\nmore");
    first & both & more & (matches!(wanted, Plain::Unfinished) || gives(reader, wanted))
}

/// Whether a new reader gives what it must for two pieces.
fn reads_two(alloc: Global, limit: u32, pieces: (&[u8], &[u8]), wanted: &Plain) -> bool {
    match RequestReader::new(alloc, limit) {
        Ok(mut reader) => gives_two(alloc, limit, &mut reader, pieces, wanted),
        Err(_) => false,
    }
}

/// Whether the row holds at each place where it is cut.
fn in_two_pieces(alloc: Global, limit: u32, bytes: &[u8], wanted: &Plain) -> bool {
    for place in 0..bytes.len().saturating_add(1) {
        let pieces = bytes.split_at(place.min(bytes.len()));
        if is_cut(bytes.len(), place) && !reads_two(alloc, limit, pieces, wanted) {
            return false;
        }
    }
    true
}

/// Whether the reader, asked behind the byte at the place, gives what the plain program does for the bytes so far, where
/// the row is cut there.
fn gives_one(
    alloc: Global,
    limit: u32,
    reader: &mut RequestReader,
    bytes: &[u8],
    place: usize,
) -> bool {
    if !is_cut(bytes.len(), place) {
        return is_asked(reader);
    }
    let (front, _) = bytes.split_at(place.saturating_add(1).min(bytes.len()));
    gives_plain(alloc, limit, reader, front)
}

/// Whether the reader, fed one byte a piece and asked behind each, gives what is wanted in the end, and before that what the
/// plain program does.
fn gives_bytes(
    alloc: Global,
    limit: u32,
    reader: &mut RequestReader,
    bytes: &[u8],
    wanted: &Plain,
) -> bool {
    let mut all = is_asked(reader);
    for (place, byte) in bytes.iter().enumerate() {
        all &= feeds(reader, &[*byte]);
        all = all && gives_one(alloc, limit, reader, bytes, place);
    }
    all && gives(reader, wanted)
}

/// Whether a new reader gives what it must for pieces of one byte.
fn reads_bytes(alloc: Global, limit: u32, bytes: &[u8], wanted: &Plain) -> bool {
    match RequestReader::new(alloc, limit) {
        Ok(mut reader) => gives_bytes(alloc, limit, &mut reader, bytes, wanted),
        Err(_) => false,
    }
}

/// Whether the reader gives what is wanted: at each cut into two pieces, and byte by byte.
pub(crate) fn is_read(alloc: Global, limit: u32, bytes: &[u8], wanted: &Plain) -> bool {
    reads_bytes(alloc, limit, bytes, wanted) && in_two_pieces(alloc, limit, bytes, wanted)
}
