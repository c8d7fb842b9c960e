use crate::bytes::halves;
use crate::head::{Head, head_end, read_head};
use crate::query::read_query;
use http_wire::Request;
use nsq_base::{Body, Memory};
use std::alloc::Global;

/// The most bytes of a head.
const LONGEST_HEAD: usize = 16384;

/// What all bytes so far are.
#[derive(Drop)]
pub enum Plain {
    /// A request, and perhaps bytes behind it.
    Whole(Request),
    /// The beginning of one.
    Unfinished,
    /// No request begins so.
    BadHead,
    /// The body comes in another form than so many bytes.
    NoLength,
    /// The body is longer than the limit.
    TooBig,
}

/// What the bytes are, for bodies of at most so many bytes. Want of memory is the only error.
pub fn request_of(alloc: Global, limit: u32, bytes: &[u8]) -> Result<Plain, Memory> {
    let seen = &bytes[..bytes.len().min(LONGEST_HEAD)];
    let Some(end) = head_end(seen) else {
        return Ok(if bytes.len() < LONGEST_HEAD {
            Plain::Unfinished
        } else {
            Plain::BadHead
        });
    };
    let (head, behind) = bytes.split_at(end.min(bytes.len()));
    let Some(head) = read_head(head) else {
        return Ok(Plain::BadHead);
    };
    with_head(alloc, limit, &head, behind)
}

/// What the bytes are whose head is this, and behind which these stand.
fn with_head(alloc: Global, limit: u32, head: &Head, behind: &[u8]) -> Result<Plain, Memory> {
    if head.lengths > 1 {
        return Ok(Plain::BadHead);
    }
    let Some(size) = number_of(head.length) else {
        return Ok(Plain::BadHead);
    };
    if head.coded {
        return Ok(Plain::NoLength);
    }
    if size > u64::from(limit) {
        return Ok(Plain::TooBig);
    }
    let size = size as usize;
    if behind.len() < size {
        return Ok(Plain::Unfinished);
    }
    Ok(Plain::Whole(whole(alloc, head, &behind[..size])?))
}

/// The request of a head and a body.
fn whole(alloc: Global, head: &Head, body: &[u8]) -> Result<Request, Memory> {
    let (path, query) = halves(head.target, b'?');
    let method = Body::copy(alloc, head.method)?;
    let path = Body::copy(alloc, path)?;
    made_request(alloc, method, path, query, body)
}

/// The request of a method, a path, and what it has behind these.
fn made_request(
    alloc: Global,
    method: Body,
    path: Body,
    query: &[u8],
    body: &[u8],
) -> Result<Request, Memory> {
    let query = read_query(alloc, query)?;
    let body = Body::copy(alloc, body)?;
    Ok(Request {
        method,
        path,
        query,
        body,
    })
}

/// The number that the digits spell, or None where they aren't 1 to 18 digits.
fn number_of(digits: &[u8]) -> Option<u64> {
    if digits.is_empty() || digits.len() > 18 {
        return None;
    }
    let mut number: u64 = 0;
    for digit in digits {
        if !digit.is_ascii_digit() {
            return None;
        }
        let units = u64::from(digit.saturating_sub(b'0'));
        number = number.saturating_mul(10).saturating_add(units);
    }
    Some(number)
}
