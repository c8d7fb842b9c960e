ghost use Rattle.std.specs.Prelude.{◌≡◌, ◌≤◌, IfOk, IsErr, ◌+◌, ◌<◌, ℕ, length, take, drop};
ghost use Rattle.httparse.specs.Grammar.{RequestHead};
ghost use Rattle.http_wire.specs.Finding.{Finds};
ghost use Rattle.http_wire.specs.Head.{longest_head, EndsAt};
ghost use Rattle.http_wire.specs.Target.{path_of, query_of, pairs_of};

use crate::Request;
use crate::head::{Head, read_head};
use crate::query::{read_query, split_target};
use nsq_base::{Body, Memory};
use std::alloc::Global;

/// What stands at the front of bytes whose head has come.
#[derive(Drop)]
pub(crate) enum Found {
    /// A request.
    Whole(Request),
    /// A good head, and so many bytes have to be there before its body is whole.
    Open(usize),
    /// A bad head.
    BadHead,
    /// A body in another form than so many bytes.
    NoLength,
    /// A body that is longer than the limit.
    TooBig,
    /// A request for which memory is wanting.
    Memory,
}

/// What stands at the front of the bytes, for a greatest body, where the head ends at this place.
pub(crate) fn find(alloc: Global, limit: u32, bytes: &[u8], end: usize) -> Found
    requires ends { EndsAt bytes.now end }
    requires within { end ≤ longest_head }
    ensures { Finds limit bytes.now result }
{
    let Some(head) = read_head(&bytes[..end]) else {
        return Found::BadHead;
    };
    if head.coded {
        return Found::NoLength;
    }
    if head.size > u64::from(limit) {
        return Found::TooBig;
    }
    let behind = &bytes[end..];
    let size = head.size as usize;
    if behind.len() < size {
        return Found::Open(end + size);
    }
    match copy_request(alloc, &head, &behind[..size]) {
        Ok(request) => Found::Whole(request),
        Err(Memory) => Found::Memory,
    }
}

/// The request of a head and a body.
fn copy_request(alloc: Global, head: &Head, body: &[u8]) -> Result<Request, Memory>
    ensures { IfOk result (λ request. request ≡ record { method = head.now.method.now; path = path_of head.now.target.now; query = pairs_of (query_of head.now.target.now); body = body.now }) }
{
    let (path, query) = split_target(head.target);
    let method = Body::copy(alloc, head.method)?;
    let path = Body::copy(alloc, path)?;
    made_request(alloc, method, path, query, body)
}

/// The request of a method, a path, and what it has behind these.
fn made_request(
    alloc: Global,
    method: Body,
    path: Body,
    query: &[u8],
    body: &[u8],
) -> Result<Request, Memory>
    ensures { IfOk result (λ request. request ≡ record { method = method; path = path; query = pairs_of query.now; body = body.now }) }
{
    let query = read_query(alloc, query)?;
    let body = Body::copy(alloc, body)?;
    Ok(Request {
        method,
        path,
        query,
        body,
    })
}
