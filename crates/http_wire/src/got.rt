use crate::Request;

/// What a reader gives.
#[derive(Drop)]
pub enum GotRequest {
    /// The request.
    Whole(Request),
    /// The request isn't whole yet, and nothing speaks against it so far: feed a further piece.
    More,
    /// No request begins so: its head has more than 16,384 bytes or more than 64 fields, or isn't a request's, or its body's
    /// length is said twice, or isn't a number of 1 to 18 digits.
    BadHead,
    /// The body comes in another form than as many bytes as the head says (`Transfer-Encoding`).
    NoLength,
    /// The body is longer than the limit.
    TooBig,
    /// Memory is wanting for the request, which is whole. Nothing is lost: ask again.
    Memory,
}
