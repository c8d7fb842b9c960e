ghost use Rattle.http_wire.specs.Laws.{OneRequest, RequestsStay};

/// The bytes of a connection so far are one thing at most: a request, the beginning of one, or one of the refusals. It does
/// nothing: its contract is the law.
pub fn one_request()
    ensures { OneRequest }
{}

/// A request that is whole stays the same, and a refusal stays, whatever bytes come behind.
pub fn requests_stay()
    ensures { RequestsStay }
{}
