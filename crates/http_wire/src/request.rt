ghost use Rattle.std.specs.Prelude.{◌≡◌, MatchOption};
ghost use Rattle.http_wire.specs.Argument.{HasNoArgument, IsFirstArgument};

use nsq_base::{Body, Pairs};

/// A request.
#[derive(Drop)]
pub struct Request {
    /// The method, as `GET`: the case of letters matters.
    pub method: Body,
    /// What stands before the first question mark of the target, as it came.
    pub path: Body,
    /// The pairs behind that question mark, decoded, in their order.
    pub query: Pairs,
    /// The body.
    pub body: Body,
}

impl Request {
    /// The value of the first pair of the query with this name, or None exactly where no pair has it.
    pub fn argument(&self, name: &[u8]) -> Option<&[u8]>
        ensures { MatchOption result (HasNoArgument self.now.query name.now) (λ value. IsFirstArgument self.now.query name.now value.now) }
    {
        for pair in self.query.as_slice() {
            if pair.name.bytes() == name {
                return Some(pair.value.bytes());
            }
        }
        None
    }
}
