use crate::{HttpAnswer, Refusal};
use broker_history::Ask;

/// What a request is by itself, before anything is asked of the daemon.
#[derive(Drop)]
pub enum HttpCall {
    /// It is refused.
    Refused(Refusal),
    /// It is answered at once.
    Answered(HttpAnswer),
    /// It asks this of the daemon.
    Asks(Ask),
    /// It stops the daemon.
    Stops,
}
