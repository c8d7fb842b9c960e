//! The rows.

use super::holds;
use crate::made::{check, unknown};
use std::process::Abort;

// One copy is in flight, one queued, one deferred.
const HELD: &str =
    "1 4 10000 clients: topics: t on 4 waiting taken / c on 3 1 0 deferred a1 5, in-flight b1 7 9, queued c0";

const PAUSED: &str = "1 4 10000 clients: topics: t on 4 waiting taken / c paused 0 0 0";

const DONE: &str =
    "1 4 10000 clients: topics: t on 4 waiting taken / c on 2 0 0 finished a1, emptied b1";

const TAKEN: &str = "1 4 10000 clients: topics: t on 4 waiting d0 taken c0 / c on 0 0 0";

const EPHEMERAL: &str =
    "1 4 10000 clients: topics: t on 4 waiting d0 taken / x#ephemeral on 1 0 0 queued a1; v#ephemeral on 4 waiting d0 taken / c on 0 0 0";

static ROWS: &'static str = "
a queued copy, one in flight and one deferred
        left: held / LISTED / t:c c0 b1 a1

the same in another order
        left: held / LISTED / t:c a1 b1 c0

a stop that forgets the copy in flight
        not left: held / LISTED / t:c c0 a1

a stop that forgets the deferred copy
        not left: held / LISTED / t:c c0 b1

a stop that forgets the queued copy
        not left: held / LISTED / t:c b1 a1

a stop that forgets attempts
        not left: held / LISTED / t:c c0 b1 a0

a copy that is left twice
        not left: held / LISTED / t:c c0 b1 a1 a1

a copy that is left twice in place of another
        not left: held / LISTED / t:c c0 b1 b1

a channel that the file of names doesn't list
        not left: held / TOPIC_ALONE / t:c c0 b1 a1

a channel's pause that is forgotten
        not left: paused / LISTED

a channel's pause that is kept
        left: paused / LISTED_PAUSED

another run's epoch
        not left: held / NEXT_EPOCH / t:c c0 b1 a1

copies that are done with
        left: done / LISTED

a copy that is done with and is left
        not left: done / LISTED / t:c a1

a waiting message and the taken one
        left: taken / LISTED / t d0 c0

a stop that forgets the taken message
        not left: taken / LISTED / t d0

a stop that forgets the waiting message
        not left: taken / LISTED / t c0

the taken message, left in the channel
        not left: taken / LISTED / t d0 / t:c c0

what is ephemeral isn't left
        left: ephemeral / TOPIC_ALONE / t d0

a topic that isn't listed
        not left: ephemeral / NOTHING / t d0

files of a topic that isn't there
        left: ephemeral / TOPIC_ALONE / t d0 / u a1
";

/// The state that a run ended in: with one copy in flight, one queued and one deferred; with a paused channel; with copies that are done with; with a
/// waiting message and a taken one; or with what waits and what is ephemeral.
pub fn given_of(rt: &impl Abort, word: &str) -> &'static str {
    match word {
        "held" => HELD,
        "paused" => PAUSED,
        "done" => DONE,
        "taken" => TAKEN,
        "ephemeral" => EPHEMERAL,
        _ => unknown(rt, word),
    }
}

#[test]
fn rows(rt: HostRuntime) {
    for row in ROWS.trim().split("\n\n") {
        check(&rt, holds(&rt, rt.alloc(), row), row);
    }
}
