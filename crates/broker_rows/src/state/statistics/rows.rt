//! The rows.

use super::holds;
use crate::made::check;

static ROWS: &'static str = "
all of it
        told for * *: t backend 2 depth 3 count 9 / busy backend 1 depth 2 deferred 1 in_flight 2 count 7 requeued 1 timed_out 2
            + seven finished 2 in_flight 1 sent 4 ready 3 requeued 1 + nine in_flight 1 sent 1 ready 1 / empty paused
            / x#ephemeral depth 1 count 1; u#ephemeral depth 1 count 2 paused / y depth 1 count 1

all that waits in the topic is on disk
        told for * *: t backend 3 depth 3 count 9 / busy backend 1 depth 2 deferred 1 in_flight 2 count 7 requeued 1 timed_out 2
            + seven finished 2 in_flight 1 sent 4 ready 3 requeued 1 + nine in_flight 1 sent 1 ready 1 / empty paused
            / x#ephemeral depth 1 count 1; u#ephemeral depth 1 count 2 paused / y depth 1 count 1

more is in memory than finds room there
        not told for * *: t backend 1 depth 3 count 9 / busy backend 1 depth 2 deferred 1 in_flight 2 count 7 requeued 1 timed_out 2
            + seven finished 2 in_flight 1 sent 4 ready 3 requeued 1 + nine in_flight 1 sent 1 ready 1 / empty paused
            / x#ephemeral depth 1 count 1; u#ephemeral depth 1 count 2 paused / y depth 1 count 1

more is on disk than waits
        not told for * *: t backend 4 depth 3 count 9 / busy backend 1 depth 2 deferred 1 in_flight 2 count 7 requeued 1 timed_out 2
            + seven finished 2 in_flight 1 sent 4 ready 3 requeued 1 + nine in_flight 1 sent 1 ready 1 / empty paused
            / x#ephemeral depth 1 count 1; u#ephemeral depth 1 count 2 paused / y depth 1 count 1

the taken message is counted as waiting
        not told for * *: t backend 2 depth 4 count 9 / busy backend 1 depth 2 deferred 1 in_flight 2 count 7 requeued 1 timed_out 2
            + seven finished 2 in_flight 1 sent 4 ready 3 requeued 1 + nine in_flight 1 sent 1 ready 1 / empty paused
            / x#ephemeral depth 1 count 1; u#ephemeral depth 1 count 2 paused / y depth 1 count 1

another count of the topic's messages
        not told for * *: t backend 2 depth 3 count 8 / busy backend 1 depth 2 deferred 1 in_flight 2 count 7 requeued 1 timed_out 2
            + seven finished 2 in_flight 1 sent 4 ready 3 requeued 1 + nine in_flight 1 sent 1 ready 1 / empty paused
            / x#ephemeral depth 1 count 1; u#ephemeral depth 1 count 2 paused / y depth 1 count 1

a pause that isn't
        not told for * *: t backend 2 depth 3 count 9 paused
            / busy backend 1 depth 2 deferred 1 in_flight 2 count 7 requeued 1 timed_out 2
            + seven finished 2 in_flight 1 sent 4 ready 3 requeued 1 + nine in_flight 1 sent 1 ready 1 / empty paused
            / x#ephemeral depth 1 count 1; u#ephemeral depth 1 count 2 paused / y depth 1 count 1

a message of an ephemeral topic is on disk
        not told for * *: t backend 2 depth 3 count 9 / busy backend 1 depth 2 deferred 1 in_flight 2 count 7 requeued 1 timed_out 2
            + seven finished 2 in_flight 1 sent 4 ready 3 requeued 1 + nine in_flight 1 sent 1 ready 1 / empty paused
            / x#ephemeral depth 1 count 1; u#ephemeral backend 1 depth 1 count 2 paused / y depth 1 count 1

all queued copies are on disk
        told for * *: t backend 2 depth 3 count 9 / busy backend 2 depth 2 deferred 1 in_flight 2 count 7 requeued 1 timed_out 2
            + seven finished 2 in_flight 1 sent 4 ready 3 requeued 1 + nine in_flight 1 sent 1 ready 1 / empty paused
            / x#ephemeral depth 1 count 1; u#ephemeral depth 1 count 2 paused / y depth 1 count 1

more copies are in memory than find room there
        not told for * *: t backend 2 depth 3 count 9 / busy depth 2 deferred 1 in_flight 2 count 7 requeued 1 timed_out 2
            + seven finished 2 in_flight 1 sent 4 ready 3 requeued 1 + nine in_flight 1 sent 1 ready 1 / empty paused
            / x#ephemeral depth 1 count 1; u#ephemeral depth 1 count 2 paused / y depth 1 count 1

more copies are on disk than are queued
        not told for * *: t backend 2 depth 3 count 9 / busy backend 3 depth 2 deferred 1 in_flight 2 count 7 requeued 1 timed_out 2
            + seven finished 2 in_flight 1 sent 4 ready 3 requeued 1 + nine in_flight 1 sent 1 ready 1 / empty paused
            / x#ephemeral depth 1 count 1; u#ephemeral depth 1 count 2 paused / y depth 1 count 1

copies in flight are counted as queued
        not told for * *: t backend 2 depth 3 count 9 / busy backend 1 depth 4 deferred 1 in_flight 2 count 7 requeued 1 timed_out 2
            + seven finished 2 in_flight 1 sent 4 ready 3 requeued 1 + nine in_flight 1 sent 1 ready 1 / empty paused
            / x#ephemeral depth 1 count 1; u#ephemeral depth 1 count 2 paused / y depth 1 count 1

a deferred copy isn't counted
        not told for * *: t backend 2 depth 3 count 9 / busy backend 1 depth 2 in_flight 2 count 7 requeued 1 timed_out 2
            + seven finished 2 in_flight 1 sent 4 ready 3 requeued 1 + nine in_flight 1 sent 1 ready 1 / empty paused
            / x#ephemeral depth 1 count 1; u#ephemeral depth 1 count 2 paused / y depth 1 count 1

a deferred copy is counted as in flight
        not told for * *: t backend 2 depth 3 count 9 / busy backend 1 depth 2 deferred 1 in_flight 3 count 7 requeued 1 timed_out 2
            + seven finished 2 in_flight 1 sent 4 ready 3 requeued 1 + nine in_flight 1 sent 1 ready 1 / empty paused
            / x#ephemeral depth 1 count 1; u#ephemeral depth 1 count 2 paused / y depth 1 count 1

a dropped copy is counted as joined
        not told for * *: t backend 2 depth 3 count 9 / busy backend 1 depth 2 deferred 1 in_flight 2 count 8 requeued 1 timed_out 2
            + seven finished 2 in_flight 1 sent 4 ready 3 requeued 1 + nine in_flight 1 sent 1 ready 1 / empty paused
            / x#ephemeral depth 1 count 1; u#ephemeral depth 1 count 2 paused / y depth 1 count 1

another count of copies given back
        not told for * *: t backend 2 depth 3 count 9 / busy backend 1 depth 2 deferred 1 in_flight 2 count 7 requeued 2 timed_out 2
            + seven finished 2 in_flight 1 sent 4 ready 3 requeued 1 + nine in_flight 1 sent 1 ready 1 / empty paused
            / x#ephemeral depth 1 count 1; u#ephemeral depth 1 count 2 paused / y depth 1 count 1

another count of timeouts
        not told for * *: t backend 2 depth 3 count 9 / busy backend 1 depth 2 deferred 1 in_flight 2 count 7 requeued 1 timed_out 1
            + seven finished 2 in_flight 1 sent 4 ready 3 requeued 1 + nine in_flight 1 sent 1 ready 1 / empty paused
            / x#ephemeral depth 1 count 1; u#ephemeral depth 1 count 2 paused / y depth 1 count 1

a channel's pause that isn't
        not told for * *: t backend 2 depth 3 count 9
            / busy backend 1 depth 2 deferred 1 in_flight 2 count 7 requeued 1 timed_out 2 paused
            + seven finished 2 in_flight 1 sent 4 ready 3 requeued 1 + nine in_flight 1 sent 1 ready 1 / empty paused
            / x#ephemeral depth 1 count 1; u#ephemeral depth 1 count 2 paused / y depth 1 count 1

a copy of an ephemeral channel is on disk
        not told for * *: t backend 2 depth 3 count 9 / busy backend 1 depth 2 deferred 1 in_flight 2 count 7 requeued 1 timed_out 2
            + seven finished 2 in_flight 1 sent 4 ready 3 requeued 1 + nine in_flight 1 sent 1 ready 1 / empty paused
            / x#ephemeral backend 1 depth 1 count 1; u#ephemeral depth 1 count 2 paused / y depth 1 count 1

a copy of an ephemeral topic's channel is on disk
        not told for * *: t backend 2 depth 3 count 9 / busy backend 1 depth 2 deferred 1 in_flight 2 count 7 requeued 1 timed_out 2
            + seven finished 2 in_flight 1 sent 4 ready 3 requeued 1 + nine in_flight 1 sent 1 ready 1 / empty paused
            / x#ephemeral depth 1 count 1; u#ephemeral depth 1 count 2 paused / y backend 1 depth 1 count 1

another count of finished messages
        not told for * *: t backend 2 depth 3 count 9 / busy backend 1 depth 2 deferred 1 in_flight 2 count 7 requeued 1 timed_out 2
            + seven finished 1 in_flight 1 sent 4 ready 3 requeued 1 + nine in_flight 1 sent 1 ready 1 / empty paused
            / x#ephemeral depth 1 count 1; u#ephemeral depth 1 count 2 paused / y depth 1 count 1

another client's copies in flight are counted too
        not told for * *: t backend 2 depth 3 count 9 / busy backend 1 depth 2 deferred 1 in_flight 2 count 7 requeued 1 timed_out 2
            + seven finished 2 in_flight 2 sent 4 ready 3 requeued 1 + nine in_flight 1 sent 1 ready 1 / empty paused
            / x#ephemeral depth 1 count 1; u#ephemeral depth 1 count 2 paused / y depth 1 count 1

another client's sendings
        not told for * *: t backend 2 depth 3 count 9 / busy backend 1 depth 2 deferred 1 in_flight 2 count 7 requeued 1 timed_out 2
            + seven finished 2 in_flight 1 sent 1 ready 3 requeued 1 + nine in_flight 1 sent 1 ready 1 / empty paused
            / x#ephemeral depth 1 count 1; u#ephemeral depth 1 count 2 paused / y depth 1 count 1

another client's RDY
        not told for * *: t backend 2 depth 3 count 9 / busy backend 1 depth 2 deferred 1 in_flight 2 count 7 requeued 1 timed_out 2
            + seven finished 2 in_flight 1 sent 4 ready 1 requeued 1 + nine in_flight 1 sent 1 ready 1 / empty paused
            / x#ephemeral depth 1 count 1; u#ephemeral depth 1 count 2 paused / y depth 1 count 1

another count of messages given back by the client
        not told for * *: t backend 2 depth 3 count 9 / busy backend 1 depth 2 deferred 1 in_flight 2 count 7 requeued 1 timed_out 2
            + seven finished 2 in_flight 1 sent 4 ready 3 + nine in_flight 1 sent 1 ready 1 / empty paused
            / x#ephemeral depth 1 count 1; u#ephemeral depth 1 count 2 paused / y depth 1 count 1

another client's name
        not told for * *: t backend 2 depth 3 count 9 / busy backend 1 depth 2 deferred 1 in_flight 2 count 7 requeued 1 timed_out 2
            + nine finished 2 in_flight 1 sent 4 ready 3 requeued 1 + nine in_flight 1 sent 1 ready 1 / empty paused
            / x#ephemeral depth 1 count 1; u#ephemeral depth 1 count 2 paused / y depth 1 count 1

a client whose channel was deleted
        not told for * *: t backend 2 depth 3 count 9 / busy backend 1 depth 2 deferred 1 in_flight 2 count 7 requeued 1 timed_out 2
            + seven finished 2 in_flight 1 sent 4 ready 3 requeued 1 + eight ready 2 + nine in_flight 1 sent 1 ready 1 / empty paused
            / x#ephemeral depth 1 count 1; u#ephemeral depth 1 count 2 paused / y depth 1 count 1

a closing client isn't told
        not told for * *: t backend 2 depth 3 count 9 / busy backend 1 depth 2 deferred 1 in_flight 2 count 7 requeued 1 timed_out 2
            + seven finished 2 in_flight 1 sent 4 ready 3 requeued 1 / empty paused / x#ephemeral depth 1 count 1;
            u#ephemeral depth 1 count 2 paused / y depth 1 count 1

clients in another order
        not told for * *: t backend 2 depth 3 count 9 / busy backend 1 depth 2 deferred 1 in_flight 2 count 7 requeued 1 timed_out 2
            + nine in_flight 1 sent 1 ready 1 + seven finished 2 in_flight 1 sent 4 ready 3 requeued 1 / empty paused
            / x#ephemeral depth 1 count 1; u#ephemeral depth 1 count 2 paused / y depth 1 count 1

a channel isn't told
        not told for * *: t backend 2 depth 3 count 9 / busy backend 1 depth 2 deferred 1 in_flight 2 count 7 requeued 1 timed_out 2
            + seven finished 2 in_flight 1 sent 4 ready 3 requeued 1 + nine in_flight 1 sent 1 ready 1 / empty paused

topics in another order
        not told for * *: u#ephemeral depth 1 count 2 paused / y depth 1 count 1; t backend 2 depth 3 count 9
            / busy backend 1 depth 2 deferred 1 in_flight 2 count 7 requeued 1 timed_out 2
            + seven finished 2 in_flight 1 sent 4 ready 3 requeued 1 + nine in_flight 1 sent 1 ready 1 / empty paused
            / x#ephemeral depth 1 count 1

a topic isn't told
        not told for * *: t backend 2 depth 3 count 9 / busy backend 1 depth 2 deferred 1 in_flight 2 count 7 requeued 1 timed_out 2
            + seven finished 2 in_flight 1 sent 4 ready 3 requeued 1 + nine in_flight 1 sent 1 ready 1 / empty paused
            / x#ephemeral depth 1 count 1

nothing is told
        not told for * *:

one topic is asked for
        told for t *: t backend 2 depth 3 count 9 / busy backend 1 depth 2 deferred 1 in_flight 2 count 7 requeued 1 timed_out 2
            + seven finished 2 in_flight 1 sent 4 ready 3 requeued 1 + nine in_flight 1 sent 1 ready 1 / empty paused
            / x#ephemeral depth 1 count 1

one topic is asked for, and all are told
        not told for t *: t backend 2 depth 3 count 9 / busy backend 1 depth 2 deferred 1 in_flight 2 count 7 requeued 1 timed_out 2
            + seven finished 2 in_flight 1 sent 4 ready 3 requeued 1 + nine in_flight 1 sent 1 ready 1 / empty paused
            / x#ephemeral depth 1 count 1; u#ephemeral depth 1 count 2 paused / y depth 1 count 1

one channel of a topic is asked for
        told for t busy: t backend 2 depth 3 count 9 / busy backend 1 depth 2 deferred 1 in_flight 2 count 7 requeued 1 timed_out 2
            + seven finished 2 in_flight 1 sent 4 ready 3 requeued 1 + nine in_flight 1 sent 1 ready 1

one channel is asked for, of all topics
        told for * busy: t backend 2 depth 3 count 9 / busy backend 1 depth 2 deferred 1 in_flight 2 count 7 requeued 1 timed_out 2
            + seven finished 2 in_flight 1 sent 4 ready 3 requeued 1 + nine in_flight 1 sent 1 ready 1;
            u#ephemeral depth 1 count 2 paused

one channel is asked for, and all are told
        not told for * busy: t backend 2 depth 3 count 9 / busy backend 1 depth 2 deferred 1 in_flight 2 count 7 requeued 1 timed_out 2
            + seven finished 2 in_flight 1 sent 4 ready 3 requeued 1 + nine in_flight 1 sent 1 ready 1 / empty paused
            / x#ephemeral depth 1 count 1; u#ephemeral depth 1 count 2 paused / y depth 1 count 1

a channel that isn't there is asked for
        told for t z: t backend 2 depth 3 count 9

a topic that isn't there is asked for
        told for v *:

a topic that isn't there is asked for, and another is told
        not told for v *: t backend 2 depth 3 count 9 / busy backend 1 depth 2 deferred 1 in_flight 2 count 7 requeued 1 timed_out 2
            + seven finished 2 in_flight 1 sent 4 ready 3 requeued 1 + nine in_flight 1 sent 1 ready 1 / empty paused
            / x#ephemeral depth 1 count 1
";

#[test]
fn rows(rt: HostRuntime) {
    for row in ROWS.trim().split("\n\n") {
        check(&rt, holds(&rt, rt.alloc(), row), row);
    }
}
