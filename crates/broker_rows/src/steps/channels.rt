//! Topics and channels: what they are owed, made anew, deleted, ephemeral or refused.

pub static OWED: &'static str = "
what waits goes to the channel that comes first, and nothing to one that comes later
        given: 0 1 began; 0 1 mpub t 0 3 => OK; 0 1 gone
        then: 0 2 began; 0 2 sub t c1 => OK; 0 0 moved t c1 0 3; 0 3 began; 0 3 sub t c2 => OK
        leads to t c2 0 0 0

a channel is made while a message is due to an earlier one
        given: 0 1 began; 0 1 mpub t 0 3 => OK; 0 1 gone
        then: 0 2 began; 0 2 sub t c1 => OK; 0 2 sub t c2 => OK
        leads nowhere

a message is copied to each of its topic's channels
        given: 0 0 publish t 0 0 => done; 0 0 create t c => done; 0 0 took t 0 0 c; 0 0 copied t c 0 0; 0 0 create t b => done;
            0 0 create t a => done; 0 0 publish t 0 1 => done; 0 0 took t 1 0 a b c; 0 0 copied t a 1 0
        then: 0 0 copied t b 1 0; 0 0 copied t c 1 0; 0 0 ticked
        leads to t c 2 0 0

a message is copied to the first channel alone
        given: 0 0 publish t 0 0 => done; 0 0 create t c => done; 0 0 took t 0 0 c; 0 0 copied t c 0 0; 0 0 create t b => done;
            0 0 create t a => done; 0 0 publish t 0 1 => done; 0 0 took t 1 0 a b c; 0 0 copied t a 1 0
        then: 0 0 ticked
        leads nowhere

a message is copied to the first channel alone, and the next one is taken
        given: 0 0 publish t 0 0 => done; 0 0 create t c => done; 0 0 took t 0 0 c; 0 0 copied t c 0 0; 0 0 create t b => done;
            0 0 create t a => done; 0 1 began; 0 1 mpub t 1 2 => OK; 0 0 took t 1 0 a b c; 0 0 copied t a 1 0
        then: 0 0 took t 2 0 a b c
        leads nowhere

a stop forgets a copy that a channel is owed
        given: 0 0 publish t 0 0 => done; 0 0 create t c => done; 0 0 took t 0 0 c; 0 0 copied t c 0 0; 0 0 create t b => done;
            0 0 create t a => done; 0 0 publish t 0 1 => done; 0 0 took t 1 0 a b c; 0 0 copied t a 1 0
        then: 0 0 copied t b 1 0; 0 0 stop
        leads nowhere

a message is taken for fewer channels than the topic has
        given: 0 0 publish t 0 0 => done; 0 0 create t c => done; 0 0 took t 0 0 c; 0 0 copied t c 0 0; 0 0 create t b => done;
            0 0 create t a => done; 0 0 publish t 0 1 => done
        then: 0 0 took t 1 0 a b
        leads nowhere

a channel gets a message twice
        given: 0 0 publish t 0 0 => done; 0 0 create t c => done; 0 0 took t 0 0 c; 0 0 copied t c 0 0; 0 0 create t b => done;
            0 0 create t a => done; 0 0 publish t 0 1 => done; 0 0 took t 1 0 a b c; 0 0 copied t a 1 0
        then: 0 0 copied t a 1 0
        leads nowhere

a disk fault at the second channel ends the turn's moves, and the next turn goes on from there
        given no memory: 0 0 publish t 0 0 => done; 0 0 create t c => done; 0 0 took t 0 0 c; 0 0 copied t c 0 0;
            0 0 create t b => done; 0 0 create t a => done; 0 0 publish t 0 1 => done; 0 0 took t 1 0 a b c; 0 0 copied t a 1 0
        then: 0 0 faulted 0 copied t b 1 0; 0 0 ticked; 0 0 copied t b 1 0; 0 0 copied t c 1 0; 0 0 ticked
        leads to t a 1 0 0, b 1 0 0, c 2 0 0

a disk fault at a channel that is owed nothing
        given no memory: 0 0 publish t 0 0 => done; 0 0 create t c => done; 0 0 took t 0 0 c; 0 0 copied t c 0 0;
            0 0 create t b => done; 0 0 create t a => done; 0 0 publish t 0 1 => done; 0 0 took t 1 0 a b c; 0 0 copied t a 1 0
        then: 0 0 faulted 0 copied t a 1 0
        leads nowhere

a disk fault excuses an act of a later moment
        given no memory: 0 0 publish t 0 0 => done; 0 0 create t c => done; 0 0 took t 0 0 c; 0 0 copied t c 0 0;
            0 0 create t b => done; 0 0 create t a => done; 0 0 publish t 0 1 => done; 0 0 took t 1 0 a b c; 0 0 copied t a 1 0
        then: 0 0 faulted 0 copied t b 1 0; 1 0 ticked
        leads nowhere

a topic that is paused keeps what it has
        given: 0 2 began; 0 2 sub t c => OK; 0 2 rdy 1
        then: 0 0 pause t => done; 0 0 publish t 0 0 => done; 0 2 idle
        leads to t c 0 0 0

a paused topic takes a message
        given: 0 2 began; 0 2 sub t c => OK; 0 2 rdy 1
        then: 0 0 pause t => done; 0 0 publish t 0 0 => done; 0 0 took t 0 0 c
        leads nowhere

a message that finds no room in memory waits on disk, and is sent
        given no memory: 0 1 began; 0 1 pub t 0 => OK; 0 1 gone
        then: 0 2 began; 0 2 sub t c => OK; 0 0 took t 0 0 c; 0 0 copied t c 0 0; 0 2 rdy 1; 0 2 sent 0 1
        leads to t c 0 1 0

a second run has the messages that were found, and new ids
        given three messages in a second run: 0 2 began; 0 2 sub t c => OK; 0 2 rdy 1
        then: 0 2 sent 1 2; 0 1 began; 0 1 pub t 1000 => OK; 0 0 took t 1000 0 c; 0 0 copied t c 1000 0
        leads to t c 3 1 0
";

pub static DEFERRED: &'static str = "
a message with a delay is deferred in its channel from its copying on
        given: 0 2 began; 0 2 sub t c => OK; 0 2 rdy 1
        then: 0 1 began; 0 1 dpub t 1000 0 => OK; 0 0 took t 0 1s c; 0 0 copied t c 0 1s; 0 2 idle
        leads to t c 0 0 1

and comes after it
        given: 0 2 began; 0 2 sub t c => OK; 0 2 rdy 1
        then: 0 1 began; 0 1 dpub t 1000 0 => OK; 0 0 took t 0 1s c; 0 0 copied t c 0 1s; 1s 0 came-due t c 0; 1s 0 ticked
        leads to t c 1 0 0

a delay is forgotten in memory
        given: 0 2 began; 0 2 sub t c => OK; 0 2 rdy 1
        then: 0 1 began; 0 1 dpub t 1000 0 => OK; 0 0 took t 0 0 c
        leads nowhere

a delay is forgotten on disk
        given no memory: 0 2 began; 0 2 sub t c => OK; 0 2 rdy 1
        then: 0 1 began; 0 1 dpub t 1000 0 => OK; 0 0 took t 0 0 c; 0 0 copied t c 0 0
        leads to t c 1 0 0

a delay beyond the longest one is refused, makes no topic and uses no id
        given: 0 1 began; 0 1 dpub u 3600001 0 => E_INVALID bad delay
        then:
        leads without u

the next message has the id that a refused publish didn't use
        given: 0 1 began; 0 1 dpub t 3600001 0 => E_INVALID bad delay; 0 2 began; 0 2 sub t c => OK; 0 2 rdy 1
        then: 0 0 publish t 0 0 => done; 0 0 took t 0 0 c
        leads on

a refused publish uses an id
        given: 0 1 began; 0 1 dpub t 3600001 0 => E_INVALID bad delay; 0 2 began; 0 2 sub t c => OK; 0 2 rdy 1
        then: 0 0 publish t 0 1 => done; 0 0 took t 1 0 c
        leads nowhere

a refused publish makes a topic
        given: 0 1 began; 0 1 dpub u 3600001 0 => E_INVALID bad delay
        then: 0 0 pause u => done
        leads nowhere

a publish that a disk fault kept off makes no topic
        given no memory: 0 1 began
        then: 0 1 faulted 0 pub u 0 => OK
        leads without u

a publish without ids is refused, and makes no topic
        given no ids: 0 1 began
        then: 0 1 pub u 0 => E_PUB_FAILED ids spent
        leads without u
";

pub static GOING: &'static str = "
the last client of a deleted channel is closed
        given: 0 1 began; 0 1 pub t 0 => OK; 0 2 began; 0 2 sub t c => OK; 0 0 took t 0 0 c; 0 0 copied t c 0 0; 0 2 rdy 1;
            0 2 sent 0 1; 0 0 delete t c => done
        then: 0 2 dropped; 0 2 gone
        leads on

nothing to send to a client whose channel was deleted
        given: 0 1 began; 0 1 pub t 0 => OK; 0 2 began; 0 2 sub t c => OK; 0 0 took t 0 0 c; 0 0 copied t c 0 0; 0 2 rdy 1;
            0 2 sent 0 1; 0 0 delete t c => done
        then: 0 2 idle
        leads nowhere

a command of a client whose channel was deleted
        given: 0 1 began; 0 1 pub t 0 => OK; 0 2 began; 0 2 sub t c => OK; 0 0 took t 0 0 c; 0 0 copied t c 0 0; 0 2 rdy 1;
            0 2 sent 0 1; 0 0 delete t c => done
        then: 0 2 fin 0 => E_FIN_FAILED message not in flight
        leads nowhere

a channel that is made again is empty
        given: 0 1 began; 0 1 pub t 0 => OK; 0 2 began; 0 2 sub t c => OK; 0 0 took t 0 0 c; 0 0 copied t c 0 0; 0 2 rdy 1;
            0 2 sent 0 1; 0 0 delete t c => done
        then: 0 1 sub t c => OK; 0 1 rdy 1; 0 1 fin 0 => E_FIN_FAILED message not in flight; 0 1 idle
        leads to t c 0 0 0

a channel that is made again has its old copies
        given: 0 1 began; 0 1 pub t 0 => OK; 0 2 began; 0 2 sub t c => OK; 0 0 took t 0 0 c; 0 0 copied t c 0 0; 0 2 rdy 1;
            0 2 sent 0 1; 0 0 delete t c => done
        then: 0 1 sub t c => OK; 0 1 rdy 1; 60s 0 timed-out t c 0
        leads nowhere

a channel that is made again has its old clients
        given: 0 1 began; 0 1 pub t 0 => OK; 0 2 began; 0 2 sub t c => OK; 0 0 took t 0 0 c; 0 0 copied t c 0 0; 0 2 rdy 1;
            0 2 sent 0 1; 0 0 delete t c => done
        then: 0 1 sub t c => OK; 0 2 nop
        leads nowhere

an emptied channel has nothing, and FIN of what it had is refused
        given: 0 1 began; 0 1 mpub t 0 2 => OK; 0 2 began; 0 2 sub t c#ephemeral => OK; 0 0 moved t c#ephemeral 0 2
        then: 0 2 rdy 1; 0 2 sent 1 1; 0 0 empty t c#ephemeral => done; 0 2 fin 1 => E_FIN_FAILED message not in flight; 0 2 idle
        leads to t c#ephemeral 0 0 0

an ephemeral channel drops what finds no room
        given memory for one: 0 1 began; 0 1 mpub t 0 2 => OK; 0 2 began; 0 2 sub t c#ephemeral => OK; 0 0 moved t c#ephemeral 0 2
        then: 0 2 rdy 1; 0 2 sent 0 1; 0 2 fin 0; 0 2 idle
        leads to t c#ephemeral 0 0 0

an ephemeral channel keeps one message more than its memory
        given memory for one: 0 1 began; 0 1 mpub t 0 2 => OK; 0 2 began; 0 2 sub t c#ephemeral => OK; 0 0 moved t c#ephemeral 0 2
        then: 0 2 rdy 1; 0 2 sent 0 1; 0 2 fin 0; 0 2 sent 1 1
        leads nowhere

without memory an ephemeral channel gets nothing
        given no memory: 0 1 began; 0 1 mpub t 0 2 => OK; 0 2 began; 0 2 sub t c#ephemeral => OK; 0 0 moved t c#ephemeral 0 2
        then: 0 2 rdy 1; 0 2 idle
        leads to t c#ephemeral 0 0 0

an ephemeral channel goes with its last client
        given: 0 1 began; 0 1 mpub t 0 2 => OK; 0 2 began; 0 2 sub t c#ephemeral => OK; 0 0 moved t c#ephemeral 0 2
        then: 0 2 gone; 0 0 pause t c#ephemeral => no channel
        leads on

an ephemeral topic goes with its last channel
        given: 0 2 began; 0 2 sub t#ephemeral c => OK
        then: 0 2 gone
        leads without t#ephemeral

a disk fault ends a topic's deletion behind its first channel
        given: 0 0 publish t 0 0 => done; 0 0 create t c => done; 0 0 took t 0 0 c; 0 0 copied t c 0 0; 0 0 create t b => done;
            0 0 create t a => done; 0 0 publish t 0 1 => done; 0 0 took t 1 0 a b c; 0 0 copied t a 1 0
        then: 0 0 copied t b 1 0; 0 0 copied t c 1 0; 0 0 faulted 1 delete t => done; 0 0 listed t b c
        leads to t b 1 0 0

a deleted topic leaves nothing
        given: 0 1 began; 0 1 pub t 0 => OK; 0 2 began; 0 2 sub t c => OK; 0 0 took t 0 0 c; 0 0 copied t c 0 0; 0 2 rdy 1;
            0 2 sent 0 1; 0 0 delete t c => done
        then: 0 0 delete t => done; 0 0 listed
        leads without t

what isn't there is deleted
        given: 0 1 began; 0 1 pub t 0 => OK; 0 2 began; 0 2 sub t c => OK; 0 0 took t 0 0 c; 0 0 copied t c 0 0; 0 2 rdy 1;
            0 2 sent 0 1; 0 0 delete t c => done
        then: 0 0 delete t c => done
        leads nowhere
";
