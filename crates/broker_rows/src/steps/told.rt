//! Statistics as they are asked for between the other entries.

pub static STATISTICS: &'static str = "
what is given back at once waits, and what is given back for later is deferred
        given: 0 1 began; 0 1 mpub t 0 2 => OK; 0 2 began; 0 2 sub t c => OK; 0 0 moved t c 0 2; 0 2 rdy 2; 0 2 sent 0 1; 0 2 sent 1 1;
            0 2 rdy 0; 0 2 req 0 0; 0 2 req 1 99999999
        then: 0 0 told t count 2 / c depth 1 deferred 1 count 2 requeued 2 + nobody sent 2 requeued 2
        leads on

one that is given back isn't counted
        given: 0 1 began; 0 1 mpub t 0 2 => OK; 0 2 began; 0 2 sub t c => OK; 0 0 moved t c 0 2; 0 2 rdy 2; 0 2 sent 0 1; 0 2 sent 1 1;
            0 2 rdy 0; 0 2 req 0 0; 0 2 req 1 99999999
        then: 0 0 told t count 2 / c depth 1 deferred 1 count 2 requeued 1 + nobody sent 2 requeued 2
        leads nowhere

after the longest delay both wait
        given: 0 1 began; 0 1 mpub t 0 2 => OK; 0 2 began; 0 2 sub t c => OK; 0 0 moved t c 0 2; 0 2 rdy 2; 0 2 sent 0 1; 0 2 sent 1 1;
            0 2 rdy 0; 0 2 req 0 0; 0 2 req 1 99999999
        then: 3600s 0 came-due t c 1; 3600s 0 told t count 2 / c depth 2 count 2 requeued 2 + nobody sent 2 requeued 2
        leads on

both wait one nanosecond before
        given: 0 1 began; 0 1 mpub t 0 2 => OK; 0 2 began; 0 2 sub t c => OK; 0 0 moved t c 0 2; 0 2 rdy 2; 0 2 sent 0 1; 0 2 sent 1 1;
            0 2 rdy 0; 0 2 req 0 0; 0 2 req 1 99999999
        then: 3600s-1 0 told t count 2 / c depth 2 count 2 requeued 2 + nobody sent 2 requeued 2
        leads nowhere

what is deferred is told as such while it is due
        given: 0 1 began; 0 1 mpub t 0 2 => OK; 0 2 began; 0 2 sub t c => OK; 0 0 moved t c 0 2; 0 2 rdy 2; 0 2 sent 0 1; 0 2 sent 1 1;
            0 2 rdy 0; 0 2 req 0 0; 0 2 req 1 99999999
        then: 3600s 0 told t count 2 / c depth 1 deferred 1 count 2 requeued 2 + nobody sent 2 requeued 2
        leads nowhere

what waits in the topic goes to the channel that comes first
        given: 0 1 began; 0 1 mpub t 0 3 => OK; 0 2 began; 0 2 sub t c1 => OK; 0 0 moved t c1 0 3; 0 2 gone; 0 3 began;
            0 3 sub t c2 => OK; 0 3 gone
        then: 0 0 told t count 3 / c1 depth 3 count 3 / c2
        leads on

the channel that comes later has it too
        given: 0 1 began; 0 1 mpub t 0 3 => OK; 0 2 began; 0 2 sub t c1 => OK; 0 0 moved t c1 0 3; 0 2 gone; 0 3 began;
            0 3 sub t c2 => OK; 0 3 gone
        then: 0 0 told t count 3 / c1 depth 3 count 3 / c2 depth 3 count 3
        leads nowhere

a message with a delay is deferred, and waits after it
        given: 0 0 create t => done; 0 0 create t c => done; 0 1 began; 0 1 dpub t 1000 0 => OK; 0 0 took t 0 1s c; 0 0 copied t c 0 1s
        then: 0 0 told t count 1 / c deferred 1 count 1; 1s 0 came-due t c 0; 1s 0 told t count 1 / c depth 1 count 1
        leads on

a message with a delay waits at once
        given: 0 0 create t => done; 0 0 create t c => done; 0 1 began; 0 1 dpub t 1000 0 => OK; 0 0 took t 0 1s c; 0 0 copied t c 0 1s
        then: 0 0 told t count 1 / c depth 1 count 1
        leads nowhere

statistics pass a copy over that is owed
        given: 0 0 create t => done; 0 0 create t c => done; 0 1 began; 0 1 dpub t 1000 0 => OK; 0 0 took t 0 1s c
        then: 0 0 told t count 1 / c
        leads nowhere

a message that timed out is counted, and waits
        given a second for a message: 0 1 began; 0 1 pub t 0 => OK; 0 2 began; 0 2 sub t c => OK; 0 0 moved t c 0 1; 0 2 rdy 1;
            0 2 sent 0 1
        then: 1s 0 timed-out t c 0; 1s 2 fin 0 => E_FIN_FAILED message not in flight;
            1s 0 told t count 1 / c depth 1 count 1 timed_out 1 + nobody sent 1 ready 1
        leads on

a message that timed out isn't counted
        given a second for a message: 0 1 began; 0 1 pub t 0 => OK; 0 2 began; 0 2 sub t c => OK; 0 0 moved t c 0 1; 0 2 rdy 1;
            0 2 sent 0 1
        then: 1s 0 timed-out t c 0; 1s 0 told t count 1 / c depth 1 count 1 + nobody sent 1 ready 1
        leads nowhere

a FIN is counted once, and one that is refused isn't
        given: 0 1 began; 0 1 pub t 0 => OK; 0 2 began; 0 2 sub t c => OK; 0 0 moved t c 0 1; 0 2 rdy 1; 0 2 sent 0 1
        then: 0 2 fin 0; 0 2 fin 0 => E_FIN_FAILED message not in flight; 0 0 told t count 1 / c count 1 + nobody finished 1 sent 1 ready 1
        leads on

a FIN that is refused is counted
        given: 0 1 began; 0 1 pub t 0 => OK; 0 2 began; 0 2 sub t c => OK; 0 0 moved t c 0 1; 0 2 rdy 1; 0 2 sent 0 1
        then: 0 2 fin 0; 0 2 fin 0 => E_FIN_FAILED message not in flight; 0 0 told t count 1 / c count 1 + nobody finished 2 sent 1 ready 1
        leads nowhere
";
