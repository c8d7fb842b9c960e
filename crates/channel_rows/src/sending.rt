//! Scripts of what is sent, and of what becomes of it.

/// Who gets a copy, and what is drawn; what a client does with a copy that it has, and what comes due.
pub static ROWS: &'static str = "
a client without credit gets none
        c 3: offer 0 x -> done; give first -> no-credit; ready first 1; give first -> send 0 x 1; look second 0 -> not-yours;
        look first 0 -> yours; look first 1 -> not-in-flight; move 60s-1 -> nothing; move 60s -> timed-out 0;
        look first 0 -> not-in-flight; places 1 0 0 0; events 1 0 1

credit comes before a pause, and a pause before what is queued
        c 3: pause on; give first -> no-credit; ready first 1; give first -> paused; offer 0 x -> done; give first -> paused;
        pause off; give first -> send 0 x 1; give first -> no-credit; ready first 2; give first -> none-queued

a finished copy makes room for another
        c 3: offer 0 a -> done; offer 1 b -> done; offer 2 c -> done; ready first 2; give first -> send 0 a 1;
        give first -> send 1 b 1; give first -> no-credit; finish first 0 -> done; give first -> send 2 c 1;
        finish first 0 -> not-yours

a lower count holds from then on
        c 1: offer 0 a -> done; offer 1 b -> done; offer 2 c -> done; ready first 2; give first -> send 0 a 1;
        give first -> send 1 b 1; ready first 1; finish first 0 -> done; give first -> no-credit; finish first 1 -> done;
        give first -> send 2 c 1

a copy whose id is in flight is held back
        c 3: ready first 2; offer 0 x -> done; give first -> send 0 x 1; offer 0 y -> done; put-back first -> held 0;
        places 1 0 1 0; give first -> held 0; places 0 0 1 1; finish first 0 -> done; move 60s-1 -> nothing;
        move 60s -> came-due 0; give first 60s -> send 0 y 1

a held back copy waits for the time of the options, whoever it came up for
        c 3: ready second 2; offer 0 x -> done; give second -> send 0 x 1; offer 0 y -> done; give second 5 -> held 0;
        finish second 0 -> done; move 60s+4 -> nothing; move 60s+5 -> came-due 0

what is put back has the attempts that it had
        c 1: ready first 2; offer 0 x -> done; offer 1 y -> done; places 2 1 0 0; put-back first -> send 0 x 1; places 2 1 0 0;
        give first -> send 0 x 1; put-back first -> send 1 y 1; give first -> send 1 y 1; places 0 0 2 0

attempts stop at 65535
        c 1: ready first 1; offer 0 x 0 0 65534 -> done; give first -> send 0 x 65535; requeue first 0 -> done;
        put-back first -> send 0 x 65535; give first -> send 0 x 65535

a fault gives none and leaves all
        c 0 read 0 1: ready first 1; offer 0 x -> done; give first -> fault; places 1 1 0 0; give first -> send 0 x 1;
        places 0 0 1 0

what is given back at once is queued, and after a delay deferred
        c 3: ready first 2; offer 0 a -> done; offer 1 b -> done; give first -> send 0 a 1; give first -> send 1 b 1;
        ready first 0; requeue first 0 -> done; requeue first 1 3600s -> done; requeue first 1 -> not-yours; places 1 0 0 1;
        events 2 2 0; move 3600s-1 -> nothing; move 3600s -> came-due 1; places 2 0 0 0; ready second 2;
        give second -> send 0 a 2; give second -> send 1 b 2

a copy that can't be given back stays in flight
        c 0 write 1 2: ready first 1; offer 0 x -> done; give first -> send 0 x 1; requeue first 0 -> fault;
        look first 0 -> yours; places 0 0 1 0; events 1 0 0; requeue first 0 -> done; look first 0 -> not-in-flight

what was touched is due later, and no later than so long after its sending
        c 3: ready first 1; offer 0 x -> done; give first -> send 0 x 1; touch first 0 60s-1 -> done; touch first 1 -> not-yours;
        move 120s-2 -> nothing; touch first 0 3600s -> done; move 900s-1 -> nothing; move 900s -> timed-out 0

another client's copy is neither finished, touched nor given back
        c 3: ready second 1; offer 0 x -> done; give second -> send 0 x 1; finish first 0 -> not-yours;
        touch first 0 -> not-yours; requeue first 0 -> not-yours; look second 0 -> yours; places 0 0 1 0; finish second 0 -> done;
        places 0 0 0 0; events 1 0 0

the copies of a client that left stay in flight
        c 3: ready second 1; offer 0 x -> done; give second -> send 0 x 1; come-again; give second -> no-credit;
        look second 0 -> yours; ready second 1; give second -> no-credit; move 30s-1 -> nothing; move 30s -> timed-out 0;
        give second 30s -> send 0 x 2

a copy that timed out can't be finished, and is sent again
        c 1: ready first 1; offer 0 x -> done; give first -> send 0 x 1; move 60s -> timed-out 0; finish first 0 -> not-yours;
        move 120s -> nothing; give first 60s -> send 0 x 2; places 0 0 1 0

those in flight come due before deferred ones, each by its moment
        c 3: ready first 2; offer 0 a -> done; offer 1 b -> done; give first 5 -> send 0 a 1; give first 4 -> send 1 b 1;
        offer 2 c 7 -> done; offer 3 d 6 -> done; offer 4 e 6 -> done; next-due -> 6; move 60s+5 -> timed-out 1;
        move 60s+5 -> timed-out 0; move 60s+5 -> came-due 3; move 60s+5 -> came-due 4; next-due -> 7; move 60s+5 -> came-due 2;
        move 60s+5 -> nothing; next-due -> none; places 5 2 0 0

due moments are sums, however late
        c 3: ready first 1; offer 0 x 0 most -> done; give first most -> send 0 x 1; move most+60s-1 -> nothing;
        touch first 0 most -> done; move most+60s -> timed-out 0; offer 1 y most most -> done; move most+most-1 -> nothing;
        move most+most -> came-due 1
";
