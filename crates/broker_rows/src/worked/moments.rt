//! What comes at a moment: messages that time out or come due, heartbeats, and silence.

pub static ROWS: &'static str = "
a message times out at its moment, before its FIN, and is sent again
        given a second for a message: 0 1 began; 0 1 idle; 0 1 pub t x => OK; 0 1 idle; 0 1 gone; 0 2 began; 0 2 idle;
            0 2 sub t c => OK; 0 0 moved t c x 1; 0 2 rdy 1; 0 2 sent x 1; 0 2 idle
        then: 1s 0 timed-out t c x; 1s 2 fin 0 => E_FIN_FAILED message not in flight; 1s 2 sent x 2; 1s 2 idle; 1s 2 gone
        makes both: 1 EndOfInput: Magic PubX => Okay; 2 EndOfInput: Magic SubC Rdy1 / Fin0 => Okay GotX NotFinished AgainX

a message times out one nanosecond before its moment
        given a second for a message: 0 1 began; 0 1 idle; 0 1 pub t x => OK; 0 1 idle; 0 1 gone; 0 2 began; 0 2 idle;
            0 2 sub t c => OK; 0 0 moved t c x 1; 0 2 rdy 1; 0 2 sent x 1; 0 2 idle
        then: 1s-1 0 timed-out t c x; 1s 2 fin 0 => E_FIN_FAILED message not in flight; 1s 2 sent x 2; 1s 2 idle; 1s 2 gone
        makes no history: 1 EndOfInput: Magic PubX => Okay; 2 EndOfInput: Magic SubC Rdy1 / Fin0 => Okay GotX NotFinished AgainX

one of two given back waits, and after the longest delay both do
        given: 0 1 began; 0 1 idle; 0 1 pub t 0 => OK; 0 1 pub t 1 => OK; 0 1 idle; 0 1 gone; 0 2 began; 0 2 idle; 0 2 sub t c => OK;
            0 0 moved t c 0 2; 0 2 rdy 2; 0 2 sent 0 1; 0 2 sent 1 1; 0 2 idle; 0 2 rdy 0; 0 2 req 0 0; 0 2 req 1 99999999; 0 2 idle
        then: 0 3 told t count 2 / c depth 1 deferred 1 count 2 requeued 2 + nobody sent 2 requeued 2; 0 2 gone; 3600s 0 came-due t c 1;
            3600s 3 told t count 2 / c depth 2 count 2 requeued 2
        makes both: 1 EndOfInput: Magic PubA PubB => Okay Okay; 2 EndOfInput: Magic SubC Rdy2 / Rdy0 Req0 Req1TooLong => Okay GotA GotB

both wait one nanosecond before the longest delay
        given: 0 1 began; 0 1 idle; 0 1 pub t 0 => OK; 0 1 pub t 1 => OK; 0 1 idle; 0 1 gone; 0 2 began; 0 2 idle; 0 2 sub t c => OK;
            0 0 moved t c 0 2; 0 2 rdy 2; 0 2 sent 0 1; 0 2 sent 1 1; 0 2 idle; 0 2 rdy 0; 0 2 req 0 0; 0 2 req 1 99999999; 0 2 idle;
            0 3 told t count 2 / c depth 1 deferred 1 count 2 requeued 2 + nobody sent 2 requeued 2; 0 2 gone
        then: 3600s-1 0 came-due t c 1; 3600s-1 3 told t count 2 / c depth 2 count 2 requeued 2
        makes no history: 1 EndOfInput: Magic PubA PubB => Okay Okay;
            2 EndOfInput: Magic SubC Rdy2 / Rdy0 Req0 Req1TooLong => Okay GotA GotB

a heartbeat after one interval, and silence after two
        given: 0 1 began; 0 1 idle; 0 1 nop; 0 1 idle
        then: 30s 1 beat; 30s 1 idle; 60s 1 silent; 60s 1 gone
        makes both: 1 Closed: Magic Nop => Heartbeat

silence one nanosecond before two intervals
        given: 0 1 began; 0 1 idle; 0 1 nop; 0 1 idle; 30s 1 beat; 30s 1 idle
        then: 60s-1 1 silent; 60s-1 1 gone
        makes no history: 1 Closed: Magic Nop => Heartbeat

a heartbeat one nanosecond before its interval
        given: 0 1 began; 0 1 idle; 0 1 nop; 0 1 idle
        then: 30s-1 1 beat; 30s 1 idle; 60s 1 silent; 60s 1 gone
        makes no history: 1 Closed: Magic Nop => Heartbeat
";
