//! Messages on their way to clients and back.

pub static SENDINGS: &'static str = "
messages are sent in turn, as credit allows
        given: 0 1 began; 0 1 mpub t 0 3 => OK; 0 1 gone; 0 2 began; 0 2 sub t c => OK; 0 0 moved t c 0 3; 0 2 rdy 2
        then: 0 2 sent 0 1; 0 2 sent 1 1; 0 2 idle; 0 2 fin 0; 0 2 sent 2 1
        leads to t c 0 2 0

a third message for a client that asked for two
        given: 0 1 began; 0 1 mpub t 0 3 => OK; 0 1 gone; 0 2 began; 0 2 sub t c => OK; 0 0 moved t c 0 3; 0 2 rdy 2; 0 2 sent 0 1;
            0 2 sent 1 1
        then: 0 2 sent 2 1
        leads nowhere

nothing to send, where a message is due to a client
        given: 0 1 began; 0 1 mpub t 0 3 => OK; 0 1 gone; 0 2 began; 0 2 sub t c => OK; 0 0 moved t c 0 3; 0 2 rdy 2
        then: 0 2 idle
        leads nowhere

a message that nobody published
        given: 0 1 began; 0 1 mpub t 0 3 => OK; 0 1 gone; 0 2 began; 0 2 sub t c => OK; 0 0 moved t c 0 3; 0 2 rdy 2
        then: 0 2 sent 7 1
        leads nowhere

a first sending that counts as the second
        given: 0 1 began; 0 1 mpub t 0 3 => OK; 0 1 gone; 0 2 began; 0 2 sub t c => OK; 0 0 moved t c 0 3; 0 2 rdy 2
        then: 0 2 sent 0 2
        leads nowhere

a message for a client that never asked for any
        given: 0 1 began; 0 1 mpub t 0 3 => OK; 0 1 gone; 0 2 began; 0 2 sub t c => OK
        then: 0 0 moved t c 0 3; 0 2 sent 0 1
        leads nowhere

after a lower RDY nothing is sent until fewer are in flight
        given: 0 1 began; 0 1 mpub t 0 6 => OK; 0 1 gone; 0 2 began; 0 2 sub t c => OK; 0 0 moved t c 0 6; 0 2 rdy 5; 0 2 sent 0 1;
            0 2 sent 1 1; 0 2 sent 2 1; 0 2 sent 3 1; 0 2 sent 4 1; 0 2 rdy 1; 0 2 fin 0; 0 2 idle; 0 2 fin 1; 0 2 idle; 0 2 fin 2;
            0 2 idle; 0 2 fin 3; 0 2 idle
        then: 0 2 fin 4; 0 2 sent 5 1
        leads to t c 0 1 0

after a lower RDY a message while one is in flight
        given: 0 1 began; 0 1 mpub t 0 6 => OK; 0 1 gone; 0 2 began; 0 2 sub t c => OK; 0 0 moved t c 0 6; 0 2 rdy 5; 0 2 sent 0 1;
            0 2 sent 1 1; 0 2 sent 2 1; 0 2 sent 3 1; 0 2 sent 4 1; 0 2 rdy 1; 0 2 fin 0; 0 2 idle; 0 2 fin 1; 0 2 idle; 0 2 fin 2;
            0 2 idle; 0 2 fin 3; 0 2 idle
        then: 0 2 sent 5 1
        leads nowhere

a paused channel sends nothing, and one that goes on does
        given: 0 1 began; 0 1 mpub t 0 3 => OK; 0 1 gone; 0 2 began; 0 2 sub t c => OK; 0 0 moved t c 0 3; 0 2 rdy 2
        then: 0 0 pause t c => done; 0 2 idle; 0 0 unpause t c => done; 0 2 sent 0 1
        leads on

a message out of a paused channel
        given: 0 1 began; 0 1 mpub t 0 3 => OK; 0 1 gone; 0 2 began; 0 2 sub t c => OK; 0 0 moved t c 0 3; 0 2 rdy 2
        then: 0 0 pause t c => done; 0 2 sent 0 1
        leads nowhere

a message that another client has
        given: 0 1 began; 0 1 mpub t 0 3 => OK; 0 1 gone; 0 2 began; 0 2 sub t c => OK; 0 0 moved t c 0 3; 0 2 rdy 2; 0 2 sent 0 1;
            0 2 sent 1 1; 0 3 began; 0 3 sub t c => OK; 0 3 rdy 2
        then: 0 3 sent 0 1
        leads nowhere

the next message goes to the client that has credit
        given: 0 1 began; 0 1 mpub t 0 3 => OK; 0 1 gone; 0 2 began; 0 2 sub t c => OK; 0 0 moved t c 0 3; 0 2 rdy 2; 0 2 sent 0 1;
            0 2 sent 1 1; 0 3 began; 0 3 sub t c => OK; 0 3 rdy 2
        then: 0 3 sent 2 1
        leads to t c 0 3 0

a message whose id is in flight in its channel
        given a message twice: 0 2 began; 0 2 sub t c => OK; 0 2 rdy 5; 0 2 sent 0 1
        then: 0 2 sent 0 1
        leads nowhere

such a message is held back, and may come up later
        given a message twice: 0 2 began; 0 2 sub t c => OK; 0 2 rdy 5; 0 2 sent 0 1
        then: 0 0 held-back t c 0; 0 2 idle; 0 2 fin 0; 60s 0 came-due t c 0
        leads to t c 1 0 0

with nothing that may be sent a client waits, held back or not
        given a message twice: 0 2 began; 0 2 sub t c => OK; 0 2 rdy 5; 0 2 sent 0 1
        then: 0 2 idle
        leads to t c 1 1 0

a message is held back whose id isn't in flight
        given: 0 1 began; 0 1 mpub t 0 3 => OK; 0 1 gone; 0 2 began; 0 2 sub t c => OK; 0 0 moved t c 0 3; 0 2 rdy 2
        then: 0 0 held-back t c 0
        leads nowhere

a message in flight is queued too, and so held back
        given: 0 1 began; 0 1 mpub t 0 3 => OK; 0 1 gone; 0 2 began; 0 2 sub t c => OK; 0 0 moved t c 0 3; 0 2 rdy 2; 0 2 sent 0 1;
            0 2 sent 1 1
        then: 0 0 held-back t c 0
        leads nowhere

a message given back for later is in flight too, and so times out
        given: 0 1 began; 0 1 mpub t 0 3 => OK; 0 1 gone; 0 2 began; 0 2 sub t c => OK; 0 0 moved t c 0 3; 0 2 rdy 2; 0 2 sent 0 1;
            0 2 sent 1 1
        then: 0 2 req 0 300000; 60s 0 timed-out t c 0
        leads nowhere

a finished message is in flight too, and so times out
        given: 0 1 began; 0 1 mpub t 0 3 => OK; 0 1 gone; 0 2 began; 0 2 sub t c => OK; 0 0 moved t c 0 3; 0 2 rdy 2; 0 2 sent 0 1;
            0 2 sent 1 1
        then: 0 2 fin 0; 60s 0 timed-out t c 0
        leads nowhere

a client that goes leaves its messages in flight until they are due
        given: 0 1 began; 0 1 mpub t 0 3 => OK; 0 1 gone; 0 2 began; 0 2 sub t c => OK; 0 0 moved t c 0 3; 0 2 rdy 2; 0 2 sent 0 1;
            0 2 sent 1 1
        then: 0 2 gone; 60s 0 timed-out t c 0; 60s 0 timed-out t c 1
        leads to t c 3 0 0
";

pub static RETURNS: &'static str = "
FIN of a message that was finished is refused, and the connection goes on
        given: 0 1 began; 0 1 pub t 0 => OK; 0 1 gone; 0 2 began; 0 2 sub t c => OK; 0 0 moved t c 0 1; 0 2 rdy 1; 0 2 sent 0 1
        then: 0 2 fin 0; 0 2 fin 0 => E_FIN_FAILED message not in flight; 0 2 nop
        leads to t c 0 0 0

a second FIN that succeeds
        given: 0 1 began; 0 1 pub t 0 => OK; 0 1 gone; 0 2 began; 0 2 sub t c => OK; 0 0 moved t c 0 1; 0 2 rdy 1; 0 2 sent 0 1
        then: 0 2 fin 0; 0 2 fin 0
        leads nowhere

FIN, TOUCH and REQ of another client's message are refused
        given: 0 1 began; 0 1 mpub t 0 3 => OK; 0 1 gone; 0 2 began; 0 2 sub t c => OK; 0 0 moved t c 0 3; 0 2 rdy 2; 0 2 sent 0 1;
            0 2 sent 1 1; 0 3 began; 0 3 sub t c => OK; 0 3 rdy 2
        then: 0 3 fin 0 => E_FIN_FAILED message not in flight; 0 3 touch 0 => E_TOUCH_FAILED message not in flight;
            0 3 req 0 0 => E_REQ_FAILED message not in flight
        leads to t c 1 2 0

FIN of another client's message succeeds
        given: 0 1 began; 0 1 mpub t 0 3 => OK; 0 1 gone; 0 2 began; 0 2 sub t c => OK; 0 0 moved t c 0 3; 0 2 rdy 2; 0 2 sent 0 1;
            0 2 sent 1 1; 0 3 began; 0 3 sub t c => OK; 0 3 rdy 2
        then: 0 3 fin 0
        leads nowhere

a message that is due comes back before a command of that moment, and is sent again
        given a second for a message: 0 1 began; 0 1 pub t 0 => OK; 0 1 gone; 0 2 began; 0 2 sub t c => OK; 0 0 moved t c 0 1;
            0 2 rdy 1; 0 2 sent 0 1
        then: 1s 0 timed-out t c 0; 1s 2 fin 0 => E_FIN_FAILED message not in flight; 1s 2 sent 0 2
        leads to t c 0 1 0

a command passes a message over that is due
        given a second for a message: 0 1 began; 0 1 pub t 0 => OK; 0 1 gone; 0 2 began; 0 2 sub t c => OK; 0 0 moved t c 0 1;
            0 2 rdy 1; 0 2 sent 0 1
        then: 1s 2 fin 0
        leads nowhere

a message times out one nanosecond early
        given a second for a message: 0 1 began; 0 1 pub t 0 => OK; 0 1 gone; 0 2 began; 0 2 sub t c => OK; 0 0 moved t c 0 1;
            0 2 rdy 1; 0 2 sent 0 1
        then: 1s-1 0 timed-out t c 0
        leads nowhere

a message that timed out is still in flight, and so finished
        given a second for a message: 0 1 began; 0 1 pub t 0 => OK; 0 1 gone; 0 2 began; 0 2 sub t c => OK; 0 0 moved t c 0 1;
            0 2 rdy 1; 0 2 sent 0 1
        then: 1s 0 timed-out t c 0; 1s 2 fin 0
        leads nowhere

a message that timed out is still in flight, and so times out again
        given a second for a message: 0 1 began; 0 1 pub t 0 => OK; 0 1 gone; 0 2 began; 0 2 sub t c => OK; 0 0 moved t c 0 1;
            0 2 rdy 1; 0 2 sent 0 1
        then: 1s 0 timed-out t c 0; 1s 0 timed-out t c 0
        leads nowhere

TOUCH puts the end off by the client's time
        given: 0 1 began; 0 1 pub t 0 => OK; 0 1 gone; 0 2 began; 0 2 sub t c => OK; 0 0 moved t c 0 1; 0 2 rdy 1; 0 2 sent 0 1
        then: 20s 2 touch 0; 80s 0 timed-out t c 0
        leads to t c 1 0 0

after TOUCH a message times out at its old end
        given: 0 1 began; 0 1 pub t 0 => OK; 0 1 gone; 0 2 began; 0 2 sub t c => OK; 0 0 moved t c 0 1; 0 2 rdy 1; 0 2 sent 0 1
        then: 20s 2 touch 0; 60s 0 timed-out t c 0
        leads nowhere

REQ gives messages back at once, or later
        given: 0 1 began; 0 1 mpub t 0 3 => OK; 0 1 gone; 0 2 began; 0 2 sub t c => OK; 0 0 moved t c 0 3; 0 2 rdy 2; 0 2 sent 0 1;
            0 2 sent 1 1
        then: 0 2 rdy 0; 0 2 req 0 0; 0 2 req 1 99999999
        leads to t c 2 0 1

a delay beyond the longest one is brought into range
        given: 0 1 began; 0 1 mpub t 0 3 => OK; 0 1 gone; 0 2 began; 0 2 sub t c => OK; 0 0 moved t c 0 3; 0 2 rdy 2; 0 2 sent 0 1;
            0 2 sent 1 1
        then: 0 2 rdy 0; 0 2 req 0 0; 0 2 req 1 99999999; 3600s 0 came-due t c 1
        leads to t c 3 0 0

a delay beyond the longest one is kept as it is
        given: 0 1 began; 0 1 mpub t 0 3 => OK; 0 1 gone; 0 2 began; 0 2 sub t c => OK; 0 0 moved t c 0 3; 0 2 rdy 2; 0 2 sent 0 1;
            0 2 sent 1 1
        then: 0 2 fin 0; 0 2 req 1 99999999; 3600s 0 ticked
        leads nowhere

a deferred message comes one nanosecond early
        given: 0 1 began; 0 1 mpub t 0 3 => OK; 0 1 gone; 0 2 began; 0 2 sub t c => OK; 0 0 moved t c 0 3; 0 2 rdy 2; 0 2 sent 0 1;
            0 2 sent 1 1
        then: 0 2 req 0 5000; 5s-1 0 came-due t c 0
        leads nowhere

a deferred message is sent
        given: 0 1 began; 0 1 mpub t 0 3 => OK; 0 1 gone; 0 2 began; 0 2 sub t c => OK; 0 0 moved t c 0 3; 0 2 rdy 2; 0 2 sent 0 1;
            0 2 sent 1 1
        then: 0 2 req 0 5000; 0 2 sent 0 2
        leads nowhere

a delay below 0 is none
        given: 0 1 began; 0 1 mpub t 0 3 => OK; 0 1 gone; 0 2 began; 0 2 sub t c => OK; 0 0 moved t c 0 3; 0 2 rdy 2; 0 2 sent 0 1;
            0 2 sent 1 1
        then: 0 2 req 0 -5; 0 2 sent 0 2
        leads to t c 1 2 0

a client that is closing gets no message, and still may finish one
        given: 0 1 began; 0 1 mpub t 0 3 => OK; 0 1 gone; 0 2 began; 0 2 sub t c => OK; 0 0 moved t c 0 3; 0 2 rdy 2; 0 2 sent 0 1;
            0 2 sent 1 1
        then: 0 2 cls => CLOSE_WAIT; 0 2 fin 0; 0 2 rdy 9; 0 2 idle
        leads to t c 1 1 0

a message for a client that is closing
        given: 0 1 began; 0 1 mpub t 0 3 => OK; 0 1 gone; 0 2 began; 0 2 sub t c => OK; 0 0 moved t c 0 3; 0 2 rdy 2
        then: 0 2 cls => CLOSE_WAIT; 0 2 sent 0 1
        leads nowhere

a closing client's second CLS is refused
        given: 0 1 began; 0 1 pub t 0 => OK; 0 1 gone; 0 2 began; 0 2 sub t c => OK; 0 0 moved t c 0 1; 0 2 rdy 1
        then: 0 2 cls => CLOSE_WAIT; 0 2 cls => E_INVALID not in this state
        leads to t c 1 0 0

a stop leaves what is queued, in flight and deferred
        given: 0 1 began; 0 1 mpub t 0 3 => OK; 0 1 gone; 0 2 began; 0 2 sub t c => OK; 0 0 moved t c 0 3; 0 2 rdy 2; 0 2 sent 0 1;
            0 2 sent 1 1
        then: 0 2 rdy 1; 0 2 req 0 5000; 0 2 gone; 0 0 stop
        leads to t c 1 1 1
";
