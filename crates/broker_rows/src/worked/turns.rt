//! Turns of two clients, a deletion and a stop; a copy that a disk fault kept off; and a restart.

pub static ROWS: &'static str = "
turns of two clients, a deletion and a stop
        given: 0 1 began; 0 1 idle; 0 1 pub t x => OK; 0 2 began; 0 2 idle; 0 2 sub t c => OK; 0 0 took t x 0 c; 0 0 copied t c x 0;
            0 2 rdy 1; 0 2 sent x 1; 0 2 idle; 0 1 idle; 0 1 sub t c => OK; 0 1 fin 0 => E_FIN_FAILED message not in flight
        then: 0 2 fin 0; 0 0 delete t c => done; 0 2 dropped; 0 2 gone; 0 0 stop; 0 1 gone
        makes both: 1 Closed: Magic PubX / SubC Fin0 => Okay Okay NotFinished; 2 Closed: Magic SubC Rdy1 / Fin0 => Okay GotX

a FIN of another client's message is a success
        given: 0 1 began; 0 1 idle; 0 1 pub t x => OK; 0 2 began; 0 2 idle; 0 2 sub t c => OK; 0 0 took t x 0 c; 0 0 copied t c x 0;
            0 2 rdy 1; 0 2 sent x 1; 0 2 idle; 0 1 idle; 0 1 sub t c => OK
        then: 0 1 fin 0; 0 0 stop; 0 1 gone
        makes no history: 1 Closed: Magic PubX / SubC Fin0 => Okay Okay

the daemon stops twice
        given: 0 1 began; 0 1 idle; 0 1 pub t x => OK; 0 2 began; 0 2 idle; 0 2 sub t c => OK; 0 0 took t x 0 c; 0 0 copied t c x 0;
            0 2 rdy 1; 0 2 sent x 1; 0 2 idle; 0 1 idle; 0 1 sub t c => OK; 0 1 fin 0 => E_FIN_FAILED message not in flight; 0 2 fin 0;
            0 0 delete t c => done; 0 2 dropped; 0 2 gone; 0 0 stop; 0 1 gone
        then: 0 0 stop
        makes no history: 1 Closed: Magic PubX / SubC Fin0 => Okay Okay NotFinished; 2 Closed: Magic SubC Rdy1 / Fin0 => Okay GotX

a turn ends at a copy that a disk fault kept off, and the next one makes it
        given no memory: 0 4 create t => done; 0 5 create t a => done; 0 6 create t b => done; 0 7 create t c => done; 0 1 began;
            0 1 idle; 0 1 pub t x => OK; 0 0 took t x 0 a b c; 0 0 copied t a x 0; 0 0 faulted 0 copied t b x 0; 0 1 idle;
            0 0 copied t b x 0; 0 0 copied t c x 0; 0 1 gone;
            0 8 told t count 1 / a backend 1 depth 1 count 1 / b backend 1 depth 1 count 1 / c backend 1 depth 1 count 1
        then: 0 2 began; 0 2 idle; 0 2 sub t a => OK; 0 2 rdy 2; 0 2 sent x 1; 0 2 idle; 0 2 gone; 0 3 began; 0 3 idle;
            0 3 sub t b => OK; 0 3 rdy 2; 0 3 sent x 1; 0 3 idle; 0 3 gone; 0 9 began; 0 9 idle; 0 9 sub t c => OK; 0 9 rdy 2;
            0 9 sent x 1; 0 9 idle; 0 9 gone
        makes both: 1 EndOfInput: Magic PubX => Okay; 2 EndOfInput: Magic SubA Rdy2 => Okay GotX;
            3 EndOfInput: Magic SubB Rdy2 => Okay GotX; 9 EndOfInput: Magic SubC Rdy2 => Okay GotX

a turn ends at a copy that no disk fault kept off
        given no memory: 0 4 create t => done; 0 5 create t a => done; 0 6 create t b => done; 0 7 create t c => done; 0 1 began;
            0 1 idle; 0 1 pub t x => OK; 0 0 took t x 0 a b c; 0 0 copied t a x 0
        then: 0 1 idle; 0 0 copied t b x 0; 0 0 copied t c x 0; 0 1 gone
        makes no history: 1 EndOfInput: Magic PubX => Okay

a channel has the message twice behind a disk fault
        given no memory: 0 4 create t => done; 0 5 create t a => done; 0 6 create t b => done; 0 7 create t c => done; 0 1 began;
            0 1 idle; 0 1 pub t x => OK; 0 0 took t x 0 a b c; 0 0 copied t a x 0; 0 0 faulted 0 copied t b x 0; 0 1 idle;
            0 0 copied t b x 0; 0 0 copied t c x 0; 0 1 gone;
            0 8 told t count 1 / a backend 1 depth 1 count 1 / b backend 1 depth 1 count 1 / c backend 1 depth 1 count 1
        then: 0 3 began; 0 3 idle; 0 3 sub t b => OK; 0 3 rdy 2; 0 3 sent x 1; 0 3 sent x 1; 0 3 idle; 0 3 gone
        makes no history: 1 EndOfInput: Magic PubX => Okay; 3 EndOfInput: Magic SubB Rdy2 => Okay GotX GotX

a stop leaves what is queued, in flight and deferred
        given: 0 1 began; 0 1 idle; 0 1 pub t 0 => OK; 0 1 pub t 1 => OK; 0 1 pub t 2 => OK; 0 1 idle; 0 1 gone; 0 2 began; 0 2 idle;
            0 2 sub t c => OK; 0 0 moved t c 0 3; 0 2 rdy 2; 0 2 sent 0 1; 0 2 sent 1 1; 0 2 idle; 0 2 rdy 1; 0 2 req 0 5000; 0 2 idle
        then: 0 2 gone; 0 0 stop
        makes both and leaves it all: 1 EndOfInput: Magic PubA PubB PubC => Okay Okay Okay;
            2 EndOfInput: Magic SubC Rdy2 / Rdy1 Req0Later => Okay GotA GotB

a stop leaves a message without its attempts
        given: 0 1 began; 0 1 idle; 0 1 pub t 0 => OK; 0 1 pub t 1 => OK; 0 1 pub t 2 => OK; 0 1 idle; 0 1 gone; 0 2 began; 0 2 idle;
            0 2 sub t c => OK; 0 0 moved t c 0 3; 0 2 rdy 2; 0 2 sent 0 1; 0 2 sent 1 1; 0 2 idle; 0 2 rdy 1; 0 2 req 0 5000; 0 2 idle
        then: 0 2 gone; 0 0 stop
        makes a history that leaves its attempts: 1 EndOfInput: Magic PubA PubB PubC => Okay Okay Okay;
            2 EndOfInput: Magic SubC Rdy2 / Rdy1 Req0Later => Okay GotA GotB

a second run has what was left, and new ids
        given what a run left: 0 1 began; 0 1 idle; 0 1 pub t 3 => OK; 0 0 moved t c new 1; 0 1 idle; 0 1 gone
        then: 0 2 began; 0 2 idle; 0 2 sub t c => OK; 0 2 rdy 5; 0 2 sent 2 1; 0 2 sent 1 2; 0 2 sent 0 2; 0 2 sent new 1; 0 2 idle;
            0 2 gone
        makes both: 1 EndOfInput: Magic PubD => Okay; 2 EndOfInput: Magic SubC Rdy5 => Okay GotC AgainB AgainA GotNew

a second run goes on with the ids of the first
        given what a run left: 0 1 began; 0 1 idle; 0 1 pub t 3 => OK
        then: 0 0 moved t c 3 1; 0 1 idle; 0 1 gone
        makes no history: 1 EndOfInput: Magic PubD => Okay

a second run forgets the attempts of what was left
        given what a run left: 0 1 began; 0 1 idle; 0 1 pub t 3 => OK; 0 0 moved t c new 1; 0 1 idle; 0 1 gone
        then: 0 2 began; 0 2 idle; 0 2 sub t c => OK; 0 2 rdy 1; 0 2 sent 1 1; 0 2 idle; 0 2 gone
        makes no history: 1 EndOfInput: Magic PubD => Okay; 2 EndOfInput: Magic SubC Rdy1 => Okay GotB
";
