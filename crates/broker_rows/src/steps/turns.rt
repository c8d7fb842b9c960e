//! What stands before an act, stops, moments, and numbers of connections.

pub static TURNS: &'static str = "
a turn makes moves until nothing is due
        given: 0 1 began; 0 1 mpub t 0 40 => OK; 0 2 began; 0 2 sub t c => OK; 0 0 moved t c 0 40
        then: 0 2 rdy 1
        leads to t c 40 0 0

a turn acts behind as many moves as it makes
        given: 0 1 began; 0 1 mpub t 0 40 => OK; 0 2 began; 0 2 sub t c => OK; 0 0 moved t c 0 32
        then: 0 2 rdy 1
        leads to t c 32 0 0

a turn acts behind one move fewer, while one more is due
        given: 0 1 began; 0 1 mpub t 0 40 => OK; 0 2 began; 0 2 sub t c => OK; 0 0 moved t c 0 31; 0 0 took t 31 0 c
        then: 0 2 rdy 1
        leads nowhere

a turn acts behind moves of an earlier moment, while one more is due
        given: 0 1 began; 0 1 mpub t 0 40 => OK; 0 2 began; 0 2 sub t c => OK; 0 0 moved t c 0 32
        then: 1 2 rdy 1
        leads nowhere

a second act behind one turn's moves, while one more is due
        given: 0 1 began; 0 1 mpub t 0 40 => OK; 0 2 began; 0 2 sub t c => OK; 0 0 moved t c 0 32
        then: 0 2 rdy 1; 0 2 sent 0 1
        leads nowhere

a turn that gets stuck acts all the same
        given: 0 1 began; 0 1 mpub t 0 40 => OK; 0 2 began; 0 2 sub t c => OK
        then: 0 0 faulted 0 stuck t; 0 2 rdy 1
        leads on

a topic that takes nothing gets stuck
        given: 0 1 began; 0 1 pub t 0 => OK
        then: 0 0 faulted 0 stuck t
        leads nowhere

turns of two clients, a deletion and a stop
        given: 0 1 began; 0 1 pub t 0 => OK; 0 2 began; 0 2 sub t c => OK; 0 0 took t 0 0 c; 0 0 copied t c 0 0; 0 2 rdy 1;
            0 2 sent 0 1; 0 2 idle; 0 1 sub t c => OK; 0 1 fin 0 => E_FIN_FAILED message not in flight; 0 2 fin 0;
            0 0 delete t c => done; 0 2 dropped
        then: 0 0 stop; 0 2 gone; 0 0 listed t
        leads on

two stops
        given: 0 1 began; 0 1 pub t 0 => OK; 0 2 began; 0 2 sub t c => OK; 0 0 took t 0 0 c; 0 0 copied t c 0 0; 0 2 rdy 1;
            0 2 sent 0 1; 0 2 idle; 0 1 sub t c => OK; 0 1 fin 0 => E_FIN_FAILED message not in flight; 0 2 fin 0;
            0 0 delete t c => done; 0 2 dropped; 0 0 stop
        then: 0 0 stop
        leads nowhere

a command behind a stop
        given: 0 1 began; 0 1 pub t 0 => OK; 0 0 stop
        then: 0 1 nop
        leads nowhere

a look at the clock behind a stop
        given: 0 1 began; 0 1 pub t 0 => OK; 0 0 stop
        then: 0 0 ticked
        leads nowhere

a stop leaves what waits, and a connection may still begin
        given: 0 1 began; 0 1 mpub t 0 40 => OK; 0 2 began; 0 2 sub t c => OK; 0 0 moved t c 0 32
        then: 0 0 stop; 0 3 began; 0 3 gone
        leads to t c 32 0 0

a move behind a stop
        given: 0 1 began; 0 1 mpub t 0 40 => OK; 0 2 began; 0 2 sub t c => OK; 0 0 moved t c 0 32; 0 0 stop
        then: 0 0 took t 32 0 c
        leads nowhere

a stop passes a copy over that is owed, behind many moves
        given: 0 1 began; 0 1 mpub t 0 40 => OK; 0 2 began; 0 2 sub t c => OK; 0 0 moved t c 0 32; 0 0 took t 32 0 c
        then: 0 0 stop
        leads nowhere

a stop that a disk fault kept from paying
        given: 0 1 began; 0 1 mpub t 0 40 => OK; 0 2 began; 0 2 sub t c => OK; 0 0 took t 0 0 c; 0 0 faulted 0 copied t c 0 0
        then: 0 0 stop
        leads on

a connection begins twice
        given: 0 1 began; 0 1 pub t 0 => OK
        then: 0 1 gone; 0 1 began
        leads nowhere

a command of a connection that never began
        given: 0 1 began; 0 1 pub t 0 => OK
        then: 0 2 nop
        leads nowhere

a connection without a number
        given:
        then: 0 0 began
        leads nowhere

a move in a connection's name
        given: 0 1 began; 0 1 mpub t 0 40 => OK; 0 2 began; 0 2 sub t c => OK
        then: 0 2 took t 0 0 c
        leads nowhere

a moment before the last one
        given: 0 1 began; 0 1 pub t 0 => OK; 5 1 nop
        then: 4 1 nop
        leads nowhere

a moment beyond the greatest one
        given: 4611686018427387904 0 ticked
        then: 4611686018427387905 0 ticked
        leads nowhere
";
