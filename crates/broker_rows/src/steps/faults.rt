//! Disk faults: what each can keep off, and that it changes nothing else.

pub static FAULTS: &'static str = "
REQ of a message that a disk fault keeps in flight
        given: 0 1 began; 0 1 mpub t 0 2 => OK; 0 2 began; 0 2 sub t c => OK; 0 0 moved t c 0 2; 0 2 rdy 2; 0 2 sent 0 1
        then: 0 2 faulted 0 req 0 0; 0 2 fin 0
        leads to t c 1 0 0

a message that a disk fault keeps in flight is sent again
        given: 0 1 began; 0 1 mpub t 0 2 => OK; 0 2 began; 0 2 sub t c => OK; 0 0 moved t c 0 2; 0 2 rdy 2; 0 2 sent 0 1
        then: 0 2 faulted 0 req 0 0; 0 2 sent 0 2
        leads nowhere

a disk fault in place of REQ's refusal
        given: 0 1 began; 0 1 mpub t 0 2 => OK; 0 2 began; 0 2 sub t c => OK; 0 0 moved t c 0 2; 0 2 rdy 2; 0 2 sent 0 1
        then: 0 2 faulted 0 req 1 0 => E_REQ_FAILED message not in flight
        leads nowhere

a disk fault in place of a publish's refusal
        given no ids: 0 1 began
        then: 0 1 faulted 0 pub t 0 => E_PUB_FAILED ids spent
        leads nowhere

a disk fault at a publish that is counted
        given: 0 1 began; 0 1 mpub t 0 2 => OK; 0 2 began; 0 2 sub t c => OK; 0 0 moved t c 0 2; 0 2 rdy 2
        then: 0 1 faulted 1 pub t 2 => OK
        leads nowhere

a disk fault at FIN
        given: 0 1 began; 0 1 mpub t 0 2 => OK; 0 2 began; 0 2 sub t c => OK; 0 0 moved t c 0 2; 0 2 rdy 2; 0 2 sent 0 1
        then: 0 2 faulted 0 fin 0
        leads nowhere

a disk fault at SUB
        given: 0 1 began; 0 1 mpub t 0 2 => OK; 0 2 began; 0 2 sub t c => OK; 0 0 moved t c 0 2; 0 2 rdy 2
        then: 0 1 faulted 0 sub t c => OK
        leads nowhere

a message that a disk fault kept off stays, and is sent later
        given: 0 1 began; 0 1 mpub t 0 2 => OK; 0 2 began; 0 2 sub t c => OK; 0 0 moved t c 0 2; 0 2 rdy 2
        then: 0 2 faulted 0 stuck t c; 0 2 sent 0 1
        leads to t c 1 1 0

a message of another channel that a disk fault kept off
        given: 0 1 began; 0 1 mpub t 0 2 => OK; 0 2 began; 0 2 sub t c => OK; 0 0 moved t c 0 2; 0 2 rdy 2
        then: 0 2 faulted 0 stuck t d
        leads nowhere

a disk fault keeps a message from a client without credit
        given: 0 1 began; 0 1 mpub t 0 2 => OK; 0 2 began; 0 2 sub t c => OK; 0 0 moved t c 0 2; 0 2 rdy 2
        then: 0 2 rdy 0; 0 2 faulted 0 stuck t c
        leads nowhere

a message is sent and meets a disk fault
        given: 0 1 began; 0 1 mpub t 0 2 => OK; 0 2 began; 0 2 sub t c => OK; 0 0 moved t c 0 2; 0 2 rdy 2
        then: 0 2 faulted 0 sent 0 1
        leads nowhere

a disk fault leaves a channel that was to be emptied as it is
        given: 0 1 began; 0 1 mpub t 0 2 => OK; 0 2 began; 0 2 sub t c => OK; 0 0 moved t c 0 2; 0 2 rdy 2; 0 2 sent 0 1
        then: 0 0 faulted 0 empty t c => done
        leads to t c 1 1 0

a disk fault at a pause
        given: 0 1 began; 0 1 mpub t 0 2 => OK; 0 2 began; 0 2 sub t c => OK; 0 0 moved t c 0 2; 0 2 rdy 2
        then: 0 0 faulted 0 pause t c => done
        leads nowhere

a move that nothing was due for meets a disk fault
        given: 0 1 began; 0 1 mpub t 0 2 => OK; 0 2 began; 0 2 sub t c => OK; 0 0 moved t c 0 2; 0 2 rdy 2
        then: 0 0 faulted 0 timed-out t c 0
        leads nowhere

a message that timed out meets a disk fault, and a command passes it over
        given: 0 1 began; 0 1 mpub t 0 2 => OK; 0 2 began; 0 2 sub t c => OK; 0 0 moved t c 0 2; 0 2 rdy 2; 0 2 sent 0 1
        then: 60s 0 faulted 0 timed-out t c 0; 60s 2 fin 0
        leads on
";
