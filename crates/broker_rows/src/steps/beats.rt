//! Heartbeats, silence, and what a client says of itself.

pub static BEATS: &'static str = r#"
a heartbeat after one interval, silence after two
        given: 0 1 began; 0 1 nop
        then: 30s 1 beat; 30s 1 idle; 60s 1 silent
        leads on

nothing to send, where a heartbeat is due
        given: 0 1 began; 0 1 nop
        then: 30s 1 idle
        leads nowhere

a heartbeat one nanosecond early
        given: 0 1 began; 0 1 nop
        then: 30s-1 1 beat
        leads nowhere

two heartbeats for one interval
        given: 0 1 began; 0 1 nop
        then: 30s 1 beat; 31s 1 beat
        leads nowhere

silence one nanosecond early
        given: 0 1 began; 0 1 nop
        then: 30s 1 beat; 60s-1 1 silent
        leads nowhere

a heartbeat to a client that was silent
        given: 0 1 began; 0 1 nop
        then: 60s 1 beat
        leads nowhere

nothing to send to a client that was silent
        given: 0 1 began; 0 1 nop
        then: 30s 1 beat; 60s 1 idle
        leads nowhere

a command puts silence off
        given: 0 1 began; 0 1 nop
        then: 59s 1 nop; 118s 1 beat; 119s 1 silent
        leads on

a client without a command is silent from its beginning on
        given: 0 1 began
        then: 60s 1 silent
        leads on

a message while a heartbeat is due
        given: 0 1 began; 0 1 pub t 0 => OK; 0 1 sub t c => OK; 0 0 moved t c 0 1; 0 1 rdy 1
        then: 30s 1 sent 0 1
        leads nowhere

a heartbeat, and then the message
        given: 0 1 began; 0 1 pub t 0 => OK; 0 1 sub t c => OK; 0 0 moved t c 0 1; 0 1 rdy 1
        then: 30s 1 beat; 30s 1 sent 0 1
        leads on

an interval that a client asks for
        given: 0 1 began; 0 1 identify {"heartbeat_interval":1000} => OK
        then: 1s 1 beat; 2s 1 silent
        leads on

a client that asks for no heartbeat is never silent
        given: 0 1 began; 0 1 identify {"heartbeat_interval":-1} => OK
        then: 1000s 1 idle
        leads on

a heartbeat to a client that asked for none
        given: 0 1 began; 0 1 identify {"heartbeat_interval":-1} => OK
        then: 1000s 1 beat
        leads nowhere

a client that negotiates is told what there is
        given: 0 1 began
        then: 0 1 identify {"feature_negotiation":true} => FEATURES
        leads on

a client that doesn't is answered OK, and may say it again
        given: 0 1 began
        then: 0 1 identify {} => OK; 0 1 identify {} => OK
        leads on

what is no object is refused
        given: 0 1 began
        then: 0 1 identify [] => E_BAD_BODY bad JSON
        leads on

what is no object is accepted
        given: 0 1 began
        then: 0 1 identify [] => OK
        leads nowhere

a refused IDENTIFY puts a heartbeat off
        given: 0 1 began
        then: 20s 1 identify [] => E_BAD_BODY bad JSON; 30s 1 idle
        leads nowhere

a fault in a client's bytes is answered with its text
        given: 0 1 began
        then: 0 1 refused BadWord 4 => E_INVALID bad command
        leads on
"#;
