//! Turns of each kind in one run, for the failing of each allocation in turn.

pub const ROWS: &str = r#"
each kind of turn
    memory 1
    timeout 1s
    1 begin => begun | began
    1 IDENTIFY {"client_id":"me","feature_negotiation":true} => {"auth_required":false,"deflate":false,"deflate_level":0,"max_deflate_level":0,"max_msg_timeout":900000,"max_rdy_count":2500,"msg_timeout":1000,"sample_rate":0,"snappy":false,"tls_v1":false,"version":"1.0.0"} | did
    1 SUB t c => OK | did
    1 MPUB t x y => OK | did
    1 RDY 3 => quiet | took t i0 x for c; copied t c i0 x; took t i1 y for c; copied t c i1 y; did
    0 create u => done | asked
    0 create t d => done | asked
    1 next => sends i0*1 x | sent i0*1 x
    1 next => sends i1*1 y | sent i1*1 y
    1 TOUCH i1 => quiet | did
    1 REQ i0 500 => quiet | did
    1 REQ i1 0 => quiet | did
    1 next => sends i1*2 y | sent i1*2 y
    1 FIN i1 => quiet | did
    at 500000000
    1 next => sends i0*2 x | came-due t c i0; sent i0*2 x
    1 DPUB u 100 z => OK | did
    0 publish t 0 w => done | asked
    0 pause t d => done | took t i3 w for c d; copied t c i3 w; copied t d i3 w; asked
    0 stats => stats t messages 3 [ c depth 1 flying 1 messages 3 requeued 2 ( id me ready 3 flying 1 sent 4 finished 1 requeued 2 ) d depth 1 messages 1 paused ] u depth 1 messages 1 [ ] | asked
    0 names => names at 500000000 t [ c d ] u [ ] | listed
    0 tick => quiet | ticked
    at 2s
    1 NOP => quiet | timed-out t c i0; did
    0 empty t d => done | asked
    0 delete t d => done | asked
    0 unpause t => done | asked
    0 empty u => done | asked
    0 delete u => done | asked
    1 bad word => E_INVALID bad command, closes | refused
    1 CLS => CLOSE_WAIT | did
    at 30s
    1 next => sends _heartbeat_ | beat
    1 next => idle | idle
    2 begin => begun | began
    2 SUB t c#ephemeral => OK | did
    2 gone => ended | gone
    3 begin => begun | began
    3 SUB e#ephemeral c => OK | did
    3 PUB e#ephemeral v => OK | did
    3 gone => ended | took e#ephemeral i4 v for c; copied e#ephemeral c i4 v; gone
    0 delete t c => done | asked
    1 next => deleted | dropped
    1 NOP => deleted | dropped
    at 100s
    1 gone => ended | gone
    4 begin => begun | began
    at 160s
    4 next => silent | silent
    0 stop => stopping | stop
"#;
