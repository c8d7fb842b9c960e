//! What comes at a moment: heartbeats, silence, copies that time out or come due, and clocks that go back.

pub const ROWS: &str = r#"
a heartbeat after one interval, and silence after two
    1 begin => begun | began
    1 NOP => quiet | did
    at 29999999999
    1 next => idle | idle
    at 30s
    1 next => sends _heartbeat_ | beat
    1 next => idle | idle
    at 59999999999
    1 next => idle | idle
    at 60s
    1 next => silent | silent
    1 next => silent | silent
    1 NOP => quiet | did
    1 next => sends _heartbeat_ | beat
    1 next => idle | idle

a heartbeat comes before a message, and a client without one is never silent
    1 begin => begun | began
    1 SUB t c => OK | did
    1 RDY 1 => quiet | did
    2 begin => begun | began
    2 IDENTIFY {"heartbeat_interval":-1} => OK | did
    2 PUB t x => OK | did
    at 30s
    1 next => sends _heartbeat_ | took t i0 x for c; copied t c i0 x; beat
    1 next => sends i0*1 x | sent i0*1 x
    at 60s
    1 next => silent | silent
    0 delete t c => done | asked
    1 next => deleted | dropped
    at 9000s
    2 next => idle | idle

moments do not go back, nor beyond the greatest one
    at 9
    1 begin => begun | began
    0 names => names at 9 | listed
    at 5
    0 names => names at 9 | listed
    at 12
    0 names => names at 12 | listed
    at 18446744073709551615
    0 names => names at 4611686018427387904 | listed
    at 0
    0 names => names at 4611686018427387904 | listed

a touch gives a message its time anew
    timeout 1s
    1 begin => begun | began
    1 SUB t c => OK | did
    1 PUB t x => OK | did
    1 RDY 1 => quiet | took t i0 x for c; copied t c i0 x; did
    1 next => sends i0*1 x | sent i0*1 x
    at 600000000
    1 TOUCH i0 => quiet | did
    at 1599999999
    1 NOP => quiet | did
    at 1600000000
    1 NOP => quiet | timed-out t c i0; did

of copies that are due those in flight come first, then deferred ones, each by its moment, then topics
    timeout 1s
    0 create t => done | asked
    0 create t c => done | asked
    1 begin => begun | began
    1 MPUB t a b c d => OK | did
    1 SUB t c => OK | took t i0 a for c; copied t c i0 a; took t i1 b for c; copied t c i1 b; took t i2 c for c; copied t c i2 c; took t i3 d for c; copied t c i3 d; did
    1 RDY 4 => quiet | did
    1 next => sends i0*1 a | sent i0*1 a
    1 next => sends i1*1 b | sent i1*1 b
    1 next => sends i2*1 c | sent i2*1 c
    1 next => sends i3*1 d | sent i3*1 d
    1 REQ i3 500 => quiet | did
    1 REQ i2 400 => quiet | did
    at 100000000
    1 TOUCH i0 => quiet | did
    1 PUB t e => OK | did
    at 5s
    1 NOP => quiet | timed-out t c i1; timed-out t c i0; came-due t c i2; came-due t c i3; took t i4 e for c; copied t c i4 e; did

a client's copies stay in flight when it goes, until they are due
    timeout 1s
    1 begin => begun | began
    1 SUB t c => OK | did
    1 PUB t x => OK | did
    1 RDY 1 => quiet | took t i0 x for c; copied t c i0 x; did
    1 next => sends i0*1 x | sent i0*1 x
    1 gone => ended | gone
    2 begin => begun | began
    2 SUB t c => OK | did
    2 RDY 5 => quiet | did
    2 FIN i0 => E_FIN_FAILED message not in flight | did
    2 next => idle | idle
    0 stats => stats t messages 1 [ c flying 1 messages 1 ( ready 5 ) ] | asked
    at 1s
    2 next => sends i0*2 x | timed-out t c i0; sent i0*2 x
"#;
