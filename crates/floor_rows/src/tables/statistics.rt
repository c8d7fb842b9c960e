//! Worked examples with their statistics.

pub const ROWS: &str = "
a second FIN is refused, and a NOP behind it is taken
    1 begin => begun | began
    1 PUB t a => OK | did
    2 begin => begun | began
    2 SUB t c => OK | did
    2 RDY 1 => quiet | took t i0 a for c; copied t c i0 a; did
    2 next => sends i0*1 a | sent i0*1 a
    0 stats => stats t messages 1 [ c flying 1 messages 1 ( ready 1 flying 1 sent 1 ) ] | asked
    2 FIN i0 => quiet | did
    0 stats => stats t messages 1 [ c messages 1 ( ready 1 sent 1 finished 1 ) ] | asked
    2 FIN i0 => E_FIN_FAILED message not in flight | did
    2 NOP => quiet | did
    2 next => idle | idle

a message times out at its moment, before its FIN, and is sent again
    timeout 1s
    1 begin => begun | began
    1 PUB t x => OK | did
    2 begin => begun | began
    2 SUB t c => OK | did
    2 RDY 1 => quiet | took t i0 x for c; copied t c i0 x; did
    2 next => sends i0*1 x | sent i0*1 x
    at 999999999
    2 next => idle | idle
    at 1s
    2 FIN i0 => E_FIN_FAILED message not in flight | timed-out t c i0; did
    0 stats => stats t messages 1 [ c depth 1 messages 1 timed-out 1 ( ready 1 sent 1 ) ] | asked
    2 next => sends i0*2 x | sent i0*2 x
    2 FIN i0 => quiet | did
    0 stats => stats t messages 1 [ c messages 1 timed-out 1 ( ready 1 sent 2 finished 1 ) ] | asked

one of two given back waits, and after the longest delay both do
    1 begin => begun | began
    1 PUB t a => OK | did
    1 PUB t b => OK | did
    2 begin => begun | began
    2 SUB t c => OK | did
    2 RDY 2 => quiet | took t i0 a for c; copied t c i0 a; took t i1 b for c; copied t c i1 b; did
    2 next => sends i0*1 a | sent i0*1 a
    2 next => sends i1*1 b | sent i1*1 b
    2 RDY 0 => quiet | did
    2 REQ i0 0 => quiet | did
    2 REQ i1 99999999 => quiet | did
    2 next => idle | idle
    0 stats => stats t messages 2 [ c depth 1 deferred 1 messages 2 requeued 2 ( sent 2 requeued 2 ) ] | asked
    at 3599999999999
    0 stats => stats t messages 2 [ c depth 1 deferred 1 messages 2 requeued 2 ( sent 2 requeued 2 ) ] | asked
    at 3600s
    0 stats => stats t messages 2 [ c depth 2 messages 2 requeued 2 ( sent 2 requeued 2 ) ] | came-due t c i1; asked

messages that wait go to the first channel alone
    1 begin => begun | began
    1 PUB t a => OK | did
    1 PUB t b => OK | did
    1 PUB t c => OK | did
    0 stats => stats t depth 3 messages 3 [ ] | asked
    2 begin => begun | began
    2 SUB t c1 => OK | did
    2 gone => ended | took t i0 a for c1; copied t c1 i0 a; took t i1 b for c1; copied t c1 i1 b; took t i2 c for c1; copied t c1 i2 c; gone
    3 begin => begun | began
    3 SUB t c2 => OK | did
    0 stats => stats t messages 3 [ c1 depth 3 messages 3 c2 ( ) ] | asked
    0 stats t c2 => stats t messages 3 [ c2 ( ) ] | asked
    0 stats u => stats | asked

a delayed message is deferred as it is copied, and queued once its delay is over
    0 create t => done | asked
    0 create t c => done | asked
    1 begin => begun | began
    1 DPUB t 1000 d => OK | did
    0 stats => stats t messages 1 [ c deferred 1 messages 1 ] | took t i0 d in 1000000000 for c; copied t c i0 d in 1000000000; asked
    at 999999999
    0 stats => stats t messages 1 [ c deferred 1 messages 1 ] | asked
    at 1s
    0 stats => stats t messages 1 [ c depth 1 messages 1 ] | came-due t c i0; asked
    1 DPUB t 3600001 d => E_INVALID bad delay, closes | did
    1 DPUB t 3600000 d => OK | did
";
