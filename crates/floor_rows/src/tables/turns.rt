//! Turns of two clients, and a copy that a disk fault keeps off.

pub const ROWS: &str = "
turns of two clients, a deletion and a stop
    1 begin => begun | began
    1 PUB t x => OK | did
    2 begin => begun | began
    2 SUB t c => OK | did
    2 RDY 1 => quiet | took t i0 x for c; copied t c i0 x; did
    2 next => sends i0*1 x | sent i0*1 x
    2 next => idle | idle
    1 SUB t c => OK | did
    1 FIN i0 => E_FIN_FAILED message not in flight | did
    2 FIN i0 => quiet | did
    0 delete t c => done | asked
    2 next => deleted | dropped
    0 stop => stopping | stop
    0 stop => stopping

a copy that a disk fault keeps off is made in the next turn
    memory 0
    // The record of the topic is written, and that of the channel a; that of b fails.
    fails write-at 2 3
    0 create t => done | asked
    0 create t a => done | asked
    0 create t b => done | asked
    0 create t c => done | asked
    1 begin => begun | began
    1 PUB t x => OK | did
    1 next => idle | took t i0 x for a b c; copied t a i0 x; copied t b i0 x, faulted 0; idle
    1 next => idle | copied t b i0 x; copied t c i0 x; idle
    0 stats => stats t messages 1 [ a depth 1 disk 1 messages 1 b depth 1 disk 1 messages 1 c depth 1 disk 1 messages 1 ] | asked
    2 begin => begun | began
    2 SUB t b => OK | did
    2 RDY 2 => quiet | did
    2 next => sends i0*1 x | sent i0*1 x
    2 next => idle | idle
";
