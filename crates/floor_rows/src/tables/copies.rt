//! Where messages and copies go: pauses, credit, delays, and what is kept of names.

pub const ROWS: &str = "
a paused topic takes nothing, and a paused channel sends nothing
    0 pause t => no topic | asked
    0 create t => done | asked
    0 pause t c => no channel | asked
    0 unpause t c => no channel | asked
    0 create t c => done | asked
    0 pause t c => done | asked
    1 begin => begun | began
    1 SUB t c => OK | did
    1 RDY 1 => quiet | did
    1 PUB t x => OK | did
    1 next => idle | took t i0 x for c; copied t c i0 x; idle
    0 unpause t c => done | asked
    1 next => sends i0*1 x | sent i0*1 x
    0 pause t => done | asked
    1 PUB t y => OK | did
    1 FIN i0 => quiet | did
    0 stats => stats t depth 1 messages 2 paused [ c messages 1 ( ready 1 sent 1 finished 1 ) ] | asked
    0 unpause t => done | asked
    1 next => sends i1*1 y | took t i1 y for c; copied t c i1 y; sent i1*1 y

a client gets as many as it has credit for
    1 begin => begun | began
    1 MPUB t a b c => OK | did
    1 SUB t c => OK | did
    1 next => idle | took t i0 a for c; copied t c i0 a; took t i1 b for c; copied t c i1 b; took t i2 c for c; copied t c i2 c; idle
    1 RDY 2 => quiet | did
    1 next => sends i0*1 a | sent i0*1 a
    1 next => sends i1*1 b | sent i1*1 b
    1 next => idle | idle
    1 RDY 1 => quiet | did
    1 FIN i0 => quiet | did
    1 next => idle | idle
    1 FIN i1 => quiet | did
    1 next => sends i2*1 c | sent i2*1 c

a delay is forgotten where the message waited on disk
    memory 1
    1 begin => begun | began
    1 DPUB t 1000 x => OK | did
    1 DPUB t 1000 y => OK | did
    1 SUB t c => OK | did
    1 RDY 2 => quiet | took t i0 x in 1000000000 for c; copied t c i0 x in 1000000000; took t i1 y for c; copied t c i1 y; did
    1 next => sends i1*1 y | sent i1*1 y
    at 1s
    1 next => sends i0*1 x | came-due t c i0; sent i0*1 x

a message that is asked to be published waits for its delay
    0 publish t 5000000000 x => done | asked
    0 create t c => done | asked
    1 begin => begun | took t i0 x in 5000000000 for c; copied t c i0 x in 5000000000; began
    1 SUB t c => OK | did
    1 RDY 1 => quiet | did
    at 4999999999
    1 next => idle | idle
    at 5s
    1 next => sends i0*1 x | came-due t c i0; sent i0*1 x

what is kept of names, and when it changed
    epoch => 1
    began => 0
    changed => no
    kept => kept
    1 begin => begun | began
    1 SUB e#ephemeral c => OK | did
    changed => no
    1 PUB t x => OK | did
    changed => yes
    saved => done
    changed => no
    0 create t c => done | asked
    0 create t d#ephemeral => done | took t i0 x for c; copied t c i0 x; asked
    0 create s => done | asked
    changed => yes
    kept => kept s [ ] t [ c ]
    names => names e#ephemeral [ c ] s [ ] t [ c d#ephemeral ]
    saved => done
    0 create s => done | asked
    0 pause t d#ephemeral => done | asked
    0 pause e#ephemeral => done | asked
    changed => no
    0 pause t c => done | asked
    changed => yes
    saved => done
    0 pause s => done | asked
    changed => yes
    kept => kept s paused [ ] t [ c paused ]
    saved => done
    0 delete t d#ephemeral => done | asked
    changed => no
    0 delete s => done | asked
    changed => yes
    kept => kept t [ c paused ]
";
