//! What a disk that fails keeps off.

pub const ROWS: &str = "
a publish that the disk keeps off makes no topic and uses no ids
    memory 0
    fails write-at 0 4
    1 begin => begun | began
    1 PUB t x => E_PUB_FAILED disk fault, closes | did, faulted 0
    1 MPUB t x y => E_MPUB_FAILED disk fault, closes | did, faulted 0
    1 DPUB t 5 x => E_DPUB_FAILED disk fault, closes | did, faulted 0
    0 publish t 0 x => disk fault | asked, faulted 0
    0 names => names at 0 | listed
    1 PUB t y => OK | did
    0 create t c => done | asked
    0 stats => stats t messages 1 [ c depth 1 disk 1 messages 1 ] | took t i0 y for c; copied t c i0 y; asked

several messages are published all or none
    memory 0
    fails write-at 2 3
    1 begin => begun | began
    1 PUB t x => OK | did
    1 MPUB t y z => E_MPUB_FAILED disk fault, closes | did, faulted 0
    0 stats => stats t depth 1 disk 1 messages 1 [ ] | asked
    1 MPUB t y z => OK | did
    0 stats => stats t depth 3 disk 3 messages 3 [ ] | asked

a message that can't be given back stays in flight
    memory 0
    // The topic's record and the channel's are written, and that of the message that is given back isn't.
    fails write-at 2 3
    1 begin => begun | began
    1 PUB t x => OK | did
    1 SUB t c => OK | did
    1 RDY 1 => quiet | took t i0 x for c; copied t c i0 x; did
    1 next => sends i0*1 x | sent i0*1 x
    1 REQ i0 0 => E_REQ_FAILED disk fault | did, faulted 0
    0 stats => stats t messages 1 [ c flying 1 messages 1 ( ready 1 flying 1 sent 1 ) ] | asked
    1 REQ i0 0 => quiet | did
    1 next => sends i0*2 x | sent i0*2 x
    1 FIN i0 => quiet | did

a message that can't be read isn't taken, and not sent
    memory 0
    fails read-at 0 1
    1 begin => begun | began
    1 PUB t x => OK | did
    1 SUB t c => OK | did
    1 RDY 1 => quiet | stuck t, faulted 0; did
    1 next => sends i0*1 x | took t i0 x for c; copied t c i0 x; sent i0*1 x

a message of a channel that can't be read is sent later
    memory 0
    // A message is read in two calls: its size and its bytes. The topic's are read, and the channel's aren't.
    fails read-at 2 3
    1 begin => begun | began
    1 PUB t x => OK | did
    1 SUB t c => OK | did
    1 RDY 1 => quiet | took t i0 x for c; copied t c i0 x; did
    1 next => idle | stuck t c, faulted 0
    1 next => sends i0*1 x | sent i0*1 x

what can't be emptied stays
    fails rename 0 2
    0 empty t => no topic | asked
    0 create t => done | asked
    0 empty t c => no channel | asked
    0 create t c => done | asked
    1 begin => begun | began
    1 PUB t x => OK | did
    0 pause t => done | took t i0 x for c; copied t c i0 x; asked
    1 PUB t y => OK | did
    0 empty t => disk fault | asked, faulted 0
    0 empty t c => disk fault | asked, faulted 0
    0 stats => stats t depth 1 messages 2 paused [ c depth 1 messages 1 ] | asked
    0 empty t => done | asked
    0 stats => stats t messages 2 paused [ c depth 1 messages 1 ] | asked
    0 empty t c => done | asked
    0 stats => stats t messages 2 paused [ c messages 1 ] | asked
";
