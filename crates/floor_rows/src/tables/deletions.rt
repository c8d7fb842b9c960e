//! Topics and channels that are deleted, also where the disk fails on the way.

pub const ROWS: &str = "
a topic's deletion meets a fault at each of its channels, and at last at its own queue
    // Each queue's deletion replaces its metadata by one rename.
    fails rename 0 1
    fails rename 2 3
    fails rename 4 5
    0 create t => done | asked
    0 create t a => done | asked
    0 create t b => done | asked
    1 begin => begun | began
    1 SUB t a => OK | did
    2 begin => begun | began
    2 SUB t b => OK | did
    0 delete t => disk fault | asked, faulted 0
    0 names => names at 0 t [ a b ] | listed
    1 next => idle | idle
    0 delete t => disk fault | asked, faulted 1
    0 names => names at 0 t [ b ] | listed
    1 next => deleted | dropped
    2 next => idle | idle
    0 delete t => disk fault | asked, faulted 1
    0 names => names at 0 t [ ] | listed
    2 next => deleted | dropped
    0 delete t => done | asked
    0 names => names at 0 | listed
    0 delete t => no topic | asked

what a fault leaves of a topic stays in use
    fails rename 1 2
    0 create t => done | asked
    0 create t a => done | asked
    0 create t b => done | asked
    0 create t c => done | asked
    1 begin => begun | began
    1 PUB t x => OK | did
    2 begin => begun | took t i0 x for a b c; copied t a i0 x; copied t b i0 x; copied t c i0 x; began
    2 SUB t c => OK | did
    2 RDY 1 => quiet | did
    2 next => sends i0*1 x | sent i0*1 x
    0 delete t => disk fault | asked, faulted 1
    2 FIN i0 => quiet | did
    0 stats => stats t messages 1 [ b depth 1 messages 1 c messages 1 ( ready 1 sent 1 finished 1 ) ] | asked
    1 PUB t y => OK | did
    2 next => sends i1*1 y | took t i1 y for b c; copied t b i1 y; copied t c i1 y; sent i1*1 y
    0 delete t => done | asked
    2 FIN i1 => deleted | dropped
    0 names => names at 0 | listed

a channel is deleted, also behind a fault, and is new where it is made again
    fails rename 0 1
    0 delete t c => no topic | asked
    0 create t c => no topic | asked
    0 create t => done | asked
    0 delete t c => no channel | asked
    0 create t c => done | asked
    0 create t c => done | asked
    0 create t => done | asked
    1 begin => begun | began
    1 SUB t c => OK | did
    1 PUB t x => OK | did
    1 RDY 1 => quiet | took t i0 x for c; copied t c i0 x; did
    1 next => sends i0*1 x | sent i0*1 x
    0 delete t c => disk fault | asked, faulted 0
    1 TOUCH i0 => quiet | did
    0 delete t c => done | asked
    0 create t c => done | asked
    1 NOP => deleted | dropped
    1 bad word => E_INVALID bad command, closes | refused
    0 stats => stats t messages 1 [ c ] | asked
    1 gone => ended | gone

a message that was taken goes with the one channel that it is owed to
    memory 0
    // The topic's record is written; the channel's isn't, twice.
    fails write-at 1 3
    0 create t => done | asked
    0 create t c => done | asked
    1 begin => begun | began
    1 PUB t x => OK | did
    1 next => idle | took t i0 x for c; copied t c i0 x, faulted 0; idle
    0 delete t c => done | copied t c i0 x, faulted 0; asked
    0 create t c => done | asked
    0 stats => stats t messages 1 [ c ] | asked

a copy that is owed to a deleted channel is made to the others
    memory 0
    fails write-at 1 3
    0 create t => done | asked
    0 create t a => done | asked
    0 create t b => done | asked
    1 begin => begun | began
    1 PUB t x => OK | did
    1 next => idle | took t i0 x for a b; copied t a i0 x, faulted 0; idle
    0 delete t a => done | copied t a i0 x, faulted 0; asked
    1 next => idle | copied t b i0 x; idle
    0 stats => stats t messages 1 [ b depth 1 disk 1 messages 1 ] | asked
";
