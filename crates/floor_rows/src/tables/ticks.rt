//! Ticks: what they move, and which queues they save.

pub const ROWS: &str = r"
a queue that has been unsaved for the sync timeout is saved
    memory 0
    1 begin => begun | began
    1 PUB t x => OK | did
    at 2s
    0 tick => quiet | ticked
    leave => left
    leaves t.diskqueue.000000.dat \0\0\0\27.\0\0\0\0\0\0\0\0\0\00000010000000000x
    leaves t.diskqueue.meta.dat 1\n0,0\n0,31\n

a queue that has been unsaved for a nanosecond less isn't
    memory 0
    1 begin => begun | began
    1 PUB t x => OK | did
    at 1999999999
    0 tick => quiet | ticked
    leave => left
    lacks t.diskqueue.meta.dat

a save that fails is made by the next tick
    memory 0
    fails rename 0 1
    1 begin => begun | began
    1 PUB t x => OK | did
    at 2s
    0 tick => quiet | ticked
    0 tick => quiet | ticked
    leave => left
    leaves t.diskqueue.meta.dat 1\n0,0\n0,31\n

a save that fails leaves no metadata
    memory 0
    fails sync 0 1
    1 begin => begun | began
    1 PUB t x => OK | did
    at 2s
    0 tick => quiet | ticked
    leave => left
    lacks t.diskqueue.meta.dat

a tick moves what is due, whoever makes it, and saves queues of topics and channels
    memory 0
    0 create t => done | asked
    0 create t c => done | asked
    1 begin => begun | began
    1 PUB t x => OK | did
    1 tick => quiet | took t i0 x for c; copied t c i0 x; ticked
    at 2s
    1 tick => quiet | ticked
    leave => left
    leaves t.diskqueue.meta.dat 0\n0,31\n0,31\n
    leaves t:c.diskqueue.meta.dat 1\n0,0\n0,31\n
";
