//! A run and the next one, and epochs.

pub const ROWS: &str = r#"
what was queued, in flight and given back is found by the next run
    open
    epoch => 1
    1 begin => begun
    1 MPUB t a b c => OK
    1 gone => ended
    2 begin => begun
    2 SUB t c => OK
    2 RDY 2 => quiet
    2 next => sends i0*1 a
    2 next => sends i1*1 b
    2 next => idle
    2 RDY 1 => quiet
    2 REQ i0 5000 => quiet
    2 gone => ended
    0 stop => stopping
    shut => clean
    leaves t:c.diskqueue.000000.dat \0\0\0\27.\0\0\0\0\0\0\0\0\0\00000010000000002c\0\0\0\27.\0\0\0\0\0\0\0\0\0\1.0000010000000001b\0\0\0\27.\0\0\0\0\0\0\0\0\0\1.0000010000000000a
    leaves t:c.diskqueue.meta.dat 3\n0,0\n0,93\n
    leaves nsqd.dat {"id_epoch":1,"topics":[{"channels":[{"name":"c","paused":false}],"name":"t","paused":false}],"version":"1.0.0"}
    lacks nsqd.dat.tmp
    open
    epoch => 2
    changed => no
    0 stats => stats t [ c depth 3 disk 3 ]
    leave => left
    leaves nsqd.dat {"id_epoch":2,"topics":[{"channels":[{"name":"c","paused":false}],"name":"t","paused":false}],"version":"1.0.0"}
    lacks nsqd.dat.tmp

the next run's ids are new
    file nsqd.dat {"id_epoch":1,"topics":[{"channels":[{"name":"c","paused":false}],"name":"t","paused":false}],"version":"1.0.0"}
    file t:c.diskqueue.000000.dat \0\0\0\27.\0\0\0\0\0\0\0\0\0\00000010000000002c\0\0\0\27.\0\0\0\0\0\0\0\0\0\1.0000010000000001b\0\0\0\27.\0\0\0\0\0\0\0\0\0\1.0000010000000000a
    file t:c.diskqueue.meta.dat 3\n0,0\n0,93\n
    open
    1 begin => begun
    1 PUB t d => OK
    1 SUB t c => OK
    1 RDY 9 => quiet
    1 next => sends 0000020000000000*1 d
    1 next => sends i2*1 c
    1 next => sends i1*2 b
    1 next => sends i0*2 a
    1 next => idle
    1 FIN i0 => quiet
    1 FIN 0000020000000000 => quiet
    0 stop => stopping
    shut => clean
    leaves nsqd.dat {"id_epoch":2,"topics":[{"channels":[{"name":"c","paused":false}],"name":"t","paused":false}],"version":"1.0.0"}

the last epoch but one is followed by the last, and that by none
    file nsqd.dat {"id_epoch":16777214}
    open
    epoch => 16777215
    0 create t => done
    0 stop => stopping
    shut => clean
    leaves nsqd.dat {"id_epoch":16777215,"topics":[{"channels":[],"name":"t","paused":false}],"version":"1.0.0"}
    refused epoch-spent

the last epoch is spent, and nothing changes
    file nsqd.dat {"id_epoch":16777215}
    file a.diskqueue.000000.dat x
    refused epoch-spent
    leaves nsqd.dat {"id_epoch":16777215}
    leaves a.diskqueue.000000.dat x

three runs of nothing
    open
    epoch => 1
    0 stop => stopping
    shut => clean
    leaves nsqd.dat {"id_epoch":1,"topics":[],"version":"1.0.0"}
    open
    epoch => 2
    shut => clean
    open
    epoch => 3
    leave => left
    leaves nsqd.dat {"id_epoch":3,"topics":[],"version":"1.0.0"}
"#;
