//! Pauses that come back, and files of names that are long.

pub const ROWS: &str = r#"
a topic that is paused comes back so, and its messages wait
    file nsqd.dat {"id_epoch":1,"topics":[{"name":"t","paused":true,"channels":[{"name":"c"}]}]}
    file t.diskqueue.000000.dat \0\0\0\27.\0\0\0\0\0\0\0\0\0\00000010000000000x
    file t.diskqueue.meta.dat 1\n0,0\n0,31\n
    open
    0 stats => stats t depth 1 disk 1 paused [ c ]
    1 begin => begun
    1 SUB t c => OK
    1 RDY 1 => quiet
    1 next => idle
    changed => no
    0 unpause t => done
    changed => yes
    1 next => sends i0*1 x
    save => done
    changed => no
    shut => clean
    leaves nsqd.dat {"id_epoch":2,"topics":[{"channels":[{"name":"c","paused":false}],"name":"t","paused":false}],"version":"1.0.0"}

a channel that is paused comes back so, and its copies stay
    file nsqd.dat {"id_epoch":1,"topics":[{"name":"t","channels":[{"paused":true,"name":"c"}]}]}
    file t:c.diskqueue.000000.dat \0\0\0\27.\0\0\0\0\0\0\0\0\0\00000010000000000x
    file t:c.diskqueue.meta.dat 1\n0,0\n0,31\n
    open
    0 stats => stats t [ c depth 1 disk 1 paused ]
    1 begin => begun
    1 SUB t c => OK
    1 RDY 1 => quiet
    1 next => idle
    0 stop => stopping
    shut => clean
    leaves nsqd.dat {"id_epoch":2,"topics":[{"channels":[{"name":"c","paused":true}],"name":"t","paused":false}],"version":"1.0.0"}
    open
    0 stats => stats t [ c depth 1 disk 1 paused ]
    1 begin => begun
    1 SUB t c => OK
    1 RDY 1 => quiet
    1 next => idle
    0 unpause t c => done
    1 next => sends i0*1 x
    shut => clean

names that were saved are found behind an end without a stop
    open
    changed => no
    0 create t => done
    0 create t c => done
    changed => yes
    save => done
    changed => no
    0 create u => done
    changed => yes
    leave => left
    leaves nsqd.dat {"id_epoch":1,"topics":[{"channels":[{"name":"c","paused":false}],"name":"t","paused":false}],"version":"1.0.0"}
    open
    epoch => 2
    0 names => names t [ c ]
    shut => clean

a text of names of 16 MiB
    long-file 16777216 nsqd.dat {"id_epoch":1}
    open
    epoch => 2
    shut => clean
    leaves nsqd.dat {"id_epoch":2,"topics":[],"version":"1.0.0"}

a text of names of more than 16 MiB
    long-file 16777217 nsqd.dat {"id_epoch":1}
    refused bad-data
"#;
