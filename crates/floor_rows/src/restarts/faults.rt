//! A disk that fails from some call on.

pub const ROWS: &str = r#"
names that were saved stay where no message can be written
    // The file of names is written at the opening, and as it is saved.
    fails write-at 2 1000000
    open
    0 tick => quiet
    1 begin => begun
    1 PUB t hi => OK
    1 gone => ended
    0 tick => quiet
    changed => yes
    save => done
    2 begin => begun
    2 gone => ended
    0 tick => quiet
    changed => no
    0 stop => stopping
    shut => fault
    leaves nsqd.dat {"id_epoch":1,"topics":[{"channels":[],"name":"t","paused":false}],"version":"1.0.0"}
    open
    epoch => 2
    0 stats => stats t [ ]
    shut => clean

messages that were saved stay where no names can be
    memory 0
    unsaved 1000000
    // A file is replaced at the opening, and the topic's metadata at a tick.
    fails rename 2 1000000
    open
    at 1000000
    0 tick => quiet
    at 2000000
    1 begin => begun
    at 3000000
    1 PUB t hi => OK
    at 4000000
    1 gone => ended
    at 5000000
    0 tick => quiet
    changed => yes
    save => fault
    at 6000000
    2 begin => begun
    at 7000000
    2 gone => ended
    at 8000000
    0 tick => quiet
    changed => yes
    save => fault
    at 9000000
    0 stop => stopping
    shut => fault
    leaves nsqd.dat {"id_epoch":1,"topics":[],"version":"1.0.0"}
    leaves t.diskqueue.000000.dat \0\0\0\28.\0\0\0\0\0-\198.\192.\0\00000010000000000hi
    leaves t.diskqueue.meta.dat 1\n0,0\n0,32\n
    open
    epoch => 2
    0 names => names
    shut => clean
    lacks t.diskqueue.meta.dat
    leaves t.diskqueue.meta.dat.bad 1\n0,0\n0,32\n
    lacks t.diskqueue.000000.dat
    leaves t.diskqueue.000000.dat.bad \0\0\0\28.\0\0\0\0\0-\198.\192.\0\00000010000000000hi
"#;
