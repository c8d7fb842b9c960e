//! Copies that are held back, since one of their id is in flight: files say an epoch below that of their messages' ids, and the run uses these
//! ids again.

pub const ROWS: &str = r#"
a copy on disk is held back while one with its id is in flight, and comes due
    file nsqd.dat {"topics":[{"name":"t","channels":[{"name":"c"}]}]}
    file t:c.diskqueue.000000.dat \0\0\0\27.\0\0\0\0\0\0\0\0\0\00000010000000000x
    file t:c.diskqueue.meta.dat 1\n0,0\n0,31\n
    timeout 1s
    open
    1 begin => begun
    1 SUB t c => OK
    1 PUB t y => OK
    1 RDY 9 => quiet
    1 next => sends i0*1 y
    1 next => idle
    0 stats => stats t messages 1 [ c deferred 1 flying 1 messages 1 ]
    1 FIN i0 => quiet
    at 1s
    1 next => sends i0*1 x
    1 FIN i0 => quiet
    1 next => idle
    0 stop => stopping
    shut => clean; held t c i0
"#;
