//! Files that aren't in their grammar, and files that no topic and no channel has.

pub const ROWS: &str = r#"
a file of names that is no object
    file nsqd.dat []
    refused bad-data
    leaves nsqd.dat []
    lacks nsqd.dat.tmp

the first call of the folder fails
    fails any 0 1
    refused fault
    lacks nsqd.dat
    open
    epoch => 1
    shut => clean

metadata of a listed topic that isn't in its grammar
    file nsqd.dat {"id_epoch":1,"topics":[{"channels":[{"name":"c","paused":false}],"name":"t","paused":false}],"version":"1.0.0"}
    file t.diskqueue.meta.dat 1\n0\n
    refused bad-data
    leaves nsqd.dat {"id_epoch":1,"topics":[{"channels":[{"name":"c","paused":false}],"name":"t","paused":false}],"version":"1.0.0"}
    leaves t.diskqueue.meta.dat 1\n0\n

metadata of a listed channel that isn't in its grammar
    file nsqd.dat {"id_epoch":1,"topics":[{"channels":[{"name":"c","paused":false}],"name":"t","paused":false}],"version":"1.0.0"}
    file t:c.diskqueue.meta.dat 1\n0,1\n0,0\n
    refused bad-data
    leaves nsqd.dat {"id_epoch":1,"topics":[{"channels":[{"name":"c","paused":false}],"name":"t","paused":false}],"version":"1.0.0"}

bad metadata that no file of names lists is set aside
    file t.diskqueue.meta.dat 1\n0\n
    open
    epoch => 1
    0 names => names
    shut => clean
    lacks t.diskqueue.meta.dat
    leaves t.diskqueue.meta.dat.bad 1\n0\n

a data file that no file of names lists is set aside
    file a.diskqueue.000000.dat abc
    open
    0 names => names
    0 stats => stats
    shut => clean
    lacks a.diskqueue.000000.dat
    leaves a.diskqueue.000000.dat.bad abc

of a listed topic the files of a channel that isn't listed are set aside, in place of such files that are there
    file nsqd.dat {"id_epoch":1,"topics":[{"channels":[{"name":"c","paused":false}],"name":"t","paused":false}],"version":"1.0.0"}
    file t:c.diskqueue.000000.dat \0\0\0\27.\0\0\0\0\0\0\0\0\0\00000010000000000x
    file t:c.diskqueue.meta.dat 1\n0,0\n0,31\n
    file t:d.diskqueue.000000.dat new
    file t:d.diskqueue.000000.dat.bad old
    file t:d.diskqueue.meta.dat none
    file readme stays
    open
    0 stats => stats t [ c depth 1 disk 1 ]
    0 create t d => done
    0 stats => stats t [ c depth 1 disk 1 d ]
    shut => clean
    leaves t:d.diskqueue.000000.dat.bad new
    leaves t:d.diskqueue.meta.dat.bad none
    leaves readme stays
"#;
