//! What an opening finds, and why it is refused.

pub static ROWS: &'static str = r#"
a file of names that is a list
file nsqd.dat []
ends status 2
ends told nsqd: data path: bad data
leaves nsqd.dat []

the last epoch is spent
file nsqd.dat {"id_epoch":16777215}
ends status 2
ends told nsqd: data path: ids spent
leaves nsqd.dat {"id_epoch":16777215}

the last epoch but one is followed by the last
file nsqd.dat {"id_epoch":16777214}
leaves nsqd.dat {"id_epoch":16777215,"topics":[],"version":"1.0.0"}

the first call of the folder fails
fails Any 0 to 1
ends status 2
ends told nsqd: data path: disk fault
lacks nsqd.dat

the metadata of a topic that is listed is cut off
file nsqd.dat {"id_epoch":1,"topics":[{"channels":[],"name":"t","paused":false}],"version":"1.0.0"}
file t.diskqueue.meta.dat 1\n0\n
ends status 2
ends told nsqd: data path: bad data
leaves t.diskqueue.meta.dat 1\n0\n

the metadata of a topic that isn't listed is set aside
file t.diskqueue.meta.dat 1\n0\n
lacks t.diskqueue.meta.dat
leaves t.diskqueue.meta.dat.bad 1\n0\n
leaves nsqd.dat {"id_epoch":1,"topics":[],"version":"1.0.0"}

a data file of no topic is set aside
file a.diskqueue.000000.dat x
lacks a.diskqueue.000000.dat
leaves a.diskqueue.000000.dat.bad x
lacks t.diskqueue.000000.dat
leaves nsqd.dat {"id_epoch":1,"topics":[],"version":"1.0.0"}
"#;
