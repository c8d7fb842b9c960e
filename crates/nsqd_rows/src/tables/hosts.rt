//! A machine whose listeners, standard output or standard error fail.

pub static ROWS: &'static str = r#"
a version that can't be printed
words --version
fails print 0
ends status 6
ends told nsqd: output fault
lacks nsqd.dat

a drill that can't be printed
words drill 7 1
fails print 0
ends status 6
ends told nsqd: output fault
lacks nsqd.dat

bad words whose line can't be told
words --nope
fails tell 0
ends status 1
lacks nsqd.dat

an address that can't be listened at
fails accept 0
tcp   V2PUB t\n\0\0\0\x02hi => OK
ends behind 1
ends status 4
ends told nsqd: accept failed
lacks nsqd.dat

listeners that fail behind a caller, whose message is kept
// The start, the publisher's accept, and the next one.
fails accept 2
tcp   V2PUB t\n\0\0\0\x02hi => OK
tcp
ends behind 1
ends status 4
ends told nsqd: accept failed
leaves nsqd.dat {"id_epoch":1,"topics":[{"channels":[],"name":"t","paused":false}],"version":"1.0.0"}
leaves t.diskqueue.000000.dat \0\0\0\x1c\0\0\0\0\0\0\0\0\0\00000010000000000hi
"#;
