//! A disk that fails once, or from some call on.

pub static ROWS: &'static str = r#"
a publish that isn't written is refused, and the next one is the first
words --mem-queue-size=0
option memory 0
// The file of names is written at the opening.
fails WriteAt 1 to 2
tcp-closed   V2PUB t\n\0\0\0\x01x => bytes \0\0\0\x1b\0\0\0\x01E_PUB_FAILED disk fault
tcp   V2PUB t\n\0\0\0\x01y => OK
leaves t.diskqueue.000000.dat \0\0\0\x1b\0\0\0\0\0\0\0\0\0\00000010000000000y
leaves t.diskqueue.meta.dat 1\n0,0\n0,31\n

names that were saved stay where no message can be written
// The file of names is written at the opening, and behind the second accept.
fails WriteAt 2 to 1000000
tcp   V2PUB t\n\0\0\0\x02hi => OK
tcp
ends status 3
ends told nsqd: stop: disk fault
leaves nsqd.dat {"id_epoch":1,"topics":[{"channels":[],"name":"t","paused":false}],"version":"1.0.0"}

messages that were saved stay where no names can be
words --mem-queue-size=0 --sync-timeout=1ms
option memory 0
option unsaved 1000000
// A file is replaced at the opening, and the topic's metadata at a tick.
fails Rename 2 to 1000000
rises 1000000
tcp   V2PUB t\n\0\0\0\x02hi => OK
tcp
ends status 3
ends told nsqd: stop: disk fault
leaves t.diskqueue.meta.dat 1\n0,0\n0,32\n
leaves nsqd.dat {"id_epoch":1,"topics":[],"version":"1.0.0"}
"#;
