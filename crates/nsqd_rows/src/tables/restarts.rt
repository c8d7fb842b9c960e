//! A run and the next one.

pub static ROWS: &'static str = r#"
what was queued, in flight and given back is found by the next run, whose ids are new
tcp   V2PUB t\n\0\0\0\x01aPUB t\n\0\0\0\x01bPUB t\n\0\0\0\x01c => OK, OK, OK
tcp   V2SUB t c\nRDY 2\n|RDY 1\nREQ 0000010000000000 5000\n => OK, first 0000010000000000a, first 0000010000000001b
// A channel's records: a queued message that was never sent, and then one in flight and one deferred, each sent once.
leaves t:c.diskqueue.000000.dat \0\0\0\x1b\0\0\0\0\0\0\0\0\0\00000010000000002c\0\0\0\x1b\0\0\0\0\0\0\0\0\0\x010000010000000001b\0\0\0\x1b\0\0\0\0\0\0\0\0\0\x010000010000000000a
leaves t:c.diskqueue.meta.dat 3\n0,0\n0,93\n
leaves nsqd.dat {"id_epoch":1,"topics":[{"channels":[{"name":"c","paused":false}],"name":"t","paused":false}],"version":"1.0.0"}
then
tcp   V2SUB t c\nRDY 9\n => OK, first 0000010000000002c, second 0000010000000001b, second 0000010000000000a
tcp   V2PUB u\n\0\0\0\x01d => OK
leaves nsqd.dat {"id_epoch":2,"topics":[{"channels":[{"name":"c","paused":false}],"name":"t","paused":false},{"channels":[],"name":"u","paused":false}],"version":"1.0.0"}
leaves u.diskqueue.000000.dat \0\0\0\x1b\0\0\0\0\0\0\0\0\0\00000020000000000d
"#;
