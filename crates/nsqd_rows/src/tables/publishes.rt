//! Publishes, what is refused, what a client says of itself, and callers of both kinds.

pub static ROWS: &'static str = r#"
a publish is kept
tcp   V2PUB t\n\0\0\0\x02hi => OK
leaves t.diskqueue.000000.dat \0\0\0\x1c\0\0\0\0\0\0\0\0\0\00000010000000000hi
leaves t.diskqueue.meta.dat 1\n0,0\n0,32\n
leaves nsqd.dat {"id_epoch":1,"topics":[{"channels":[],"name":"t","paused":false}],"version":"1.0.0"}
lacks nsqd.dat.tmp

a publish in single bytes is kept
size 1
tcp   V2PUB t\n\0\0\0\x02hi => OK
leaves t.diskqueue.000000.dat \0\0\0\x1c\0\0\0\0\0\0\0\0\0\00000010000000000hi
leaves t.diskqueue.meta.dat 1\n0,0\n0,32\n
leaves nsqd.dat {"id_epoch":1,"topics":[{"channels":[],"name":"t","paused":false}],"version":"1.0.0"}
lacks nsqd.dat.tmp

a caller that ends at once
tcp
leaves nsqd.dat {"id_epoch":1,"topics":[],"version":"1.0.0"}

another magic
tcp-closed   V1 => bytes \0\0\0\x12\0\0\0\x01E_BAD_PROTOCOL
leaves nsqd.dat {"id_epoch":1,"topics":[],"version":"1.0.0"}

several messages whose last size is wrong make no topic
tcp-closed   V2MPUB t\n\0\0\0\x13\0\0\0\x03\0\0\0\x01a\0\0\0\x01b\0\0\0\x02c => bytes \0\0\0\x17\0\0\0\x01E_BAD_BODY bad body
leaves nsqd.dat {"id_epoch":1,"topics":[],"version":"1.0.0"}
lacks t.diskqueue.000000.dat

several messages are three
tcp   V2MPUB t\n\0\0\0\x13\0\0\0\x03\0\0\0\x01a\0\0\0\x01b\0\0\0\x01c => OK
leaves nsqd.dat {"id_epoch":1,"topics":[{"channels":[],"name":"t","paused":false}],"version":"1.0.0"}
leaves t.diskqueue.000000.dat \0\0\0\x1b\0\0\0\0\0\0\0\0\0\00000010000000000a\0\0\0\x1b\0\0\0\0\0\0\0\0\0\00000010000000001b\0\0\0\x1b\0\0\0\0\0\0\0\0\0\00000010000000002c
leaves t.diskqueue.meta.dat 3\n0,0\n0,93\n

what a client says of itself
tcp   V2IDENTIFY\n\0\0\0\x1c{"feature_negotiation":true} => bytes \0\0\0\xd5\0\0\0\0{"auth_required":false,"deflate":false,"deflate_level":0,"max_deflate_level":0,"max_msg_timeout":900000,"max_rdy_count":2500,"msg_timeout":60000,"sample_rate":0,"snappy":false,"tls_v1":false,"version":"1.0.0"}
tcp   V2IDENTIFY\n\0\0\0\x02{} => OK
tcp-closed   V2IDENTIFY\n\0\0\0\x02[] => bytes \0\0\0\x17\0\0\0\x01E_BAD_BODY bad JSON
leaves nsqd.dat {"id_epoch":1,"topics":[],"version":"1.0.0"}

callers of both kinds are served one after another, and handed back under their numbers
http GET /ping HTTP/1.1\r\n\r\n => 200 OK|text/plain|OK
tcp   V2PUB t\n\0\0\0\x02hi => OK
http
tcp
http   V2PUB u\n\0\0\0\x02hi =>
leaves t.diskqueue.000000.dat \0\0\0\x1c\0\0\0\0\0\0\0\0\0\00000010000000000hi
leaves t.diskqueue.meta.dat 1\n0,0\n0,32\n
leaves nsqd.dat {"id_epoch":1,"topics":[{"channels":[],"name":"t","paused":false}],"version":"1.0.0"}
lacks nsqd.dat.tmp
"#;
