//! Callers of HTTP beside a disk that fails, names that are saved, and requests that are cut.

pub static ROWS: &'static str = r#"
a publish that isn't written is refused, and the next one is the first
words --mem-queue-size=0
option memory 0
// The file of names is written at the opening.
fails WriteAt 1 to 2
http POST /pub?topic=t HTTP/1.1\r\nContent-Length: 1\r\n\r\nx => 500 Internal Server Error|application/json|{"message":"DISK_FAULT"}
http POST /pub?topic=t HTTP/1.1\r\nContent-Length: 1\r\n\r\ny => 200 OK|text/plain|OK
leaves t.diskqueue.000000.dat \0\0\0\x1b\0\0\0\0\0\0\0\0\0\00000010000000000y
leaves t.diskqueue.meta.dat 1\n0,0\n0,31\n

names that a caller of HTTP made are saved behind the next accept
// The file of names is written at the opening, and behind the second accept.
fails WriteAt 2 to 1000000
http POST /pub?topic=t HTTP/1.1\r\nContent-Length: 2\r\n\r\nhi => 200 OK|text/plain|OK
http GET /ping HTTP/1.1\r\n\r\n => 200 OK|text/plain|OK
ends status 3
ends told nsqd: stop: disk fault
leaves nsqd.dat {"id_epoch":1,"topics":[{"channels":[],"name":"t","paused":false}],"version":"1.0.0"}

callers of HTTP without a whole request get nothing
http
http   V2PUB t\n\0\0\0\x02hi =>
http |POST /pub?topic=t HTTP/1.1\r\nContent-Length: 2\r\n\r\nh| =>
http POST /pub?topic=t HTTP/1.1\r\nContent-Length: 5242881\r\n\r\n => 413 Payload Too Large|application/json|{"message":"BODY_TOO_BIG"}
leaves nsqd.dat {"id_epoch":1,"topics":[],"version":"1.0.0"}
"#;
