//! Stops that are asked for over HTTP.

pub static ROWS: &'static str = r#"
a stop that is served ends the run, and what is left is found by the next one
words --http-stop
option stops
http POST /pub?topic=t HTTP/1.1\r\nContent-Length: 1\r\n\r\na => 200 OK|text/plain|OK
http POST /stop HTTP/1.1\r\n\r\n => 200 OK|text/plain|OK
tcp   V2PUB t\n\0\0\0\x02hi => OK
ends behind 1
leaves t.diskqueue.meta.dat 1\n0,0\n0,31\n
leaves nsqd.dat {"id_epoch":1,"topics":[{"channels":[],"name":"t","paused":false}],"version":"1.0.0"}
then
words --http-stop
option stops
tcp   V2SUB t c\nRDY 1\n|FIN 0000010000000000\n => OK, first 0000010000000000a
http POST /stop HTTP/1.1\r\n\r\n => 200 OK|text/plain|OK
http
tcp
ends behind 2

a stop that isn't served is an unknown call, and the run goes on
http POST /stop HTTP/1.1\r\n\r\n => 404 Not Found|application/json|{"message":"NOT_FOUND"}
tcp   V2PUB t\n\0\0\0\x02hi => OK
leaves t.diskqueue.000000.dat \0\0\0\x1c\0\0\0\0\0\0\0\0\0\00000010000000000hi
leaves t.diskqueue.meta.dat 1\n0,0\n0,32\n
"#;
