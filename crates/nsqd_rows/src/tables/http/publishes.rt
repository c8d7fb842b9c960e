//! Publishes over HTTP that are sent to clients, and what the statistics tell of them.

pub static ROWS: &'static str = r#"
a publish over HTTP is sent to a client, and gone once it is finished
http POST /pub?topic=t HTTP/1.1\r\nContent-Length: 1\r\n\r\na => 200 OK|text/plain|OK
tcp   V2SUB t c\nRDY 1\n|FIN 0000010000000000\n => OK, first 0000010000000000a
http GET /stats?format=json HTTP/1.1\r\n\r\n => 200 OK|application/json|{"health":"OK","start_time":0,"topics":[{"backend_depth":0,"channels":[{"backend_depth":0,"channel_name":"c","clients":[],"deferred_count":0,"depth":0,"in_flight_count":0,"message_count":1,"paused":false,"requeue_count":0,"timeout_count":0}],"depth":0,"message_count":1,"paused":false,"topic_name":"t"}],"version":"1.0.0"}
leaves nsqd.dat {"id_epoch":1,"topics":[{"channels":[{"name":"c","paused":false}],"name":"t","paused":false}],"version":"1.0.0"}

the same in single bytes
size 1
http POST /pub?topic=t HTTP/1.1\r\nContent-Length: 1\r\n\r\na => 200 OK|text/plain|OK
tcp   V2SUB t c\nRDY 1\n|FIN 0000010000000000\n => OK, first 0000010000000000a
http GET /stats?format=json HTTP/1.1\r\n\r\n => 200 OK|application/json|{"health":"OK","start_time":0,"topics":[{"backend_depth":0,"channels":[{"backend_depth":0,"channel_name":"c","clients":[],"deferred_count":0,"depth":0,"in_flight_count":0,"message_count":1,"paused":false,"requeue_count":0,"timeout_count":0}],"depth":0,"message_count":1,"paused":false,"topic_name":"t"}],"version":"1.0.0"}
leaves nsqd.dat {"id_epoch":1,"topics":[{"channels":[{"name":"c","paused":false}],"name":"t","paused":false}],"version":"1.0.0"}

lines and a batch are sent in their order
http POST /mpub?topic=t HTTP/1.1\r\nContent-Length: 4\r\n\r\na\n\nb => 200 OK|text/plain|OK
http POST /mpub?topic=t&binary=true HTTP/1.1\r\nContent-Length: 9\r\n\r\n\0\0\0\x01\0\0\0\x01c => 200 OK|text/plain|OK
tcp   V2SUB t c\nRDY 3\n => OK, first 0000010000000000a, first 0000010000000001b, first 0000010000000002c
http GET /stats?format=json HTTP/1.1\r\n\r\n => 200 OK|application/json|{"health":"OK","start_time":0,"topics":[{"backend_depth":0,"channels":[{"backend_depth":0,"channel_name":"c","clients":[],"deferred_count":0,"depth":0,"in_flight_count":3,"message_count":3,"paused":false,"requeue_count":0,"timeout_count":0}],"depth":0,"message_count":3,"paused":false,"topic_name":"t"}],"version":"1.0.0"}

a publish with a delay is sent once that is over
// The opening, and the rounds of three callers with one, six and one turns.
clock 12 at 0, 1 at 1000000000
http POST /pub?topic=t&defer=1000 HTTP/1.1\r\nContent-Length: 1\r\n\r\na => 200 OK|text/plain|OK
tcp   V2SUB t c\nRDY 1\n => OK
http GET /stats?format=json HTTP/1.1\r\n\r\n => 200 OK|application/json|{"health":"OK","start_time":0,"topics":[{"backend_depth":0,"channels":[{"backend_depth":0,"channel_name":"c","clients":[],"deferred_count":1,"depth":0,"in_flight_count":0,"message_count":1,"paused":false,"requeue_count":0,"timeout_count":0}],"depth":0,"message_count":1,"paused":false,"topic_name":"t"}],"version":"1.0.0"}
tcp   V2SUB t c\nRDY 1\n => OK, first 0000010000000000a
"#;
