//! Topics and channels that are made, paused, unpaused and deleted over HTTP.

pub static ROWS: &'static str = r#"
a paused channel sends nothing until it is unpaused
http POST /topic/create?topic=t HTTP/1.1\r\n\r\n => 200 OK|text/plain|
http POST /channel/create?topic=t&channel=c HTTP/1.1\r\n\r\n => 200 OK|text/plain|
http POST /channel/pause?topic=t&channel=c HTTP/1.1\r\n\r\n => 200 OK|text/plain|
http POST /pub?topic=t HTTP/1.1\r\nContent-Length: 1\r\n\r\na => 200 OK|text/plain|OK
tcp   V2SUB t c\nRDY 1\n => OK
http GET /stats?format=json HTTP/1.1\r\n\r\n => 200 OK|application/json|{"health":"OK","start_time":0,"topics":[{"backend_depth":0,"channels":[{"backend_depth":0,"channel_name":"c","clients":[],"deferred_count":0,"depth":1,"in_flight_count":0,"message_count":1,"paused":true,"requeue_count":0,"timeout_count":0}],"depth":0,"message_count":1,"paused":false,"topic_name":"t"}],"version":"1.0.0"}
http POST /channel/unpause?topic=t&channel=c HTTP/1.1\r\n\r\n => 200 OK|text/plain|
tcp   V2SUB t c\nRDY 1\n|FIN 0000010000000000\n => OK, first 0000010000000000a
leaves nsqd.dat {"id_epoch":1,"topics":[{"channels":[{"name":"c","paused":false}],"name":"t","paused":false}],"version":"1.0.0"}

what is paused is found so by the next run
http POST /topic/create?topic=t HTTP/1.1\r\n\r\n => 200 OK|text/plain|
http POST /channel/create?topic=t&channel=c HTTP/1.1\r\n\r\n => 200 OK|text/plain|
http POST /channel/pause?topic=t&channel=c HTTP/1.1\r\n\r\n => 200 OK|text/plain|
http POST /topic/pause?topic=t HTTP/1.1\r\n\r\n => 200 OK|text/plain|
http POST /pub?topic=t HTTP/1.1\r\nContent-Length: 1\r\n\r\na => 200 OK|text/plain|OK
leaves nsqd.dat {"id_epoch":1,"topics":[{"channels":[{"name":"c","paused":true}],"name":"t","paused":true}],"version":"1.0.0"}
then
http GET /stats?format=json HTTP/1.1\r\n\r\n => 200 OK|application/json|{"health":"OK","start_time":0,"topics":[{"backend_depth":1,"channels":[{"backend_depth":0,"channel_name":"c","clients":[],"deferred_count":0,"depth":0,"in_flight_count":0,"message_count":0,"paused":true,"requeue_count":0,"timeout_count":0}],"depth":1,"message_count":0,"paused":true,"topic_name":"t"}],"version":"1.0.0"}
http POST /topic/unpause?topic=t HTTP/1.1\r\n\r\n => 200 OK|text/plain|
http POST /channel/unpause?topic=t&channel=c HTTP/1.1\r\n\r\n => 200 OK|text/plain|
tcp   V2SUB t c\nRDY 1\n|FIN 0000010000000000\n => OK, first 0000010000000000a
leaves nsqd.dat {"id_epoch":2,"topics":[{"channels":[{"name":"c","paused":false}],"name":"t","paused":false}],"version":"1.0.0"}

what is deleted over HTTP is gone
tcp   V2PUB t\n\0\0\0\x02hi => OK
http POST /channel/create?topic=t&channel=c HTTP/1.1\r\n\r\n => 200 OK|text/plain|
http POST /channel/delete?topic=t&channel=c HTTP/1.1\r\n\r\n => 200 OK|text/plain|
http POST /topic/delete?topic=t HTTP/1.1\r\n\r\n => 200 OK|text/plain|
http GET /stats?format=json HTTP/1.1\r\n\r\n => 200 OK|application/json|{"health":"OK","start_time":0,"topics":[],"version":"1.0.0"}
http POST /topic/delete?topic=t HTTP/1.1\r\n\r\n => 404 Not Found|application/json|{"message":"TOPIC_NOT_FOUND"}
leaves nsqd.dat {"id_epoch":1,"topics":[],"version":"1.0.0"}
lacks t.diskqueue.000000.dat
"#;
