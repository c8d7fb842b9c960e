//! Publishes, and what is queued behind them.

pub static ROWS: &'static str = r#"
a publish and the statistics, to the byte
// The publish is as a usual client of HTTP sends it.
asks POST /pub?topic=test HTTP/1.1\r\nHost: 127.0.0.1:4151\r\nUser-Agent: curl/8.5.0\r\nAccept: */*\r\nContent-Length: 5\r\nContent-Type: application/x-www-form-urlencoded\r\n\r\nhello => bytes HTTP/1.1 200 OK\r\nContent-Type: text/plain; charset=utf-8\r\nContent-Length: 2\r\nConnection: close\r\n\r\nOK
asks GET /stats?format=json HTTP/1.1\r\n\r\n => bytes HTTP/1.1 200 OK\r\nContent-Type: application/json; charset=utf-8\r\nContent-Length: 156\r\nConnection: close\r\n\r\n{"health":"OK","start_time":0,"topics":[{"backend_depth":0,"channels":[],"depth":1,"message_count":1,"paused":false,"topic_name":"test"}],"version":"1.0.0"}

a publish that is cut anywhere
asks-cut POST /pub?topic=test HTTP/1.1\r\nHost: 127.0.0.1:4151\r\nUser-Agent: curl/8.5.0\r\nAccept: */*\r\nContent-Length: 5\r\nContent-Type: application/x-www-form-urlencoded\r\n\r\nhello => OK

two lines, an empty one between them, and two messages of a batch
asks POST /mpub?topic=t HTTP/1.1\r\nContent-Length: 4\r\n\r\na\n\nb => OK
stats {"backend_depth":0,"channels":[],"depth":2,"message_count":2,"paused":false,"topic_name":"t"}
asks POST /mpub?topic=t&binary=true HTTP/1.1\r\nContent-Length: 15\r\n\r\n\0\0\0\x02\0\0\0\x02\n\n\0\0\0\x01d => OK
asks POST /channel/create?topic=t&channel=c HTTP/1.1\r\n\r\n => done
stats {"backend_depth":0,"channels":[{"backend_depth":0,"channel_name":"c","clients":[],"deferred_count":0,"depth":4,"in_flight_count":0,"message_count":4,"paused":false,"requeue_count":0,"timeout_count":0}],"depth":0,"message_count":4,"paused":false,"topic_name":"t"}

a batch that is cut anywhere
asks-cut POST /mpub?topic=t&binary=true HTTP/1.1\r\nContent-Length: 15\r\n\r\n\0\0\0\x02\0\0\0\x02\n\n\0\0\0\x01d => OK

a delay over HTTP counts from the copying
asks POST /pub?topic=t&defer=1000 HTTP/1.1\r\nContent-Length: 1\r\n\r\nd => OK
stats {"backend_depth":0,"channels":[],"depth":1,"message_count":1,"paused":false,"topic_name":"t"}
at 5s
asks POST /channel/create?topic=t&channel=c HTTP/1.1\r\n\r\n => done
stats {"backend_depth":0,"channels":[{"backend_depth":0,"channel_name":"c","clients":[],"deferred_count":1,"depth":0,"in_flight_count":0,"message_count":1,"paused":false,"requeue_count":0,"timeout_count":0}],"depth":0,"message_count":1,"paused":false,"topic_name":"t"}
at 6s-1
stats {"backend_depth":0,"channels":[{"backend_depth":0,"channel_name":"c","clients":[],"deferred_count":1,"depth":0,"in_flight_count":0,"message_count":1,"paused":false,"requeue_count":0,"timeout_count":0}],"depth":0,"message_count":1,"paused":false,"topic_name":"t"}
at 6s
stats {"backend_depth":0,"channels":[{"backend_depth":0,"channel_name":"c","clients":[],"deferred_count":0,"depth":1,"in_flight_count":0,"message_count":1,"paused":false,"requeue_count":0,"timeout_count":0}],"depth":0,"message_count":1,"paused":false,"topic_name":"t"}

a delay of a client
asks POST /topic/create?topic=t HTTP/1.1\r\n\r\n => done
asks POST /channel/create?topic=t&channel=c HTTP/1.1\r\n\r\n => done
comes 1
says 1 DPUB t 1000\n\0\0\0\x01d|
stats {"backend_depth":0,"channels":[{"backend_depth":0,"channel_name":"c","clients":[],"deferred_count":1,"depth":0,"in_flight_count":0,"message_count":1,"paused":false,"requeue_count":0,"timeout_count":0}],"depth":0,"message_count":1,"paused":false,"topic_name":"t"}
at 1s
stats {"backend_depth":0,"channels":[{"backend_depth":0,"channel_name":"c","clients":[],"deferred_count":0,"depth":1,"in_flight_count":0,"message_count":1,"paused":false,"requeue_count":0,"timeout_count":0}],"depth":0,"message_count":1,"paused":false,"topic_name":"t"}

what isn't published makes no topic
with most 8
asks POST /pub?topic=t HTTP/1.1\r\n\r\n => 400 MSG_EMPTY
asks POST /pub?topic=t HTTP/1.1\r\nContent-Length: 9\r\n\r\n123456789 => 413 MSG_TOO_BIG
asks POST /pub?topic=t&defer=3600001 HTTP/1.1\r\nContent-Length: 1\r\n\r\nx => 400 INVALID_DEFER
asks POST /mpub?topic=t HTTP/1.1\r\nContent-Length: 11\r\n\r\nx\n123456789 => 413 MSG_TOO_BIG
asks POST /mpub?topic=t&binary=true HTTP/1.1\r\nContent-Length: 10\r\n\r\n\0\0\0\x01\0\0\0\x01ab => 413 BAD_BODY
stats
asks POST /pub?topic=t HTTP/1.1\r\nContent-Length: 8\r\n\r\n12345678 => OK
stats {"backend_depth":0,"channels":[],"depth":1,"message_count":1,"paused":false,"topic_name":"t"}
"#;
