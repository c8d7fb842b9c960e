//! Topics and channels that are made, paused, emptied and deleted, and what the statistics tell of them.

pub static ROWS: &'static str = r#"
a topic is made, paused, emptied, unpaused and deleted
stats
asks POST /topic/create?topic=t HTTP/1.1\r\n\r\n => done
stats {"backend_depth":0,"channels":[],"depth":0,"message_count":0,"paused":false,"topic_name":"t"}
asks POST /pub?topic=t HTTP/1.1\r\nContent-Length: 1\r\n\r\na => OK
asks POST /topic/pause?topic=t HTTP/1.1\r\n\r\n => done
stats {"backend_depth":0,"channels":[],"depth":1,"message_count":1,"paused":true,"topic_name":"t"}
asks POST /topic/empty?topic=t HTTP/1.1\r\n\r\n => done
stats {"backend_depth":0,"channels":[],"depth":0,"message_count":1,"paused":true,"topic_name":"t"}
asks POST /topic/unpause?topic=t HTTP/1.1\r\n\r\n => done
stats {"backend_depth":0,"channels":[],"depth":0,"message_count":1,"paused":false,"topic_name":"t"}
asks POST /topic/delete?topic=t HTTP/1.1\r\n\r\n => done
stats

a channel is made, paused, emptied, unpaused and deleted
asks POST /topic/create?topic=t HTTP/1.1\r\n\r\n => done
asks POST /channel/create?topic=t&channel=c HTTP/1.1\r\n\r\n => done
stats {"backend_depth":0,"channels":[{"backend_depth":0,"channel_name":"c","clients":[],"deferred_count":0,"depth":0,"in_flight_count":0,"message_count":0,"paused":false,"requeue_count":0,"timeout_count":0}],"depth":0,"message_count":0,"paused":false,"topic_name":"t"}
asks POST /channel/pause?topic=t&channel=c HTTP/1.1\r\n\r\n => done
asks POST /pub?topic=t HTTP/1.1\r\nContent-Length: 1\r\n\r\na => OK
stats {"backend_depth":0,"channels":[{"backend_depth":0,"channel_name":"c","clients":[],"deferred_count":0,"depth":1,"in_flight_count":0,"message_count":1,"paused":true,"requeue_count":0,"timeout_count":0}],"depth":0,"message_count":1,"paused":false,"topic_name":"t"}
asks POST /channel/empty?topic=t&channel=c HTTP/1.1\r\n\r\n => done
asks POST /channel/unpause?topic=t&channel=c HTTP/1.1\r\n\r\n => done
stats {"backend_depth":0,"channels":[{"backend_depth":0,"channel_name":"c","clients":[],"deferred_count":0,"depth":0,"in_flight_count":0,"message_count":1,"paused":false,"requeue_count":0,"timeout_count":0}],"depth":0,"message_count":1,"paused":false,"topic_name":"t"}
asks POST /channel/delete?topic=t&channel=c HTTP/1.1\r\n\r\n => done
stats {"backend_depth":0,"channels":[],"depth":0,"message_count":1,"paused":false,"topic_name":"t"}

what is made once more is as it was, and a topic goes with its channels
asks POST /topic/create?topic=t HTTP/1.1\r\n\r\n => done
asks POST /channel/create?topic=t&channel=c HTTP/1.1\r\n\r\n => done
asks POST /pub?topic=t HTTP/1.1\r\nContent-Length: 1\r\n\r\na => OK
asks POST /channel/pause?topic=t&channel=c HTTP/1.1\r\n\r\n => done
asks-cut POST /topic/create?topic=t HTTP/1.1\r\n\r\n => done
asks-cut POST /channel/create?topic=t&channel=c HTTP/1.1\r\n\r\n => done
asks-cut POST /channel/pause?topic=t&channel=c HTTP/1.1\r\n\r\n => done
asks-cut GET /stats?format=json HTTP/1.1\r\n\r\n => topics {"backend_depth":0,"channels":[{"backend_depth":0,"channel_name":"c","clients":[],"deferred_count":0,"depth":1,"in_flight_count":0,"message_count":1,"paused":true,"requeue_count":0,"timeout_count":0}],"depth":0,"message_count":1,"paused":false,"topic_name":"t"}
asks POST /topic/delete?topic=t HTTP/1.1\r\n\r\n => done
asks POST /topic/create?topic=t HTTP/1.1\r\n\r\n => done
stats {"backend_depth":0,"channels":[],"depth":0,"message_count":0,"paused":false,"topic_name":"t"}

a topic that isn't there
asks-cut POST /topic/delete?topic=t HTTP/1.1\r\n\r\n => 404 TOPIC_NOT_FOUND
asks POST /topic/empty?topic=t HTTP/1.1\r\n\r\n => 404 TOPIC_NOT_FOUND
asks POST /topic/pause?topic=t HTTP/1.1\r\n\r\n => 404 TOPIC_NOT_FOUND
asks POST /topic/unpause?topic=t HTTP/1.1\r\n\r\n => 404 TOPIC_NOT_FOUND
asks POST /channel/create?topic=t&channel=c HTTP/1.1\r\n\r\n => 404 TOPIC_NOT_FOUND
asks POST /channel/delete?topic=t&channel=c HTTP/1.1\r\n\r\n => 404 TOPIC_NOT_FOUND
asks POST /channel/empty?topic=t&channel=c HTTP/1.1\r\n\r\n => 404 TOPIC_NOT_FOUND
asks POST /channel/pause?topic=t&channel=c HTTP/1.1\r\n\r\n => 404 TOPIC_NOT_FOUND
asks POST /channel/unpause?topic=t&channel=c HTTP/1.1\r\n\r\n => 404 TOPIC_NOT_FOUND
stats

a channel that isn't there
asks POST /topic/create?topic=t HTTP/1.1\r\n\r\n => done
asks-cut POST /channel/delete?topic=t&channel=c HTTP/1.1\r\n\r\n => 404 CHANNEL_NOT_FOUND
asks POST /channel/empty?topic=t&channel=c HTTP/1.1\r\n\r\n => 404 CHANNEL_NOT_FOUND
asks POST /channel/pause?topic=t&channel=c HTTP/1.1\r\n\r\n => 404 CHANNEL_NOT_FOUND
asks POST /channel/unpause?topic=t&channel=c HTTP/1.1\r\n\r\n => 404 CHANNEL_NOT_FOUND
stats {"backend_depth":0,"channels":[],"depth":0,"message_count":0,"paused":false,"topic_name":"t"}

what the daemon tells of itself, and its opening in whole seconds
with began 4s-1
at 90s
asks-cut GET /info HTTP/1.1\r\n\r\n => json {"broadcast_address":"127.0.0.1","hostname":"127.0.0.1","http_port":4151,"start_time":3,"tcp_port":4150,"version":"1.0.0"}
asks GET /stats?format=json HTTP/1.1\r\n\r\n => json {"health":"OK","start_time":3,"topics":[],"version":"1.0.0"}
"#;
