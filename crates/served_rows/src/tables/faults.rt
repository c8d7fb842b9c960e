//! A folder that fails.

pub static ROWS: &'static str = r#"
a publish that the disk keeps off makes no topic
with memory 0
with fails WriteAt 0 to 3
asks POST /pub?topic=t HTTP/1.1\r\nContent-Length: 1\r\n\r\nx => 500 DISK_FAULT
asks POST /mpub?topic=t HTTP/1.1\r\nContent-Length: 3\r\n\r\nx\ny => 500 DISK_FAULT
asks POST /pub?topic=t&defer=5 HTTP/1.1\r\nContent-Length: 1\r\n\r\nx => 500 DISK_FAULT
stats
asks POST /pub?topic=t HTTP/1.1\r\nContent-Length: 1\r\n\r\ny => OK
stats {"backend_depth":1,"channels":[],"depth":1,"message_count":1,"paused":false,"topic_name":"t"}

what can't be emptied stays
with fails Rename 0 to 2
asks POST /topic/create?topic=t HTTP/1.1\r\n\r\n => done
asks POST /channel/create?topic=t&channel=c HTTP/1.1\r\n\r\n => done
asks POST /pub?topic=t HTTP/1.1\r\nContent-Length: 1\r\n\r\nx => OK
asks POST /topic/pause?topic=t HTTP/1.1\r\n\r\n => done
asks POST /pub?topic=t HTTP/1.1\r\nContent-Length: 1\r\n\r\ny => OK
asks POST /topic/empty?topic=t HTTP/1.1\r\n\r\n => 500 DISK_FAULT
asks POST /channel/empty?topic=t&channel=c HTTP/1.1\r\n\r\n => 500 DISK_FAULT
stats {"backend_depth":0,"channels":[{"backend_depth":0,"channel_name":"c","clients":[],"deferred_count":0,"depth":1,"in_flight_count":0,"message_count":1,"paused":false,"requeue_count":0,"timeout_count":0}],"depth":1,"message_count":2,"paused":true,"topic_name":"t"}
asks POST /topic/empty?topic=t HTTP/1.1\r\n\r\n => done
asks POST /channel/empty?topic=t&channel=c HTTP/1.1\r\n\r\n => done
stats {"backend_depth":0,"channels":[{"backend_depth":0,"channel_name":"c","clients":[],"deferred_count":0,"depth":0,"in_flight_count":0,"message_count":1,"paused":false,"requeue_count":0,"timeout_count":0}],"depth":0,"message_count":2,"paused":true,"topic_name":"t"}

names come before a folder that fails, and what is deleted before it stays deleted
// Each queue's deletion replaces its metadata by one rename.
with fails Rename 0 to 1
with fails Rename 2 to 3
asks POST /topic/delete?topic=t HTTP/1.1\r\n\r\n => 404 TOPIC_NOT_FOUND
asks POST /topic/create?topic=t HTTP/1.1\r\n\r\n => done
asks POST /channel/delete?topic=t&channel=c HTTP/1.1\r\n\r\n => 404 CHANNEL_NOT_FOUND
asks POST /channel/create?topic=t&channel=c HTTP/1.1\r\n\r\n => done
asks POST /channel/create?topic=t&channel=d HTTP/1.1\r\n\r\n => done
asks POST /channel/delete?topic=t&channel=c HTTP/1.1\r\n\r\n => 500 DISK_FAULT
asks POST /topic/delete?topic=t HTTP/1.1\r\n\r\n => 500 DISK_FAULT
stats {"backend_depth":0,"channels":[{"backend_depth":0,"channel_name":"d","clients":[],"deferred_count":0,"depth":0,"in_flight_count":0,"message_count":0,"paused":false,"requeue_count":0,"timeout_count":0}],"depth":0,"message_count":0,"paused":false,"topic_name":"t"}
asks POST /topic/delete?topic=t HTTP/1.1\r\n\r\n => done
stats
"#;
