//! Statistics of topics and channels with their clients, to the byte.

pub static ROWS: &'static str = r#"
what is in flight, finished, given back and timed out
with timeout 1s
comes 7
says 7 PUB t\n\0\0\0\x01a|PUB t\n\0\0\0\x01b|PUB t\n\0\0\0\x01c|
comes 2
says 2 IDENTIFY\n\0\0\0\x37{"client_id":"me","hostname":"here","user_agent":"a/1"}|SUB t c\n|RDY 2\n|
stats {"backend_depth":0,"channels":[{"backend_depth":0,"channel_name":"c","clients":[{"client_id":"me","finish_count":0,"hostname":"here","in_flight_count":2,"message_count":2,"ready_count":2,"requeue_count":0,"user_agent":"a/1"}],"deferred_count":0,"depth":1,"in_flight_count":2,"message_count":3,"paused":false,"requeue_count":0,"timeout_count":0}],"depth":0,"message_count":3,"paused":false,"topic_name":"t"}
says 2 FIN 0000010000000000\n|
says 2 REQ 0000010000000001 500\n|
stats {"backend_depth":0,"channels":[{"backend_depth":0,"channel_name":"c","clients":[{"client_id":"me","finish_count":1,"hostname":"here","in_flight_count":1,"message_count":3,"ready_count":2,"requeue_count":1,"user_agent":"a/1"}],"deferred_count":1,"depth":0,"in_flight_count":1,"message_count":3,"paused":false,"requeue_count":1,"timeout_count":0}],"depth":0,"message_count":3,"paused":false,"topic_name":"t"}
at 1s
stats {"backend_depth":0,"channels":[{"backend_depth":0,"channel_name":"c","clients":[{"client_id":"me","finish_count":1,"hostname":"here","in_flight_count":0,"message_count":3,"ready_count":2,"requeue_count":1,"user_agent":"a/1"}],"deferred_count":0,"depth":2,"in_flight_count":0,"message_count":3,"paused":false,"requeue_count":1,"timeout_count":1}],"depth":0,"message_count":3,"paused":false,"topic_name":"t"}
says 2 NOP\n|
stats {"backend_depth":0,"channels":[{"backend_depth":0,"channel_name":"c","clients":[{"client_id":"me","finish_count":1,"hostname":"here","in_flight_count":2,"message_count":5,"ready_count":2,"requeue_count":1,"user_agent":"a/1"}],"deferred_count":0,"depth":0,"in_flight_count":2,"message_count":3,"paused":false,"requeue_count":1,"timeout_count":1}],"depth":0,"message_count":3,"paused":false,"topic_name":"t"}
goes 2
stats {"backend_depth":0,"channels":[{"backend_depth":0,"channel_name":"c","clients":[],"deferred_count":0,"depth":0,"in_flight_count":2,"message_count":3,"paused":false,"requeue_count":1,"timeout_count":1}],"depth":0,"message_count":3,"paused":false,"topic_name":"t"}
at 2s
stats {"backend_depth":0,"channels":[{"backend_depth":0,"channel_name":"c","clients":[],"deferred_count":0,"depth":2,"in_flight_count":0,"message_count":3,"paused":false,"requeue_count":1,"timeout_count":3}],"depth":0,"message_count":3,"paused":false,"topic_name":"t"}

one of two given back waits, and after the longest delay both do
comes 1
says 1 PUB t\n\0\0\0\x01a|PUB t\n\0\0\0\x01b|
comes 2
says 2 SUB t c\n|RDY 2\n|
says 2 RDY 0\n|REQ 0000010000000000 0\n|REQ 0000010000000001 99999999\n|
stats {"backend_depth":0,"channels":[{"backend_depth":0,"channel_name":"c","clients":[{"client_id":"","finish_count":0,"hostname":"","in_flight_count":0,"message_count":2,"ready_count":0,"requeue_count":2,"user_agent":""}],"deferred_count":1,"depth":1,"in_flight_count":0,"message_count":2,"paused":false,"requeue_count":2,"timeout_count":0}],"depth":0,"message_count":2,"paused":false,"topic_name":"t"}
at 3600s
stats {"backend_depth":0,"channels":[{"backend_depth":0,"channel_name":"c","clients":[{"client_id":"","finish_count":0,"hostname":"","in_flight_count":0,"message_count":2,"ready_count":0,"requeue_count":2,"user_agent":""}],"deferred_count":0,"depth":2,"in_flight_count":0,"message_count":2,"paused":false,"requeue_count":2,"timeout_count":0}],"depth":0,"message_count":2,"paused":false,"topic_name":"t"}

messages that wait go to the first channel alone
comes 1
says 1 PUB t\n\0\0\0\x01a|PUB t\n\0\0\0\x01b|PUB t\n\0\0\0\x01c|
stats {"backend_depth":0,"channels":[],"depth":3,"message_count":3,"paused":false,"topic_name":"t"}
comes 2
says 2 SUB t c1\n|
comes 3
says 3 SUB t c2\n|
stats {"backend_depth":0,"channels":[{"backend_depth":0,"channel_name":"c1","clients":[{"client_id":"","finish_count":0,"hostname":"","in_flight_count":0,"message_count":0,"ready_count":0,"requeue_count":0,"user_agent":""}],"deferred_count":0,"depth":3,"in_flight_count":0,"message_count":3,"paused":false,"requeue_count":0,"timeout_count":0},{"backend_depth":0,"channel_name":"c2","clients":[{"client_id":"","finish_count":0,"hostname":"","in_flight_count":0,"message_count":0,"ready_count":0,"requeue_count":0,"user_agent":""}],"deferred_count":0,"depth":0,"in_flight_count":0,"message_count":0,"paused":false,"requeue_count":0,"timeout_count":0}],"depth":0,"message_count":3,"paused":false,"topic_name":"t"}
asks GET /stats?format=json&channel=c2 HTTP/1.1\r\n\r\n => topics {"backend_depth":0,"channels":[{"backend_depth":0,"channel_name":"c2","clients":[{"client_id":"","finish_count":0,"hostname":"","in_flight_count":0,"message_count":0,"ready_count":0,"requeue_count":0,"user_agent":""}],"deferred_count":0,"depth":0,"in_flight_count":0,"message_count":0,"paused":false,"requeue_count":0,"timeout_count":0}],"depth":0,"message_count":3,"paused":false,"topic_name":"t"}
asks GET /stats?format=json&channel=c1&topic=t HTTP/1.1\r\n\r\n => topics {"backend_depth":0,"channels":[{"backend_depth":0,"channel_name":"c1","clients":[{"client_id":"","finish_count":0,"hostname":"","in_flight_count":0,"message_count":0,"ready_count":0,"requeue_count":0,"user_agent":""}],"deferred_count":0,"depth":3,"in_flight_count":0,"message_count":3,"paused":false,"requeue_count":0,"timeout_count":0}],"depth":0,"message_count":3,"paused":false,"topic_name":"t"}
asks GET /stats?format=json&channel=c HTTP/1.1\r\n\r\n => topics {"backend_depth":0,"channels":[],"depth":0,"message_count":3,"paused":false,"topic_name":"t"}
asks GET /stats?format=json&topic=c1 HTTP/1.1\r\n\r\n => topics

topics and channels in the order of their names, clients in that of their numbers
asks POST /topic/create?topic=u HTTP/1.1\r\n\r\n => done
asks POST /topic/create?topic=t HTTP/1.1\r\n\r\n => done
asks POST /channel/create?topic=t&channel=d HTTP/1.1\r\n\r\n => done
asks POST /channel/create?topic=t&channel=c HTTP/1.1\r\n\r\n => done
comes 5
says 5 SUB t c\n|
comes 6
says 6 SUB u c\n|
comes 4
says 4 SUB t c\n|RDY 3\n|
asks POST /pub?topic=t HTTP/1.1\r\nContent-Length: 1\r\n\r\na => OK
says 4 NOP\n|
stats {"backend_depth":0,"channels":[{"backend_depth":0,"channel_name":"c","clients":[{"client_id":"","finish_count":0,"hostname":"","in_flight_count":1,"message_count":1,"ready_count":3,"requeue_count":0,"user_agent":""},{"client_id":"","finish_count":0,"hostname":"","in_flight_count":0,"message_count":0,"ready_count":0,"requeue_count":0,"user_agent":""}],"deferred_count":0,"depth":0,"in_flight_count":1,"message_count":1,"paused":false,"requeue_count":0,"timeout_count":0},{"backend_depth":0,"channel_name":"d","clients":[],"deferred_count":0,"depth":1,"in_flight_count":0,"message_count":1,"paused":false,"requeue_count":0,"timeout_count":0}],"depth":0,"message_count":1,"paused":false,"topic_name":"t"},{"backend_depth":0,"channels":[{"backend_depth":0,"channel_name":"c","clients":[{"client_id":"","finish_count":0,"hostname":"","in_flight_count":0,"message_count":0,"ready_count":0,"requeue_count":0,"user_agent":""}],"deferred_count":0,"depth":0,"in_flight_count":0,"message_count":0,"paused":false,"requeue_count":0,"timeout_count":0}],"depth":0,"message_count":0,"paused":false,"topic_name":"u"}
asks GET /stats?format=json&topic=u HTTP/1.1\r\n\r\n => topics {"backend_depth":0,"channels":[{"backend_depth":0,"channel_name":"c","clients":[{"client_id":"","finish_count":0,"hostname":"","in_flight_count":0,"message_count":0,"ready_count":0,"requeue_count":0,"user_agent":""}],"deferred_count":0,"depth":0,"in_flight_count":0,"message_count":0,"paused":false,"requeue_count":0,"timeout_count":0}],"depth":0,"message_count":0,"paused":false,"topic_name":"u"}
asks GET /stats?format=json&channel=d HTTP/1.1\r\n\r\n => topics {"backend_depth":0,"channels":[{"backend_depth":0,"channel_name":"d","clients":[],"deferred_count":0,"depth":1,"in_flight_count":0,"message_count":1,"paused":false,"requeue_count":0,"timeout_count":0}],"depth":0,"message_count":1,"paused":false,"topic_name":"t"},{"backend_depth":0,"channels":[],"depth":0,"message_count":0,"paused":false,"topic_name":"u"}
asks-cut GET /stats?format=json&topic=t&channel=d HTTP/1.1\r\n\r\n => topics {"backend_depth":0,"channels":[{"backend_depth":0,"channel_name":"d","clients":[],"deferred_count":0,"depth":1,"in_flight_count":0,"message_count":1,"paused":false,"requeue_count":0,"timeout_count":0}],"depth":0,"message_count":1,"paused":false,"topic_name":"t"}

a paused channel sends nothing, and is shown so
asks POST /topic/create?topic=t HTTP/1.1\r\n\r\n => done
asks POST /channel/create?topic=t&channel=c HTTP/1.1\r\n\r\n => done
asks POST /channel/pause?topic=t&channel=c HTTP/1.1\r\n\r\n => done
comes 1
says 1 SUB t c\n|RDY 1\n|PUB t\n\0\0\0\x01x|
stats {"backend_depth":0,"channels":[{"backend_depth":0,"channel_name":"c","clients":[{"client_id":"","finish_count":0,"hostname":"","in_flight_count":0,"message_count":0,"ready_count":1,"requeue_count":0,"user_agent":""}],"deferred_count":0,"depth":1,"in_flight_count":0,"message_count":1,"paused":true,"requeue_count":0,"timeout_count":0}],"depth":0,"message_count":1,"paused":false,"topic_name":"t"}
asks POST /channel/unpause?topic=t&channel=c HTTP/1.1\r\n\r\n => done
says 1 NOP\n|
stats {"backend_depth":0,"channels":[{"backend_depth":0,"channel_name":"c","clients":[{"client_id":"","finish_count":0,"hostname":"","in_flight_count":1,"message_count":1,"ready_count":1,"requeue_count":0,"user_agent":""}],"deferred_count":0,"depth":0,"in_flight_count":1,"message_count":1,"paused":false,"requeue_count":0,"timeout_count":0}],"depth":0,"message_count":1,"paused":false,"topic_name":"t"}

a message that waits on disk, and is sent from there
with memory 0
comes 1
says 1 PUB t\n\0\0\0\x01x|
stats {"backend_depth":1,"channels":[],"depth":1,"message_count":1,"paused":false,"topic_name":"t"}
asks POST /channel/create?topic=t&channel=c HTTP/1.1\r\n\r\n => done
stats {"backend_depth":0,"channels":[{"backend_depth":1,"channel_name":"c","clients":[],"deferred_count":0,"depth":1,"in_flight_count":0,"message_count":1,"paused":false,"requeue_count":0,"timeout_count":0}],"depth":0,"message_count":1,"paused":false,"topic_name":"t"}
comes 2
says 2 SUB t c\n|RDY 1\n|
stats {"backend_depth":0,"channels":[{"backend_depth":0,"channel_name":"c","clients":[{"client_id":"","finish_count":0,"hostname":"","in_flight_count":1,"message_count":1,"ready_count":1,"requeue_count":0,"user_agent":""}],"deferred_count":0,"depth":0,"in_flight_count":1,"message_count":1,"paused":false,"requeue_count":0,"timeout_count":0}],"depth":0,"message_count":1,"paused":false,"topic_name":"t"}

a message that waits on disk doesn't come to an ephemeral channel without room
with memory 0
comes 1
says 1 PUB t\n\0\0\0\x01x|
comes 2
says 2 SUB t c#ephemeral\n|RDY 1\n|
stats {"backend_depth":0,"channels":[{"backend_depth":0,"channel_name":"c#ephemeral","clients":[{"client_id":"","finish_count":0,"hostname":"","in_flight_count":0,"message_count":0,"ready_count":1,"requeue_count":0,"user_agent":""}],"deferred_count":0,"depth":0,"in_flight_count":0,"message_count":0,"paused":false,"requeue_count":0,"timeout_count":0}],"depth":0,"message_count":1,"paused":false,"topic_name":"t"}
asks GET /stats?format=json&channel=c%23ephemeral HTTP/1.1\r\n\r\n => topics {"backend_depth":0,"channels":[{"backend_depth":0,"channel_name":"c#ephemeral","clients":[{"client_id":"","finish_count":0,"hostname":"","in_flight_count":0,"message_count":0,"ready_count":1,"requeue_count":0,"user_agent":""}],"deferred_count":0,"depth":0,"in_flight_count":0,"message_count":0,"paused":false,"requeue_count":0,"timeout_count":0}],"depth":0,"message_count":1,"paused":false,"topic_name":"t"}

what finds no room in an ephemeral topic is dropped, and isn't counted
with memory 1
asks POST /mpub?topic=e%23ephemeral HTTP/1.1\r\nContent-Length: 3\r\n\r\na\nb => OK
stats {"backend_depth":0,"channels":[],"depth":1,"message_count":1,"paused":false,"topic_name":"e#ephemeral"}
asks GET /stats?format=json&topic=e%23ephemeral HTTP/1.1\r\n\r\n => topics {"backend_depth":0,"channels":[],"depth":1,"message_count":1,"paused":false,"topic_name":"e#ephemeral"}
asks GET /stats?format=json&topic=e HTTP/1.1\r\n\r\n => topics

a message that its topic took, and that can't be copied, waits no more
// The channel's record of a first message isn't written, twice. Between is that of a second one to the topic.
with memory 0
with fails WriteAt 1 to 2
with fails WriteAt 3 to 4
asks POST /topic/create?topic=t HTTP/1.1\r\n\r\n => done
asks POST /channel/create?topic=t&channel=c HTTP/1.1\r\n\r\n => done
asks POST /pub?topic=t HTTP/1.1\r\nContent-Length: 1\r\n\r\nx => OK
asks POST /pub?topic=t HTTP/1.1\r\nContent-Length: 1\r\n\r\ny => OK
stats {"backend_depth":1,"channels":[{"backend_depth":0,"channel_name":"c","clients":[],"deferred_count":0,"depth":0,"in_flight_count":0,"message_count":0,"paused":false,"requeue_count":0,"timeout_count":0}],"depth":1,"message_count":2,"paused":false,"topic_name":"t"}
stats {"backend_depth":0,"channels":[{"backend_depth":2,"channel_name":"c","clients":[],"deferred_count":0,"depth":2,"in_flight_count":0,"message_count":2,"paused":false,"requeue_count":0,"timeout_count":0}],"depth":0,"message_count":2,"paused":false,"topic_name":"t"}
"#;
