//! Stops over HTTP, and what is answered behind a stop.

pub static ROWS: &'static str = r#"
what needs the daemon is refused behind a stop
asks POST /topic/create?topic=t HTTP/1.1\r\n\r\n => done
stop
asks-cut GET /ping HTTP/1.1\r\n\r\n => OK
asks-cut POST /topic/create?topic=t HTTP/1.1\r\n\r\n => 503 STOPPING
asks-cut GET /stats?format=json HTTP/1.1\r\n\r\n => 503 STOPPING
asks POST /pub?topic=t HTTP/1.1\r\nContent-Length: 1\r\n\r\na => 503 STOPPING
asks POST /mpub?topic=t HTTP/1.1\r\nContent-Length: 1\r\n\r\na => 503 STOPPING
asks POST /topic/delete?topic=u HTTP/1.1\r\n\r\n => 503 STOPPING
asks POST /channel/pause?topic=t&channel=c HTTP/1.1\r\n\r\n => 503 STOPPING
asks GET /info HTTP/1.1\r\n\r\n => json {"broadcast_address":"127.0.0.1","hostname":"127.0.0.1","http_port":4151,"start_time":0,"tcp_port":4150,"version":"1.0.0"}

what is refused by itself is refused so behind a stop too
stop
asks-cut GET /x HTTP/1.1\r\n\r\n => 404 NOT_FOUND
asks POST /stop HTTP/1.1\r\n\r\n => 404 NOT_FOUND
asks GET /pub?topic=t HTTP/1.1\r\n\r\n => 405 METHOD_NOT_ALLOWED
asks-cut POST /topic/create HTTP/1.1\r\n\r\n => 400 MISSING_ARG_TOPIC
asks POST /channel/delete?topic=t&channel=%2F HTTP/1.1\r\n\r\n => 400 INVALID_ARG_CHANNEL
asks GET /stats HTTP/1.1\r\n\r\n => 400 INVALID_FORMAT
asks POST /pub?topic=t HTTP/1.1\r\n\r\n => 400 MSG_EMPTY
asks GET\r\n\r\n => 400 BAD_REQUEST
asks POST /pub?topic=t HTTP/1.1\r\nTransfer-Encoding: chunked\r\n\r\n => 411 LENGTH_REQUIRED
asks POST /pub?topic=t HTTP/1.1\r\nContent-Length: 5242881\r\n\r\n => 413 BODY_TOO_BIG

who has no whole request is let go behind a stop as nothing comes
// Nothing is asked of the daemon for a request that comes at once, or for none: the last three callers.
calls answered: GET /pi||ng HTTP/1.1\r\n\r\n| => OK
stop
calls closed: GET /pi||ng HTTP/1.1\r\n\r\n| => nothing
calls closed: |GET /ping HTTP/1.1\r\n\r\n| => nothing
calls closed: POST /pub?topic=t HTTP/1.1\r\nContent-Length: 2\r\n\r\na||b| => nothing
calls answered: GET /ping HTTP/1.1\r\n\r\n|| => OK
calls cut: GET /pi| => nothing
calls end: => nothing

a stop is served, also once more
with stops served
asks GET /stop HTTP/1.1\r\n\r\n => 405 METHOD_NOT_ALLOWED
asks POST /topic/create?topic=t HTTP/1.1\r\n\r\n => done
asks POST /stop HTTP/1.1\r\n\r\n => OK
asks POST /stop HTTP/1.1\r\n\r\n => OK
asks-cut POST /stop HTTP/1.1\r\n\r\n => OK
asks GET /ping HTTP/1.1\r\n\r\n => OK
asks POST /topic/create?topic=t HTTP/1.1\r\n\r\n => 503 STOPPING
asks GET /stats?format=json HTTP/1.1\r\n\r\n => 503 STOPPING
calls closed: GET /pi||ng HTTP/1.1\r\n\r\n| => nothing

a stop behind that of the daemon is served too
with stops served
stop
asks POST /stop HTTP/1.1\r\n\r\n => OK
asks GET /ping HTTP/1.1\r\n\r\n => OK

without the option a stop is an unknown call, and the daemon goes on
asks-cut POST /stop HTTP/1.1\r\n\r\n => 404 NOT_FOUND
asks GET /stop HTTP/1.1\r\n\r\n => 404 NOT_FOUND
asks POST /topic/create?topic=t HTTP/1.1\r\n\r\n => done
calls answered: GET /pi||ng HTTP/1.1\r\n\r\n| => OK
"#;
