//! How a connection ends that isn't answered whole, and what comes beside a request.

pub static ROWS: &'static str = r#"
the end comes before a whole request
calls end: => nothing
calls end: || => nothing
calls cut: G| => nothing
calls cut: GET /ping HTTP/1.1\r\n\r|| => nothing
calls cut: POST /pub?topic=t HTTP/1.1\r\nContent-Length: 5\r\n\r\nhell| => nothing
calls cut: POST /pub?topic=t HTTP/1.1\r\nContent-Length: 5242880\r\n\r\n| => nothing
stats

a read that fails
calls read fault, read 0: POST /pub?topic=t HTTP/1.1\r\nContent-Length: 1\r\n\r\na| => nothing
calls read fault, read 1: POST /pub?topic=t HTTP/1.1\r\n|Content-Length: 1\r\n\r\na| => nothing
stats

a write that fails undoes nothing
calls write fault, write 0: POST /pub?topic=t HTTP/1.1\r\nContent-Length: 1\r\n\r\na| => nothing
stats {"backend_depth":0,"channels":[],"depth":1,"message_count":1,"paused":false,"topic_name":"t"}
calls write fault, write 2, 10: GET /ping HTTP/1.1\r\n\r\n| => bytes HTTP/1.1 200 OK\r\nCon
calls answered, nothing, 7: GET /ping HTTP/1.1\r\n\r\n| => OK

line ends before a request and bytes behind it are passed over, and nothing may come between
calls answered: \r\n\n+GET /ping HTTP/1.1\r\n\r\n*2| => OK
calls answered: |POST /pub?topic=t HTTP/1.1\r\n|||Content-Length: 1\r\n\r\nab| => OK
stats {"backend_depth":0,"channels":[],"depth":1,"message_count":1,"paused":false,"topic_name":"t"}
"#;
