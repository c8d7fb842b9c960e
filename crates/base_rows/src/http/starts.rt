/// Where a head begins and ends.
pub(crate) static ROWS: &[u8] = b"\
a request of curl with a body|1000|POST /pub?topic=test HTTP/1.1\r\nHost: 127.0.0.1:4151\r\nUser-Agent: curl/8.5.0\r\nAccept: */*\r\nContent-Length: 5\r\nContent-Type: application/x-www-form-urlencoded\r\n\r\nhello|POST|/pub|topic>test|hello~\
bytes behind the body|1000|POST /pub?topic=test HTTP/1.1\r\nHost: 127.0.0.1:4151\r\nUser-Agent: curl/8.5.0\r\nAccept: */*\r\nContent-Length: 5\r\nContent-Type: application/x-www-form-urlencoded\r\n\r\nhello, and more|POST|/pub|topic>test|hello~\
a body with a byte missing|1000|POST /pub?topic=test HTTP/1.1\r\nHost: 127.0.0.1:4151\r\nUser-Agent: curl/8.5.0\r\nAccept: */*\r\nContent-Length: 5\r\nContent-Type: application/x-www-form-urlencoded\r\n\r\nhell|unfinished~\
a body that hasn't begun|1000|POST /pub?topic=test HTTP/1.1\r\nHost: 127.0.0.1:4151\r\nUser-Agent: curl/8.5.0\r\nAccept: */*\r\nContent-Length: 5\r\nContent-Type: application/x-www-form-urlencoded\r\n\r\n|unfinished~\
nothing|1000||unfinished~\
line ends alone|1000|\r\n\n\r\r\n|unfinished~\
a head without its end|1000|GET /ping HTTP/1.1\r\nHost: h\r\n|unfinished~\
a head up to the last carriage return|1000|GET /ping HTTP/1.1\r\nHost: h\r\n\r|unfinished~\
a bad line before the head's end|1000|GET\r\nbad|unfinished~\
a bad line and the head's end|1000|GET\r\nbad\r\n\r\n|bad head~\
no fields|1000|GET /ping HTTP/1.1\r\n\r\n|GET|/ping||~\
HTTP/1.0|1000|GET /ping HTTP/1.0\r\n\r\n|GET|/ping||~\
HTTP/1.2|1000|GET /ping HTTP/1.2\r\n\r\n|bad head~\
HTTP/2.0|1000|GET /ping HTTP/2.0\r\n\r\n|bad head~\
no version|1000|GET /ping\r\n\r\n|bad head~\
two spaces|1000|GET  /ping HTTP/1.1\r\n\r\n|bad head~\
a space behind the version|1000|GET /ping HTTP/1.1 \r\n\r\n|bad head~\
an empty target|1000|GET  HTTP/1.1\r\n\r\n|bad head~\
no method|1000| /ping HTTP/1.1\r\n\r\n|bad head~\
a method that is no token|1000|G(T /ping HTTP/1.1\r\n\r\n|bad head~\
any token is a method|1000|frob-1 /ping HTTP/1.1\r\n\r\n|frob-1|/ping||~\
";
