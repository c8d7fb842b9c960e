/// Fields and bytes of a head at their limits.
pub(crate) static ROWS: &[u8] = b"\
64 fields|1000|GET /ping HTTP/1.1\r\n{64*a: b\r\n}\r\n|GET|/ping||~\
65 fields|1000|GET /ping HTTP/1.1\r\n{65*a: b\r\n}\r\n|bad head~\
65 fields before the head's end|1000|GET /ping HTTP/1.1\r\n{65*a: b\r\n}|unfinished~\
a head of 16384 bytes|1000|GET /ping HTTP/1.1\r\nA: {16357*x}\r\n\r\n|GET|/ping||~\
a head of 16384 bytes, and a body|1000|GET /ping HTTP/1.1\r\nA: {16338*x}\r\nContent-Length: 2\r\n\r\nok|GET|/ping||ok~\
a head of 16385 bytes|1000|GET /ping HTTP/1.1\r\nA: {16358*x}\r\n\r\n|bad head~\
16383 bytes without a head's end|1000|GET /ping HTTP/1.1\r\nA: {16360*x}|unfinished~\
16384 bytes without a head's end|1000|GET /ping HTTP/1.1\r\nA: {16361*x}|bad head~\
a head of 16384 bytes with line ends before it|1000|{1000*\r\n}GET /ping HTTP/1.1\r\nA: {14357*x}\r\n\r\n|GET|/ping||~\
a head of 16385 bytes with line ends before it|1000|{1000*\r\n}GET /ping HTTP/1.1\r\nA: {14358*x}\r\n\r\n|bad head~\
16383 line ends|1000|{16383*\n}|unfinished~\
16384 line ends|1000|{16384*\n}|bad head~\
";
