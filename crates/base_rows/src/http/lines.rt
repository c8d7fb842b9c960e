/// Line ends and fields.
pub(crate) static ROWS: &[u8] = b"\
line feeds alone|1000|GET /ping HTTP/1.1\nHost: h\n\n|GET|/ping||~\
a line feed and then a carriage return and a line feed|1000|GET /ping HTTP/1.1\n\r\n|GET|/ping||~\
a carriage return and a line feed and then a line feed|1000|GET /ping HTTP/1.1\r\n\n|GET|/ping||~\
two carriage returns end no head|1000|GET /ping HTTP/1.1\r\n\r\r\n|unfinished~\
two carriage returns, and then the end|1000|GET /ping HTTP/1.1\r\n\r\r\n\r\n|bad head~\
line ends before the head|1000|\r\n\n\r\nGET /ping HTTP/1.1\r\n\r\n|GET|/ping||~\
two line feeds before the head end none|1000|\n\nGET /ping HTTP/1.1\r\n|unfinished~\
a carriage return alone before the head|1000|\rGET /ping HTTP/1.1\r\n\r\n|bad head~\
a carriage return in a value|1000|GET /ping HTTP/1.1\r\nHost: a\rb\r\n\r\n|bad head~\
two carriage returns behind a value|1000|GET /ping HTTP/1.1\r\nHost: a\r\r\n\r\n|bad head~\
a NUL in a value|1000|GET /ping HTTP/1.1\r\nHost: a\x00b\r\n\r\n|bad head~\
a byte past ASCII in a value|1000|GET /ping HTTP/1.1\r\nHost: a\xffb\r\n\r\n|GET|/ping||~\
a space before a colon|1000|GET /ping HTTP/1.1\r\nHost : h\r\n\r\n|bad head~\
a field without a colon|1000|GET /ping HTTP/1.1\r\nHost\r\n\r\n|bad head~\
a field without a name|1000|GET /ping HTTP/1.1\r\n: h\r\n\r\n|bad head~\
a value that goes on in the next line|1000|GET /ping HTTP/1.1\r\nHost: a\r\n b\r\n\r\n|bad head~\
an empty value|1000|GET /ping HTTP/1.1\r\nHost:\r\n\r\n|GET|/ping||~\
";
