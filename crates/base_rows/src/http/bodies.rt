/// Limits of bodies, and bodies in other forms.
pub(crate) static ROWS: &[u8] = b"\
a limit of 0|0|POST /pub HTTP/1.1\r\nContent-Length: 0\r\n\r\n|POST|/pub||~\
above a limit of 0|0|POST /pub HTTP/1.1\r\nContent-Length: 1\r\n\r\nx|too big~\
the greatest limit|4294967295|POST /pub HTTP/1.1\r\nContent-Length: 4294967295\r\n\r\nx|unfinished~\
above the greatest limit|4294967295|POST /pub HTTP/1.1\r\nContent-Length: 4294967296\r\n\r\nx|too big~\
chunked|1000|POST /pub HTTP/1.1\r\nTransfer-Encoding: chunked\r\n\r\n0\r\n\r\n|no length~\
another encoding|1000|POST /pub HTTP/1.1\r\ntransfer-encoding:\r\n\r\n|no length~\
an encoding beside a length|1000|POST /pub HTTP/1.1\r\nContent-Length: 5\r\nTransfer-Encoding: chunked\r\n\r\nhello|no length~\
an encoding before a length that is too big|1000|POST /pub HTTP/1.1\r\nContent-Length: 1001\r\nTransfer-Encoding: chunked\r\n\r\n|no length~\
an encoding beside a bad length|1000|POST /pub HTTP/1.1\r\nTransfer-Encoding: chunked\r\nContent-Length: x\r\n\r\n|bad head~\
an encoding beside two lengths|1000|POST /pub HTTP/1.1\r\nTransfer-Encoding: chunked\r\nContent-Length: 1\r\nContent-Length: 1\r\n\r\n|bad head~\
Expect is passed over|1000|POST /pub HTTP/1.1\r\nExpect: 100-continue\r\nContent-Length: 5\r\n\r\nhello|POST|/pub||hello~\
";
