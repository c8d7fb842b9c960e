/// Lengths of bodies.
pub(crate) static ROWS: &[u8] = b"\
a length of 0|1000|POST /pub HTTP/1.1\r\nContent-Length: 0\r\n\r\n|POST|/pub||~\
a length with zeros in front|1000|POST /pub HTTP/1.1\r\nContent-Length: 0005\r\n\r\nhello|POST|/pub||hello~\
a length with white space round it|1000|POST /pub HTTP/1.1\r\nContent-Length:  \t 5 \t\r\n\r\nhello|POST|/pub||hello~\
a length's name in another case|1000|POST /pub HTTP/1.1\r\ncONTENT-lENGTH: 5\r\n\r\nhello|POST|/pub||hello~\
an empty length|1000|POST /pub HTTP/1.1\r\nContent-Length: \r\n\r\n|bad head~\
a plus sign|1000|POST /pub HTTP/1.1\r\nContent-Length: +5\r\n\r\nhello|bad head~\
a minus sign|1000|POST /pub HTTP/1.1\r\nContent-Length: -5\r\n\r\nhello|bad head~\
a hexadecimal length|1000|POST /pub HTTP/1.1\r\nContent-Length: 0x5\r\n\r\nhello|bad head~\
a list of lengths|1000|POST /pub HTTP/1.1\r\nContent-Length: 5, 5\r\n\r\nhello|bad head~\
a space in a length|1000|POST /pub HTTP/1.1\r\nContent-Length: 1 0\r\n\r\nhellohello|bad head~\
18 digits|1000|POST /pub HTTP/1.1\r\nContent-Length: 000000000000000005\r\n\r\nhello|POST|/pub||hello~\
18 digits above the limit|1000|POST /pub HTTP/1.1\r\nContent-Length: 999999999999999999\r\n\r\nhello|too big~\
19 digits|1000|POST /pub HTTP/1.1\r\nContent-Length: 0000000000000000005\r\n\r\nhello|bad head~\
two lengths that are the same|1000|POST /pub HTTP/1.1\r\nContent-Length: 5\r\ncontent-length: 5\r\n\r\nhello|bad head~\
a body at the limit|1000|POST /pub HTTP/1.1\r\nContent-Length: 1000\r\n\r\n{1000*b}|POST|/pub||{1000*b}~\
a body one above the limit|1000|POST /pub HTTP/1.1\r\nContent-Length: 1001\r\n\r\n|too big~\
";
