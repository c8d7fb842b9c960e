/// Publishes of lines.
pub(crate) static LINES: &[u8] = b"\
two lines, and an empty one between them|POST /mpub?topic=t HTTP/1.1\r\nContent-Length: 4\r\n\r\na\n\nb|publish t 0 1:a 1:b~\
a line feed at the end|POST /mpub?topic=t HTTP/1.1\r\nContent-Length: 4\r\n\r\na\nb\n|publish t 0 1:a 1:b~\
no topic|POST /mpub HTTP/1.1\r\nContent-Length: 1\r\n\r\na|400 json {\"message\":\"MISSING_ARG_TOPIC\"}~\
a bad topic before no line|POST /mpub?topic=a/b HTTP/1.1\r\n\r\n|400 json {\"message\":\"INVALID_TOPIC\"}~\
no body|POST /mpub?topic=t HTTP/1.1\r\n\r\n|400 json {\"message\":\"MSG_EMPTY\"}~\
line feeds alone|POST /mpub?topic=t HTTP/1.1\r\nContent-Length: 2\r\n\r\n\n\n|400 json {\"message\":\"MSG_EMPTY\"}~\
a carriage return stays|POST /mpub?topic=t HTTP/1.1\r\nContent-Length: 2\r\n\r\n\r\n|publish t 0 1:\r~\
a line as long as one may be|POST /mpub?topic=t HTTP/1.1\r\nContent-Length: 10\r\n\r\n12345678\nx|publish t 0 8:12345678 1:x~\
a line that is too long|POST /mpub?topic=t HTTP/1.1\r\nContent-Length: 11\r\n\r\nx\n123456789|413 json {\"message\":\"MSG_TOO_BIG\"}~\
a delay is passed over|POST /mpub?topic=t&defer=7 HTTP/1.1\r\nContent-Length: 1\r\n\r\na|publish t 0 1:a~\
not binary: false|POST /mpub?topic=t&binary=false HTTP/1.1\r\nContent-Length: 1\r\n\r\na|publish t 0 1:a~\
not binary: 0|POST /mpub?topic=t&binary=0 HTTP/1.1\r\nContent-Length: 1\r\n\r\na|publish t 0 1:a~\
";

/// Publishes of batches as MPUB has them.
pub(crate) static BATCHES: &[u8] = b"\
one message|POST /mpub?topic=t&binary=true HTTP/1.1\r\nContent-Length: 9\r\n\r\n\x00\x00\x00\x01\x00\x00\x00\x01a|publish t 0 1:a~\
two messages|POST /mpub?topic=t&binary=true HTTP/1.1\r\nContent-Length: 21\r\n\r\n\x00\x00\x00\x02\x00\x00\x00\x0812345678\x00\x00\x00\x01\n|publish t 0 8:12345678 1:\n~\
binary without a value|POST /mpub?topic=t&binary HTTP/1.1\r\nContent-Length: 9\r\n\r\n\x00\x00\x00\x01\x00\x00\x00\x01a|publish t 0 1:a~\
binary by another word|POST /mpub?topic=t&binary=False HTTP/1.1\r\nContent-Length: 9\r\n\r\n\x00\x00\x00\x01\x00\x00\x00\x01a|publish t 0 1:a~\
no body|POST /mpub?topic=t&binary=true HTTP/1.1\r\n\r\n|413 json {\"message\":\"BAD_BODY\"}~\
three bytes|POST /mpub?topic=t&binary=true HTTP/1.1\r\nContent-Length: 3\r\n\r\n\x00\x00\x00|413 json {\"message\":\"BAD_BODY\"}~\
no message|POST /mpub?topic=t&binary=true HTTP/1.1\r\nContent-Length: 4\r\n\r\n\x00\x00\x00\x00|413 json {\"message\":\"BAD_BODY\"}~\
no size of the message|POST /mpub?topic=t&binary=true HTTP/1.1\r\nContent-Length: 7\r\n\r\n\x00\x00\x00\x01\x00\x00\x00|413 json {\"message\":\"BAD_BODY\"}~\
a size of 0|POST /mpub?topic=t&binary=true HTTP/1.1\r\nContent-Length: 8\r\n\r\n\x00\x00\x00\x01\x00\x00\x00\x00|413 json {\"message\":\"BAD_MESSAGE\"}~\
a size above the greatest one, before too few bytes|POST /mpub?topic=t&binary=true HTTP/1.1\r\nContent-Length: 8\r\n\r\n\x00\x00\x00\x01\x00\x00\x00\x09|413 json {\"message\":\"BAD_MESSAGE\"}~\
a byte too few|POST /mpub?topic=t&binary=true HTTP/1.1\r\nContent-Length: 9\r\n\r\n\x00\x00\x00\x01\x00\x00\x00\x02a|413 json {\"message\":\"BAD_BODY\"}~\
a byte too many|POST /mpub?topic=t&binary=true HTTP/1.1\r\nContent-Length: 10\r\n\r\n\x00\x00\x00\x01\x00\x00\x00\x01ab|413 json {\"message\":\"BAD_BODY\"}~\
a message too few|POST /mpub?topic=t&binary=true HTTP/1.1\r\nContent-Length: 9\r\n\r\n\x00\x00\x00\x02\x00\x00\x00\x01a|413 json {\"message\":\"BAD_BODY\"}~\
";
