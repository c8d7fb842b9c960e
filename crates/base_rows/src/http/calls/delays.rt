/// Publishes of one message.
pub(crate) static MESSAGES: &[u8] = b"\
a message|POST /pub?topic=test HTTP/1.1\r\nHost: 127.0.0.1:4151\r\nUser-Agent: curl/8.5.0\r\nAccept: */*\r\nContent-Length: 5\r\nContent-Type: application/x-www-form-urlencoded\r\n\r\nhello|publish test 0 5:hello~\
no topic|POST /pub HTTP/1.1\r\nContent-Length: 1\r\n\r\nx|400 json {\"message\":\"MISSING_ARG_TOPIC\"}~\
a bad topic before an empty message|POST /pub?topic= HTTP/1.1\r\n\r\n|400 json {\"message\":\"INVALID_TOPIC\"}~\
an empty message|POST /pub?topic=t HTTP/1.1\r\n\r\n|400 json {\"message\":\"MSG_EMPTY\"}~\
an empty message before a bad delay|POST /pub?topic=t&defer=x HTTP/1.1\r\n\r\n|400 json {\"message\":\"MSG_EMPTY\"}~\
a message as long as one may be|POST /pub?topic=t HTTP/1.1\r\nContent-Length: 8\r\n\r\n12345678|publish t 0 8:12345678~\
a message that is too long, before a bad delay|POST /pub?topic=t&defer=x HTTP/1.1\r\nContent-Length: 9\r\n\r\n123456789|413 json {\"message\":\"MSG_TOO_BIG\"}~\
line feeds stay in a message|POST /pub?topic=t HTTP/1.1\r\nContent-Length: 4\r\n\r\na\n\nb|publish t 0 4:a\n\nb~\
";

/// Their delays.
pub(crate) static DELAYS: &[u8] = b"\
none|POST /pub?topic=t&defer=0 HTTP/1.1\r\nContent-Length: 1\r\n\r\nx|publish t 0 1:x~\
a millisecond|POST /pub?topic=t&defer=1 HTTP/1.1\r\nContent-Length: 1\r\n\r\nx|publish t 1000000 1:x~\
the longest|POST /pub?topic=t&defer=3600000 HTTP/1.1\r\nContent-Length: 1\r\n\r\nx|publish t 3600000000000 1:x~\
one more|POST /pub?topic=t&defer=3600001 HTTP/1.1\r\nContent-Length: 1\r\n\r\nx|400 json {\"message\":\"INVALID_DEFER\"}~\
below 0|POST /pub?topic=t&defer=-1 HTTP/1.1\r\nContent-Length: 1\r\n\r\nx|400 json {\"message\":\"INVALID_DEFER\"}~\
a minus sign before 0|POST /pub?topic=t&defer=-0 HTTP/1.1\r\nContent-Length: 1\r\n\r\nx|publish t 0 1:x~\
a plus sign|POST /pub?topic=t&defer=%2B1 HTTP/1.1\r\nContent-Length: 1\r\n\r\nx|400 json {\"message\":\"INVALID_DEFER\"}~\
zeros in front|POST /pub?topic=t&defer=000000000000000007 HTTP/1.1\r\nContent-Length: 1\r\n\r\nx|publish t 7000000 1:x~\
19 digits|POST /pub?topic=t&defer=0000000000000000007 HTTP/1.1\r\nContent-Length: 1\r\n\r\nx|400 json {\"message\":\"INVALID_DEFER\"}~\
18 digits|POST /pub?topic=t&defer=999999999999999999 HTTP/1.1\r\nContent-Length: 1\r\n\r\nx|400 json {\"message\":\"INVALID_DEFER\"}~\
an empty one|POST /pub?topic=t&defer= HTTP/1.1\r\nContent-Length: 1\r\n\r\nx|400 json {\"message\":\"INVALID_DEFER\"}~\
no digits|POST /pub?topic=t&defer=1s HTTP/1.1\r\nContent-Length: 1\r\n\r\nx|400 json {\"message\":\"INVALID_DEFER\"}~\
";
