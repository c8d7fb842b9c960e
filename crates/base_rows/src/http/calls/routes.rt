/// Paths and methods, where no stop is served.
pub(crate) static PATHS: &[u8] = b"\
a ping|GET /ping HTTP/1.1\r\n\r\n|200 text OK~\
an unknown path|GET /x HTTP/1.1\r\n\r\n|404 json {\"message\":\"NOT_FOUND\"}~\
an unknown path, whatever the method|POST /x HTTP/1.1\r\n\r\n|404 json {\"message\":\"NOT_FOUND\"}~\
a publish by GET|GET /pub?topic=t HTTP/1.1\r\n\r\n|405 json {\"message\":\"METHOD_NOT_ALLOWED\"}~\
a ping by POST|POST /ping HTTP/1.1\r\n\r\n|405 json {\"message\":\"METHOD_NOT_ALLOWED\"}~\
a method in small letters|get /ping HTTP/1.1\r\n\r\n|405 json {\"message\":\"METHOD_NOT_ALLOWED\"}~\
a path in capitals|GET /PING HTTP/1.1\r\n\r\n|404 json {\"message\":\"NOT_FOUND\"}~\
a slash behind a path|GET /ping/ HTTP/1.1\r\n\r\n|404 json {\"message\":\"NOT_FOUND\"}~\
the method is judged before the arguments|GET /topic/create HTTP/1.1\r\n\r\n|405 json {\"message\":\"METHOD_NOT_ALLOWED\"}~\
a stop that is not served|POST /stop HTTP/1.1\r\n\r\n|404 json {\"message\":\"NOT_FOUND\"}~\
the same by GET|GET /stop HTTP/1.1\r\n\r\n|404 json {\"message\":\"NOT_FOUND\"}~\
";

/// Statistics.
pub(crate) static STATISTICS: &[u8] = b"\
of all|GET /stats?format=json HTTP/1.1\r\n\r\n|stats * *~\
no format|GET /stats HTTP/1.1\r\n\r\n|400 json {\"message\":\"INVALID_FORMAT\"}~\
text|GET /stats?format=text HTTP/1.1\r\n\r\n|400 json {\"message\":\"INVALID_FORMAT\"}~\
an empty format, before a bad topic|GET /stats?format=&topic= HTTP/1.1\r\n\r\n|400 json {\"message\":\"INVALID_FORMAT\"}~\
capitals|GET /stats?format=JSON HTTP/1.1\r\n\r\n|400 json {\"message\":\"INVALID_FORMAT\"}~\
of a topic|GET /stats?topic=t&format=json HTTP/1.1\r\n\r\n|stats t *~\
of a channel in each topic|GET /stats?format=json&channel=c HTTP/1.1\r\n\r\n|stats * c~\
of a channel of a topic|GET /stats?format=json&channel=c&topic=t&include_clients=false HTTP/1.1\r\n\r\n|stats t c~\
a bad topic before a bad channel|GET /stats?format=json&channel=&topic= HTTP/1.1\r\n\r\n|400 json {\"message\":\"INVALID_ARG_TOPIC\"}~\
a bad channel|GET /stats?format=json&channel= HTTP/1.1\r\n\r\n|400 json {\"message\":\"INVALID_ARG_CHANNEL\"}~\
by POST|POST /stats?format=json HTTP/1.1\r\n\r\n|405 json {\"message\":\"METHOD_NOT_ALLOWED\"}~\
";

/// Paths and methods, where a stop is served, and bytes that are no request.
pub(crate) static STOPS: &[u8] = b"\
a stop|POST /stop HTTP/1.1\r\n\r\n|stop~\
a stop with arguments and a body|POST /stop?topic= HTTP/1.1\r\nContent-Length: 1\r\n\r\nx|stop~\
a stop by GET|GET /stop HTTP/1.1\r\n\r\n|405 json {\"message\":\"METHOD_NOT_ALLOWED\"}~\
what the daemon tells of itself|GET /info HTTP/1.1\r\n\r\n|200 json {\"broadcast_address\":\"127.0.0.1\",\"hostname\":\"127.0.0.1\",\"http_port\":4151,\"start_time\":3,\"tcp_port\":4150,\"version\":\"1.0.0\"}~\
no head|GET\r\n\r\n|400 json {\"message\":\"BAD_REQUEST\"}~\
two lengths|POST /pub?topic=t HTTP/1.1\r\nContent-Length: 1\r\nContent-Length: 1\r\n\r\nx|400 json {\"message\":\"BAD_REQUEST\"}~\
a body in chunks|POST /pub?topic=t HTTP/1.1\r\nTransfer-Encoding: chunked\r\n\r\n|411 json {\"message\":\"LENGTH_REQUIRED\"}~\
a body that is too big|POST /pub?topic=t HTTP/1.1\r\nContent-Length: 5242881\r\n\r\n|413 json {\"message\":\"BODY_TOO_BIG\"}~\
the same at an unknown path|POST /x HTTP/1.1\r\nContent-Length: 5242881\r\n\r\n|413 json {\"message\":\"BODY_TOO_BIG\"}~\
";
