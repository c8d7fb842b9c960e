//! What is refused by itself, and bytes that are no request.

pub static ROWS: &'static str = r#"
a call that is refused by itself
asks GET /pub?topic=t HTTP/1.1\r\n\r\n => 405 METHOD_NOT_ALLOWED
asks POST /ping HTTP/1.1\r\n\r\n => 405 METHOD_NOT_ALLOWED
asks-cut GET /x HTTP/1.1\r\n\r\n => 404 NOT_FOUND
asks-cut POST /pub HTTP/1.1\r\n\r\n => bytes HTTP/1.1 400 Bad Request\r\nContent-Type: application/json; charset=utf-8\r\nContent-Length: 31\r\nConnection: close\r\n\r\n{"message":"MISSING_ARG_TOPIC"}
asks POST /channel/create?topic=t&channel= HTTP/1.1\r\n\r\n => 400 INVALID_ARG_CHANNEL
asks GET /stats HTTP/1.1\r\n\r\n => 400 INVALID_FORMAT
asks POST /channel/empty?topic=t&channel=c HTTP/1.1\r\n\r\n => 404 TOPIC_NOT_FOUND
stats

bytes that are no request
with stops served
asks-cut GET\r\n\r\n => 400 BAD_REQUEST
asks POST /stop HTTP/1.1\r\nContent-Length: 1\r\nContent-Length: 1\r\n\r\nx => 400 BAD_REQUEST
asks-cut POST /stop HTTP/1.1\r\nTransfer-Encoding: chunked\r\n\r\n1\r\na\r\n0\r\n\r\n => 411 LENGTH_REQUIRED
asks POST /stop HTTP/1.1\r\nContent-Length: 5242881\r\n\r\n => 413 BODY_TOO_BIG
asks-cut POST /pub?topic=t HTTP/1.1\r\nContent-Length: 1073741824\r\n\r\n => 413 BODY_TOO_BIG
stats

as many fields as a head may have, and one more
calls answered: GET /ping HTTP/1.1\r\n+a: b\r\n*64+\r\n| => OK
calls answered: GET /ping HTTP/1.1\r\n+a: b\r\n*65+\r\n| => 400 BAD_REQUEST

a head that doesn't end
calls cut: GET /+a*16378| => nothing
calls answered: GET /+a*20000| => 400 BAD_REQUEST
"#;
