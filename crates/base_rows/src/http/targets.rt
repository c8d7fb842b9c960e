/// Targets and queries.
pub(crate) static ROWS: &[u8] = b"\
a target without a question mark|1000|GET /a&b=c HTTP/1.1\r\n\r\n|GET|/a&b=c||~\
a target with two|1000|GET /a?b=c?d&e HTTP/1.1\r\n\r\n|GET|/a|b>c?d^e>|~\
a question mark at the end|1000|GET /a? HTTP/1.1\r\n\r\n|GET|/a||~\
a query alone|1000|GET ?a HTTP/1.1\r\n\r\n|GET||a>|~\
an absolute target|1000|GET http://h:4151/ping?a=b HTTP/1.1\r\n\r\n|GET|http://h:4151/ping|a>b|~\
a star|1000|OPTIONS * HTTP/1.1\r\n\r\n|OPTIONS|*||~\
percent signs and plus signs|1000|GET /a?t%6Fpic=x%20y+z%2B&%zz=%4&%=1% HTTP/1.1\r\n\r\n|GET|/a|topic>x y z+^%zz>%4^%>1%|~\
a path isn't decoded|1000|GET /p%6Fng+x HTTP/1.1\r\n\r\n|GET|/p%6Fng+x||~\
repeated pairs|1000|GET /a?topic=t&topic=u&topic=t HTTP/1.1\r\n\r\n|GET|/a|topic>t^topic>u^topic>t|~\
empty parts of a query|1000|GET /a?&&x=1&&=2&= HTTP/1.1\r\n\r\n|GET|/a|x>1^>2^>|~\
an equals sign in a value|1000|GET /a?x=1=2 HTTP/1.1\r\n\r\n|GET|/a|x>1=2|~\
what isn't UTF-8 is replaced|1000|GET /a?x=%ff%c3%a4%c3 HTTP/1.1\r\n\r\n|GET|/a|x>\xef\xbf\xbd\xc3\xa4\xef\xbf\xbd|~\
a target in UTF-8|1000|GET /\xc3\xa4?x=\xc3\xa4 HTTP/1.1\r\n\r\n|GET|/\xc3\xa4|x>\xc3\xa4|~\
a target that isn't UTF-8|1000|GET /\xff HTTP/1.1\r\n\r\n|bad head~\
a body of any bytes|1000|POST /pub HTTP/1.1\r\nContent-Length: 6\r\n\r\n\x00\xff\r\n\r\n|POST|/pub||\x00\xff\r\n\r\n~\
a second request behind the first|1000|GET /a HTTP/1.1\r\n\r\nGET /b HTTP/1.1\r\n\r\n|GET|/a||~\
";
