//! Bodies that aren't an object in JSON, members that are unknown, and nesting.

/// Bodies of any shape.
pub static SHAPES: &[u8] = br#"
|refused
 |refused
null|refused
[]|refused
true|refused
0|refused
"{}"|refused
{|refused
{}}|refused
{} x|refused
{"a":1,}|refused
{a:1}|refused
{"a":01}|refused
{"a":"\ud800"}|refused
{"unknown":[1,2,{"client_id":3}]}|nothing
{"Client_id":1,"client_id ":2}|nothing
{"short_id":"s","long_id":"l"}|nothing
{"big":1e400}|refused
{"big":123456789012345678901234567890}|nothing
"#;

/// Bodies with line ends and any bytes, each behind a name.
pub static NAMED: &[u8] = b"\
letters that are escaped|{\"client_id\":\"\\u00e9\\n\",\"hostname\":\"\\\"\",\"user_agent\":\"\"}|\xc3\xa9\n^\"^ 30000000000 60000000000 plain OK~\
a byte order mark|\xef\xbb\xbf{}|refused~\
white space|\x20{\t}\r\n|nothing~\
a byte that begins nothing|{\"client_id\":\"\xff\"}|refused~\
a letter without its end|{\"client_id\":\"\xc3\"}|refused~\
a byte behind the object|{}\xff|refused~\
";

/// Lists, one inside the other, as a member that is unknown.
pub static NESTED: &[u8] =
    b"125 lists|nothing~126 lists|nothing~127 lists|refused~128 lists|refused~";
