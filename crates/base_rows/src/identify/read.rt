//! Bodies that are accepted, and what they are answered.

/// Bodies that say what they say, at the ends of the ranges, bodies that say nothing, and answers in JSON.
pub static SAID: &[u8] = br#"
{}|nothing
{"client_id":"c","hostname":"h","user_agent":"u/1.0"}|c^h^u/1.0 30000000000 60000000000 plain OK
{"client_id":"a","client_id":"b"}|b^^ 30000000000 60000000000 plain OK
{"heartbeat_interval":-1}|^^ off 60000000000 plain OK
{"heartbeat_interval":0}|nothing
{"heartbeat_interval":1000}|^^ 1000000000 60000000000 plain OK
{"heartbeat_interval":1001}|^^ 1001000000 60000000000 plain OK
{"heartbeat_interval":59999}|^^ 59999000000 60000000000 plain OK
{"heartbeat_interval":60000}|^^ 60000000000 60000000000 plain OK
{"msg_timeout":0}|nothing
{"msg_timeout":1000}|^^ 30000000000 1000000000 plain OK
{"msg_timeout":899999}|^^ 30000000000 899999000000 plain OK
{"msg_timeout":900000}|^^ 30000000000 900000000000 plain OK
{"msg_timeout":1000,"msg_timeout":null}|nothing
{"sample_rate":0}|nothing
{"sample_rate":99}|nothing
{"sample_rate":100,"sample_rate":5}|nothing
{"output_buffer_size":-9223372036854775808,"output_buffer_timeout":18446744073709551615,"deflate_level":6}|nothing
{"tls_v1":true,"snappy":true,"deflate":true,"feature_negotiation":false}|nothing
{"client_id":null,"heartbeat_interval":null,"msg_timeout":null,"sample_rate":null,"tls_v1":null,"feature_negotiation":null}|nothing
{"feature_negotiation":true}|^^ 30000000000 60000000000 json {"auth_required":false,"deflate":false,"deflate_level":0,"max_deflate_level":0,"max_msg_timeout":900000,"max_rdy_count":2500,"msg_timeout":60000,"sample_rate":0,"snappy":false,"tls_v1":false,"version":"1.0.0"}
{"feature_negotiation":true,"msg_timeout":1500}|^^ 30000000000 1500000000 json {"auth_required":false,"deflate":false,"deflate_level":0,"max_deflate_level":0,"max_msg_timeout":900000,"max_rdy_count":2500,"msg_timeout":1500,"sample_rate":0,"snappy":false,"tls_v1":false,"version":"1.0.0"}
{"feature_negotiation":true,"tls_v1":true,"snappy":true,"deflate":true,"deflate_level":6,"sample_rate":50}|^^ 30000000000 60000000000 json {"auth_required":false,"deflate":false,"deflate_level":0,"max_deflate_level":0,"max_msg_timeout":900000,"max_rdy_count":2500,"msg_timeout":60000,"sample_rate":0,"snappy":false,"tls_v1":false,"version":"1.0.0"}
{"feature_negotiation":false,"feature_negotiation":true}|^^ 30000000000 60000000000 json {"auth_required":false,"deflate":false,"deflate_level":0,"max_deflate_level":0,"max_msg_timeout":900000,"max_rdy_count":2500,"msg_timeout":60000,"sample_rate":0,"snappy":false,"tls_v1":false,"version":"1.0.0"}
"#;

/// With other options: the longest heartbeat interval and time for a message, and the time for a message where none is said, in
/// nanoseconds.
pub static OTHERS: &[u8] = br#"
10000000000|900000000000|60000000000|{}|^^ 10000000000 60000000000 plain OK
10000000000|900000000000|60000000000|{"heartbeat_interval":10001}|refused
10000999999|900000000000|60000000000|{"heartbeat_interval":10000}|^^ 10000000000 60000000000 plain OK
9999999999|900000000000|60000000000|{"heartbeat_interval":10000}|refused
31536000000000000|31536000000000000|60000000000|{"heartbeat_interval":31536000000}|^^ 31536000000000000 60000000000 plain OK
60000000000|31536000000000000|60000000000|{"msg_timeout":31536000001}|refused
60000000000|999999999|1999999|{"feature_negotiation":true}|^^ 30000000000 1999999 json {"auth_required":false,"deflate":false,"deflate_level":0,"max_deflate_level":0,"max_msg_timeout":999,"max_rdy_count":2500,"msg_timeout":1,"sample_rate":0,"snappy":false,"tls_v1":false,"version":"1.0.0"}
60000000000|999999999|1999999|{"msg_timeout":1000}|refused
"#;
