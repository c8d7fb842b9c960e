//! Members of a wrong kind or out of their range.

/// Texts and truth values of another kind.
pub static KINDS: &[u8] = br#"
{"client_id":1}|refused
{"client_id":true}|refused
{"client_id":["c"]}|refused
{"client_id":{}}|refused
{"hostname":0}|refused
{"hostname":false}|refused
{"user_agent":[]}|refused
{"user_agent":-1}|refused
{"feature_negotiation":"true"}|refused
{"feature_negotiation":1}|refused
{"feature_negotiation":[true]}|refused
{"tls_v1":0}|refused
{"tls_v1":"false"}|refused
{"snappy":1}|refused
{"snappy":{}}|refused
{"deflate":0}|refused
{"deflate":""}|refused
{"feature_negotiation":true,"client_id":1}|refused
{"feature_negotiation":true,"deflate":1}|refused
{"feature_negotiation":true,"deflate_level":"6"}|refused
"#;

/// Heartbeat intervals and times for a message.
pub static TIMES: &[u8] = br#"
{"heartbeat_interval":-2}|refused
{"heartbeat_interval":1}|refused
{"heartbeat_interval":999}|refused
{"heartbeat_interval":60001}|refused
{"heartbeat_interval":18446744073709551615}|refused
{"heartbeat_interval":18446744073709551616}|refused
{"heartbeat_interval":-9223372036854775808}|refused
{"heartbeat_interval":1000.0}|refused
{"heartbeat_interval":1e3}|refused
{"heartbeat_interval":-0}|refused
{"heartbeat_interval":"1000"}|refused
{"heartbeat_interval":false}|refused
{"msg_timeout":-1}|refused
{"msg_timeout":1}|refused
{"msg_timeout":999}|refused
{"msg_timeout":900001}|refused
{"msg_timeout":9223372036854775807}|refused
{"msg_timeout":1000.5}|refused
{"msg_timeout":{}}|refused
{"msg_timeout":"0"}|refused
{"feature_negotiation":true,"msg_timeout":-1}|refused
"#;

/// Rates, buffers and levels.
pub static NUMBERS: &[u8] = br#"
{"sample_rate":-1}|refused
{"sample_rate":100}|refused
{"sample_rate":18446744073709551615}|refused
{"sample_rate":0.5}|refused
{"sample_rate":"0"}|refused
{"sample_rate":true}|refused
{"output_buffer_size":"x"}|refused
{"output_buffer_size":18446744073709551616}|refused
{"output_buffer_size":-9223372036854775809}|refused
{"output_buffer_size":1.0}|refused
{"output_buffer_timeout":true}|refused
{"output_buffer_timeout":18446744073709551616}|refused
{"output_buffer_timeout":[]}|refused
{"deflate_level":[]}|refused
{"deflate_level":0.0}|refused
{"deflate_level":{}}|refused
{"sample_rate":5,"sample_rate":100}|refused
{"feature_negotiation":true,"sample_rate":100}|refused
"#;
