//! What an IDENTIFY says: what is negotiated, what it changes, and each value that is refused.

pub const ROWS: &str = r#"
a client that negotiates, and one that doesn't
    1 begin => begun | began
    1 IDENTIFY {"feature_negotiation":true} => {"auth_required":false,"deflate":false,"deflate_level":0,"max_deflate_level":0,"max_msg_timeout":900000,"max_rdy_count":2500,"msg_timeout":60000,"sample_rate":0,"snappy":false,"tls_v1":false,"version":"1.0.0"} | did
    1 IDENTIFY {} => OK | did
    1 IDENTIFY {"feature_negotiation":false} => OK | did
    1 IDENTIFY {"feature_negotiation":null} => OK | did
    1 IDENTIFY {"feature_negotiation":true,"msg_timeout":1000,"sample_rate":99,"tls_v1":true,"snappy":true,"deflate":true,"deflate_level":6} => {"auth_required":false,"deflate":false,"deflate_level":0,"max_deflate_level":0,"max_msg_timeout":900000,"max_rdy_count":2500,"msg_timeout":1000,"sample_rate":0,"snappy":false,"tls_v1":false,"version":"1.0.0"} | did

each value at the edge of its range, and members that are ignored
    1 begin => begun | began
    1 IDENTIFY {"heartbeat_interval":-1} => OK | did
    1 IDENTIFY {"heartbeat_interval":0} => OK | did
    1 IDENTIFY {"heartbeat_interval":1000} => OK | did
    1 IDENTIFY {"heartbeat_interval":60000} => OK | did
    1 IDENTIFY {"msg_timeout":0} => OK | did
    1 IDENTIFY {"msg_timeout":1000} => OK | did
    1 IDENTIFY {"msg_timeout":900000} => OK | did
    1 IDENTIFY {"sample_rate":0} => OK | did
    1 IDENTIFY {"sample_rate":99} => OK | did
    1 IDENTIFY {"output_buffer_size":-5,"output_buffer_timeout":9000000,"deflate_level":77} => OK | did
    1 IDENTIFY {"client_id":null,"hostname":null,"msg_timeout":null,"tls_v1":null} => OK | did
    1 IDENTIFY {"other":{"a":[1,2]},"client":"x"} => OK | did

each value beyond its range
    1 begin => begun | began
    1 IDENTIFY {"heartbeat_interval":-2} => E_BAD_BODY bad JSON, closes | did
    1 IDENTIFY {"heartbeat_interval":1} => E_BAD_BODY bad JSON, closes | did
    1 IDENTIFY {"heartbeat_interval":999} => E_BAD_BODY bad JSON, closes | did
    1 IDENTIFY {"heartbeat_interval":60001} => E_BAD_BODY bad JSON, closes | did
    1 IDENTIFY {"msg_timeout":-1} => E_BAD_BODY bad JSON, closes | did
    1 IDENTIFY {"msg_timeout":999} => E_BAD_BODY bad JSON, closes | did
    1 IDENTIFY {"msg_timeout":900001} => E_BAD_BODY bad JSON, closes | did
    1 IDENTIFY {"sample_rate":-1} => E_BAD_BODY bad JSON, closes | did
    1 IDENTIFY {"sample_rate":100} => E_BAD_BODY bad JSON, closes | did
    1 NOP => quiet | did

each value of a wrong kind, and what is no object
    1 begin => begun | began
    1 IDENTIFY [] => E_BAD_BODY bad JSON, closes | did
    1 IDENTIFY 1 => E_BAD_BODY bad JSON, closes | did
    1 IDENTIFY {"a":1 => E_BAD_BODY bad JSON, closes | did
    1 IDENTIFY null => E_BAD_BODY bad JSON, closes | did
    1 IDENTIFY {"client_id":1} => E_BAD_BODY bad JSON, closes | did
    1 IDENTIFY {"hostname":true} => E_BAD_BODY bad JSON, closes | did
    1 IDENTIFY {"user_agent":[]} => E_BAD_BODY bad JSON, closes | did
    1 IDENTIFY {"feature_negotiation":1} => E_BAD_BODY bad JSON, closes | did
    1 IDENTIFY {"heartbeat_interval":"1000"} => E_BAD_BODY bad JSON, closes | did
    1 IDENTIFY {"heartbeat_interval":1000.5} => E_BAD_BODY bad JSON, closes | did
    1 IDENTIFY {"msg_timeout":1e3} => E_BAD_BODY bad JSON, closes | did
    1 IDENTIFY {"sample_rate":{}} => E_BAD_BODY bad JSON, closes | did
    1 IDENTIFY {"output_buffer_size":"1"} => E_BAD_BODY bad JSON, closes | did
    1 IDENTIFY {"output_buffer_timeout":1.5} => E_BAD_BODY bad JSON, closes | did
    1 IDENTIFY {"deflate_level":99999999999999999999} => E_BAD_BODY bad JSON, closes | did
    1 IDENTIFY {"tls_v1":0} => E_BAD_BODY bad JSON, closes | did
    1 IDENTIFY {"snappy":"no"} => E_BAD_BODY bad JSON, closes | did
    1 IDENTIFY {"deflate":[]} => E_BAD_BODY bad JSON, closes | did

what a client says of itself is told, and its heartbeat and its time for a message are its own
    1 begin => begun | began
    1 IDENTIFY {"client_id":"me","hostname":"here","user_agent":"a/1","heartbeat_interval":2000,"msg_timeout":1000} => OK | did
    1 IDENTIFY {"client_id":5,"heartbeat_interval":1000} => E_BAD_BODY bad JSON, closes | did
    1 SUB t c => OK | did
    1 PUB t x => OK | did
    1 RDY 1 => quiet | took t i0 x for c; copied t c i0 x; did
    1 next => sends i0*1 x | sent i0*1 x
    0 stats => stats t messages 1 [ c flying 1 messages 1 ( id me host here agent a/1 ready 1 flying 1 sent 1 ) ] | asked
    at 999999999
    1 NOP => quiet | did
    at 1s
    1 NOP => quiet | timed-out t c i0; did
    at 2s
    1 next => sends _heartbeat_ | beat
    1 next => sends i0*2 x | sent i0*2 x
"#;
