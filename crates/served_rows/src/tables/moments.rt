//! What comes by the clock alone: a message whose time is over, a heartbeat, the end of a silent client.

pub static ROWS: &'static str = r#"
a FIN at the moment at which a message's time is over comes too late, and it is sent again
with timeout 1s
client end: 0s|  V2PUB t\n\0\0\0\x01a|OK
client end: 0s|  V2SUB t c\nRDY 1\n|OK, first 0000010000000000a / 1s|FIN 0000010000000000\n|not in flight, second 0000010000000000a

a FIN of which a part comes at that moment is that of the second sending
with timeout 1s
client end: 0s|  V2PUB t\n\0\0\0\x01a|OK
client end: 0s|  V2SUB t c\nRDY 1\n|OK, first 0000010000000000a / 1s|F|second 0000010000000000a / 1s|IN 0000010000000000\n|

a client that sends nothing for an interval gets a heartbeat, and after two it is closed
client-cut closed: 0s|  V2NOP\n| / 30s||bytes \0\0\0\x0f\0\0\0\0_heartbeat_ / 60s||
"#;
