//! What a client is sent and may do once it has said that it closes.

pub static ROWS: &'static str = r#"
a client that closes gets no message
client end: 0s|  V2PUB t\n\0\0\0\x01a|OK
client-cut end: 0s|  V2SUB t c\nRDY 1\nCLS\n|OK, close wait|18: OK, first 0000010000000000a, close wait

a client closes once
client end: 0s|  V2PUB t\n\0\0\0\x01a|OK
client closed: 0s|  V2SUB t c\nRDY 1\nCLS\n|OK, close wait|18: OK, first 0000010000000000a, close wait / 0s|CLS\n|bytes \0\0\0\x1f\0\0\0\x01E_INVALID not in this state
"#;
