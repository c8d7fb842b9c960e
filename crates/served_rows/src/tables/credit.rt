//! How many messages a client is sent, by its RDY and its FINs.

pub static ROWS: &'static str = r#"
two of three messages are sent, and the third one behind a FIN
client end: 0s|  V2PUB t\n\0\0\0\x01aPUB t\n\0\0\0\x01bPUB t\n\0\0\0\x01c|OK, OK, OK
client end: 0s|  V2SUB t c\nRDY 2\n|OK, first 0000010000000000a, first 0000010000000001b / 0s|FIN 0000010000000000\n|first 0000010000000002c

behind a lower RDY nothing is sent until fewer are in flight
client end: 0s|  V2MPUB t\n\0\0\0\x22\0\0\0\x06\0\0\0\x01a\0\0\0\x01b\0\0\0\x01c\0\0\0\x01d\0\0\0\x01e\0\0\0\x01f|OK
client end: 0s|  V2SUB t c\nRDY 5\n|OK, first 0000010000000000a, first 0000010000000001b, first 0000010000000002c, first 0000010000000003d, first 0000010000000004e / 0s|RDY 1\n| / 0s|FIN 0000010000000000\n| / 0s|FIN 0000010000000001\n| / 0s|FIN 0000010000000002\n| / 0s|FIN 0000010000000003\n| / 0s|FIN 0000010000000004\n|first 0000010000000005f

a second FIN of a message is refused, and the connection goes on
client end: 0s|  V2PUB t\n\0\0\0\x01a|OK
client end: 0s|  V2SUB t c\nRDY 1\n|OK, first 0000010000000000a / 0s|FIN 0000010000000000\nFIN 0000010000000000\n|not in flight / 0s|NOP\n| / 0s|CLS\n|close wait
"#;
