//! Messages that are sent, finished and held by a count of what is in flight, and a client that wants no more.

pub static ROWS: &'static str = r#"
as many are sent as are wanted, and one more as one is finished
tcp   V2PUB t\n\0\0\0\x01aPUB t\n\0\0\0\x01bPUB t\n\0\0\0\x01c => OK, OK, OK
tcp   V2SUB t c\nRDY 2\n|FIN 0000010000000000\n => OK, first 0000010000000000a, first 0000010000000001b, first 0000010000000002c

nothing is sent while as many are in flight as are wanted
// Four are finished of five that are in flight, where one is wanted at a time.
tcp   V2PUB t\n\0\0\0\x01aPUB t\n\0\0\0\x01bPUB t\n\0\0\0\x01cPUB t\n\0\0\0\x01dPUB t\n\0\0\0\x01ePUB t\n\0\0\0\x01f => OK, OK, OK, OK, OK, OK
tcp   V2SUB t c\nRDY 5\n|RDY 1\nFIN 0000010000000000\nFIN 0000010000000001\nFIN 0000010000000002\nFIN 0000010000000003\n| => OK, first 0000010000000000a, first 0000010000000001b, first 0000010000000002c, first 0000010000000003d, first 0000010000000004e

the next is sent as the fifth is finished, and not before
// A message that isn't in flight any longer shows how far the answers came.
tcp   V2PUB t\n\0\0\0\x01aPUB t\n\0\0\0\x01bPUB t\n\0\0\0\x01cPUB t\n\0\0\0\x01dPUB t\n\0\0\0\x01ePUB t\n\0\0\0\x01f => OK, OK, OK, OK, OK, OK
tcp   V2SUB t c\nRDY 5\n|RDY 1\nFIN 0000010000000000\nFIN 0000010000000001\nFIN 0000010000000002\nFIN 0000010000000003\n|FIN 0000010000000000\n|FIN 0000010000000004\n => OK, first 0000010000000000a, first 0000010000000001b, first 0000010000000002c, first 0000010000000003d, first 0000010000000004e, not in flight, first 0000010000000005f

a message is finished once, and the client goes on
tcp   V2PUB t\n\0\0\0\x01a => OK
tcp   V2SUB t c\nRDY 1\n|FIN 0000010000000000\nFIN 0000010000000000\nNOP\n => OK, first 0000010000000000a, not in flight

a client that wants no more gets none, and says so once
tcp   V2PUB t\n\0\0\0\x01a => OK
tcp-closed   V2SUB t c\nRDY 1\nCLS\n|CLS\n => OK, close wait, bytes \0\0\0\x1f\0\0\0\x01E_INVALID not in this state
"#;
