//! Topics and channels that keep no message in memory.

pub static ROWS: &'static str = r#"
a message that waits stands in the topic's file
with memory 0
client-cut end: 0s|  V2PUB t\n\0\0\0\x01a|OK
leaves t.diskqueue.000000.dat \0\0\0\x1b\0\0\0\0\0\0\0\0\0\00000010000000000a

a message is sent from the channel's file
with memory 0
client end: 0s|  V2PUB t\n\0\0\0\x01a|OK
client-cut end: 0s|  V2SUB t c\nRDY 1\n|OK, first 0000010000000000a

a channel without a file has nothing to send
with memory 0
client end: 0s|  V2PUB t\n\0\0\0\x01a|OK
client-cut end: 0s|  V2SUB t c#ephemeral\nRDY 1\n|OK
"#;
