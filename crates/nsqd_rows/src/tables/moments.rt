//! What comes by the clock alone. It is read at the opening, and at each turn: one begins each round of the loop over the callers, and of a client there is one as
//! it begins, one for each message or heartbeat and one for none before each read, one for each command, and one as it goes.

pub static ROWS: &'static str = r#"
a FIN at the moment at which a message's time is over comes too late, and it is sent again
words --msg-timeout=1s
option timeout 1000000000
// The opening; the round and five turns of the first caller; the round and six turns of the second before its last piece.
clock 14 at 0, 1 at 1000000000
tcp   V2PUB t\n\0\0\0\x01x => OK
tcp   V2SUB t c\nRDY 1\n|FIN 0000010000000000\n => OK, first 0000010000000000x, not in flight, second 0000010000000000x

a client that sends nothing for an interval gets a heartbeat, and after two it is closed
// The opening, the round and four turns; then a heartbeat and nothing more.
clock 6 at 0, 2 at 30000000000, 1 at 60000000000
tcp-closed   V2NOP\n|| => bytes \0\0\0\x0f\0\0\0\0_heartbeat_
"#;
