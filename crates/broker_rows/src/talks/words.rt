//! What clients send and get, as words, and the bytes of each word. The topic is `t`.

use crate::made::bytes_of;
use std::process::Abort;

/// What a client sends: the four bytes that a stream begins with, and commands. A publish names its letter, a subscription its channel, and FIN and
/// REQ the n-th message of the first run; `BadWord` is a line that says no command.
const SENT: &str = "\
Magic   V2~\
PubA PUB t\n\0\0\0\x01a~\
PubB PUB t\n\0\0\0\x01b~\
PubC PUB t\n\0\0\0\x01c~\
PubD PUB t\n\0\0\0\x01d~\
MpubD MPUB t\n\0\0\0\x09\0\0\0\x01\0\0\0\x01d~\
PubX PUB t\n\0\0\0\x01x~\
MpubSix MPUB t\n\0\0\0\x22\0\0\0\x06\0\0\0\x01a\0\0\0\x01b\0\0\0\x01c\0\0\0\x01d\0\0\0\x01e\0\0\0\x01f~\
DpubSecond DPUB t 1000\n\0\0\0\x01d~\
DpubTooLong DPUB t 3600001\n\0\0\0\x01d~\
Fin0 FIN 0000010000000000\n~\
Fin1 FIN 0000010000000001\n~\
Fin2 FIN 0000010000000002\n~\
Fin3 FIN 0000010000000003\n~\
Fin4 FIN 0000010000000004\n~\
Req0 REQ 0000010000000000 0\n~\
Req0Later REQ 0000010000000000 5000\n~\
Req1TooLong REQ 0000010000000001 99999999\n~\
SubA SUB t a\n~\
SubB SUB t b\n~\
SubC SUB t c\n~\
SubFirst SUB t c1\n~\
SubSecond SUB t c2\n~\
SubEphemeral SUB t c#ephemeral\n~\
Rdy0 RDY 0\n~\
Rdy1 RDY 1\n~\
Rdy2 RDY 2\n~\
Rdy5 RDY 5\n~\
Cls CLS\n~\
Negotiate IDENTIFY\n\0\0\0\x1c{\"feature_negotiation\":true}~\
SayNothing IDENTIFY\n\0\0\0\x02{}~\
SayArray IDENTIFY\n\0\0\0\x02[]~\
Nop NOP\n~\
No NO~\
P P\n~\
BadMagic   V1~\
BadWord NOPE\n~\
Empty ~\
";

/// What a client gets: responses, errors, messages of the first run, sent for the first time, or once more, and what is cut short or is no frame.
/// `GotNew` is the letter d with the first id of the second run, and `OtherB` the second message with another letter.
const GOT: &str = "\
Nothing ~\
Okay \0\0\0\x06\0\0\0\0OK~\
CloseWait \0\0\0\x0e\0\0\0\0CLOSE_WAIT~\
Heartbeat \0\0\0\x0f\0\0\0\0_heartbeat_~\
WrongState \0\0\0\x1f\0\0\0\x01E_INVALID not in this state~\
NotFinished \0\0\0\x26\0\0\0\x01E_FIN_FAILED message not in flight~\
BadJson \0\0\0\x17\0\0\0\x01E_BAD_BODY bad JSON~\
BadDelay \0\0\0\x17\0\0\0\x01E_INVALID bad delay~\
BadProtocol \0\0\0\x12\0\0\0\x01E_BAD_PROTOCOL~\
BadCommand \0\0\0\x19\0\0\0\x01E_INVALID bad command~\
NoMemory \0\0\0\x1a\0\0\0\x01E_MEMORY out of memory~\
GotA \0\0\0\x1f\0\0\0\x02\0\0\0\0\0\0\0\0\0\x010000010000000000a~\
GotB \0\0\0\x1f\0\0\0\x02\0\0\0\0\0\0\0\0\0\x010000010000000001b~\
GotC \0\0\0\x1f\0\0\0\x02\0\0\0\0\0\0\0\0\0\x010000010000000002c~\
GotD \0\0\0\x1f\0\0\0\x02\0\0\0\0\0\0\0\0\0\x010000010000000003d~\
GotE \0\0\0\x1f\0\0\0\x02\0\0\0\0\0\0\0\0\0\x010000010000000004e~\
GotF \0\0\0\x1f\0\0\0\x02\0\0\0\0\0\0\0\0\0\x010000010000000005f~\
AgainA \0\0\0\x1f\0\0\0\x02\0\0\0\0\0\0\0\0\0\x020000010000000000a~\
AgainB \0\0\0\x1f\0\0\0\x02\0\0\0\0\0\0\0\0\0\x020000010000000001b~\
GotX \0\0\0\x1f\0\0\0\x02\0\0\0\0\0\0\0\0\0\x010000010000000000x~\
AgainX \0\0\0\x1f\0\0\0\x02\0\0\0\0\0\0\0\0\0\x020000010000000000x~\
GotNew \0\0\0\x1f\0\0\0\x02\0\0\0\0\0\0\0\0\0\x010000020000000000d~\
OtherB \0\0\0\x1f\0\0\0\x02\0\0\0\0\0\0\0\0\0\x010000010000000001c~\
DiskFault \0\0\0\x1c\0\0\0\x01E_DPUB_FAILED disk fault~\
PublishDiskFault \0\0\0\x1b\0\0\0\x01E_PUB_FAILED disk fault~\
ListDiskFault \0\0\0\x1c\0\0\0\x01E_MPUB_FAILED disk fault~\
ReqDiskFault \0\0\0\x1b\0\0\0\x01E_REQ_FAILED disk fault~\
CutHeartbeat \0\0\0\x0f\0\0\0\0_heart~\
CutNoMemory \0\0\0\x1a\0\0\0\x01E~\
X x~\
";

/// The features, and such with another number.
const FEATURES: &[u8] =
    b"\0\0\0\xd5\0\0\0\0{\"auth_required\":false,\"deflate\":false,\"deflate_level\":0,\"max_deflate_level\":0,\"max_msg_timeout\":900000,\"max_rdy_count\":2500,\"msg_timeout\":60000,\"sample_rate\":0,\"snappy\":false,\"tls_v1\":false,\"version\":\"1.0.0\"}";

const OTHER_FEATURES: &[u8] =
    b"\0\0\0\xd5\0\0\0\0{\"auth_required\":false,\"deflate\":false,\"deflate_level\":0,\"max_deflate_level\":0,\"max_msg_timeout\":900000,\"max_rdy_count\":2500,\"msg_timeout\":60001,\"sample_rate\":0,\"snappy\":false,\"tls_v1\":false,\"version\":\"1.0.0\"}";

/// The bytes that a client sends. `TooLong` is one byte more than a read gives.
pub fn sent_bytes(rt: &impl Abort, word: &str) -> &'static [u8] {
    match word {
        "TooLong" => &[b'N'; 16385],
        _ => bytes_of(rt, SENT, word),
    }
}

/// The bytes that a client gets.
pub fn got_bytes(rt: &impl Abort, word: &str) -> &'static [u8] {
    match word {
        "Features" => FEATURES,
        "OtherFeatures" => OTHER_FEATURES,
        _ => bytes_of(rt, GOT, word),
    }
}
