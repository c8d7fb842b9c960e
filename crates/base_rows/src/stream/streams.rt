//! Streams: a name, the bytes, in which `<5>` stands for five times `x`, the commands as they print, and what is behind them: `unfinished`, or
//! the place of a fault and its text.

use crate::same;
use crate::stream::reads::{copies, reads};
use crate::text::{check_row, cut, number_of, rows_of, text_of};
use std::alloc::Global;
use std::process::Abort;
use v2_frame::{Fault, FaultKind, Limits, Rest};

const LIMITS: Limits = Limits { msg: 5, body: 100 };

// Streams without a fault.
static COMMANDS: &[u8] = b"\
nothing||[]|unfinished~\
a cut magic|  V|[]|unfinished~\
a carriage return, and RDY without a number|  V2NOP\r\nRDY\n|[Nop, Rdy(1)]|unfinished~\
leading zeros and a minus sign|  V2RDY 007\nRDY -007\n|[Rdy(7), Rdy(-7)]|unfinished~\
SUB to an ephemeral channel, and CLS|  V2SUB t c#ephemeral\nCLS\n|[Sub(Topic { name: \"t\" }, Chan { name: \"c#ephemeral\" }), Cls]|unfinished~\
PUB|  V2PUB t\n\0\0\0\x02hi|[Pub(Topic { name: \"t\" }, Body { bytes: [104, 105] })]|unfinished~\
PUB of the greatest size|  V2PUB t\n\0\0\0\x05hello|[Pub(Topic { name: \"t\" }, Body { bytes: [104, 101, 108, 108, 111] })]|unfinished~\
PUB with a cut body|  V2PUB t\n\0\0\0\x05ab|[]|unfinished~\
IDENTIFY and a cut line|  V2IDENTIFY\n\0\0\0\x02{}NO|[Identify(Body { bytes: [123, 125] })]|unfinished~\
DPUB|  V2DPUB t 1000\n\0\0\0\x01d|[Dpub(Topic { name: \"t\" }, 1000, Body { bytes: [100] })]|unfinished~\
MPUB|  V2MPUB t\n\0\0\0\x13\0\0\0\x03\0\0\0\x01a\0\0\0\x01b\0\0\0\x01c|[Mpub(Topic { name: \"t\" }, Bodies { items: [Body { bytes: [97] }, Body { bytes: [98] }, Body { bytes: [99] }] })]|unfinished~\
";

// Streams with a fault.
static FAULTS: &[u8] = b"\
another magic|  V1|[]|0|E_BAD_PROTOCOL~\
a space behind the word|  V2NOP \n|[]|4|E_INVALID bad command~\
an empty line|  V2NOP\n\n|[Nop]|8|E_INVALID bad command~\
SUB without a channel|  V2SUB t\n|[]|4|E_INVALID bad command~\
a bad channel|  V2SUB t a:b\n|[]|4|E_BAD_CHANNEL bad channel name~\
a bad topic before a bad channel|  V2SUB t:u a:b\n|[]|4|E_BAD_TOPIC bad topic name~\
a bad number before a bad topic|  V2DPUB a:b x\n|[]|4|E_INVALID bad command~\
a plus sign|  V2RDY +7\n|[]|4|E_INVALID bad command~\
19 digits|  V2RDY 1234567890123456789\n|[]|4|E_INVALID bad command~\
a carriage return in an id|  V2FIN 0000010000000000\nFIN 00000100000000\r0\n|[Fin(MsgId { bytes: [48, 48, 48, 48, 48, 49, 48, 48, 48, 48, 48, 48, 48, 48, 48, 48] })]|25|E_INVALID bad command~\
PUB of size 0|  V2PUB t\n\0\0\0\0|[]|10|E_BAD_MESSAGE bad size~\
PUB of one byte too many|  V2PUB t\n\0\0\0\x06|[]|10|E_BAD_MESSAGE bad size~\
IDENTIFY of one byte too many|  V2IDENTIFY\n\0\0\0\x65|[]|13|E_BAD_BODY bad body~\
MPUB with a message above what is left|  V2MPUB t\n\0\0\0\x09\0\0\0\x01\0\0\0\x02a|[]|19|E_BAD_BODY bad body~\
MPUB of no message|  V2MPUB t\n\0\0\0\x04\0\0\0\0|[]|11|E_BAD_BODY bad body~\
MPUB with a byte behind its messages|  V2MPUB t\n\0\0\0\x0a\0\0\0\x01\0\0\0\x01ab|[]|24|E_BAD_BODY bad body~\
MPUB with a last message above what is left|  V2MPUB t\n\0\0\0\x13\0\0\0\x03\0\0\0\x01a\0\0\0\x01b\0\0\0\x02c|[]|29|E_BAD_BODY bad body~\
a bad word behind NOP and RDY|  V2NOP\r\nRDY\nRDY 007\nNOP \nNOP\n|[Nop, Rdy(1), Rdy(7)]|21|E_INVALID bad command~\
SUB without a channel behind RDY and CLS|  V2RDY -007\nCLS\nSUB t\n|[Rdy(-7), Cls]|17|E_INVALID bad command~\
a bad channel behind SUB|  V2SUB t c#ephemeral\nSUB t a:b\n|[Sub(Topic { name: \"t\" }, Chan { name: \"c#ephemeral\" })]|22|E_BAD_CHANNEL bad channel name~\
a bad topic behind IDENTIFY and NOP|  V2IDENTIFY\n\0\0\0\x02{}NOP\nSUB t:u a:b\n|[Identify(Body { bytes: [123, 125] }), Nop]|23|E_BAD_TOPIC bad topic name~\
PUB of size 0 behind a body of line feeds|  V2PUB t\n\0\0\0\x02hiPUB t\r\n\0\0\0\x05\n\n\n\n\nPUB t\n\0\0\0\0|[Pub(Topic { name: \"t\" }, Body { bytes: [104, 105] }), Pub(Topic { name: \"t\" }, Body { bytes: [10, 10, 10, 10, 10] })]|38|E_BAD_MESSAGE bad size~\
PUB of one byte too many behind DPUB|  V2DPUB t 1000\n\0\0\0\x01dPUB t\n\0\0\0\x06|[Dpub(Topic { name: \"t\" }, 1000, Body { bytes: [100] })]|27|E_BAD_MESSAGE bad size~\
a bad number behind MPUB|  V2MPUB t\n\0\0\0\x13\0\0\0\x03\0\0\0\x01a\0\0\0\x01\n\0\0\0\x01cDPUB a:b x\n|[Mpub(Topic { name: \"t\" }, Bodies { items: [Body { bytes: [97] }, Body { bytes: [10] }, Body { bytes: [99] }] })]|34|E_INVALID bad command~\
MPUB of one byte too many behind NOP|  V2NOP\nMPUB t\n\0\0\0\x65|[Nop]|15|E_BAD_BODY bad body~\
a carriage return in an id behind FIN and REQ|  V2FIN 0000010000000000\nREQ 0000010000000000 5\nFIN 00000100000000\r0\n|[Fin(MsgId { bytes: [48, 48, 48, 48, 48, 49, 48, 48, 48, 48, 48, 48, 48, 48, 48, 48] }), Req(MsgId { bytes: [48, 48, 48, 48, 48, 49, 48, 48, 48, 48, 48, 48, 48, 48, 48, 48] }, 5)]|48|E_INVALID bad command~\
a plus sign behind TOUCH|  V2TOUCH 0000010000000000\nRDY +7\n|[Touch(MsgId { bytes: [48, 48, 48, 48, 48, 49, 48, 48, 48, 48, 48, 48, 48, 48, 48, 48] })]|27|E_INVALID bad command~\
another magic before a command|  V1NOP\n|[]|0|E_BAD_PROTOCOL~\
";

// Streams with a long line.
static LINES: &[u8] = b"\
a line of 16,384 bytes|  V2<16384>\n|[]|4|E_INVALID bad command~\
with a carriage return|  V2<16384>\r\n|[]|4|E_INVALID bad command~\
a line of 16,385 bytes|  V2<16385>\n|[]|4|E_INVALID line too long~\
with a carriage return behind it|  V2<16385>\r\n|[]|4|E_INVALID line too long~\
16,385 bytes without an end|  V2<16385>|[]|unfinished~\
16,386 bytes without an end|  V2<16386>|[]|4|E_INVALID line too long~\
16,385 bytes without an end behind NOP|  V2NOP\n<16385>|[Nop]|unfinished~\
16,386 bytes without an end behind NOP|  V2NOP\n<16386>|[Nop]|8|E_INVALID line too long~\
a line of 16,385 bytes behind NOP|  V2NOP\n<16385>\n|[Nop]|8|E_INVALID line too long~\
";

// What is told of a fault.
struct Told {
    kind: FaultKind,
    text: &'static [u8],
}

static TOLD: [Told; 7] = [
    Told {
        kind: FaultKind::BadMagic,
        text: b"E_BAD_PROTOCOL",
    },
    Told {
        kind: FaultKind::LineTooLong,
        text: b"E_INVALID line too long",
    },
    Told {
        kind: FaultKind::BadWord,
        text: b"E_INVALID bad command",
    },
    Told {
        kind: FaultKind::BadChannel,
        text: b"E_BAD_CHANNEL bad channel name",
    },
    Told {
        kind: FaultKind::BadTopic,
        text: b"E_BAD_TOPIC bad topic name",
    },
    Told {
        kind: FaultKind::BadSize,
        text: b"E_BAD_MESSAGE bad size",
    },
    Told {
        kind: FaultKind::BadBody,
        text: b"E_BAD_BODY bad body",
    },
];

// The kind of fault of which this is told, which tells it itself.
fn kind_of(rt: &impl Abort, text: &[u8]) -> FaultKind {
    for told in &TOLD {
        if same(told.text, text) && same(told.kind.text(), text) {
            return told.kind;
        }
    }
    panic!(rt; "no fault tells this");
}

/// What is behind commands, as these words say it: `unfinished`, or the place of a fault and its text.
pub fn rest_of(rt: &impl Abort, words: &'static [u8]) -> Rest {
    if same(words, b"unfinished") {
        return Rest::Unfinished;
    }
    let (at, text) = cut(words, b'|');
    Rest::Faulty(Fault {
        kind: kind_of(rt, text),
        at: number_of(rt, at),
    })
}

// The bytes that a text stands for.
fn bytes_of(rt: &impl Abort, alloc: Global, text: &'static [u8]) -> Vec<u8> {
    let (front, rest) = cut(text, b'<');
    let mut bytes = front.to_vec(alloc).expect(rt, "memory");
    if !rest.is_empty() {
        let (count, behind) = cut(rest, b'>');
        for _ in 0..number_of(rt, count) {
            bytes.push(b'x').expect(rt, "memory");
        }
        bytes.extend_from_slice(behind).expect(rt, "memory");
    }
    bytes
}

// Whether the commands and the rest are read, the commands are copied, and the fault has its text.
fn check_stream(rt: &impl Abort, alloc: Global, row: &'static [u8]) {
    let (name, text) = cut(row, b'|');
    let (bytes, wanted) = cut(text, b'|');
    let (commands, rest) = cut(wanted, b'|');
    let bytes = bytes_of(rt, alloc, bytes);
    let commands = text_of(rt, commands);
    let read = reads(rt, alloc, LIMITS, &bytes, commands, rest_of(rt, rest));
    check_row(
        rt,
        read && copies(rt, alloc, LIMITS, &bytes, commands),
        name,
    );
}

#[test]
fn rows(rt: HostRuntime) {
    for table in [COMMANDS, FAULTS] {
        for row in &rows_of(&rt, rt.alloc(), table, b'~') {
            check_stream(&rt, rt.alloc(), row);
        }
    }
}

#[test]
fn lines(rt: HostRuntime) {
    for row in &rows_of(&rt, rt.alloc(), LINES, b'~') {
        check_stream(&rt, rt.alloc(), row);
    }
}
