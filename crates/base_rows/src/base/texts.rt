//! Texts of the base types. A row is a name, a text, and what it is.

use crate::text::{check_row, cut, is_number, rows_of};
use crate::{check, same};
use nsq_base::{Chan, Memory, MsgId, Topic, is_address, port};
use std::alloc::Global;

// Addresses, each with its port, or `none`.
static ADDRESSES: &[u8] = b"\
an empty host|:4150|4150~\
colons in the host, and the greatest port|[::1]:65535|65535~\
the least port|h:1|1~\
a zero in front|h:04150|none~\
a port too great|h:65536|none~\
a port of 0|h:0|none~\
no port|h:|none~\
no colon|4150|none~\
a letter behind the port|h:1x|none~\
";

// Ids, each with its epoch and its number in hexadecimal digits, or `none`.
static IDS: &[u8] = b"\
the first id of the first epoch|0000010000000000|1 0~\
the second id|0000010000000001|1 1~\
digits above nine|abcdeffedcba9876|abcdef fedcba9876~\
the last id of the last epoch|ffffffffffffffff|ffffff ffffffffff~\
15 bytes|000001000000000|none~\
17 bytes|00000100000000012|none~\
";

// Names of topics and of channels: a `name`, an `ephemeral` one, or `none`.
static NAMES: &[u8] = b"\
one letter|a|name~\
each byte of a name|abcdefghijklmnopqrstuvwxyz.ABCDEFGHIJKLMNOPQRSTUVWXYZ-0123456789|name~\
an underscore and the suffix|_#ephemeral|ephemeral~\
64 bytes|aaaaaaaaaaaaaaaaaaaaaaaaaaaaaaaaaaaaaaaaaaaaaaaaaaaaaaaaaaaaaaaa|name~\
65 bytes|aaaaaaaaaaaaaaaaaaaaaaaaaaaaaaaaaaaaaaaaaaaaaaaaaaaaaaaaaaaaaaaaa|none~\
64 bytes with the suffix|aaaaaaaaaaaaaaaaaaaaaaaaaaaaaaaaaaaaaaaaaaaaaaaaaaaaaa#ephemeral|ephemeral~\
65 bytes with the suffix|aaaaaaaaaaaaaaaaaaaaaaaaaaaaaaaaaaaaaaaaaaaaaaaaaaaaaaa#ephemeral|none~\
nothing||none~\
the suffix alone|#ephemeral|none~\
the suffix twice|a#ephemeral#ephemeral|none~\
a cut suffix|a#ephemera|none~\
a space|a b|none~\
a colon|a:b|none~\
a slash|a/b|none~\
a line feed|a\n|none~\
a letter beyond ASCII|\xc3\xa4|none~\
a topic that is ephemeral|t#ephemeral|ephemeral~\
a channel that isn't|c|name~\
";

// Whether the text is an address with this port, or none.
fn is_port(text: &[u8], wanted: &'static [u8]) -> bool {
    if !is_address(text) {
        return same(wanted, b"none");
    }
    is_number(u64::from(port(text)), wanted)
}

// The number of hexadecimal digits.
fn hex(digits: &[u8]) -> u64 {
    let mut number = 0u64;
    for digit in digits {
        let value = match *digit {
            b'0'..=b'9' => *digit - b'0',
            b'a'..=b'f' => *digit - b'a' + 10,
            _ => return u64::MAX,
        };
        number = number.wrapping_mul(16) | u64::from(value);
    }
    number
}

// Whether the epoch and the number make this id.
fn is_made(id: MsgId, epoch: u64, number: u64) -> bool {
    let Ok(epoch) = u32::try_from(epoch) else {
        return false;
    };
    if epoch >= 1 << 24 || number >= 1 << 40 {
        return false;
    }
    id == MsgId::make(epoch, number)
}

fn is_id(bytes: &[u8], wanted: &'static [u8]) -> bool {
    let (epoch, number) = cut(wanted, b' ');
    match MsgId::read(bytes) {
        None => same(wanted, b"none"),
        Some(id) => same(id.bytes(), bytes) && is_made(id, hex(epoch), hex(number)),
    }
}

// Whether a name is of the wanted kind, with its bytes and its text.
fn is_name(given: &[u8], wanted: &[u8], ephemeral: bool, bytes: &[u8], text: &str) -> bool {
    let kind: &[u8] = if ephemeral { b"ephemeral" } else { b"name" };
    same(kind, wanted) && same(bytes, given) && same(text.as_bytes(), given)
}

// Whether a topic is read so.
fn is_topic(given: &[u8], wanted: &[u8]) -> bool {
    match Topic::read(given) {
        None => same(wanted, b"none"),
        Some(topic) => is_name(
            given,
            wanted,
            topic.ephemeral(),
            topic.bytes(),
            topic.as_str(),
        ),
    }
}

// The same of a channel.
fn is_channel(given: &[u8], wanted: &[u8]) -> bool {
    match Chan::read(given) {
        None => same(wanted, b"none"),
        Some(channel) => is_name(
            given,
            wanted,
            channel.ephemeral(),
            channel.bytes(),
            channel.as_str(),
        ),
    }
}

// What a table is of.
enum Kind {
    Address,
    Id,
    Name,
}

// The rows of such a table.
fn table_of(kind: &Kind) -> &'static [u8] {
    match kind {
        Kind::Address => ADDRESSES,
        Kind::Id => IDS,
        Kind::Name => NAMES,
    }
}

// Whether a text is what the row says behind its name.
fn holds(kind: &Kind, row: &'static [u8]) -> bool {
    let (text, wanted) = cut(row, b'|');
    match kind {
        Kind::Address => is_port(text, wanted),
        Kind::Id => is_id(text, wanted),
        Kind::Name => is_topic(text, wanted) && is_channel(text, wanted),
    }
}

// Whether want of memory is told so.
fn is_told(alloc: Global) -> bool {
    match format!(in alloc; "{}", Memory) {
        Ok(told) => same(told.as_bytes(), b"out of memory"),
        Err(_) => false,
    }
}

#[test]
fn rows(rt: HostRuntime) {
    for kind in &[Kind::Address, Kind::Id, Kind::Name] {
        for row in &rows_of(&rt, rt.alloc(), table_of(kind), b'~') {
            let (name, rest) = cut(row, b'|');
            check_row(&rt, holds(kind, rest), name);
        }
    }
    check(&rt, is_told(rt.alloc()), "want of memory");
}
