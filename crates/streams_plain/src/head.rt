use crate::bytes::{cut, same};
use std::str::from_utf8;

/// The most fields of a head.
const MOST_FIELDS: usize = 64;

/// What a head says.
#[derive(Clone, Copy)]
pub(crate) struct Head<'a> {
    /// The method.
    pub(crate) method: &'a [u8],
    /// The target.
    pub(crate) target: &'a [u8],
    /// How many fields say how long the body is.
    pub(crate) lengths: usize,
    /// What the last of these says, or `0` where there is none.
    pub(crate) length: &'a [u8],
    /// Whether a field says that the body comes in another form than so many bytes.
    pub(crate) coded: bool,
    fields: usize,
}

/// Where a byte stands in a head.
#[derive(Clone, Copy)]
enum Place {
    /// Among the line ends before it.
    Before,
    /// In a line.
    Line,
    /// Behind a line feed.
    Feed,
    /// Behind a line feed and a carriage return.
    Return,
}

/// Where the first head ends.
pub(crate) fn head_end(bytes: &[u8]) -> Option<usize> {
    let mut place = Place::Before;
    let mut end: usize = 0;
    for byte in bytes {
        end = end.saturating_add(1);
        place = match (place, *byte) {
            (Place::Before, b'\r' | b'\n') => Place::Before,
            (Place::Feed | Place::Return, b'\n') => return Some(end),
            (Place::Line, b'\n') => Place::Feed,
            (Place::Feed, b'\r') => Place::Return,
            _ => Place::Line,
        };
    }
    None
}

/// What the lines of a head say, or None where one of them is none of a request's head (RFC 9112).
pub(crate) fn read_head(text: &[u8]) -> Option<Head<'_>> {
    let mut rest = text;
    for _ in 0..text.len() {
        let Some((line, behind)) = cut(rest, b'\n') else {
            return None;
        };
        let line = without_return(line);
        if !line.is_empty() {
            return with_fields(start_line(line), behind);
        }
        rest = behind;
    }
    None
}

/// The head with the fields of these lines, up to an empty one.
fn with_fields<'a>(head: Option<Head<'a>>, text: &'a [u8]) -> Option<Head<'a>> {
    let mut head = head;
    let mut rest = text;
    for _ in 0..text.len() {
        let Some((line, behind)) = cut(rest, b'\n') else {
            return None;
        };
        let line = without_return(line);
        if line.is_empty() {
            return head;
        }
        head = with_line(head, line);
        rest = behind;
    }
    None
}

/// The head with the field of one more line, None where there is no head.
fn with_line<'a>(head: Option<Head<'a>>, line: &'a [u8]) -> Option<Head<'a>> {
    match head {
        Some(head) => with_field(head, line),
        None => None,
    }
}

/// The line without one carriage return at its end.
fn without_return(line: &[u8]) -> &[u8] {
    line.strip_suffix(b"\r").unwrap_or(line)
}

/// A head of which this is the first line: a method, a target and a version, parted by single spaces.
fn start_line(line: &[u8]) -> Option<Head<'_>> {
    let Some((method, rest)) = cut(line, b' ') else {
        return None;
    };
    let Some((target, version)) = cut(rest, b' ') else {
        return None;
    };
    if !is_token(method) || !is_target(target) || !is_version(version) {
        return None;
    }
    Some(Head {
        method,
        target,
        lengths: 0,
        length: b"0",
        coded: false,
        fields: 0,
    })
}

/// Whether the bytes are a target: one byte at least, in UTF-8, and no control bytes or spaces.
fn is_target(bytes: &[u8]) -> bool {
    for byte in bytes {
        if *byte <= b' ' || *byte == 127 {
            return false;
        }
    }
    !bytes.is_empty() && from_utf8(bytes).is_ok()
}

/// Whether the bytes are a version.
fn is_version(bytes: &[u8]) -> bool {
    same(bytes, b"HTTP/1.0") || same(bytes, b"HTTP/1.1")
}

/// The head with one more field: a name, a colon, and a value that may have white space round it.
fn with_field<'a>(head: Head<'a>, line: &'a [u8]) -> Option<Head<'a>> {
    let Some((name, value)) = cut(line, b':') else {
        return None;
    };
    if !is_token(name) || !is_value(value) || head.fields >= MOST_FIELDS {
        return None;
    }
    let mut head = head;
    head.fields = head.fields.saturating_add(1);
    if name.eq_ignore_ascii_case(b"content-length") {
        head.lengths = head.lengths.saturating_add(1);
        head.length = trimmed(value);
    }
    head.coded = head.coded || name.eq_ignore_ascii_case(b"transfer-encoding");
    Some(head)
}

/// Whether all bytes may stand in a value.
fn is_value(bytes: &[u8]) -> bool {
    for byte in bytes {
        if !is_value_byte(*byte) {
            return false;
        }
    }
    true
}

/// A tab, or any byte but the control bytes.
fn is_value_byte(byte: u8) -> bool {
    byte == b'\t' || byte >= b' ' && byte != 127
}

/// The value without spaces and tabs at its ends.
fn trimmed(value: &[u8]) -> &[u8] {
    let mut value = value;
    for _ in 0..value.len() {
        value = match value {
            [b' ' | b'\t', rest @ ..] => rest,
            [rest @ .., b' ' | b'\t'] => rest,
            _ => return value,
        };
    }
    value
}

/// Whether the bytes are a token: one byte at least, each a letter, a digit or one of fifteen signs.
fn is_token(bytes: &[u8]) -> bool {
    for byte in bytes {
        if !is_token_byte(*byte) {
            return false;
        }
    }
    !bytes.is_empty()
}

/// Whether a byte may stand in a token.
fn is_token_byte(byte: u8) -> bool {
    byte.is_ascii_alphanumeric()
        || matches!(
            byte,
            b'!' | b'#'
                | b'$'
                | b'%'
                | b'&'
                | b'\''
                | b'*'
                | b'+'
                | b'-'
                | b'.'
                | b'^'
                | b'_'
                | b'`'
                | b'|'
                | b'~'
        )
}
