use crate::bytes::halves;
use nsq_base::{Body, Memory, Pair, Pairs};
use std::alloc::Global;

/// The pairs of a query, decoded.
pub(crate) fn read_query(alloc: Global, query: &[u8]) -> Result<Pairs, Memory> {
    let mut pairs = Pairs::new(alloc);
    let mut rest = query;
    for _ in 0..query.len() {
        let (part, behind) = halves(rest, b'&');
        if !part.is_empty() {
            put_made(&mut pairs, read_pair(alloc, part))?;
        }
        rest = behind;
    }
    Ok(pairs)
}

/// Adds a pair that was made, where memory didn't want.
fn put_made(pairs: &mut Pairs, made: Result<Pair, Memory>) -> Result<(), Memory> {
    pairs.push(made?)
}

/// A pair, parted at its first equals sign.
fn read_pair(alloc: Global, part: &[u8]) -> Result<Pair, Memory> {
    let (name, value) = halves(part, b'=');
    let name = decoded(alloc, name)?;
    let value = decoded(alloc, value)?;
    Ok(Pair { name, value })
}

/// The text that a name or a value stands for.
fn decoded(alloc: Global, encoded: &[u8]) -> Result<Body, Memory> {
    let bytes = without_escapes(alloc, encoded)?;
    let text = String::from_utf8_lossy(alloc, &bytes)?;
    Ok(Body::of(text.into_bytes()))
}

/// The bytes that these stand for.
fn without_escapes(alloc: Global, encoded: &[u8]) -> Result<Vec<u8>, Memory> {
    let mut bytes = Vec::new(alloc);
    let mut passed: usize = 0;
    for place in 0..encoded.len() {
        if passed > 0 {
            passed = passed.saturating_sub(1);
        } else {
            let (byte, more) = meant(encoded, place, encoded[place]);
            bytes.push(byte)?;
            passed = more;
        }
    }
    Ok(bytes)
}

/// The byte that the one at this place stands for, with how many behind it.
fn meant(encoded: &[u8], place: usize, byte: u8) -> (u8, usize) {
    match escaped(encoded, place) {
        Some(byte) => (byte, 2),
        None => (if byte == b'+' { b' ' } else { byte }, 0),
    }
}

/// The byte that is written at this place as a percent sign and two hexadecimal digits.
fn escaped(encoded: &[u8], place: usize) -> Option<u8> {
    let (_, rest) = encoded.split_at(place.min(encoded.len()));
    let [b'%', high, low, ..] = rest else {
        return None;
    };
    let high = char::from(*high).to_digit(16)?;
    let low = char::from(*low).to_digit(16)?;
    u8::try_from(high.saturating_mul(16).saturating_add(low)).ok()
}
