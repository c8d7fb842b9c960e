ghost use Rattle.std.specs.Prelude.{◌≡◌, ◌<◌, ◌^◌, ◌∷◌, [], ℕ, length, map, All, IfSome, MatchOption};
ghost use Rattle.httparse.specs.Spans.{IsHeaderWithin, header_bytes};
ghost use Rattle.nsq_base.specs.Decimal.{IsDecimal};
ghost use Rattle.http_wire.specs.Fields.{values_of, IsBodySize};

use httparse::spans::HeaderSpan;

/// The most digits of a body's length.
const MOST_DIGITS: usize = 18;

/// The value of the first field of this name, and the fields behind it, or None where no field has it.
pub(crate) fn first_named<'a, 'b>(
    head: &'a [u8],
    fields: &'b [HeaderSpan],
    name: &[u8],
) -> Option<(&'a [u8], &'b [HeaderSpan])>
    requires { All (IsHeaderWithin (length head.now)) fields.now }
    ensures within { IfSome result (λ found. All (IsHeaderWithin (length head.now)) found.1.now) }
    ensures values { MatchOption result (values_of name.now (map (header_bytes head.now) fields.now) ≡ [])
        (λ found. values_of name.now (map (header_bytes head.now) fields.now) ≡ found.0.now ∷ values_of name.now (map (header_bytes head.now) found.1.now)) }
{
    for (place, field) in fields.iter().enumerate() {
        if field.name.of(head).eq_ignore_ascii_case(name) {
            return Some((field.value.of(head), &fields[place + 1..]));
        }
    }
    None
}

/// How long the fields say that the body is, or None where they say it twice or not by a number of 1 to 18 digits.
pub(crate) fn size_of(head: &[u8], fields: &[HeaderSpan]) -> Option<u64>
    requires { All (IsHeaderWithin (length head.now)) fields.now }
    ensures { MatchOption result ((size : ℕ) → ¬ (IsBodySize (map (header_bytes head.now) fields.now) size))
        (λ size. IsBodySize (map (header_bytes head.now) fields.now) size × (size < 10 ^ 18)) }
{
    let Some((value, behind)) = first_named(head, fields, b"content-length") else {
        return Some(0);
    };
    match first_named(head, behind, b"content-length") {
        Some(_) => None,
        None => number_of(value),
    }
}

/// The number that the digits spell, or None exactly where they aren't 1 to 18 digits.
fn number_of(digits: &[u8]) -> Option<u64>
    ensures { MatchOption result ((n : ℕ) → ¬ (IsDecimal 18 digits.now n)) (λ n. IsDecimal 18 digits.now n × (n < 10 ^ 18)) }
{
    if digits.is_empty() || digits.len() > MOST_DIGITS {
        return None;
    }
    let mut number = 0;
    for digit in digits {
        if !digit.is_ascii_digit() {
            return None;
        }
        number = number * 10 + u64::from(digit - b'0');
    }
    Some(number)
}
