ghost use Rattle.std.specs.Prelude.{◌≡◌, ◌+◌, ◌*◌, ◌^◌, ◌<◌, ◌↔◌, ℕ, ℤ, IsTrue, MatchOption};
ghost use Rattle.nsq_base.specs.Decimal.{IsDecimal};
ghost use Rattle.v2_frame.specs.Line.{IsNumber, IsIdWord};

use nsq_base::MsgId;

/// The most digits of a number.
const MOST_DIGITS: usize = 18;

/// The number that the word is, or None exactly where it is none.
pub(crate) fn number_of(word: &[u8]) -> Option<i64>
    ensures { MatchOption result ((z : ℤ) → IsNumber word.now z → ⊥) (λ z. IsNumber word.now z) }
{
    if !word.is_empty() && word[0] == b'-' {
        let Some(size) = decimal_of(&word[1..]) else {
            return None;
        };
        return Some(-(size as i64));
    }
    let Some(size) = decimal_of(word) else {
        return None;
    };
    Some(size as i64)
}

/// The number that the decimal digits are, or None exactly where they aren't 1 to 18 digits.
fn decimal_of(digits: &[u8]) -> Option<u64>
    ensures { MatchOption result ((n : ℕ) → IsDecimal 18 digits.now n → ⊥) (λ n. IsDecimal 18 digits.now n × (n < 10 ^ 18)) }
{
    if digits.is_empty() || digits.len() > MOST_DIGITS {
        return None;
    }
    let mut number = 0;
    for digit in digits {
        if !digit.is_ascii_digit() {
            return None;
        }
        number = number * 10 + u64::from(digit - b'0');
    }
    Some(number)
}

/// The id that the word is, or None exactly where it is none.
pub(crate) fn id_of(word: &[u8]) -> Option<MsgId>
    ensures { MatchOption result (IsIdWord word.now → ⊥) (λ id. IsIdWord word.now × (id ≡ word.now)) }
{
    if word.iter().any(|byte| matches!(byte, b' ' | b'\n' | b'\r')) {
        return None;
    }
    MsgId::read(word)
}
